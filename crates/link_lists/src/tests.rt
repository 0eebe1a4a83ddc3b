ghost use Rattle.std.specs.Prelude.{◌≡◌, ◌<◌, IfOk, length};
ghost use Rattle.link_lists.specs.Lists.{list_at};

use super::*;
use std::alloc::{AllocError, Global};
use std::test::*;

fn nodes_of(alloc: Global, chains: &Chains, list: u32) -> Result<Vec<u32>, AllocError>
    requires { list < length chains.now.lists }
    ensures { IfOk result (λ v. v.items ≡ list_at chains.now list) }
{
    Ring::new(chains, list).collect(alloc)
}

fn put(chains: &mut Chains, list: u32, node: u32)
    requires list { list < length chains.old.lists }
    requires node { node < chains.old.nodes }
    ensures lists { length chains.new.lists ≡ length chains.old.lists }
    ensures nodes { chains.new.nodes ≡ chains.old.nodes }
{
    if chains.is_free(node) {
        chains.push_back(list, node);
    }
}

// The list 0 has the nodes 2, 0 and 3, and the list 1 the node 1.
fn filled(alloc: Global) -> Result<Chains, AllocError>
    ensures lists { IfOk result (λ c. length c.lists ≡ 2) }
    ensures nodes { IfOk result (λ c. c.nodes ≡ 5) }
{
    let mut chains = Chains::new(alloc, 5, 2)?;
    put(&mut chains, 0, 2);
    put(&mut chains, 0, 0);
    put(&mut chains, 1, 1);
    put(&mut chains, 0, 3);
    put(&mut chains, 1, 3);
    Ok(chains)
}

#[test]
fn a_node_stays_in_its_list(rt: HostRuntime) -> Result<(), Fail> {
    let chains = filled(rt.alloc())?;
    assert_eq!(rt;
        nodes_of(rt.alloc(), &chains, 0)?.as_slice(),
        [2, 0, 3].as_slice()
    );
    assert_eq!(rt;
        nodes_of(rt.alloc(), &chains, 1)?.as_slice(),
        [1].as_slice()
    );
    Ok(())
}

#[test]
fn a_node_goes_before_another(rt: HostRuntime) -> Result<(), Fail> {
    let mut chains = filled(rt.alloc())?;
    if chains.contains(0, 0) && chains.is_free(4) {
        chains.insert_before(0, 0, 4);
    }
    assert_eq!(rt;
        nodes_of(rt.alloc(), &chains, 0)?.as_slice(),
        [2, 4, 0, 3].as_slice()
    );
    Ok(())
}

#[test]
fn a_node_that_was_taken_out_is_free(rt: HostRuntime) -> Result<(), Fail> {
    let mut chains = filled(rt.alloc())?;
    if chains.contains(0, 0) {
        chains.unlink(0, 0);
    }
    put(&mut chains, 1, 0);
    assert_eq!(rt;
        nodes_of(rt.alloc(), &chains, 0)?.as_slice(),
        [2, 3].as_slice()
    );
    assert_eq!(rt;
        nodes_of(rt.alloc(), &chains, 1)?.as_slice(),
        [1, 0].as_slice()
    );
    Ok(())
}

#[test]
fn a_node_stands_in_two_lists(rt: HostRuntime) -> Result<(), Fail> {
    let mut links = Links::new(rt.alloc(), 3, 2)?;
    links.push_back(0, 2);
    links.push_back(1, 2);
    links.insert_before(1, 2, 0);
    assert_eq!(rt; (links.front(0), links.next(1, 0)), (Some(2), Some(2)));
    links.unlink(1, 2);
    assert_eq!(rt;
        (links.contains(0, 2), links.contains(1, 2), links.next(1, 0)),
        (true, false, None)
    );
    Ok(())
}
