ghost use Rattle.std.specs.Prelude.{◌≡◌, ◌/◌, ◌+◌, ◌<◌, IfOk, length};
ghost use Rattle.blossom_nest.specs.Nests.{IsName, children_of};

use super::*;
use std::alloc::{AllocError, Global};
use std::test::*;

fn children_in(alloc: Global, nest: &Nest, set: u32) -> Result<Vec<u32>, AllocError>
    requires { IsName nest.now set }
    ensures { IfOk result (λ v. v.items ≡ children_of nest.now set) }
{
    nest.cycle(set).collect(alloc)
}

// The ring of three sets, where they are outermost and differ.
fn shrink_three(nest: &mut Nest, one: u32, two: u32, three: u32) -> Option<u32>
    ensures { nest.new.vertices ≡ nest.old.vertices }
{
    if one == two || two == three || one == three {
        return None;
    }
    if !nest.is_outermost(one) || !nest.is_outermost(two) || !nest.is_outermost(three) {
        return None;
    }
    Some(nest.shrink(&[one, two, three]))
}

fn expand_named(nest: &mut Nest, set: u32)
    ensures { nest.new.vertices ≡ nest.old.vertices }
{
    let vertices = nest.vertices();
    if vertices <= set && nest.is_outermost(set) {
        nest.expand(set);
    }
}

// The sets 4, 2 and 0 as a ring of seven vertices, and a ring of that set with 6 and 1.
fn nested(alloc: Global) -> Result<Nest, AllocError>
    ensures { IfOk result (λ n. n.vertices ≡ 7) }
{
    let mut nest = Nest::new(alloc, 7)?;
    if let Some(inner) = shrink_three(&mut nest, 4, 2, 0) {
        let _ = shrink_three(&mut nest, 6, inner, 1);
    }
    Ok(nest)
}

#[test]
fn a_ring_is_one_set(rt: HostRuntime) -> Result<(), Fail> {
    let nest = nested(rt.alloc())?;
    let outermost = (nest.outermost(0), nest.outermost(3), nest.outermost(6));
    assert_eq!(rt; outermost, (8, 3, 8));
    assert_eq!(rt;
        children_in(rt.alloc(), &nest, 9)?.as_slice(),
        [4, 2, 0].as_slice()
    );
    Ok(())
}

#[test]
fn children_keep_their_order(rt: HostRuntime) -> Result<(), Fail> {
    let nest = nested(rt.alloc())?;
    assert_eq!(rt;
        children_in(rt.alloc(), &nest, 8)?.as_slice(),
        [6, 9, 1].as_slice()
    );
    assert_eq!(rt;
        (nest.parent(2), nest.parent(9), nest.parent(8)),
        (Some(9), Some(8), None)
    );
    Ok(())
}

#[test]
fn a_name_is_free_after_its_set_is_expanded(rt: HostRuntime) -> Result<(), Fail> {
    let mut nest = nested(rt.alloc())?;
    expand_named(&mut nest, 8);
    let outermost = (nest.outermost(0), nest.outermost(6));
    assert_eq!(rt; outermost, (9, 6));
    assert_eq!(rt; shrink_three(&mut nest, 3, 9, 5), Some(8));
    Ok(())
}
