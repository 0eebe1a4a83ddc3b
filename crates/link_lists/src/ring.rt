//! The nodes of a list, in order, each once.
ghost use Rattle.std.specs.Prelude.{◌≡◌, ◌<◌, length};
ghost use Rattle.link_lists.specs.Lists.{list_at};

use crate::Chains;
use std::marker::Model;

/// An iterator over the nodes of a list.
#[derive(Drop)]
pub struct Ring<'a> {
    chains: &'a Chains,
    list: u32,
    here: Option<u32>,
}

impl<'a> Model for Ring<'a> {
    ghost use Rattle.std.specs.Prelude.{List, ℕ, ◌<◌, length};
    ghost use Rattle.link_lists.specs.Lists.{left_from, list_at};
    ghost use Rattle.link_lists.specs.Chains.{StandsIn};

    ghost Value = { List ℕ };

    ghost view = { λ r. left_from r.here (list_at r.chains.now r.list) };

    ghost invariant = { λ r. StandsIn r.here (list_at r.chains.now r.list)
        × (r.list < length r.chains.now.lists) };
}

impl<'a> Ring<'a> {
    /// The nodes of a list, from the first on.
    pub fn new(chains: &'a Chains, list: u32) -> Ring<'a>
        requires { list < length chains.now.lists }
        ensures { result ≡ list_at chains.entry.now list }
    {
        chains.are_disjoint();
        let here = chains.front(list);
        Ring { chains, list, here }
    }
}

impl<'a> Iterator for Ring<'a> {
    type Item = u32;

    ghost use Rattle.std.specs.Iterator.{YieldsFirst, item_count};

    ghost next_gives = { YieldsFirst (λ r. r) };

    ghost remaining = { item_count (λ r. r) };

    fn next(&mut self) -> Option<u32> {
        let node = self.here?;
        self.here = self.chains.next(self.list, node);
        Some(node)
    }
}
