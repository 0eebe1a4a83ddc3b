//! Several lists over the same nodes, of which each may be in several lists.
ghost use Rattle.std.specs.Prelude.{◌≡◌, ◌<◌, ◌≤◌, ◌*◌, ◌++◌, ◌∷◌, [], IfOk, false, true, length};
ghost use Rattle.graph_model.specs.Graph.{is_in};
ghost use Rattle.link_lists.specs.Lists.{IsOrderly, bare, list_at, most, with_list, put_before, without, first, after};

use crate::Chains;
use std::alloc::{AllocError, Global};
use std::marker::Model;

/// Lists by their numbers. A node may be in several of them.
#[derive(Drop)]
pub struct Links {
    nodes: u32,
    lists: Vec<Chains>,
}

impl Model for Links {
    ghost use Rattle.link_lists.specs.Lists.{Lists, AreSingle, firsts_of};

    ghost Value = { Lists };

    ghost view = { λ l. record { nodes = l.nodes; lists = firsts_of l.lists.items } };

    ghost invariant = { λ l. AreSingle l.nodes l.lists.items };
}

impl Links {
    /// Lists without a node.
    pub fn new(alloc: Global, nodes: u32, lists: u32) -> Result<Links, AllocError>
        requires { nodes * lists ≤ most }
        ensures { IfOk result (λ l. l ≡ bare nodes lists) }
    {
        let mut made = Vec::new(alloc);
        for _ in 0..lists {
            made.push(Chains::new(alloc, nodes, 1)?)?;
        }
        Ok(Links { nodes, lists: made })
    }

    /// What always holds of the lists.
    pub fn are_orderly(&self)
        ensures { IsOrderly self.now }
    {
        let _ = &self.lists;
    }

    /// The first node of a list.
    pub fn front(&self, list: u32) -> Option<u32>
        requires { list < length self.now.lists }
        ensures { result ≡ first (list_at self.now list) }
    {
        self.lists[list as usize].front(0)
    }

    /// The node after a node of a list.
    pub fn next(&self, list: u32, node: u32) -> Option<u32>
        requires list { list < length self.now.lists }
        requires present { is_in (list_at self.now list) node ≡ true }
        ensures { result ≡ after node (list_at self.now list) }
    {
        self.lists[list as usize].next(0, node)
    }

    /// Whether the list has the node.
    pub fn contains(&self, list: u32, node: u32) -> bool
        requires list { list < length self.now.lists }
        requires node { node < self.now.nodes }
        ensures { result ≡ is_in (list_at self.now list) node }
    {
        self.lists[list as usize].contains(0, node)
    }

    /// Puts a node that isn't in the list at its end.
    pub fn push_back(&mut self, list: u32, node: u32)
        requires list { list < length self.old.lists }
        requires node { node < self.old.nodes }
        requires absent { is_in (list_at self.old list) node ≡ false }
        ensures { self.new ≡ with_list self.old list (list_at self.old list ++ node ∷ []) }
    {
        let one = &mut self.lists[list as usize];
        one.push_back(0, node);
        one.are_disjoint();
    }

    /// Puts a node that isn't in the list before a node of it.
    pub fn insert_before(&mut self, list: u32, place: u32, node: u32)
        requires list { list < length self.old.lists }
        requires node { node < self.old.nodes }
        requires absent { is_in (list_at self.old list) node ≡ false }
        requires present { is_in (list_at self.old list) place ≡ true }
        ensures { self.new ≡ with_list self.old list
            (put_before place node (list_at self.old list)) }
    {
        let one = &mut self.lists[list as usize];
        one.insert_before(0, place, node);
        one.are_disjoint();
    }

    /// Takes a node out of a list.
    pub fn unlink(&mut self, list: u32, node: u32)
        requires list { list < length self.old.lists }
        requires present { is_in (list_at self.old list) node ≡ true }
        ensures { self.new ≡ with_list self.old list (without node (list_at self.old list)) }
    {
        let one = &mut self.lists[list as usize];
        one.unlink(0, node);
        one.are_disjoint();
    }
}
