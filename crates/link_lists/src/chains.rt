//! Several lists over the same nodes, of which each is in one list at most.
ghost use Rattle.std.specs.Prelude.{◌≡◌, ℕ, ◌<◌, ◌≤◌, ◌+◌, ◌++◌, ◌∷◌, [], IfOk, false, true, length, map, slice_set};
ghost use Rattle.std.specs.List.{range_with_len};
ghost use Rattle.graph_model.specs.Graph.{is_in};
ghost use Rattle.link_lists.specs.Lists.{AreDisjoint, IsFree, bare, list_at, most, with_list, put_before, without, first, after};
ghost use Rattle.link_lists.specs.Chains.{at, node_or_end};

use std::alloc::{AllocError, Global};
use std::marker::Model;

/// Lists by their numbers, over nodes of which each is in one list at most.
pub struct Chains {
    nodes: u32,
    lists: u32,
    next: Vec<u32>,
    prev: Vec<u32>,
    home: Vec<u32>,
}

impl Drop for Chains {
    fn drop(self) {
        let Chains {
            nodes: _,
            lists: _,
            next: _,
            prev: _,
            home: _,
        } = self;
    }
}

impl Model for Chains {
    ghost use Rattle.link_lists.specs.Lists.{Lists};
    ghost use Rattle.link_lists.specs.Chains.{AreChains, chain, seen};

    ghost Value = { Lists };

    ghost view = { λ c. seen c.nodes c.lists c.next.items };

    ghost invariant = { λ c. AreChains c.nodes c.lists c.next.items c.prev.items c.home.items
        (chain c.nodes c.next.items) };
}

impl Chains {
    /// Lists without a node.
    pub fn new(alloc: Global, nodes: u32, lists: u32) -> Result<Chains, AllocError>
        requires nodes { nodes ≤ most }
        requires lists { lists ≤ most }
        ensures { IfOk result (λ c. c ≡ bare nodes lists) }
    {
        let next = counted(alloc, nodes + lists)?;
        let prev = counted(alloc, nodes + lists)?;
        let home = vec![in alloc; lists; nodes as usize]?;
        Ok(Chains {
            nodes,
            lists,
            next,
            prev,
            home,
        })
    }

    /// What always holds of the lists.
    pub fn are_disjoint(&self)
        ensures { AreDisjoint self.now }
    {
        let _ = &self.next;
    }

    /// The first node of a list.
    pub fn front(&self, list: u32) -> Option<u32>
        requires { list < length self.now.lists }
        ensures { result ≡ first (list_at self.now list) }
    {
        let end = self.nodes + list;
        node_at(&self.next, end, end)
    }

    /// The node after a node of a list.
    pub fn next(&self, list: u32, node: u32) -> Option<u32>
        requires list { list < length self.now.lists }
        requires present { is_in (list_at self.now list) node ≡ true }
        ensures { result ≡ after node (list_at self.now list) }
    {
        node_at(&self.next, node, self.nodes + list)
    }

    /// Whether the list has the node.
    pub fn contains(&self, list: u32, node: u32) -> bool
        requires list { list < length self.now.lists }
        requires node { node < self.now.nodes }
        ensures { result ≡ is_in (list_at self.now list) node }
    {
        self.home[node as usize] == list
    }

    /// Whether the node is in no list.
    pub fn is_free(&self, node: u32) -> bool
        requires { node < self.now.nodes }
        ensures free { result ≡ true → IsFree self.now node }
        ensures taken { result ≡ false → (l : ℕ) × (is_in (list_at self.now l) node ≡ true) }
    {
        self.home[node as usize] >= self.lists
    }

    /// Puts a node that is in no list at the end of a list.
    pub fn push_back(&mut self, list: u32, node: u32)
        requires list { list < length self.old.lists }
        requires node { node < self.old.nodes }
        requires free { IsFree self.old node }
        ensures { self.new ≡ with_list self.old list (list_at self.old list ++ node ∷ []) }
    {
        let end = self.nodes + list;
        link(&mut self.next, &mut self.prev, node, end);
        self.home[node as usize] = list;
    }

    /// Puts a node that is in no list before a node of a list.
    pub fn insert_before(&mut self, list: u32, place: u32, node: u32)
        requires list { list < length self.old.lists }
        requires node { node < self.old.nodes }
        requires free { IsFree self.old node }
        requires present { is_in (list_at self.old list) place ≡ true }
        ensures { self.new ≡ with_list self.old list
            (put_before place node (list_at self.old list)) }
    {
        link(&mut self.next, &mut self.prev, node, place);
        self.home[node as usize] = list;
    }

    /// Takes a node out of its list.
    pub fn unlink(&mut self, list: u32, node: u32)
        requires list { list < length self.old.lists }
        requires present { is_in (list_at self.old list) node ≡ true }
        ensures { self.new ≡ with_list self.old list (without node (list_at self.old list)) }
    {
        cut(&mut self.next, &mut self.prev, node);
        self.home[node as usize] = self.lists;
        let _ = list;
    }
}

/// Each number at its place.
fn counted(alloc: Global, count: u32) -> Result<Vec<u32>, AllocError>
    ensures len { IfOk result (λ v. length v.items ≡ count) }
    ensures each { IfOk result (λ v. (i : ℕ) → i < count → at v.items i ≡ i) }
{
    let mut numbers = Vec::new(alloc);
    for number in 0..count {
        numbers.push(number)?;
    }
    Ok(numbers)
}

/// The node that comes after a place, if it isn't the end.
fn node_at(next: &[u32], place: u32, end: u32) -> Option<u32>
    requires { place < length next.now }
    ensures { result ≡ node_or_end (at next.now place) end }
{
    let node = next[place as usize];
    if node == end { None } else { Some(node) }
}

/// Links a node in before a place.
fn link(next: &mut Vec<u32>, prev: &mut Vec<u32>, node: u32, place: u32)
    requires node { (node < length next.old.items) × (node < length prev.old.items) }
    requires place { place < length prev.old.items }
    requires before { at prev.old.items place < length next.old.items }
    ensures next { next.new.items ≡ slice_set (slice_set next.old.items (at prev.old.items place)
        node) node place }
    ensures prev { prev.new.items ≡ slice_set (slice_set prev.old.items place node) node
        (at prev.old.items place) }
{
    let before = prev[place as usize];
    next[before as usize] = node;
    next[node as usize] = place;
    prev[place as usize] = node;
    prev[node as usize] = before;
}

/// Takes a node out from between its neighbours.
fn cut(next: &mut Vec<u32>, prev: &mut Vec<u32>, node: u32)
    requires node { (node < length next.old.items) × (node < length prev.old.items) }
    requires before { at prev.old.items node < length next.old.items }
    requires after { at next.old.items node < length prev.old.items }
    ensures next { next.new.items ≡ slice_set next.old.items (at prev.old.items node)
        (at next.old.items node) }
    ensures prev { prev.new.items ≡ slice_set prev.old.items (at next.old.items node)
        (at prev.old.items node) }
{
    let before = prev[node as usize];
    let after = next[node as usize];
    next[before as usize] = after;
    prev[after as usize] = before;
}
