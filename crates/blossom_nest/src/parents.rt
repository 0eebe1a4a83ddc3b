//! What `Nest` writes: the parents of sets, and the outermost sets of vertices.
ghost use Rattle.std.specs.Prelude.{◌≡◌, ◌≢◌, ℕ, ◌+◌, ◌<◌, ◌≤◌, ◌==◌, true, cond, [], IfOk, Some, length, replicate};
ghost use Rattle.std.specs.List.{AllByRecursion, range_with_len};
ghost use Rattle.std.specs.Vec.{vec_capacity};
ghost use Rattle.graph_model.specs.Graph.{is_in};
ghost use Rattle.link_lists.specs.Lists.{IsApart, IsFree, list_at, with_list};
ghost use Rattle.blossom_nest.specs.Nests.{next_in};
ghost use Rattle.blossom_nest.specs.Kept.{Leads, IsChildAbove, at};

use link_lists::Chains;
use std::alloc::{AllocError, Global};

/// So many equal numbers.
pub fn alike(alloc: Global, number: u32, count: u32) -> Result<Vec<u32>, AllocError>
    ensures { IfOk result (λ v. v.items ≡ replicate count number) }
{
    vec![in alloc; number; count as usize]
}

/// Each number at its place, in a list with room for them.
pub fn counted(alloc: Global, count: u32) -> Result<Vec<u32>, AllocError>
    ensures items { IfOk result (λ v. v.items ≡ range_with_len 0 count) }
    ensures room { IfOk result (λ v. count ≤ vec_capacity v) }
{
    let mut numbers = Vec::with_capacity(alloc, count as usize)?;
    for number in 0..count {
        numbers.push(number)?;
    }
    Ok(numbers)
}

/// Makes the sets of a ring the children at a place where there are none.
pub fn adopt(children: &mut Chains, parent: &mut Vec<u32>, ring: &[u32], place: u32, set: u32)
    requires place { place < length children.old.lists }
    requires empty { list_at children.old place ≡ [] }
    requires apart { IsApart ring.now }
    requires free { AllByRecursion (IsFree children.old) ring.now }
    requires nodes { AllByRecursion (λ c. c < children.old.nodes) ring.now }
    requires names { length parent.old.items ≡ children.old.nodes }
    ensures children { children.new ≡ with_list children.old place ring.now }
    ensures len { length parent.new.items ≡ length parent.old.items }
    ensures parent { (c : ℕ) → c < length parent.old.items → at parent.new.items c
        ≡ cond (is_in ring.now c) set (at parent.old.items c) }
{
    for child in ring {
        children.push_back(place, *child);
        parent[*child as usize] = set;
    }
}

/// The vertices below a child of the set have the set as outermost one.
pub fn lift(top: &mut Vec<u32>, parent: &[u32], set: u32)
    requires { (v : ℕ) → v < length top.old.items → at top.old.items v < length parent.now }
    ensures len { length top.new.items ≡ length top.old.items }
    ensures top { (v : ℕ) → v < length top.old.items → at top.new.items v
        ≡ cond (at parent.now (at top.old.items v) == set) set (at top.old.items v) }
{
    for vertex in 0..top.len() {
        if parent[top[vertex] as usize] == set {
            top[vertex] = set;
        }
    }
}

/// The vertices of the set have its children as outermost ones.
pub fn settle(top: &mut Vec<u32>, parent: &[u32], vertices: u32, set: u32)
    requires count { vertices ≡ length top.old.items }
    requires leads { (v : ℕ) → v < length top.old.items → at top.old.items v ≡ set →
        Leads parent.now v set }
    ensures len { length top.new.items ≡ length top.old.items }
    ensures others { (v : ℕ) → v < length top.old.items → at top.old.items v ≢ set →
        at top.new.items v ≡ at top.old.items v }
    ensures top { (v : ℕ) → v < length top.old.items → at top.old.items v ≡ set →
        IsChildAbove parent.now v set (at top.new.items v) }
{
    for vertex in 0..vertices {
        if top[vertex as usize] == set {
            top[vertex as usize] = child_above(parent, vertex, set);
        }
    }
}

/// The child of the set in which a vertex of the set lies.
fn child_above(parent: &[u32], vertex: u32, set: u32) -> u32
    requires { Leads parent.now vertex set }
    ensures { IsChildAbove parent.now vertex set result }
{
    let mut here = vertex;
    for _ in 0..parent.len() {
        let above = parent[here as usize];
        if above == set {
            return here;
        }
        here = above;
    }
    unreachable!()
}

/// The children at a place have no parent any more.
pub fn release(children: &mut Chains, parent: &mut Vec<u32>, place: u32, none: u32)
    requires place { place < length children.old.lists }
    requires names { length parent.old.items ≡ children.old.nodes }
    ensures children { children.new ≡ with_list children.old place [] }
    ensures len { length parent.new.items ≡ length parent.old.items }
    ensures parent { (c : ℕ) → c < length parent.old.items → at parent.new.items c
        ≡ cond (is_in (list_at children.old place) c) none (at parent.old.items c) }
{
    children.are_disjoint();
    while let Some(child) = children.front(place) {
        children.unlink(place, child);
        parent[child as usize] = none;
    }
}

/// The node that follows a node of a list, or the first after the last.
pub fn next_in_ring(children: &Chains, place: u32, child: u32) -> u32
    requires place { place < length children.now.lists }
    requires present { is_in (list_at children.now place) child ≡ true }
    ensures { next_in child (list_at children.now place) ≡ Some result }
{
    if let Some(next) = children.next(place, child) {
        return next;
    }
    match children.front(place) {
        Some(front) => front,
        None => unreachable!(),
    }
}
