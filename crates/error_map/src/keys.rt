//! Numbers by the places that they belong to, for searches by place.
ghost use Rattle.std.specs.Prelude.{◌^◌, ◌≡◌, ◌≤◌, ◌<◌, ◌+◌, ◌++◌, length, map, slice_get, true, OnOk, Some};
ghost use Rattle.std.specs.Ordering.{is_lt};
ghost use Rattle.std.specs.List.{range_with_len};
ghost use Rattle.error_map.specs.Keys.{AreBefore, AreDistinct, AreFrom, AreKeys, AreRising, IsFirst, IsNextKey, IsNumberAt, compare, key_of, region_keys};
ghost use Rattle.surface_model.specs.Limits.{last_named_slot};

use patch_layout::Region;
use std::alloc::{AllocError, Global};

/// A place's row and column, and a number that belongs to it: by row, then by column, and then by
/// number.
#[derive(Clone, Copy, PartialEq, Eq, PartialOrd, Ord)]
pub(crate) struct Key {
    pub(crate) row: u32,
    pub(crate) col: u32,
    pub(crate) number: u32,
}

/// Adds the keys of a row of places with this number.
fn push_row(
    keys: &mut Vec<Key>,
    row: u32,
    col: u32,
    width: u32,
    number: u32,
) -> Result<(), AllocError>
    requires { col + width ≤ 2 ^ 32 }
    ensures { OnOk result (keys.new.items ≡ keys.old.items
        ++ map (key_of number)
        (map (λ j. record { row = row; column = j }) (range_with_len col width))) }
{
    for right in 0..width {
        keys.push(Key {
            row,
            col: col + right,
            number,
        })?;
    }
    Ok(())
}

/// Adds the keys of a region's places with this number.
pub(crate) fn push_region(
    keys: &mut Vec<Key>,
    region: Region,
    number: u32,
) -> Result<(), AllocError>
    requires rows { region.row + region.height ≤ 2 ^ 32 }
    requires columns { region.column + region.width ≤ 2 ^ 32 }
    ensures { OnOk result (keys.new.items ≡ keys.old.items ++ region_keys number region) }
{
    for down in 0..region.height {
        push_row(keys, region.row + down, region.col, region.width, number)?;
    }
    Ok(())
}

/// The keys, each once and rising.
pub(crate) fn distinct(keys: Vec<Key>) -> Vec<Key>
    ensures { AreDistinct keys.items result.items }
{
    let mut keys = keys;
    keys.sort_unstable();
    keys.dedup();
    keys
}

/// Whether a key is below another.
#[tactic(auto, using(crate::proofs::Keyed::below_is))]
fn is_below(one: Key, two: Key) -> bool
    ensures { result ≡ is_lt (compare one two) }
{
    one.row < two.row
        || (one.row == two.row
            && (one.col < two.col || (one.col == two.col && one.number < two.number)))
}

/// Whether the keys before this place are below this one.
fn ends_below(keys: &[Key], at: usize, key: Key) -> bool
    requires rising { AreRising keys.now }
    requires within { at ≤ length keys.now }
    ensures { result ≡ true → AreBefore keys.now key at }
{
    if at == 0 {
        return true;
    }
    is_below(key_at(keys, at - 1), key)
}

/// Whether the keys from this place on are not below this one.
fn begins_from(keys: &[Key], at: usize, key: Key) -> bool
    requires rising { AreRising keys.now }
    requires within { at ≤ length keys.now }
    ensures { result ≡ true → AreFrom keys.now key at }
{
    if at == keys.len() {
        return true;
    }
    !is_below(key_at(keys, at), key)
}

/// The key at this place.
fn key_at(keys: &[Key], at: usize) -> Key
    requires { at < length keys.now }
    ensures { slice_get keys.now at ≡ Some result }
{
    keys[at]
}

/// Whether so many keys are below this one.
fn is_first_at(keys: &[Key], at: usize, key: Key) -> bool
    requires { AreRising keys.now }
    ensures { result ≡ true → IsFirst keys.now key at }
{
    if at > keys.len() {
        return false;
    }
    if !ends_below(keys, at, key) {
        return false;
    }
    begins_from(keys, at, key)
}

/// How many keys are below this one. It is looked for at this place and the next, and then by a
/// binary search.
fn first_near(keys: &[Key], near: usize, key: &Key) -> usize
    requires { AreRising keys.now }
    ensures { IsFirst keys.now key.now result }
{
    if is_first_at(keys, near, *key) {
        return near;
    }
    if near < keys.len() && is_first_at(keys, near + 1, *key) {
        return near + 1;
    }
    first_by_halves(keys, key)
}

/// How many keys are below this one: a binary search.
fn first_by_halves(keys: &[Key], key: &Key) -> usize
    requires { AreRising keys.now }
    ensures { IsFirst keys.now key.now result }
{
    match keys.binary_search(key) {
        Ok(place) => place,
        Err(place) => place,
    }
}

/// The rows and columns for which `beginnings` has a place.
const SIDE: u32 = 256;

/// For each place whose row and column are below 256 how many keys are of an earlier place: where
/// a search for the place's keys begins. A search finds the same from anywhere.
pub(crate) fn beginnings(alloc: Global, keys: &[Key]) -> Result<Vec<usize>, AllocError> {
    let mut near = Vec::with_capacity(alloc, (SIDE * SIDE) as usize)?;
    let mut at = 0;
    for spot in 0..SIDE * SIDE {
        at = skip_to(keys, at, spot / SIDE, spot % SIDE);
        near.push(at)?;
    }
    Ok(near)
}

/// The first place of the list from one on whose key is not of a place before this one.
fn skip_to(keys: &[Key], from: usize, row: u32, col: u32) -> usize {
    let mut at = from;
    while at < keys.len() && (keys[at].row < row || (keys[at].row == row && keys[at].col < col)) {
        at += 1;
    }
    at
}

/// Where a search for a place's keys begins.
fn beginning(near: &[usize], row: u32, col: u32) -> usize {
    if row >= SIDE || col >= SIDE {
        return 0;
    }
    match near.get((row * SIDE + col) as usize) {
        Some(at) => *at,
        None => 0,
    }
}

/// How many keys are below this one. The search begins where `near` says.
pub(crate) fn first_from(keys: &[Key], near: &[usize], key: &Key) -> usize
    requires { AreRising keys.now }
    ensures { IsFirst keys.now key.now result }
{
    first_near(keys, beginning(near, key.row, key.col), key)
}

/// The number of the key at this place of the list, where there is one and it is of the place.
pub(crate) fn number_at(keys: &[Key], at: usize, row: u32, col: u32) -> Option<u32>
    requires { AreKeys keys.now }
    ensures { IsNumberAt keys.now at (record { row = row; column = col }) result }
{
    if at >= keys.len() {
        return None;
    }
    let key = keys[at];
    if key.row == row && key.col == col {
        Some(key.number)
    } else {
        None
    }
}

/// The first number after the key's that its place has a key with; where there is none, `end`.
pub(crate) fn next_number(keys: &[Key], near: &[usize], key: Key, end: u32) -> u32
    requires keys { AreKeys keys.now }
    requires start { key.number ≤ last_named_slot }
    ensures { IsNextKey keys.now key.number (record { row = key.row; column = key.col }) end
        result }
{
    let Key { row, col, number } = key;
    let next = Key {
        row,
        col,
        number: number + 1,
    };
    let at = first_from(keys, near, &next);
    number_at(keys, at, row, col).unwrap_or(end)
}
