//! Ready rounds, and the first operation that comes too early.
ghost use Rattle.std.specs.Prelude.{◌≡◌, ◌<◌, ◌≤◌, ◌^◌, ℕ, [], All, IfOk, IfSome, None, length, map, nat_lt, slice_index, slice_index_or};
ghost use Rattle.release_gate.specs.Gated.{AreRounds, IsFirstEarly, round_of};
ghost use Rattle.release_gate.specs.Operations.{timed_at};

use crate::OpSpec;
use std::alloc::{AllocError, Global};

/// For each operation the greatest of its raw slots and of the ready slots of the windows that it
/// needs.
pub(crate) fn rounds_of(
    alloc: Global,
    ops: &[OpSpec],
    needs: &[Vec<u32>],
    slots: &[u32],
) -> Result<Vec<u32>, AllocError>
    requires each { length needs.now ≡ length ops.now }
    requires windows { (k : ℕ) → k < length needs.now →
        All (λ w. w < length slots.now) (slice_index_or (map (λ v. v.items) needs.now) k []) }
    ensures { IfOk result (λ rounds. AreRounds slots.now ops.now (map (λ v. v.items) needs.now)
        rounds.items) }
{
    let mut rounds = Vec::with_capacity(alloc, ops.len())?;
    for at in 0..ops.len() {
        rounds.push(round_of(&ops[at], needs[at].as_slice(), slots))?;
    }
    Ok(rounds)
}

/// The greatest of an operation's raw slots and of the ready slots of these windows.
fn round_of(op: &OpSpec, windows: &[u32], slots: &[u32]) -> u32
    requires { All (λ w. w < length slots.now) windows.now }
    ensures { result ≡ round_of slots.now op.now windows.now }
{
    let mut round = op.last_raw();
    for window in windows {
        round = round.max(slots[*window as usize]);
    }
    round
}

/// The first operation whose round isn't below its slot.
pub(crate) fn first_early(ops: &[OpSpec], rounds: &[u32]) -> Option<u32>
    requires each { length rounds.now ≡ length ops.now }
    requires few { length ops.now < 2 ^ 32 }
    ensures found { IfSome result (IsFirstEarly ops.now rounds.now) }
    ensures none { result ≡ None → (k : ℕ) → k < length ops.now →
        slice_index rounds.now k < (timed_at ops.now k).slot }
{
    for at in 0..ops.len() {
        if !is_below(rounds[at], &ops[at]) {
            return Some(at as u32);
        }
    }
    None
}

/// Whether the round is below the operation's slot.
fn is_below(round: u32, op: &OpSpec) -> bool
    ensures { result ≡ nat_lt round op.now.slot }
{
    round < op.slot
}
