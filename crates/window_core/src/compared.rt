//! Whether a guess was right.
ghost use Rattle.std.specs.Prelude.{◌≡◌, Bool, List, length, option_map, true, false};
ghost use Rattle.window_model.specs.Speculation.{Compares, Poisoned, Verified};
ghost use Rattle.window_model.specs.TurnLaws.{CanCompare};
ghost use Rattle.window_model.specs.Windows.{places};
ghost use Rattle.core_state.specs.States.{MayHappen, machine_of};
ghost use Rattle.window_core.specs.Claims.{bits_about};

use claim_bits::has_flips;
use core_state::CoreState;
use detector_graph::Bits;

/// Whether the guess of a window about its source, whose result stands, was right. It ends at the
/// first bit that differs.
pub(crate) fn is_right(state: &CoreState, window: u32, source: u32) -> bool
    requires { CanCompare state.now.task (machine_of state.now) source window }
    ensures right { result ≡ true → MayHappen state.now (Verified source window) }
    ensures wrong { result ≡ false → MayHappen state.now (Poisoned source window) }
{
    state.is_state();
    let Some(standing) = state.standing(source) else {
        unreachable!();
    };
    let kept = state.kept_of(source, standing);
    has_flips(
        state.setting(),
        source,
        window,
        kept,
        guess_of(state, window, source),
    )
}

/// The guess of a window about a source.
fn guess_of(state: &CoreState, window: u32, source: u32) -> &Bits
    requires { CanCompare state.now.task (machine_of state.now) source window }
    ensures long { length result.now
        ≡ length (places state.now.task.graph state.now.task.plan source window) }
    ensures guess { (guess flips : List Bool) →
        Compares state.now.task (machine_of state.now) source window guess flips →
        guess ≡ result.now }
{
    state.is_state();
    let Some(own) = state.live_of(window) else {
        unreachable!();
    };
    let claim = state.claim_of(own);
    let Some(guess) = about(state.setting().deps(window), &claim.bits, source) else {
        unreachable!();
    };
    guess
}

/// The bits about a dependency, where each has its own.
fn about<'a>(deps: &[u32], bits: &'a [Bits], source: u32) -> Option<&'a Bits>
    requires { length bits.now ≡ length deps.now }
    ensures { option_map (λ b. b.now) result ≡ bits_about deps.now bits.now source }
{
    for at in 0..deps.len() {
        if deps[at] == source {
            return Some(&bits[at]);
        }
    }
    None
}
