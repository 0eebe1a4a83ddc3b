//! The links of a claim.
ghost use Rattle.std.specs.Prelude.{◌≡◌, ◌<◌, All, true, length};
ghost use Rattle.graph_model.specs.Graph.{is_in};
ghost use Rattle.window_model.specs.Windows.{places, window_at, window_count};
ghost use Rattle.core_state.specs.States.{machine_of};
ghost use Rattle.window_core.specs.Claims.{AreFilled, HasPlaces, IsFilled};

use claim_bits::{Arrivals, write_flips};
use core_state::{Claim, CoreState};
use detector_graph::Bits;
use predictor::Predictor;
use window_model::Origin;

/// Fills in the links of a claim of a window whose last slot has arrived. It costs time in
/// proportion to the edges at the places that the window shares with its dependencies.
pub(crate) fn fill<Q: Predictor>(state: &CoreState, predictor: &Q, claim: &mut Claim)
    requires window { claim.old.window < window_count state.now.task.plan }
    requires last { (window_at state.now.task.plan claim.old.window).last
        < (machine_of state.now).arrived }
    requires blank { HasPlaces state.now.task claim.old }
    ensures window { claim.new.window ≡ claim.old.window }
    ensures filled { AreFilled (Q.may_guess predictor.now) state.now.task (machine_of state.now)
        claim.new (length (window_at state.now.task.plan claim.old.window).deps) }
{
    let window = claim.window;
    let deps = state.setting().deps(window);
    for at in 0..deps.len() {
        let origin = write_link(state, predictor, (deps[at], window), &mut claim.bits[at]);
        claim.origins[at] = origin;
    }
}

/// Writes the bits of the link of a window to its source: what the source's result flips, if that
/// stands, or else guesses. Tells where they come from.
fn write_link<Q: Predictor>(
    state: &CoreState,
    predictor: &Q,
    pair: (u32, u32),
    into: &mut Bits,
) -> Origin
    requires window { pair.1 < window_count state.now.task.plan }
    requires source { is_in (window_at state.now.task.plan pair.1).deps pair.0 ≡ true }
    requires last { (window_at state.now.task.plan pair.1).last < (machine_of state.now).arrived }
    requires into { length into.old ≡ length (places state.now.task.graph state.now.task.plan
        pair.0 pair.1) }
    ensures len { length into.new ≡ length into.old }
    ensures filled { IsFilled (Q.may_guess predictor.now) state.now.task (machine_of state.now)
        pair.1 (record { source = pair.0; origin = result; bits = into.new }) }
{
    state.is_state();
    let (source, window) = pair;
    match state.standing(source) {
        Some(ticket) => {
            let kept = state.kept_of(source, ticket);
            write_flips(state.setting(), source, window, kept, into);
            Origin::Ticket(ticket)
        }
        None => {
            let arrivals = Arrivals::new(state.setting(), state.arrived(), state.values());
            arrivals.write_guesses(predictor, source, window, into);
            Origin::Guess
        }
    }
}
