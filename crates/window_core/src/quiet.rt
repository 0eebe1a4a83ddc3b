//! Whether a core is at rest.
ghost use Rattle.std.specs.Prelude.{◌≡◌, false, true};
ghost use Rattle.window_model.specs.Speculation.{IsQuiet};
ghost use Rattle.core_state.specs.States.{machine_of};
ghost use Rattle.window_core.specs.Cores.{NoTurn, NoneRuns};

use crate::Core;
use core_state::CoreState;

impl Core {
    /// Whether no window's problem is being decoded, and no turn can be made. It costs a look at
    /// the windows and their links.
    pub fn is_quiet(&self) -> bool
        ensures yes { result ≡ true →
            IsQuiet self.now.task self.now.retries (machine_of self.now) }
        ensures no { result ≡ false →
            ¬ IsQuiet self.now.task self.now.retries (machine_of self.now) }
    {
        is_quiet(&self.state)
    }
}

fn is_quiet(state: &CoreState) -> bool
    ensures yes { result ≡ true → IsQuiet state.now.task state.now.retries (machine_of state.now) }
    ensures no { result ≡ false →
        ¬ IsQuiet state.now.task state.now.retries (machine_of state.now) }
{
    if runs(state) {
        return false;
    }
    if has_turn(state) {
        return false;
    }
    true
}

/// Whether some window's problem is being decoded.
fn runs(state: &CoreState) -> bool
    ensures yes { result ≡ true → ¬ NoneRuns state.now }
    ensures no { result ≡ false → NoneRuns state.now }
{
    state.is_state();
    for window in 0..state.setting().window_count() {
        if state.running_in(window).is_some() {
            return true;
        }
    }
    false
}

/// Whether a turn can be made.
fn has_turn(state: &CoreState) -> bool
    ensures yes { result ≡ true → ¬ NoTurn state.now }
    ensures no { result ≡ false → NoTurn state.now }
{
    if let Some(_) = state.next_drop() {
        return true;
    }
    if let Some(_) = state.next_comparison() {
        return true;
    }
    if let Some(_) = state.next_commit() {
        return true;
    }
    if let Some(_) = state.next_release() {
        return true;
    }
    if let Some(_) = state.next_claim() {
        return true;
    }
    false
}
