//! What is kept before anything has happened, and how much room all that may come takes.
ghost use Rattle.std.specs.Prelude.{◌≡◌, ◌≤◌, ◌<◌, ◌+◌, ◌*◌, [], IfOk, map};
ghost use Rattle.std.specs.List.{range_with_len};
ghost use Rattle.window_model.specs.Gates.{link_count};
ghost use Rattle.window_model.specs.SpeculationLaws.{most_events};
ghost use Rattle.window_model.specs.Windows.{window_at, window_count};
ghost use Rattle.window_phases.specs.Phases.{IsTableOf};
ghost use Rattle.core_state.specs.States.{most_tickets};

use std::alloc::{AllocError, Global};
use window_phases::Phases;
use window_setting::Setting;

/// All windows wait.
pub(crate) fn waiting(alloc: Global, setting: &Setting, retries: u32) -> Result<Phases, AllocError>
    requires { retries ≤ 8 }
    ensures { IfOk result (λ p. IsTableOf setting.now retries [] p) }
{
    setting.is_setting();
    let deps = deps_of(alloc, setting)?;
    let phases = Phases::new(alloc, &deps, retries)?;
    Ok(phases)
}

/// For each window its dependencies.
fn deps_of(alloc: Global, setting: &Setting) -> Result<Vec<Vec<u32>>, AllocError>
    ensures { IfOk result
        (λ lists. map (λ l. l.items) lists.items ≡ map (λ w. (window_at setting.now.plan w).deps)
        (range_with_len 0 (window_count setting.now.plan))) }
{
    let windows = setting.window_count();
    let mut lists = Vec::with_capacity(alloc, windows as usize)?;
    for window in 0..windows {
        lists.push(copied(alloc, setting.deps(window))?)?;
    }
    Ok(lists)
}

fn copied(alloc: Global, list: &[u32]) -> Result<Vec<u32>, AllocError>
    ensures { IfOk result (λ copy. copy.items ≡ list.now) }
{
    let copy = Vec::from_slice(alloc, list)?;
    Ok(copy)
}

/// How many pairs of a window and a dependency there are.
fn links(setting: &Setting) -> u32
    ensures { result ≡ link_count setting.now.plan }
{
    setting.is_setting();
    let mut count = 0;
    for window in 0..setting.window_count() {
        count += setting.deps(window).len() as u32;
    }
    count
}

fn last_slot(setting: &Setting) -> u32
    ensures { result ≡ setting.now.last_slot }
{
    setting.last_slot
}

/// How many tickets there may be: each window may be claimed once more than it may be given up.
pub(crate) fn ticket_room(setting: &Setting, retries: u32) -> u32
    requires { retries ≤ 8 }
    ensures { result ≡ most_tickets setting.now retries }
{
    setting.is_setting();
    setting.window_count() * (retries + 1)
}

/// How many events there may be.
pub(crate) fn event_room(setting: &Setting, retries: u32) -> u32
    requires { retries ≤ 8 }
    ensures { result ≡ most_events setting.now retries }
{
    setting.is_setting();
    let for_each_claim = 3 * setting.window_count() + links(setting);
    let claims = (retries + 1) * for_each_claim;
    (last_slot(setting) + 1) + (claims + setting.operation_count())
}
