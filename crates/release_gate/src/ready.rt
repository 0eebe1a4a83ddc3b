//! The slots after which windows can be committed.
ghost use Rattle.std.specs.Prelude.{◌≡◌, ◌<◌, ◌^◌, ℕ, true, All, IfOk, length};
ghost use Rattle.graph_model.specs.Graph.{is_in};
ghost use Rattle.window_model.specs.Windows.{window_at, window_count};
ghost use Rattle.release_gate.specs.Slots.{ready_slots};
ghost use Rattle.window_model.specs.Gates.{AreReadySlots, latest};

use std::alloc::{AllocError, Global};
use window_plan::Plan;

/// The greatest of a window's last slot and the slots of its dependencies.
fn latest(plan: &Plan, slots: &[u32], window: u32) -> u32
    requires window { window < window_count plan.now.plan }
    requires deps { All (λ x. x < length slots.now) (window_at plan.now.plan window).deps }
    ensures { result ≡ latest plan.now.plan slots.now window }
{
    let mut slot = plan.last_slot(window);
    for dependency in plan.deps(window) {
        slot = slot.max(slots[*dependency as usize]);
    }
    slot
}

/// For each window its ready slot: the greatest of its own last slot and of those of its ancestors.
/// After it the window can be committed.
///
/// Dependencies are lower than their windows, so one pass finds them all.
pub fn ready_slots(alloc: Global, plan: &Plan) -> Result<Vec<u32>, AllocError>
    requires { (w x : ℕ) → is_in (window_at plan.now.plan w).deps x ≡ true → x < w }
    ensures value { IfOk result (λ slots. slots.items ≡ ready_slots plan.now.plan) }
    ensures ready { IfOk result (λ slots. AreReadySlots plan.now.plan slots.items) }
    ensures few { IfOk result (λ slots. length slots.items < 2 ^ 32) }
{
    let mut slots = Vec::with_capacity(alloc, plan.windows() as usize)?;
    for window in 0..plan.windows() {
        let slot = latest(plan, &slots, window);
        slots.push(slot)?;
    }
    Ok(slots)
}
