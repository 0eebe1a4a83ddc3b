//! Which operations wait for which window, and for which slot.
ghost use Rattle.std.specs.Prelude.{◌≡◌, ◌<◌, ◌++◌, ◌∷◌, [], IfOk, OnOk, filter, length, map};
ghost use Rattle.std.specs.List.{range_with_len};
ghost use Rattle.graph_model.specs.Graph.{is_in};
ghost use Rattle.release_laws.specs.Tables.{waiting_for};
ghost use Rattle.window_model.specs.Decoder.{needs};
ghost use Rattle.window_model.specs.Windows.{window_count};
ghost use Rattle.window_setting.specs.Slots.{last_raws};

use number_sets::Lists;
use std::alloc::{AllocError, Global};
use window_setting::Setting;

/// For each operation the last slot of its raw values.
pub(crate) fn last_raws(alloc: Global, setting: &Setting) -> Result<Vec<u32>, AllocError>
    ensures { IfOk result (λ slots. slots.items ≡ last_raws setting.now) }
{
    let mut slots = Vec::with_capacity(alloc, setting.operation_count() as usize)?;
    for op in 0..setting.operation_count() {
        slots.push(setting.last_raw(op))?;
    }
    Ok(slots)
}

/// For each window the operations that need it, ascending. It costs time in proportion to the
/// windows times the operations.
pub(crate) fn operations_by_window(alloc: Global, setting: &Setting) -> Result<Lists, AllocError>
    ensures { IfOk result (λ lists. lists ≡ map (waiting_for setting.now)
        (range_with_len 0 (window_count setting.now.plan))) }
{
    let mut lists = Lists::new(alloc)?;
    for window in 0..setting.window_count() {
        let ops = waiting_for(alloc, setting, window)?;
        lists.push(&ops)?;
    }
    Ok(lists)
}

/// The operations that need a window, ascending.
fn waiting_for(alloc: Global, setting: &Setting, window: u32) -> Result<Vec<u32>, AllocError>
    ensures { IfOk result (λ ops. ops.items ≡ waiting_for setting.now window) }
{
    let mut ops = Vec::new(alloc);
    for op in 0..setting.operation_count() {
        push_if(&mut ops, op, is_needed(setting, op, window))?;
    }
    Ok(ops)
}

/// Whether an operation needs the window: a binary search.
fn is_needed(setting: &Setting, op: u32, window: u32) -> bool
    requires { op < length setting.now.operations }
    ensures { result ≡ is_in (needs setting.now op) window }
{
    setting.needs(op).binary_search(&window).is_ok()
}

/// Adds the operation where the test is true.
fn push_if(ops: &mut Vec<u32>, op: u32, test: bool) -> Result<(), AllocError>
    ensures { OnOk result (ops.new.items ≡ ops.old.items ++ filter (λ o. test) (op ∷ [])) }
{
    if test {
        ops.push(op)?;
    }
    Ok(())
}
