//! How many windows each operation waits for.
ghost use Rattle.std.specs.Prelude.{◌≡◌, ◌<◌, IfOk, length, map};
ghost use Rattle.std.specs.List.{range_with_len};
ghost use Rattle.window_model.specs.Decoder.{needs};

use std::alloc::{AllocError, Global};
use window_setting::Setting;

/// For each operation how many windows it needs.
pub(crate) fn needed_counts(alloc: Global, setting: &Setting) -> Result<Vec<u32>, AllocError>
    ensures { IfOk result (λ counts. counts.items ≡ map (λ op. length (needs setting.now op))
        (range_with_len 0 (length setting.now.operations))) }
{
    let mut counts = Vec::with_capacity(alloc, setting.operation_count() as usize)?;
    for op in 0..setting.operation_count() {
        counts.push(needed_count(setting, op))?;
    }
    Ok(counts)
}

/// How many windows an operation needs.
fn needed_count(setting: &Setting, op: u32) -> u32
    requires { op < length setting.now.operations }
    ensures { result ≡ length (needs setting.now op) }
{
    let _windows = setting.window_count();
    setting.needs(op).len() as u32
}
