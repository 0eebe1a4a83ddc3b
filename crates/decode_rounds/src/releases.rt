//! The releases of a slot.
ghost use Rattle.std.specs.Prelude.{◌≡◌, ◌<◌, All, Bool, IfErr, IfOk, IsErrOf, flat_map, length, map, ℕ};
ghost use Rattle.port_io.specs.Port.{Rose, sent};
ghost use Rattle.port_io.specs.Traffic.{KeepsCounts, Moves};
ghost use Rattle.surface_model.specs.Schedules.{CondLine};
ghost use Rattle.report_model.specs.Tapes.{bytes_of};
ghost use Rattle.report_model.specs.Texts.{release_line};
ghost use Rattle.run_rounds.specs.Moves.{put_moves};
ghost use Rattle.run_rounds.specs.Releases.{ArePutPartly, IsLineCut};

use port_io::Port;
use run_rounds::{PutError, put_release};
use schedule_reader::CondItem;
use std::alloc::Global;

/// Puts the lines of these releases, which are operations with their bits, in their order.
///
/// There is one line of the schedule for each operation, in order. An error comes from the first
/// put that fails, and no line is put after it.
pub(crate) fn put_releases<P: Port>(
    alloc: Global,
    port: &mut P,
    conds: &[CondItem],
    releases: &[(u32, bool)],
) -> Result<(), PutError>
    requires { All (λ (r : ℕ × Bool). r.0 < length conds.now) releases.now }
    ensures put { IfOk result (λ _. Moves P.Port port.old port.new
        (flat_map (bytes_of (map (λ (c : CondLine). c.label) conds.now))
        (put_moves releases.now))) }
    ensures partly { IfErr result (λ error. ArePutPartly (map (λ (c : CondLine). c.label) conds.now)
        releases.now error (P.left port.old) (P.left port.new) (P.tape port.old)
        (P.tape port.new)) }
    ensures left { P.left port.new ≡ P.left port.old }
    ensures fault { IsErrOf result PutError.WriteFault →
        Rose (P.write_faults port.old) (P.write_faults port.new) }
    ensures counts { KeepsCounts P.Port port.old port.new }
{
    for &(operation, bit) in releases {
        put_one(alloc, port, conds, operation, bit)?;
    }
    Ok(())
}

/// Puts the line of one operation.
pub(crate) fn put_one<P: Port>(
    alloc: Global,
    port: &mut P,
    conds: &[CondItem],
    operation: u32,
    bit: bool,
) -> Result<(), PutError>
    requires { operation < length conds.now }
    ensures put { IfOk result (λ _. Moves P.Port port.old port.new
        (sent (release_line (map (λ (c : CondLine). c.label) conds.now) operation bit))) }
    ensures cut { IfErr result (λ error.
        IsLineCut (release_line (map (λ (c : CondLine). c.label) conds.now) operation bit) error
        (P.left port.old) (P.left port.new) (P.tape port.old) (P.tape port.new)) }
    ensures left { P.left port.new ≡ P.left port.old }
    ensures fault { IsErrOf result PutError.WriteFault →
        Rose (P.write_faults port.old) (P.write_faults port.new) }
    ensures counts { KeepsCounts P.Port port.old port.new }
{
    let cond = &conds[operation as usize];
    put_release(alloc, port, &cond.label, bit)
}
