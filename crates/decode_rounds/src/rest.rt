//! What is left when all threads are joined: the releases that were not told.
ghost use Rattle.std.specs.Prelude.{◌≡◌, ◌<◌, All, Bool, IfErr, IfOk, IsErrOf, List, Option, flat_map, length, map, ℕ};
ghost use Rattle.port_io.specs.Port.{Rose};
ghost use Rattle.port_io.specs.Traffic.{KeepsCounts, Moves};
ghost use Rattle.port_io.specs.declared.port.TapeByte.{TapeByte};
ghost use Rattle.surface_model.specs.Schedules.{CondLine};
ghost use Rattle.report_model.specs.Tapes.{bytes_of};
ghost use Rattle.report_model.specs.Tasks.{HasTask};
ghost use Rattle.run_rounds.specs.Moves.{put_moves};
ghost use Rattle.run_rounds.specs.Releases.{ArePutPartly};
ghost use Rattle.decode_rounds.specs.Courses.{IsBrokenOff, IsReadThrough};
ghost use Rattle.decode_rounds.specs.Seats.{HasCome, HasEnded, untold};

use crate::bench::Seat;
use crate::releases::put_releases;
use crate::rounds::Rounds;
use port_io::Port;
use run_rounds::PutError;
use schedule_reader::CondItem;
use slot_decoder::SlotDecoder;
use std::alloc::{AllocError, Global};
use syndrome_source::RowError;
use window_table::{NamesSetting, Reader};

/// The end of a run whose rows have ended and whose decoder has come to rest. The lines of the
/// releases that were not told are put.
pub(crate) fn end_by<P: Port, Z: NamesSetting>(
    alloc: Global,
    port: &mut P,
    seat: &Seat<'_, Z>,
    decoder: SlotDecoder,
    end: Result<(), RowError>,
) -> Result<Rounds, PutError>
    requires task { HasTask seat.now.rows.schedule Z.setting }
    requires come { HasCome Z.setting seat.now.readings decoder.progress }
    ensures decoder { IfOk result (λ r. r.decoder ≡ decoder) }
    ensures end { IfOk result (λ r. r.end ≡ end) }
    ensures read { IfOk result (λ r. (left : Option (List ℕ)) (tape : Option (List TapeByte)) →
        HasEnded Z.setting seat.now.rows.schedule left (P.left port.old) tape (P.tape port.old)
        seat.now.readings end → IsReadThrough seat.now.rows.schedule Z.setting left
        (P.left port.new) tape (P.tape port.new) decoder.progress end) }
    ensures broken { IfErr result (λ error. (left : Option (List ℕ))
        (tape : Option (List TapeByte)) →
        HasEnded Z.setting seat.now.rows.schedule left (P.left port.old) tape (P.tape port.old)
        seat.now.readings end → IsBrokenOff seat.now.rows.schedule Z.setting error left
        (P.left port.new) tape (P.tape port.new)) }
    ensures write_fault { IsErrOf result PutError.WriteFault →
        Rose (P.write_faults port.old) (P.write_faults port.new) }
    ensures counts { KeepsCounts P.Port port.old port.new }
{
    decoder.is_progress();
    put_left(
        alloc,
        port,
        seat.rows.conds(),
        decoder.releases(),
        &seat.readings,
    )?;
    Ok(Rounds { decoder, end })
}

/// Puts the lines of those releases that were not told, in their order.
fn put_left<P: Port, Z: NamesSetting>(
    alloc: Global,
    port: &mut P,
    conds: &[CondItem],
    releases: &[(u32, bool)],
    readings: &Reader<Z>,
) -> Result<(), PutError>
    requires operations { length Z.setting.operations ≡ length conds.now }
    requires in_range { All (λ (r : ℕ × Bool). r.0 < length conds.now) releases.now }
    ensures put { IfOk result (λ _. Moves P.Port port.old port.new
        (flat_map (bytes_of (map (λ (c : CondLine). c.label) conds.now))
        (put_moves (untold readings.now releases.now)))) }
    ensures partly { IfErr result (λ error. ArePutPartly (map (λ (c : CondLine). c.label) conds.now)
        (untold readings.now releases.now) error (P.left port.old) (P.left port.new)
        (P.tape port.old) (P.tape port.new)) }
    ensures left { P.left port.new ≡ P.left port.old }
    ensures write_fault { IsErrOf result PutError.WriteFault →
        Rose (P.write_faults port.old) (P.write_faults port.new) }
    ensures counts { KeepsCounts P.Port port.old port.new }
{
    let left = releases_left(alloc, releases, readings)?;
    put_releases(alloc, port, conds, &left)
}

/// Those of the releases that were not told, in their order.
fn releases_left<Z: NamesSetting>(
    alloc: Global,
    releases: &[(u32, bool)],
    readings: &Reader<Z>,
) -> Result<Vec<(u32, bool)>, AllocError>
    requires { All (λ (r : ℕ × Bool). r.0 < length Z.setting.operations) releases.now }
    ensures { IfOk result (λ left. left.items ≡ untold readings.now releases.now) }
{
    let mut left = Vec::new(alloc);
    for &(op, bit) in releases {
        if readings.told_of(op).is_none() {
            left.push((op, bit))?;
        }
    }
    Ok(left)
}
