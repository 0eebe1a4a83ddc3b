//! An input that is made from a number, printed.
ghost use Rattle.std.specs.Prelude.{◌≡◌, ◌≢◌, List, true};
ghost use Rattle.port_io.specs.Port.{Rose};
ghost use Rattle.port_io.specs.Traffic.{KeepsCounts, Moves};
ghost use Rattle.port_io.specs.declared.port.TapeByte.{TapeByte};
ghost use Rattle.report_model.specs.Faults.{TooLarge, fault_text};
ghost use Rattle.run_words.specs.Commands.{IsMake};
ghost use Rattle.run_words.specs.declared.command.MakeOptions.{MakeOptions as Options};
ghost use Rattle.swiper_run.specs.Answers.{is_of_accepted};
ghost use Rattle.swiper_run.specs.Made.{IsMadeAnswer, IsMadeText};
ghost use Rattle.swiper_run.specs.declared.top.Status.TheVariants.{Schedule};

use crate::Status;
use crate::fault::{Fault, fault_line};
use crate::top::conclude;
use port_io::Port;
use run_header::Refusal;
use run_words::MakeOptions;
use std::alloc::Global;
use workload_maker::{MakeError, make};

/// Puts the input that is made of these numbers, or how many detectors are too many.
pub(crate) fn put_made<P: Port>(alloc: Global, port: &mut P, options: MakeOptions) -> Status
    requires { IsMake options }
    ensures answer { (ran : List TapeByte) × Moves P.Port port.old port.new ran
        × IsMadeAnswer options result ran }
    ensures accepted { is_of_accepted result ≡ true }
    ensures no_read_fault { result ≢ Status.ReadFault }
    ensures write_fault { result ≡ Status.WriteFault →
        Rose (P.write_faults port.old) (P.write_faults port.new) }
    ensures counts { KeepsCounts P.Port port.old port.new }
{
    let MakeOptions {
        distance,
        patches,
        slots,
        seed,
    } = options;
    match make(alloc, distance, patches, slots, seed) {
        Ok(text) => conclude(port, &text, Status::Ok),
        Err(MakeError::TooLarge { detectors }) => put_too_large(alloc, port, detectors),
        Err(MakeError::Memory) => Status::Memory,
    }
}

/// Puts the line of a schedule that would have so many detectors.
fn put_too_large<P: Port>(alloc: Global, port: &mut P, detectors: u64) -> Status
    ensures answer { (options : Options) →
        IsMadeText options Schedule (fault_text (TooLarge detectors)) →
        (ran : List TapeByte) × Moves P.Port port.old port.new ran
        × IsMadeAnswer options result ran }
    ensures accepted { is_of_accepted result ≡ true }
    ensures no_read_fault { result ≢ Status.ReadFault }
    ensures write_fault { result ≡ Status.WriteFault →
        Rose (P.write_faults port.old) (P.write_faults port.new) }
    ensures counts { KeepsCounts P.Port port.old port.new }
{
    let mut text = String::new(alloc);
    let fault = Fault::Refused(Refusal::TooLarge { detectors });
    match fault_line(&mut text, &fault) {
        Ok(()) => conclude(port, text.as_bytes(), Status::Schedule),
        Err(_) => Status::Memory,
    }
}
