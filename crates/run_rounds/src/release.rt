//! The lines of releases.
ghost use Rattle.std.specs.Prelude.{◌≡◌, ◌∷◌, ◌++◌, [], IfOk, IfErr, IsErrOf};
ghost use Rattle.report_model.specs.Texts.{bit_text};
ghost use Rattle.port_io.specs.Port.{Rose, sent};
ghost use Rattle.port_io.specs.Traffic.{KeepsCounts, Moves};
ghost use Rattle.run_rounds.specs.Releases.{IsLineCut, line_of_release};

use port_io::{Port, Put};
use schedule_reader::Name;
use std::alloc::{AllocError, Global};
use thiserror::Error;

/// Why a line was not put.
#[derive(Clone, Copy, Debug, PartialEq, Eq, Error)]
pub enum PutError {
    #[error("writing failed")]
    WriteFault,
    #[error("out of memory")]
    Memory,
}

impl From<AllocError> for PutError {
    ghost use Rattle.run_rounds.specs.declared.release.PutError.{PutError};

    ghost from_gives = { λ _ error. error ≡ PutError.Memory };

    fn from(_: AllocError) -> PutError {
        PutError::Memory
    }
}

/// Puts the line of a release: that the operation of this label has this bit.
///
/// # Errors
///
/// `WriteFault` after a front of the line was put. `Memory` comes before a byte is put.
pub fn put_release<P: Port>(
    alloc: Global,
    port: &mut P,
    label: &Name,
    bit: bool,
) -> Result<(), PutError>
    ensures put { IfOk result (λ _. Moves P.Port port.old port.new
        (sent (line_of_release label.now bit))) }
    ensures cut { IfErr result (λ error. IsLineCut (line_of_release label.now bit) error
        (P.left port.old) (P.left port.new) (P.tape port.old) (P.tape port.new)) }
    ensures left { P.left port.new ≡ P.left port.old }
    ensures fault { IsErrOf result PutError.WriteFault →
        Rose (P.write_faults port.old) (P.write_faults port.new) }
    ensures counts { KeepsCounts P.Port port.old port.new }
{
    let line = release_line(alloc, label, bit)?;
    match port.put(line.as_slice()) {
        Put::Done => Ok(()),
        Put::Failed => Err(PutError::WriteFault),
    }
}

/// The line of a release.
fn release_line(alloc: Global, label: &Name, bit: bool) -> Result<Vec<u8>, AllocError>
    ensures { IfOk result (λ line. line.items ≡ line_of_release label.now bit) }
{
    let mut line = Vec::new(alloc);
    line.extend_from_slice(b"release ")?;
    line.extend_from_slice(label.as_bytes())?;
    line.extend_from_slice(bit_end(bit))?;
    Ok(line)
}

/// What stands after the label.
fn bit_end(bit: bool) -> &'static [u8]
    ensures { result.now ≡ 32 ∷ bit_text bit ++ 10 ∷ [] }
{
    if bit { b" 1\n" } else { b" 0\n" }
}
