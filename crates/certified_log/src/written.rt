//! The lines of a certificate.
ghost use Rattle.std.specs.Prelude.{◌≡◌, ◌<◌, ◌++◌, ◌∷◌, [], ℤ, List, ℕ, None, OnOk, Some, decimal, flat_map, length, map, slice_index_or, string_bytes};
ghost use Rattle.std.specs.Fmt.{signed_decimal};
ghost use Rattle.matching_model.specs.Certificates.{Certificate};
ghost use Rattle.certified_lines.specs.Certified.{OddSet, Vertex, text_of};
ghost use Rattle.certified_log.specs.Texts.{certificate_lines, set_line};

use crate::parts::{members_of, number_of, numbers_of, set_count};
use dual_certificate::Cert;
use itoa::Buffer;
use run_report::{end_line, write_spaced, write_word};
use std::alloc::AllocError;

/// The numbers of the members, and a line for each set.
#[tactic(auto, using(crate::proofs::Spelled::both_whole))]
pub(crate) fn write_certificate(text: &mut String, cert: &Cert) -> Result<(), AllocError>
    ensures { OnOk result (string_bytes text.new ≡ string_bytes text.old
        ++ text_of (certificate_lines (Some cert.now))) }
{
    write_vertex(text, numbers_of(cert))?;
    write_sets(text, cert)
}

/// The numbers of the members.
#[tactic(auto, using(crate::proofs::Spelled::vertex_whole))]
fn write_vertex(text: &mut String, numbers: &[i64]) -> Result<(), AllocError>
    ensures { OnOk result (string_bytes text.new ≡ string_bytes text.old
        ++ text_of (Vertex numbers.now ∷ [])) }
{
    write_word(text, "vertex")?;
    write_numbers(text, numbers)?;
    end_line(text)
}

/// Numbers, each after a space.
fn write_numbers(text: &mut String, numbers: &[i64]) -> Result<(), AllocError>
    ensures { OnOk result (string_bytes text.new ≡ string_bytes text.old
        ++ flat_map (λ z. 32 ∷ signed_decimal z) numbers.now) }
{
    for number in numbers {
        write_number(text, *number)?;
    }
    Ok(())
}

/// A number after a space.
fn write_number(text: &mut String, number: i64) -> Result<(), AllocError>
    ensures { OnOk result (string_bytes text.new ≡ string_bytes text.old
        ++ 32 ∷ signed_decimal number) }
{
    write_word(text, " ")?;
    let mut buffer = Buffer::new();
    write_word(text, buffer.format(number))
}

/// A line for each set.
fn write_sets(text: &mut String, cert: &Cert) -> Result<(), AllocError>
    ensures { OnOk result (string_bytes text.new ≡ string_bytes text.old
        ++ text_of (map set_line cert.now.sets)) }
{
    for at in 0..set_count(cert) {
        write_set(text, members_of(cert, at), number_of(cert, at))?;
    }
    Ok(())
}

/// The number of a set and its members.
#[tactic(auto, using(crate::proofs::Spelled::set_whole))]
fn write_set(text: &mut String, members: &[u32], number: i64) -> Result<(), AllocError>
    ensures { OnOk result (string_bytes text.new ≡ string_bytes text.old
        ++ text_of (OddSet number members.now ∷ [])) }
{
    write_word(text, "set")?;
    write_number(text, number)?;
    write_spaced(text, members)?;
    end_line(text)
}
