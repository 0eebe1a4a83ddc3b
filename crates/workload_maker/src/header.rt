//! The header of a made schedule.
ghost use Rattle.std.specs.Prelude.{◌≡◌, ◌≤◌, ◌++◌, ◌∷◌, [], IfOk, OnOk, codes, decimal, string_bytes};
ghost use Rattle.report_model.specs.Texts.{line};
ghost use Rattle.surface_model.specs.Limits.{most_patches};
ghost use Rattle.workload_maker.specs.Headers.{AreMakeable, cond_count, first_lines, last_line, made_header, merge_count};

use crate::lines::{LineKind, write_lines};
use std::alloc::{AllocError, Global};
use std::fmt::Write;

/// Adds the line of the format and its version.
fn write_version(text: &mut String) -> Result<(), AllocError>
    ensures { OnOk result (string_bytes text.new ≡ string_bytes text.old
        ++ line (codes "swiper" ∷ codes "1" ∷ [])) }
{
    writeln!(text, "swiper 1")
}

/// Adds the line of the distance.
fn write_distance(text: &mut String, distance: u32) -> Result<(), AllocError>
    ensures { OnOk result (string_bytes text.new ≡ string_bytes text.old
        ++ line (codes "distance" ∷ decimal distance ∷ [])) }
{
    writeln!(text, "distance {distance}")
}

/// Adds the line of the weights.
fn write_weights(text: &mut String) -> Result<(), AllocError>
    ensures { OnOk result (string_bytes text.new ≡ string_bytes text.old
        ++ line (codes "weights" ∷ codes "10" ∷ codes "10" ∷ [])) }
{
    writeln!(text, "weights 10 10")
}

/// Adds the three lines that all headers begin with.
fn write_first(text: &mut String, distance: u32) -> Result<(), AllocError>
    ensures { OnOk result (string_bytes text.new ≡ string_bytes text.old ++ first_lines distance) }
{
    write_version(text)?;
    write_distance(text, distance)?;
    write_weights(text)
}

/// Adds the line that ends the header.
fn write_last(text: &mut String) -> Result<(), AllocError>
    ensures { OnOk result (string_bytes text.new ≡ string_bytes text.old ++ last_line) }
{
    writeln!(text, "rounds")
}

/// How many merges there are.
fn merge_count(distance: u32, patches: u32, slots: u32) -> u32
    requires { AreMakeable distance patches slots }
    ensures value { result ≡ merge_count distance patches slots }
    ensures few { result ≤ most_patches }
{
    if 2 * distance + 1 < slots - 1 {
        patches / 2
    } else {
        0
    }
}

/// How many conditions there are.
fn cond_count(distance: u32, patches: u32, slots: u32) -> u32
    requires { AreMakeable distance patches slots }
    ensures value { result ≡ cond_count distance patches slots }
    ensures few { result ≤ most_patches }
{
    if 5 * distance + 6 <= slots {
        patches / 2
    } else {
        0
    }
}

/// Adds the header of a schedule of so many patches of this distance, over so many slots.
fn write_header(
    text: &mut String,
    distance: u32,
    patches: u32,
    slots: u32,
) -> Result<(), AllocError>
    requires { AreMakeable distance patches slots }
    ensures { OnOk result (string_bytes text.new ≡ string_bytes text.old
        ++ made_header distance patches slots) }
{
    let merges = merge_count(distance, patches, slots);
    let conds = cond_count(distance, patches, slots);
    write_first(text, distance)?;
    write_lines(text, distance, slots, LineKind::Patch, patches)?;
    write_lines(text, distance, slots, LineKind::Init, patches)?;
    write_lines(text, distance, slots, LineKind::Merge, merges)?;
    write_lines(text, distance, slots, LineKind::Read, patches)?;
    write_lines(text, distance, slots, LineKind::Cond, conds)?;
    write_last(text)
}

/// The header of a schedule of so many patches of this distance, over so many slots.
pub(crate) fn header(
    alloc: Global,
    distance: u32,
    patches: u32,
    slots: u32,
) -> Result<String, AllocError>
    requires { AreMakeable distance patches slots }
    ensures { IfOk result (λ text. string_bytes text ≡ made_header distance patches slots) }
{
    let mut text = String::new(alloc);
    write_header(&mut text, distance, patches, slots)?;
    Ok(text)
}
