//! The lines of a made header.
ghost use Rattle.std.specs.Prelude.{◌≡◌, ◌≤◌, ◌+◌, ◌*◌, ◌/◌, ◌%◌, ◌++◌, ◌∷◌, [], OnOk, codes, decimal, string_bytes};
ghost use Rattle.report_model.specs.Texts.{line};
ghost use Rattle.surface_model.specs.Limits.{most_patches};
ghost use Rattle.surface_model.specs.Text.{seam_of};
ghost use Rattle.workload_maker.specs.Headers.{line_text, lines_text, merge_label, numbered, patch_name};

use std::alloc::AllocError;
use std::fmt::Write;

/// The kinds of lines that stand once for each patch, or once for each pair of patches.
#[derive(Clone, Copy)]
pub(crate) enum LineKind {
    Patch,
    Init,
    Merge,
    Read,
    Cond,
}

/// Adds the line of a patch on its tile; eight tiles are in a row.
fn write_patch(text: &mut String, patch: u32) -> Result<(), AllocError>
    ensures { OnOk result (string_bytes text.new ≡ string_bytes text.old
        ++ line (codes "patch" ∷ patch_name patch
        ∷ decimal (patch / 8) ∷ decimal (patch % 8) ∷ [])) }
{
    let (row, col) = (patch / 8, patch % 8);
    writeln!(text, "patch p{patch} {row} {col}")
}

/// Adds the line of a patch's preparation.
fn write_init(text: &mut String, patch: u32) -> Result<(), AllocError>
    ensures { OnOk result (string_bytes text.new ≡ string_bytes text.old
        ++ line (codes "init" ∷ patch_name patch ∷ codes "z" ∷ codes "0" ∷ [])) }
{
    writeln!(text, "init p{patch} z 0")
}

/// Adds the line of the merge of a pair of patches.
fn write_merge(text: &mut String, distance: u32, pair: u32) -> Result<(), AllocError>
    requires distance { distance ≤ 11 }
    requires pair { pair ≤ most_patches }
    ensures { OnOk result (string_bytes text.new ≡ string_bytes text.old
        ++ line (codes "merge" ∷ merge_label pair ∷ patch_name (2 * pair)
        ∷ patch_name (2 * pair + 1) ∷ decimal (distance + 1) ∷ decimal distance ∷ [])) }
{
    let (one, two) = (2 * pair, 2 * pair + 1);
    let start = distance + 1;
    writeln!(text, "merge m{pair} p{one} p{two} {start} {distance}")
}

/// Adds the line of a patch's reading.
fn write_read(text: &mut String, patch: u32, slot: u32) -> Result<(), AllocError>
    ensures { OnOk result (string_bytes text.new ≡ string_bytes text.old
        ++ line (codes "read" ∷ numbered (codes "r") patch ∷ patch_name patch ∷ codes "z"
        ∷ decimal slot ∷ [])) }
{
    writeln!(text, "read r{patch} p{patch} z {slot}")
}

/// Adds the line of the condition of a pair of patches.
fn write_cond(text: &mut String, slot: u32, pair: u32) -> Result<(), AllocError>
    requires { pair ≤ most_patches }
    ensures { OnOk result (string_bytes text.new ≡ string_bytes text.old
        ++ line (codes "cond" ∷ numbered (codes "c") pair ∷ patch_name (2 * pair) ∷ decimal slot
        ∷ merge_label pair ∷ seam_of (merge_label pair) ∷ [])) }
{
    let one = 2 * pair;
    writeln!(text, "cond c{pair} p{one} {slot} m{pair} m{pair}.seam")
}

/// Adds the line of this number among those of its kind, where patches have this distance and are
/// read in the last of so many slots.
fn write_line(
    text: &mut String,
    distance: u32,
    slots: u32,
    kind: LineKind,
    number: u32,
) -> Result<(), AllocError>
    requires distance { distance ≤ 11 }
    requires slots { 1 ≤ slots }
    requires number { number ≤ most_patches }
    ensures { OnOk result (string_bytes text.new ≡ string_bytes text.old
        ++ line_text distance slots kind number) }
{
    match kind {
        LineKind::Patch => write_patch(text, number),
        LineKind::Init => write_init(text, number),
        LineKind::Merge => write_merge(text, distance, number),
        LineKind::Read => write_read(text, number, slots - 1),
        LineKind::Cond => write_cond(text, 5 * (distance + 1), number),
    }
}

/// Adds the first so many lines of a kind.
pub(crate) fn write_lines(
    text: &mut String,
    distance: u32,
    slots: u32,
    kind: LineKind,
    count: u32,
) -> Result<(), AllocError>
    requires distance { distance ≤ 11 }
    requires slots { 1 ≤ slots }
    requires count { count ≤ most_patches }
    ensures { OnOk result (string_bytes text.new ≡ string_bytes text.old
        ++ lines_text distance slots kind count) }
{
    for number in 0..count {
        write_line(text, distance, slots, kind, number)?;
    }
    Ok(())
}
