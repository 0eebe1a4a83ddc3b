//! The least line that breaks each rule.
ghost use Rattle.std.specs.Prelude.{◌≡◌, ◌==◌, ◌+◌, ◌&&◌, ◌||◌, ℕ, Bool, not, nat_lt, nat_le, filter, map, option_map, is_some, slice_index_or, if◌then◌else◌};
ghost use Rattle.std.specs.List.{list_any};
ghost use Rattle.surface_model.specs.Schedules.{PatchLine, MergeLine, CondLine, ReadLine};
ghost use Rattle.surface_model.specs.Layout.{no_patch, patch_at, split_slot};
ghost use Rattle.surface_model.specs.Rules.{are_neighbours, breaking, filter_numbered, first_broken, has_repeats, init_of, of_life, read_of, rule_fault, same_tile, share_a_patch, share_a_slot};
ghost use Rattle.schedule_rules.specs.Least.{least, lesser, reported, reported_kind};

use crate::lives::{
    are_neighbours, has_repeats, holds_merge, holds_slot, init_of, is_after, read_of, same_tile,
    share_a_patch, share_a_slot, tile_of,
};
use schedule_reader::{
    CondItem, FaultKind, MergeItem, PatchItem, ReadItem, Schedule, ScheduleFault,
};
use surface_model::RuleFault;

/// The rules, in the order in which broken ones are reported.
const RULES: [RuleFault; 7] = [
    RuleFault::TileTaken,
    RuleFault::BadLife,
    RuleFault::NotNeighbours,
    RuleFault::MergeOutsideLife,
    RuleFault::MergesTouch,
    RuleFault::BadCond,
    RuleFault::Missing,
];

/// The first rule that a schedule breaks, at the least line that breaks it.
pub(crate) fn rule_fault(schedule: &Schedule) -> Option<ScheduleFault>
    ensures { result ≡ option_map reported (rule_fault schedule.now) }
{
    first_broken(schedule, RULES.as_slice())
}

/// The first of these rules that a schedule breaks, at the least line that breaks it.
fn first_broken(schedule: &Schedule, rules: &[RuleFault]) -> Option<ScheduleFault>
    ensures { result ≡ option_map reported (first_broken schedule.now rules.now) }
{
    for rule in rules {
        if let Some(line) = least_breaking(schedule, *rule) {
            return Some(ScheduleFault {
                line,
                kind: kind_of(*rule),
            });
        }
    }
    None
}

fn kind_of(rule: RuleFault) -> FaultKind
    ensures { result ≡ reported_kind rule }
{
    match rule {
        RuleFault::TileTaken => FaultKind::TileTaken,
        RuleFault::BadLife => FaultKind::BadLife,
        RuleFault::NotNeighbours => FaultKind::NotNeighbours,
        RuleFault::MergeOutsideLife => FaultKind::MergeOutsideLife,
        RuleFault::MergesTouch => FaultKind::MergesTouch,
        RuleFault::BadCond => FaultKind::BadCond,
        RuleFault::Missing => FaultKind::Missing,
    }
}

/// The least line that breaks this rule.
fn least_breaking(schedule: &Schedule, rule: RuleFault) -> Option<u32>
    ensures { result ≡ least (breaking schedule.now rule) }
{
    match rule {
        RuleFault::TileTaken => taken_tile(&schedule.patches),
        RuleFault::BadLife => bad_life(schedule),
        RuleFault::NotNeighbours => not_neighbours(schedule),
        RuleFault::MergeOutsideLife => outside_life(schedule),
        RuleFault::MergesTouch => touching(&schedule.merges),
        RuleFault::BadCond => bad_cond(schedule),
        RuleFault::Missing => missing(schedule),
    }
}

/// The lesser of a line and the least so far, where the line breaks the rule.
fn lesser_where(breaks: bool, least: Option<u32>, line: u32) -> Option<u32>
    ensures { result ≡ (if breaks then lesser least line else least) }
{
    match least {
        Some(least) if breaks => Some(least.min(line)),
        None if breaks => Some(line),
        _ => least,
    }
}

fn taken_tile(patches: &[PatchItem]) -> Option<u32>
    ensures { result ≡ least (map (λ (a : PatchLine). a.line)
        (filter (λ a. list_any (λ b. nat_lt b.line a.line && same_tile a b) patches.now)
        patches.now)) }
{
    let mut least = None;
    for patch in patches {
        least = lesser_where(is_taken(patches, patch), least, patch.line);
    }
    least
}

fn is_taken(patches: &[PatchItem], patch: &PatchItem) -> bool
    ensures { result ≡ list_any (λ (b : PatchLine). nat_lt b.line patch.now.line
        && same_tile patch.now b) patches.now }
{
    patches
        .iter()
        .any(|other| other.line < patch.line && same_tile(patch, other))
}

fn bad_life(schedule: &Schedule) -> Option<u32>
    ensures { result ≡ least (map (λ (r : ReadLine). r.line)
        (filter (λ r. not (of_life schedule.now nat_lt r.patch)) schedule.now.reads)) }
{
    let mut least = None;
    for read in &schedule.reads {
        least = lesser_where(!lives(schedule, read), least, read.line);
    }
    least
}

fn lives(schedule: &Schedule, read: &ReadItem) -> bool
    ensures { result ≡ of_life schedule.now nat_lt read.now.patch }
{
    let patch = read.patch as usize;
    is_after(init_of(schedule, patch), read_of(schedule, patch))
}

fn not_neighbours(schedule: &Schedule) -> Option<u32>
    ensures { result ≡ least (map (λ (m : MergeLine). m.line)
        (filter (λ m. not (are_neighbours (patch_at schedule.now m.one)
        (patch_at schedule.now m.two))) schedule.now.merges)) }
{
    let mut least = None;
    for merge in &schedule.merges {
        least = lesser_where(!joins_neighbours(schedule, merge), least, merge.line);
    }
    least
}

/// Whether a merge is of neighbours.
fn joins_neighbours(schedule: &Schedule, merge: &MergeItem) -> bool
    ensures { result ≡ are_neighbours (patch_at schedule.now merge.now.one)
        (patch_at schedule.now merge.now.two) }
{
    let patches = schedule.patches.as_slice();
    are_neighbours(tile_of(patches, merge.one), tile_of(patches, merge.two))
}

fn outside_life(schedule: &Schedule) -> Option<u32>
    ensures { result ≡ least (map (λ (m : MergeLine). m.line)
        (filter (λ m. not (of_life schedule.now (λ first last. nat_lt first m.slot
        && nat_lt (split_slot m) last) m.one
        && of_life schedule.now (λ first last. nat_lt first m.slot
        && nat_lt (split_slot m) last) m.two)) schedule.now.merges)) }
{
    let mut least = None;
    for merge in &schedule.merges {
        least = lesser_where(!is_within(schedule, merge), least, merge.line);
    }
    least
}

/// Whether a merge is strictly within the lives of its patches.
fn is_within(schedule: &Schedule, merge: &MergeItem) -> bool
    ensures { result ≡ (of_life schedule.now (λ first last. nat_lt first merge.now.slot
        && nat_lt (split_slot merge.now) last) merge.now.one
        && of_life schedule.now (λ first last. nat_lt first merge.now.slot
        && nat_lt (split_slot merge.now) last) merge.now.two) }
{
    is_held(schedule, merge.one, merge) && is_held(schedule, merge.two, merge)
}

/// Whether a merge is strictly within the life of this patch.
fn is_held(schedule: &Schedule, patch: u32, merge: &MergeItem) -> bool
    ensures { result ≡ of_life schedule.now (λ first last. nat_lt first merge.now.slot
        && nat_lt (split_slot merge.now) last) patch }
{
    let patch = patch as usize;
    holds_merge(init_of(schedule, patch), read_of(schedule, patch), merge)
}

fn touching(merges: &[MergeItem]) -> Option<u32>
    ensures { result ≡ least (map (λ (a : MergeLine). a.line)
        (filter (λ a. list_any (λ b. nat_lt b.line a.line && share_a_patch a b
        && share_a_slot a b) merges.now) merges.now)) }
{
    let mut least = None;
    for merge in merges {
        least = lesser_where(touches(merges, merge), least, merge.line);
    }
    least
}

/// Whether a merge touches an earlier one.
fn touches(merges: &[MergeItem], merge: &MergeItem) -> bool
    ensures { result ≡ list_any (λ (b : MergeLine). nat_lt b.line merge.now.line
        && share_a_patch merge.now b && share_a_slot merge.now b) merges.now }
{
    merges.iter().any(|other| {
        other.line < merge.line && share_a_patch(merge, other) && share_a_slot(merge, other)
    })
}

fn bad_cond(schedule: &Schedule) -> Option<u32>
    ensures { result ≡ least (map (λ (c : CondLine). c.line) (filter (λ c. has_repeats c.labels
        || not (of_life schedule.now (λ first last. nat_le first c.slot
        && nat_le c.slot last) c.patch)) schedule.now.conds)) }
{
    let mut least = None;
    for cond in &schedule.conds {
        least = lesser_where(is_bad(schedule, cond), least, cond.line);
    }
    least
}

/// Whether a condition names an observable twice, or stands outside its patch's life.
fn is_bad(schedule: &Schedule, cond: &CondItem) -> bool
    ensures { result ≡ (has_repeats cond.now.labels
        || not (of_life schedule.now (λ first last. nat_le first cond.now.slot
        && nat_le cond.now.slot last) cond.now.patch)) }
{
    has_repeats(cond.labels.as_slice()) || !is_lived(schedule, cond)
}

/// Whether a condition stands within its patch's life.
fn is_lived(schedule: &Schedule, cond: &CondItem) -> bool
    ensures { result ≡ of_life schedule.now (λ first last. nat_le first cond.now.slot
        && nat_le cond.now.slot last) cond.now.patch }
{
    let patch = cond.patch as usize;
    holds_slot(
        init_of(schedule, patch),
        read_of(schedule, patch),
        cond.slot,
    )
}

fn missing(schedule: &Schedule) -> Option<u32>
    ensures { result ≡ least (breaking schedule.now RuleFault.Missing) }
{
    if schedule.patches.is_empty() {
        return Some(schedule.rounds_line);
    }
    incomplete(schedule, &schedule.patches)
}

/// The least line of a patch that isn't prepared and read, among these patches from number 0 on.
fn incomplete(schedule: &Schedule, patches: &[PatchItem]) -> Option<u32>
    ensures { result ≡ least (map (λ (p : PatchLine). p.line)
        (filter_numbered (λ n. not (is_some (init_of schedule.now n)
        && is_some (read_of schedule.now n))) 0 patches.now)) }
{
    let mut least = None;
    for (at, patch) in patches.iter().enumerate() {
        least = lesser_where(!is_complete(schedule, at), least, patch.line);
    }
    least
}

/// Whether the patch of this number is prepared and read.
fn is_complete(schedule: &Schedule, patch: usize) -> bool
    ensures { result ≡ (is_some (init_of schedule.now patch)
        && is_some (read_of schedule.now patch)) }
{
    init_of(schedule, patch).is_some() && read_of(schedule, patch).is_some()
}
