//! How often what happened.
ghost use Rattle.std.specs.Prelude.{◌≡◌, ◌<◌, ◌≤◌, ◌+◌, ◌++◌, ◌^◌, OnOk, string_bytes};
ghost use Rattle.core_journal.specs.Entries.{event_of};
ghost use Rattle.core_state.specs.States.{events_of, machine_of};
ghost use Rattle.report_model.specs.Texts.{counts_line};
ghost use Rattle.run_report.specs.Reports.{counts_in};
ghost use Rattle.trace_laws.specs.Told.{StandsYet};
ghost use Rattle.window_model.specs.Gates.{most_windows};
ghost use Rattle.window_model.specs.Speculation.{counted, counts_of};

use crate::fields::{end_line, write_field};
use crate::links::guesses_of;
use core_state::{CoreState, Event};
use std::alloc::AllocError;

/// How many windows were claimed, how many links of them were guesses, and how often a window was
/// poisoned or dropped and a ticket stale.
#[derive(Clone, Copy)]
pub(crate) struct Counts {
    pub(crate) claims: u64,
    pub(crate) guessed: u64,
    pub(crate) poisoned: u64,
    pub(crate) dropped: u64,
    pub(crate) stale: u64,
}

/// The line of these counts.
pub(crate) fn write_counts(text: &mut String, counts: &Counts) -> Result<(), AllocError>
    ensures { OnOk result (string_bytes text.new ≡ string_bytes text.old
        ++ counts_line (counts_in counts.now)) }
{
    text.push_str("counts")?;
    write_field(text, "claims", counts.claims)?;
    write_field(text, "guessed", counts.guessed)?;
    write_field(text, "poisoned", counts.poisoned)?;
    write_field(text, "dropped", counts.dropped)?;
    write_field(text, "stale", counts.stale)?;
    end_line(text)
}

/// The counts of what happened.
pub(crate) fn counts_of(core: &CoreState) -> Counts
    ensures { counts_in result ≡ counts_of (events_of core.now) }
{
    core.is_state();
    let mut all = Counts {
        claims: 0,
        guessed: 0,
        poisoned: 0,
        dropped: 0,
        stale: 0,
    };
    for entry in core.journal() {
        all = counted(core, all, *entry);
    }
    all
}

/// The counts with one more entry.
fn counted(core: &CoreState, counts: Counts, entry: Event) -> Counts
    requires stands { StandsYet core.now.task core.now.kept (machine_of core.now) entry }
    requires claims { counts.claims < 2 ^ 32 }
    requires guessed { counts.guessed < 2 ^ 62 }
    requires poisoned { counts.poisoned < 2 ^ 32 }
    requires dropped { counts.dropped < 2 ^ 32 }
    requires stale { counts.stale < 2 ^ 32 }
    ensures value { counts_in result
        ≡ counted (counts_in counts) (event_of core.now.task core.now.kept entry) }
    ensures claims { result.claims ≤ counts.claims + 1 }
    ensures guessed { result.guessed ≤ counts.guessed + most_windows }
    ensures poisoned { result.poisoned ≤ counts.poisoned + 1 }
    ensures dropped { result.dropped ≤ counts.dropped + 1 }
    ensures stale { result.stale ≤ counts.stale + 1 }
{
    match entry {
        Event::Claimed(ticket, window) => Counts {
            claims: counts.claims + 1,
            guessed: counts.guessed + u64::from(guesses_of(core, ticket, window)),
            ..counts
        },
        Event::Poisoned(_, _) => Counts {
            poisoned: counts.poisoned + 1,
            ..counts
        },
        Event::Dropped(_) => Counts {
            dropped: counts.dropped + 1,
            ..counts
        },
        Event::Stale(_, _) => Counts {
            stale: counts.stale + 1,
            ..counts
        },
        Event::Arrived(_) => counts,
        Event::Held(_) => counts,
        Event::Verified(_, _) => counts,
        Event::Committed(_, _) => counts,
        Event::Released(_, _) => counts,
    }
}
