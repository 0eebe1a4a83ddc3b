//! The links of claims.
ghost use Rattle.std.specs.Prelude.{◌≡◌, ◌<◌, ◌≤◌, ◌++◌, OnOk, Some, count_by, flat_map, length, slice_get, string_bytes, take};
ghost use Rattle.core_journal.specs.Entries.{links_of};
ghost use Rattle.core_journal.specs.declared.event.Event.TheVariants as entry;
ghost use Rattle.core_state.specs.States.{machine_of};
ghost use Rattle.core_store.specs.Tickets.{links_with};
ghost use Rattle.run_report.specs.Words.{link_word};
ghost use Rattle.trace_laws.specs.Told.{StandsYet};
ghost use Rattle.window_model.specs.Gates.{most_windows};
ghost use Rattle.window_model.specs.Speculation.{guesses_in, is_guess};

use crate::fields::{write_bits, write_number};
use core_state::{Claim, CoreState};
use detector_graph::Bits;
use std::alloc::AllocError;
use window_model::Origin;

/// The dependencies of a window that was claimed, and the claim of its ticket. The claim has an
/// origin and bits for each dependency.
fn claimed(core: &CoreState, ticket: u32, window: u32) -> (&[u32], &Claim)
    requires { StandsYet core.now.task core.now.kept (machine_of core.now)
        (entry.Claimed ticket window) }
    ensures links { links_with result.0.now result.1.now.origins result.1.now.bits
        ≡ links_of core.now.kept ticket }
    ensures origins { length result.0.now ≤ length result.1.now.origins }
    ensures bits { length result.0.now ≤ length result.1.now.bits }
    ensures few { length result.0.now ≤ most_windows }
{
    core.is_state();
    (core.setting().deps(window), core.claim_of(ticket))
}

/// The links of a ticket, each after a space: for each dependency where its bits come from, and the
/// bits of a guess.
pub(crate) fn write_links(
    text: &mut String,
    core: &CoreState,
    ticket: u32,
    window: u32,
) -> Result<(), AllocError>
    requires { StandsYet core.now.task core.now.kept (machine_of core.now)
        (entry.Claimed ticket window) }
    ensures { OnOk result (string_bytes text.new ≡ string_bytes text.old
        ++ flat_map link_word (links_of core.now.kept ticket)) }
{
    let (deps, claim) = claimed(core, ticket, window);
    write_each(text, deps, &claim.origins, &claim.bits)
}

fn write_each(
    text: &mut String,
    deps: &[u32],
    origins: &[Origin],
    bits: &[Bits],
) -> Result<(), AllocError>
    requires origins { length deps.now ≤ length origins.now }
    requires bits { length deps.now ≤ length bits.now }
    ensures { OnOk result (string_bytes text.new ≡ string_bytes text.old
        ++ flat_map link_word (links_with deps.now origins.now bits.now)) }
{
    for at in 0..deps.len() {
        write_link(text, deps[at], origin_at(origins, at), &bits[at])?;
    }
    Ok(())
}

fn origin_at(origins: &[Origin], at: usize) -> Origin
    requires { at < length origins.now }
    ensures { slice_get origins.now at ≡ Some result }
{
    origins[at]
}

/// A link after a space.
pub(crate) fn write_link(
    text: &mut String,
    source: u32,
    origin: Origin,
    bits: &Bits,
) -> Result<(), AllocError>
    ensures { OnOk result (string_bytes text.new ≡ string_bytes text.old
        ++ link_word (record { source = source; origin = origin; bits = bits.now })) }
{
    text.push_str(" ")?;
    write_number(text, u64::from(source))?;
    match origin {
        Origin::Guess => {
            text.push_str("?")?;
            write_bits(text, bits)
        }
        Origin::Ticket(ticket) => {
            text.push_str("=")?;
            write_number(text, u64::from(ticket))
        }
    }
}

/// How many links of a ticket are guesses, as it was claimed.
pub(crate) fn guesses_of(core: &CoreState, ticket: u32, window: u32) -> u32
    requires { StandsYet core.now.task core.now.kept (machine_of core.now)
        (entry.Claimed ticket window) }
    ensures value { result ≡ guesses_in (links_of core.now.kept ticket) }
    ensures few { result ≤ most_windows }
{
    let (deps, claim) = claimed(core, ticket, window);
    guesses_among(&claim.origins, deps.len())
}

/// How many of the first origins are guesses.
fn guesses_among(origins: &[Origin], first: usize) -> u32
    requires within { first ≤ length origins.now }
    requires few { first ≤ most_windows }
    ensures value { result ≡ count_by is_guess (take first origins.now) }
    ensures few { result ≤ first }
{
    let mut count = 0;
    for at in 0..first {
        count += u32::from(is_guess(origin_at(origins, at)));
    }
    count
}

fn is_guess(origin: Origin) -> bool
    ensures { result ≡ is_guess origin }
{
    matches!(origin, Origin::Guess)
}
