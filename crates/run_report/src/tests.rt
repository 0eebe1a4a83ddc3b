//! Lines of events, and a log that is read.

use crate::counts::{Counts, write_counts};
use crate::fields::{end_line, write_line, write_spaced, write_word};
use crate::lines::{Summary, write_commit, write_release, write_stale, write_totals};
use crate::links::write_link;
use crate::{LogStep, read_log};
use detector_graph::{Bits, EdgeSet};
use schedule_reader::Name;
use std::alloc::Global;
use std::process::Abort;
use std::test::Fail;
use window_model::Origin;

/// Compares a text with what was found by hand, line by line.
fn compare(rt: &impl Abort, alloc: Global, text: &str, expected: &[&str]) -> Result<(), Fail> {
    let mut all = String::new(alloc);
    for line in expected {
        all.push_str(line)?;
        all.push_str("\n")?;
    }
    assert_eq!(rt; text, all.as_str());
    Ok(())
}

/// Lines of claims, results and commits.
fn claims(alloc: Global) -> Result<String, Fail> {
    let zeros = Bits::zeros(alloc, 4)?;
    let mut two = Bits::zeros(alloc, 2)?;
    two.set(0, true);
    let mut edges = EdgeSet::new(alloc);
    edges.push(10)?;
    let mut text = String::new(alloc);
    write_word(&mut text, "claim")?;
    write_spaced(&mut text, &[1, 1])?;
    write_link(&mut text, 0, Origin::Guess, &zeros)?;
    end_line(&mut text)?;
    write_word(&mut text, "claim")?;
    write_spaced(&mut text, &[2, 12])?;
    write_link(&mut text, 1, Origin::Ticket(1), &zeros)?;
    write_link(&mut text, 11, Origin::Guess, &two)?;
    end_line(&mut text)?;
    write_commit(&mut text, 0, &edges)?;
    write_commit(&mut text, 1, &EdgeSet::new(alloc))?;
    Ok(text)
}

/// Lines of other events, of releases and of counts.
fn others(alloc: Global) -> Result<String, Fail> {
    let labels = [Name::new(b"c").ok_or("no name")?];
    let counts = Counts {
        claims: 5,
        guessed: 1,
        poisoned: 2,
        dropped: 3,
        stale: 4,
    };
    let summary = Summary {
        windows: 3,
        done: 2,
        defects: 7,
        edges: 4,
        weight: 1 << 32,
    };
    let mut text = String::new(alloc);
    write_line(&mut text, "poison", &[0, 4294967295])?;
    write_stale(&mut text, 1, Some(3))?;
    write_stale(&mut text, 1, None)?;
    write_release(&mut text, "release", &labels, 0, true)?;
    write_counts(&mut text, &counts)?;
    write_totals(&mut text, &summary)?;
    Ok(text)
}

#[test]
fn lines_of_events(rt: HostRuntime) -> Result<(), Fail> {
    let mut text = claims(rt.alloc())?;
    text.push_str(others(rt.alloc())?.as_str())?;
    compare(
        &rt,
        rt.alloc(),
        text.as_str(),
        &[
            "claim 1 1 0?0000",
            "claim 2 12 1=1 11?10",
            "commit 0 10",
            "commit 1",
            "poison 0 4294967295",
            "stale 1 3",
            "stale 1 none",
            "release c 1",
            "counts claims 5 guessed 1 poisoned 2 dropped 3 stale 4",
            "summary windows 3 done 2 defects 7 edges 4 weight 4294967296",
        ],
    )
}

/// Whether a text reads as the log of an arrival of slot 0 and a commit of window 0 with edge 9.
fn is_read(alloc: Global, text: &[u8]) -> Result<bool, Fail> {
    if text.len() > 1000 {
        return Ok(false);
    }
    let Ok(steps) = read_log(alloc, text) else {
        return Ok(false);
    };
    let read = match steps.as_slice() {
        [LogStep::Arrive(0), LogStep::Commit(0, edges)] => edges.as_slice() == [9].as_slice(),
        _ => false,
    };
    Ok(read)
}

#[test]
fn a_log_is_read(rt: HostRuntime) -> Result<(), Fail> {
    let alloc = rt.alloc();
    assert!(rt; is_read(alloc, b"log 1\narrive 0\ncommit 0 9\nend log\n")?);
    assert!(rt; !is_read(alloc, b"log 1\narrive 0\ncommit 0 9 9\nend log\n")?);
    Ok(())
}
