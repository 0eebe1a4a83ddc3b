//! Lines that are at fault.

use crate::reader::CaseReader;
use std::alloc::Global;
use std::sync::Wait;
use std::test::Fail;
use std::thread::Threads;

/// Which of these lines is at fault, and why.
fn fault_of<R: Threads + Wait + Sync>(rt: &R, alloc: Global, lines: &str) -> Result<String, Fail> {
    let mut reader = CaseReader::new(alloc)?;
    let fault = fault_in(rt, alloc, &mut reader, lines);
    drop(reader);
    fault
}

fn fault_in<R: Threads + Wait + Sync>(
    rt: &R,
    alloc: Global,
    reader: &mut CaseReader,
    lines: &str,
) -> Result<String, Fail> {
    for (before, line) in lines.split('\n').enumerate() {
        if let Err(fault) = reader.take(rt, alloc, line) {
            let number = before.saturating_add(1);
            return Ok(format!(in alloc; "line {number} {fault}")?);
        }
    }
    match reader.end() {
        Ok(()) => Ok(String::new(alloc)),
        Err(fault) => Ok(format!(in alloc; "at the end {fault}")?),
    }
}

#[test]
fn lines_at_fault_are_named(rt: HostRuntime) -> Result<(), Fail> {
    let rows = [
        ("# none\n\ncase a\nexpect\nend", ""),
        ("cases a", "line 1 malformed, UnknownLine"),
        ("case a\nfail get 1", "line 2 malformed, UnknownLine"),
        (
            "text a\nx\nend\ncase b\nfrom b",
            "line 5 refused, UnknownText",
        ),
        (
            "text a\nx\nend\ncase b\nfrom a\nline 2 y",
            "line 6 refused, NoLine",
        ),
        ("case a\nfail take x", "line 2 malformed, BadNumber"),
        ("case a\ninput\n\\x0g", "line 3 malformed, BadEscape"),
        (
            "case a\nexpect\nend\ncase b",
            "at the end malformed, NotEnded",
        ),
        ("case a\ninput\nend", "line 3 refused, NothingExpected"),
    ];
    for (lines, fault) in rows {
        let found = fault_of(&rt, rt.alloc(), lines)?;
        assert_eq!(rt; found.as_str(), fault, "{lines}");
    }
    Ok(())
}
