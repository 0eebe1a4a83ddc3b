use super::*;
use port_io::MemPort;
use replay_model::ScriptLine;
use std::alloc::{AllocError, Global};
use std::test::*;

fn port(alloc: Global, input: &[u8], fail_takes: &[u64]) -> Result<MemPort, AllocError> {
    let input = Vec::from_slice(alloc, input)?;
    let fail_takes = Vec::from_slice(alloc, fail_takes)?;
    MemPort::new(alloc, input, 0, fail_takes, Vec::new(alloc))
}

/// The ticket that a line finishes, or 0.
fn ticket_of(line: ScriptLine) -> u64 {
    match line {
        ScriptLine::Finish(ticket) => u64::from(ticket),
        ScriptLine::Arrive => 0,
        ScriptLine::Turn => 0,
    }
}

/// Reads a script whose line `script` has the number 10. Tells how many lines it has before its
/// end, the sum of the tickets that they finish, and how it ends.
fn read(port: &mut MemPort) -> (u32, u64, Result<(), ScriptError>) {
    let mut lines: u32 = 0;
    let mut tickets: u64 = 0;
    let mut reader = match ScriptReader::begin(port, 10) {
        Ok(reader) => reader,
        Err(error) => return (lines, tickets, Err(error)),
    };
    for _ in 0..100 {
        match reader.next_line(port) {
            Ok(Found::End) => return (lines, tickets, Ok(())),
            Ok(Found::Line(line)) => {
                lines = lines.saturating_add(1);
                tickets = tickets.saturating_add(ticket_of(line));
            }
            Ok(Found::Last(line)) => {
                let lines = lines.saturating_add(1);
                return (lines, tickets.saturating_add(ticket_of(line)), Ok(()));
            }
            Err(error) => return (lines, tickets, Err(error)),
        }
    }
    (lines, tickets, Ok(()))
}

/// A script with a line that is longer than any line can be.
const TOO_LONG: &[u8] = b"script\n012345678901234567890123456789012345\n";

/// One with a foreign line that is as long as a line can be, and one more.
const AS_LONG: &[u8] = b"script\n01234567890123456789012345678901\nturn\n";

#[test]
fn a_script_is_read_up_to_its_end_or_its_fault(rt: HostRuntime) -> Result<(), Fail> {
    let fault = |line| Err(ScriptError::Fault { line });
    let ended = Err(ScriptError::Ended { line: 10 });
    let cases: [(&[u8], u32, u64, Result<(), ScriptError>, usize); 15] = [
        (b"script\n", 0, 0, Ok(()), 7),
        (
            b"script\narrive\nturn\nfinish 1\nfinish 0020\n",
            4,
            21,
            Ok(()),
            40,
        ),
        (b"script\nfinish 999999999", 1, 999_999_999, Ok(()), 23),
        (b"script\narrive\nturn\nfini", 2, 0, fault(13), 23),
        (b"script\narrive\n\nturn\n", 1, 0, fault(12), 15),
        (b"script\nturn \nturn\n", 0, 0, fault(11), 13),
        (b"script\nfinish 1234567890\n", 0, 0, fault(11), 25),
        (b"script\nfinish\nturn\n", 0, 0, fault(11), 14),
        (TOO_LONG, 0, 0, fault(11), 40),
        (AS_LONG, 0, 0, fault(11), 40),
        (b"script\r\n", 0, 0, fault(10), 7),
        (b"turn\n", 0, 0, fault(10), 1),
        (b"scripts\n", 0, 0, fault(10), 7),
        (b"script", 0, 0, ended, 6),
        (b"", 0, 0, ended, 0),
    ];
    for (number, (input, lines, tickets, end, taken)) in cases.iter().enumerate() {
        let mut port = port(rt.alloc(), input, &[])?;
        assert!(rt; read(&mut port) == (*lines, *tickets, *end), "at {number}");
        assert_eq!(rt; port.tape().len(), *taken, "at {number}");
    }
    Ok(())
}

#[test]
fn a_read_may_fail(rt: HostRuntime) -> Result<(), Fail> {
    for (number, lines) in [(3, 0), (8, 0), (14, 0), (15, 1), (20, 2)] {
        let mut port = port(rt.alloc(), b"script\narrive\nturn\n", &[number])?;
        let failed = (lines, 0, Err(ScriptError::ReadFault));
        assert!(rt; read(&mut port) == failed, "take {number}");
    }
    Ok(())
}
