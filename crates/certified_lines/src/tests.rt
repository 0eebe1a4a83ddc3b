use super::*;
use std::alloc::Global;
use std::test::*;

/// A line as it was read, in a few numbers: its kind from 0 on, its first number, and how many
/// further ones.
fn read(alloc: Global, line: &[u8]) -> Result<(u32, i64, usize), LineError> {
    let found = match cert_line(alloc, line)? {
        CertLine::Start => (0, 0, 0),
        CertLine::Arrive(slot) => (1, i64::from(slot), 0),
        CertLine::Commit(window, edges) => (2, i64::from(window), edges.as_slice().len()),
        CertLine::Whole(edges) => (3, 0, edges.as_slice().len()),
        CertLine::Vertex(numbers) => (4, numbers.first().copied().unwrap_or(0), numbers.len()),
        CertLine::OddSet(number, members) => (5, number, members.len()),
        CertLine::Released(_, bit) => (6, i64::from(bit), 0),
        CertLine::Finish => (7, 0, 0),
    };
    Ok(found)
}

#[test]
fn lines_are_read(rt: HostRuntime) -> Result<(), Fail> {
    let cases: [(&[u8], (u32, i64, usize)); 13] = [
        (b"log 1 certified", (0, 0, 0)),
        (b"arrive 12", (1, 12, 0)),
        (b"commit 3 4 5", (2, 3, 2)),
        (b"whole", (3, 0, 0)),
        (b"whole 2", (3, 0, 1)),
        (b"whole 2 4294967295", (3, 0, 2)),
        (b"vertex", (4, 0, 0)),
        (b"vertex 2 2", (4, 2, 2)),
        (b"vertex -1 0 3", (4, -1, 3)),
        (b"vertex 999999999999999999", (4, 999999999999999999, 1)),
        (b"set 2 0 1 4", (5, 2, 3)),
        (b"released c 1", (6, 1, 0)),
        (b"end log", (7, 0, 0)),
    ];
    for (number, (line, found)) in cases.iter().enumerate() {
        assert_eq!(rt; read(rt.alloc(), line), Ok(*found), "at {number}");
    }
    Ok(())
}

#[test]
fn other_lines_are_faults(rt: HostRuntime) -> Result<(), Fail> {
    let cases: [&[u8]; 18] = [
        b"",
        b"log 1",
        b"log 1 certified ",
        b"end log\n",
        b"whole 2 2",
        b"whole 3 2",
        b"whole ",
        b"vertex 03",
        b"vertex -0",
        b"vertex +1",
        b"vertex 1000000000000000000",
        b"vertex 1  2",
        b"set 2 0 1",
        b"set 2",
        b"set 0 1",
        b"set -2 1",
        b"set 2 1 1 2",
        b"sets 2 1",
    ];
    for (number, line) in cases.iter().enumerate() {
        assert_eq!(rt;
            read(rt.alloc(), line),
            Err(LineError::Fault),
            "at {number}"
        );
    }
    Ok(())
}
