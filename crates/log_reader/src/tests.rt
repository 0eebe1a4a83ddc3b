use super::*;
use std::alloc::Global;
use std::test::*;

/// How many arrivals, committed edges and releases of bit 1 the steps have.
fn counts(steps: &[LogStep]) -> (u32, u64, u32) {
    let mut arrivals: u32 = 0;
    let mut edges: u64 = 0;
    let mut ones: u32 = 0;
    for step in steps {
        match step {
            LogStep::Arrive(_) => arrivals = arrivals.saturating_add(1),
            LogStep::Commit(_, set) => edges = edges.saturating_add(set.as_slice().len() as u64),
            LogStep::Released(_, bit) => ones = ones.saturating_add(u32::from(*bit)),
        }
    }
    (arrivals, edges, ones)
}

/// What is read of a text, in a few numbers, or the line that is at fault.
fn read(alloc: Global, text: &[u8]) -> Result<(usize, (u32, u64, u32)), LogError> {
    if text.len() > 1000 {
        return Err(LogError::Memory);
    }
    let steps = read_log(alloc, text)?;
    Ok((steps.len(), counts(&steps)))
}

#[test]
fn logs_are_read(rt: HostRuntime) -> Result<(), Fail> {
    let cases: [(&[u8], usize, (u32, u64, u32)); 4] = [
        (b"log 1\nend log\n", 0, (0, 0, 0)),
        (b"log 1\narrive 0\ncommit 0 9\nend log\n", 2, (1, 1, 0)),
        (
            b"log 1\narrive 4294967295\ncommit 7\nreleased c_1 1\nend log\n",
            3,
            (1, 0, 1),
        ),
        (
            b"log 1\nreleased a 0\ncommit 12 3 40 500\nend log\n",
            2,
            (0, 3, 0),
        ),
    ];
    for (number, (text, count, found)) in cases.iter().enumerate() {
        assert_eq!(rt; read(rt.alloc(), text), Ok((*count, *found)), "at {number}");
    }
    Ok(())
}

#[test]
fn the_first_line_outside_is_named(rt: HostRuntime) -> Result<(), Fail> {
    let cases: [(&[u8], u32); 20] = [
        (b"", 1),
        (b"log 1", 1),
        (b"log 2\nend log\n", 1),
        (b"log 1 certified\nend log\n", 1),
        (b"log 1\n", 2),
        (b"log 1\nend log", 2),
        (b"log 1\nend log\n\n", 3),
        (b"log 1\nend log\nx", 3),
        (b"log 1\narrive 0\ncommit 0 9 9\nend log\n", 3),
        (b"log 1\narrive 0\ncommit 0 9\n", 4),
        (b"log 1\ncommit 0 9 8\nend log\n", 2),
        (b"log 1\ncommit 0 \nend log\n", 2),
        (b"log 1\ncommit 0  9\nend log\n", 2),
        (b"log 1\ncommit\nend log\n", 2),
        (b"log 1\narrive 00\nend log\n", 2),
        (b"log 1\narrive 4294967296\nend log\n", 2),
        (b"log 1\narrive +1\nend log\n", 2),
        (b"log 1\nreleased c 2\nend log\n", 2),
        (b"log 1\nreleased m.seam 1\nend log\n", 2),
        (b"log 1\nrelease c 1\nend log\n", 2),
    ];
    for (number, (text, line)) in cases.iter().enumerate() {
        let found = read(rt.alloc(), text);
        assert_eq!(rt; found, Err(LogError::Fault { line: *line }), "at {number}");
    }
    Ok(())
}
