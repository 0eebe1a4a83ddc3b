use super::*;
use port_io::MemPort;
use std::alloc::{AllocError, Global};
use std::test::*;

fn port(alloc: Global, input: &[u8], fail_takes: &[u64]) -> Result<MemPort, AllocError> {
    let input = Vec::from_slice(alloc, input)?;
    let fail_takes = Vec::from_slice(alloc, fail_takes)?;
    MemPort::new(alloc, input, 0, fail_takes, Vec::new(alloc))
}

/// Reads three rows of 8, 8 and 9 bits, whose lines begin at line 8.
fn read(alloc: Global, port: &mut MemPort) -> Result<(), RowError> {
    let mut reader = RowReader::new(8);
    reader.next_row(alloc, port, 8)?;
    reader.next_row(alloc, port, 8)?;
    reader.last_row(alloc, port, 9)?;
    reader.finish(port)
}

#[test]
fn rows_end_at_their_first_offending_byte(rt: HostRuntime) -> Result<(), Fail> {
    let fault = |line, kind| Err(RowError::Fault { line, kind });
    let ended = |line| Err(RowError::Ended { line });
    let cases: [(&[u8], Result<(), RowError>, usize); 15] = [
        (b"01000000\n00000000\n000000000\n", Ok(()), 28),
        (b"01000000\n00000000\n000000000", Ok(()), 27),
        (b"01000000\n00000000\n0000", ended(10), 22),
        (b"01000000\n00000000\n", ended(10), 18),
        (b"01000000\n00000000", ended(9), 17),
        (b"", ended(8), 0),
        (
            b"01000000\n00000000\n000000000\n01",
            fault(11, RowKind::Trailing),
            29,
        ),
        (
            b"01000000\n00000000\n0000000000\n",
            fault(10, RowKind::Long),
            28,
        ),
        (
            b"01000000\n00000000\n00000000\n00",
            fault(10, RowKind::Short),
            27,
        ),
        (b"0100000\n00000000\n", fault(8, RowKind::Short), 8),
        (b"010000000\n00000000\n", fault(8, RowKind::Long), 9),
        (b"01x00000\n00000000\n", fault(8, RowKind::Byte), 3),
        (b"01000000\r\n00000000\n", fault(8, RowKind::Byte), 9),
        (b"01000000\n/0000000\n", fault(9, RowKind::Byte), 10),
        (b"01000000\n20000000\n", fault(9, RowKind::Byte), 10),
    ];
    for (number, (input, answer, taken)) in cases.iter().enumerate() {
        let mut port = port(rt.alloc(), input, &[])?;
        assert_eq!(rt; read(rt.alloc(), &mut port), *answer, "at {number}");
        assert_eq!(rt; port.tape().len(), *taken, "at {number}");
    }
    Ok(())
}

#[test]
fn a_row_has_the_bits_as_written(rt: HostRuntime) -> Result<(), Fail> {
    let mut port = port(rt.alloc(), b"0110\n\n1", &[3])?;
    let mut reader = RowReader::new(4_000_000_000);
    assert!(rt;
        matches!(
            &reader.next_row(rt.alloc(), &mut port, 4),
            Err(RowError::ReadFault)
        )
    );
    let rest = reader.next_row(rt.alloc(), &mut port, 2)?;
    assert!(rt; rest.get(0) && !rest.get(1));
    let empty = reader.next_row(rt.alloc(), &mut port, 0)?;
    assert_eq!(rt; empty.len(), 0);
    let last = reader.last_row(rt.alloc(), &mut port, 1)?;
    assert!(rt; last.get(0));
    assert_eq!(rt; reader.finish(&mut port), Ok(()));
    Ok(())
}

#[test]
fn a_header_ends_with_its_line_rounds(rt: HostRuntime) -> Result<(), Fail> {
    let cases: [(&[u8], usize); 5] = [
        (b"swiper 1\nrounds\n01\n", 16),
        (b"rounds\nrounds\n", 7),
        (b"#\n  rounds \nrounds\n", 12),
        (
            b"# rounds\nrounds x\nroundsx\nround\nrounds rounds\nrounds\n0",
            53,
        ),
        (b"x rounds\n rounds.\n\nrounds\n", 26),
    ];
    for (number, (input, taken)) in cases.iter().enumerate() {
        let mut port = port(rt.alloc(), input, &[])?;
        let text = header(rt.alloc(), &mut port)?;
        assert_eq!(rt; text.as_slice(), &input[..*taken], "at {number}");
        assert_eq!(rt; port.tape().len(), *taken, "at {number}");
    }
    Ok(())
}

#[test]
fn a_header_may_not_end(rt: HostRuntime) -> Result<(), Fail> {
    let ended = |line| HeaderError::Ended { line };
    let cases: [(&[u8], &[u64], HeaderError, usize); 5] = [
        (b"swiper 1\n", &[], ended(2), 9),
        (b"", &[], ended(1), 0),
        (b"swiper 1\nrounds", &[], ended(2), 15),
        (b"swiper 1\n", &[1], HeaderError::ReadFault, 0),
        (b"rounds\n", &[7], HeaderError::ReadFault, 6),
    ];
    for (number, (input, fail_takes, error, taken)) in cases.iter().enumerate() {
        let mut port = port(rt.alloc(), input, fail_takes)?;
        assert_eq!(rt;
            header(rt.alloc(), &mut port).err(),
            Some(*error),
            "at {number}"
        );
        assert_eq!(rt; port.tape().len(), *taken, "at {number}");
    }
    let mut port = port(
        rt.alloc(),
        vec![in rt.alloc(); b'\n'; 1_048_578]?.as_slice(),
        &[],
    )?;
    assert_eq!(rt; header(rt.alloc(), &mut port)?.len(), 1_048_577);
    assert_eq!(rt; port.tape().len(), 1_048_577);
    Ok(())
}
