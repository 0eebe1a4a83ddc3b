use super::*;
use port_io::{MemPort, TapeByte};
use schedule_reader::Name;
use std::alloc::{AllocError, Global};
use std::test::*;

/// What is answered to the release of `c1` with bit 1, and the text on the tape, where so many
/// bytes can be put.
fn released(alloc: Global, room: u64) -> Result<(Result<(), PutError>, Vec<u8>), AllocError> {
    let fine = Vec::new(alloc);
    let mut port = MemPort::new(alloc, Vec::new(alloc), room, fine, Vec::new(alloc))?;
    let mut text = Vec::new(alloc);
    let Some(label) = Name::new(b"c1") else {
        return Ok((Ok(()), text));
    };
    let answer = put_release(alloc, &mut port, &label, true);
    for byte in port.tape() {
        if let TapeByte::Sent(byte) = byte {
            text.push(*byte)?;
        }
    }
    Ok((answer, text))
}

#[test]
fn a_release_is_one_line(rt: HostRuntime) -> Result<(), Fail> {
    let cases: [(u64, Result<(), PutError>, &[u8]); 3] = [
        (13, Ok(()), b"release c1 1\n"),
        (12, Err(PutError::WriteFault), b"release c1 1"),
        (0, Err(PutError::WriteFault), b""),
    ];
    for (room, answer, text) in cases.iter() {
        let (found, told) = released(rt.alloc(), *room)?;
        assert!(rt; found == *answer && told.as_slice() == *text, "room {room}");
    }
    Ok(())
}
