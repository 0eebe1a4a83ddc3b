//! Inputs that the program makes.

use crate::asking::ask;
use crate::case::ROOM;
use port_io::{MemPort, TapeByte};
use std::alloc::{AllocError, Global};
use std::sync::Wait;
use std::thread::Threads;
use swiper_run::OpenGate;

/// What a run on these words without any input puts.
pub(crate) fn made<R: Threads + Wait + Sync>(
    rt: &R,
    alloc: Global,
    words: &str,
) -> Result<Vec<u8>, AllocError> {
    let words: Vec<&str> = words.split_whitespace().collect(alloc)?;
    let mut port = silent_port(alloc)?;
    let _ = ask(rt, alloc, &words, &mut port, &OpenGate);
    let bytes = sent(alloc, port.tape());
    drop(port);
    bytes
}

/// A port without input, on which nothing fails.
fn silent_port(alloc: Global) -> Result<MemPort, AllocError> {
    MemPort::new(
        alloc,
        Vec::new(alloc),
        ROOM,
        Vec::new(alloc),
        Vec::new(alloc),
    )
}

/// The bytes that were put.
fn sent(alloc: Global, tape: &[TapeByte]) -> Result<Vec<u8>, AllocError> {
    let mut bytes = Vec::new(alloc);
    for byte in tape {
        if let TapeByte::Sent(byte) = *byte {
            bytes.push(byte)?;
        }
    }
    Ok(bytes)
}
