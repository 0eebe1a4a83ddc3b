//! The calls of the program.

use crate::always::Always;
use port_io::MemPort;
use run_words::{Command, command_of};
use std::alloc::Global;
use std::sync::Wait;
use std::thread::Threads;
use swiper_run::{Gate, Means, Status, run, run_with};

/// Runs the program on these words over a port, with a gate for its workers.
pub(crate) fn ask<R: Threads + Wait + Sync, G: Gate + Sync>(
    rt: &R,
    alloc: Global,
    words: &[&str],
    port: &mut MemPort,
    gate: &G,
) -> Status {
    run(rt, alloc, words, port, gate)
}

/// Decodes as these words ask, but with guesses that are always a flip.
pub(crate) fn ask_flipping<R: Threads + Wait + Sync, G: Gate + Sync>(
    rt: &R,
    alloc: Global,
    words: &[&str],
    port: &mut MemPort,
    gate: &G,
) -> Status {
    match command_of(alloc, words) {
        Ok(Command::Decode(options)) => {
            let means = Means { rt, alloc, gate };
            run_with(&means, port, options, &Always)
        }
        _ => Status::Usage,
    }
}
