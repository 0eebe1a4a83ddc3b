//! Does what the words ask for with the input on standard input, and puts what it says of it on
//! standard output.
#![tactic(auto)]

use port_io::StdPort;
use std::alloc::{AllocError, Global};
use std::env;
use std::io::ErrorKind;
use std::process::ExitCode;
use std::rt::Runtime;
use std::sync::Wait;
use std::thread::Threads;
use swiper_run::{OpenGate, Status, run};

fn main(rt: HostRuntime) -> ExitCode {
    let alloc = rt.alloc();
    let status = match start(&rt, alloc) {
        Ok(status) => status,
        Err(_) => Status::Memory,
    };
    ExitCode::from(status.code())
}

/// Runs over the standard streams, with the words after the program's name.
fn start<R: Runtime + Send + Threads + Wait + Sync>(
    rt: &R,
    alloc: Global,
) -> Result<Status, AllocError> {
    let given: Vec<String<R::A>> = match env::args(rt) {
        Ok(args) => args.collect(alloc)?,
        Err(error) if error.kind() == ErrorKind::OutOfMemory => return Err(AllocError),
        // words that are no text are none of the program's
        Err(_) => Vec::new(alloc),
    };
    let words: Vec<&str> = given
        .iter()
        .skip(1)
        .map(|word| word.as_str())
        .collect(alloc)?;
    let mut port = StdPort::new(alloc, rt.clone()?)?;
    Ok(run(rt, alloc, &words, &mut port, &OpenGate))
}
