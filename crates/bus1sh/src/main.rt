//! The program: the command line, over the standard input and output.
#![tactic(auto)]

use b1_edge::OpenGate;
use b1_io::{StdSink, StdSource};
use b1_shell::top;
use std::process::ExitCode;
use std::{env, io};

// The status for want of memory.
const NO_MEMORY: u8 = 6;

fn main(rt: HostRuntime) -> ExitCode {
    let alloc = rt.alloc();
    let args = match env::args(&rt) {
        Ok(args) => args.skip(1).collect(alloc),
        Err(e) if e.kind() == io::ErrorKind::OutOfMemory => return ExitCode::from(NO_MEMORY),
        // A word that is not text is not a word that is known.
        Err(_) => Ok(Vec::new(alloc)),
    };
    let Ok(words) = args else {
        return ExitCode::from(NO_MEMORY);
    };
    let mut source = StdSource::make(&rt);
    let mut sink = StdSink::make(rt);
    ExitCode::from(top(&rt, alloc, &words, &mut source, &mut sink, &OpenGate))
}
