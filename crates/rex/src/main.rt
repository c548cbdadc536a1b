//! The program `rex`.
#![tactic(auto)]

use rex_cli::rex_main;
use rex_traits::{OpenGate, StdSink, StdSource};
use std::env::{self, Env};
use std::io;
use std::process::ExitCode;

/// The status for want of memory.
const OUT_OF_MEMORY: u8 = 6;

// The words of the command line, or `None` for want of memory. Where one is no text, they are no command line: no words
// at all.
fn words_of<R: Env + AllocGlobal>(rt: &R) -> Option<Vec<String>> {
    match env::args(rt) {
        Ok(words) => words.collect(rt.alloc()).ok(),
        Err(error) if error.kind() == io::ErrorKind::OutOfMemory => None,
        Err(_) => Some(Vec::new(rt.alloc())),
    }
}

fn main(rt: HostRuntime) -> ExitCode {
    let Some(words) = words_of(&rt) else {
        return ExitCode::from(OUT_OF_MEMORY);
    };
    let mut source = StdSource::new(rt.reader());
    let mut sink = StdSink::new(io::writer(&rt));
    let status = rex_main(&rt, rt.alloc(), &words, &mut source, &mut sink, &OpenGate);
    ExitCode::from(status)
}
