//! The program `rexnode`: a node of a cluster as a process. It reads frames from its standard input, answers them on its standard output,
//! and keeps its records in a file. With the first word `--trace` it writes the trace of what they say is known.
#![tactic(auto)]

ghost use Rattle.std.specs.Prelude.{◌<◌};
ghost use Rattle.rexnode_command.specs.Laws.{Fits};

use rex_answer::Answer;
use rex_file::{FileFault, open_path};
use rex_traits::{StdSink, StdSource};
use rexnode_cli::{
    DISK_FAILED, JOURNAL_LOCKED, Loaded, NotLoaded, OUT_OF_MEMORY, READ_FAILED, load_service,
    node_main, trace_main, usage,
};
use rexnode_command::{Command, command_of};
use std::env::{self, Env};
use std::fs::File;
use std::io;
use std::process::ExitCode;

// The words of the command line, or `None` for want of memory. Where one is no text, they are no command line: no words
// at all.
fn words_of<R: Env + AllocGlobal>(rt: &R) -> Option<Vec<String>> {
    match env::args(rt) {
        Ok(words) => words.collect(rt.alloc()).ok(),
        Err(error) if error.kind() == io::ErrorKind::OutOfMemory => None,
        Err(_) => Some(Vec::new(rt.alloc())),
    }
}

// Writes an answer, and gives its status.
fn give(rt: &HostRuntime, answer: &Answer) -> u8
    requires { answer.now.status < 4 }
{
    let mut sink = StdSink::new(io::writer(rt));
    answer.give(&mut sink)
}

// The status where a file isn't opened as a journal.
fn file_status(fault: FileFault) -> u8 {
    match fault {
        FileFault::Locked => JOURNAL_LOCKED,
        FileFault::Failed(_) => DISK_FAILED,
        FileFault::OutOfMemory => OUT_OF_MEMORY,
    }
}

// The service that a command names, or the status with which the program ends.
fn load(rt: &HostRuntime, command: &Command<'_>) -> Result<Loaded, u8> {
    let text = match File::open(rt, command.service) {
        Ok(text) => text,
        Err(error) if error.kind() == io::ErrorKind::OutOfMemory => return Err(OUT_OF_MEMORY),
        Err(_) => return Err(READ_FAILED),
    };
    match load_service(rt.alloc(), &mut StdSource::new(text)) {
        Ok(loaded) => Ok(loaded),
        Err(NotLoaded::Refused(answer)) => Err(give(rt, &answer)),
        Err(NotLoaded::Unread) => Err(READ_FAILED),
        Err(NotLoaded::OutOfMemory) => Err(OUT_OF_MEMORY),
    }
}

// Runs the node that a command asks for. The journal is opened once there is a service to run.
fn run(rt: &HostRuntime, command: &Command<'_>) -> u8
    requires { Fits command.now }
{
    let loaded = match load(rt, command) {
        Ok(loaded) => loaded,
        Err(status) => return status,
    };
    let disk = match open_path(rt, command.journal) {
        Ok(disk) => disk,
        Err(fault) => return file_status(fault),
    };
    let mut source = StdSource::new(rt.reader());
    let mut sink = StdSink::new(io::writer(rt));
    node_main(rt.alloc(), command, &loaded, disk, &mut source, &mut sink).status
}

// Writes the trace of the journal that a command names.
fn trace(rt: &HostRuntime, command: &Command<'_>) -> u8
    requires { Fits command.now }
{
    let loaded = match load(rt, command) {
        Ok(loaded) => loaded,
        Err(status) => return status,
    };
    // Opening a journal makes one where there is none, so it is looked for first.
    if let Err(error) = File::open(rt, command.journal) {
        return match error.kind() {
            io::ErrorKind::OutOfMemory => OUT_OF_MEMORY,
            _ => DISK_FAILED,
        };
    }
    let disk = match open_path(rt, command.journal) {
        Ok(disk) => disk,
        Err(fault) => return file_status(fault),
    };
    let mut sink = StdSink::new(io::writer(rt));
    trace_main(rt.alloc(), command, &loaded, disk, &mut sink).status
}

// The words from `--trace` on, where it is the first one behind the program's name.
fn trace_words(words: &[String]) -> Option<&[String]> {
    match words.split_first() {
        Some((_, rest)) => match rest.first() {
            Some(word) if word.as_str() == "--trace" => Some(rest),
            _ => None,
        },
        None => None,
    }
}

// What the words of a command ask for, of which the first one isn't looked at.
fn run_words(rt: &HostRuntime, words: &[String], traces: bool) -> u8 {
    match command_of(rt.alloc(), words) {
        Ok(Some(command)) => {
            if traces {
                trace(rt, &command)
            } else {
                run(rt, &command)
            }
        }
        Ok(None) => match usage(rt.alloc()) {
            Ok(answer) => give(rt, &answer),
            Err(_) => OUT_OF_MEMORY,
        },
        Err(_) => OUT_OF_MEMORY,
    }
}

fn main(rt: HostRuntime) -> ExitCode {
    let Some(words) = words_of(&rt) else {
        return ExitCode::from(OUT_OF_MEMORY);
    };
    let status = match trace_words(&words) {
        Some(words) => run_words(&rt, words, true),
        None => run_words(&rt, &words, false),
    };
    ExitCode::from(status)
}
