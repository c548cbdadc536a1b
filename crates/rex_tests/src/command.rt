//! Command lines that are read, and words that are no command line.

use rex_command::{Command, command_of};
use std::alloc::{AllocGlobal, Global};
use std::test::*;

// What the words of a line ask for, where blanks stand between the words.
fn asked(alloc: Global, line: &str) -> Result<Option<Command>, Fail> {
    let mut words = Vec::new(alloc);
    for word in line.split(' ') {
        words.push(String::from_str(alloc, word)?)?;
    }
    Ok(command_of(alloc, &words)?)
}

const RUNS: [(&str, Command); 9] = [
    (
        "rex run",
        Command::Run {
            workers: 1,
            journal: false,
        },
    ),
    (
        "rex run --workers 16",
        Command::Run {
            workers: 16,
            journal: false,
        },
    ),
    (
        "rex run --workers=2",
        Command::Run {
            workers: 2,
            journal: false,
        },
    ),
    (
        "rex run --workers +7",
        Command::Run {
            workers: 7,
            journal: false,
        },
    ),
    (
        "rex run --",
        Command::Run {
            workers: 1,
            journal: false,
        },
    ),
    (
        "rex run --journal",
        Command::Run {
            workers: 1,
            journal: true,
        },
    ),
    (
        "rex run --workers 3 --journal",
        Command::Run {
            workers: 3,
            journal: true,
        },
    ),
    ("rex trace", Command::Trace),
    ("rex check", Command::Check),
];

const SCENARIOS: [(&str, Command); 5] = [
    ("rex gen 7 1", Command::Generate { seed: 7, size: 1 }),
    ("rex gen +7 007", Command::Generate { seed: 7, size: 7 }),
    (
        "rex gen 4294967295 1000",
        Command::Generate {
            seed: 4_294_967_295,
            size: 1000,
        },
    ),
    (
        "rex soak 7 1",
        Command::Soak {
            seed: 7,
            size: 1,
            workers: 1,
        },
    ),
    (
        "rex soak 0 --workers 16 1",
        Command::Soak {
            seed: 0,
            size: 1,
            workers: 16,
        },
    ),
];

const FAULTY: [&str; 22] = [
    "rex",
    "rex fly",
    "rex ru",
    "rex help",
    "rex --help",
    "rex run --help",
    "rex run -h",
    "rex run x",
    "rex trace --workers 2",
    "rex --workers 2 run",
    "rex run --workers",
    "rex run --workers 0",
    "rex run --workers 17",
    "rex run --workers 2 --workers 2",
    "rex gen 7",
    "rex gen 7 1 1",
    "rex gen -1 5",
    "rex gen 7 0",
    "rex gen 7 1001",
    "rex gen 4294967296 1",
    "rex gen 7 1 --workers 2",
    "rex  run",
];

#[test]
fn command_lines_are_read(rt: HostRuntime) -> Result<(), Fail> {
    for (line, command) in RUNS {
        assert_eq!(rt; asked(rt.alloc(), line)?, Some(command));
    }
    for (line, command) in SCENARIOS {
        assert_eq!(rt; asked(rt.alloc(), line)?, Some(command));
    }
    Ok(())
}

#[test]
fn faulty_words_are_no_command_line(rt: HostRuntime) -> Result<(), Fail> {
    for line in FAULTY {
        assert_eq!(rt; asked(rt.alloc(), line)?, None);
    }
    let none = Vec::new(rt.alloc());
    assert_eq!(rt; command_of(rt.alloc(), &none)?, None);
    Ok(())
}
