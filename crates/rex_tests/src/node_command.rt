//! Command lines of `rexnode` that are read, and words that are no command line.

use rexnode_command::command_of;
use std::alloc::{AllocGlobal, Global};
use std::test::*;

/// What a line asks for: the node's number, how many nodes there are, the service, the journal, the seed and the cluster's name.
type Parts = (u8, u8, &'static str, &'static str, u32, &'static str);

fn words_of(alloc: Global, line: &str) -> Result<Vec<String>, Fail> {
    let mut words = Vec::new(alloc);
    for word in line.split(' ') {
        words.push(String::from_str(alloc, word)?)?;
    }
    Ok(words)
}

// Whether the words of a line, where blanks stand between the words, ask for these parts, or for nothing.
fn asks_for(alloc: Global, line: &str, parts: Option<Parts>) -> Result<bool, Fail> {
    let words = words_of(alloc, line)?;
    match command_of(alloc, &words) {
        Err(_) => Err("no memory")?,
        Ok(None) => Ok(parts.is_none()),
        Ok(Some(command)) => match parts {
            None => Ok(false),
            Some((id, nodes, service, journal, seed, cluster)) => {
                let is_numbered = command.id == id
                    && command.nodes == nodes
                    && command.seed == seed;
                let is_named = command.service == service && command.journal == journal;
                Ok(is_numbered && is_named && command.cluster == cluster)
            }
        },
    }
}

const TAKEN: [(&str, Parts); 8] = [
    ("rexnode 1 1 s j", (1, 1, "s", "j", 0, "")),
    ("rexnode 2 3 a/s b/j", (2, 3, "a/s", "b/j", 0, "")),
    ("rexnode +9 09 s j", (9, 9, "s", "j", 0, "")),
    (
        "rexnode 5 7 s j --seed 4294967295",
        (5, 7, "s", "j", 4_294_967_295, ""),
    ),
    ("rexnode 1 5 s j --cluster lab", (1, 5, "s", "j", 0, "lab")),
    (
        "rexnode --cluster=lab 1 3 s --seed=7 j",
        (1, 3, "s", "j", 7, "lab"),
    ),
    ("rexnode 1 3 s j --cluster ", (1, 3, "s", "j", 0, "")),
    ("rexnode 1 3 -- -s --seed", (1, 3, "-s", "--seed", 0, "")),
];

const FAULTY: [&str; 18] = [
    "rexnode",
    "rexnode 1 3 s",
    "rexnode 1 3 s j x",
    "rexnode 0 3 s j",
    "rexnode 4 3 s j",
    "rexnode 1 0 s j",
    "rexnode 1 2 s j",
    "rexnode 1 11 s j",
    "rexnode -1 3 s j",
    "rexnode one 3 s j",
    "rexnode 257 3 s j",
    "rexnode 1 3 s j --seed",
    "rexnode 1 3 s j --seed -1",
    "rexnode 1 3 s j --seed 4294967296",
    "rexnode 1 3 s j --seed 1 --seed 1",
    "rexnode 1 3 s j --name lab",
    "rexnode 1 3 s j --help",
    "rexnode --version",
];

#[test]
fn lines_of_a_node_are_read(rt: HostRuntime) -> Result<(), Fail> {
    for (line, parts) in TAKEN {
        assert!(rt; asks_for(rt.alloc(), line, Some(parts))?);
    }
    for line in FAULTY {
        assert!(rt; asks_for(rt.alloc(), line, None)?);
    }
    Ok(())
}
