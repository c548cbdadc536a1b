//! What the words of a command line ask for.

ghost use Rattle.std.specs.Prelude.{◌≡◌, IfOk, IfSome, map, string_bytes, option_map};
ghost use Rattle.clap.specs.Words.{first_of, found_of, rows_of};
ghost use Rattle.rex_command.specs.Reading as numbers;
ghost use Rattle.rex_schedule.specs.Counts as counts;
ghost use Rattle.rexnode_command.specs.Laws.{Fits};
ghost use Rattle.rexnode_command.specs.Command.{text_at};
ghost use Rattle.rexnode_command.specs.Command as parts;
ghost use Rattle.rexnode_command.specs.Reading as spec;

use crate::application::node_command;
use crate::command::Command;
use clap::ArgMatches;
use clap::error::ErrorKind;
use rex_ballot::NODES;
use rex_command::number_in;
use rex_identity::CLUSTER_BYTES;
use std::alloc::{AllocError, Global};

// The number of a node, or how many there are.
fn node_in(matches: &ArgMatches<'_>, id: &str) -> Option<u8>
    ensures { result ≡ numbers.number_in 1 NODES id.now (rows_of (found_of matches.now)) }
{
    let number = number_in(matches, id, 1, NODES as u32)?;
    Some(number as u8)
}

fn text_in<'a>(matches: &ArgMatches<'a>, id: &str) -> Option<&'a str>
    ensures { text_at result ≡ first_of id.now (rows_of (found_of matches.now)) }
{
    matches.get_str(id)
}

// Whether a cluster can have so many nodes.
fn is_node_count(nodes: u8) -> bool
    ensures { result ≡ counts.is_node_count nodes }
{
    nodes % 2 == 1 && nodes <= NODES
}

fn fitting(command: Command<'_>) -> Option<Command<'_>>
    ensures { result ≡ parts.fitting command.entry }
{
    let is_member = command.id <= command.nodes && is_node_count(command.nodes);
    if is_member && command.cluster.len() <= CLUSTER_BYTES {
        Some(command)
    } else {
        None
    }
}

// What is asked for by these parts, if all are there and fit.
fn command_with<'a>(
    id: Option<u8>,
    nodes: Option<u8>,
    service: Option<&'a str>,
    journal: Option<&'a str>,
    seed: Option<u32>,
    cluster: Option<&'a str>,
) -> Option<Command<'a>>
    ensures { result ≡ spec.command_with id nodes (text_at service.entry) (text_at journal.entry) seed (text_at cluster.entry) }
{
    fitting(Command {
        id: id?,
        nodes: nodes?,
        service: service?,
        journal: journal?,
        seed: seed?,
        cluster: cluster?,
    })
}

fn command_in<'a>(matches: &ArgMatches<'a>) -> Option<Command<'a>>
    ensures { result ≡ spec.command_in (rows_of (found_of matches.now)) }
{
    command_with(
        node_in(matches, "id"),
        node_in(matches, "nodes"),
        text_in(matches, "service"),
        text_in(matches, "journal"),
        number_in(matches, "seed", 0, 4_294_967_295),
        text_in(matches, "cluster"),
    )
}

/// What the words ask for, and `None` where they are no command line. The words begin with the program's name.
///
/// # Errors
/// Want of memory.
pub fn command_of<'a>(alloc: Global, words: &'a [String]) -> Result<Option<Command<'a>>, AllocError>
    ensures command { IfOk result (λ command. command ≡ spec.command_of (map string_bytes words.now)) }
    ensures fits { IfOk result (λ command. IfSome command Fits) }
{
    let command = node_command(alloc)?;
    match command.try_get_matches_from(words) {
        Ok(matches) => Ok(command_in(&matches)),
        Err(error) => match error.kind() {
            ErrorKind::OutOfMemory => Err(AllocError),
            _ => Ok(None),
        },
    }
}
