//! What the words of a command line ask for.

ghost use Rattle.std.specs.Prelude.{◌≡◌, ◌≤◌, IfOk, IfSome, map, string_bytes, option_and_then, codes};
ghost use Rattle.clap.specs.Words.{found_of, rows_of, subcommand_rows_of};
ghost use Rattle.rex_command.specs.Laws.{Fits};
ghost use Rattle.rex_command.specs.Reading as spec;

use crate::application::rex_command;
use crate::commands::Command;
use clap::ArgMatches;
use clap::error::ErrorKind;
use rex_threads::WORKERS;
use std::alloc::{AllocError, Global};

// The number, if it is from `low` to `high`.
fn within(number: Option<u32>, low: u32, high: u32) -> Option<u32>
    ensures number { result ≡ spec.within low high number }
    ensures most { IfSome result (λ n. n ≤ high) }
{
    let number = number?;
    if low <= number && number <= high {
        Some(number)
    } else {
        None
    }
}

// The number of workers, if there may be so many.
fn few_workers(workers: Option<u8>) -> Option<u8>
    ensures { result ≡ spec.within 1 WORKERS workers }
{
    let workers = workers?;
    if 1 <= workers && workers <= WORKERS {
        Some(workers)
    } else {
        None
    }
}

/// The number of an argument, if it is from `low` to `high`.
// That `clap`'s reader has let no other number through is not in its contract, so it is looked at here.
pub fn number_in(matches: &ArgMatches<'_>, id: &str, low: u32, high: u32) -> Option<u32>
    ensures number { result ≡ spec.number_in low high id.now (rows_of (found_of matches.now)) }
    ensures most { IfSome result (λ n. n ≤ high) }
{
    within(matches.get_one::<u32>(id), low, high)
}

fn seed_in(matches: &ArgMatches<'_>) -> Option<u32>
    ensures { result ≡ spec.seed_in (rows_of (found_of matches.now)) }
{
    number_in(matches, "seed", 0, 4_294_967_295)
}

fn size_in(matches: &ArgMatches<'_>) -> Option<u32>
    ensures { result ≡ spec.size_in (rows_of (found_of matches.now)) }
{
    number_in(matches, "size", 1, 1000)
}

fn workers_in(matches: &ArgMatches<'_>) -> Option<u8>
    ensures { result ≡ spec.workers_in (rows_of (found_of matches.now)) }
{
    few_workers(matches.get_one::<u8>("workers"))
}

// Whether an option that takes no value was given.
fn is_given(matches: &ArgMatches<'_>, id: &str) -> bool
    ensures { result ≡ spec.is_given id.now (rows_of (found_of matches.now)) }
{
    matches.get_one::<bool>(id).unwrap_or(false)
}

fn run_of(workers: Option<u8>, journal: bool) -> Option<Command>
    ensures { result ≡ spec.run_of workers journal }
{
    Some(Command::Run {
        workers: workers?,
        journal,
    })
}

fn generate_of(seed: Option<u32>, size: Option<u32>) -> Option<Command>
    ensures { result ≡ spec.generate_of seed size }
{
    Some(Command::Generate {
        seed: seed?,
        size: size?,
    })
}

fn soak_of(seed: Option<u32>, size: Option<u32>, workers: Option<u8>) -> Option<Command>
    ensures { result ≡ spec.soak_of seed size workers }
{
    Some(Command::Soak {
        seed: seed?,
        size: size?,
        workers: workers?,
    })
}

// The command of this name with the numbers of these matches.
fn command_named(name: &str, matches: &ArgMatches<'_>) -> Option<Command>
    ensures { result ≡ spec.command_named name.now (rows_of (found_of matches.now)) }
{
    if name == "run" {
        run_of(workers_in(matches), is_given(matches, "journal"))
    } else if name == "trace" {
        Some(Command::Trace)
    } else if name == "check" {
        Some(Command::Check)
    } else if name == "gen" {
        generate_of(seed_in(matches), size_in(matches))
    } else if name == "soak" {
        soak_of(seed_in(matches), size_in(matches), workers_in(matches))
    } else {
        None
    }
}

fn command_in(matches: &ArgMatches<'_>) -> Option<Command>
    ensures { result ≡ option_and_then (λ p. spec.command_named p.0 p.1) (subcommand_rows_of matches.now) }
{
    let (name, matches) = matches.subcommand()?;
    command_named(name, matches)
}

/// What the words ask for, and `None` where they are no command line. The words begin with the program's name.
///
/// # Errors
/// Want of memory.
pub fn command_of(alloc: Global, words: &[String]) -> Result<Option<Command>, AllocError>
    ensures command { IfOk result (λ command. command ≡ spec.command_of (map string_bytes words.now)) }
    ensures fits { IfOk result (λ command. IfSome command Fits) }
{
    let command = rex_command(alloc)?;
    match command.try_get_matches_from(words) {
        Ok(matches) => Ok(command_in(&matches)),
        Err(error) => match error.kind() {
            ErrorKind::OutOfMemory => Err(AllocError),
            _ => Ok(None),
        },
    }
}
