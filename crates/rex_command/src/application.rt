//! The program's `clap` command.

ghost use Rattle.std.specs.Prelude.{◌≡◌, IfOk, codes, false};
ghost use Rattle.clap.specs.Words.{app_of, rule_of, new_app};
ghost use Rattle.clap.specs.declared.builder.Command.TheViews.{out-Command};
ghost use Rattle.rex_command.specs.Application as spec;

use clap::builder::ValueParser;
use clap::{Arg, ArgAction, Command};
use rex_threads::WORKERS;
use std::alloc::{AllocError, Global};

// A required number, by its place.
fn number_argument<'a>(alloc: Global, id: &'a str, low: u64, high: u64) -> Arg<'a>
    ensures rule { rule_of result ≡ spec.number_rule id.now low high }
    ensures local { result.global ≡ false }
{
    Arg::new(alloc, id)
        .required(true)
        .action(ArgAction::Set)
        .value_parser(ValueParser::unsigned(low, high))
}

// `--workers W`.
fn workers_option<'a>(alloc: Global) -> Arg<'a>
    ensures rule { rule_of result ≡ spec.workers_rule }
    ensures local { result.global ≡ false }
{
    Arg::new(alloc, "workers")
        .long("workers")
        .action(ArgAction::Set)
        .value_parser(ValueParser::unsigned(1, WORKERS as u64))
        .default_value("1")
}

// `--journal`.
fn journal_option<'a>(alloc: Global) -> Arg<'a>
    ensures rule { rule_of result ≡ spec.journal_rule }
    ensures local { result.global ≡ false }
{
    Arg::new(alloc, "journal")
        .long("journal")
        .action(ArgAction::SetTrue)
}

// `run [--workers W] [--journal]`.
fn run_command<'a>(alloc: Global) -> Result<Command<'a>, AllocError>
    ensures app { IfOk result (λ c. app_of c ≡ spec.run_app) }
    ensures local { IfOk result (λ c. (out-Command c).has_globals ≡ false) }
{
    let command = Command::new(alloc, "run")
        .arg(workers_option(alloc))?
        .arg(journal_option(alloc))?;
    Ok(command)
}

// A command of this name with a scenario's seed and size.
fn scenario_command<'a>(alloc: Global, name: &'a str) -> Result<Command<'a>, AllocError>
    ensures app { IfOk result (λ c. app_of c ≡ spec.scenario_app name.now) }
    ensures local { IfOk result (λ c. (out-Command c).has_globals ≡ false) }
{
    let command = Command::new(alloc, name)
        .arg(number_argument(alloc, "seed", 0, 4_294_967_295))?
        .arg(number_argument(alloc, "size", 1, 1000))?;
    Ok(command)
}

// `soak N SIZE [--workers W]`.
fn soak_command<'a>(alloc: Global) -> Result<Command<'a>, AllocError>
    ensures app { IfOk result (λ c. app_of c ≡ spec.soak_app) }
    ensures local { IfOk result (λ c. (out-Command c).has_globals ≡ false) }
{
    let command = scenario_command(alloc, "soak")?.arg(workers_option(alloc))?;
    Ok(command)
}

// The command above the others, which has to be followed by one of them.
fn top_command<'a>(alloc: Global) -> Command<'a>
    ensures app { app_of result ≡ spec.top_app }
    ensures local { (out-Command result).has_globals ≡ false }
{
    Command::new(alloc, "rex")
        .disable_help_flag(true)
        .disable_help_subcommand(true)
        .disable_version_flag(true)
        .subcommand_required(true)
}

// The program's command with all its subcommands.
pub(crate) fn rex_command<'a>(alloc: Global) -> Result<Command<'a>, AllocError>
    ensures { IfOk result (λ c. app_of c ≡ spec.rex_app) }
{
    let run = run_command(alloc)?;
    let generate = scenario_command(alloc, "gen")?;
    let soak = soak_command(alloc)?;
    let trace = Command::new(alloc, "trace");
    let check = Command::new(alloc, "check");
    let command = top_command(alloc)
        .subcommand(run)?
        .subcommand(trace)?
        .subcommand(check)?
        .subcommand(generate)?
        .subcommand(soak)?;
    Ok(command)
}
