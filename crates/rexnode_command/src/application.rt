//! The program's `clap` command.

ghost use Rattle.std.specs.Prelude.{◌≡◌, IfOk, codes, false};
ghost use Rattle.clap.specs.Words.{app_of, rule_of};
ghost use Rattle.clap.specs.declared.builder.Command.TheViews.{out-Command};
ghost use Rattle.rex_command.specs.Application.{number_rule};
ghost use Rattle.rexnode_command.specs.Application as spec;

use clap::builder::ValueParser;
use clap::{Arg, ArgAction, Command};
use rex_ballot::NODES;
use std::alloc::{AllocError, Global};

// A required number from 1 to `NODES`, by its place.
fn node_argument<'a>(alloc: Global, id: &'a str) -> Arg<'a>
    ensures rule { rule_of result ≡ number_rule id.now 1 NODES }
    ensures local { result.global ≡ false }
{
    Arg::new(alloc, id)
        .required(true)
        .action(ArgAction::Set)
        .value_parser(ValueParser::unsigned(1, NODES as u64))
}

// A required text, by its place.
fn text_argument<'a>(alloc: Global, id: &'a str) -> Arg<'a>
    ensures rule { rule_of result ≡ spec.text_rule id.now }
    ensures local { result.global ≡ false }
{
    Arg::new(alloc, id).required(true).action(ArgAction::Set)
}

// `--seed N`.
fn seed_option<'a>(alloc: Global) -> Arg<'a>
    ensures rule { rule_of result ≡ spec.seed_rule }
    ensures local { result.global ≡ false }
{
    Arg::new(alloc, "seed")
        .long("seed")
        .action(ArgAction::Set)
        .value_parser(ValueParser::unsigned(0, 4_294_967_295))
        .default_value("0")
}

// `--cluster NAME`.
fn cluster_option<'a>(alloc: Global) -> Arg<'a>
    ensures rule { rule_of result ≡ spec.cluster_rule }
    ensures local { result.global ≡ false }
{
    Arg::new(alloc, "cluster")
        .long("cluster")
        .action(ArgAction::Set)
        .default_value("")
}

// The command without its arguments.
fn bare_command<'a>(alloc: Global) -> Command<'a>
    ensures app { app_of result ≡ spec.bare_app }
    ensures local { (out-Command result).has_globals ≡ false }
{
    Command::new(alloc, "rexnode")
        .disable_help_flag(true)
        .disable_version_flag(true)
}

// The command with its four places.
fn placed_command<'a>(alloc: Global) -> Result<Command<'a>, AllocError>
    ensures app { IfOk result (λ c. app_of c ≡ spec.placed_app) }
    ensures local { IfOk result (λ c. (out-Command c).has_globals ≡ false) }
{
    let command = bare_command(alloc)
        .arg(node_argument(alloc, "id"))?
        .arg(node_argument(alloc, "nodes"))?
        .arg(text_argument(alloc, "service"))?
        .arg(text_argument(alloc, "journal"))?;
    Ok(command)
}

// The program's command with all its arguments.
pub(crate) fn node_command<'a>(alloc: Global) -> Result<Command<'a>, AllocError>
    ensures { IfOk result (λ c. app_of c ≡ spec.node_app) }
{
    let command = placed_command(alloc)?
        .arg(seed_option(alloc))?
        .arg(cluster_option(alloc))?;
    Ok(command)
}
