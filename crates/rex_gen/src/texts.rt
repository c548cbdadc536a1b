//! The whole text of a scenario, from its first line to the last round of its schedule.

ghost use Rattle.std.specs.Prelude.{◌≡◌, ◌++◌, ◌<◌, IfOk, OnOk};
ghost use Rattle.std.specs.String.{string_bytes};
ghost use Rattle.rex_gen.specs.Scenario as spec;
ghost use Rattle.rex_gen.specs.Scenario.{scenario_text};

use crate::commands::{push_command, push_request};
use crate::rounds::{next_leader, push_round};
use rand_pcg::Lcg64Xsh32;
use std::alloc::{AllocError, Global};

/// A service that counts under a lock.
#[tactic(auto, unfolding(crate::specs::Scenario::service_text))]
fn push_service(out: &mut String) -> Result<(), AllocError>
    ensures { OnOk result (string_bytes out.new ≡ string_bytes out.old ++ spec.service_text) }
{
    out.push_str(
        "lanes 2\nlock L\nvar a on L = 0\nhandler add x\nacquire L\nset a = a + x\nlet r = a\nrelease L\nreply r\n",
    )
}

fn push_head(out: &mut String, seed: u64) -> Result<(), AllocError>
    ensures { OnOk result (string_bytes out.new ≡ string_bytes out.old ++ spec.head seed) }
{
    push_command(out, "%nodes", &[3])?;
    push_command(out, "%seed", &[seed])?;
    out.push_str("%service\n")?;
    push_service(out)?;
    out.push_str("%requests\n")
}

/// Two requests a round.
fn push_requests(out: &mut String, seed: u64, size: u32) -> Result<(), AllocError>
    requires { seed < 4294967296 }
    ensures { OnOk result (string_bytes out.new ≡ string_bytes out.old ++ spec.requests seed size) }
{
    for done in 0..size {
        let round = u64::from(done) + 1;
        push_request(out, 1, round, (seed + round) % 100)?;
        push_request(out, 2, round, (seed + 2 * round) % 100)?;
    }
    Ok(())
}

/// The rounds of the schedule. After each tenth one the next node leads.
fn push_rounds(out: &mut String, seed: u64, size: u32) -> Result<(), AllocError>
    ensures { OnOk result (string_bytes out.new ≡ string_bytes out.old ++ spec.rounds seed size) }
{
    let mut leader = 1;
    let mut dice = Lcg64Xsh32::new(seed, 1);
    for done in 0..size {
        let round = u64::from(done) + 1;
        push_round(out, round, leader, &mut dice)?;
        leader = next_leader(round, leader);
    }
    Ok(())
}

/// The text of the scenario that a seed and a number of rounds give: three nodes and a counter, whose leader runs two
/// requests a round on two lanes, as random numbers order them (`Lcg64Xsh32`, O'Neill 2014), with repeated requests and
/// messages, checkpoints, restarts and elections. The schedule of 1,000 rounds has
/// 37,603 lines.
///
/// # Errors
/// Want of memory.
pub fn scenario(alloc: Global, seed: u32, size: u32) -> Result<String, AllocError>
    ensures { IfOk result (λ text. string_bytes text ≡ scenario_text seed size) }
{
    let mut out = String::new(alloc);
    let seed = u64::from(seed);
    push_head(&mut out, seed)?;
    push_requests(&mut out, seed, size)?;
    out.push_str("%schedule\nelect 1\nflush\nflush\n")?;
    push_rounds(&mut out, seed, size)?;
    Ok(out)
}
