//! What generated scenarios are answered.

ghost use Rattle.std.specs.Prelude.{◌≡◌, IfOk};
ghost use Rattle.rex_lockset.specs.Refusal.{refusal_of as refusal};
ghost use Rattle.rex_schedule.specs.Fits.{ScenarioFits};
ghost use Rattle.rex_scenario.specs.Reading.{answer_of as scenario_answer};
ghost use Rattle.rex_gen.specs.Scenario.{scenario_text};
ghost use Rattle.rex_command.specs.Laws.{IsScenario};
ghost use Rattle.rex_cli.specs.Due as due;

use rex_answer::{Answer, refused, scenario_code, unchecked};
use rex_gen::scenario;
use rex_replay::Replayer;
use rex_report::{Piece, push_pieces, push_variables};
use rex_scenario::{SCENARIO_BYTES, Scenario, ScenarioCode, ScenarioError, read_scenario};
use rex_soak::generated_scenarios_are_good;
use rex_syntax::checked::Checked;
use rex_syntax::service::{Declarations, Service};
use rex_world::{Summary, summarize};
use std::alloc::{AllocError, Global};

/// What `gen` answers.
pub(crate) fn generate(alloc: Global, seed: u32, size: u32) -> Result<Answer, AllocError>
    ensures { IfOk result (λ a. a ≡ due.due_generated seed size) }
{
    let text = scenario(alloc, seed, size)?.into_bytes();
    Ok(Answer { status: 0, text })
}

// The line that sums up the run of a generated scenario.
fn summary_line(
    alloc: Global,
    seed: u32,
    size: u32,
    service: &Declarations,
    summary: &Summary,
) -> Result<Vec<u8>, AllocError>
    ensures { IfOk result (λ text. text.items ≡ due.summary_line seed size service.now summary.now) }
{
    let mut text = Vec::from_slice(alloc, b"soak")?;
    push_pieces(
        &mut text,
        &[
            Piece::Number(seed as u64),
            Piece::Number(size as u64),
            Piece::Word(b"lines"),
            Piece::Number(summary.lines),
            Piece::Word(b"messages"),
            Piece::Number(summary.messages),
            Piece::Word(b"known"),
            Piece::Number(summary.known),
            Piece::Word(b"released"),
            Piece::Number(summary.released),
        ],
    )?;
    push_variables(
        &mut text,
        service.variables.as_slice(),
        summary.variables.as_slice(),
    )?;
    text.push(b'\n')?;
    Ok(text)
}

// What a generated scenario is answered.
fn sum_up<R: Replayer>(
    alloc: Global,
    replayer: &mut R,
    seed: u32,
    size: u32,
    scenario: &Scenario,
    service: Service,
) -> Result<Answer, AllocError>
    requires fits { ScenarioFits service scenario.now }
    ensures due { IfOk result (λ a. a ≡ due.due_summary seed size scenario.now service (refusal service)) }
{
    if let Some(answer) = unchecked(alloc, service.declarations())? {
        return Ok(answer);
    }
    let service = Checked::of(service);
    let _service = service.declarations();
    let summary = summarize(alloc, &service, replayer, scenario)?;
    let text = summary_line(alloc, seed, size, service.declarations(), &summary)?;
    Ok(Answer { status: 0, text })
}

// What a text is answered that was made up.
fn soak_text<R: Replayer>(
    alloc: Global,
    replayer: &mut R,
    seed: u32,
    size: u32,
    text: &[u8],
) -> Result<Answer, AllocError>
    ensures due { IfOk result (λ a. a ≡ due.due_soak seed size (scenario_answer text.now)) }
{
    if text.len() > SCENARIO_BYTES {
        return refused(alloc, 0, scenario_code(ScenarioCode::TooLong));
    }
    match read_scenario(alloc, text) {
        Ok((scenario, service)) => sum_up(alloc, replayer, seed, size, &scenario, service),
        Err(ScenarioError::Refused { line, code }) => refused(alloc, line, scenario_code(code)),
        Err(ScenarioError::OutOfMemory) => Err(AllocError),
    }
}

/// What `soak` answers: the generated scenario is read as `run` reads its input, and is never refused.
pub(crate) fn soak<R: Replayer>(
    alloc: Global,
    replayer: &mut R,
    seed: u32,
    size: u32,
) -> Result<Answer, AllocError>
    requires fits { IsScenario seed size }
    ensures due { IfOk result (λ a. a ≡ due.due_soak seed size (scenario_answer (scenario_text seed size))) }
    ensures good { IfOk result (λ a. a.status ≡ 0) }
{
    generated_scenarios_are_good();
    let text = scenario(alloc, seed, size)?;
    soak_text(alloc, replayer, seed, size, text.as_bytes())
}
