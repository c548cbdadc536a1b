//! A whole scenario from its text.

ghost use Rattle.std.specs.Prelude.{◌≡◌, ◌↔◌, ◌+◌, ◌<◌, ◌^◌, [], false, None, Ok, IfErr, IfOk, OnOk, length};
ghost use Rattle.rex_text.specs.Text.{lines_of, numbered};
ghost use Rattle.rex_scenario.specs.Answers.{Refuses, Says};
ghost use Rattle.rex_parse.specs.After.{service_of};
ghost use Rattle.rex_scenario.specs.Beyond.{IsPlain, beyond_words};
ghost use Rattle.rex_schedule.specs.Fits.{ScenarioFits};
ghost use Rattle.rex_schedule.specs.Typed.{ScenarioIsTyped};
ghost use Rattle.rex_scenario.specs.Keeps.{SectionsFit};
ghost use Rattle.rex_scenario.specs.Reading.{answer_from, answer_of, answer_to, end_of, start, unscheduled_answer_of};

use crate::reader::Reader;
use crate::scenario::{LineFault, Scenario, ScenarioCode, ScenarioError};
use rex_syntax::service::Service;
use rex_text::raw_lines;
use std::alloc::Global;

/// The most bytes of a scenario's text.
pub const SCENARIO_BYTES: usize = 4_194_304;

/// The scenario that a text describes, and its service, or the first bad line with the least code that fits it.
pub fn read_scenario(alloc: Global, bytes: &[u8]) -> Result<(Scenario, Service), ScenarioError>
    requires { length bytes.now + 1 < 2 ^ 32 }
    ensures says { IfOk result (λ read. Says (answer_of bytes.now) read.0 read.1) }
    ensures fits { IfOk result (λ read. ScenarioFits read.1 read.0) }
    ensures typed { IfOk result (λ read. ScenarioIsTyped read.1 read.0) }
    ensures beyond { IfOk result (λ read. read.0.beyond ≡ beyond_words bytes.now) }
    ensures plain { IfOk result (λ read. (read.0.beyond ≡ None) ↔ IsPlain read.1) }
    ensures refuses { IfErr result (Refuses (answer_of bytes.now)) }
{
    read(alloc, bytes, true)
}

/// The same of a text whose schedule may have no lines: each is refused as a line of no form.
pub fn read_unscheduled(alloc: Global, bytes: &[u8]) -> Result<(Scenario, Service), ScenarioError>
    requires { length bytes.now + 1 < 2 ^ 32 }
    ensures says { IfOk result (λ read. Says (unscheduled_answer_of bytes.now) read.0 read.1) }
    ensures fits { IfOk result (λ read. ScenarioFits read.1 read.0) }
    ensures typed { IfOk result (λ read. ScenarioIsTyped read.1 read.0) }
    ensures empty { IfOk result (λ read. read.0.schedule ≡ []) }
    ensures beyond { IfOk result (λ read. read.0.beyond ≡ beyond_words bytes.now) }
    ensures plain { IfOk result (λ read. (read.0.beyond ≡ None) ↔ IsPlain read.1) }
    ensures refuses { IfErr result (Refuses (unscheduled_answer_of bytes.now)) }
{
    read(alloc, bytes, false)
}

// Reads a text of no more bytes than may be, line by line. Its schedule may have lines, or may not.
#[tactic(auto, unfolding(crate::specs::Reading::answer_from))]
fn read_text(
    alloc: Global,
    reader: &mut Reader,
    bytes: &[u8],
    _scheduled: bool,
) -> Result<(), ScenarioError>
    requires start { reader.old ≡ start _scheduled }
    requires short { length bytes.now + 1 < 2 ^ 32 }
    ensures read { OnOk result (answer_from (start _scheduled) 1 (numbered 1 (lines_of bytes.now)) ≡ Ok reader.new) }
    ensures ended { OnOk result (end_of reader.new reader.new.stage ≡ None) }
    ensures mode { OnOk result (reader.new.scheduled ≡ _scheduled) }
    ensures fit { OnOk result (SectionsFit reader.new) }
    ensures beyond { OnOk result (reader.new.beyond ≡ beyond_words bytes.now) }
    ensures plain { OnOk result ((reader.new.beyond ≡ None) ↔ IsPlain (service_of reader.new.service)) }
    ensures refused { IfErr result (Refuses (answer_from (start _scheduled) 1 (numbered 1 (lines_of bytes.now)))) }
{
    let mut words = Vec::new(alloc);
    let mut lines = raw_lines(bytes);
    let mut next = 1;
    while let Some((number, line)) = lines.next() {
        match reader.line(&mut words, number, line) {
            Ok(()) => next = number + 1,
            Err(LineFault::Refused(code)) => {
                return Err(ScenarioError::Refused { line: number, code });
            }
            Err(LineFault::OutOfMemory) => return Err(ScenarioError::OutOfMemory),
        }
    }
    match reader.end_code() {
        Some(code) => Err(ScenarioError::Refused { line: next, code }),
        None => Ok(()),
    }
}

// The scenario that a text describes, whose schedule may have lines, or may not.
fn read(alloc: Global, bytes: &[u8], scheduled: bool) -> Result<(Scenario, Service), ScenarioError>
    requires { length bytes.now + 1 < 2 ^ 32 }
    ensures says { IfOk result (λ read. Says (answer_to scheduled bytes.now) read.0 read.1) }
    ensures fits { IfOk result (λ read. ScenarioFits read.1 read.0) }
    ensures typed { IfOk result (λ read. ScenarioIsTyped read.1 read.0) }
    ensures empty { scheduled ≡ false → IfOk result (λ read. read.0.schedule ≡ []) }
    ensures beyond { IfOk result (λ read. read.0.beyond ≡ beyond_words bytes.now) }
    ensures plain { IfOk result (λ read. (read.0.beyond ≡ None) ↔ IsPlain read.1) }
    ensures refuses { IfErr result (Refuses (answer_to scheduled bytes.now)) }
{
    if bytes.len() > SCENARIO_BYTES {
        return Err(ScenarioError::Refused {
            line: 0,
            code: ScenarioCode::TooLong,
        });
    }
    let mut reader = Reader::new(alloc, scheduled);
    read_text(alloc, &mut reader, bytes, scheduled)?;
    Ok(reader.finish())
}

ghost use Rattle.rex_scenario.specs.Law.{EachText, NoLines, ScenariosAreTyped};

/// The answer to a text is its first bad line with the least code that fits it, given what the lines above say, or what
/// its end says.
pub fn first_bad_line()
    ensures { EachText }
{}

/// Where the schedule may have no lines, each line of it with words is refused as one of no form.
pub fn no_schedule_lines()
    ensures { NoLines }
{}

/// Each number of the service and of the requests that a text says is one of 64 bits.
pub fn scenarios_are_typed()
    ensures { ScenariosAreTyped }
{}
