//! The texts of codes, and the lines that tell of a refusal.

ghost use Rattle.std.specs.Prelude.{◌≡◌, ◌<◌, Some, map, IfOk, IfSome, length};
ghost use Rattle.rex_syntax.specs.Service.{IsService};
ghost use Rattle.rex_lockset.specs.Refusal.{refusal_of};
ghost use Rattle.rex_report.specs.Pieces.{text_of};
ghost use Rattle.rex_answer.specs.Refusals as spec;

use rex_lockset::{Refused, refusals_are_there};
use rex_parse::ServiceCode;
use rex_report::{Piece, push_pieces};
use rex_scenario::ScenarioCode;
use rex_syntax::flow::CheckCode;
use rex_syntax::service::{Declarations, Handler};
use std::alloc::{AllocError, Global};

/// The code of a line of a service.
pub fn service_code(code: ServiceCode) -> &'static [u8]
    ensures { result.now ≡ spec.service_code code }
{
    match code {
        ServiceCode::BadByte => b"P1",
        ServiceCode::Misplaced => b"P2",
        ServiceCode::BadForm => b"P3",
        ServiceCode::NoName => b"P4",
        ServiceCode::NoNumber => b"P5",
        ServiceCode::BadExpression => b"P6",
        ServiceCode::Undeclared => b"P7",
        ServiceCode::WrongKind => b"P8",
        ServiceCode::Taken => b"P9",
        ServiceCode::TooDeep => b"P10",
        ServiceCode::TooMany => b"P11",
        ServiceCode::LanesFirst => b"P12",
        ServiceCode::ReplyInBlock => b"P13",
        ServiceCode::Unended => b"P14",
    }
}

/// The code of a line of a scenario.
pub fn scenario_code(code: ScenarioCode) -> &'static [u8]
    ensures { result.now ≡ spec.scenario_code code }
{
    match code {
        ScenarioCode::Service(code) => service_code(code),
        ScenarioCode::TooLong => b"S1",
        ScenarioCode::BadByte => b"S2",
        ScenarioCode::OutOfPlace => b"S3",
        ScenarioCode::BadHeading => b"S4",
        ScenarioCode::BadRequest => b"S5",
        ScenarioCode::BadCall => b"S6",
        ScenarioCode::Repeated => b"S7",
        ScenarioCode::BadLine => b"S8",
        ScenarioCode::TooManyLines => b"S9",
        ScenarioCode::NotThere => b"S10",
        ScenarioCode::TooManyRequests => b"S11",
        ScenarioCode::WrongLimits => b"S12",
        ScenarioCode::NoOldForm => b"S13",
    }
}

/// The code of the check.
pub fn check_code(code: CheckCode) -> &'static [u8]
    ensures { result.now ≡ spec.check_code code }
{
    match code {
        CheckCode::UnguardedRead => b"C1",
        CheckCode::UnguardedWrite => b"C2",
        CheckCode::NotHeld => b"C3",
        CheckCode::OutOfOrder => b"C4",
        CheckCode::BranchesDiffer => b"C5",
        CheckCode::LoopDiffers => b"C6",
        CheckCode::HeldAtReply => b"C7",
        CheckCode::ConditionLock => b"C8",
        CheckCode::TooLong => b"C9",
        CheckCode::HeldAtDown => b"C10",
    }
}

/// A line of a word and further words, each after a space.
pub fn line(alloc: Global, first: &[u8], rest: &[Piece<'_>]) -> Result<Vec<u8>, AllocError>
    ensures { IfOk result (λ text. text.items ≡ spec.line_of first.now (map text_of rest.now)) }
{
    let mut text = Vec::from_slice(alloc, first)?;
    push_pieces(&mut text, rest)?;
    text.push(b'\n')?;
    Ok(text)
}

/// The line for a text that is refused at a line with a code.
pub fn text_refusal(alloc: Global, number: u32, code: &'static [u8]) -> Result<Vec<u8>, AllocError>
    ensures { IfOk result (λ text. text.items ≡ spec.text_refusal number code.now) }
{
    line(
        alloc,
        b"refused",
        &[
            Piece::Word(b"line"),
            Piece::Number(number as u64),
            Piece::Word(code),
        ],
    )
}

// The number in the text of a handler's line, or of the handler itself.
fn number_in(handler: &Handler, place: Option<u16>) -> u32
    requires { IfSome place (λ p. p < length handler.now.line_numbers) }
    ensures { result ≡ spec.number_in handler.now place }
{
    match place {
        None => handler.line_number,
        Some(place) => handler.line_numbers.as_slice()[place as usize],
    }
}

/// The line for a service that the check refuses.
pub fn check_refusal(
    alloc: Global,
    service: &Declarations,
    refused: Refused,
) -> Result<Vec<u8>, AllocError>
    requires sound { IsService service.now }
    requires refused { refusal_of service.now ≡ Some refused }
    ensures { IfOk result (λ text. text.items ≡ spec.check_refusal service.now refused) }
{
    refusals_are_there();
    let handler = &service.handlers.as_slice()[refused.handler as usize];
    let number = number_in(handler, refused.line) as u64;
    line(
        alloc,
        b"refused",
        &[
            Piece::Word(b"handler"),
            Piece::Name(handler.name.as_slice()),
            Piece::Word(b"line"),
            Piece::Number(number),
            Piece::Word(check_code(refused.code)),
        ],
    )
}
