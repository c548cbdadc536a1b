//! A whole text.

ghost use Rattle.std.specs.Prelude.{◌≡◌, ◌+◌, ◌<◌, ◌^◌, length, None, Ok, IfErr, IfOk, OnOk};
ghost use Rattle.rex_syntax.specs.Typed.{ServiceIsTyped};
ghost use Rattle.rex_parse.specs.Above.{nothing};
ghost use Rattle.rex_parse.specs.Answers.{Reads, Fails};
ghost use Rattle.rex_parse.specs.Good.{IsGood};
ghost use Rattle.rex_parse.specs.Reading.{answer_of, end_code};
ghost use Rattle.rex_parse.specs.Law.{EachText, ServicesAreTyped};

use crate::language::{Fault, ReadError};
use crate::parser::Parser;
use rex_syntax::service::Service;
use rex_text::raw_lines;
use std::alloc::Global;

/// Reads a whole text, line by line.
#[tactic(auto, unfolding(crate::specs::Reading::answer_from))]
fn read_text(alloc: Global, parser: &mut Parser, bytes: &[u8]) -> Result<(), ReadError>
    requires start { parser.old ≡ nothing }
    requires good { IsGood parser.old }
    requires short { length bytes.now + 1 < 2 ^ 32 }
    ensures read { OnOk result (answer_of bytes.now ≡ Ok parser.new) }
    ensures ended { OnOk result (end_code parser.new ≡ None) }
    ensures good { OnOk result (IsGood parser.new) }
    ensures refused { IfErr result (λ e. Fails e (answer_of bytes.now)) }
{
    let mut words = Vec::new(alloc);
    let mut lines = raw_lines(bytes);
    let mut next = 1;
    while let Some((number, line)) = lines.next() {
        match parser.raw_line(&mut words, number, line) {
            Ok(()) => next = number + 1,
            Err(Fault::Refused(code)) => return Err(ReadError::Refused { line: number, code }),
            Err(Fault::OutOfMemory) => return Err(ReadError::OutOfMemory),
        }
    }
    match parser.end_code() {
        Some(code) => Err(ReadError::Refused { line: next, code }),
        None => Ok(()),
    }
}

/// The service that a text declares, or its first bad line with the least code that fits.
pub fn read_service(alloc: Global, bytes: &[u8]) -> Result<Service, ReadError>
    requires { length bytes.now + 1 < 2 ^ 32 }
    ensures reads { Reads result (answer_of bytes.now) }
    ensures typed { IfOk result ServiceIsTyped }
{
    let mut parser = Parser::new(alloc);
    read_text(alloc, &mut parser, bytes)?;
    Ok(parser.finish())
}

/// The answer for a text is its first bad line with the least code that fits, given what the lines above declare.
pub fn first_bad_line()
    ensures { EachText }
{}

/// Each number of a service that a text declares is one of 64 bits.
pub fn services_are_typed()
    ensures { ServicesAreTyped }
{}
