//! The first line that is refused.

ghost use Rattle.std.specs.Prelude.{◌≡◌, ◌≤◌, ◌<◌, ◌+◌, ◌^◌, IfOk, IfSome, length};
ghost use Rattle.rex_syntax.specs.Service.{IsService, IsHandler, LineNames};
ghost use Rattle.rex_lockset.specs.Known.{noted, followed, at_start};
ghost use Rattle.rex_lockset.specs.Refusal as spec;

use crate::bound::step_bound;
use crate::known::Known;
use crate::leads::{leads_from, nowhere};
use rex_syntax::flow::{CheckCode, Leads};
use rex_syntax::line::Line;
use rex_syntax::locks::Lockset;
use rex_syntax::service::{Declarations, Handler, LINES, LOCALS, STEPS};
use std::alloc::{AllocError, Global};

/// What the check refuses: the number of a handler from 0, the number of a line in it from 0, or none where the handler
/// may take too many steps, and why.
#[derive(Clone, Copy, PartialEq, Eq, Debug)]
pub struct Refused {
    pub handler: u8,
    pub line: Option<u16>,
    pub code: CheckCode,
}

/// Why a line is refused to which two lines lead with different locksets.
fn meeting_code(line: &Line) -> CheckCode
    ensures { result ≡ spec.meeting_code line.now }
{
    match line {
        Line::EndRepeat => CheckCode::LoopDiffers,
        _ => CheckCode::BranchesDiffer,
    }
}

/// Where a line leads with what is known of it, or why it is refused.
fn outcome(service: &Declarations, line: &Line, known: Known) -> Result<Leads, CheckCode>
    requires sound { IsService service.now }
    requires names { LineNames service.now LOCALS line.now }
    ensures { result ≡ spec.outcome service.now line.now known }
{
    match known {
        Known::Nothing => Ok(nowhere()),
        Known::Held(held) => leads_from(service, line, held),
        Known::Differs => Err(meeting_code(line)),
    }
}

/// Notes with what a line is led to, if it is.
fn note(known: &mut [Known], line: usize, held: Option<Lockset>)
    requires { IfSome held (λ _. line < length known.old) }
    ensures { known.new ≡ noted known.old line held }
{
    if let Some(held) = held {
        known[line] = known[line].joined(held);
    }
}

/// Notes where the line at a place leads.
fn follow(known: &mut [Known], place: usize, leads: Leads)
    requires here { place < length known.old }
    requires next { IfSome leads.next (λ _. place + 1 < length known.old) }
    requires other { IfSome leads.other.held (λ _. leads.other.line < length known.old) }
    ensures { known.new ≡ followed known.old place leads }
{
    note(known, place + 1, leads.next);
    note(known, leads.other.line as usize, leads.other.held);
}

/// The first refused line of a handler with this number.
fn refused_line(
    service: &Declarations,
    number: u8,
    handler: &Handler,
    known: &mut [Known],
) -> Option<Refused>
    requires sound { IsService service.now }
    requires handler { IsHandler service.now handler.now }
    requires long { length known.old ≡ length handler.now.lines }
    ensures { result ≡ spec.refused_line service.now number 0 known.old handler.now.lines }
{
    for (place, line) in handler.lines.as_slice().iter().enumerate() {
        match outcome(service, line, known[place]) {
            Ok(leads) => follow(known, place, leads),
            Err(code) => {
                return Some(Refused {
                    handler: number,
                    line: Some(place as u16),
                    code,
                });
            }
        }
    }
    None
}

/// The refusal of a handler as a whole, where it may take too many steps.
fn too_long(alloc: Global, number: u8, lines: &[Line]) -> Result<Option<Refused>, AllocError>
    requires { length lines.now ≤ LINES }
    ensures { IfOk result (λ refused. refused ≡ spec.too_long number lines.now) }
{
    if step_bound(alloc, lines)? <= STEPS {
        return Ok(None);
    }
    Ok(Some(Refused {
        handler: number,
        line: None,
        code: CheckCode::TooLong,
    }))
}

/// The first refused line of a handler with this number, and else the handler where it is too long.
fn refusal_in(
    alloc: Global,
    service: &Declarations,
    number: u8,
    handler: &Handler,
) -> Result<Option<Refused>, AllocError>
    requires sound { IsService service.now }
    requires handler { IsHandler service.now handler.now }
    ensures { IfOk result (λ refused. refused ≡ spec.refusal_in service.now number handler.now) }
{
    let lines = handler.lines.as_slice();
    let mut known = vec![in alloc; Known::Nothing; lines.len()]?;
    known[0] = Known::Held(Lockset::new());
    match refused_line(service, number, handler, &mut known) {
        Some(refused) => Ok(Some(refused)),
        None => too_long(alloc, number, lines),
    }
}

/// The first refusal in a service, if there is one.
pub fn refusal_of(alloc: Global, service: &Declarations) -> Result<Option<Refused>, AllocError>
    requires { IsService service.now }
    ensures { IfOk result (λ refused. refused ≡ spec.refusal_of service.now) }
{
    for (number, handler) in service.handlers.as_slice().iter().enumerate() {
        if let Some(refused) = refusal_in(alloc, service, number as u8, handler)? {
            return Ok(Some(refused));
        }
    }
    Ok(None)
}
