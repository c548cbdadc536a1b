//! The requests that lines spell, and the variables that clients name.

ghost use Rattle.std.specs.Prelude.{◌≡◌, ◌<◌, ◌≤◌, true, length, position, slice_get, IfSome};
ghost use Rattle.rex_syntax.specs.Service.{IsService};
ghost use Rattle.rex_syntax.specs.Typed.{RequestIsTyped};
ghost use Rattle.rex_schedule.specs.Counts.{takes_so_many};
ghost use Rattle.rex_schedule.specs.Fits.{RequestFits};
ghost use Rattle.rex_text.specs.Left.{words_left};
ghost use Rattle.rex_frames.specs.Requests as spec;

use rex_event::{CLIENTS, SEQUENCES};
use rex_list::{ARGUMENTS, Arguments};
use rex_syntax::request::Request;
use rex_syntax::service::{Declarations, Handler, Variable};
use rex_text::{Words, read_i64, read_u64, words};

/// The request that a line spells: `CLIENT SEQUENCE HANDLER ARGUMENT..`.
pub(crate) fn request_in(service: &Declarations, line: &[u8]) -> Option<Request>
    requires { IsService service.now }
    ensures request { result ≡ spec.request_in service.now line.now }
    ensures fits { IfSome result (RequestFits service.now) }
    ensures typed { IfSome result RequestIsTyped }
{
    let mut rest = words(line);
    let client = rest.next()?;
    let sequence = rest.next()?;
    let name = rest.next()?;
    let client = client_of(client)?;
    let sequence = sequence_of(sequence)?;
    let arguments = arguments_of(rest)?;
    let handler = handler_taking(service, name, arguments.len())?;
    Some(Request {
        client,
        sequence,
        handler,
        arguments,
    })
}

/// The number of the variable with a name.
pub(crate) fn variable_named(service: &Declarations, name: &[u8]) -> Option<u16>
    requires { IsService service.now }
    ensures variable { result ≡ spec.variable_named service.now name.now }
    ensures there { IfSome result (λ variable. variable < length service.now.variables) }
{
    match place_named(service.variables.as_slice(), name) {
        Some(place) => Some(place as u16),
        None => None,
    }
}

fn place_named(variables: &[Variable], name: &[u8]) -> Option<usize>
    ensures place { result ≡ position (spec.is_named name.now) variables.now }
    ensures inside { IfSome result (λ place. place < length variables.now) }
{
    variables
        .iter()
        .position(|variable| variable.name.as_slice() == name)
}

// The number from `least` to `most` that a word spells.
fn count_of(least: u64, most: u64, word: &[u8]) -> Option<u64>
    ensures count { result ≡ spec.count_of least most word.now }
    ensures within { IfSome result (λ count. (least ≤ count) × (count ≤ most)) }
{
    match read_u64(word) {
        Some(count) if least <= count && count <= most => Some(count),
        _ => None,
    }
}

fn client_of(word: &[u8]) -> Option<u16>
    ensures client { result ≡ spec.client_of word.now }
    ensures within { IfSome result (λ client. (0 < client) × (client ≤ CLIENTS)) }
{
    Some(count_of(1, CLIENTS as u64, word)? as u16)
}

fn sequence_of(word: &[u8]) -> Option<u32>
    ensures sequence { result ≡ spec.sequence_of word.now }
    ensures within { IfSome result (λ sequence. (0 < sequence) × (sequence ≤ SEQUENCES)) }
{
    Some(count_of(1, SEQUENCES as u64, word)? as u32)
}

// The numbers that words spell, where each spells one and a request may have so many.
fn arguments_of(words: Words<'_>) -> Option<Arguments>
    ensures { result ≡ spec.arguments_of (words_left words.entry) }
{
    let mut arguments = Arguments::new();
    for word in words {
        if arguments.len() == ARGUMENTS {
            return None;
        }
        arguments.push(read_i64(word)?);
    }
    Some(arguments)
}

// The number of the handler with a name that takes so many arguments.
fn handler_taking(service: &Declarations, name: &[u8], count: usize) -> Option<u8>
    requires { IsService service.now }
    ensures handler { result ≡ spec.handler_taking service.now name.now count }
    ensures there { IfSome result (λ handler. handler < length service.now.handlers) }
    ensures takes { IfSome result (λ handler. takes_so_many (slice_get service.now.handlers handler) count ≡ true) }
{
    match place_taking(service.handlers.as_slice(), name, count) {
        Some(place) => Some(place as u8),
        None => None,
    }
}

fn place_taking(handlers: &[Handler], name: &[u8], count: usize) -> Option<usize>
    ensures place { result ≡ position (spec.is_taking name.now count) handlers.now }
    ensures inside { IfSome result (λ place. place < length handlers.now) }
{
    handlers
        .iter()
        .position(|handler| is_taking(handler, name, count))
}

fn is_taking(handler: &Handler, name: &[u8], count: usize) -> bool
    ensures { result ≡ spec.is_taking name.now count handler.now }
{
    handler.name.as_slice() == name && handler.parameters as usize == count
}
