//! What a frame asks for.

ghost use Rattle.std.specs.Prelude.{◌≡◌, ℕ, FitsSigned, IfOk, IfSome, OnErr, slice_get, true};
ghost use Rattle.std.specs.Int.{w64};
ghost use Rattle.rex_syntax.specs.declared.service.Declarations.{Declarations};
ghost use Rattle.rex_syntax.specs.Service.{IsService};
ghost use Rattle.rex_schedule.specs.Fits.{IsNode};
ghost use Rattle.rex_frames.specs.Asking as spec;
ghost use Rattle.rex_frames.specs.Asking.{AskedFits, has_message};

use crate::hearing::{heard_in, is_another};
use crate::letters::{ASK, CUT, ELECT, FORETELL, HEAR, LOOK, READ, RUN, SUBMIT, TURN};
use crate::requests::{request_in, variable_named};
use rex_event::CLIENTS;
use rex_msg::Message;
use rex_syntax::checked::Checked;
use rex_syntax::request::Request;
use rex_syntax::service::Declarations;
use std::alloc::{AllocError, Global};

/// What a frame asks a node for. Nodes and clients are numbered from 1, lanes and variables from 0.
#[derive(Drop)]
pub enum Asked {
    /// To ask to lead.
    Elect,
    /// To answer a client's request.
    Submit {
        request: Request,
    },
    /// To let the lanes go on, at a time of the clock.
    Run {
        clock: i64,
    },
    /// To let one lane go on, at a time of the clock.
    Turn {
        lane: u8,
        clock: i64,
    },
    /// To propose the live events.
    Cut,
    /// To hear a message of another node.
    Hear {
        message: Message,
    },
    /// To tell which replies hearing a message of another node would release. Nothing is heard.
    Foretell {
        message: Message,
    },
    /// To ask another node for what this one doesn't know.
    Ask {
        to: u8,
    },
    /// To tell a client the value of a variable, where the node has replayed as many agreed deltas as the client has seen.
    Read {
        client: u16,
        variable: u16,
        seen: u32,
    },
    /// To say what the node is.
    Look,
    /// Nothing that there is.
    Nothing,
}

/// What a frame asks the node of a number for, of so many nodes. No frame but one with a message takes memory.
#[tactic(auto, unfolding(crate::specs::Asking::asked_in))]
pub fn asked_in(
    alloc: Global,
    svc: &Checked,
    id: u8,
    nodes: u8,
    frame: &[u8],
) -> Result<Asked, AllocError>
    requires { IsNode nodes id }
    ensures asked { IfOk result (λ asked. asked ≡ spec.asked_in svc.now id nodes frame.now) }
    ensures fits { IfOk result (AskedFits svc.now id nodes) }
    ensures short { OnErr result (has_message (slice_get frame.now 0) ≡ true) }
{
    let Some((letter, content)) = frame.split_first() else {
        return Ok(Asked::Nothing);
    };
    if *letter != HEAR && *letter != FORETELL {
        return Ok(asked_by(svc.declarations(), id, nodes, *letter, content));
    }
    match heard_in(alloc, id, nodes, content)? {
        Some(message) => Ok(asked_with(*letter, message)),
        None => Ok(Asked::Nothing),
    }
}

// What a letter asks for that a message follows.
fn asked_with(letter: u8, message: Message) -> Asked
    ensures { result ≡ spec.asked_with letter message }
{
    if letter == HEAR {
        Asked::Hear { message }
    } else {
        Asked::Foretell { message }
    }
}

// What any letter asks for that no message follows, with what follows it.
fn asked_by(service: &Declarations, id: u8, nodes: u8, letter: u8, content: &[u8]) -> Asked
    requires { IsService service.now }
    ensures asked { result ≡ spec.asked_by service.now id nodes letter content.now }
    ensures fits { AskedFits service.now id nodes result }
{
    match letter {
        SUBMIT => to_submit(service, content),
        RUN => to_run(content),
        TURN => to_turn(service.lanes, content),
        ASK => to_ask(id, nodes, content),
        READ => to_read(service, content),
        _ => asked_alone(letter, content),
    }
}

// What a letter asks for that nothing follows.
fn asked_alone(letter: u8, content: &[u8]) -> Asked
    ensures asked { result ≡ spec.asked_alone letter content.now }
    ensures fits { (service : Declarations) (id nodes : ℕ) → AskedFits service id nodes result }
{
    if !content.is_empty() {
        return Asked::Nothing;
    }
    match letter {
        ELECT => Asked::Elect,
        CUT => Asked::Cut,
        LOOK => Asked::Look,
        _ => Asked::Nothing,
    }
}

fn to_submit(service: &Declarations, line: &[u8]) -> Asked
    requires { IsService service.now }
    ensures asked { result ≡ spec.to_submit service.now line.now }
    ensures fits { (id nodes : ℕ) → AskedFits service.now id nodes result }
{
    match request_in(service, line) {
        Some(request) => Asked::Submit { request },
        None => Asked::Nothing,
    }
}

fn to_run(content: &[u8]) -> Asked
    ensures asked { result ≡ spec.to_run content.now }
    ensures fits { (service : Declarations) (id nodes : ℕ) → AskedFits service id nodes result }
{
    match clock_in(content) {
        Some(clock) => Asked::Run { clock },
        None => Asked::Nothing,
    }
}

// A lane, from 1 to so many, and a clock.
fn to_turn(lanes: u8, content: &[u8]) -> Asked
    ensures asked { result ≡ spec.to_turn lanes content.now }
    ensures fits { (service : Declarations) (id nodes : ℕ) → service.lanes ≡ lanes → AskedFits service id nodes result }
{
    let Some((number, rest)) = content.split_first() else {
        return Asked::Nothing;
    };
    if *number == 0 || *number > lanes {
        return Asked::Nothing;
    }
    match clock_in(rest) {
        Some(clock) => Asked::Turn {
            lane: *number - 1,
            clock,
        },
        None => Asked::Nothing,
    }
}

fn to_ask(id: u8, nodes: u8, content: &[u8]) -> Asked
    ensures asked { result ≡ spec.to_ask id nodes content.now }
    ensures fits { (service : Declarations) → AskedFits service id nodes result }
{
    match content {
        [to] => {
            if is_another(id, nodes, *to) {
                return Asked::Ask { to: *to };
            }
            Asked::Nothing
        }
        _ => Asked::Nothing,
    }
}

// A client, how many agreed deltas it has seen, and a variable's name.
fn to_read(service: &Declarations, content: &[u8]) -> Asked
    requires { IsService service.now }
    ensures asked { result ≡ spec.to_read service.now content.now }
    ensures fits { (id nodes : ℕ) → AskedFits service.now id nodes result }
{
    let Some((client, rest)) = content.split_first_chunk::<2>() else {
        return Asked::Nothing;
    };
    let Some((seen, name)) = rest.split_first_chunk::<4>() else {
        return Asked::Nothing;
    };
    let client = u16::from_be_bytes(*client);
    if client == 0 || client > CLIENTS {
        return Asked::Nothing;
    }
    match variable_named(service, name) {
        Some(variable) => Asked::Read {
            client,
            variable,
            seen: u32::from_be_bytes(*seen),
        },
        None => Asked::Nothing,
    }
}

// The number that eight bytes spell, in two's complement.
fn clock_in(content: &[u8]) -> Option<i64>
    ensures clock { result ≡ spec.clock_in content.now }
    ensures typed { IfSome result (FitsSigned w64) }
{
    match content {
        [a, b, c, d, e, f, g, h] => { Some(i64::from_be_bytes([*a, *b, *c, *d, *e, *f, *g, *h])) }
        _ => None,
    }
}
