//! Reading lanes and their frames.

ghost use Rattle.std.specs.Prelude.{◌≡◌, ◌<◌, ◌≤◌, ◌-◌, length, true, IfOk};
ghost use Rattle.rex_syntax.specs.Shape.{open_at};
ghost use Rattle.rex_frame.specs.Handlers.{lines_of, locals_of};
ghost use Rattle.std.specs.Int.{w16};
ghost use Rattle.rex_wire.specs.Decoding.{ReadsOn};
ghost use Rattle.rex_wire.specs.Reading.{allowed_at};
ghost use Rattle.rex_snapshot.specs.Allowed.{may_be_new_client, may_be_line};
ghost use Rattle.rex_snapshot.specs.Reading.{into_array, values_at, turn_at, turns_at, held_by, phase_of, handler_at, line_at, frame_at, waits_by};
ghost use Rattle.rex_snapshot.specs.Reading.{busy_at, placed_at, seat_at, seats_at};

use crate::allowed::{condition_of, may_be_line, may_be_new_client};
use crate::loops::{lines_of, open_loops, turns_of};
use crate::parts::Seat;
use arrayvec::ArrayVec;
use rex_event::{HISTORY_EVENTS, SEQUENCES};
use rex_frame::frame::{Frame, Phase, Turn};
use rex_list::List;
use rex_state::lane::Lane;
use rex_syntax::checked::Checked;
use rex_syntax::line::Line;
use rex_syntax::locks::Lockset;
use rex_syntax::service::{LOCALS, LOOPS};
use rex_wire::{
    DecodeError, Reader, u8_at_most, u8_between, u16_between, u32_at_most, u32_between,
};
use std::alloc::Global;

/// A frame's client, which no earlier lane serves.
fn new_client(reader: &mut Reader, earlier: &[Seat]) -> Result<u16, DecodeError>
    ensures { ReadsOn result reader.new (allowed_at w16 (may_be_new_client earlier.now) reader.old) }
{
    let at = reader.at();
    let client = reader.u16()?;
    if !may_be_new_client(earlier, client) {
        return Err(DecodeError::Bad { at });
    }
    Ok(client)
}

/// A frame's handler, from 0.
#[tactic(auto, unfolding(crate::specs::Reading::handler_at))]
fn handler(reader: &mut Reader, svc: &Checked) -> Result<u8, DecodeError>
    ensures read { ReadsOn result reader.new (handler_at svc.now reader.old) }
    ensures inside { IfOk result (λ handler. handler < length svc.now.handlers) }
{
    let handlers = svc.declarations().handlers.len() as u8;
    Ok(u8_between(reader, 1, handlers)? - 1)
}

/// The number of a frame's line, at which the lane holds what is filled in.
fn line_number(
    reader: &mut Reader,
    svc: &Checked,
    earlier: &[Seat],
    runs: bool,
    handler: u8,
    held: &mut Lockset,
) -> Result<u16, DecodeError>
    requires { handler < length svc.now.handlers }
    ensures read { ReadsOn result reader.new (allowed_at w16 (may_be_line svc.now earlier.now runs handler) reader.old) }
    ensures may { IfOk result (λ n. may_be_line svc.now earlier.now runs handler n ≡ true) }
    ensures held { IfOk result (λ n. held.new ≡ held_by svc.now runs handler (n - 1)) }
{
    let at = reader.at();
    let n = reader.u16()?;
    if !may_be_line(svc, earlier, runs, handler, n, held) {
        return Err(DecodeError::Bad { at });
    }
    Ok(n)
}

/// A frame's line, from 0, at which the lane holds what is filled in.
#[tactic(auto, unfolding(crate::specs::Reading::line_at))]
fn line(
    reader: &mut Reader,
    svc: &Checked,
    earlier: &[Seat],
    runs: bool,
    handler: u8,
    held: &mut Lockset,
) -> Result<u16, DecodeError>
    requires { handler < length svc.now.handlers }
    ensures read { ReadsOn result reader.new (line_at svc.now earlier.now runs handler reader.old) }
    ensures inside { IfOk result (λ place. place < length (lines_of svc.now handler)) }
    ensures held { IfOk result (λ place. held.new ≡ held_by svc.now runs handler place) }
{
    let n = line_number(reader, svc, earlier, runs, handler, held)?;
    Ok(n - 1)
}

/// As many locals.
fn locals(reader: &mut Reader, count: u8) -> Result<ArrayVec<i64, LOCALS>, DecodeError>
    requires { count ≤ LOCALS }
    ensures { ReadsOn result reader.new (into_array (values_at count reader.old)) }
{
    let mut locals = ArrayVec::new();
    for _ in 0..count {
        let value = reader.i64()?;
        locals.push(value);
    }
    Ok(locals)
}

/// How many turns are left of the loop with this body.
#[tactic(auto, unfolding(crate::specs::Reading::turn_at))]
fn turn(reader: &mut Reader, lines: &[Line], body: u16) -> Result<Turn, DecodeError>
    ensures { ReadsOn result reader.new (turn_at lines.now body reader.old) }
{
    let left = u16_between(reader, 1, turns_of(lines, body))?;
    Ok(Turn { body, left })
}

/// The same for each open loop.
fn turns(
    reader: &mut Reader,
    lines: &[Line],
    bodies: &[u16],
) -> Result<ArrayVec<Turn, LOOPS>, DecodeError>
    requires { length bodies.now ≤ LOOPS }
    ensures { ReadsOn result reader.new (into_array (turns_at lines.now bodies.now reader.old)) }
{
    let mut turns = ArrayVec::new();
    for body in bodies {
        let turn = turn(reader, lines, *body)?;
        turns.push(turn);
    }
    Ok(turns)
}

fn phase_of(runs: bool) -> Phase
    ensures { result ≡ phase_of runs }
{
    if runs { Phase::Running } else { Phase::Waiting }
}

/// How many turns are left of each loop that is open at a line.
fn open_turns(
    reader: &mut Reader,
    svc: &Checked,
    handler: u8,
    place: u16,
) -> Result<ArrayVec<Turn, LOOPS>, DecodeError>
    requires handler { handler < length svc.now.handlers }
    requires place { place < length (lines_of svc.now handler) }
    ensures { ReadsOn result reader.new (into_array (turns_at (lines_of svc.now handler) (open_at (lines_of svc.now handler) place) reader.old)) }
{
    let lines = lines_of(svc, handler);
    let bodies = open_loops(lines, place);
    turns(reader, lines, bodies.as_slice())
}

/// As many locals as a handler has.
fn handler_locals(
    reader: &mut Reader,
    svc: &Checked,
    handler: u8,
) -> Result<ArrayVec<i64, LOCALS>, DecodeError>
    requires { handler < length svc.now.handlers }
    ensures { ReadsOn result reader.new (into_array (values_at (locals_of svc.now handler) reader.old)) }
{
    let count = svc.declarations().handlers.as_slice()[handler as usize].locals;
    locals(reader, count)
}

/// The frame of a lane after these lanes.
#[tactic(auto, unfolding(crate::specs::Reading::frame_at))]
fn frame(
    reader: &mut Reader,
    svc: &Checked,
    earlier: &[Seat],
    runs: bool,
) -> Result<Frame, DecodeError>
    ensures read { ReadsOn result reader.new (frame_at svc.now earlier.now runs reader.old) }
    ensures handler { IfOk result (λ f. f.handler < length svc.now.handlers) }
    ensures place { IfOk result (λ f. f.place < length (lines_of svc.now f.handler)) }
{
    let client = new_client(reader, earlier)?;
    let sequence = u32_between(reader, 1, SEQUENCES)?;
    let handler = handler(reader, svc)?;
    let mut held = Lockset::new();
    let place = line(reader, svc, earlier, runs, handler, &mut held)?;
    let locals = handler_locals(reader, svc, handler)?;
    let turns = open_turns(reader, svc, handler, place)?;
    Ok(Frame {
        client,
        sequence,
        handler,
        place,
        locals,
        turns,
        held,
        phase: phase_of(runs),
    })
}

/// The condition at which a lane waits, if its status says so.
fn waits_by(svc: &Checked, status: u8, frame: &Frame) -> Option<u8>
    requires handler { frame.now.handler < length svc.now.handlers }
    requires place { frame.now.place < length (lines_of svc.now frame.now.handler) }
    ensures { result ≡ waits_by svc.now status frame.now }
{
    if status == 2 {
        condition_of(&lines_of(svc, frame.handler)[frame.place as usize])
    } else {
        None
    }
}

/// A busy lane after its status.
#[tactic(auto, unfolding(crate::specs::Reading::busy_at))]
fn busy(
    reader: &mut Reader,
    svc: &Checked,
    earlier: &[Seat],
    done: u32,
    status: u8,
) -> Result<Seat, DecodeError>
    ensures { ReadsOn result reader.new (busy_at svc.now earlier.now done status reader.old) }
{
    let frame = frame(reader, svc, earlier, status == 1)?;
    let waits = waits_by(svc, status, &frame);
    Ok(Seat {
        lane: Lane {
            done,
            frame: Some(frame),
        },
        waits,
    })
}

/// A lane after its status.
fn placed(
    reader: &mut Reader,
    svc: &Checked,
    earlier: &[Seat],
    done: u32,
    status: u8,
) -> Result<Seat, DecodeError>
    ensures { ReadsOn result reader.new (placed_at svc.now earlier.now done status reader.old) }
{
    if status == 0 {
        return Ok(Seat {
            lane: Lane { done, frame: None },
            waits: None,
        });
    }
    busy(reader, svc, earlier, done, status)
}

/// A lane after these lanes.
#[tactic(auto, unfolding(crate::specs::Reading::seat_at))]
fn seat(reader: &mut Reader, svc: &Checked, earlier: &[Seat]) -> Result<Seat, DecodeError>
    ensures { ReadsOn result reader.new (seat_at svc.now earlier.now reader.old) }
{
    let done = u32_at_most(reader, HISTORY_EVENTS as u32)?;
    let status = u8_at_most(reader, 3)?;
    placed(reader, svc, earlier, done, status)
}

/// As many lanes.
pub fn seats(
    alloc: Global,
    reader: &mut Reader,
    svc: &Checked,
    count: u8,
) -> Result<List<Seat>, DecodeError>
    ensures read { ReadsOn result reader.new (seats_at svc.now count reader.old) }
    ensures long { IfOk result (λ seats. length seats ≡ count) }
{
    let mut seats = List::new(alloc);
    for _ in 0..count {
        let seat = seat(reader, svc, seats.as_slice())?;
        seats.push(seat)?;
    }
    Ok(seats)
}
