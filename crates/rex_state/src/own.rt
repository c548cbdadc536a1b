//! What an event does to its own lane.

ghost use Rattle.std.specs.Prelude.{◌≡◌, ◌<◌, ◌≤◌, ◌+◌, ◌-◌, ◌^◌, ◌++◌, length, replicate, pos, IfSome};
ghost use Rattle.arrayvec.specs.ArrayVec.{array_vec_len};
ghost use Rattle.rex_syntax.specs.Service.{IsService};
ghost use Rattle.rex_state.specs.Lines.{local_of};
ghost use Rattle.rex_state.specs.Own as spec;
ghost use Rattle.rex_state.specs.Room.{HasLocal, HasLock, CanMove, FitsIn, HasHandler, CanStart};

use arrayvec::ArrayVec;
use rex_event::Kind;
use rex_frame::frame::{Frame, Phase};
use rex_list::Arguments;
use rex_syntax::checked::Checked;
use rex_syntax::line::Line;
use rex_syntax::locks::{Lockset, Mode};
use rex_syntax::service::{Declarations, LOCALS};

fn hold(frame: &mut Frame, lock: u8, mode: Mode)
    requires { HasLock lock frame.old }
    ensures { frame.new ≡ spec.holding lock mode frame.old }
{
    frame.held = frame.held.with(lock, mode);
    frame.place += 1;
}

fn read(frame: &mut Frame, line: &Line, value: i64)
    requires { HasLocal line.now frame.old }
    ensures { frame.new ≡ spec.reading line.now value frame.old }
{
    let local = match line {
        Line::Clock { local } => *local,
        Line::Random { local } => *local,
        _ => 0,
    };
    frame.locals[local as usize] = value;
    frame.place += 1;
}

/// Moves the frame of a busy lane by an event, before the lines after it.
fn move_on(frame: &mut Frame, line: &Line, kind: &Kind)
    requires { CanMove kind.now line.now frame.old }
    ensures { frame.new ≡ spec.moved kind.now line.now frame.old }
{
    match kind {
        Kind::AcqEx { lock } | Kind::TryOk { lock } => hold(frame, *lock, Mode::Exclusive),
        Kind::AcqSh { lock } => hold(frame, *lock, Mode::Shared),
        Kind::RelEx { lock } | Kind::RelSh { lock } => hold(frame, *lock, Mode::Free),
        Kind::TryBusy { .. } => {
            if let Line::Try { busy, .. } = line {
                frame.place = *busy;
            } else {
                frame.place = 0;
            }
        }
        Kind::Wait { lock, .. } => {
            frame.held = frame.held.with(*lock, Mode::Free);
            frame.phase = Phase::Waiting;
        }
        Kind::Wake { lock, .. } => {
            frame.held = frame.held.with(*lock, Mode::Exclusive);
            frame.phase = Phase::Running;
        }
        Kind::Clock { value } => read(frame, line, *value),
        Kind::Random { value } => read(frame, line, *value as i64),
        Kind::Begin { .. } | Kind::Reply { .. } => {}
        _ => frame.place += 1,
    }
}

fn push_all(locals: &mut ArrayVec<i64, LOCALS>, values: &[i64])
    requires { array_vec_len locals.old + length values.now ≤ LOCALS }
    ensures { locals.new.items ≡ locals.old.items ++ values.now }
{
    for value in values {
        locals.push(*value);
    }
}

/// Adds zeros up to so many locals.
fn pad(locals: &mut ArrayVec<i64, LOCALS>, count: u8)
    requires more { array_vec_len locals.old ≤ count }
    requires room { count ≤ LOCALS }
    ensures { locals.new.items ≡ locals.old.items ++ replicate (count - array_vec_len locals.old) (pos 0) }
{
    for _ in locals.len()..count as usize {
        locals.push(0);
    }
}

/// A request's frame at its handler's first line.
fn fresh(
    service: &Declarations,
    client: u16,
    sequence: u32,
    handler: u8,
    arguments: &Arguments,
) -> Frame
    requires service { IsService service.now }
    requires handler { HasHandler service.now handler (length arguments.now) }
    ensures { result ≡ spec.fresh service.now client sequence handler arguments.now }
{
    let mut locals = ArrayVec::new();
    push_all(&mut locals, arguments.as_slice());
    pad(
        &mut locals,
        service.handlers.as_slice()[handler as usize].locals,
    );
    Frame {
        client,
        sequence,
        handler,
        place: 0,
        locals,
        turns: ArrayVec::new(),
        held: Lockset::new(),
        phase: Phase::Running,
    }
}

/// The frame from which a lane goes on after an event.
pub fn start_lane(own: &mut Option<Frame>, svc: &Checked, kind: &Kind)
    requires { CanStart svc.now kind.now own.old }
    ensures { own.new ≡ spec.started svc.now kind.now own.old }
{
    let service = svc.declarations();
    match kind {
        Kind::Begin {
            client,
            sequence,
            handler,
            arguments,
        } => *own = Some(fresh(service, *client, *sequence, *handler, arguments)),
        Kind::Reply { .. } => *own = None,
        _ => {
            if let Some(frame) = own {
                let handler = &service.handlers.as_slice()[frame.handler as usize];
                let line = &handler.lines.as_slice()[frame.place as usize];
                move_on(frame, line, kind);
            }
        }
    }
}

/// Runs the lines of a busy lane up to its next event, unless it waits.
pub fn run_on(frame: &mut Frame, variables: &mut [i64], svc: &Checked)
    requires fits { FitsIn svc.now frame.old }
    requires variables { length variables.old ≡ length svc.now.variables }
    ensures { (frame.new, variables.new) ≡ spec.ran svc.now frame.old variables.old }
{
    if frame.is_running() {
        frame.run_segment(svc, variables);
    }
}

/// Runs the lines of a lane up to its next event.
pub(crate) fn run_lane(own: &mut Option<Frame>, variables: &mut [i64], svc: &Checked)
    requires fits { IfSome own.old (FitsIn svc.now) }
    requires variables { length variables.old ≡ length svc.now.variables }
    ensures { (own.new, variables.new) ≡ spec.run_on svc.now own.old variables.old }
{
    if let Some(frame) = own {
        run_on(frame, variables, svc);
    }
}

/// Does an event to its own lane alone: to its frame, and to variables of which only those count whose guards the lane
/// holds.
pub fn do_own(own: &mut Option<Frame>, variables: &mut [i64], svc: &Checked, kind: &Kind)
    requires start { CanStart svc.now kind.now own.old }
    requires fits { IfSome (spec.started svc.now kind.now own.old) (FitsIn svc.now) }
    requires variables { length variables.old ≡ length svc.now.variables }
    ensures { (own.new, variables.new) ≡ spec.own_after svc.now kind.now own.old variables.old }
{
    start_lane(own, svc, kind);
    run_lane(own, variables, svc);
}
