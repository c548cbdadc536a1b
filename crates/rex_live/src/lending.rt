//! What is kept of a state while lanes' lines are out, and what is brought back.

ghost use Rattle.std.specs.Prelude.{◌≡◌, ◌<◌, ◌+◌, length, Some, true};
ghost use Rattle.rex_syntax.specs.Service.{IsService};
ghost use Rattle.rex_syntax.specs.Leads.{guard_of};
ghost use Rattle.rex_syntax.specs.Locks.{mode_of};
ghost use Rattle.rex_frame.specs.Guarded.{Agree};
ghost use Rattle.rex_frame.specs.Guarded as guarded;
ghost use Rattle.rex_frame.specs.Handlers.{FitsIn};
ghost use Rattle.rex_frame.specs.Segment.{LinesFit};
ghost use Rattle.rex_frame.specs.Weights.{IsInside};
ghost use Rattle.rex_state.specs.Machine.{frame_at};
ghost use Rattle.rex_state.specs.Put.{lines_run};
ghost use Rattle.rex_state.specs.Room.{CanApply};
ghost use Rattle.rex_state.specs.Touched.{with_variables};
ghost use Rattle.rex_live.specs.Lent.{begun, IsFitting, TakesWritten};

use crate::segment::Brought;
use crate::setting::Setting;
use rex_event::{Event, LANES};
use rex_frame::frame::Frame;
use rex_state::start_lane;
use rex_state::state::State;
use rex_syntax::checked::Checked;
use rex_syntax::line::Line;
use rex_syntax::locks::{Lockset, Mode};
use rex_syntax::service::Declarations;

/// Does an event, and leaves its lane's lines up to the next one to be run.
pub(crate) fn begin_event(kept: &mut State, svc: &Checked, event: &Event)
    requires lane { event.now.lane < LANES }
    requires apply { CanApply svc.now event.now.lane event.now.kind kept.old }
    ensures { kept.new ≡ begun svc.now kept.old event.now }
{
    let done = kept.done(event.lane) + 1;
    let mut own = kept.copied_frame(event.lane);
    start_lane(&mut own, svc, &event.kind);
    kept.put_lane(event.lane, done, own);
    kept.note(event);
}

/// Whether a frame stands at a line of its own event.
fn stands_in(frame: &Frame, lines: &[Line], variables: &[i64]) -> bool
    requires fits { LinesFit (length frame.now.locals.items) (length variables.now) lines.now }
    requires inside { IsInside lines.now frame.now }
{
    frame.stands(&lines[frame.place as usize], variables)
}

/// Whether a frame has lines to run before its lane's next event.
pub(crate) fn has_lines(frame: &Frame, variables: &[i64], svc: &Checked) -> bool
    requires fits { FitsIn svc.now frame.now }
    requires variables { length variables.now ≡ length svc.now.variables }
{
    if !frame.is_running() {
        return false;
    }
    let handler = &svc.declarations().handlers.as_slice()[frame.handler as usize];
    !stands_in(frame, handler.lines.as_slice(), variables)
}

/// The mode in which a variable's guard is held.
fn guard_mode(service: &Declarations, held: &Lockset, variable: usize) -> Mode
    requires service { IsService service.now }
    requires there { variable < length service.now.variables }
    ensures { result ≡ mode_of held.now (guard_of service.now variable) }
{
    held.mode(service.variables.as_slice()[variable].guard)
}

fn may_read(service: &Declarations, held: &Lockset, variable: usize) -> bool
    requires service { IsService service.now }
    requires there { variable < length service.now.variables }
    ensures { result ≡ guarded.may_read service.now held.now variable }
{
    guard_mode(service, held, variable) != Mode::Free
}

fn may_write(service: &Declarations, held: &Lockset, variable: usize) -> bool
    requires service { IsService service.now }
    requires there { variable < length service.now.variables }
    ensures { result ≡ guarded.may_write service.now held.now variable }
{
    guard_mode(service, held, variable) == Mode::Exclusive
}

/// Whether two lists of values agree on the variables whose guards are held.
fn agree(service: &Declarations, held: &Lockset, values: &[i64], others: &[i64]) -> bool
    requires service { IsService service.now }
    requires values { length values.now ≡ length service.now.variables }
    requires others { length others.now ≡ length service.now.variables }
    ensures { result ≡ true → Agree service.now held.now values.now others.now }
{
    for variable in 0..values.len() {
        if may_read(service, held, variable) && values[variable] != others[variable] {
            return false;
        }
    }
    true
}

/// Takes over the values of the variables whose guards are held exclusively.
fn take_written(kept: &mut State, service: &Declarations, held: &Lockset, values: &[i64])
    requires service { IsService service.now }
    requires kept { length kept.old.variables ≡ length service.now.variables }
    requires values { length values.now ≡ length service.now.variables }
    ensures rest { kept.new ≡ with_variables kept.old kept.new.variables }
    ensures taken { TakesWritten service.now held.now values.now kept.old.variables kept.new.variables }
{
    for variable in 0..values.len() {
        if may_write(service, held, variable) {
            kept.put_variable(variable, values[variable]);
        }
    }
}

/// Whether two frames serve one request, as far as its numbers tell.
fn is_same_request(frame: &Frame, other: &Frame) -> bool
    ensures client { result ≡ true → frame.now.client ≡ other.now.client }
    ensures sequence { result ≡ true → frame.now.sequence ≡ other.now.sequence }
    ensures handler { result ≡ true → frame.now.handler ≡ other.now.handler }
{
    frame.client == other.client
        && frame.sequence == other.sequence
        && frame.handler == other.handler
}

/// Whether two frames stand at one line in one phase, and hold the same locks.
fn is_same_place(frame: &Frame, other: &Frame) -> bool
    ensures place { result ≡ true → frame.now.place ≡ other.now.place }
    ensures phase { result ≡ true → frame.now.phase ≡ other.now.phase }
    ensures held { result ≡ true → frame.now.held ≡ other.now.held }
{
    frame.place == other.place && frame.phase == other.phase && frame.held.is_same(&other.held)
}

fn has_same_locals(frame: &Frame, other: &Frame) -> bool
    ensures { result ≡ true → frame.now.locals ≡ other.now.locals }
{
    frame.locals.as_slice() == other.locals.as_slice()
}

fn has_same_turns(frame: &Frame, other: &Frame) -> bool
    ensures { result ≡ true → frame.now.turns ≡ other.now.turns }
{
    frame.turns.as_slice() == other.turns.as_slice()
}

/// Whether two frames are the same.
fn is_same_frame(frame: &Frame, other: &Frame) -> bool
    ensures { result ≡ true → frame.now ≡ other.now }
{
    is_same_request(frame, other)
        && is_same_place(frame, other)
        && has_same_locals(frame, other)
        && has_same_turns(frame, other)
}

/// Whether what was lent is what is kept of a lane.
fn is_kept<S: Setting>(kept: &State, service: &Declarations, lane: u8, brought: &Brought<S>) -> bool
    requires service { IsService service.now }
    requires setting { service.now ≡ S.service }
    requires kept { length kept.now.variables ≡ length service.now.variables }
    ensures frame { result ≡ true → frame_at kept.now lane ≡ Some brought.now.lent }
    ensures values { result ≡ true → Agree service.now brought.now.lent.held kept.now.variables brought.now.lent_values.items }
{
    match kept.frame(lane) {
        Some(frame) => {
            is_same_frame(frame, &brought.lent)
                && agree(
                    service,
                    &brought.lent.held,
                    kept.variables(),
                    &brought.lent_values,
                )
        }
        None => false,
    }
}

/// Takes what a thread brings back, if it was lent what is kept of the lane, and runs the lines otherwise.
pub(crate) fn bring_back<S: Setting>(kept: &mut State, svc: &Checked, lane: u8, brought: Brought<S>)
    requires setting { svc.now ≡ S.service }
    requires there { lane < length kept.old.lanes }
    requires variables { length kept.old.variables ≡ length svc.now.variables }
    requires fits { IsFitting svc.now kept.old lane }
    ensures { kept.new ≡ lines_run svc.now kept.old lane }
{
    let service = svc.declarations();
    if is_kept(kept, service, lane, &brought) {
        let done = kept.done(lane);
        take_written(kept, service, &brought.lent.held, &brought.values);
        kept.put_lane(lane, done, Some(brought.frame));
    } else {
        kept.run_lines(svc, lane);
    }
}
