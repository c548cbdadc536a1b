//! What a lane does next.
ghost use Rattle.std.specs.Prelude.{◌≡◌, ◌<◌, ◌≤◌, length, slice_get};
ghost use Rattle.rex_state.specs.Lines as lines;
ghost use Rattle.rex_state.specs.Machine.{frame_at};
ghost use Rattle.rex_frame.specs.Step.{LineFits};
ghost use Rattle.rex_words.specs.Alone.{service_of, begin_next};
ghost use Rattle.rex_words.specs.Seats.{IsLaneOf};
ghost use Rattle.rex_words.specs.Choice as spec;
ghost use Rattle.rex_words.specs.declared.assignment.Assignment.{Assignment};

use crate::limits::{IDLE_EVENTS, LANE_EVENTS};
use crate::seat::WordSeat;
use rex_event::{Event, Kind};
use rex_frame::frame::Frame;
use rex_record::begin_of;
use rex_syntax::checked::Checked;
use rex_syntax::line::Line;
use rex_syntax::request::Request;
use rex_syntax::service::Declarations;

/// What a lane does next.
#[derive(Clone, Copy, PartialEq, Eq)]
pub(crate) enum Choice {
    /// It is idle, and has no request that may begin.
    Idle,
    /// It is idle, and has too many events to begin its next request.
    Full,
    /// An event for which it needs no lock's word.
    Alone(Kind),
    Acquire(u8),
    Try(u8),
    Release(u8),
}

/// An idle lane, after so many events, by the begin of its next request.
fn idle_choice(count: usize, begin: Option<Kind>) -> Choice
    ensures { result ≡ spec.idle_choice count begin }
{
    match begin {
        None => Choice::Idle,
        Some(kind) => {
            if IDLE_EVENTS < count {
                Choice::Full
            } else {
                Choice::Alone(kind)
            }
        }
    }
}

/// The line at which a busy lane stands.
fn line_of<'a>(service: &'a Declarations, frame: &Frame) -> &'a Line
    requires handler { frame.now.handler < length service.now.handlers }
    requires place { frame.now.place < length (lines.lines_of service.now frame.now.handler) }
    ensures { result.now ≡ lines.line_of service.now frame.now }
{
    let handler = &service.handlers.as_slice()[frame.handler as usize];
    &handler.lines.as_slice()[frame.place as usize]
}

/// A busy lane at its line, after so many events, with this random number.
fn busy_choice(
    service: &Declarations,
    frame: &Frame,
    variables: &[i64],
    count: usize,
    random: u32,
) -> Choice
    requires few { count ≤ LANE_EVENTS }
    requires handler { frame.now.handler < length service.now.handlers }
    requires place { frame.now.place < length (lines.lines_of service.now frame.now.handler) }
    requires fits { LineFits (length frame.now.locals.items) (length variables.now) (lines.line_of service.now frame.now) }
    ensures { result ≡ spec.busy_choice frame.now variables.now count random (lines.line_of service.now frame.now) }
{
    match line_of(service, frame) {
        Line::Acquire { lock } => Choice::Acquire(*lock),
        Line::Try { lock, .. } => Choice::Try(*lock),
        Line::Release { lock } => Choice::Release(*lock),
        Line::Clock { .. } => Choice::Alone(Kind::Clock {
            value: count as i64,
        }),
        Line::Random { .. } => Choice::Alone(Kind::Random { value: random }),
        Line::Reply { value } => Choice::Alone(Kind::Reply {
            client: frame.client,
            value: value.value(frame.locals.as_slice(), variables),
        }),
        _ => Choice::Idle,
    }
}

impl WordSeat {
    /// The begin of the lane's next request, if there is one and the lane's own state allows it.
    fn next_begin(&self, svc: &Checked) -> Option<Kind>
        requires lane { (r : Assignment) × (svc.now ≡ service_of r) × IsLaneOf r self.now }
        ensures { result ≡ begin_next svc.now self.now.lane self.now.state (slice_get self.now.requests.items self.now.begun) }
    {
        match self.requests.get(self.begun) {
            None => None,
            Some(request) => {
                let event = Event {
                    lane: self.lane,
                    index: 0,
                    kind: begin_of(request),
                };
                if self.state.enabled(svc, &event) {
                    Some(event.kind)
                } else {
                    None
                }
            }
        }
    }

    /// What the lane does next.
    pub(crate) fn choice(&self, svc: &Checked) -> Choice
        requires lane { (r : Assignment) × (svc.now ≡ service_of r) × IsLaneOf r self.now }
        ensures { result ≡ spec.choice_of svc.now self.now (frame_at self.now.state self.now.lane) }
    {
        match self.state.frame(self.lane) {
            None => idle_choice(self.events.len(), self.next_begin(svc)),
            Some(frame) => busy_choice(
                svc.declarations(),
                frame,
                self.state.variables(),
                self.events.len(),
                self.random,
            ),
        }
    }
}
