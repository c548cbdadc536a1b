//! Which event a lane makes next.

ghost use Rattle.std.specs.Prelude.{◌≡◌, ◌<◌, ◌≤◌, pos, IfSome, None, length, slice_get};
ghost use Rattle.std.specs.Option.{option_copied};
ghost use Rattle.rand_pcg.specs.Pcg.{pcg32};
ghost use Rattle.rex_state.specs.Machine.{frame_at};
ghost use Rattle.rex_record.specs.Stand.{StandsAt};
ghost use Rattle.rex_record.specs.Turn.{begin_of as the_begin_of, event_at, draws_at, dice_after};
ghost use Rattle.rex_live.specs.Floor as spec;
ghost use Rattle.rex_live.specs.Places.{HasPlaces};

use crate::places::Places;
use rand_pcg::Lcg64Xsh32;
use rex_event::{Event, HISTORY_EVENTS};
use rex_record::{Turn, begin_of, busy_turn};
use rex_state::state::State;
use rex_syntax::checked::Checked;
use rex_syntax::request::Request;

/// The begin of a request as the lane's next event.
fn begin_at(state: &State, lane: u8, request: &Request) -> Event
    ensures { result ≡ event_at state.now lane (the_begin_of request.now) }
{
    Event {
        lane,
        index: state.done(lane),
        kind: begin_of(request),
    }
}

/// The request at a place, if there is one.
fn request_at(requests: &[Request], place: usize) -> Option<&Request>
    ensures { option_copied result ≡ slice_get requests.now place }
{
    requests.get(place)
}

/// The first request that an idle lane may begin.
fn first_open<'a>(
    svc: &Checked,
    state: &State,
    lane: u8,
    requests: &'a [Request],
    places: &Places,
) -> Option<&'a Request>
    requires there { lane < length state.now.lanes }
    requires idle { frame_at state.now lane ≡ None }
    requires places { HasPlaces svc.now requests.now state.now.clients places.now }
    ensures { option_copied result ≡ spec.first_open svc.now state.now lane requests.now }
{
    let _service = svc.declarations();
    request_at(requests, places.first_open())
}

/// An idle lane begins the first request that it can.
fn idle_event(
    svc: &Checked,
    state: &State,
    lane: u8,
    requests: &[Request],
    places: &Places,
) -> Option<Event>
    requires there { lane < length state.now.lanes }
    requires idle { frame_at state.now lane ≡ None }
    requires places { HasPlaces svc.now requests.now state.now.clients places.now }
    ensures { result ≡ spec.begin_at state.now lane (spec.first_open svc.now state.now lane requests.now) }
{
    match first_open(svc, state, lane, requests, places) {
        Some(request) => Some(begin_at(state, lane, request)),
        None => None,
    }
}

/// The event of a turn that makes one.
fn event_of(turn: Turn) -> Option<Event>
    ensures { result ≡ spec.event_of turn }
{
    match turn {
        Turn::Done(event) => Some(event),
        _ => None,
    }
}

/// The event that a lane can make now, after so many events. The dice move on only where the lane reads them.
pub(crate) fn lane_event(
    svc: &Checked,
    state: &State,
    requests: &[Request],
    places: &Places,
    lane: u8,
    events: usize,
    dice: &mut Lcg64Xsh32,
) -> Option<Event>
    requires few { events ≤ HISTORY_EVENTS }
    requires there { lane < length state.now.lanes }
    requires stands { IfSome (frame_at state.now lane) (StandsAt svc.now state.now) }
    requires places { HasPlaces svc.now requests.now state.now.clients places.now }
    ensures event { result ≡ spec.lane_event svc.now requests.now state.now lane (pos events) (pcg32 dice.old).0 (frame_at state.now lane) }
    ensures dice { dice.new ≡ dice_after (draws_at svc.now (frame_at state.now lane)) dice.old }
{
    let service = svc.declarations();
    match state.frame(lane) {
        Some(frame) => event_of(busy_turn(state, service, lane, frame, events as i64, dice)),
        None => idle_event(svc, state, lane, requests, places),
    }
}
