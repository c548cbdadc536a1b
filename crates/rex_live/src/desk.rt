//! What lies under a floor's lock.

ghost use Rattle.std.specs.Prelude.{◌≡◌, ◌+◌, ◌^◌, ◌<◌, ◌≤◌, ◌⊎◌, IfOk, OnErr, OnOk, length, nat_le, replicate, slice_set, Some, None, true, false};
ghost use Rattle.rex_state.specs.Machine.{lane_of};
ghost use Rattle.rex_live.specs.Desk.{GoesOn, MayGoOn};
ghost use Rattle.rex_live.specs.Floor as spec;
ghost use Rattle.rex_live.specs.Lent.{is_out};
ghost use Rattle.rex_live.specs.Places.{HasPlaces};

use crate::events::lane_event;
use crate::lending::{begin_event, bring_back, has_lines};
use crate::places::Places;
use crate::segment::{Brought, Segment};
use crate::setting::Setting;
use rand_pcg::Lcg64Xsh32;
use rex_event::{CLIENT_ENTRIES, Event, HISTORY_EVENTS};
use rex_list::List;
use rex_state::state::State;
use rex_syntax::checked::Checked;
use rex_syntax::request::Request;
use rex_syntax::service::LANES;
use std::alloc::{AllocError, Global};
use std::marker::Model;
use std::sync::ledger::{Book, Share};

/// The ballot of node 1's first election, from which random numbers are drawn.
const BALLOT: u64 = 17;

/// The history that the lanes made so far, what is kept of the state after it, and the requests that were handed in.
#[derive(Drop)]
pub(crate) struct Desk<S: Setting> {
    history: Vec<Event>,
    /// The state after the history, but for the lines that are out.
    kept: State,
    /// Per lane, whether its lines up to its next event are out.
    pub(crate) out: [bool; LANES],
    /// Per lane, whether it waits and nobody woke it.
    pub(crate) waits: [bool; LANES],
    /// Per lane, whether its thread has begun. Another lane's thread makes the events of one that hasn't.
    pub(crate) begun: [bool; LANES],
    dice: Lcg64Xsh32,
    requests: List<Request>,
    places: Places,
    events: Book<S>,
    /// A lane found no memory. The others end.
    pub(crate) is_given_up: bool,
}

impl<S: Setting> Model for Desk<S> {
    ghost use Rattle.rex_live.specs.Lent.{state_of};
    ghost use Rattle.rex_live.specs.Desk.{DeskValue, IsDesk};

    ghost Value = { DeskValue };

    ghost view = { λ d. record {
      floor = record { history = d.history.items; state = state_of S.service d.history.items; dice = d.dice };
      out = d.out;
      begun = d.begun;
      given_up = d.is_given_up;
    } };

    ghost invariant = { λ d. IsDesk S.service S.requests d.requests S.dice d.events.total d.places d.kept
        (record { history = d.history.items; state = state_of S.service d.history.items; dice = d.dice }) d.out };
}

/// The places of the requests at a service's start.
fn first_places(
    alloc: Global,
    svc: &Checked,
    start: &State,
    requests: &[Request],
) -> Result<Places, AllocError>
    requires { length start.now.clients ≡ CLIENT_ENTRIES }
    ensures { IfOk result (λ places. HasPlaces svc.now requests.now start.now.clients places) }
{
    Places::new(alloc, svc.declarations(), requests, start.entries())
}

impl<S: Setting> Desk<S> {
    /// A desk with no events yet.
    pub(crate) fn open(
        alloc: Global,
        svc: &Checked,
        requests: List<Request>,
        seed: u64,
        events: Book<S>,
    ) -> Result<Desk<S>, AllocError>
        requires service { svc.now ≡ S.service }
        requires requests { requests ≡ S.requests }
        requires dice { spec.dice_of seed ≡ S.dice }
        requires events { events.total ≡ 0 }
        ensures floor { IfOk result (λ d. d.floor ≡ spec.opened S.service S.dice) }
        ensures out { IfOk result (λ d. d.out ≡ replicate LANES false) }
        ensures begun { IfOk result (λ d. d.begun ≡ replicate LANES false) }
        ensures given_up { IfOk result (λ d. d.given_up ≡ false) }
    {
        let kept = State::start(alloc, svc)?;
        let places = first_places(alloc, svc, &kept, requests.as_slice())?;
        Ok(Desk {
            history: Vec::new(alloc),
            kept,
            out: [false; LANES],
            waits: [false; LANES],
            begun: [false; LANES],
            dice: Lcg64Xsh32::new(seed, BALLOT),
            requests,
            places,
            events,
            is_given_up: false,
        })
    }

    /// How many events the history has.
    fn len(&self) -> usize
        ensures len { result ≡ length self.now.floor.history }
        ensures few { length self.now.floor.history ≤ HISTORY_EVENTS }
    {
        self.history.len()
    }

    /// The dice for the next random number.
    fn copied_dice(&self) -> Result<Lcg64Xsh32, AllocError>
        ensures { IfOk result (λ dice. dice ≡ self.now.floor.dice) }
    {
        self.dice.clone()
    }

    /// Whether the history is as long as may be.
    fn is_full(&self) -> bool
        ensures full { result ≡ nat_le HISTORY_EVENTS (length self.now.floor.history) }
        ensures end { result ≡ true → length self.now.floor.history ≡ HISTORY_EVENTS }
    {
        self.len() >= HISTORY_EVENTS
    }

    /// The event that a lane whose lines are run can make next, and the dice after it. It changes nothing.
    pub(crate) fn next_event(
        &self,
        svc: &Checked,
        lane: u8,
    ) -> Result<(Option<Event>, Lcg64Xsh32), AllocError>
        requires service { svc.now ≡ S.service }
        requires there { lane < S.service.lanes }
        requires back { is_out self.now.out lane ≡ false }
        ensures event { IfOk result (λ r. r.0 ≡ spec.next_event S.service S.requests self.now.floor lane) }
        ensures dice { IfOk result (λ r. r.1 ≡ spec.dice_behind S.service self.now.floor lane) }
    {
        let _service = svc.declarations();
        let mut dice = self.copied_dice()?;
        let event = lane_event(
            svc,
            &self.kept,
            self.requests.as_slice(),
            &self.places,
            lane,
            self.len(),
            &mut dice,
        );
        Ok((event, dice))
    }

    /// Records an event that is next, and answers it to the lane, whose lines are to be run then. Where memory is short
    /// nothing changes.
    fn record(
        &mut self,
        svc: &Checked,
        event: &Event,
        dice: Lcg64Xsh32,
        mine: &mut Share<S>,
    ) -> Result<(), AllocError>
        requires service { svc.now ≡ S.service }
        requires there { event.now.lane < S.service.lanes }
        requires back { is_out self.old.out event.now.lane ≡ false }
        requires next { spec.next_event S.service S.requests self.old.floor event.now.lane ≡ Some event.now }
        requires dice { dice ≡ spec.dice_behind S.service self.old.floor event.now.lane }
        requires few { length self.old.floor.history < HISTORY_EVENTS }
        requires part { 0 < mine.old.parts }
        ensures recorded { OnOk result (self.new.floor ≡ spec.recorded S.service self.old.floor event.now) }
        ensures begun { self.new.begun ≡ self.old.begun }
        ensures given_up { self.new.given_up ≡ self.old.given_up }
        ensures amount { OnOk result (mine.new.amount ≡ mine.old.amount + 1) }
        ensures parts { mine.new.parts ≡ mine.old.parts }
        ensures err { OnErr result ((self.new ≡ self.old) × (mine.new.amount ≡ mine.old.amount)) }
    {
        let service = svc.declarations();
        self.history.push(*event)?;
        begin_event(&mut self.kept, svc, event);
        self.places.follow(
            service,
            self.requests.as_slice(),
            self.kept.entries(),
            &event.kind,
        );
        self.out[event.lane as usize] = true;
        self.dice = dice;
        self.events.add(mine, 1);
        Ok(())
    }

    /// Runs a lane's lines here, if they are out.
    fn run_lines(&mut self, svc: &Checked, lane: u8)
        requires service { svc.now ≡ S.service }
        requires there { lane < S.service.lanes }
        ensures floor { self.new.floor ≡ self.old.floor }
        ensures back { self.new.out ≡ slice_set self.old.out lane false }
        ensures begun { self.new.begun ≡ self.old.begun }
        ensures given_up { self.new.given_up ≡ self.old.given_up }
    {
        let _service = svc.declarations();
        if self.out[lane as usize] {
            self.kept.run_lines(svc, lane);
            self.out[lane as usize] = false;
        }
    }

    /// Takes what a thread brings back for a lane, if it was lent what is kept, and runs the lane's lines otherwise.
    pub(crate) fn bring_back(&mut self, svc: &Checked, lane: u8, brought: Brought<S>)
        requires service { svc.now ≡ S.service }
        requires there { lane < S.service.lanes }
        ensures floor { self.new.floor ≡ self.old.floor }
        ensures back { self.new.out ≡ slice_set self.old.out lane false }
        ensures begun { self.new.begun ≡ self.old.begun }
        ensures given_up { self.new.given_up ≡ self.old.given_up }
    {
        let _service = svc.declarations();
        if self.out[lane as usize] {
            bring_back(&mut self.kept, svc, lane, brought);
            self.out[lane as usize] = false;
        }
    }

    /// Lends a lane's lines to the thread that made its event. They are run at once where they are none, or where memory is short.
    pub(crate) fn lend(&mut self, alloc: Global, svc: &Checked, lane: u8) -> Option<Segment<S>>
        requires service { svc.now ≡ S.service }
        requires there { lane < S.service.lanes }
        ensures floor { self.new.floor ≡ self.old.floor }
        ensures begun { self.new.begun ≡ self.old.begun }
        ensures given_up { self.new.given_up ≡ self.old.given_up }
    {
        match self.segment(alloc, svc, lane) {
            Some(segment) => Some(segment),
            None => {
                self.run_lines(svc, lane);
                None
            }
        }
    }

    /// Whether a lane has lines to run before its next event.
    fn has_lines(&self, svc: &Checked, lane: u8) -> bool
        requires service { svc.now ≡ S.service }
    {
        match self.kept.frame(lane) {
            Some(frame) => has_lines(frame, self.kept.variables(), svc),
            None => false,
        }
    }

    /// What a lane is lent, unless it has no lines to run or memory is short.
    fn segment(&self, alloc: Global, svc: &Checked, lane: u8) -> Option<Segment<S>>
        requires service { svc.now ≡ S.service }
    {
        let _service = svc.declarations();
        // A frame is copied only where it is lent.
        if !self.has_lines(svc, lane) {
            return None;
        }
        let frame = self.kept.copied_frame(lane)?;
        match self.kept.variables().to_vec(alloc) {
            Ok(values) => Some(Segment::new(frame, values)),
            Err(_) => None,
        }
    }

    /// A lane's turn, once its lines are run: the event that it makes, which is recorded and answered to it, if it can go
    /// on and the history isn't as long as may be. Where memory is short the floor stays as it is.
    pub(crate) fn turn(
        &mut self,
        svc: &Checked,
        lane: u8,
        mine: &mut Share<S>,
    ) -> Result<Option<Event>, AllocError>
        requires service { svc.now ≡ S.service }
        requires there { lane < S.service.lanes }
        requires part { 0 < mine.old.parts }
        ensures event { IfOk result (λ e. e ≡ spec.turn_at S.service S.requests self.old.floor lane) }
        ensures turned { IfOk result (λ e. self.new.floor ≡ spec.turned S.service self.old.floor e) }
        ensures answered { IfOk result (λ e. mine.new.amount ≡ mine.old.amount + spec.answered e) }
        ensures begun { self.new.begun ≡ self.old.begun }
        ensures given_up { self.new.given_up ≡ self.old.given_up }
        ensures parts { mine.new.parts ≡ mine.old.parts }
        ensures err { OnErr result ((self.new.floor ≡ self.old.floor) × (mine.new.amount ≡ mine.old.amount)) }
    {
        if self.is_full() {
            return Ok(None);
        }
        self.run_lines(svc, lane);
        let (next, dice) = self.next_event(svc, lane)?;
        if let Some(event) = &next {
            self.record(svc, event, dice, mine)?;
        }
        Ok(next)
    }

    /// How many events a lane made.
    pub(crate) fn done(&self, lane: u8) -> u32
        ensures { result ≡ (lane_of self.now.floor.state lane).done }
    {
        self.kept.done(lane)
    }

    /// Notes that a lane's thread has begun, and answers how many events of the lane there are by then.
    pub(crate) fn begin(&mut self, lane: u8) -> u32
        requires there { lane < LANES }
        ensures done { result ≡ (lane_of self.old.floor.state lane).done }
        ensures begun { self.new ≡ record self.old { begun = slice_set self.old.begun lane true } }
    {
        self.begun[lane as usize] = true;
        self.done(lane)
    }

    /// Ends the lanes at their next turn.
    pub(crate) fn give_up(&mut self)
        ensures { self.new ≡ record self.old { given_up = true } }
    {
        self.is_given_up = true;
    }

    /// Whether a lane's lines are out.
    fn is_any_out(&self, svc: &Checked) -> bool
        requires service { svc.now ≡ S.service }
        ensures { result ≡ true → MayGoOn S.service S.requests self.now.floor self.now.out }
    {
        for lane in 0..svc.declarations().lanes {
            if self.out[lane as usize] {
                return true;
            }
        }
        false
    }

    /// Whether no lane can go on, or the history is as long as may be. A lane whose lines are out may go on, which is quick
    /// to see.
    pub(crate) fn is_over(&self, svc: &Checked) -> Result<bool, AllocError>
        requires service { svc.now ≡ S.service }
        ensures over { IfOk result (λ over. over ≡ true → spec.IsOver S.service S.requests self.now.floor) }
        ensures goes_on { IfOk result (λ over. over ≡ false → MayGoOn S.service S.requests self.now.floor self.now.out) }
    {
        if self.is_full() {
            return Ok(true);
        }
        if self.is_any_out(svc) {
            return Ok(false);
        }
        for lane in 0..svc.declarations().lanes {
            if self.may_go_on(svc, lane)? {
                return Ok(false);
            }
        }
        Ok(true)
    }

    /// Whether a lane can go on, or its lines are out.
    pub(crate) fn may_go_on(&self, svc: &Checked, lane: u8) -> Result<bool, AllocError>
        requires service { svc.now ≡ S.service }
        requires there { lane < S.service.lanes }
        ensures back { IfOk result (λ may. may ≡ false → is_out self.now.out lane ≡ false) }
        ensures stays { IfOk result (λ may. may ≡ false → spec.next_event S.service S.requests self.now.floor lane ≡ None) }
        ensures may { IfOk result (λ may. may ≡ true → GoesOn S.service S.requests self.now.floor self.now.out lane) }
        ensures goes_on { IfOk result (λ may. may ≡ true → MayGoOn S.service S.requests self.now.floor self.now.out) }
    {
        let _service = svc.declarations();
        if self.out[lane as usize] {
            return Ok(true);
        }
        let (next, _) = self.next_event(svc, lane)?;
        Ok(next.is_some())
    }

    /// The whole history, once it is over. After want of memory the lanes may run again, by threads that have
    /// yet to begin.
    pub(crate) fn history(
        &mut self,
        alloc: Global,
        svc: &Checked,
        all: &mut Share<S>,
    ) -> Result<List<Event>, AllocError>
        requires service { svc.now ≡ S.service }
        requires whole { all.old.parts ≡ S.parts }
        ensures history { IfOk result (λ h. spec.IsHistory S.service S.requests S.dice h) }
        ensures answered { IfOk result (λ h. length h ≡ all.new.amount) }
        ensures parts { all.new.parts ≡ all.old.parts }
        ensures same { self.new ≡ record self.old { begun = replicate LANES false; given_up = false } }
    {
        self.is_given_up = false;
        self.begun = [false; LANES];
        self.events.audit(all);
        if self.is_over(svc)? {
            Ok(List::from_vec(self.history.to_vec(alloc)?))
        } else {
            Err(AllocError)
        }
    }
}
