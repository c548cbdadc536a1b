//! A lane's try of an event under a floor's lock, by its own thread or another lane's, and what is to be done after it.

ghost use Rattle.std.specs.Prelude.{◌≡◌, ◌+◌, ◌<◌, ◌≤◌, IfErr, IfNone, IfOk, IfSome, IsErrOf, IsOkUnless, IsSome, OnErr, OnOk, OnSome, is_some, None};
ghost use Rattle.std.specs.Prelude.{true, false};
ghost use Rattle.rex_live.specs.Desk.{HasNoTurn, IsAbsent, NoneIsAbsent, has_begun};
ghost use Rattle.rex_live.specs.Halting.{Halts};
ghost use Rattle.rex_live.specs.Floor as spec;
ghost use Rattle.rex_live.specs.Lent.{is_out};

use crate::desk::Desk;
use crate::needs::{Need, lane_after, left_by, needs};
use crate::segment::Segment;
use crate::setting::Setting;
use rex_event::{Event, Kind};
use rex_syntax::checked::Checked;
use std::alloc::{AllocError, Global};
use std::sync::ledger::Share;

/// What a lane's event leaves to do outside the lock.
#[derive(Drop)]
pub(crate) struct Made<S: Setting> {
    /// The lane's lines up to its next event, which are lent to the thread that made this one, unless there are none.
    pub(crate) lent: Option<Segment<S>>,
    /// A lane that waited and can go on now, if there is one. It has to be woken.
    pub(crate) woken: Option<u8>,
}

/// Why a lane made no event.
#[derive(Clone, Copy, PartialEq, Eq)]
pub(crate) enum Halt {
    /// It can't go on, and this lane may, whose thread hasn't begun. Its thread makes that lane's event.
    Absent { lane: u8 },
    /// It can't go on, nor can a lane whose thread hasn't begun, and another lane may. It waits.
    Stays,
    /// No lane can go on, or the history is as long as may be. The lane ends, and the others with it.
    Over,
    /// A lane found no memory, this one or another. The lane ends, and the others with it.
    GaveUp,
}

impl<S: Setting> Desk<S> {
    /// Whether a lane may go on whose thread hasn't begun.
    fn is_absent(&self, svc: &Checked, lane: u8) -> Result<bool, AllocError>
        requires service { svc.now ≡ S.service }
        requires there { lane < S.service.lanes }
        ensures absent { IfOk result (λ is. is ≡ true → IsAbsent S.service S.requests self.now.floor self.now.out self.now.begun lane) }
        ensures back { IfOk result (λ is. is ≡ false → has_begun self.now.begun lane ≡ false → is_out self.now.out lane ≡ false) }
        ensures stays { IfOk result (λ is. is ≡ false → has_begun self.now.begun lane ≡ false
            → spec.next_event S.service S.requests self.now.floor lane ≡ None) }
    {
        let _service = svc.declarations();
        if !self.begun[lane as usize] {
            return self.may_go_on(svc, lane);
        }
        Ok(false)
    }

    /// The first lane that may go on and whose thread hasn't begun, if there is one.
    fn first_absent(&self, svc: &Checked) -> Result<Option<u8>, AllocError>
        requires service { svc.now ≡ S.service }
        ensures absent { IfOk result (λ found. IfSome found (IsAbsent S.service S.requests self.now.floor self.now.out self.now.begun)) }
        ensures none { IfOk result (λ found. IfNone found (NoneIsAbsent S.service S.requests self.now.floor self.now.out self.now.begun)) }
    {
        for lane in 0..svc.declarations().lanes {
            if self.is_absent(svc, lane)? {
                return Ok(Some(lane));
            }
        }
        Ok(None)
    }

    /// Why a lane that can't go on makes no event.
    fn halt(&self, svc: &Checked) -> Result<Halt, AllocError>
        requires service { svc.now ≡ S.service }
        ensures { IfOk result (Halts S.service S.requests self.now) }
    {
        if self.is_over(svc)? {
            return Ok(Halt::Over);
        }
        match self.first_absent(svc)? {
            Some(lane) => Ok(Halt::Absent { lane }),
            None => Ok(Halt::Stays),
        }
    }

    /// Why a lane that can't go on makes no event. It waits, where nothing else is to be done.
    fn stay(&mut self, svc: &Checked, lane: u8) -> Halt
        requires service { svc.now ≡ S.service }
        requires there { lane < S.service.lanes }
        ensures floor { self.new.floor ≡ self.old.floor }
        ensures out { self.new.out ≡ self.old.out }
        ensures begun { self.new.begun ≡ self.old.begun }
        ensures halts { Halts S.service S.requests self.new result }
        ensures given_up { self.old.given_up ≡ false → self.new.given_up ≡ true → result ≡ Halt.GaveUp }
    {
        let _service = svc.declarations();
        match self.halt(svc) {
            Ok(Halt::Stays) => {
                self.waits[lane as usize] = true;
                Halt::Stays
            }
            Ok(halt) => halt,
            Err(_) => {
                self.give_up();
                Halt::GaveUp
            }
        }
    }

    /// Whether a lane waits that can go on by what an event left.
    fn can_take(&self, svc: &Checked, lane: u8, left: Need) -> bool
        requires service { svc.now ≡ S.service }
        requires there { lane < S.service.lanes }
    {
        let _service = svc.declarations();
        if !self.waits[lane as usize] || self.out[lane as usize] {
            return false;
        }
        match self.next_event(svc, lane) {
            Ok((Some(event), _)) => needs(&event.kind, left),
            Ok((None, _)) => false,
            Err(_) => true,
        }
    }

    /// The first lane after another one that waits and can go on by what an event of that one left, if there is one. It is
    /// awake from now on.
    fn woken_by(&mut self, svc: &Checked, lane: u8, kind: &Kind) -> Option<u8>
        requires service { svc.now ≡ S.service }
        requires there { lane < S.service.lanes }
        ensures { self.new ≡ self.old }
    {
        let left = left_by(kind)?;
        let lanes = svc.declarations().lanes;
        for places in 1..lanes {
            let other = lane_after(lane, places, lanes);
            if self.can_take(svc, other, left) {
                self.waits[other as usize] = false;
                return Some(other);
            }
        }
        None
    }

    /// What an event of a lane leaves to do.
    fn made(&mut self, alloc: Global, svc: &Checked, lane: u8, event: &Event) -> Made<S>
        requires service { svc.now ≡ S.service }
        requires there { lane < S.service.lanes }
        ensures floor { self.new.floor ≡ self.old.floor }
        ensures begun { self.new.begun ≡ self.old.begun }
        ensures given_up { self.new.given_up ≡ self.old.given_up }
    {
        let lent = self.lend(alloc, svc, lane);
        let woken = self.woken_by(svc, lane, &event.kind);
        Made { lent, woken }
    }

    /// A lane's turn, and what its event leaves to do, if it makes one. Where memory is short the lanes end.
    fn try_turn(
        &mut self,
        alloc: Global,
        svc: &Checked,
        lane: u8,
        mine: &mut Share<S>,
    ) -> Result<Option<Made<S>>, Halt>
        requires service { svc.now ≡ S.service }
        requires there { lane < S.service.lanes }
        requires part { 0 < mine.old.parts }
        ensures event { IfOk result (λ made. is_some made ≡ is_some (spec.turn_at S.service S.requests self.old.floor lane)) }
        ensures turned { OnOk result (self.new.floor ≡ spec.turned S.service self.old.floor (spec.turn_at S.service S.requests self.old.floor lane)) }
        ensures answered { IfOk result (λ made. mine.new.amount ≡ mine.old.amount + spec.answered (spec.turn_at S.service S.requests self.old.floor lane)) }
        ensures parts { mine.new.parts ≡ mine.old.parts }
        ensures begun { self.new.begun ≡ self.old.begun }
        ensures given_up { OnOk result (self.new.given_up ≡ false) }
        ensures same { OnErr result ((self.new.floor ≡ self.old.floor) × (mine.new.amount ≡ mine.old.amount)) }
        ensures gave_up { OnErr result (self.new.given_up ≡ true) }
        ensures cause { IsOkUnless result Halt.GaveUp }
    {
        let _service = svc.declarations();
        if self.is_given_up {
            return Err(Halt::GaveUp);
        }
        match self.turn(svc, lane, mine) {
            Ok(Some(event)) => Ok(Some(self.made(alloc, svc, lane, &event))),
            Ok(None) => Ok(None),
            Err(_) => {
                self.give_up();
                Err(Halt::GaveUp)
            }
        }
    }

    /// A lane's try: its turn, what is left to do where it makes an event, and why it makes none.
    pub(crate) fn step(
        &mut self,
        alloc: Global,
        svc: &Checked,
        lane: u8,
        mine: &mut Share<S>,
    ) -> Result<Made<S>, Halt>
        requires service { svc.now ≡ S.service }
        requires there { lane < S.service.lanes }
        requires part { 0 < mine.old.parts }
        ensures event { OnOk result (IsSome (spec.turn_at S.service S.requests self.old.floor lane)) }
        ensures turned { OnOk result (self.new.floor ≡ spec.turned S.service self.old.floor (spec.turn_at S.service S.requests self.old.floor lane)) }
        ensures answered { OnOk result (mine.new.amount ≡ mine.old.amount + 1) }
        ensures parts { mine.new.parts ≡ mine.old.parts }
        ensures begun { self.new.begun ≡ self.old.begun }
        ensures same { OnErr result ((self.new.floor ≡ self.old.floor) × (mine.new.amount ≡ mine.old.amount)) }
        ensures none { OnErr result (self.new.given_up ≡ false → spec.turn_at S.service S.requests self.old.floor lane ≡ None) }
        ensures halts { IfErr result (Halts S.service S.requests self.new) }
        ensures given_up { self.new.given_up ≡ true → IsErrOf result Halt.GaveUp }
    {
        let _service = svc.declarations();
        self.waits[lane as usize] = false;
        match self.try_turn(alloc, svc, lane, mine) {
            Ok(Some(made)) => Ok(made),
            Ok(None) => Err(self.stay(svc, lane)),
            Err(halt) => Err(halt),
        }
    }

    /// A try for a lane whose thread hasn't begun, by another lane's thread: what is left to do where it makes an event. It makes
    /// none where the lane's thread has begun meanwhile, since one that fell asleep would not be woken for what comes next.
    pub(crate) fn step_for(
        &mut self,
        alloc: Global,
        svc: &Checked,
        lane: u8,
        mine: &mut Share<S>,
    ) -> Option<Made<S>>
        requires service { svc.now ≡ S.service }
        requires there { lane < S.service.lanes }
        requires part { 0 < mine.old.parts }
        ensures absent { OnSome result (has_begun self.old.begun lane ≡ false) }
        ensures event { OnSome result (IsSome (spec.turn_at S.service S.requests self.old.floor lane)) }
        ensures turned { OnSome result (self.new.floor ≡ spec.turned S.service self.old.floor (spec.turn_at S.service S.requests self.old.floor lane)) }
        ensures answered { OnSome result (mine.new.amount ≡ mine.old.amount + 1) }
        ensures parts { mine.new.parts ≡ mine.old.parts }
        ensures begun { self.new.begun ≡ self.old.begun }
        ensures same { IfNone result ((self.new.floor ≡ self.old.floor) × (mine.new.amount ≡ mine.old.amount)) }
        ensures none { IfNone result (HasNoTurn S.service S.requests self.old.floor self.new.begun self.new.given_up lane) }
    {
        let _service = svc.declarations();
        if self.begun[lane as usize] {
            return None;
        }
        match self.try_turn(alloc, svc, lane, mine) {
            Ok(made) => made,
            Err(_) => None,
        }
    }
}
