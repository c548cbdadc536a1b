//! A step on the board.
ghost use Rattle.std.specs.Prelude.{◌≡◌, ◌≤◌, ◌<◌, ◌+◌, ◌^◌, ℕ, Some, length, MatchOption};
ghost use Rattle.rex_state.specs.Local.{Takes, GivesUp};
ghost use Rattle.rex_board.specs.Recorded.{service_of, variables_in};
ghost use Rattle.rex_board.specs.Turns.{IsReady, IsSeatOf, IsLater, IsPreparing, IsStore, AreLoaded, AreStored};
ghost use Rattle.rex_board.specs.Moment.{HoldsAlone};
ghost use Rattle.rex_board.specs.Turned.{Turned};
ghost use Rattle.rex_board.specs.Boards.{IsBoard, recording_of, table_of};

use crate::board::{Board, BoardTurn};
use crate::places::next_place;
use crate::seat::{LaneSeat, Words};
use rex_event::{Event, Kind, LANES};
use rex_syntax::checked::Checked;
use rex_syntax::locks::LOCKS;

/// The lock that an event takes, in some mode.
fn taken_lock(event: &Event) -> Option<u8>
    ensures taken { MatchOption result ((lock : ℕ) → Takes event.now lock → ⊥) (λ lock. Takes event.now lock
        × ((other : ℕ) → Takes event.now other → other ≡ lock)) }
{
    match event.kind {
        Kind::AcqEx { lock }
        | Kind::AcqSh { lock }
        | Kind::TryOk { lock }
        | Kind::Wake { lock, .. } => Some(lock),
        _ => None,
    }
}

/// The lock that an event gives up.
fn released_lock(event: &Event) -> Option<u8>
    ensures released { MatchOption result ((lock : ℕ) → GivesUp event.now lock → ⊥) (λ lock. GivesUp event.now lock
        × ((other : ℕ) → GivesUp event.now other → other ≡ lock)) }
{
    match event.kind {
        Kind::RelEx { lock } | Kind::RelSh { lock } | Kind::Wait { lock, .. } => Some(lock),
        _ => None,
    }
}

impl LaneSeat {
    /// Does the lane's next event, whose causes are known to be done: it first loads the variables whose guard the event
    /// takes, and stores those whose guard it gives up.
    fn do_event(&mut self, words: &Words, svc: &Checked, event: &Event)
        requires table { (self.old.seat.table_id ≡ words.now.table_id) × (words.now.table_id.words ≡ LANES + variables_in words.now.key)
            × (self.old.seat.me.0.key ≡ words.now.key) × (self.old.lane < LANES) }
        requires service { svc.now ≡ service_of words.now.key }
        requires ready { IsReady words.now.key self.old event.now }
        requires names { (lock : ℕ) → GivesUp event.now lock → lock < LOCKS }
        requires counted { event.now.index + 1 < 2 ^ 32 }
        requires wide { length self.old.copies.items ≡ variables_in words.now.key }
        ensures later { IsLater self.old self.new }
        ensures done { self.new.done ≡ self.old.done + 1 }
        ensures place { self.new.place ≡ self.old.place }
        ensures bounds { self.new.bounds ≡ self.old.bounds }
        ensures store { IsStore self.new event.now }
        ensures wide { length self.new.copies.items ≡ variables_in words.now.key }
    {
        self.prepare_taken(words, svc, event);
        self.prepare_released(words, svc, event);
        self.perform(words, svc, event);
    }

    /// Loads the variables whose guard the event takes.
    fn prepare_taken(&mut self, words: &Words, svc: &Checked, event: &Event)
        requires table { (self.old.seat.table_id ≡ words.now.table_id) × (words.now.table_id.words ≡ LANES + variables_in words.now.key) }
        requires service { svc.now ≡ service_of words.now.key }
        requires ready { IsReady words.now.key self.old event.now }
        requires wide { length self.old.copies.items ≡ variables_in words.now.key }
        ensures preparing { IsPreparing self.old self.new }
        ensures loaded { (lock : ℕ) → Takes event.now lock → AreLoaded words.now.key self.new lock (variables_in words.now.key) }
    {
        if let Some(lock) = taken_lock(event) {
            self.fetch_all(words, svc, event, lock);
        }
    }

    /// Stores the variables whose guard the event gives up, if the lane holds it exclusively.
    fn prepare_released(&mut self, words: &Words, svc: &Checked, event: &Event)
        requires table { (self.old.seat.table_id ≡ words.now.table_id) × (words.now.table_id.words ≡ LANES + variables_in words.now.key) }
        requires service { svc.now ≡ service_of words.now.key }
        requires names { (lock : ℕ) → GivesUp event.now lock → lock < LOCKS }
        requires wide { length self.old.copies.items ≡ variables_in words.now.key }
        ensures preparing { IsPreparing self.old self.new }
        ensures stored { (lock : ℕ) → GivesUp event.now lock → HoldsAlone self.old.frame lock
            → AreStored words.now.key self.new lock (variables_in words.now.key) }
    {
        if let Some(lock) = released_lock(event) {
            self.publish_all(words, svc, lock);
        }
    }
}

impl<'a> Board<'a> {
    /// Tries the next event of a seat's lane. Its causes are looked at in their order, and the lane's word is loaded of those
    /// alone that aren't known to be done. The event happens at the one store of the lane's word. It takes no lock and no
    /// memory.
    pub fn step(&self, me: &mut LaneSeat) -> BoardTurn
        requires board { IsBoard self.now }
        requires seat { IsSeatOf (recording_of self.now) (table_of self.now) me.old }
        ensures seat { IsSeatOf (recording_of self.now) (table_of self.now) me.new }
        ensures later { IsLater me.old me.new }
        ensures turn { Turned (recording_of self.now) me.old me.new result }
    {
        let words = &self.table.shared;
        if me.place == self.events.len() {
            return BoardTurn::Finished;
        }
        let event = self.events[me.place];
        if let Some((cause, seen)) = me.first_missing(words, self.causes[me.place].as_slice()) {
            return BoardTurn::Blocked {
                lane: cause.lane,
                index: cause.index,
                seen,
            };
        }
        me.do_event(words, self.svc, &event);
        me.place = next_place(self.event_lanes.as_slice(), me.place + 1, me.lane);
        BoardTurn::Done(event)
    }
}
