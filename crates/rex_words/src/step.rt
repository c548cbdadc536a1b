//! A step on the words.
ghost use Rattle.std.specs.Prelude.{◌≡◌, ◌≤◌, ◌<◌, ◌+◌};
ghost use Rattle.rex_record.specs.Turn.{event_at};
ghost use Rattle.rex_state.specs.Lines.{is_acquire, is_release, is_try};
ghost use Rattle.rex_state.specs.Machine.{frame_at};
ghost use Rattle.rex_words.specs.Alone.{service_of};
ghost use Rattle.rex_words.specs.Moment.{IsAssignment, locks_in, variables_in};
ghost use Rattle.rex_words.specs.Choice.{choice_of};
ghost use Rattle.rex_words.specs.declared.choice.Choice.TheVariants as choice;
ghost use Rattle.rex_words.specs.Seats.{IsSeatOf, IsAppended};
ghost use Rattle.rex_words.specs.Turns.{StandsAt, IsAhead, Turned};
ghost use Rattle.rex_words.specs.Tables.{IsWords, assignment_of, table_of};

use crate::choice::Choice;
use crate::seat::{LockWords, WordSeat};
use crate::table::{WordTurn, Words};
use rex_event::{Event, Kind};
use rex_syntax::checked::Checked;

impl WordSeat {
    /// Keeps an event that the seat's view has by now.
    fn catch_up(&mut self, words: &LockWords, svc: &Checked, kind: Kind, stamp: u64) -> Event
        requires right { IsAssignment words.now.key }
        requires service { svc.now ≡ service_of words.now.key }
        requires ahead { IsAhead words.now.key words.now.table_id self.old kind stamp }
        ensures seat { IsSeatOf words.now.key words.now.table_id self.new }
        ensures event { result ≡ event_at self.old.state self.old.lane kind }
        ensures appended { IsAppended svc.now self.old self.new result stamp }
    {
        self.append(svc, kind, stamp)
    }

    /// Does an event for which the lane needs no lock's word.
    fn do_alone(&mut self, words: &LockWords, svc: &Checked, kind: Kind) -> Event
        requires right { IsAssignment words.now.key }
        requires service { svc.now ≡ service_of words.now.key }
        requires seat { IsSeatOf words.now.key words.now.table_id self.old }
        requires alone { choice_of svc.now self.old (frame_at self.old.state self.old.lane) ≡ choice.Alone kind }
        ensures seat { IsSeatOf words.now.key words.now.table_id self.new }
        ensures event { result ≡ event_at self.old.state self.old.lane kind }
        ensures appended { IsAppended svc.now self.old self.new result (self.old.stamp + 1) }
    {
        let stamp = self.stamp + 1;
        self.append(svc, kind, stamp)
    }

    /// The lane stands at an acquire.
    fn turn_at_acquire(&mut self, words: &LockWords, svc: &Checked, lock: u8) -> WordTurn
        requires right { IsAssignment words.now.key }
        requires table { locks_in words.now.key + variables_in words.now.key < words.now.table_id.words }
        requires service { svc.now ≡ service_of words.now.key }
        requires seat { IsSeatOf words.now.key words.now.table_id self.old }
        requires at { StandsAt words.now.key self.old is_acquire lock }
        ensures seat { IsSeatOf words.now.key words.now.table_id self.new }
        ensures id { self.new.seat.id ≡ self.old.seat.id }
        ensures lane { self.new.lane ≡ self.old.lane }
        ensures turn { Turned words.now.key self.old self.new result }
    {
        let seen = self.look(words, lock);
        let by = (seen % 128) as u8;
        if by != 0 {
            return WordTurn::Held { by, seen };
        }
        self.fetch_all(words, svc, lock, seen);
        let stamp = self.stamp.max(seen / 128) + 1;
        let found = self.acquire(words, lock, seen, stamp);
        if found == seen {
            WordTurn::Done(self.catch_up(words, svc, Kind::AcqEx { lock }, stamp))
        } else {
            WordTurn::Again {
                had: seen,
                seen: found,
            }
        }
    }

    /// The lane stands at a try.
    fn turn_at_try(&mut self, words: &LockWords, svc: &Checked, lock: u8) -> WordTurn
        requires right { IsAssignment words.now.key }
        requires table { locks_in words.now.key + variables_in words.now.key < words.now.table_id.words }
        requires service { svc.now ≡ service_of words.now.key }
        requires seat { IsSeatOf words.now.key words.now.table_id self.old }
        requires at { StandsAt words.now.key self.old is_try lock }
        ensures seat { IsSeatOf words.now.key words.now.table_id self.new }
        ensures id { self.new.seat.id ≡ self.old.seat.id }
        ensures lane { self.new.lane ≡ self.old.lane }
        ensures turn { Turned words.now.key self.old self.new result }
    {
        let seen = self.look_to_try(words, lock);
        if seen % 128 != 0 {
            let stamp = self.stamp + 1;
            return WordTurn::Done(self.catch_up(words, svc, Kind::TryBusy { lock }, stamp));
        }
        self.fetch_all(words, svc, lock, seen);
        let stamp = self.stamp.max(seen / 128) + 1;
        let found = self.take_by_try(words, lock, seen, stamp);
        if found == seen {
            WordTurn::Done(self.catch_up(words, svc, Kind::TryOk { lock }, stamp))
        } else {
            WordTurn::Again {
                had: seen,
                seen: found,
            }
        }
    }

    /// The lane stands at a release.
    fn turn_at_release(&mut self, words: &LockWords, svc: &Checked, lock: u8) -> WordTurn
        requires right { IsAssignment words.now.key }
        requires table { locks_in words.now.key + variables_in words.now.key < words.now.table_id.words }
        requires service { svc.now ≡ service_of words.now.key }
        requires seat { IsSeatOf words.now.key words.now.table_id self.old }
        requires at { StandsAt words.now.key self.old is_release lock }
        ensures seat { IsSeatOf words.now.key words.now.table_id self.new }
        ensures id { self.new.seat.id ≡ self.old.seat.id }
        ensures lane { self.new.lane ≡ self.old.lane }
        ensures turn { Turned words.now.key self.old self.new result }
    {
        self.publish_all(words, svc, lock);
        let stamp = self.stamp + 1;
        self.release(words, lock, stamp);
        WordTurn::Done(self.catch_up(words, svc, Kind::RelEx { lock }, stamp))
    }
}

impl<'a> Words<'a> {
    /// Tries the next event of a seat's lane. It takes no lock and no memory.
    pub fn step(&self, me: &mut WordSeat) -> WordTurn
        requires words { IsWords self.now }
        requires seat { IsSeatOf (assignment_of self.now) (table_of self.now) me.old }
        ensures seat { IsSeatOf (assignment_of self.now) (table_of self.now) me.new }
        ensures id { me.new.seat.id ≡ me.old.seat.id }
        ensures lane { me.new.lane ≡ me.old.lane }
        ensures turn { Turned (assignment_of self.now) me.old me.new result }
    {
        let words = &self.table.shared;
        match me.choice(self.svc) {
            Choice::Idle => WordTurn::Idle,
            Choice::Full => WordTurn::Full,
            Choice::Alone(kind) => WordTurn::Done(me.do_alone(words, self.svc, kind)),
            Choice::Acquire(lock) => me.turn_at_acquire(words, self.svc, lock),
            Choice::Try(lock) => me.turn_at_try(words, self.svc, lock),
            Choice::Release(lock) => me.turn_at_release(words, self.svc, lock),
        }
    }
}
