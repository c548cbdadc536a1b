//! How a lane takes locks and gives them up.
ghost use Rattle.std.specs.Prelude.{◌≡◌, ◌≢◌, ◌≤◌, ◌<◌, ◌+◌, ◌*◌, ℕ, max, pos, true, false, length, slice_index_or};
ghost use Rattle.std.specs.Int.{cast_signed};
ghost use mir.Syntax.{w64};
ghost use Rattle.rex_event.specs.declared.event.Kind.TheVariants as kind;
ghost use Rattle.rex_event.specs.Order.{Has};
ghost use Rattle.rex_state.specs.Lines.{is_acquire, is_release, is_try};
ghost use Rattle.rex_words.specs.Alone.{service_of};
ghost use Rattle.rex_words.specs.Moment.{IsAssignment, guard, locks_in, variables_in};
ghost use Rattle.rex_words.specs.Words.{stamp_in, owner_in};
ghost use Rattle.rex_words.specs.Seats.{IsSeatOf};
ghost use Rattle.rex_words.specs.Turns.{IsSettled, StandsAt, IsPreparing, IsFetching, AreLoaded, IsPublishing};
ghost use Rattle.rex_words.specs.Turns.{IsAhead, HasFound, HasFailed, IsCounted, loads_of, failures_of};

use crate::limits::OTHER_EVENTS;
use crate::plays::{Acquire, Fetch, Look, Publish, Release, TakeByTry, Try};
use crate::seat::{LockWords, WordSeat};
use rex_syntax::checked::Checked;

/// The word with this stamp and this owner.
fn word_of(stamp: u64, owner: u64) -> u64
    requires { (stamp ≤ 64000001) × (owner < 128) }
    ensures { result ≡ stamp * 128 + owner }
{
    stamp * 128 + owner
}

/// The word that stands for the value of a variable.
pub(crate) fn word_for(values: &[i64], variable: usize) -> u64
    requires { variable < length values.now }
    ensures { cast_signed w64 result ≡ slice_index_or values.now variable (pos 0) }
{
    values[variable].cast_unsigned()
}

impl WordSeat {
    /// Loads the word of a lock that the lane is to acquire.
    pub(crate) fn look(&mut self, words: &LockWords, lock: u8) -> u64
        requires right { IsAssignment words.now.key }
        requires table { locks_in words.now.key + variables_in words.now.key < words.now.table_id.words }
        requires seat { IsSeatOf words.now.key words.now.table_id self.old }
        requires at { StandsAt words.now.key self.old is_acquire lock }
        ensures settled { IsSettled words.now.key words.now.table_id self.new }
        ensures rest { self.new ≡ record self.old { seat = self.new.seat } }
        ensures id { self.new.seat.id ≡ self.old.seat.id }
        ensures found { HasFound self.old self.new lock result }
        ensures failures { failures_of self.new ≡ failures_of self.old }
        ensures low { stamp_in result ≤ length self.old.events.items + OTHER_EVENTS }
    {
        words.load::<Look>(&mut self.seat, lock as usize)
    }

    /// Loads the word of a lock that the lane tries. Where it shows an owner the busy try is an event by then.
    pub(crate) fn look_to_try(&mut self, words: &LockWords, lock: u8) -> u64
        requires right { IsAssignment words.now.key }
        requires table { locks_in words.now.key + variables_in words.now.key < words.now.table_id.words }
        requires seat { IsSeatOf words.now.key words.now.table_id self.old }
        requires at { StandsAt words.now.key self.old is_try lock }
        ensures settled { owner_in result ≡ 0 → IsSettled words.now.key words.now.table_id self.new }
        ensures ahead { owner_in result ≢ 0 → IsAhead words.now.key words.now.table_id self.new (kind.TryBusy lock) (self.new.stamp + 1) }
        ensures rest { self.new ≡ record self.old { seat = self.new.seat } }
        ensures id { self.new.seat.id ≡ self.old.seat.id }
        ensures found { HasFound self.old self.new lock result }
        ensures failures { failures_of self.new ≡ failures_of self.old }
        ensures low { stamp_in result ≤ length self.old.events.items + OTHER_EVENTS }
    {
        words.load::<Try>(&mut self.seat, lock as usize)
    }

    /// Loads a variable of a lock whose word was noted.
    fn fetch(&mut self, words: &LockWords, locks: usize, variable: usize, lock: u8, word: u64)
        requires right { IsAssignment words.now.key }
        requires table { locks_in words.now.key + variables_in words.now.key < words.now.table_id.words }
        requires locks { locks ≡ locks_in words.now.key }
        requires there { (variable < variables_in words.now.key) × (guard words.now.key variable ≡ lock) }
        requires settled { IsSettled words.now.key words.now.table_id self.old }
        requires fetching { IsFetching words.now.key self.old lock word }
        ensures settled { IsSettled words.now.key words.now.table_id self.new }
        ensures fetching { IsFetching words.now.key self.new lock word }
        ensures preparing { IsPreparing self.old self.new }
        ensures loaded { Has variable self.new.seat.me.0.knows.loaded }
        ensures kept { (x : ℕ) → Has x self.old.seat.me.0.knows.loaded → Has x self.new.seat.me.0.knows.loaded }
    {
        let value = words
            .load::<Fetch>(&mut self.seat, locks + variable)
            .cast_signed();
        self.state.put_variable(variable, value);
    }

    /// Loads a variable, if its guard is the lock whose word was noted.
    fn fetch_if(
        &mut self,
        words: &LockWords,
        locks: usize,
        variable: usize,
        lock: u8,
        word: u64,
        wanted: bool,
    )
        requires right { IsAssignment words.now.key }
        requires table { locks_in words.now.key + variables_in words.now.key < words.now.table_id.words }
        requires locks { locks ≡ locks_in words.now.key }
        requires there { variable < variables_in words.now.key }
        requires wanted { wanted ≡ true → guard words.now.key variable ≡ lock }
        requires settled { IsSettled words.now.key words.now.table_id self.old }
        requires fetching { IsFetching words.now.key self.old lock word }
        ensures settled { IsSettled words.now.key words.now.table_id self.new }
        ensures fetching { IsFetching words.now.key self.new lock word }
        ensures preparing { IsPreparing self.old self.new }
        ensures loaded { wanted ≡ true → Has variable self.new.seat.me.0.knows.loaded }
        ensures kept { (x : ℕ) → Has x self.old.seat.me.0.knows.loaded → Has x self.new.seat.me.0.knows.loaded }
    {
        if wanted {
            self.fetch(words, locks, variable, lock, word);
        }
    }

    /// Loads the variables of a lock whose word was noted without an owner.
    pub(crate) fn fetch_all(&mut self, words: &LockWords, svc: &Checked, lock: u8, word: u64)
        requires right { IsAssignment words.now.key }
        requires table { locks_in words.now.key + variables_in words.now.key < words.now.table_id.words }
        requires service { svc.now ≡ service_of words.now.key }
        requires settled { IsSettled words.now.key words.now.table_id self.old }
        requires fetching { IsFetching words.now.key self.old lock word }
        ensures settled { IsSettled words.now.key words.now.table_id self.new }
        ensures fetching { IsFetching words.now.key self.new lock word }
        ensures preparing { IsPreparing self.old self.new }
        ensures loaded { AreLoaded words.now.key self.new lock (variables_in words.now.key) }
    {
        let service = svc.declarations();
        let locks = service.locks.len();
        let variables = service.variables.as_slice();
        for variable in 0..variables.len() {
            let wanted = variables[variable].guard == lock;
            self.fetch_if(words, locks, variable, lock, word, wanted);
        }
    }

    /// Exchanges the noted word of a lock for one with the lane as the owner, and gives what was found: where this is the
    /// noted word, the lane acquired the lock.
    pub(crate) fn acquire(&mut self, words: &LockWords, lock: u8, word: u64, stamp: u64) -> u64
        requires right { IsAssignment words.now.key }
        requires table { locks_in words.now.key + variables_in words.now.key < words.now.table_id.words }
        requires settled { IsSettled words.now.key words.now.table_id self.old }
        requires fetching { IsFetching words.now.key self.old lock word }
        requires at { StandsAt words.now.key self.old is_acquire lock }
        requires loaded { AreLoaded words.now.key self.old lock (variables_in words.now.key) }
        requires stamp { stamp ≡ max self.old.stamp (stamp_in word) + 1 }
        ensures ahead { result ≡ word → IsAhead words.now.key words.now.table_id self.new (kind.AcqEx lock) stamp }
        ensures failed { result ≢ word → HasFailed words.now.key words.now.table_id self.old self.new word result }
        ensures rest { self.new ≡ record self.old { seat = self.new.seat } }
        ensures counts { IsCounted self.old self.new lock word }
    {
        let new = word_of(stamp, self.lane as u64 + 1);
        words.compare_exchange::<Acquire>(&mut self.seat, lock as usize, word, new)
    }

    /// The same at a try.
    pub(crate) fn take_by_try(&mut self, words: &LockWords, lock: u8, word: u64, stamp: u64) -> u64
        requires right { IsAssignment words.now.key }
        requires table { locks_in words.now.key + variables_in words.now.key < words.now.table_id.words }
        requires settled { IsSettled words.now.key words.now.table_id self.old }
        requires fetching { IsFetching words.now.key self.old lock word }
        requires at { StandsAt words.now.key self.old is_try lock }
        requires loaded { AreLoaded words.now.key self.old lock (variables_in words.now.key) }
        requires stamp { stamp ≡ max self.old.stamp (stamp_in word) + 1 }
        ensures ahead { result ≡ word → IsAhead words.now.key words.now.table_id self.new (kind.TryOk lock) stamp }
        ensures failed { result ≢ word → HasFailed words.now.key words.now.table_id self.old self.new word result }
        ensures rest { self.new ≡ record self.old { seat = self.new.seat } }
        ensures counts { IsCounted self.old self.new lock word }
    {
        let new = word_of(stamp, self.lane as u64 + 1);
        words.compare_exchange::<TakeByTry>(&mut self.seat, lock as usize, word, new)
    }

    /// Stores a variable of a lock that the lane is to give up.
    fn publish(&mut self, words: &LockWords, locks: usize, variable: usize, lock: u8)
        requires right { IsAssignment words.now.key }
        requires table { locks_in words.now.key + variables_in words.now.key < words.now.table_id.words }
        requires locks { locks ≡ locks_in words.now.key }
        requires there { (variable < variables_in words.now.key) × (guard words.now.key variable ≡ lock) }
        requires publishing { IsPublishing words.now.key words.now.table_id self.old lock variable }
        ensures publishing { IsPublishing words.now.key words.now.table_id self.new lock (variable + 1) }
        ensures preparing { IsPreparing self.old self.new }
    {
        let word = word_for(self.state.variables(), variable);
        words.store::<Publish>(&mut self.seat, locks + variable, word);
    }

    /// Stores a variable, if its guard is the lock that the lane is to give up.
    fn publish_if(
        &mut self,
        words: &LockWords,
        locks: usize,
        variable: usize,
        lock: u8,
        wanted: bool,
    )
        requires right { IsAssignment words.now.key }
        requires table { locks_in words.now.key + variables_in words.now.key < words.now.table_id.words }
        requires locks { locks ≡ locks_in words.now.key }
        requires there { variable < variables_in words.now.key }
        requires wanted { (wanted ≡ true → guard words.now.key variable ≡ lock) × (wanted ≡ false → guard words.now.key variable ≢ lock) }
        requires publishing { IsPublishing words.now.key words.now.table_id self.old lock variable }
        ensures publishing { IsPublishing words.now.key words.now.table_id self.new lock (variable + 1) }
        ensures preparing { IsPreparing self.old self.new }
    {
        if wanted {
            self.publish(words, locks, variable, lock);
        }
    }

    /// Stores the variables of a lock that the lane is to give up.
    pub(crate) fn publish_all(&mut self, words: &LockWords, svc: &Checked, lock: u8)
        requires right { IsAssignment words.now.key }
        requires table { locks_in words.now.key + variables_in words.now.key < words.now.table_id.words }
        requires service { svc.now ≡ service_of words.now.key }
        requires seat { IsSeatOf words.now.key words.now.table_id self.old }
        requires at { StandsAt words.now.key self.old is_release lock }
        ensures publishing { IsPublishing words.now.key words.now.table_id self.new lock (variables_in words.now.key) }
        ensures preparing { IsPreparing self.old self.new }
    {
        let service = svc.declarations();
        let locks = service.locks.len();
        let variables = service.variables.as_slice();
        for variable in 0..variables.len() {
            let wanted = variables[variable].guard == lock;
            self.publish_if(words, locks, variable, lock, wanted);
        }
    }

    /// Stores a greater stamp without an owner in the word of a lock, whose variables are stored: the lane gives it up.
    pub(crate) fn release(&mut self, words: &LockWords, lock: u8, stamp: u64)
        requires right { IsAssignment words.now.key }
        requires table { locks_in words.now.key + variables_in words.now.key < words.now.table_id.words }
        requires publishing { IsPublishing words.now.key words.now.table_id self.old lock (variables_in words.now.key) }
        requires stamp { stamp ≡ self.old.stamp + 1 }
        ensures ahead { IsAhead words.now.key words.now.table_id self.new (kind.RelEx lock) stamp }
        ensures rest { self.new ≡ record self.old { seat = self.new.seat } }
        ensures id { self.new.seat.id ≡ self.old.seat.id }
        ensures loads { loads_of self.new ≡ loads_of self.old }
    {
        let new = word_of(stamp, 0);
        words.store::<Release>(&mut self.seat, lock as usize, new);
    }
}
