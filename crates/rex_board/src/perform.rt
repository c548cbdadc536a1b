//! How a lane does an event.
ghost use Rattle.std.specs.Prelude.{◌≡◌, ◌≤◌, ◌<◌, ◌+◌, ◌^◌, ℕ, length};
ghost use Rattle.rex_state.specs.Local.{Takes, GivesUp};
ghost use Rattle.rex_board.specs.Recorded.{service_of, variables_in};
ghost use Rattle.rex_board.specs.Moment.{HoldsAlone};
ghost use Rattle.rex_board.specs.Turns.{IsReady, IsLater, AreLoaded, AreStored, IsStore, loads_of};

use crate::plays::Perform;
use crate::seat::{LaneSeat, Words};
use rex_event::{Event, LANES};
use rex_state::do_own;
use rex_syntax::checked::Checked;

impl LaneSeat {
    /// Does the lane's next event, whose causes are known to be done: the store of the lane's word is the moment, and
    /// then the lane's own frame and copies go on to its next event.
    pub(crate) fn perform(&mut self, words: &Words, svc: &Checked, event: &Event)
        requires table { (self.old.seat.table_id ≡ words.now.table_id) × (words.now.table_id.words ≡ LANES + variables_in words.now.key)
            × (self.old.seat.me.0.key ≡ words.now.key) × (self.old.lane < LANES) }
        requires service { svc.now ≡ service_of words.now.key }
        requires ready { IsReady words.now.key self.old event.now }
        requires loaded { (lock : ℕ) → Takes event.now lock → AreLoaded words.now.key self.old lock (variables_in words.now.key) }
        requires stored { (lock : ℕ) → GivesUp event.now lock → HoldsAlone self.old.frame lock
            → AreStored words.now.key self.old lock (variables_in words.now.key) }
        requires counted { event.now.index + 1 < 2 ^ 32 }
        requires wide { length self.old.copies.items ≡ variables_in words.now.key }
        ensures later { IsLater self.old self.new }
        ensures done { self.new.done ≡ self.old.done + 1 }
        ensures place { self.new.place ≡ self.old.place }
        ensures bounds { self.new.bounds ≡ self.old.bounds }
        ensures loads { loads_of self.new ≡ loads_of self.old }
        ensures store { IsStore self.new event.now }
        ensures wide { length self.new.copies.items ≡ variables_in words.now.key }
    {
        let _service = svc.declarations();
        words.store::<Perform>(&mut self.seat, self.lane as usize, self.done as u64 + 1);
        self.done += 1;
        do_own(&mut self.frame, &mut self.copies, svc, &event.kind);
    }
}
