//! One more event of a lane.
ghost use Rattle.std.specs.Prelude.{◌≡◌, ◌<◌, ◌+◌, ◌^◌, IsSome, length, vec_len, vec_capacity};
ghost use Rattle.rex_record.specs.Turn.{event_at};
ghost use Rattle.rex_state.specs.Machine.{next, lane_of};
ghost use Rattle.rex_state.specs.Sound.{IsSound};
ghost use Rattle.rex_words.specs.Seats.{moved_on, IsAppended};

use crate::seat::WordSeat;
use crate::stamped::Stamped;
use rand_core::utils::NextWord;
use rex_event::{Event, Kind};
use rex_syntax::checked::Checked;

impl WordSeat {
    /// Moves on the lane's next request and random number by an event.
    fn move_on(&mut self, kind: &Kind)
        requires { self.old.begun + 1 < 2 ^ 64 }
        ensures { self.new ≡ moved_on kind.now self.old }
    {
        match kind {
            Kind::Begin { .. } => self.begun += 1,
            Kind::Random { .. } => self.random = self.dice.next_word(),
            _ => {}
        }
    }

    /// Does the lane's next event, with a stamp. There is room for it.
    pub(crate) fn append(&mut self, svc: &Checked, kind: Kind, stamp: u64) -> Event
        requires sound { IsSound svc.now self.old.state }
        requires next { IsSome (next svc.now self.old.state (event_at self.old.state self.old.lane kind)) }
        requires count { (lane_of self.old.state self.old.lane).done + 1 < 2 ^ 32 }
        requires begun { self.old.begun + 1 < 2 ^ 64 }
        requires room { vec_len self.old.events < vec_capacity self.old.events }
        ensures event { result ≡ event_at self.old.state self.old.lane kind }
        ensures appended { IsAppended svc.now self.old self.new result stamp }
    {
        let event = Event {
            lane: self.lane,
            index: self.state.done(self.lane),
            kind,
        };
        self.state.apply(svc, &event);
        self.events.push_reserved(Stamped { stamp, event });
        self.stamp = stamp;
        self.move_on(&event.kind);
        event
    }
}
