//! Whether the causes of an event are done.
ghost use Rattle.std.specs.Prelude.{◌≡◌, ◌≤◌, ◌<◌, MatchOption, slice_index};
ghost use Rattle.rex_event.specs.declared.delta.Cause.{Cause as ACause};
ghost use Rattle.rex_event.specs.Order.{Has};
ghost use Rattle.rex_event.specs.Cuts.{count_at};
ghost use Rattle.rex_board.specs.Turns.{IsLooking, IsMissing, IsFirstMissing, loads_of};

use crate::plays::Look;
use crate::seat::{LaneSeat, Words};
use rex_event::{Cause, LANES};

impl LaneSeat {
    /// Loads the word of a lane, which raises the bound on it.
    fn look(&mut self, words: &Words, lane: u8) -> u64
        requires table { (self.old.seat.table_id ≡ words.now.table_id) × (LANES ≤ words.now.table_id.words) × (lane < LANES) }
        ensures looking { IsLooking self.old self.new }
        ensures known { (count_at self.old.bounds lane ≤ result) × (count_at self.new.bounds lane ≡ result) }
        ensures counted { loads_of self.old < loads_of self.new }
        ensures noted { (self.new.seat.me.0.noted_lane ≡ lane) × (self.new.seat.me.0.noted ≡ result) }
    {
        let seen = words.load::<Look>(&mut self.seat, lane as usize);
        self.bounds[lane as usize] = seen;
        seen
    }

    /// What a load found, if the cause is not known to be done.
    fn misses(&mut self, words: &Words, cause: Cause) -> Option<u64>
        requires table { (self.old.seat.table_id ≡ words.now.table_id) × (LANES ≤ words.now.table_id.words) × (cause.lane < LANES) }
        ensures looking { IsLooking self.old self.new }
        ensures missing { MatchOption result (cause.index < count_at self.new.bounds cause.lane) (λ seen. IsMissing self.old self.new cause seen) }
    {
        let index = cause.index as u64;
        if index < self.bounds[cause.lane as usize] {
            return None;
        }
        let seen = self.look(words, cause.lane);
        if index < seen { None } else { Some(seen) }
    }

    /// The first of the causes that is not known to be done, and what a load found of its lane.
    pub(crate) fn first_missing(&mut self, words: &Words, causes: &[Cause]) -> Option<(Cause, u64)>
        requires table { (self.old.seat.table_id ≡ words.now.table_id) × (LANES ≤ words.now.table_id.words) }
        requires lanes { (c : ACause) → Has c causes.now → c.lane < LANES }
        ensures looking { IsLooking self.old self.new }
        ensures missing { MatchOption result
            ((c : ACause) → Has c causes.now → c.index < count_at self.new.bounds c.lane)
            (λ m. IsFirstMissing self.new.bounds causes.now m.0 × IsMissing self.old self.new m.0 m.1) }
    {
        for cause in causes {
            if let Some(seen) = self.misses(words, *cause) {
                return Some((*cause, seen));
            }
        }
        None
    }
}
