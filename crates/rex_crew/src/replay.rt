//! Replay by a crew.
ghost use Rattle.std.specs.Prelude.{◌≡◌, Some, IsSome, IfOk, IfSome};
ghost use Rattle.rex_state.specs.Machine.{run};
ghost use Rattle.rex_state.specs.Sound.{IsSound};
ghost use Rattle.rex_state.specs.Counts.{AreCounted};
ghost use Rattle.rex_board.specs.Recorded.{IsRecording};

use crate::alone::replay_alone;
use crate::complete::complete;
use crate::crew::Crew;
use rex_board::Board;
use rex_event::{Cause, Event};
use rex_list::List;
use rex_reduce::reduce;
use rex_replay::{OneThread, Replayer};
use rex_state::state::State;
use rex_syntax::checked::Checked;
use rex_traits::Gate;
use std::alloc::{AllocError, Global};
use std::thread::Threads;

/// A list of the same events.
fn copied(alloc: Global, events: &[Event]) -> Result<List<Event>, AllocError>
    ensures { IfOk result (λ list. list ≡ events.now) }
{
    Ok(List::from_vec(events.to_vec(alloc)?))
}

impl<'r, R: Threads + Sync, G: Gate + Sync> Crew<'r, R, G> {
    /// The state to which recorded events run, or `None` where a round of the caller did no event.
    fn on_board(
        &self,
        alloc: Global,
        svc: &Checked,
        from: &State,
        events: &List<Event>,
        causes: &List<List<Cause>>,
    ) -> Result<Option<State>, AllocError>
        requires { IsRecording svc.now from.now events.now causes.now }
        ensures runs { IfOk result (λ found. IfSome found (λ s. run svc.now from.now events.now ≡ Some s)) }
        ensures sound { IfOk result (λ found. IfSome found (λ s. IsSound svc.now s)) }
    {
        let (board, host, seats) = Board::new(alloc, svc, from, events, causes)?;
        let seats = self.by_workers(alloc, &board, seats)?;
        let Some(seats) = complete(&board, seats) else {
            return Ok(None);
        };
        Ok(Some(board.finish(host, seats)))
    }

    /// The state to which events run from a state, replayed by the workers side by side: lane `l` is worker
    /// `l % workers`'s, all counted from 0. One worker alone does the events in their order. The events have to run from the
    /// state. It waits for nothing but the ends of its threads, and fails only for want of memory.
    pub fn replay(
        &self,
        alloc: Global,
        svc: &Checked,
        from: &State,
        events: &[Event],
    ) -> Result<State, AllocError>
        requires sound { IsSound svc.now from.now }
        requires runs { IsSome (run svc.now from.now events.now) }
        requires counted { AreCounted events.now }
        ensures runs { IfOk result (λ s. run svc.now from.now events.now ≡ Some s) }
        ensures sound { IfOk result (λ s. IsSound svc.now s) }
    {
        if self.workers == 1 {
            return replay_alone(alloc, self.gate, svc, from, events);
        }
        if events.is_empty() {
            return from.copy(alloc);
        }
        let _service = svc.declarations();
        let causes = List::from_vec(reduce(alloc, events)?);
        let recorded = copied(alloc, events)?;
        match self.on_board(alloc, svc, from, &recorded, &causes)? {
            Some(state) => Ok(state),
            None => OneThread.replay(alloc, svc, from, events),
        }
    }
}
