//! The history that lanes recorded.
ghost use Rattle.std.specs.Prelude.{◌≡◌, ◌<◌, ◌++◌, [], ◌∷◌, length, IfOk};
ghost use Rattle.rex_words.specs.declared.view.Gathered.{Gathered};
ghost use Rattle.rex_words.specs.Alone.{service_of};
ghost use Rattle.rex_words.specs.Steps.{gathered};
ghost use Rattle.rex_words.specs.Seats.{IsSeatOf};
ghost use Rattle.rex_words.specs.Tables.{IsWords, IsHosting, assignment_of, table_of};
ghost use Rattle.rex_words.specs.Histories.{AreSeats, IsHistoryOf, IsGathering, AreGathered};

use crate::merge::merge_all;
use crate::plays::Gather;
use crate::seat::{LockWords, WordSeat};
use crate::stamped::Stamped;
use crate::table::{Host, Words};
use rex_event::Event;
use rex_list::List;
use std::alloc::{AllocError, Global};

/// The host takes in the seat of a lane, and gives the lane's events.
fn collect(words: &LockWords, host: &mut Host, seat: WordSeat) -> List<Stamped>
    requires table { 0 < words.now.table_id.words }
    requires seat { IsSeatOf words.now.key words.now.table_id seat }
    requires gathering { IsGathering words.now.key words.now.table_id host.old }
    ensures gathering { IsGathering words.now.key words.now.table_id host.new }
    ensures view { host.new.me.0.gathered ≡ host.old.me.0.gathered ++ (record { lane = seat.seat.me.0.lane; knows = seat.seat.me.0.knows }) ∷ [] }
    ensures list { result ≡ seat.events.items }
{
    let WordSeat {
        seat,
        lane: _,
        state: _,
        events,
        stamp: _,
        requests: _,
        begun: _,
        random: _,
        dice: _,
    } = seat;
    words.join_seat::<Gather>(host, seat);
    List::from_vec(events)
}

/// The host takes in the seats of all lanes, and gives their events, the last lane's first.
fn collect_all(
    alloc: Global,
    words: &LockWords,
    host: &mut Host,
    mut seats: Vec<WordSeat>,
) -> Result<Vec<List<Stamped>>, AllocError>
    requires table { 0 < words.now.table_id.words }
    requires seats { AreSeats words.now.key words.now.table_id (length seats.items) seats.items }
    requires gathering { IsGathering words.now.key words.now.table_id host.old }
    ensures gathering { IfOk result (λ _. IsGathering words.now.key words.now.table_id host.new) }
    ensures lists { IfOk result (λ lists. AreGathered words.now.key host.new.me.0.gathered seats.items lists.items) }
{
    let mut lists = Vec::new(alloc);
    while let Some(seat) = seats.pop() {
        lists.push(collect(words, host, seat))?;
    }
    Ok(lists)
}

impl<'a> Words<'a> {
    /// The history that the lanes recorded: their events in order of stamp, then of lane. All their seats have to be handed
    /// back, in their order, and the host. It fails only for want of memory.
    pub fn gather(
        self,
        alloc: Global,
        mut host: Host,
        seats: Vec<WordSeat>,
    ) -> Result<List<Event>, AllocError>
        requires words { IsWords self }
        requires host { IsHosting (assignment_of self) (table_of self) host }
        requires seats { AreSeats (assignment_of self) (table_of self) (service_of (assignment_of self)).lanes seats.items }
        ensures { IfOk result (IsHistoryOf (assignment_of self.entry) seats.items) }
    {
        let Words { svc: _, table } = self;
        let lists = collect_all(alloc, &table.shared, &mut host, seats)?;
        let closed = table.close_with(host);
        closed.free();
        let events = merge_all(alloc, &lists)?;
        Ok(List::from_vec(events))
    }
}
