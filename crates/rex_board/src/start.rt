//! How a board begins.
ghost use Rattle.std.specs.Prelude.{◌≡◌, ◌≤◌, ◌<◌, ◌+◌, length, IfOk};
ghost use Rattle.rex_board.specs.Recorded.{IsRecording, IsRight, service_of, start_of, events_of, variables_in};
ghost use Rattle.rex_board.specs.Turns.{IsSeatOf};
ghost use Rattle.rex_board.specs.Boards.{IsBoard, IsHosting, recording_of, table_of};
ghost use Rattle.rex_board.specs.Places.{lanes_in};
ghost use Rattle.rex_board.specs.Dealing.{IsRecordingOf, HasLaneWords, HasValueWords, AreFirstWords, AreDealt};

use crate::board::{Board, Host};
use crate::places::{lanes_in, next_place};
use crate::plays::Deal;
use crate::recording::Recording;
use crate::seat::{LaneSeat, Words};
use crate::variables::word_of;
use crate::view::View;
use atomic_table::{Seat, Table};
use rex_event::{Cause, Event, LANES};
use rex_list::List;
use rex_state::state::State;
use rex_syntax::checked::Checked;
use std::alloc::{AllocError, Global};

/// The words of the lanes: a count of events for each of the most lanes.
fn lane_words(alloc: Global, start: &State) -> Result<Vec<u64>, AllocError>
    ensures { IfOk result (λ words. HasLaneWords start.now LANES words.items) }
{
    let mut words = Vec::new(alloc);
    for lane in 0..LANES as u8 {
        words.push(start.done(lane) as u64)?;
    }
    Ok(words)
}

/// Adds a word for each variable.
fn push_values(words: &mut Vec<u64>, values: &[i64]) -> Result<(), AllocError>
    requires { length words.old.items ≡ LANES }
    ensures { IfOk result (λ _. HasValueWords values.now (length values.now) words.old.items words.new.items) }
{
    for variable in 0..values.len() {
        words.push(word_of(values, variable))?;
    }
    Ok(())
}

/// The words with which a board begins.
fn first_words(alloc: Global, start: &State) -> Result<Vec<u64>, AllocError>
    ensures { IfOk result (λ words. AreFirstWords start.now words.items) }
{
    let mut words = lane_words(alloc, start)?;
    push_values(&mut words, start.variables())?;
    Ok(words)
}

/// The seat of the next lane.
fn deal(
    alloc: Global,
    words: &Words,
    host: &mut Seat<(), View>,
    start: &State,
    event_lanes: &[u8],
    lane: u8,
) -> Result<LaneSeat, AllocError>
    requires right { IsRight words.now.key × (start.now ≡ start_of words.now.key) × (event_lanes.now ≡ lanes_in (events_of words.now.key)) }
    requires table { (words.now.table_id.words ≡ LANES + variables_in words.now.key) × (lane < LANES) × (lane < (service_of words.now.key).lanes) }
    requires hosting { IsHosting words.now.key words.now.table_id host.old × (host.old.me.0.lane ≡ lane) }
    ensures hosting { IfOk result (λ _. IsHosting words.now.key words.now.table_id host.new × (host.new.me.0.lane ≡ lane + 1)) }
    ensures seat { IfOk result (λ m. IsSeatOf words.now.key words.now.table_id m × (m.lane ≡ lane)) }
{
    let copies = start.variables().to_vec(alloc)?;
    let seat = words.split_seat::<Deal>(host);
    Ok(LaneSeat {
        seat,
        lane,
        done: start.done(lane),
        place: next_place(event_lanes, 0, lane),
        bounds: [0; LANES],
        frame: start.copied_frame(lane),
        copies,
    })
}

/// The seats of all lanes, in their order.
fn deal_all(
    alloc: Global,
    words: &Words,
    host: &mut Seat<(), View>,
    start: &State,
    event_lanes: &[u8],
    lanes: u8,
) -> Result<Vec<LaneSeat>, AllocError>
    requires right { IsRight words.now.key × (start.now ≡ start_of words.now.key) × (event_lanes.now ≡ lanes_in (events_of words.now.key)) }
    requires table { (words.now.table_id.words ≡ LANES + variables_in words.now.key) × (lanes ≤ LANES) × (lanes ≡ (service_of words.now.key).lanes) }
    requires hosting { IsHosting words.now.key words.now.table_id host.old × (host.old.me.0.lane ≡ 0) }
    ensures hosting { IfOk result (λ _. IsHosting words.now.key words.now.table_id host.new) }
    ensures seats { IfOk result (λ seats. AreDealt words.now.key words.now.table_id lanes seats.items) }
{
    let mut seats = Vec::new(alloc);
    for lane in 0..lanes {
        let seat = deal(alloc, words, host, start, event_lanes, lane)?;
        seats.push(seat)?;
    }
    Ok(seats)
}

impl<'a> Board<'a> {
    /// A board on which events that run from a state are to be replayed, its host, and the seats of its lanes in their
    /// order. The causes of the events have to be right, and to be events. It fails only for want of memory.
    pub fn new(
        alloc: Global,
        svc: &'a Checked,
        start: &State,
        events: &'a List<Event>,
        causes: &'a List<List<Cause>>,
    ) -> Result<(Board<'a>, Host, Vec<LaneSeat>), AllocError>
        requires { IsRecording svc.now start.now events.now causes.now }
        ensures board { IfOk result (λ r. IsBoard r.0) }
        ensures recording { IfOk result (λ r. IsRecordingOf (recording_of r.0) svc.now start.now events.now causes.now) }
        ensures host { IfOk result (λ r. IsHosting (recording_of r.0) (table_of r.0) r.1) }
        ensures seats { IfOk result (λ r. AreDealt (recording_of r.0) (table_of r.0) svc.now.lanes r.2.items) }
    {
        let lanes = svc.declarations().lanes;
        let words = first_words(alloc, start)?;
        let recording = Recording::of(svc, start, events, causes);
        let (table, mut host) = Table::of_words(alloc, &words, &recording)?;
        let event_lanes = lanes_in(alloc, events.as_slice())?;
        let seats = deal_all(alloc, &table.shared, &mut host, start, &event_lanes, lanes)?;
        let state = start.copy(alloc)?;
        let board = Board {
            svc,
            state,
            events: events.as_slice(),
            event_lanes,
            causes: causes.as_slice(),
            table,
        };
        Ok((board, host, seats))
    }
}
