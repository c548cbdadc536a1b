//! How words begin.
ghost use Rattle.std.specs.Prelude.{◌≡◌, ◌≤◌, ◌<◌, ◌+◌, ℕ, length, slice_index_or, IfOk};
ghost use Rattle.rex_event.specs.Order.{Has};
ghost use Rattle.rex_state.specs.Start.{start_of};
ghost use Rattle.rex_syntax.specs.declared.request.Request.{Request as ARequest};
ghost use Rattle.rex_words.specs.Recorded as recorded;
ghost use Rattle.rex_words.specs.Alone.{service_of, requests_of, seed_of};
ghost use Rattle.rex_words.specs.Moment.{IsAssignment, locks_in, variables_in};
ghost use Rattle.rex_words.specs.Tables.{IsWords, IsHosting, assignment_of, table_of};
ghost use Rattle.rex_words.specs.Dealing.{CanRecord, IsAssignmentOf, requests_for, AreZeros, HasValueWords, AreWordsFor, IsFreshSeat, AreDealt};

use crate::assignment::Assignment;
use crate::limits::LANE_EVENTS;
use crate::locks::word_for;
use crate::plays::Deal;
use crate::seat::{LockWords, WordSeat};
use crate::table::{Host, Words};
use atomic_table::Table;
use rand_core::utils::NextWord;
use rand_pcg::Lcg64Xsh32;
use rex_list::List;
use rex_state::state::State;
use rex_syntax::checked::Checked;
use rex_syntax::request::Request;
use std::alloc::{AllocError, Global};

/// The words of locks.
fn lock_words(alloc: Global, count: usize) -> Result<Vec<u64>, AllocError>
    ensures { IfOk result (λ words. AreZeros count words.items) }
{
    let mut words = Vec::new(alloc);
    for _lock in 0..count {
        words.push(0)?;
    }
    Ok(words)
}

/// Adds a word for each value.
fn push_values(words: &mut Vec<u64>, values: &[i64]) -> Result<(), AllocError>
    requires { AreZeros (length words.old.items) words.old.items }
    ensures { IfOk result (λ _. HasValueWords values.now (length words.old.items) (length values.now) words.new.items) }
{
    for variable in 0..values.len() {
        words.push(word_for(values, variable))?;
    }
    Ok(())
}

/// The words with which lanes begin. One more word is there, so that there is one where the service has no lock.
fn first_words(alloc: Global, locks: usize, values: &[i64]) -> Result<Vec<u64>, AllocError>
    ensures { IfOk result (λ words. AreWordsFor values.now locks words.items) }
{
    let mut words = lock_words(alloc, locks)?;
    push_values(&mut words, values)?;
    words.push(0)?;
    Ok(words)
}

/// The lane, of so many, that serves a client.
fn lane_for(lanes: u8, client: u16) -> u8
    requires { (0 < lanes) × (0 < client) }
    ensures { result ≡ recorded.lane_for lanes client }
{
    ((client - 1) % lanes as u16) as u8
}

/// The requests that a lane serves, in their order.
fn requests_of_lane(
    alloc: Global,
    lanes: u8,
    lane: u8,
    requests: &[Request],
) -> Result<Vec<Request>, AllocError>
    requires lanes { 0 < lanes }
    requires clients { (q : ARequest) → Has q requests.now → 0 < q.client }
    ensures { IfOk result (λ mine. mine.items ≡ requests_for lanes lane requests.now) }
{
    let mut mine = Vec::new(alloc);
    for request in requests {
        if lane_for(lanes, request.client) == lane {
            mine.push(*request)?;
        }
    }
    Ok(mine)
}

/// The seat of the next lane.
fn deal(
    alloc: Global,
    words: &LockWords,
    svc: &Checked,
    requests: &[Request],
    seed: u64,
    host: &mut Host,
    lane: u8,
) -> Result<WordSeat, AllocError>
    requires right { IsAssignment words.now.key }
    requires of { IsAssignmentOf words.now.key svc.now requests.now seed }
    requires table { 0 < words.now.table_id.words }
    requires lane { lane < svc.now.lanes }
    requires hosting { IsHosting words.now.key words.now.table_id host.old × (host.old.me.0.lane ≡ lane) }
    ensures hosting { IfOk result (λ _. IsHosting words.now.key words.now.table_id host.new × (host.new.me.0.lane ≡ lane + 1)) }
    ensures seat { IfOk result (IsFreshSeat words.now.key words.now.table_id lane) }
{
    let lanes = svc.declarations().lanes;
    let state = State::start(alloc, svc)?;
    let requests = requests_of_lane(alloc, lanes, lane, requests)?;
    let events = Vec::with_capacity(alloc, LANE_EVENTS)?;
    let mut dice = Lcg64Xsh32::new(seed, lane as u64 + 1);
    let random = dice.next_word();
    let seat = words.split_seat::<Deal>(host);
    Ok(WordSeat {
        seat,
        lane,
        state,
        events,
        stamp: 0,
        requests,
        begun: 0,
        random,
        dice,
    })
}

/// The seats of all lanes, in their order.
fn deal_all(
    alloc: Global,
    words: &LockWords,
    svc: &Checked,
    requests: &[Request],
    seed: u64,
    host: &mut Host,
) -> Result<Vec<WordSeat>, AllocError>
    requires right { IsAssignment words.now.key }
    requires of { IsAssignmentOf words.now.key svc.now requests.now seed }
    requires table { 0 < words.now.table_id.words }
    requires hosting { IsHosting words.now.key words.now.table_id host.old × (host.old.me.0.lane ≡ 0) }
    ensures hosting { IfOk result (λ _. IsHosting words.now.key words.now.table_id host.new) }
    ensures seats { IfOk result (λ seats. AreDealt words.now.key words.now.table_id svc.now.lanes seats.items) }
{
    let lanes = svc.declarations().lanes;
    let mut seats = Vec::new(alloc);
    for lane in 0..lanes {
        let seat = deal(alloc, words, svc, requests, seed, host, lane)?;
        seats.push(seat)?;
    }
    Ok(seats)
}

/// What clauses see of the service, the requests and the seed.
fn assign(
    alloc: Global,
    svc: &Checked,
    requests: &[Request],
    seed: u64,
) -> Result<Assignment, AllocError>
    ensures { IfOk result (λ r. IsAssignmentOf r svc.now requests.now seed) }
{
    let handed = List::from_vec(requests.to_vec(alloc)?);
    Ok(Assignment::of(svc, &handed, seed))
}

impl<'a> Words<'a> {
    /// Words on which the lanes of a service are to record, their host, and the seats of the lanes in their order. A client's
    /// requests go to one lane, in their order. There is room for `LANE_EVENTS` events of each lane. It fails only for want of
    /// memory.
    pub fn new(
        alloc: Global,
        svc: &'a Checked,
        requests: &[Request],
        seed: u64,
    ) -> Result<(Words<'a>, Host, Vec<WordSeat>), AllocError>
        requires { CanRecord svc.now requests.now }
        ensures words { IfOk result (λ r. IsWords r.0) }
        ensures assignment { IfOk result (λ r. IsAssignmentOf (assignment_of r.0) svc.now requests.now seed) }
        ensures host { IfOk result (λ r. IsHosting (assignment_of r.0) (table_of r.0) r.1) }
        ensures seats { IfOk result (λ r. AreDealt (assignment_of r.0) (table_of r.0) svc.now.lanes r.2.items) }
    {
        let start = State::start(alloc, svc)?;
        let locks = svc.declarations().locks.len();
        let words = first_words(alloc, locks, start.variables())?;
        let assignment = assign(alloc, svc, requests, seed)?;
        let (table, mut host) = Table::of_words(alloc, &words, &assignment)?;
        let seats = deal_all(alloc, &table.shared, svc, requests, seed, &mut host)?;
        Ok((Words { svc, table }, host, seats))
    }
}
