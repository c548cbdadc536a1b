//! What is known of clients, and the answers to their requests.

ghost use Rattle.std.specs.Prelude.{◌≡◌, ◌<◌, length, IfOk, OnOk, OnErr};
ghost use Rattle.rex_gate.specs.Noted.{no_answers, answers_at, numbering, noting, stamp_of};
ghost use Rattle.rex_gate.specs.Numbers.{next_number};
ghost use Rattle.rex_gate.specs.Answer.{answer_to};

use crate::answer::{Answer, answer_of};
use crate::clients::{entry_of, note_events};
use crate::numbers::Numbers;
use rex_event::Event;
use rex_state::lane::Entry;
use rex_state::new_entries;
use rex_state::state::State;
use rex_syntax::request::Request;
use std::alloc::{AllocError, Global};
use std::marker::Model;

/// The last known request of each client, and the reply to it where that is known too: what begins and replies of the
/// known deltas say. Contracts see the clients' entries, as a state has them, the number of the delta with each client's
/// last reply, and that of the last delta.
#[derive(Drop)]
pub struct Answers {
    alloc: Global,
    /// By client number, from 0. Empty before the first delta.
    clients: Vec<Entry>,
    numbers: Numbers,
    last: u32,
}

impl Model for Answers {
    ghost use Rattle.rex_gate.specs.Noted.{AnswersValue, entries_in};

    ghost Value = { AnswersValue };

    ghost view = { λ a. record { entries = entries_in a.clients.items; numbers = a.numbers; count = a.last } };
}

impl Answers {
    /// Before any delta is known. It takes no memory.
    pub fn new(alloc: Global) -> Answers
        ensures { result ≡ no_answers }
    {
        Answers {
            alloc,
            clients: Vec::new(alloc),
            numbers: Numbers::new(alloc),
            last: 0,
        }
    }

    /// Once the deltas that run to a state are known, where those after the first `count` are to be numbered: the state may
    /// have some of them already.
    pub fn at(alloc: Global, state: &State, count: u32) -> Result<Answers, AllocError>
        requires { 0 < length state.now.clients }
        ensures { IfOk result (λ a. a ≡ answers_at state.now.clients count) }
    {
        Ok(Answers {
            alloc,
            clients: Vec::from_slice(alloc, state.entries())?,
            numbers: Numbers::at(alloc, state.entries())?,
            last: count,
        })
    }

    /// Numbers the replies of the next delta, where the state with which these began has its events already. Where memory is
    /// short nothing changes.
    pub fn number(&mut self, events: &[Event]) -> Result<(), AllocError>
        ensures numbered { OnOk result (self.new ≡ numbering self.old events.now) }
        ensures err { OnErr result (self.new ≡ self.old) }
    {
        let number = next_number(self.last);
        self.numbers.note(number, events)?;
        self.last = number;
        Ok(())
    }

    /// Notes the begins and replies of the next known delta. Where memory is short nothing changes.
    pub fn note(&mut self, events: &[Event]) -> Result<(), AllocError>
        ensures noted { OnOk result (self.new ≡ noting self.old events.now) }
        ensures err { OnErr result (self.new ≡ self.old) }
    {
        if self.clients.is_empty() {
            self.clients = new_entries(self.alloc)?;
        }
        let number = next_number(self.last);
        self.numbers.note(number, events)?;
        self.last = number;
        note_events(&mut self.clients, events);
        Ok(())
    }

    /// The answer to a client's request, where `queued` is the sequence of its queued request, if any, and `live` the state
    /// after the known deltas and the live events. It takes no memory.
    pub fn answer(&self, request: &Request, queued: Option<u32>, live: &State) -> Answer
        ensures { result ≡ answer_to request.now queued live.now.clients self.now.entries }
    {
        let known = entry_of(&self.clients, request.client);
        answer_of(request.sequence, queued, live.entry(request.client), known)
    }

    /// The number of the delta with the client's last reply; 0 where only the state with which these began has one, and none
    /// where that hasn't either. It takes no memory.
    pub fn stamp(&self, client: u16) -> Option<u32>
        ensures { result ≡ stamp_of self.now client }
    {
        self.numbers.get(client)
    }
}

// The number of the delta after that of this number.
fn next_number(number: u32) -> u32
    ensures { result ≡ next_number number }
{
    if number < u32::MAX {
        number + 1
    } else {
        number
    }
}
