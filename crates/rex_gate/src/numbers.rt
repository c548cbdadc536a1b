//! The numbers of the deltas that have the clients' last replies.

ghost use Rattle.std.specs.Prelude.{◌≡◌, ◌<◌, length, Some, IfOk, OnOk, OnErr, slice_set};
ghost use Rattle.rex_gate.specs.Numbers as spec;

use rex_event::{CLIENT_ENTRIES, Event, Kind};
use rex_state::lane::Entry;
use std::alloc::{AllocError, Global};
use std::marker::Model;

/// The number of the delta with a client's last reply; 0 where only a state has one.
#[derive(Clone, Copy)]
pub(crate) struct Stamp {
    pub(crate) number: Option<u32>,
}

/// The number of each client. Contracts see them as a list.
#[derive(Drop)]
pub(crate) struct Numbers {
    alloc: Global,
    /// By client number, from 0. Empty before the first delta.
    stamps: Vec<Stamp>,
}

impl Model for Numbers {
    ghost use Rattle.std.specs.Prelude.{List};
    ghost use Rattle.rex_gate.specs.declared.numbers.Stamp.{Stamp};
    ghost use Rattle.rex_gate.specs.Numbers.{numbers_in};

    ghost Value = { List Stamp };

    ghost view = { λ n. numbers_in n.stamps.items };
}

impl Numbers {
    /// Before any delta is known. It takes no memory.
    pub(crate) fn new(alloc: Global) -> Numbers
        ensures { result ≡ spec.no_numbers }
    {
        Numbers {
            alloc,
            stamps: Vec::new(alloc),
        }
    }

    /// What a state says of the clients' last replies.
    pub(crate) fn at(alloc: Global, clients: &[Entry]) -> Result<Numbers, AllocError>
        requires { 0 < length clients.now }
        ensures { IfOk result (λ n. n ≡ spec.numbers_of_state clients.now) }
    {
        Ok(Numbers {
            alloc,
            stamps: stamps_of(alloc, clients)?,
        })
    }

    /// Notes the replies of the delta of this number. Where memory is short nothing changes.
    pub(crate) fn note(&mut self, number: u32, events: &[Event]) -> Result<(), AllocError>
        ensures noted { OnOk result (self.new ≡ spec.numbered number self.old events.now) }
        ensures err { OnErr result (self.new ≡ self.old) }
    {
        if self.stamps.is_empty() {
            self.stamps = new_stamps(self.alloc)?;
        }
        note_numbers(&mut self.stamps, number, events);
        Ok(())
    }

    /// The number of the delta with a client's last reply.
    pub(crate) fn get(&self, client: u16) -> Option<u32>
        ensures { result ≡ spec.number_at self.now client }
    {
        number_of(&self.stamps, client)
    }
}

// No client has a reply.
fn new_stamps(alloc: Global) -> Result<Vec<Stamp>, AllocError>
    ensures { IfOk result (λ stamps. stamps.items ≡ spec.no_numbers) }
{
    let stamp = Stamp { number: None };
    vec![in alloc; stamp; CLIENT_ENTRIES]
}

// Where a state has a reply, the delta that has it isn't known.
fn stamp_of(entry: &Entry) -> Stamp
    ensures { result ≡ spec.stamp_of_state entry.now.reply }
{
    match entry.reply {
        None => Stamp { number: None },
        Some(_) => Stamp { number: Some(0) },
    }
}

fn stamps_of(alloc: Global, clients: &[Entry]) -> Result<Vec<Stamp>, AllocError>
    ensures { IfOk result (λ stamps. stamps.items ≡ spec.numbers_of_state clients.now) }
{
    let mut stamps = Vec::with_capacity(alloc, clients.len())?;
    for entry in clients {
        stamps.push(stamp_of(entry))?;
    }
    Ok(stamps)
}

fn number_of(stamps: &[Stamp], client: u16) -> Option<u32>
    ensures { result ≡ spec.number_at stamps.now client }
{
    match stamps.get(client as usize) {
        Some(stamp) => stamp.number,
        None => None,
    }
}

// A client that isn't there has no number that could change.
fn set_number(stamps: &mut [Stamp], client: u16, number: u32)
    ensures { stamps.new ≡ slice_set stamps.old client (record { number = Some number }) }
{
    if (client as usize) < stamps.len() {
        stamps[client as usize] = Stamp {
            number: Some(number),
        };
    }
}

fn note_number(stamps: &mut [Stamp], number: u32, kind: &Kind)
    ensures { stamps.new ≡ spec.numbers_after number kind.now stamps.old }
{
    match kind {
        Kind::Reply { client, .. } => set_number(stamps, *client, number),
        _ => {}
    }
}

// The events of the delta of this number, one after another.
fn note_numbers(stamps: &mut [Stamp], number: u32, events: &[Event])
    ensures { stamps.new ≡ spec.numbered number stamps.old events.now }
{
    for event in events {
        note_number(stamps, number, &event.kind);
    }
}
