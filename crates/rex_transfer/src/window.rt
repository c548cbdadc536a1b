//! Windows.

ghost use Rattle.std.specs.Prelude.{◌≡◌, ◌<◌, ◌≤◌, ◌+◌, ◌-◌, ◌^◌, ◌∷◌, [], true, drop, length, OnOk, OnErr};
ghost use Rattle.std.specs.List.{All};
ghost use Rattle.rex_transfer.specs.Window as spec;
ghost use Rattle.rex_transfer.specs.Window.{Looks, SpellsDelta, known_of};

use rex_ballot::{INSTANCES, Value};
use rex_list::List;
use std::alloc::{AllocError, Global};
use std::marker::Model;

/// The values that a node holds of a list of values, one for each instance from 1 on: it knows those up to an instance, and
/// holds those past its offset, up to which it forgot them or never had them. Of some of these, the first, it also knows that each
/// spells a delta.
#[derive(Drop)]
pub struct Window {
    offset: u32,
    values: Vec<Value>,
    /// How many of the values, from the first on, are known to spell deltas.
    checked: usize,
}

impl Model for Window {
    ghost use Rattle.rex_transfer.specs.Window.{WindowValue, IsWindow};

    ghost Value = { WindowValue };

    ghost view = { λ w. record { offset = w.offset; values = w.values.items } };

    ghost invariant = { λ w. IsWindow (record { offset = w.offset; values = w.values.items }) w.checked };
}

/// What a window has for an instance.
#[derive(Clone, Copy)]
pub enum Look<'a> {
    /// The value.
    Value(&'a [u8]),
    /// The window doesn't hold the value: the instance is at most its offset.
    Gone { offset: u32 },
    /// The window doesn't know the value: the instance is above the last one that it knows.
    Beyond { known: u32 },
}

impl Window {
    /// A window that knows nothing.
    pub fn new(alloc: Global) -> Window
        ensures { result ≡ record { offset = 0; values = [] } }
    {
        Window {
            offset: 0,
            values: Vec::new(alloc),
            checked: 0,
        }
    }

    /// A window that holds these values past the offset, each of which spells a delta, as it knows from here on. It takes no memory.
    pub fn from_list(offset: u32, values: List<Value>) -> Window
        requires few { offset + length values ≤ INSTANCES }
        requires deltas { All SpellsDelta values }
        ensures { result ≡ record { offset = offset; values = values } }
    {
        let values = values.into_vec();
        let checked = values.len();
        Window {
            offset,
            values,
            checked,
        }
    }

    /// Of how many instances the values aren't held.
    pub fn offset(&self) -> u32
        ensures { result ≡ self.now.offset }
    {
        self.offset
    }

    /// Of how many instances the values are known.
    pub fn known(&self) -> u32
        ensures known { result ≡ known_of self.now }
        ensures few { result ≤ INSTANCES }
    {
        self.offset + self.values.len() as u32
    }

    /// The values that are held, from that of the instance after the offset on.
    pub fn values(&self) -> &[Value]
        ensures { result.now ≡ self.now.values }
    {
        &self.values
    }

    /// The values of the instances after this one.
    pub fn after(&self, instance: u32) -> &[Value]
        requires from { self.now.offset ≤ instance }
        requires to { instance ≤ known_of self.now }
        ensures { result.now ≡ drop (instance - self.now.offset) self.now.values }
    {
        let gone = (instance - self.offset) as usize;
        &self.values[gone..]
    }

    /// Takes the value of the next instance, of which the caller may know that it spells a delta. Where memory is short nothing
    /// changes.
    pub fn push(&mut self, value: &[u8], is_delta: bool) -> Result<(), AllocError>
        requires room { known_of self.old < INSTANCES }
        requires delta { is_delta ≡ true → SpellsDelta value.now }
        ensures ok { OnOk result (self.new ≡ spec.pushed self.old value.now) }
        ensures err { OnErr result (self.new ≡ self.old) }
    {
        let held = self.values.len();
        let value = List::from_vec(Vec::from_slice(*self.values.allocator(), value)?);
        self.values.push(value)?;
        if is_delta && self.checked == held {
            self.checked = held + 1;
        }
        Ok(())
    }

    /// What the window has for an instance. It takes no memory.
    pub fn get(&self, instance: u32) -> Look<'_>
        ensures { Looks self.now instance result }
    {
        if instance <= self.offset {
            return Look::Gone {
                offset: self.offset,
            };
        }
        let place = (instance - self.offset - 1) as usize;
        match self.values.get(place) {
            Some(value) => Look::Value(value.as_slice()),
            None => Look::Beyond {
                known: self.known(),
            },
        }
    }

    /// Whether the window holds this value for the instance, and knows that it spells a delta. It takes no memory.
    pub fn knows_delta(&self, instance: u32, value: &[u8]) -> bool
        ensures { result ≡ true → SpellsDelta value.now }
    {
        let checked = self.offset + self.checked as u32;
        match self.get(instance) {
            Look::Value(held) => instance <= checked && held == value,
            _ => false,
        }
    }

    /// Forgets the values of the instances up to this one, which becomes the offset. It takes no memory.
    pub fn drop_to(&mut self, instance: u32)
        requires from { self.old.offset ≤ instance }
        requires to { instance ≤ known_of self.old }
        ensures { self.new ≡ spec.dropped_to self.old instance }
    {
        let gone = (instance - self.offset) as usize;
        let kept = self.values.len() - gone;
        self.values.rotate_left(gone);
        self.values.truncate(kept);
        self.checked = self.checked.saturating_sub(gone);
        self.offset = instance;
    }

    /// Knows the values up to an instance past those that it knew, and holds none of them. It takes no memory.
    pub fn jump(&mut self, instance: u32)
        requires from { known_of self.old < instance }
        requires to { instance ≤ INSTANCES }
        ensures { self.new ≡ record { offset = instance; values = [] } }
    {
        self.values.clear();
        self.checked = 0;
        self.offset = instance;
    }
}
