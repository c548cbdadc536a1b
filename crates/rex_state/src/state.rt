//! States.

ghost use Rattle.std.specs.Prelude.{◌≡◌, ◌<◌, ◌≤◌, ◌+◌, ◌^◌, Some, IsSome, IfSome, IfOk, IsOk, slice_get, length};
ghost use Rattle.std.specs.Option.{option_copied};
ghost use Rattle.rex_state.specs.Value.{value_of};
ghost use Rattle.rex_state.specs.Locks as locks;
ghost use Rattle.rex_state.specs.Machine as spec;
ghost use Rattle.rex_state.specs.Start.{start_of};
ghost use Rattle.rex_state.specs.Sound.{IsSound};
ghost use Rattle.rex_event.specs.Limits.{most_lanes};
ghost use Rattle.rex_state.specs.Semaphores.{HasSemaphore, semaphore_at};
ghost use Rattle.rex_state.specs.Room.{CanApply, FitsIn, HasQueue, HasEntry, IsSmall};
ghost use Rattle.rex_state.specs.Put.{HasSizesOf, with_lane, with_variable, without_entries, noted, lines_run};
ghost use Rattle.rex_state.specs.Spare.{spare_of};
ghost use Rattle.rex_state.specs.Counts.{counts_of};

use crate::apply::{change_clients, change_queues, change_semaphores};
use crate::can::{
    client_allows, is_in, locks_allow, mask, own_can, queue_at, queues_allow, semaphore_at,
    semaphores_allow,
};
use crate::lane::{Entry, Lane, Queue, as_lane, copy_frame, exclusive_holder, holder};
use crate::own::{run_lane, start_lane};
use crate::parts::{
    copy_lanes, copy_queues, empty_queues, first_counts, first_values, idle_lanes, lane_counts,
    new_entries, put_lanes, put_queues,
};
use rex_event::{Event, Kind};
use rex_frame::frame::Frame;
use rex_syntax::checked::Checked;
use rex_syntax::locks::LOCKS;
use std::alloc::{AllocError, Global};
use std::marker::Model;
use std::mem::replace;

/// What a service came to: the variables' values, the lanes, the lanes that wait at each condition, the semaphores' values,
/// and what is known of each client.
#[derive(Drop)]
pub struct State {
    variables: Vec<i64>,
    lanes: Vec<Lane>,
    queues: Vec<Queue>,
    semaphores: Vec<u32>,
    /// By client number, from 0.
    clients: Vec<Entry>,
}

impl Model for State {
    ghost use Rattle.rex_state.specs.Value.{StateValue};
    ghost use Rattle.rex_state.specs.Room.{IsSmall};

    ghost Value = { StateValue };

    ghost view = { λ s. record {
      variables = s.variables.items;
      lanes = s.lanes.items;
      queues = s.queues.items;
      semaphores = s.semaphores.items;
      clients = s.clients.items;
    } };

    ghost invariant = { λ s. IsSmall s.lanes.items s.queues.items };
}

impl State {
    /// The state from which a service starts.
    pub fn start(alloc: Global, svc: &Checked) -> Result<State, AllocError>
        ensures start { IfOk result (λ s. s ≡ start_of svc.now) }
        ensures sound { IfOk result (λ s. IsSound svc.now s) }
    {
        let service = svc.declarations();
        Ok(State {
            variables: first_values(alloc, service.variables.as_slice())?,
            lanes: idle_lanes(alloc, service.lanes)?,
            queues: empty_queues(alloc, service.conditions.len())?,
            semaphores: first_counts(alloc, service.semaphores.as_slice())?,
            clients: new_entries(alloc)?,
        })
    }

    /// The state of these parts: the variables' values, the lanes, the lanes that wait at each condition, the semaphores'
    /// values, and the clients' entries by client number from 0. It takes no memory.
    pub fn of_parts(
        svc: &Checked,
        variables: Vec<i64>,
        lanes: Vec<Lane>,
        queues: Vec<Queue>,
        semaphores: Vec<u32>,
        clients: Vec<Entry>,
    ) -> State
        requires { IsSound svc.now (value_of variables.items lanes.items queues.items semaphores.items clients.items) }
        ensures { result ≡ value_of variables.items lanes.items queues.items semaphores.items clients.items }
    {
        let _service = svc.declarations();
        State {
            variables,
            lanes,
            queues,
            semaphores,
            clients,
        }
    }

    /// An equal state.
    pub fn copy(&self, alloc: Global) -> Result<State, AllocError>
        ensures { IfOk result (λ s. s ≡ self.now) }
    {
        Ok(State {
            variables: Vec::from_slice(alloc, &self.variables)?,
            lanes: copy_lanes(alloc, &self.lanes)?,
            queues: copy_queues(alloc, &self.queues)?,
            semaphores: Vec::from_slice(alloc, &self.semaphores)?,
            clients: Vec::from_slice(alloc, &self.clients)?,
        })
    }

    /// The variables' values, in order of declaration.
    pub fn variables(&self) -> &[i64]
        ensures { result.now ≡ self.now.variables }
    {
        &self.variables
    }

    /// The lanes.
    pub fn lanes(&self) -> &[Lane]
        ensures { result.now ≡ self.now.lanes }
    {
        &self.lanes
    }

    /// The lanes that wait at each condition.
    pub fn queues(&self) -> &[Queue]
        ensures queues { result.now ≡ self.now.queues }
        ensures small { IsSmall self.now.lanes self.now.queues }
    {
        &self.queues
    }

    /// The semaphores' values, in order of declaration.
    pub fn semaphores(&self) -> &[u32]
        ensures { result.now ≡ self.now.semaphores }
    {
        &self.semaphores
    }

    /// The value of a semaphore, or 0 where there is none.
    pub fn semaphore(&self, semaphore: u8) -> u32
        ensures { result ≡ semaphore_at self.now.semaphores semaphore }
    {
        semaphore_at(&self.semaphores, semaphore)
    }

    /// The clients' entries by client number, from 0.
    pub fn entries(&self) -> &[Entry]
        ensures { result.now ≡ self.now.clients }
    {
        &self.clients
    }

    /// How many events a lane did: 0 where there is no such lane.
    pub fn done(&self, lane: u8) -> u32
        ensures { result ≡ (spec.lane_of self.now lane).done }
    {
        match self.lanes.get(lane as usize) {
            Some(found) => found.done,
            None => 0,
        }
    }

    /// How many events each lane did.
    pub fn counts(&self, alloc: Global) -> Result<Vec<u32>, AllocError>
        ensures { IfOk result (λ counts. counts.items ≡ counts_of self.now) }
    {
        lane_counts(alloc, &self.lanes)
    }

    /// The frame of a lane, unless it is idle or isn't there.
    pub fn frame(&self, lane: u8) -> Option<&Frame>
        ensures { option_copied result ≡ spec.frame_at self.now lane }
    {
        match self.lanes.get(lane as usize) {
            Some(found) => found.frame.as_ref(),
            None => None,
        }
    }

    /// A frame equal to that of a lane, unless it is idle or isn't there.
    pub fn copied_frame(&self, lane: u8) -> Option<Frame>
        ensures { result ≡ spec.frame_at self.now lane }
    {
        match self.lanes.get(lane as usize) {
            Some(found) => found.frame.as_ref().map(copy_frame),
            None => None,
        }
    }

    /// What is known of a client. Its sequence is 0 where it has sent nothing.
    pub fn entry(&self, client: u16) -> Entry
        ensures { result ≡ spec.entry_at self.now.clients client }
    {
        match self.clients.get(client as usize) {
            Some(found) => *found,
            None => Entry {
                sequence: 0,
                reply: None,
            },
        }
    }

    /// Whether a lane stands in a condition's queue.
    pub fn is_queued(&self, condition: u8, lane: u8) -> bool
        ensures { result ≡ spec.is_in lane (spec.queue_at self.now.queues condition) }
    {
        is_in(lane, queue_at(&self.queues, condition))
    }

    /// The lane that has waited longest at a condition.
    pub fn first_waiting(&self, condition: u8) -> Option<u8>
        ensures { result ≡ slice_get (spec.queue_at self.now.queues condition) 0 }
    {
        queue_at(&self.queues, condition).first().copied()
    }

    /// The lanes that wait at a condition: lane `l` is bit `l`.
    pub fn waiting(&self, condition: u8) -> u64
        ensures { result ≡ spec.mask (spec.queue_at self.now.queues condition) }
    {
        mask(queue_at(&self.queues, condition))
    }

    /// The least lane that holds a lock, in any mode.
    pub fn holder(&self, lock: u8) -> Option<u8>
        requires { lock < LOCKS }
        ensures { result ≡ locks.holder lock self.now.lanes }
    {
        as_lane(holder(&self.lanes, lock))
    }

    /// The least lane that holds a lock exclusively.
    pub fn exclusive_holder(&self, lock: u8) -> Option<u8>
        requires { lock < LOCKS }
        ensures { result ≡ locks.exclusive_holder lock self.now.lanes }
    {
        as_lane(exclusive_holder(&self.lanes, lock))
    }

    /// Whether the state allows the event. It doesn't say that the event's index is its lane's next one.
    pub fn enabled(&self, svc: &Checked, event: &Event) -> bool
        requires { IsSound svc.now self.now }
        ensures { result ≡ spec.enabled svc.now event.now.lane event.now.kind self.now }
    {
        match self.lanes.get(event.lane as usize) {
            Some(lane) => {
                own_can(
                    svc.declarations(),
                    &event.kind,
                    &lane.frame,
                    &self.variables,
                ) && locks_allow(&event.kind, &self.lanes)
                    && queues_allow(&event.kind, event.lane, &self.queues)
                    && semaphores_allow(&event.kind, &self.semaphores)
                    && client_allows(&event.kind, &self.clients)
            }
            None => false,
        }
    }

    /// The effect of an event whose parts are all there.
    fn perform(&mut self, svc: &Checked, lane: u8, kind: &Kind)
        requires { CanApply svc.now lane kind.now self.old }
        ensures { self.new ≡ spec.after svc.now lane kind.now self.old }
    {
        let own = &mut self.lanes[lane as usize];
        own.done += 1;
        start_lane(&mut own.frame, svc, kind);
        run_lane(&mut own.frame, &mut self.variables, svc);
        change_queues(&mut self.queues, kind, lane);
        change_semaphores(&mut self.semaphores, kind);
        change_clients(&mut self.clients, kind);
    }

    /// Does the event, and runs its lane up to its next one. It takes no memory.
    pub fn apply(&mut self, svc: &Checked, event: &Event)
        requires sound { IsSound svc.now self.old }
        requires next { IsSome (spec.next svc.now self.old event.now) }
        requires count { event.now.index + 1 < 2 ^ 32 }
        ensures next { spec.next svc.now self.old event.now ≡ Some self.new }
        ensures sound { IsSound svc.now self.new }
    {
        let _service = svc.declarations();
        self.perform(svc, event.lane, &event.kind);
    }

    /// Sees to room for `n` more events. A state has room for any number of them, since applying an event never takes
    /// memory; so this changes nothing and doesn't fail.
    pub fn reserve(&mut self, n: usize) -> Result<(), AllocError>
        ensures ok { IsOk result }
        ensures spare { n ≤ spare_of self.new }
        ensures same { self.new ≡ self.old }
    {
        Ok(())
    }

    /// The same as [`apply`](State::apply), which takes no memory either.
    pub fn reserved_apply(&mut self, svc: &Checked, event: &Event)
        requires sound { IsSound svc.now self.old }
        requires next { IsSome (spec.next svc.now self.old event.now) }
        requires count { event.now.index + 1 < 2 ^ 32 }
        requires spare { 0 < spare_of self.old }
        ensures next { spec.next svc.now self.old event.now ≡ Some self.new }
        ensures sound { IsSound svc.now self.new }
        ensures spare { spare_of self.old ≤ spare_of self.new + 1 }
    {
        self.apply(svc, event);
    }

    /// Puts what a lane came to elsewhere: how many events it did, and its frame.
    pub fn put_lane(&mut self, lane: u8, done: u32, frame: Option<Frame>)
        requires { lane < length self.old.lanes }
        ensures { self.new ≡ with_lane self.old lane done frame }
    {
        self.lanes[lane as usize] = Lane { done, frame };
    }

    /// Puts the value that a variable came to elsewhere.
    pub fn put_variable(&mut self, variable: usize, value: i64)
        requires { variable < length self.old.variables }
        ensures { self.new ≡ with_variable self.old variable value }
    {
        self.variables[variable] = value;
    }

    /// Takes the clients' entries out.
    pub fn take_entries(&mut self, alloc: Global) -> Vec<Entry>
        ensures entries { result.items ≡ self.old.clients }
        ensures others { self.new ≡ without_entries self.old }
    {
        replace(&mut self.clients, Vec::new(alloc))
    }

    /// Becomes equal to a later state of its service, which has these entries of the clients. It takes no memory.
    pub fn catch_up(&mut self, later: &State, entries: Vec<Entry>)
        requires sizes { HasSizesOf self.old later.now }
        requires entries { entries.items ≡ later.now.clients }
        ensures { self.new ≡ later.now }
    {
        self.variables.copy_from_slice(&later.variables);
        put_lanes(&mut self.lanes, &later.lanes);
        put_queues(&mut self.queues, &later.queues);
        self.semaphores.copy_from_slice(&later.semaphores);
        self.clients = entries;
    }

    /// Does to the queues, to the semaphores and to the clients' entries what an event does, and nothing else.
    pub fn note(&mut self, event: &Event)
        requires lane { event.now.lane < most_lanes }
        requires queue { HasQueue event.now.kind self.old.queues }
        requires semaphore { HasSemaphore event.now.kind self.old.semaphores }
        requires entry { HasEntry event.now.kind self.old.clients }
        ensures { self.new ≡ noted self.old event.now }
    {
        change_queues(&mut self.queues, &event.kind, event.lane);
        change_semaphores(&mut self.semaphores, &event.kind);
        change_clients(&mut self.clients, &event.kind);
    }

    /// Runs the lines of a lane up to its next event.
    pub fn run_lines(&mut self, svc: &Checked, lane: u8)
        requires lane { lane < length self.old.lanes }
        requires fits { IfSome (spec.frame_at self.old lane) (FitsIn svc.now) }
        requires variables { length self.old.variables ≡ length svc.now.variables }
        ensures { self.new ≡ lines_run svc.now self.old lane }
    {
        let own = &mut self.lanes[lane as usize];
        run_lane(&mut own.frame, &mut self.variables, svc);
    }
}
