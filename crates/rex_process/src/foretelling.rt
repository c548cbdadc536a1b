//! The replies that hearing a message would release.

ghost use Rattle.std.specs.Prelude.{◌≡◌, ◌++◌, [], true, map, IfOk, OnOk};
ghost use Rattle.std.specs.Option.{option_copied};
ghost use Rattle.rex_cluster.specs.Quorum.{IsNode as IsNodeOf};
ghost use Rattle.rex_cluster.specs.Node.Content.{Accepted as Voted};
ghost use Rattle.rex_cluster.specs.Records.{known};
ghost use Rattle.rex_cluster.specs.Values.{release_effect, replies_of};
ghost use Rattle.rex_log.specs.Messages.{content_in, message_in};
ghost use Rattle.rex_processes.specs.Early.{early_replies, replies_to};
ghost use Rattle.rex_process.specs.Foretelling as spec;
ghost use Rattle.rex_process.specs.Hearing.{IsHeard};
ghost use Rattle.rex_process.specs.Process.{IsProcess, here};

use crate::process::Process;
use rex_event::{Event, Kind};
use rex_list::List;
use rex_msg::{Content, Message};
use rex_node::{events_in, release_effect};
use rex_paxos::Vote;
use rex_record::{Release, releases_of};
use rex_report::{Effect, Role};
use rex_traits::Keeper;
use std::alloc::{AllocError, Global};

impl<'a, K: Keeper> Process<'a, K> {
    /// The replies that hearing a message would release: where the node is active, and a majority has accepted its open value with the
    /// acceptance that the message tells, those of that value. Nothing is heard, and nothing changes.
    pub fn early_replies(&self, message: &Message) -> Result<List<Effect>, AllocError>
        requires process { IsProcess K.records K.faults self.now }
        requires up { self.now.node.up ≡ true }
        requires message { IsHeard self.now.node.id self.now.node.nodes message.now }
        ensures { IfOk result (λ effects. effects ≡ early_replies self.now.service self.now.node.nodes (here K.records self.now) (message_in [] message.now)) }
    {
        match &message.content {
            Content::Accepted { ballot, instance } => {
                self.replies_with(message.from, *ballot, *instance)
            }
            _ => Ok(List::new(self.alloc)),
        }
    }

    // The same of a node's acceptance of a ballot's proposal for an instance.
    fn replies_with(&self, from: u8, ballot: u64, instance: u32) -> Result<List<Effect>, AllocError>
        requires process { IsProcess K.records K.faults self.now }
        requires up { self.now.node.up ≡ true }
        requires from { IsNodeOf self.now.node.nodes from }
        ensures { IfOk result (λ effects. effects ≡ replies_to self.now.service self.now.node.nodes (known (here K.records self.now).log) from
            (Voted ballot instance) (here K.records self.now).role) }
    {
        if !is_quorum(&self.node.acceptance_vote(from, ballot, instance)) {
            return Ok(List::new(self.alloc));
        }
        match active_value(self.node.role(), self.node.open_value()) {
            None => Ok(List::new(self.alloc)),
            Some(value) => self.replies_of(value),
        }
    }

    // The replies of a value behind what the node knows.
    fn replies_of(&self, value: &[u8]) -> Result<List<Effect>, AllocError>
        requires process { IsProcess K.records K.faults self.now }
        requires up { self.now.node.up ≡ true }
        ensures { IfOk result (λ effects. effects ≡ replies_of self.now.service (known (here K.records self.now).log) value.now) }
    {
        let events = events_in(self.alloc, value)?;
        let clients = self.node.state().entries();
        let releases = releases_of(self.alloc, clients, events.as_slice())?;
        effects_of(self.alloc, releases.as_slice())
    }
}

// Whether an acceptance makes a majority.
fn is_quorum(vote: &Vote) -> bool
    ensures { result ≡ spec.is_quorum vote.now }
{
    match vote {
        Vote::Quorum => true,
        _ => false,
    }
}

// The open value of a node of this role, where it is active.
fn active_value<'v>(role: Role, value: Option<&'v [u8]>) -> Option<&'v [u8]>
    ensures { option_copied result ≡ spec.active_value role (option_copied value.entry) }
{
    match role {
        Role::Active => value,
        _ => None,
    }
}

// What is reported of replies that are released.
fn effects_of(alloc: Global, releases: &[Release]) -> Result<List<Effect>, AllocError>
    ensures { IfOk result (λ effects. effects ≡ map release_effect releases.now) }
{
    // The checker loses sight of these types in a function that names none.
    let _event: Option<(Event, Kind)> = None;
    let mut effects = List::new(alloc);
    for release in releases {
        effects.push(release_effect(release))?;
    }
    Ok(effects)
}
