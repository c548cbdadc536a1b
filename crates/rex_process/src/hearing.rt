//! Messages of other processes.

ghost use Rattle.std.specs.Prelude.{◌≡◌, [], true, IfOk, OnOk, OnErr};
ghost use Rattle.std.specs.Option.{option_copied};
ghost use Rattle.rex_cluster.specs.Telling.{TellsNoState};
ghost use Rattle.rex_log.specs.Messages.{content_in, message_in};
ghost use Rattle.rex_processes.specs.Processes.Task.{Hear};
ghost use Rattle.rex_process.specs.Sending.{AllSent};
ghost use Rattle.rex_process.specs.Keeping.{ByAppends};
ghost use Rattle.rex_process.specs.Process.{Answers, IsLeft, IsProcess, IsSame, here};
ghost use Rattle.rex_process.specs.Hearing as spec;
ghost use Rattle.rex_process.specs.Hearing.{IsHeard, IsTestOf, IsTestOfAdopted, IsTestOfNext, IsTestOfOpen};

use crate::answers::Answer;
use crate::process::Process;
use rex_fits::Applied;
use rex_msg::{Content, Message};
use rex_report::Role;
use rex_steps::Call;
use rex_traits::Keeper;
use std::alloc::AllocError;

/// Whether a message may be heard.
#[derive(Drop)]
pub(crate) enum Test {
    /// It may.
    Passed,
    /// It may, and tells the value of the next instance, after which there is this.
    Known(Applied),
    /// It may not, since a value doesn't fit.
    Unfit,
}

impl<'a, K: Keeper> Process<'a, K> {
    /// Does what a message of another node asks for. It goes to this one, and tells no state.
    pub fn hear(&mut self, message: &Message) -> Result<Answer, AllocError>
        requires process { IsProcess K.records K.faults self.old }
        requires up { self.old.node.up ≡ true }
        requires message { IsHeard self.old.node.id self.old.node.nodes message.now }
        ensures answers { IfOk result (Answers K.records K.faults self.old self.new (Hear (message_in [] message.now))) }
        ensures sends { IfOk result AllSent }
        ensures process { OnOk result (IsProcess K.records K.faults self.new) }
        ensures same { IsSame self.old self.new }
        ensures left { OnErr result (IsLeft K.records self.old self.new (Hear (message_in [] message.now))) }
        ensures appends { ByAppends K.append_gives self.old.node.keeper self.new.node.keeper }
    {
        match self.test_of(&message.content)? {
            Test::Passed => Ok(Answer::Did(self.served(&Call::Receive { message }, None)?)),
            Test::Known(applied) => Ok(Answer::Did(self.served(
                &Call::Receive { message },
                Some(applied),
            )?)),
            Test::Unfit => Ok(Answer::Unfit),
        }
    }

    // Tests the value that a message may make known.
    fn test_of(&self, content: &Content) -> Result<Test, AllocError>
        requires process { IsProcess K.records K.faults self.now }
        requires up { self.now.node.up ≡ true }
        requires stateless { TellsNoState (content_in [] content.now) }
        ensures { IfOk result (IsTestOf K.records self.now content.now) }
    {
        match content {
            Content::Chosen { instance, value } => {
                if *instance == self.node.known() + 1 {
                    self.test_next(value.as_slice())
                } else {
                    Ok(Test::Passed)
                }
            }
            Content::Accepted { .. } => self.test_open(),
            _ => Ok(Test::Passed),
        }
    }

    // Tests the value of the next instance.
    fn test_next(&self, value: &[u8]) -> Result<Test, AllocError>
        requires process { IsProcess K.records K.faults self.now }
        requires up { self.now.node.up ≡ true }
        ensures { IfOk result (IsTestOfNext self.now.service self.now.clock (here K.records self.now) value.now) }
    {
        match self.tested(value)? {
            Some(applied) => Ok(Test::Known(applied)),
            None => Ok(Test::Unfit),
        }
    }

    // Tests the value that the node adopted, if it did. One that an active node has open is its own, and fits.
    fn test_open(&self) -> Result<Test, AllocError>
        requires process { IsProcess K.records K.faults self.now }
        requires up { self.now.node.up ≡ true }
        ensures { IfOk result (IsTestOfOpen self.now.service (here K.records self.now)) }
    {
        match adopted(self.node.role(), self.node.open_value()) {
            None => Ok(Test::Passed),
            Some(value) => self.test_adopted(value),
        }
    }

    // Tests the value that the node adopted.
    fn test_adopted(&self, value: &[u8]) -> Result<Test, AllocError>
        requires process { IsProcess K.records K.faults self.now }
        requires up { self.now.node.up ≡ true }
        ensures { IfOk result (IsTestOfAdopted self.now.service (here K.records self.now) value.now) }
    {
        match self.tested(value)? {
            Some(_) => Ok(Test::Passed),
            None => Ok(Test::Unfit),
        }
    }
}

// The open value of a node of this role, where it adopted that.
fn adopted<'v>(role: Role, value: Option<&'v [u8]>) -> Option<&'v [u8]>
    ensures { option_copied result ≡ spec.adopted_in role (option_copied value.entry) }
{
    match role {
        Role::Adopting => value,
        _ => None,
    }
}
