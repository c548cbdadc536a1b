//! How one message is found, and handed over.

ghost use Rattle.std.specs.Prelude.{◌≡◌, ◌<◌, ◌≤◌, ◌-◌, true, length, slice_set, IfOk, OnOk};
ghost use Rattle.std.specs.List.{All};
ghost use Rattle.rex_msg.specs.Spelling.{HasSpelling, spelling_of};
ghost use Rattle.rex_schedule.specs.declared.scenario.ScheduleLine.TheVariants as line;
ghost use Rattle.rex_world.specs.Kept.{IsRunning};
ghost use Rattle.rex_world.specs.World.{IsSpelled};
ghost use Rattle.rex_world.specs.Calls.{Comes};
ghost use Rattle.rex_world.specs.Finding.{IsFound, IsMarked, RunsWithSent};

use crate::calls::kind_of;
use crate::told::Told;
use crate::world::World;
use rex_event::{Event, Kind};
use rex_msg::{DecodeError, Message, decode};
use rex_replay::Replayer;
use rex_report::Effect;
use rex_steps::Call;
use rex_syntax::checked::Checked;
use rex_traits::Store;
use std::alloc::{AllocError, Global};

// The message that bytes spell.
fn read(alloc: Global, bytes: &[u8]) -> Result<Message, AllocError>
    requires { IsSpelled bytes.now }
    ensures spelling { IfOk result (λ message. HasSpelling message) }
    ensures spelled { IfOk result (λ message. bytes.now ≡ spelling_of message) }
{
    match decode(alloc, bytes) {
        Ok(message) => Ok(message),
        Err(DecodeError::OutOfMemory) => Err(AllocError),
        Err(DecodeError::Bad { .. }) => unreachable!(),
    }
}

impl<S: Store> World<S> {
    // The message of a number, if there is one.
    fn find(&self, number: u64) -> Result<Option<Message>, AllocError>
        requires { All IsSpelled self.now.net }
        ensures { IfOk result (λ found. IsFound self.now.net number found) }
    {
        match self.net.get(number) {
            None => Ok(None),
            Some(bytes) => Ok(Some(read(self.alloc, bytes)?)),
        }
    }

    // The message of a number was handed over.
    fn mark(&mut self, number: u64)
        requires some { 0 < number }
        requires there { number ≤ length self.old.handed.items }
        ensures { IsMarked number self.old self.new }
    {
        self.handed[number as usize - 1] = true;
    }

    // Hands a message over to the node that it goes to.
    fn hand_to_node<R: Replayer>(
        &mut self,
        svc: &Checked,
        replayer: &mut R,
        told: &mut Told,
        number: u64,
        message: &Message,
    ) -> Result<(), AllocError>
        requires { RunsWithSent svc.now self.old number message.now }
        ensures comes { OnOk result (Comes svc.now self.old self.new told.old told.new (line.Deliver number)) }
    {
        told.effects.push(Effect::Delivered {
            number,
            kind: kind_of(&message.content),
            from: message.from,
            to: message.to,
        })?;
        self.mark(number);
        self.call(svc, replayer, told, message.to, &Call::Receive { message })
    }

    /// Hands over the message of a number, if there is one.
    pub(crate) fn deliver<R: Replayer>(
        &mut self,
        svc: &Checked,
        replayer: &mut R,
        told: &mut Told,
        number: u64,
    ) -> Result<(), AllocError>
        requires running { IsRunning svc.now self.old }
        ensures comes { OnOk result (Comes svc.now self.old self.new told.old told.new (line.Deliver number)) }
    {
        match self.find(number)? {
            Some(message) => self.hand_to_node(svc, replayer, told, number, &message),
            None => {
                told.effects.push(Effect::NoMessage { number })?;
                Ok(())
            }
        }
    }
}
