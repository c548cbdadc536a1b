//! The frames by which a process answers.

ghost use Rattle.std.specs.Prelude.{◌≡◌, ◌++◌, OnErr, OnOk};
ghost use Rattle.rex_msg.specs.Spelling.{IsMessage};
ghost use Rattle.rex_frames.specs.Answering as spec;
ghost use Rattle.rex_frames.specs.Answering.{count_frame, effect_frame, letter_frame, message_frame, status_frame};

use crate::frames::push_frame;
use crate::letters::{EFFECT, MADE, SEND, STATUS};
use rex_event::{Event, Kind};
use rex_msg::{Message, encode};
use rex_report::{Effect, Role, push_row};
use rex_syntax::service::Declarations;
use rex_wire::Writer;
use std::alloc::AllocError;

/// What a node is.
#[derive(Clone, Copy, PartialEq, Eq)]
pub struct Status {
    pub role: Role,
    /// Its promise, a ballot, or 0.
    pub promised: u64,
    /// How many agreed values it knows.
    pub known: u32,
    /// How many events are live.
    pub live: u32,
}

/// Appends an effect: what a report line says of it. Where memory is short nothing changes, as with each of these calls.
pub fn push_effect(
    out: &mut Vec<u8>,
    service: &Declarations,
    effect: &Effect,
) -> Result<(), AllocError>
    ensures ok { OnOk result (out.new.items ≡ out.old.items ++ effect_frame service.now effect.now) }
    ensures err { OnErr result (out.new.items ≡ out.old.items) }
{
    let _event: Option<(Event, Kind)> = None;
    let mut row = Vec::new(*out.allocator());
    push_row(&mut row, service, 0, effect)?;
    // The line's number, here 0, and a space stand before the first word, and a line feed after the last.
    push_frame(out, &[EFFECT], &row[2..row.len() - 1])
}

/// Appends a message: the node that it goes to, and its bytes.
pub fn push_message(out: &mut Vec<u8>, message: &Message) -> Result<(), AllocError>
    requires { IsMessage message.now }
    ensures ok { OnOk result (out.new.items ≡ out.old.items ++ message_frame message.now) }
    ensures err { OnErr result (out.new.items ≡ out.old.items) }
{
    let bytes = encode(*out.allocator(), message)?;
    push_frame(out, &[SEND, message.to], &bytes)
}

/// Appends how many events the lanes made.
pub fn push_count(out: &mut Vec<u8>, events: u32) -> Result<(), AllocError>
    ensures ok { OnOk result (out.new.items ≡ out.old.items ++ count_frame events) }
    ensures err { OnErr result (out.new.items ≡ out.old.items) }
{
    push_frame(out, &[MADE], &events.to_be_bytes())
}

/// Appends a frame of this letter alone.
pub fn push_letter(out: &mut Vec<u8>, letter: u8) -> Result<(), AllocError>
    ensures ok { OnOk result (out.new.items ≡ out.old.items ++ letter_frame letter) }
    ensures err { OnErr result (out.new.items ≡ out.old.items) }
{
    push_frame(out, &[letter], &[])
}

/// Appends what a node is.
pub fn push_status(out: &mut Vec<u8>, status: Status) -> Result<(), AllocError>
    ensures ok { OnOk result (out.new.items ≡ out.old.items ++ status_frame status) }
    ensures err { OnErr result (out.new.items ≡ out.old.items) }
{
    let mut numbers = Writer::new(*out.allocator());
    write_numbers(&mut numbers, status)?;
    push_frame(out, &[STATUS, role_code(status.role)], numbers.written())
}

fn write_numbers(writer: &mut Writer, status: Status) -> Result<(), AllocError>
    ensures { OnOk result (writer.new ≡ writer.old ++ spec.status_numbers status) }
{
    writer.u64(status.promised)?;
    writer.u32(status.known)?;
    writer.u32(status.live)
}

fn role_code(role: Role) -> u8
    ensures { result ≡ spec.role_code role }
{
    match role {
        Role::Follower => 0,
        Role::Candidate => 1,
        Role::Adopting => 2,
        Role::Active => 3,
    }
}
