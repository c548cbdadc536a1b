//! Writing a state.

ghost use Rattle.std.specs.Prelude.{◌≡◌, ◌<◌, ◌++◌, ◌≤◌, length, true, OnOk, IfOk, Ok};
ghost use Rattle.std.specs.List.{All, count_by, flat_map};
ghost use Rattle.rex_event.specs.Limits.{most_lanes};
ghost use Rattle.rex_syntax.specs.declared.version.Version.TheVariants.{One, Two};
ghost use Rattle.rex_syntax.specs.Versions.{has_old_form, has_version};
ghost use Rattle.rex_state.specs.Sound.{IsSound};
ghost use Rattle.rex_snapshot.specs.Parts.{known_of, known_if, known_from, parts_of};
ghost use Rattle.rex_snapshot.specs.Spelling.{waiter_bytes, queue_bytes, known_bytes, state_bytes, EntryFits, EntryIsTyped, IsLimited, IsTyped};
ghost use Rattle.rex_state.specs.Room.{IsQueueSmall};
ghost use Rattle.rex_snapshot.specs.Writing.{has_sent, LaneCanBeWritten};
ghost use Rattle.rex_snapshot.specs.Allowed.{version_in};
ghost use Rattle.rex_snapshot.specs.Reading.{state_in};

use crate::limits::SNAPSHOT_BYTES;
use crate::semaphores::write_semaphores;
use crate::write_lanes::lanes;
use crate::write_variables::variables;
use rex_event::CLIENT_ENTRIES;
use rex_state::lane::{Entry, Queue};
use rex_state::state::State;
use rex_syntax::checked::Checked;
use rex_syntax::version::Version;
use rex_wire::Writer;
use std::alloc::{AllocError, Global};

/// Lanes that wait.
fn waiting(writer: &mut Writer, lanes: &[u8]) -> Result<(), AllocError>
    requires { All (λ lane. lane < most_lanes) lanes.now }
    ensures { OnOk result (writer.new ≡ writer.old ++ flat_map waiter_bytes lanes.now) }
{
    for lane in lanes {
        writer.u8(*lane + 1)?;
    }
    Ok(())
}

/// The lanes that wait at a condition.
fn queue(writer: &mut Writer, queue: &Queue) -> Result<(), AllocError>
    requires { IsQueueSmall queue.now }
    ensures { OnOk result (writer.new ≡ writer.old ++ queue_bytes queue.now) }
{
    let lanes = queue.lanes.as_slice();
    writer.u8(lanes.len() as u8)?;
    waiting(writer, lanes)
}

/// The lanes that wait at each condition.
fn queues(writer: &mut Writer, queues: &[Queue]) -> Result<(), AllocError>
    requires { All IsQueueSmall queues.now }
    ensures { OnOk result (writer.new ≡ writer.old ++ flat_map queue_bytes queues.now) }
{
    for one in queues {
        queue(writer, one)?;
    }
    Ok(())
}

/// A client with what is known of it, whose bytes are put together first: there are many.
fn known(writer: &mut Writer, client: u16, entry: Entry) -> Result<(), AllocError>
    ensures spelled { OnOk result (writer.new ≡ writer.old ++ known_bytes (known_of client entry)) }
    ensures typed { OnOk result (EntryIsTyped entry) }
{
    let c = client.to_be_bytes();
    let s = entry.sequence.to_be_bytes();
    match entry.reply {
        None => writer.bytes(&[c[0], c[1], s[0], s[1], s[2], s[3], 0]),
        Some(value) => {
            writer.bytes(&[c[0], c[1], s[0], s[1], s[2], s[3], 1])?;
            writer.i64(value)
        }
    }
}

fn has_sent(entry: Entry) -> bool
    ensures { result ≡ has_sent entry }
{
    entry.sequence != 0
}

/// A client, if it has sent something.
fn known_if(writer: &mut Writer, client: u16, entry: Entry) -> Result<(), AllocError>
    requires { EntryFits entry }
    ensures spelled { OnOk result (writer.new ≡ writer.old ++ flat_map known_bytes (known_if client entry)) }
    ensures typed { OnOk result (EntryIsTyped entry) }
{
    if entry.sequence == 0 {
        return Ok(());
    }
    known(writer, client, entry)
}

/// The clients that have sent something.
fn clients(writer: &mut Writer, entries: &[Entry]) -> Result<(), AllocError>
    requires few { length entries.now ≤ CLIENT_ENTRIES }
    requires fit { All EntryFits entries.now }
    ensures spelled { OnOk result (writer.new ≡ writer.old ++ flat_map known_bytes (known_from 0 entries.now)) }
    ensures typed { OnOk result (All EntryIsTyped entries.now) }
{
    for client in 0..entries.len() as u16 {
        known_if(writer, client, entries[client as usize])?;
    }
    Ok(())
}

/// How many clients have sent something.
fn client_count(entries: &[Entry]) -> usize
    ensures count { result ≡ count_by has_sent entries.now }
    ensures known { result ≡ length (known_from 0 entries.now) }
{
    entries.iter().filter(|entry| has_sent(**entry)).count()
}

fn write(
    writer: &mut Writer,
    svc: &Checked,
    version: Version,
    state: &State,
) -> Result<(), AllocError>
    requires variables { length state.now.variables ≡ length svc.now.variables }
    requires lanes { All LaneCanBeWritten state.now.lanes }
    requires clients { length state.now.clients ≤ CLIENT_ENTRIES }
    requires entries { All EntryFits state.now.clients }
    ensures spelled { OnOk result (writer.new ≡ writer.old ++ state_bytes svc.now version state.now) }
    ensures typed { OnOk result (IsTyped state.now) }
{
    let own = state.queues();
    writer.u8(version.number())?;
    writer.u8(state.lanes().len() as u8)?;
    lanes(writer, own, state.lanes())?;
    variables(writer, svc, version, state.variables())?;
    queues(writer, own)?;
    write_semaphores(writer, state.semaphores())?;
    writer.u16(client_count(state.entries()) as u16)?;
    clients(writer, state.entries())
}

// Room for so many bytes is made at once: most snapshots have fewer.
const USUAL_BYTES: usize = 4_096;

/// The snapshot of a state in a version that the service's states have.
fn spell(
    alloc: Global,
    svc: &Checked,
    version: Version,
    state: &State,
) -> Result<Vec<u8>, AllocError>
    requires has { has_version svc.now version ≡ true }
    requires sound { IsSound svc.now state.now }
    requires limited { IsLimited state.now }
    ensures spelled { IfOk result (λ v. v.items ≡ state_bytes svc.now version state.now) }
    ensures short { IfOk result (λ v. length v.items ≤ SNAPSHOT_BYTES) }
    ensures again { IfOk result (λ v. state_in svc.now v.items ≡ Ok state.now) }
{
    let _service = svc.declarations();
    let mut writer = Writer::with_capacity(alloc, USUAL_BYTES)?;
    write(&mut writer, svc, version, state)?;
    Ok(writer.into_vec())
}

/// The snapshot of a state, its one spelling of version 2. The state is sound, its clients and their sequences are in
/// their ranges, and each lane did no more events than a history has.
pub fn encode(alloc: Global, svc: &Checked, state: &State) -> Result<Vec<u8>, AllocError>
    requires sound { IsSound svc.now state.now }
    requires limited { IsLimited state.now }
    ensures spelled { IfOk result (λ v. v.items ≡ state_bytes svc.now Two state.now) }
    ensures version { IfOk result (λ v. version_in v.items ≡ Two) }
    ensures short { IfOk result (λ v. length v.items ≤ SNAPSHOT_BYTES) }
    ensures again { IfOk result (λ v. state_in svc.now v.items ≡ Ok state.now) }
{
    spell(alloc, svc, Version::Two, state)
}

/// The same of version 1, for a service whose states have it.
pub fn encode_old(alloc: Global, svc: &Checked, state: &State) -> Result<Vec<u8>, AllocError>
    requires old { has_old_form svc.now ≡ true }
    requires sound { IsSound svc.now state.now }
    requires limited { IsLimited state.now }
    ensures spelled { IfOk result (λ v. v.items ≡ state_bytes svc.now One state.now) }
    ensures version { IfOk result (λ v. version_in v.items ≡ One) }
    ensures short { IfOk result (λ v. length v.items ≤ SNAPSHOT_BYTES) }
    ensures again { IfOk result (λ v. state_in svc.now v.items ≡ Ok state.now) }
{
    spell(alloc, svc, Version::One, state)
}
