//! Reading a state.

ghost use Rattle.std.specs.Prelude.{◌≡◌, ◌≤◌, IfOk, Ok, map, length, FitsSigned};
ghost use Rattle.std.specs.Int.{w8, w16, w64};
ghost use Rattle.std.specs.List.{All};
ghost use Rattle.rex_wire.specs.Decoding.{Gives, ReadsOn};
ghost use Rattle.rex_wire.specs.Reading.{allowed_at};
ghost use Rattle.rex_state.specs.Value.{StateValue};
ghost use Rattle.rex_state.specs.Sound.{IsSound};
ghost use Rattle.rex_state.specs.Start.{no_entries};
ghost use Rattle.rex_snapshot.specs.Allowed.{may_be_version, may_be_count};
ghost use Rattle.rex_snapshot.specs.Parts.{lane_in, entered, HasPlace, state_of};
ghost use Rattle.rex_snapshot.specs.Spelling.{HasSpelling, IsSnapshot};
ghost use Rattle.rex_snapshot.specs.Reading.{IsReadState, version_at, parts_at, parts_in, state_in};

use crate::allowed::{may_be_count, may_be_version, version_of};
use crate::parts::{Known, Parts, Seat};
use crate::read_clients::clients;
use crate::read_lanes::seats;
use crate::read_queues::queues;
use crate::read_variables::variables;
use crate::semaphores::read_semaphores;
use rex_list::List;
use rex_state::lane::{Entry, Lane};
use rex_state::new_entries;
use rex_state::state::State;
use rex_syntax::checked::Checked;
use rex_syntax::version::Version;
use rex_wire::{DecodeError, Reader, u8_wanted};
use std::alloc::{AllocError, Global};

/// The number of a version that the service's states have.
fn version_number(reader: &mut Reader, svc: &Checked) -> Result<u8, DecodeError>
    ensures { ReadsOn result reader.new (allowed_at w8 (may_be_version svc.now) reader.old) }
{
    let at = reader.at();
    let number = reader.u8()?;
    if !may_be_version(svc.declarations(), number) {
        return Err(DecodeError::Bad { at });
    }
    Ok(number)
}

/// The version.
#[tactic(auto, unfolding(crate::specs::Reading::version_at))]
fn version(reader: &mut Reader, svc: &Checked) -> Result<Version, DecodeError>
    ensures { ReadsOn result reader.new (version_at svc.now reader.old) }
{
    Ok(version_of(version_number(reader, svc)?))
}

/// How many clients have sent something.
fn client_count(reader: &mut Reader, seats: &[Seat]) -> Result<u16, DecodeError>
    ensures { ReadsOn result reader.new (allowed_at w16 (may_be_count seats.now) reader.old) }
{
    let at = reader.at();
    let count = reader.u16()?;
    if !may_be_count(seats, count) {
        return Err(DecodeError::Bad { at });
    }
    Ok(count)
}

/// The parts of a snapshot at the front of bytes.
#[tactic(auto, unfolding(crate::specs::Reading::parts_at))]
fn parts(alloc: Global, reader: &mut Reader, svc: &Checked) -> Result<Parts, DecodeError>
    ensures read { ReadsOn result reader.new (parts_at svc.now reader.old) }
    ensures typed { IfOk result (λ p. All (FitsSigned w64) p.variables) }
{
    let service = svc.declarations();
    let version = version(reader, svc)?;
    let lanes = u8_wanted(reader, service.lanes)?;
    let seats = seats(alloc, reader, svc, lanes)?;
    let variables = variables(alloc, reader, svc, version)?;
    let conditions = service.conditions.len() as u8;
    let queues = queues(alloc, reader, seats.as_slice(), conditions)?;
    let semaphores = read_semaphores(alloc, reader, service.semaphores.len())?;
    let count = client_count(reader, seats.as_slice())?;
    let clients = clients(alloc, reader, seats.as_slice(), count)?;
    Ok(Parts {
        version,
        seats,
        variables,
        queues,
        semaphores,
        clients,
    })
}

/// The parts of a snapshot that is all of the bytes.
#[tactic(auto, unfolding(crate::specs::Reading::parts_in))]
fn whole(alloc: Global, svc: &Checked, bytes: &[u8]) -> Result<Parts, DecodeError>
    ensures read { Gives result (parts_in svc.now bytes.now) }
    ensures typed { IfOk result (λ p. All (FitsSigned w64) p.variables) }
{
    let mut reader = Reader::new(bytes);
    let parts = parts(alloc, &mut reader, svc)?;
    reader.end()?;
    Ok(parts)
}

fn lanes(alloc: Global, seats: List<Seat>) -> Result<Vec<Lane>, AllocError>
    ensures { IfOk result (λ v. v.items ≡ map lane_in seats) }
{
    seats
        .into_vec()
        .into_iter()
        .map(|seat| seat.lane)
        .collect(alloc)
}

/// The entries of all clients, by what is known of some.
fn entries(alloc: Global, known: &[Known]) -> Result<Vec<Entry>, AllocError>
    requires { All HasPlace known.now }
    ensures { IfOk result (λ v. v.items ≡ entered no_entries known.now) }
{
    let mut entries = new_entries(alloc)?;
    for k in known {
        entries[k.client as usize] = k.entry;
    }
    Ok(entries)
}

/// The state that the bytes spell, all of the bytes.
#[tactic(auto, unfolding(crate::specs::Reading::state_in))]
fn state(alloc: Global, svc: &Checked, bytes: &[u8]) -> Result<State, DecodeError>
    ensures read { Gives result (state_in svc.now bytes.now) }
    ensures parts { IfOk result (λ s. IsReadState svc.now bytes.now s) }
{
    let _service = svc.declarations();
    let parts = whole(alloc, svc, bytes)?;
    let lanes = lanes(alloc, parts.seats)?;
    let entries = entries(alloc, parts.clients.as_slice())?;
    Ok(State::of_parts(
        svc,
        parts.variables.into_vec(),
        lanes,
        parts.queues.into_vec(),
        parts.semaphores.into_vec(),
        entries,
    ))
}

/// The state of which the bytes, all of them, are a snapshot, in a version that the service's states have. The state is sound;
/// bytes that spell no such state are refused at the first field from the left that is absent, cut short or not allowed.
pub fn decode(alloc: Global, svc: &Checked, bytes: &[u8]) -> Result<State, DecodeError>
    ensures sound { IfOk result (λ s. IsSound svc.now s) }
    ensures found { IfOk result (λ s. HasSpelling s × IsSnapshot svc.now s bytes.now) }
    ensures only { (s : StateValue) → IsSound svc.now s → HasSpelling s → IsSnapshot svc.now s bytes.now → Gives result (Ok s) }
    ensures exact { Gives result (state_in svc.now bytes.now) }
{
    let _service = svc.declarations();
    state(alloc, svc, bytes)
}
