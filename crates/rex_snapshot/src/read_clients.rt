//! Reading what is known of clients.

ghost use Rattle.std.specs.Prelude.{◌≡◌, ◌≤◌, ◌-◌};
ghost use Rattle.std.specs.Int.{w8, w16, w32};
ghost use Rattle.rex_wire.specs.Decoding.{ReadsOn};
ghost use Rattle.rex_wire.specs.Reading.{allowed_at};
ghost use Rattle.rex_snapshot.specs.Allowed.{IsAhead, may_be_client, may_be_sequence, may_be_replied};
ghost use Rattle.rex_snapshot.specs.Reading.{given_at, reply_at, known_at, clients_at};

use crate::ahead::{Ahead, ahead_of};
use crate::parts::{Known, Seat};
use rex_list::List;
use rex_state::lane::Entry;
use rex_wire::{DecodeError, Reader};
use std::alloc::Global;

/// A client above the one before, with as many more after it.
fn client(
    reader: &mut Reader,
    seats: &[Seat],
    ahead: Ahead,
    above: u16,
    left: u16,
) -> Result<u16, DecodeError>
    requires { IsAhead seats.now above ahead }
    ensures { ReadsOn result reader.new (allowed_at w16 (may_be_client seats.now above left) reader.old) }
{
    let at = reader.at();
    let client = reader.u16()?;
    if !ahead.may_be_client(seats, above, left, client) {
        return Err(DecodeError::Bad { at });
    }
    Ok(client)
}

/// The client's last sequence.
fn sequence(
    reader: &mut Reader,
    seats: &[Seat],
    ahead: Ahead,
    above: u16,
    client: u16,
) -> Result<u32, DecodeError>
    requires { IsAhead seats.now above ahead }
    ensures { ReadsOn result reader.new (allowed_at w32 (may_be_sequence seats.now client) reader.old) }
{
    let at = reader.at();
    let sequence = reader.u32()?;
    if !ahead.may_be_sequence(seats, above, client, sequence) {
        return Err(DecodeError::Bad { at });
    }
    Ok(sequence)
}

/// Whether the client's last request was replied to.
fn replied(
    reader: &mut Reader,
    seats: &[Seat],
    ahead: Ahead,
    above: u16,
    client: u16,
) -> Result<u8, DecodeError>
    requires { IsAhead seats.now above ahead }
    ensures { ReadsOn result reader.new (allowed_at w8 (may_be_replied seats.now client) reader.old) }
{
    let at = reader.at();
    let replied = reader.u8()?;
    if !ahead.may_be_replied(seats, above, client, replied) {
        return Err(DecodeError::Bad { at });
    }
    Ok(replied)
}

/// A reply's value.
#[tactic(auto, unfolding(crate::specs::Reading::given_at))]
fn given(reader: &mut Reader) -> Result<Option<i64>, DecodeError>
    ensures { ReadsOn result reader.new (given_at reader.old) }
{
    Ok(Some(reader.i64()?))
}

/// The reply, where one was given.
fn reply(reader: &mut Reader, replied: u8) -> Result<Option<i64>, DecodeError>
    ensures { ReadsOn result reader.new (reply_at replied reader.old) }
{
    if replied == 0 {
        return Ok(None);
    }
    given(reader)
}

/// A client that has sent something.
#[tactic(auto, unfolding(crate::specs::Reading::known_at))]
fn known(
    reader: &mut Reader,
    seats: &[Seat],
    ahead: Ahead,
    above: u16,
    left: u16,
) -> Result<Known, DecodeError>
    requires { IsAhead seats.now above ahead }
    ensures { ReadsOn result reader.new (known_at seats.now (above, left) reader.old) }
{
    let client = client(reader, seats, ahead, above, left)?;
    let sequence = sequence(reader, seats, ahead, above, client)?;
    let replied = replied(reader, seats, ahead, above, client)?;
    let reply = reply(reader, replied)?;
    Ok(Known {
        client,
        entry: Entry { sequence, reply },
    })
}

/// As many clients that have sent something.
pub fn clients(
    alloc: Global,
    reader: &mut Reader,
    seats: &[Seat],
    count: u16,
) -> Result<List<Known>, DecodeError>
    ensures { ReadsOn result reader.new (clients_at seats.now count reader.old) }
{
    let mut clients = List::new(alloc);
    let mut above = 0;
    let mut ahead = ahead_of(seats, above);
    for n in 0..count {
        let known = known(reader, seats, ahead, above, count - n - 1)?;
        ahead = ahead.past(seats, above, known.client);
        above = known.client;
        clients.push(known)?;
    }
    Ok(clients)
}
