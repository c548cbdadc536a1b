//! Writing what an event did.

ghost use Rattle.std.specs.Prelude.{◌≡◌, ◌<◌, ◌+◌, ◌++◌, OnOk, FitsSigned};
ghost use Rattle.std.specs.List.{All, flat_map};
ghost use Rattle.std.specs.Int.{w64};
ghost use Rattle.rex_event.specs.Limits.{most_lanes};
ghost use Rattle.rex_event.specs.declared.event.Kind.TheVariants.{Begin, Signal};
ghost use Rattle.rex_wire.specs.Spelling.{byte, signed};
ghost use Rattle.rex_delta.specs.Spelling.{code_of, content, KindFits, IsTyped};

use crate::limits::PLACES;
use rex_event::Kind;
use rex_list::Arguments;
use rex_wire::Writer;
use std::alloc::AllocError;

fn values(writer: &mut Writer, values: &[i64]) -> Result<(), AllocError>
    ensures spelled { OnOk result (writer.new ≡ writer.old ++ flat_map signed values.now) }
    ensures typed { OnOk result (All (FitsSigned w64) values.now) }
{
    for value in values {
        writer.i64(*value)?;
    }
    Ok(())
}

fn begin(
    writer: &mut Writer,
    client: u16,
    sequence: u32,
    handler: u8,
    arguments: &Arguments,
) -> Result<(), AllocError>
    requires { handler < PLACES }
    ensures spelled { OnOk result (writer.new ≡ writer.old ++ content (Begin client sequence handler arguments.now)) }
    ensures typed { OnOk result (All (FitsSigned w64) arguments.now) }
{
    let arguments = arguments.as_slice();
    writer.u16(client)?;
    writer.u32(sequence)?;
    writer.u8(handler + 1)?;
    writer.u8(arguments.len() as u8)?;
    values(writer, arguments)
}

fn condition(writer: &mut Writer, condition: u8, lock: u8) -> Result<(), AllocError>
    requires condition { condition < PLACES }
    requires lock { lock < PLACES }
    ensures { OnOk result (writer.new ≡ writer.old ++ byte (condition + 1) ++ byte (lock + 1)) }
{
    writer.u8(condition + 1)?;
    writer.u8(lock + 1)
}

fn signal(writer: &mut Writer, condition: u8, woken: Option<u8>) -> Result<(), AllocError>
    requires { KindFits most_lanes (Signal condition woken) }
    ensures { OnOk result (writer.new ≡ writer.old ++ content (Signal condition woken)) }
{
    writer.u8(condition + 1)?;
    let number = match woken {
        None => 0,
        Some(lane) => lane + 1,
    };
    writer.u8(number)
}

/// The number of a kind.
fn code(kind: &Kind) -> u8
    ensures { result ≡ code_of kind.now }
{
    match kind {
        Kind::Begin { .. } => 1,
        Kind::AcqEx { .. } => 2,
        Kind::AcqSh { .. } => 3,
        Kind::RelEx { .. } => 4,
        Kind::RelSh { .. } => 5,
        Kind::TryOk { .. } => 6,
        Kind::TryBusy { .. } => 7,
        Kind::Wait { .. } => 8,
        Kind::Wake { .. } => 9,
        Kind::Signal { .. } => 10,
        Kind::Broadcast { .. } => 11,
        Kind::Clock { .. } => 12,
        Kind::Random { .. } => 13,
        Kind::Reply { .. } => 14,
        Kind::Down { .. } => 15,
        Kind::Up { .. } => 16,
    }
}

/// What follows the number of a kind.
fn kind_content(writer: &mut Writer, kind: &Kind) -> Result<(), AllocError>
    requires { KindFits most_lanes kind.now }
    ensures spelled { OnOk result (writer.new ≡ writer.old ++ content kind.now) }
    ensures typed { OnOk result (IsTyped kind.now) }
{
    match kind {
        Kind::Begin {
            client,
            sequence,
            handler,
            arguments,
        } => begin(writer, *client, *sequence, *handler, arguments),
        Kind::AcqEx { lock }
        | Kind::AcqSh { lock }
        | Kind::RelEx { lock }
        | Kind::RelSh { lock }
        | Kind::TryOk { lock }
        | Kind::TryBusy { lock } => writer.u8(*lock + 1),
        Kind::Wait {
            condition: of,
            lock,
        }
        | Kind::Wake {
            condition: of,
            lock,
        } => condition(writer, *of, *lock),
        Kind::Signal { condition, woken } => signal(writer, *condition, *woken),
        Kind::Broadcast { condition, woken } => {
            writer.u8(*condition + 1)?;
            writer.u64(*woken)
        }
        Kind::Clock { value } => writer.i64(*value),
        Kind::Random { value } => writer.u32(*value),
        Kind::Reply { client, value } => {
            writer.u16(*client)?;
            writer.i64(*value)
        }
        Kind::Down { semaphore } | Kind::Up { semaphore } => writer.u8(*semaphore + 1),
    }
}

/// The number of a kind and what follows it.
pub fn kind(writer: &mut Writer, kind: &Kind) -> Result<(), AllocError>
    requires { KindFits most_lanes kind.now }
    ensures spelled { OnOk result (writer.new ≡ writer.old ++ byte (code_of kind.now) ++ content kind.now) }
    ensures typed { OnOk result (IsTyped kind.now) }
{
    writer.u8(code(kind))?;
    kind_content(writer, kind)
}
