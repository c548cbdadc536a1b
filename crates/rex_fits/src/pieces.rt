//! What a value spells.

ghost use Rattle.std.specs.Prelude.{◌≡◌, Ok, IfOk, IfSome};
ghost use Rattle.rex_delta.specs.Spelling.{HasSpelling};
ghost use Rattle.rex_state.specs.Counts.{AreCounted};
ghost use Rattle.rex_cluster.specs.Values as values;
ghost use Rattle.rex_fits.specs.Applied as spec;

use crate::causes::have_same;
use rex_delta::{DecodeError, decode};
use rex_event::{Delta, Event};
use rex_list::List;
use rex_reduce::reduce;
use rex_syntax::checked::Checked;
use std::alloc::{AllocError, Global};

// Whether a delta is one of the service's lanes, with the least causes.
fn is_piece(alloc: Global, svc: &Checked, delta: &Delta) -> Result<bool, AllocError>
    requires { HasSpelling delta.now }
    ensures { IfOk result (λ good. good ≡ values.is_piece svc.now (Ok delta.now)) }
{
    if delta.bases.len() != svc.declarations().lanes as usize {
        return Ok(false);
    }
    let causes = reduce(alloc, delta.events.as_slice())?;
    Ok(have_same(delta.causes.as_slice(), &causes))
}

/// The events of the delta that a value spells, where it is one of the service's lanes with the least causes.
pub(crate) fn spelled_events(
    alloc: Global,
    svc: &Checked,
    value: &[u8],
) -> Result<Option<List<Event>>, AllocError>
    ensures spelled { IfOk result (λ found. found ≡ spec.spelled_events svc.now value.now) }
    ensures counted { IfOk result (λ found. IfSome found AreCounted) }
{
    match decode(alloc, value) {
        Ok(delta) => {
            if is_piece(alloc, svc, &delta)? {
                Ok(Some(delta.events))
            } else {
                Ok(None)
            }
        }
        Err(DecodeError::Bad { .. }) => Ok(None),
        Err(DecodeError::OutOfMemory) => Err(AllocError),
    }
}
