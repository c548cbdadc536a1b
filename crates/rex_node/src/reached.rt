//! A state to which a node came by replaying.

ghost use Rattle.std.specs.Prelude.{◌≡◌, IfOk};
ghost use Rattle.rex_node.specs.Parts as spec;

use rex_state::state::State;
use std::alloc::{AllocError, Global};
use std::marker::Model;

/// A state to which a node came by replaying, and after how many known values it is.
#[derive(Drop)]
pub struct Reached {
    pub(crate) count: u32,
    pub(crate) state: State,
}

impl Model for Reached {
    ghost use Rattle.rex_node.specs.Parts.{ReachedValue};

    ghost Value = { ReachedValue };

    ghost view = { λ r. record { count = r.count; state = r.state } };
}

/// What a node keeps of a state to which it came after so many values: nothing, where these are the ones up to its base, or once it
/// forgot some.
pub(crate) fn reached_at(
    alloc: Global,
    offset: u32,
    base: u32,
    count: u32,
    state: &State,
) -> Result<Option<Reached>, AllocError>
    ensures { IfOk result (λ reached. reached ≡ spec.reached_at offset base count state.now) }
{
    if offset > 0 || base == count {
        return Ok(None);
    }
    let state = state.copy(alloc)?;
    Ok(Some(Reached { count, state }))
}
