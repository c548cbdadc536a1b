//! A snapshot that a node decoded, and the state that it spells.

ghost use Rattle.std.specs.Prelude.{◌≡◌, true, IfOk, IfSome, Ok};
ghost use Rattle.std.specs.Option.{option_copied};
ghost use Rattle.rex_syntax.specs.declared.service.Declarations.{Declarations};
ghost use Rattle.rex_node.specs.Parts.{HasDecoded};
ghost use Rattle.rex_node.specs.Restarting.{IsSaved, decoded_last, state_at};

use crate::values::copied;
use rex_ballot::Value;
use rex_state::state::State;
use std::alloc::{AllocError, Global};
use std::marker::Model;

/// A snapshot that a node decoded when it came up, and the state that it spells.
#[derive(Drop)]
pub struct Decoded {
    pub(crate) snapshot: Value,
    pub(crate) state: State,
}

impl Model for Decoded {
    ghost use Rattle.rex_node.specs.Parts.{DecodedValue};

    ghost Value = { DecodedValue };

    ghost view = { λ d. record { snapshot = d.snapshot; state = d.state } };
}

impl Decoded {
    fn new(alloc: Global, snapshot: &[u8], state: &State) -> Result<Decoded, AllocError>
        ensures { IfOk result (λ d. d ≡ record { snapshot = snapshot.now; state = state.now }) }
    {
        let snapshot = copied(alloc, snapshot)?;
        let state = state.copy(alloc)?;
        Ok(Decoded { snapshot, state })
    }

    fn is_of(&self, snapshot: &[u8]) -> bool
        ensures { result ≡ true → snapshot.now ≡ self.now.snapshot }
    {
        snapshot == self.snapshot.as_slice()
    }
}

/// The state that a snapshot spells, where it is the one that was decoded before.
pub(crate) fn known_state<'a>(
    before: &'a Option<Decoded>,
    snapshot: &Option<Value>,
) -> Option<&'a State>
    ensures { (service : Declarations) → HasDecoded service before.now → IfSome (option_copied result) (λ s. state_at service snapshot.now ≡ Ok s) }
{
    match (before, snapshot) {
        (Some(decoded), Some(snapshot)) if decoded.is_of(snapshot.as_slice()) => {
            Some(&decoded.state)
        }
        _ => None,
    }
}

/// The snapshot and the state that it spells, where there is one that wasn't decoded before.
pub(crate) fn decoded_anew(
    alloc: Global,
    is_known: bool,
    snapshot: &Option<Value>,
    state: &State,
) -> Result<Option<Decoded>, AllocError>
    ensures { (service : Declarations) → IsSaved service snapshot.now state.now → IfOk result (HasDecoded service) }
{
    match snapshot {
        Some(snapshot) if !is_known => Ok(Some(Decoded::new(alloc, snapshot.as_slice(), state)?)),
        _ => Ok(None),
    }
}

/// A snapshot that was decoded takes the place of the one before.
pub(crate) fn remember(before: &mut Option<Decoded>, decoded: Option<Decoded>)
    ensures { before.new ≡ decoded_last decoded before.old }
{
    if let Some(decoded) = decoded {
        *before = Some(decoded);
    }
}
