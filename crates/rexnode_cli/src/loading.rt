//! The service that a node runs, from its text.

ghost use Rattle.std.specs.Prelude.{◌≡◌, ◌≤◌, Some, Err, IfErr, IfOk, length, option_map};
ghost use Rattle.rex_traits.specs.Causes.{Rose};
ghost use Rattle.rex_traits.specs.Growth.{ForGrowth};
ghost use Rattle.rex_traits.specs.Inputs.{IsWholeInput};
ghost use Rattle.rex_traits.specs.declared.reading.TheConstants.{READ_BYTES};
ghost use Rattle.rex_lockset.specs.Refusal.{refusal_of as refusal};
ghost use Rattle.rex_answer.specs.Due.{due_unchecked};
ghost use Rattle.rexnode_cli.specs.Loading.{IsCheckedAs, IsLoaded, IsLow, IsRefusal, OfAnswer};
ghost use Rattle.rexnode_cli.specs.declared.loading.NotLoaded.TheVariants.{Unread};

use rex_answer::{Answer, refused, scenario_code, service_code, unchecked};
use rex_identity::digest_of;
use rex_parse::{ReadError, read_service};
use rex_scenario::{SCENARIO_BYTES, ScenarioCode};
use rex_syntax::checked::Checked;
use rex_syntax::service::Service;
use rex_traits::{READ_BYTES, ReadFault, Source, read_input};
use std::alloc::{AllocError, Global};

// What is read of a text is enough to tell one that is too long.
const _: () = prove!(READ_BYTES == SCENARIO_BYTES + 1);

/// A checked service, and the digest of its text.
#[derive(Drop)]
pub struct Loaded {
    pub service: Checked,
    pub digest: [u8; 32],
}

/// Why there is no service to run.
#[derive(Drop)]
pub enum NotLoaded {
    /// The text is no service, or one that isn't checked. This is what `rex check` answers.
    Refused(Answer),
    /// A read failed.
    Unread,
    /// Memory is short.
    OutOfMemory,
}

impl From<AllocError> for NotLoaded {
    ghost use Rattle.rexnode_cli.specs.declared.loading.NotLoaded.TheVariants.{OutOfMemory};

    ghost from_gives = { λ _ e. e ≡ OutOfMemory };

    fn from(_: AllocError) -> NotLoaded {
        NotLoaded::OutOfMemory
    }
}

// A service of this text, if it is checked.
fn check(alloc: Global, service: Service, text: &[u8]) -> Result<Loaded, NotLoaded>
    ensures loaded { IfOk result (IsCheckedAs service text.now) }
    ensures refused { IfErr result (OfAnswer (λ due. option_map (due_unchecked service) (refusal service) ≡ Some due)) }
    ensures low { IfErr result IsLow }
    ensures read { IfErr result (λ e. e ≡ Unread → ⊥) }
{
    if let Some(answer) = unchecked(alloc, service.declarations())? {
        return Err(NotLoaded::Refused(answer));
    }
    Ok(Loaded {
        service: Checked::of(service),
        digest: digest_of(text),
    })
}

// The service of a text.
fn load_text(alloc: Global, text: &[u8]) -> Result<Loaded, NotLoaded>
    requires { length text.now ≤ READ_BYTES }
    ensures loaded { IfOk result (IsLoaded text.now) }
    ensures refused { IfErr result (IsRefusal text.now) }
    ensures low { IfErr result IsLow }
    ensures read { IfErr result (λ e. e ≡ Unread → ⊥) }
{
    if text.len() > SCENARIO_BYTES {
        let answer = refused(alloc, 0, scenario_code(ScenarioCode::TooLong))?;
        return Err(NotLoaded::Refused(answer));
    }
    match read_service(alloc, text) {
        Ok(service) => check(alloc, service, text),
        Err(ReadError::Refused { line, code }) => {
            let answer = refused(alloc, line, service_code(code))?;
            Err(NotLoaded::Refused(answer))
        }
        Err(ReadError::OutOfMemory) => Err(NotLoaded::OutOfMemory),
    }
}

/// Reads the text of a service from a source, to its end or to one byte more than a text may have, and checks it.
pub fn load_service<S: Source>(alloc: Global, source: &mut S) -> Result<Loaded, NotLoaded>
    // It is the service of the bytes that the source gave in this call, and their digest; or these are refused for the first cause that
    // there is.
    ensures loaded { IfOk result (λ l. ForGrowth (S.given source.old) (S.given source.new) (λ text. IsLoaded text l)) }
    ensures refused { IfErr result (λ e. ForGrowth (S.given source.old) (S.given source.new) (λ text. IsRefusal text e)) }

    // Those bytes are all of the text: the source has ended, or gave one byte more than a text may have.
    ensures whole { IfOk result (λ _. ForGrowth (S.given source.old) (S.given source.new)
        (IsWholeInput (S.ended source.new) (S.left source.old) (S.left source.new))) }
    ensures whole_refused { IfErr result (OfAnswer (λ _. ForGrowth (S.given source.old) (S.given source.new)
        (IsWholeInput (S.ended source.new) (S.left source.old) (S.left source.new)))) }

    ensures low { IfErr result IsLow }

    // That a read failed is answered only where the source counted a fault.
    ensures unread { result ≡ Err Unread → Rose (S.faults source.old) (S.faults source.new) }
{
    match read_input(alloc, source) {
        Ok(input) => load_text(alloc, &input.bytes),
        Err(ReadFault::Failed) => Err(NotLoaded::Unread),
        Err(ReadFault::OutOfMemory) => Err(NotLoaded::OutOfMemory),
    }
}
