//! The check as a whole.

ghost use Rattle.std.specs.Prelude.{◌≡◌, None, Some, OnOk, IfOk, IfErr};
ghost use Rattle.rex_syntax.specs.Check.{IsChecked};
ghost use Rattle.rex_lockset.specs.Refusal.{refusal_of as refusal};
ghost use Rattle.rex_lockset.specs.Answer.{IfRefused};

use crate::refusal::{Refused, refusal_of};
use rex_syntax::checked::Checked;
use rex_syntax::service::Service;
use std::alloc::Global;

/// Why a service doesn't pass.
#[derive(Clone, Copy, PartialEq, Eq, Debug)]
pub enum CheckError {
    /// The first line or handler that breaks a rule.
    Refused(Refused),
    OutOfMemory,
}

/// Checks a service, and answers its first refusal where there is one.
pub fn check(alloc: Global, service: Service) -> Result<Checked, CheckError>
    ensures same { IfOk result (λ checked. checked ≡ service) }
    ensures passes { OnOk result (refusal service ≡ None) }
    ensures first { IfErr result (λ error. IfRefused error (λ refused. refusal service ≡ Some refused)) }
    ensures sound { IfErr result (λ error. IfRefused error (λ _. IsChecked service → ⊥)) }
{
    match refusal_of(alloc, service.declarations()) {
        Ok(None) => Ok(Checked::of(service)),
        Ok(Some(refused)) => Err(CheckError::Refused(refused)),
        Err(_) => Err(CheckError::OutOfMemory),
    }
}
