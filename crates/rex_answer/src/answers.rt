//! Answers, and those to what is refused.

ghost use Rattle.std.specs.Prelude.{◌≡◌, None, IfOk, IfSome, option_map};
ghost use Rattle.rex_syntax.specs.Check.{IsChecked};
ghost use Rattle.rex_syntax.specs.Service.{IsService};
ghost use Rattle.rex_lockset.specs.Refusal.{refusal_of as refusal};
ghost use Rattle.rex_answer.specs.Due as due;

use crate::refusals::{check_refusal, text_refusal};
use rex_lockset::{refusal_of, refusals_are_exact};
use rex_syntax::service::Declarations;
use std::alloc::{AllocError, Global};
use std::marker::Model;

/// A status, and what is to be written before the program ends with it. Contracts see it as what is due.
#[derive(Drop)]
pub struct Answer {
    pub status: u8,
    pub text: Vec<u8>,
}

impl Model for Answer {
    ghost use Rattle.rex_answer.specs.Due.{Due};

    ghost Value = { Due };

    ghost view = { λ a. record { status = a.status; text = a.text.items } };
}

/// What a text is answered that is refused at a line with a code.
pub fn refused(alloc: Global, line: u32, code: &'static [u8]) -> Result<Answer, AllocError>
    ensures { IfOk result (λ a. a ≡ due.due_refused line code.now) }
{
    let text = text_refusal(alloc, line, code)?;
    Ok(Answer { status: 1, text })
}

/// What a service is answered that the check refuses, if it does.
pub fn unchecked(alloc: Global, service: &Declarations) -> Result<Option<Answer>, AllocError>
    requires { IsService service.now }
    ensures due { IfOk result (λ a. a ≡ option_map (due.due_unchecked service.now) (refusal service.now)) }
    ensures broken { IfOk result (λ a. IfSome a (λ _. IsChecked service.now → ⊥)) }
    ensures checked { IfOk result (λ a. a ≡ None → IsChecked service.now) }
{
    refusals_are_exact();
    match refusal_of(alloc, service)? {
        None => Ok(None),
        Some(refused) => {
            let text = check_refusal(alloc, service, refused)?;
            Ok(Some(Answer { status: 3, text }))
        }
    }
}
