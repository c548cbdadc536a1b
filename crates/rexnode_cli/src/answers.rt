//! What words are answered that are no command line.

ghost use Rattle.std.specs.Prelude.{◌≡◌, IfOk};
ghost use Rattle.rexnode_cli.specs.Loading as spec;

use rex_answer::Answer;
use std::alloc::{AllocError, Global};

/// What words are answered that are no command line.
pub fn usage(alloc: Global) -> Result<Answer, AllocError>
    ensures { IfOk result (λ a. a ≡ spec.due_usage) }
{
    let line = b"usage: rexnode [--trace] ID NODES SERVICE JOURNAL [--seed N] [--cluster NAME]\n";
    let text = Vec::from_slice(alloc, line)?;
    Ok(Answer { status: 2, text })
}
