//! Where a line of a form may stand.

ghost use Rattle.std.specs.Prelude.{◌≡◌};
ghost use Rattle.rex_parse.specs.Table as table;

use crate::blocks::BlockKind;
use crate::language::{Above, Form};

impl Above {
    /// Whether a line of a form may stand here: inside a handler or outside, and in its own kind of block.
    pub(crate) fn is_placed(&self, form: Form) -> bool
        ensures { result ≡ table.is_placed self.now form }
    {
        let is_sided = is_same(is_inside(form), self.is_open());
        is_sided && suits(form, self.innermost())
    }
}

fn is_same(one: bool, other: bool) -> bool
    ensures { result ≡ table.same one other }
{
    if one { other } else { !other }
}

fn is_inside(form: Form) -> bool
    ensures { result ≡ table.is_inside form }
{
    !matches!(
        form,
        Form::Lanes | Form::Lock | Form::RwLock | Form::Sem | Form::Cond | Form::Var | Form::Handler
    )
}

/// Whether a line of a form may stand where this block is the innermost open one.
pub(crate) fn suits(form: Form, innermost: Option<BlockKind>) -> bool
    ensures { result ≡ table.suits form innermost }
{
    match form {
        Form::Else => matches!(innermost, Some(BlockKind::Then)),
        Form::EndIf => matches!(innermost, Some(BlockKind::Then | BlockKind::Otherwise)),
        Form::Busy => matches!(innermost, Some(BlockKind::Got)),
        Form::EndTry => matches!(innermost, Some(BlockKind::Missed)),
        Form::EndRepeat => matches!(innermost, Some(BlockKind::Loop)),
        _ => true,
    }
}
