//! The texts of effects.

ghost use Rattle.std.specs.Prelude.{◌≡◌, ◌++◌, OnOk};
ghost use Rattle.rex_world.specs.Report.{effects_text};

use rex_report::{Effect, push_row};
use rex_syntax::service::Declarations;
use std::alloc::AllocError;

/// Appends the report lines of effects of one schedule line.
pub(crate) fn push_effects(
    out: &mut Vec<u8>,
    service: &Declarations,
    number: u32,
    effects: &[Effect],
) -> Result<(), AllocError>
    ensures { OnOk result (out.new.items ≡ out.old.items ++ effects_text service.now number effects.now) }
{
    for effect in effects {
        push_row(out, service, number, effect)?;
    }
    Ok(())
}
