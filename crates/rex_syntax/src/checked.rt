//! A checked service.

ghost use Rattle.std.specs.Prelude.{◌≡◌};
ghost use Rattle.rex_syntax.specs.Service.{IsService};
ghost use Rattle.rex_syntax.specs.Check.{IsChecked};
ghost use Rattle.rex_syntax.specs.Held.{HasLine, IsHeldAt};

use crate::held::held_at;
use crate::locks::Lockset;
use crate::service::{Declarations, Service};
use std::marker::Model;

/// A service that the check accepts. Contracts see it as its declarations.
#[derive(Drop)]
pub struct Checked {
    service: Service,
}

impl Model for Checked {
    ghost use Rattle.rex_syntax.specs.declared.service.Declarations.{Declarations};
    ghost use Rattle.rex_syntax.specs.Service.{IsService};
    ghost use Rattle.rex_syntax.specs.Check.{IsChecked};

    ghost Value = { Declarations };

    ghost view = { λ c. c.service };

    ghost invariant = { λ c. IsService c.service × IsChecked c.service };
}

impl Checked {
    /// A service that was found to pass the check.
    pub fn of(service: Service) -> Checked
        requires { IsService service × IsChecked service }
        ensures { result ≡ service }
    {
        Checked { service }
    }

    pub fn declarations(&self) -> &Declarations
        ensures whole { result.now ≡ self.now }
        ensures sound { IsService self.now }
        ensures checked { IsChecked self.now }
    {
        self.service.declarations()
    }

    /// What a lane holds when it comes to a line of a handler, as the check says. Both are numbered from 0. It takes
    /// no memory.
    pub fn lockset(&self, handler: u8, line: u16) -> Lockset
        requires { HasLine self.now handler line }
        ensures { IsHeldAt self.now handler line result }
    {
        let handlers = self.declarations().handlers.as_slice();
        held_at(handlers[handler as usize].lines.as_slice(), line)
    }
}
