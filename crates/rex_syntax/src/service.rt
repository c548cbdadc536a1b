//! What a service declares.

ghost use Rattle.std.specs.Prelude.{◌≡◌, ◌<◌, length};
ghost use Rattle.rex_syntax.specs.Service.{IsService};

use crate::line::Line;
use rex_list::{ARGUMENTS, List};

/// The most lanes, semaphores, conditions, variables and handlers that a service declares.
pub use rex_event::LANES;

pub const SEMAPHORES: usize = 64;

pub const CONDITIONS: usize = 64;

pub const VARIABLES: usize = 1024;

pub const HANDLERS: usize = 64;

/// The most characters of a name.
pub const NAME_BYTES: usize = 32;

/// The most lines of a handler, and the most locals with its parameters.
pub const LINES: usize = 256;

pub const LOCALS: usize = 16;

/// The most parameters of a handler: a request has no more arguments.
pub const PARAMETERS: usize = ARGUMENTS;

/// The most operands of an expression.
pub const OPERANDS: usize = 8;

/// The most loops inside one another.
pub const LOOPS: usize = 4;

/// The most turns of a loop.
pub const TURNS: u16 = 1000;

/// The most steps of a handler that passes the check.
pub const STEPS: u64 = 100_000;

/// The greatest first value of a semaphore.
pub const MOST_FIRST: u32 = 1_000_000;

#[derive(Clone, Copy, PartialEq, Eq, Debug)]
pub enum LockKind {
    Plain,
    ReadersWriter,
}

/// A lock. Locks of both kinds are numbered together in order of declaration, from 0.
#[derive(Drop)]
pub struct Lock {
    pub name: List<u8>,
    pub kind: LockKind,
}

/// A counting semaphore (Dijkstra), and its first value.
#[derive(Drop)]
pub struct Semaphore {
    pub name: List<u8>,
    pub first: u32,
}

/// A condition, and the number of its plain lock.
#[derive(Drop)]
pub struct Condition {
    pub name: List<u8>,
    pub lock: u8,
}

/// A variable, the number of the lock that guards it, and its first value.
#[derive(Drop)]
pub struct Variable {
    pub name: List<u8>,
    pub guard: u8,
    pub first: i64,
}

/// A handler. Its parameters are its first locals.
#[derive(Drop)]
pub struct Handler {
    pub name: List<u8>,
    /// The number of its `handler` line in the text that it was read from, counted from 1.
    pub line_number: u32,
    pub parameters: u8,
    pub locals: u8,
    pub lines: List<Line>,
    /// Of each of its lines the number in the text.
    pub line_numbers: List<u32>,
}

/// What a service declares, each kind in order of declaration.
#[derive(Drop)]
pub struct Declarations {
    pub lanes: u8,
    pub locks: List<Lock>,
    pub semaphores: List<Semaphore>,
    pub conditions: List<Condition>,
    pub variables: List<Variable>,
    pub handlers: List<Handler>,
}

/// Declarations in which what is named is there and of the right kind, blocks are matched, and numbers and counts are
/// within their limits. Contracts see a service as its declarations.
#[derive(Drop)]
pub struct Service {
    declarations: Declarations,
}

impl std::marker::Model for Service {
    ghost use Rattle.rex_syntax.specs.declared.service.Declarations.{Declarations};
    ghost use Rattle.rex_syntax.specs.Service.{IsService};

    ghost Value = { Declarations };

    ghost view = { λ s. s.declarations };

    ghost invariant = { λ s. IsService s.declarations };
}

impl Service {
    pub fn of(declarations: Declarations) -> Service
        requires { IsService declarations }
        ensures { result ≡ declarations }
    {
        Service { declarations }
    }

    pub fn declarations(&self) -> &Declarations
        ensures whole { result.now ≡ self.now }
        ensures sound { IsService self.now }
    {
        &self.declarations
    }
}
