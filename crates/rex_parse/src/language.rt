//! What the lines of a service say and declare.

use crate::blocks::Blocks;
use crate::name_table::NameTable;
use rex_list::List;
use rex_syntax::line::Line;
use rex_syntax::service::{Condition, Handler, Lock, Semaphore, Variable};
use std::alloc::AllocError;

/// Why a line of a service is refused.
#[derive(Clone, Copy, Debug, PartialEq, Eq)]
pub enum ServiceCode {
    /// P1: a byte isn't allowed.
    BadByte,
    /// P2: the first word is unknown, or stands where it may not.
    Misplaced,
    /// P3: the number of words or a fixed word is wrong.
    BadForm,
    /// P4: a word isn't a name where one is due.
    NoName,
    /// P5: a word isn't a number in range where one is due.
    NoNumber,
    /// P6: an expression isn't one to eight operands with an operator between each two.
    BadExpression,
    /// P7: a name isn't declared above.
    Undeclared,
    /// P8: a name is declared above, but isn't of the kind that is due.
    WrongKind,
    /// P9: a name that a line declares is taken already.
    Taken,
    /// P10: a `repeat` inside as many as there may be.
    TooDeep,
    /// P11: a count limit is passed.
    TooMany,
    /// P12: the first line isn't `lanes`, or `lanes` comes again.
    LanesFirst,
    /// P13: a `reply` inside an open block.
    ReplyInBlock,
    /// P14: the text ends inside a handler, or has none.
    Unended,
}

/// What the first word of a line says.
#[derive(Clone, Copy, Debug, PartialEq, Eq)]
pub enum Form {
    Lanes,
    Lock,
    RwLock,
    Sem,
    Cond,
    Var,
    Handler,
    Acquire,
    Share,
    Release,
    Try,
    Busy,
    EndTry,
    Wait,
    Signal,
    Broadcast,
    Down,
    Up,
    Set,
    Let,
    Clock,
    Random,
    If,
    Else,
    EndIf,
    Repeat,
    EndRepeat,
    Reply,
}

/// What a declared name stands for, each kind numbered from 0 in order of declaration.
#[derive(Clone, Copy, Debug, PartialEq, Eq)]
pub enum Meaning {
    Lock(u8),
    Semaphore(u8),
    Condition(u8),
    Variable(u16),
    Handler(u8),
}

/// A declared name, as contracts see it.
#[derive(Drop)]
pub struct Entry {
    pub name: List<u8>,
    pub meaning: Meaning,
}

/// The handler whose lines are being read.
#[derive(Drop)]
pub struct OpenHandler {
    pub name: List<u8>,
    pub line_number: u32,
    pub parameters: u8,
    pub lines: List<Line>,
    pub line_numbers: List<u32>,
    /// The blocks that are open after its lines.
    pub blocks: Blocks,
}

/// What the lines above a line have declared.
#[derive(Drop)]
pub struct Above {
    /// The number of lanes, once it is declared.
    pub lanes: Option<u64>,
    /// What each declared name stands for, in order of declaration.
    pub names: NameTable,
    pub locks: List<Lock>,
    pub semaphores: List<Semaphore>,
    pub conditions: List<Condition>,
    pub variables: List<Variable>,
    pub handlers: List<Handler>,
    /// The parameters and locals of the open handler, in the order in which they were made.
    pub locals: List<List<u8>>,
    pub open_handler: Option<OpenHandler>,
}

/// Why a line was not taken.
#[derive(Clone, Copy, Debug, PartialEq, Eq)]
pub enum Fault {
    Refused(ServiceCode),
    OutOfMemory,
}

/// Why a text is no service.
#[derive(Clone, Copy, Debug, PartialEq, Eq)]
pub enum ReadError {
    /// The first bad line, counted from 1, with the least code that fits it.
    Refused { line: u32, code: ServiceCode },
    OutOfMemory,
}

impl From<AllocError> for Fault {
    ghost use Rattle.rex_parse.specs.declared.language.Fault.TheVariants.{OutOfMemory};
    ghost use Rattle.std.specs.Prelude.{◌≡◌};

    ghost from_gives = { λ _ fault. fault ≡ OutOfMemory };

    fn from(_error: AllocError) -> Fault {
        Fault::OutOfMemory
    }
}
