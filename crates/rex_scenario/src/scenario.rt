//! What a scenario has.

use rex_list::List;
use rex_parse::{Above, ServiceCode};
pub use rex_schedule::{Scenario, ScheduleLine};
use rex_syntax::request::Request;
use std::alloc::AllocError;

/// Why a line of a scenario is refused.
#[derive(Clone, Copy, Debug, PartialEq, Eq)]
pub enum ScenarioCode {
    /// A line of the service is refused.
    Service(ServiceCode),
    /// S1: the text has more than `SCENARIO_BYTES` bytes.
    TooLong,
    /// S2: a byte isn't allowed, outside the service.
    BadByte,
    /// S3: a heading isn't the one that is due, another line stands before the service, or the text ends too early.
    OutOfPlace,
    /// S4: a heading's words or value are wrong.
    BadHeading,
    /// S5: a request's words aren't of the form or range.
    BadRequest,
    /// S6: a request names no handler, or has the wrong number of arguments.
    BadCall,
    /// S7: client and sequence of an earlier request.
    Repeated,
    /// S8: a schedule line's words aren't of a form that may come so far, a number in it is no number below 2^64, or a limit
    /// none below 2^32; or the schedule may have no lines.
    BadLine,
    /// S9: a schedule line past the 100,000th.
    TooManyLines,
    /// S10: a node, lane or request that isn't there, a node that asks itself, or message 0.
    NotThere,
    /// S11: a request past the 65,536th.
    TooManyRequests,
    /// S12: limits that aren't as many as the lanes.
    WrongLimits,
    /// S13: a checkpoint in the old version, of a service whose states don't have it.
    NoOldForm,
}

/// Why a line was not taken.
#[derive(Clone, Copy, Debug, PartialEq, Eq)]
pub(crate) enum LineFault {
    Refused(ScenarioCode),
    OutOfMemory,
}

impl From<AllocError> for LineFault {
    ghost use Rattle.rex_scenario.specs.declared.scenario.LineFault.TheVariants.{OutOfMemory};
    ghost use Rattle.std.specs.Prelude.{◌≡◌};

    ghost from_gives = { λ _ fault. fault ≡ OutOfMemory };

    fn from(_error: AllocError) -> LineFault {
        LineFault::OutOfMemory
    }
}

/// Why a text is no scenario.
#[derive(Clone, Copy, Debug, PartialEq, Eq)]
pub enum ScenarioError {
    /// The first bad line, counted from 1, with the least code that fits it. A text that is too long is refused at line 0,
    /// and one that ends too early at the number after its last line's.
    Refused { line: u32, code: ScenarioCode },
    OutOfMemory,
}

/// Where in a scenario a line stands: which heading came last.
#[derive(Clone, Copy, Debug, PartialEq, Eq)]
pub enum Stage {
    /// Before `%nodes`.
    Start,
    /// After `%nodes`.
    Nodes,
    /// After `%seed`.
    Seed,
    /// In the service.
    Service,
    Requests,
    Schedule,
}

/// What the lines above a line of a scenario have said.
#[derive(Drop)]
pub struct Sections {
    pub stage: Stage,
    /// Whether the schedule may have lines.
    pub scheduled: bool,
    /// The number of nodes, 0 before `%nodes`.
    pub nodes: u8,
    /// The seed, 0 where no line says it.
    pub seed: u32,
    pub service: Above,
    pub requests: List<Request>,
    pub schedule: List<ScheduleLine>,
    /// The line of the first readers-writer lock, condition or semaphore.
    pub beyond: Option<u32>,
}
