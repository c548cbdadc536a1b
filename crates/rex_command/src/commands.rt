//! What the program can be asked to do.

/// What a command line asks for.
#[derive(Clone, Copy, Debug, PartialEq, Eq)]
pub enum Command {
    /// To run a scenario, with this many workers (1 to `WORKERS`) for each replay, and with each node's records in a journal on a disk
    /// in memory, or in a list.
    Run { workers: u8, journal: bool },
    /// To run a scenario, and write the trace that was agreed.
    Trace,
    /// To check a service.
    Check,
    /// To write the scenario that is made up from this seed, of this many rounds (1 to 1,000).
    Generate { seed: u32, size: u32 },
    /// To run that scenario, with this many workers (1 to `WORKERS`) for each replay, and write one line about the run.
    Soak { seed: u32, size: u32, workers: u8 },
}
