//! Where input comes from, where output goes, where records are kept, and what a worker passes
//! before an event.
//!
//! [`Source`] and [`Sink`] are the two ends of a program's bytes. Each tells clauses the bytes that it
//! gave or took. Each has forms in memory, with or without planned faults, and an adapter over std's
//! readers and writers. [`read_input`] reads a whole input, and [`write_all`] writes a whole output. A
//! [`Keeper`] keeps what is to outlive a stop; its forms in memory are one that never fails and one
//! that can be armed.
#![tactic(auto)]

mod fault_plan;
mod gate;
mod keeper;
pub mod laws;
mod mem_keeper;
mod mem_sink;
mod mem_source;
mod obedient;
mod reading;
mod sink;
mod source;
mod standard;
mod store;
mod trail;
mod writing;

pub use gate::{Gate, OpenGate};
pub use keeper::{KeepFault, Keeper};
pub use mem_keeper::{Fate, MemKeeper, SureKeeper};
pub use mem_sink::{MemSink, SureSink};
pub use mem_source::{MemSource, SureSource};
pub use obedient::Obedient;
pub use reading::{Input, READ_BYTES, ReadFault, read_input};
pub use sink::{Sink, SinkFault};
pub use source::{Failed, Source};
pub use standard::{StdSink, StdSource};
pub use store::{ReopenFault, Store};
pub use writing::write_all;
