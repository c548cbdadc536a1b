//! Recording without a lock: each lane's thread takes the service's locks by compare-and-exchange on words that carry
//! stamps, and the stamps tell afterwards in which order the lanes' events run (Lamport 1978; Guo et al. 2014).
#![tactic(auto)]

mod append;
mod assignment;
mod choice;
mod gather;
pub mod laws;
mod limits;
mod locks;
mod merge;
mod plays;
mod run;
mod seat;
mod stamped;
mod start;
mod step;
mod table;
mod view;

pub use assignment::Assignment;
pub use run::run_words;
pub use seat::{LockWords, WordSeat};
pub use stamped::Stamped;
pub use table::{Host, WordTurn, Words};
pub use view::{Gathered, Knowledge, Role, Rule, View};
