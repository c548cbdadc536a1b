//! The check of a service before it runs: against races on variables, lanes that wait for each other in a circle, locks
//! kept at a reply, and handlers that run too long.
//!
//! What a lane holds is its lockset: each lock with its mode. The check follows the lines of a handler once, from the
//! first to the last, with the lockset with which a lane comes to each of them. Nothing is held at the first line. A
//! line is refused with a code where one of its tests fails, in this order:
//!
//! - Where two branches of an `if` or a `try` meet, they end with one lockset, else C5 at the `endif` or `endtry`; an
//!   absent `else` ends as it began. A loop's body ends with the lockset with which it began, else C6 at the
//!   `endrepeat`.
//! - `acquire` and `share` take a lock whose number is above those of all held ones, else C4. `try` takes one that isn't
//!   held, else C4; its second branch begins without the lock.
//! - `release` gives up a lock that is held, else C3.
//! - `wait` stands where its condition's lock is held exclusively and no other is held, and `signal` and `broadcast` where
//!   that lock is held exclusively, else C8.
//! - An expression reads variables whose guards are held in some mode, else C1.
//! - `set` writes a variable whose guard is held exclusively, else C2.
//! - `reply` stands where nothing is held, else C7.
//!
//! After the lines comes the bound on steps: one for a line, the greater one of two branches, and for a loop its turns,
//! each with a step more. Above the most, `STEPS`, the handler is refused as a whole with C9. Handlers go in order and lines in
//! order, lines that never run like all others, and the first refusal is the answer.
#![tactic(auto)]

mod answer;
mod bound;
mod known;
mod laws;
mod leads;
mod refusal;

pub use answer::{CheckError, check};
pub use bound::step_bound;
pub use laws::{refusals_are_exact, refusals_are_there};
pub use leads::leads_from;
pub use refusal::{Refused, refusal_of};
