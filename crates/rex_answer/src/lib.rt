//! What a program answers before it ends: a status and a text.
#![tactic(auto)]

mod answers;
mod giving;
mod refusals;

pub use answers::{Answer, refused, unchecked};
pub use refusals::{check_code, check_refusal, line, scenario_code, service_code, text_refusal};
