//! What is wrong with an input of `walk`, and where.
#![tactic(auto)]

mod check;
pub mod findings;
pub mod refusals;
mod refused;
mod verdict;

pub use crate::findings::{Finding, Severity};
pub use check::check_input;
