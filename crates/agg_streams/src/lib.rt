//! Where bytes come from and where they go: in memory, or over std.
#![tactic(auto)]

mod fault;
pub mod sink;
pub mod source;

pub use fault::Failed;
