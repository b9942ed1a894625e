#![tactic(auto)]

pub mod cells;
pub mod held;
pub mod objects;
pub mod record_index;
pub mod records;
