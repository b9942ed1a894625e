#![tactic(auto)]

pub mod dates;
pub mod decimals;
pub mod fields;
pub mod formats;
pub mod words;
