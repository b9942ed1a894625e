//! Tests of walks by themselves, with no input and no output around them, of what they count, of
//! the memory that they may take, and of the collectors and results that they stand on.
#![tactic(auto)]

#[cfg(test)]
mod collectors;
#[cfg(test)]
mod limits;
#[cfg(test)]
mod occurrences;
#[cfg(test)]
mod requests;
#[cfg(test)]
mod snapshot_results;
#[cfg(test)]
mod walk;
