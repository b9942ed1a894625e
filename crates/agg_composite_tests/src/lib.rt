//! Tests of what a source reads in a segment, of what a collector holds and charges, and of
//! requests in a segment.
#![tactic(auto)]

#[cfg(test)]
mod accessor;
#[cfg(test)]
mod after_key;
#[cfg(test)]
mod charges;
#[cfg(test)]
mod collector;
#[cfg(test)]
mod date_offset;
#[cfg(test)]
mod divided_accessor;
#[cfg(test)]
mod found;
#[cfg(test)]
mod given;
#[cfg(test)]
mod least_value;
#[cfg(test)]
mod listing;
#[cfg(test)]
mod segment_context;
