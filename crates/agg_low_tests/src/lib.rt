//! Tests of the lowest crates: values, calendars, streams, segments, buckets and what buckets are
//! made of. The values and documents of tables are for the tests of crates above too.
#![tactic(auto)]

#[cfg(test)]
mod buckets;
#[cfg(test)]
mod calendar;
pub mod segment;
#[cfg(test)]
mod streams;
#[cfg(test)]
mod values;
