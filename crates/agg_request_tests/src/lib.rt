//! Tests of requests that are read and written, and of requests as trees. The sources and requests
//! of tables are for the tests of crates above too.
#![tactic(auto)]

#[cfg(test)]
mod builders;
#[cfg(test)]
mod custom_order;
#[cfg(test)]
mod field_names;
#[cfg(test)]
mod refused;
pub mod request_tree;
#[cfg(test)]
mod same;
#[cfg(test)]
mod writer;
