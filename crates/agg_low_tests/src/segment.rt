//! Tests of segments, and the values and documents of tables, which the tests of crates above use
//! too.
pub mod given;
#[cfg(test)]
mod segment;
