//! Tests of requests as trees, and the sources and requests of tables, which the tests of crates
//! above use too.
#[cfg(test)]
mod builder;
#[cfg(test)]
mod check;
pub mod given;
#[cfg(test)]
mod source;
