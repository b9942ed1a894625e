//! Tests of where bytes come from and go to.
mod memory_source;
mod sink;
mod standard_sink;
mod standard_source;
