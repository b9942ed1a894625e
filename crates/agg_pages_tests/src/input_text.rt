//! Tests of inputs: what is read of texts, and those that are generated.
mod generator;
mod input;
