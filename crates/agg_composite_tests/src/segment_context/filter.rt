//! Tests of filters in a segment: the documents that match, and what a collector counts and hands
//! on.
mod collector;
mod evaluator;
mod given;
