//! Tests of metrics in a segment: of values of all classes, by parent.
mod collector;
mod given;
