//! Tests of collectors in segments, and of results that become one.
mod collector;
mod distributed;
mod given;
mod segment;
mod tree;
