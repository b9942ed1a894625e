//! Tests of bounded maps.
mod array_keys;
mod many_keys;
mod two_parts;
