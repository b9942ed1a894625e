//! Tests of intervals and the starts of buckets.
mod interval;
mod interval_text;
mod start;
