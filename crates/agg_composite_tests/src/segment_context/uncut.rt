//! Tests of how many documents the aggregations of a request list, and of whether starts of
//! buckets are in range.
mod counts;
mod given;
