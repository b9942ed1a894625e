//! Tests of limits and what is charged, errors, the ids of buckets and documents that wait.
mod bucket_ids;
mod cached;
mod caches;
mod error;
mod limits;
mod memory_consumption;
