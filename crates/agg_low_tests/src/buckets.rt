//! Tests of the buckets of a composite, and of what they are made of: limits and caches, bounded
//! maps, and lists of counts.
mod cache;
mod freeing;
mod full_page;
mod heap_map;
mod tuple_counts;
