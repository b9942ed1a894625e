//! The limits of a walk, the ledger of what is in use and what containers take of it, why a
//! collector refuses documents, the ids of buckets, and the documents that wait for collectors
//! below.
#![tactic(auto)]

mod bucket_ids;
mod cache;
mod cached;
mod error;
mod guard;
mod high_card;
mod limits;
mod low_card;
mod memory_consumption;

pub use bucket_ids::BucketIdProvider;
pub use cache::{Batch, SubAggCache};
pub use cached::{CachedSubAggs, HighCardCachedSubAggs, LowCardCachedSubAggs, PUSHES_UNTIL_DUE};
pub use error::CollectError;
pub use guard::AggregationLimitsGuard;
pub use high_card::HighCardSubAggCache;
pub use limits::{BucketId, DEFAULT_BUCKET_LIMIT, DEFAULT_MEMORY_LIMIT, LimitsLedger};
pub use low_card::LowCardSubAggCache;
pub use memory_consumption::MemoryConsumption;
