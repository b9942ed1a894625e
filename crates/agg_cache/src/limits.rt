//! The limits of a walk, and the bytes that its collectors charge.
ghost use Rattle.std.specs.Prelude.{◌≡◌, ◌≤◌, unwrap_or};

use crate::AggregationLimitsGuard;
use std::marker::Model;

/// The number of a bucket of a collector.
pub type BucketId = u32;

/// The bytes that the collectors of a walk may hold, where no limit is given.
pub const DEFAULT_MEMORY_LIMIT: u64 = 500_000_000;

/// The buckets that a result may have, where no limit is given.
pub const DEFAULT_BUCKET_LIMIT: u32 = 65_000;

/// The limits of a walk, and the bytes that its collectors have charged.
#[derive(Debug, Drop)]
pub struct LimitsLedger {
    pub(crate) in_use: u64,
    memory_limit: u64,
    bucket_limit: u32,
}

impl Model for LimitsLedger {
    ghost use Rattle.std.specs.Prelude.{◌≤◌};
    ghost use Rattle.agg_cache.specs.Limits.{Limits};

    ghost Value = { Limits };

    ghost view = { λ ledger. record {
      in_use = ledger.in_use;
      memory_limit = ledger.memory_limit;
      bucket_limit = ledger.bucket_limit;
    } };

    ghost invariant = { λ ledger. ledger.in_use ≤ ledger.memory_limit };
}

impl LimitsLedger {
    /// A ledger with nothing in use, and the default in place of a limit that isn't given.
    pub fn new(memory_limit: Option<u64>, bucket_limit: Option<u32>) -> LimitsLedger
        ensures in_use { result.in_use ≡ 0 }
        ensures memory { result.memory_limit ≡ unwrap_or memory_limit 500000000 }
        ensures buckets { result.bucket_limit ≡ unwrap_or bucket_limit 65000 }
    {
        LimitsLedger {
            in_use: 0,
            memory_limit: memory_limit.unwrap_or(DEFAULT_MEMORY_LIMIT),
            bucket_limit: bucket_limit.unwrap_or(DEFAULT_BUCKET_LIMIT),
        }
    }

    /// The bytes that are charged and not given back, never more than may be in use.
    pub fn in_use(&self) -> u64
        ensures in_use { result ≡ self.now.in_use }
        ensures within { result ≤ self.now.memory_limit }
    {
        self.in_use
    }

    /// The bytes that may be in use.
    pub fn memory_limit(&self) -> u64
        ensures { result ≡ self.now.memory_limit }
    {
        self.memory_limit
    }

    /// The buckets that a result may have.
    pub fn bucket_limit(&self) -> u32
        ensures { result ≡ self.now.bucket_limit }
    {
        self.bucket_limit
    }

    /// A guard that holds no bytes.
    pub fn guard(&self) -> AggregationLimitsGuard
        ensures { result ≡ 0 }
    {
        AggregationLimitsGuard::new()
    }
}
