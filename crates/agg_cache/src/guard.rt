//! What one collector has charged.
ghost use Rattle.std.specs.Prelude.{◌≡◌, ◌≤◌, ◌<◌, ◌+◌, IfErr, OnErr, OnOk};
ghost use Rattle.agg_cache.specs.Limits.{IsExceeded, charged};

use crate::LimitsLedger;
use agg_values::AggregationError;
use std::marker::Model;

/// The bytes that one collector has charged, which it gives back in the end.
#[derive(Debug, Drop)]
pub struct AggregationLimitsGuard {
    allocated: u64,
}

impl Model for AggregationLimitsGuard {
    ghost use Rattle.std.specs.Prelude.{ℕ};

    ghost Value = { ℕ };

    ghost view = { λ guard. guard.allocated };
}

impl AggregationLimitsGuard {
    /// A guard that holds no bytes.
    pub(crate) fn new() -> AggregationLimitsGuard
        ensures { result ≡ 0 }
    {
        AggregationLimitsGuard { allocated: 0 }
    }

    /// Charges bytes to the guard and to the ledger, which has at least the guard's in use. Refused
    /// exactly where the ledger would have more in use than its limit; a refused charge changes
    /// nothing.
    pub fn add_memory_consumed(
        &mut self,
        limits: &mut LimitsLedger,
        add_num_bytes: u64,
    ) -> Result<(), AggregationError>
        requires { self.old ≤ limits.old.in_use }
        ensures within { OnOk result
            (limits.old.in_use + add_num_bytes ≤ limits.old.memory_limit) }
        ensures ledger { OnOk result (limits.new ≡ charged add_num_bytes limits.old) }
        ensures guard { OnOk result (self.new ≡ self.old + add_num_bytes) }
        ensures exceeded { IfErr result (IsExceeded add_num_bytes limits.old) }
        ensures ledger_kept { OnErr result (limits.new ≡ limits.old) }
        ensures guard_kept { OnErr result (self.new ≡ self.old) }
    {
        let limit = limits.memory_limit();
        match limits.in_use.checked_add(add_num_bytes) {
            Some(sum) if sum <= limit => {
                limits.in_use = sum;
                self.allocated += add_num_bytes;
                Ok(())
            }
            _ => Err(AggregationError::MemoryExceeded {
                limit,
                current: limits.in_use.saturating_add(add_num_bytes),
            }),
        }
    }

    /// The bytes that it holds.
    pub fn allocated(&self) -> u64
        ensures { result ≡ self.now }
    {
        self.allocated
    }

    /// Gives all bytes back to the ledger, which has at least these in use.
    pub fn give_back(self, limits: &mut LimitsLedger)
        requires { self ≤ limits.old.in_use }
        ensures in_use { limits.new.in_use + self ≡ limits.old.in_use }
        ensures memory { limits.new.memory_limit ≡ limits.old.memory_limit }
        ensures buckets { limits.new.bucket_limit ≡ limits.old.bucket_limit }
    {
        limits.in_use -= self.allocated;
    }
}
