//! The ids of buckets.
ghost use Rattle.std.specs.Prelude.{◌≡◌, ◌+◌, ◌↔◌, ⊤, IfOk, IsErr, OnErr, OnOk};

use crate::BucketId;
use agg_values::TooMany;
use std::alloc::AllocError;
use std::marker::Model;

/// Gives ids in order, each once. Contracts see the next one.
#[derive(Debug, Drop)]
pub struct BucketIdProvider {
    next: BucketId,
}

impl Model for BucketIdProvider {
    ghost use Rattle.std.specs.Prelude.{ℕ};

    ghost Value = { ℕ };

    ghost view = { λ provider. provider.next };
}

impl BucketIdProvider {
    /// Ids from 0 on.
    pub fn new() -> BucketIdProvider
        ensures { result ≡ 0 }
    {
        BucketIdProvider { next: 0 }
    }

    /// Ids from this one on.
    pub fn starting_at(next: u32) -> BucketIdProvider
        ensures { result ≡ next }
    {
        BucketIdProvider { next }
    }

    /// The next id. The greatest number of its type is never an id.
    pub fn next_bucket_id(&mut self) -> Result<BucketId, TooMany>
        ensures id { IfOk result (λ id. id ≡ self.old) }
        ensures next { OnOk result (self.new ≡ self.old + 1) }
        ensures too_many { IsErr result ↔ (self.old ≡ 4294967295) }
        ensures refused { OnErr result (self.new ≡ self.old) }
    {
        let id = self.next;
        if id == BucketId::MAX {
            return Err(TooMany);
        }
        self.next = id + 1;
        Ok(id)
    }
}

impl Clone for BucketIdProvider {
    ghost is_clone = { λ provider clone. clone ≡ provider };

    ghost is_infallible = { λ _. ⊤ };

    /// A provider of the same ids.
    fn clone(&self) -> Result<BucketIdProvider, AllocError> {
        Ok(BucketIdProvider { next: self.next })
    }
}

impl Default for BucketIdProvider {
    ghost is_default = { λ provider. provider ≡ 0 };

    /// Ids from 0 on.
    fn default() -> BucketIdProvider {
        BucketIdProvider::new()
    }
}
