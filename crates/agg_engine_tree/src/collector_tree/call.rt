//! What a tree of collectors is asked.
ghost use Rattle.std.specs.Prelude.{◌≡◌};

use agg_cache::BucketId;
use agg_values::DocId;

/// To take documents under a parent, or to hand down all that waits.
#[derive(Clone, Copy)]
pub enum Call<'a> {
    Collect(BucketId, &'a [DocId]),
    Flush,
}

impl Call<'_> {
    ghost use Rattle.agg_engine_tree.specs.collector_tree.Call as spec;

    /// Whether all is to be handed down.
    pub fn is_flush(self) -> bool
        ensures { result ≡ spec.is_flush self.entry }
    {
        matches!(self, Call::Flush)
    }
}
