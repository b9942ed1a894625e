//! What intermediate results hold, for the final ones.
ghost use Rattle.std.specs.Prelude.{◌≡◌, take};
ghost use Rattle.agg_results.specs.intermediate_results.Intermediate.{entries_of, orders_of};
ghost use Rattle.agg_results.specs.intermediate_results.Intermediate.{target_size_of};

use crate::intermediate_results::{IntermediateCompositeBucketResult, IntermediateTermBucketEntry};
use agg_values::{MissingOrder, Order, Tuple};

impl IntermediateCompositeBucketResult {
    /// The order and the missing order of each source.
    pub(crate) fn orders(&self) -> &[(Order, MissingOrder)]
        ensures { result.now ≡ orders_of self.now }
    {
        self.entries.orders()
    }

    /// The entries, ascending.
    pub(crate) fn entries(&self) -> &[(Tuple, IntermediateTermBucketEntry)]
        ensures { result.now ≡ entries_of self.now }
    {
        self.entries.entries()
    }

    /// How many entries a page has room for.
    pub(crate) fn target_size(&self) -> u32
        ensures { result ≡ target_size_of self.now }
    {
        self.target_size
    }

    /// The lowest entries, as many as a page has room for.
    pub(crate) fn into_lowest(self) -> Vec<(Tuple, IntermediateTermBucketEntry)>
        ensures { result.items ≡ take (target_size_of self) (entries_of self) }
    {
        let (_, mut entries) = self.entries.into_parts();
        entries.truncate(self.target_size as usize);
        entries
    }
}
