ghost use Rattle.std.specs.Prelude.{◌≡◌, ◌+◌, OnErr, OnOk, IsErrOf};
ghost use Rattle.agg_results.specs.metric_results.Merges.{Merges};
ghost use Rattle.agg_results.specs.intermediate_results.Intermediate.{below_entry, plain_entry};
ghost use Rattle.agg_results.specs.intermediate_results.Merging.{AreMerged};
ghost use Rattle.agg_results.specs.intermediate_results.Outcome.{BelowDiffer, DoneUnless};
ghost use Rattle.agg_results.specs.intermediate_results.Outcome.{EntriesPass};

use crate::intermediate_results::IntermediateAggregationResults;
use crate::metric_results::{MergeError, add_counts};

/// What is held for one group of a composite.
pub type IntermediateCompositeBucketEntry = IntermediateTermBucketEntry;

/// What is held for one group: its number of occurrences, and the results over its documents.
#[derive(Drop)]
#[cycle(held_results)]
pub struct IntermediateTermBucketEntry {
    pub doc_count: u64,
    pub sub_aggregation: IntermediateAggregationResults,
}

impl IntermediateTermBucketEntry {
    /// Adds what another holds. After an error the count is 0, and there are no sub-results.
    pub fn merge_fruits(&mut self, other: IntermediateTermBucketEntry) -> Result<(), MergeError>
        ensures count { OnOk result
            (self.new.doc_count ≡ self.old.doc_count + other.doc_count) }
        ensures below { OnOk result
            (AreMerged (below_entry self.old) (below_entry other) (below_entry self.new)) }
        ensures shapes { OnOk result (¬ (BelowDiffer self.old other)) }
        ensures counts { OnOk result (¬ (EntriesPass self.old other)) }
        ensures mismatch { IsErrOf result MergeError.Mismatch → BelowDiffer self.old other }
        ensures too_many { IsErrOf result MergeError.TooMany
            → ¬ (BelowDiffer self.old other) × EntriesPass self.old other }
        ensures left { OnErr result (self.new ≡ plain_entry 0) }
    {
        let merged = self.merge_checked(other);
        if merged.is_err() {
            let alloc = self.sub_aggregation.results.allocator();
            self.doc_count = 0;
            self.sub_aggregation = IntermediateAggregationResults::new(alloc);
        }
        merged
    }

    // Adds what another holds. After an error some of it may be held.
    fn merge_checked(&mut self, other: IntermediateTermBucketEntry) -> Result<(), MergeError>
        ensures count { OnOk result
            (self.new.doc_count ≡ self.old.doc_count + other.doc_count) }
        ensures below { OnOk result
            (AreMerged (below_entry self.old) (below_entry other) (below_entry self.new)) }
        ensures shapes { OnOk result (¬ (BelowDiffer self.old other)) }
        ensures counts { OnOk result (¬ (EntriesPass self.old other)) }
        ensures mismatch { IsErrOf result MergeError.Mismatch → BelowDiffer self.old other }
        ensures too_many { IsErrOf result MergeError.TooMany
            → ¬ (BelowDiffer self.old other) × EntriesPass self.old other }
    {
        let mut passed = false;
        self.merge_all(other, &mut passed)?;
        if passed {
            return Err(MergeError::TooMany);
        }
        Ok(())
    }

    /// Adds what another holds. Where a sum is too large, `passed` is raised, and what is then held
    /// means nothing.
    #[cycle(merging)]
    pub(crate) fn merge_all(
        &mut self,
        other: IntermediateTermBucketEntry,
        passed: &mut bool,
    ) -> Result<(), MergeError>
        ensures ok { OnOk result (Merges passed.old passed.new
            (BelowDiffer self.old other) (EntriesPass self.old other)) }
        ensures merged { OnOk result (DoneUnless passed.new self.old other self.new) }
        ensures mismatch { IsErrOf result MergeError.Mismatch → BelowDiffer self.old other }
        ensures too_many { ¬ (IsErrOf result MergeError.TooMany) }
    {
        self.doc_count = add_counts(self.doc_count, other.doc_count, passed);
        self.sub_aggregation
            .merge_all(other.sub_aggregation, passed)
    }
}
