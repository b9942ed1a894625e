ghost use Rattle.std.specs.Prelude.{◌≡◌, ◌∷◌, [], None, false, IfSome, IsErrOf, MatchBool, OnErr};
ghost use Rattle.std.specs.Prelude.{OnOk, option_map};
ghost use Rattle.std.specs.List.{IsAmong};
ghost use Rattle.std.specs.Map.{keys_of, values_of};
ghost use Rattle.agg_values.specs.Names.{put, value_of, without};
ghost use Rattle.agg_results.specs.intermediate_results.Merging.{AreMerged, CountsPass};
ghost use Rattle.agg_results.specs.intermediate_results.Merging.{ShapesDiffer, SomeOfBoth};

use crate::intermediate_results::IntermediateCompositeBucketResult;
use crate::intermediate_results::merged::merged_over;
use crate::metric_results::{IntermediateMetricResult, MergeError};
use agg_values::{NameEntries, NameKeys, NameMap, Text};
use std::alloc::Global;

/// The intermediate results of a request, by name.
#[derive(Drop)]
#[cycle(held_results)]
pub struct IntermediateAggregationResults {
    pub(crate) results: NameMap<IntermediateAggregationResult>,
}

/// The intermediate result of one aggregation.
#[derive(Drop)]
#[cycle(held_results)]
pub enum IntermediateAggregationResult {
    Bucket(IntermediateBucketResult),
    Metric(IntermediateMetricResult),
}

/// An intermediate result that has buckets.
#[derive(Drop)]
#[cycle(held_results)]
pub enum IntermediateBucketResult {
    Filter {
        doc_count: u64,
        sub_aggregations: IntermediateAggregationResults,
    },
    Composite {
        buckets: IntermediateCompositeBucketResult,
    },
}

/// The documents that a filter matches: how many, and the results over them.
#[derive(Drop)]
pub struct IntermediateFilterBucketResult {
    pub doc_count: u64,
    pub sub_aggregations: IntermediateAggregationResults,
}

impl IntermediateAggregationResults {
    /// No names.
    pub fn new(alloc: Global) -> IntermediateAggregationResults
        ensures { result.results ≡ [] }
    {
        IntermediateAggregationResults {
            results: NameMap::new(alloc),
        }
    }

    /// The allocator that it was made with.
    pub fn allocator(&self) -> Global {
        self.results.allocator()
    }

    /// The result of a name, None exactly where the name isn't held.
    pub fn get(&self, key: &Text) -> Option<&IntermediateAggregationResult>
        ensures value { option_map (λ r. r.now) result ≡ value_of key.now self.now.results }
        ensures member { IfSome result (λ r. IsAmong (values_of self.now.results) r.now) }
    {
        self.results.get(key)
    }

    /// Takes the result of a name out, None exactly where the name isn't held.
    pub fn remove(&mut self, key: &Text) -> Option<IntermediateAggregationResult>
        ensures value { result ≡ value_of key.now self.old.results }
        ensures rest { self.new.results ≡ without key.now self.old.results }
    {
        self.results.remove(key)
    }

    /// The names, ascending.
    pub fn keys(&self) -> NameKeys<'_, IntermediateAggregationResult>
        ensures { result ≡ keys_of self.now.results }
    {
        self.results.keys()
    }

    /// The names with their results, ascending by name.
    pub(crate) fn iter(&self) -> NameEntries<'_, IntermediateAggregationResult>
        ensures { result ≡ self.now.results }
    {
        self.results.iter()
    }

    /// Whether no name is held.
    pub(crate) fn is_empty(&self) -> bool
        ensures { MatchBool result (self.now.results ≡ []) (¬ (self.now.results ≡ [])) }
    {
        self.results.is_empty()
    }

    /// Inserts a result; where the name is held, the two are merged. After an error the name isn't
    /// held, and the others stay.
    pub fn push(
        &mut self,
        key: Text,
        value: IntermediateAggregationResult,
    ) -> Result<(), MergeError>
        ensures ok { OnOk result
            (AreMerged self.old.results ((key, value) ∷ []) self.new.results) }
        ensures absent { value_of key self.old.results ≡ None
            → OnOk result (self.new.results ≡ put key value self.old.results) }
        ensures shapes { OnOk result
            (¬ (SomeOfBoth ShapesDiffer self.old.results ((key, value) ∷ []))) }
        ensures counts { OnOk result
            (¬ (SomeOfBoth CountsPass self.old.results ((key, value) ∷ []))) }
        ensures mismatch { IsErrOf result MergeError.Mismatch
            → SomeOfBoth ShapesDiffer self.old.results ((key, value) ∷ []) }
        ensures too_many { IsErrOf result MergeError.TooMany
            → ¬ (SomeOfBoth ShapesDiffer self.old.results ((key, value) ∷ []))
            × SomeOfBoth CountsPass self.old.results ((key, value) ∷ []) }
        ensures left { OnErr result (self.new.results ≡ without key self.old.results) }
    {
        let value = merged_over(self.results.remove(&key), value)?;
        self.results.insert(key, value)?;
        Ok(())
    }

    /// Adds what other results hold, name by name. A composite that then holds more than twice its
    /// target size is cut to its lowest entries. After an error no name is held.
    pub fn merge_fruits(&mut self, other: IntermediateAggregationResults) -> Result<(), MergeError>
        ensures ok { OnOk result (AreMerged self.old.results other.results self.new.results) }
        ensures shapes { OnOk result (¬ (SomeOfBoth ShapesDiffer self.old.results other.results)) }
        ensures counts { OnOk result (¬ (SomeOfBoth CountsPass self.old.results other.results)) }
        ensures mismatch { IsErrOf result MergeError.Mismatch
            → SomeOfBoth ShapesDiffer self.old.results other.results }
        ensures too_many { IsErrOf result MergeError.TooMany
            → ¬ (SomeOfBoth ShapesDiffer self.old.results other.results)
            × SomeOfBoth CountsPass self.old.results other.results }
        ensures left { OnErr result (self.new.results ≡ []) }
    {
        let merged = self.merge_checked(other);
        if merged.is_err() {
            self.results = NameMap::new(self.results.allocator());
        }
        merged
    }

    // Adds what other results hold, name by name. After an error some names may be held.
    fn merge_checked(&mut self, other: IntermediateAggregationResults) -> Result<(), MergeError>
        ensures ok { OnOk result (AreMerged self.old.results other.results self.new.results) }
        ensures shapes { OnOk result (¬ (SomeOfBoth ShapesDiffer self.old.results other.results)) }
        ensures counts { OnOk result (¬ (SomeOfBoth CountsPass self.old.results other.results)) }
        ensures mismatch { IsErrOf result MergeError.Mismatch
            → SomeOfBoth ShapesDiffer self.old.results other.results }
        ensures too_many { IsErrOf result MergeError.TooMany
            → ¬ (SomeOfBoth ShapesDiffer self.old.results other.results)
            × SomeOfBoth CountsPass self.old.results other.results }
    {
        let mut passed = false;
        self.merge_all(other, &mut passed)?;
        if passed {
            return Err(MergeError::TooMany);
        }
        Ok(())
    }
}
