//! Two results of one name as one.
ghost use Rattle.std.specs.Prelude.{◌≡◌, ℕ, None, Some, false, IfNone, IfOk, IfSome, IsErrOf};
ghost use Rattle.std.specs.Prelude.{IsSomeAnd, OnOk};
ghost use Rattle.std.specs.List.Sorted.{IsStrictlySortedBy};
ghost use Rattle.std.specs.Map.{keys_of};
ghost use Rattle.agg_values.specs.Names.{name_cmp, put, value_of, without};
ghost use Rattle.agg_results.specs.metric_results.Merges.{Merges};
ghost use Rattle.agg_results.specs.declared.metric_results.metric.IntermediateMetricResult
    as metrics;
ghost use Rattle.agg_results.specs.intermediate_results.Intermediate.{parts_of_bucket};
ghost use Rattle.agg_results.specs.intermediate_results.Merging.{AreMerged, CountsPass};
ghost use Rattle.agg_results.specs.intermediate_results.Merging.{EitherOrBoth, IsMerged, JoinNames};
ghost use Rattle.agg_results.specs.intermediate_results.Merging.{MergedTo, PartsDiffer};
ghost use Rattle.agg_results.specs.intermediate_results.Merging.{PartsMerged, PartsPass};
ghost use Rattle.agg_results.specs.intermediate_results.Merging.{ShapesDiffer, SomeOfBoth};
ghost use Rattle.agg_results.specs.intermediate_results.Outcome.{IsPut};

use crate::intermediate_results::{
    IntermediateAggregationResult, IntermediateAggregationResults, IntermediateBucketResult,
};
use crate::metric_results::{IntermediateMetricResult, MergeError, add_counts};
use agg_values::{NameMap, OutOfMemory, Text};

impl IntermediateAggregationResults {
    /// Adds what other results hold. Where a sum is too large, `passed` is raised, and what is then
    /// held means nothing.
    #[cycle(merging)]
    pub(crate) fn merge_all(
        &mut self,
        other: IntermediateAggregationResults,
        passed: &mut bool,
    ) -> Result<(), MergeError>
        ensures ok { OnOk result (Merges passed.old passed.new
            (SomeOfBoth ShapesDiffer self.old.results other.results)
            (SomeOfBoth CountsPass self.old.results other.results)) }
        ensures merged { OnOk result (passed.new ≡ false
            → AreMerged self.old.results other.results self.new.results) }
        ensures mismatch { IsErrOf result MergeError.Mismatch
            → SomeOfBoth ShapesDiffer self.old.results other.results }
        ensures too_many { ¬ (IsErrOf result MergeError.TooMany) }
    {
        let mut others = other.results;
        let mut names = names_of(&others)?;
        while let Some(name) = names.pop() {
            if let Some(value) = others.remove(&name) {
                self.put_over(name, value, passed)?;
            }
        }
        Ok(())
    }

    // Puts a result over that of its name, if there is one, which is merged into it.
    #[cycle(merging)]
    fn put_over(
        &mut self,
        name: Text,
        value: IntermediateAggregationResult,
        passed: &mut bool,
    ) -> Result<(), MergeError>
        ensures ok { OnOk result ((w : IntermediateAggregationResult)
            × (self.new.results ≡ put name w (without name self.old.results))
            × IsPut passed.old passed.new name value self.old.results w) }
        ensures mismatch { IsErrOf result MergeError.Mismatch
            → IsSomeAnd (value_of name self.old.results) (λ r. ShapesDiffer r value) }
        ensures too_many { ¬ (IsErrOf result MergeError.TooMany) }
    {
        let value = match self.results.remove(&name) {
            Some(held) => merge_results(held, value, passed)?,
            None => value,
        };
        self.results.insert(name, value)?;
        Ok(())
    }
}

// The names, ascending.
fn names_of(results: &NameMap<IntermediateAggregationResult>) -> Result<Vec<Text>, OutOfMemory>
    ensures names { IfOk result (λ names. names.items ≡ keys_of results.now) }
    ensures ascending { IsStrictlySortedBy name_cmp (keys_of results.now) }
{
    let alloc = results.allocator();
    let mut names = Vec::with_capacity(alloc, results.len())?;
    for name in results.keys() {
        names.push(name.try_clone(alloc)?)?;
    }
    Ok(names)
}

/// A result over that of its name, if there is one.
pub(crate) fn merged_over(
    held: Option<IntermediateAggregationResult>,
    value: IntermediateAggregationResult,
) -> Result<IntermediateAggregationResult, MergeError>
    ensures ok { IfOk result (λ w. EitherOrBoth IsMerged held (Some value) (Some w)) }
    ensures shapes { OnOk result (IfSome held (λ r. ¬ (ShapesDiffer r value))) }
    ensures counts { OnOk result (IfSome held (λ r. ¬ (CountsPass r value))) }
    ensures mismatch { IsErrOf result MergeError.Mismatch
        → IsSomeAnd held (λ r. ShapesDiffer r value) }
    ensures too_many { IsErrOf result MergeError.TooMany
        → IsSomeAnd held (λ r. ¬ (ShapesDiffer r value) × CountsPass r value) }
{
    match held {
        Some(held) => held.merged_checked(value),
        None => Ok(value),
    }
}

impl IntermediateAggregationResult {
    // This and another as one.
    fn merged_checked(
        self,
        other: IntermediateAggregationResult,
    ) -> Result<IntermediateAggregationResult, MergeError>
        ensures ok { IfOk result (λ w. IsMerged self other w) }
        ensures shapes { OnOk result (¬ (ShapesDiffer self other)) }
        ensures counts { OnOk result (¬ (CountsPass self other)) }
        ensures mismatch { IsErrOf result MergeError.Mismatch → ShapesDiffer self other }
        ensures too_many { IsErrOf result MergeError.TooMany
            → ¬ (ShapesDiffer self other) × CountsPass self other }
    {
        let mut passed = false;
        let merged = merge_results(self, other, &mut passed)?;
        if passed {
            return Err(MergeError::TooMany);
        }
        Ok(merged)
    }

    // The result that has buckets, if it is one.
    fn into_bucket(self) -> Option<IntermediateBucketResult>
        ensures some { IfSome result (λ b. self ≡ IntermediateAggregationResult.Bucket b) }
        ensures none { IfNone result ((m : metrics.IntermediateMetricResult)
            × (self ≡ IntermediateAggregationResult.Metric m)) }
    {
        match self {
            Self::Bucket(bucket) => Some(bucket),
            Self::Metric(_) => None,
        }
    }
}

// Two results as one. Where a sum is too large, `passed` is raised, and what is answered means
// nothing.
#[cycle(merging)]
fn merge_results(
    left: IntermediateAggregationResult,
    right: IntermediateAggregationResult,
    passed: &mut bool,
) -> Result<IntermediateAggregationResult, MergeError>
    ensures ok { IfOk result (λ w. Merges passed.old passed.new (ShapesDiffer left right)
        (CountsPass left right)) }
    ensures merged { IfOk result (λ w. passed.new ≡ false → IsMerged left right w) }
    ensures mismatch { IsErrOf result MergeError.Mismatch → ShapesDiffer left right }
    ensures too_many { ¬ (IsErrOf result MergeError.TooMany) }
{
    match left {
        IntermediateAggregationResult::Metric(held) => merge_metric(held, &right, passed),
        IntermediateAggregationResult::Bucket(held) => {
            let Some(more) = right.into_bucket() else {
                return Err(MergeError::Mismatch);
            };
            Ok(IntermediateAggregationResult::Bucket(merge_buckets(held, more, passed)?))
        }
    }
}

// The result of a metric and another result as one.
fn merge_metric(
    held: IntermediateMetricResult,
    other: &IntermediateAggregationResult,
    passed: &mut bool,
) -> Result<IntermediateAggregationResult, MergeError>
    ensures ok { IfOk result (λ w. Merges passed.old passed.new
        (ShapesDiffer (IntermediateAggregationResult.Metric held) other.now)
        (CountsPass (IntermediateAggregationResult.Metric held) other.now)) }
    ensures merged { IfOk result (λ w. passed.new ≡ false
        → IsMerged (IntermediateAggregationResult.Metric held) other.now w) }
    ensures mismatch { IsErrOf result MergeError.Mismatch
        → ShapesDiffer (IntermediateAggregationResult.Metric held) other.now }
    ensures too_many { ¬ (IsErrOf result MergeError.TooMany) }
{
    match other {
        IntermediateAggregationResult::Metric(more) => Ok(IntermediateAggregationResult::Metric(
            held.merged_with(*more, passed)?,
        )),
        IntermediateAggregationResult::Bucket(_) => Err(MergeError::Mismatch),
    }
}

// Two results that have buckets as one.
#[cycle(merging)]
fn merge_buckets(
    left: IntermediateBucketResult,
    right: IntermediateBucketResult,
    passed: &mut bool,
) -> Result<IntermediateBucketResult, MergeError>
    ensures ok { IfOk result (λ w. Merges passed.old passed.new
        (PartsDiffer (SomeOfBoth ShapesDiffer) (parts_of_bucket left) (parts_of_bucket right))
        (PartsPass (SomeOfBoth CountsPass) (parts_of_bucket left) (parts_of_bucket right))) }
    ensures merged { IfOk result (λ w. passed.new ≡ false
        → (depth : ℕ) → PartsMerged (JoinNames (MergedTo depth)) (parts_of_bucket left)
        (parts_of_bucket right) (parts_of_bucket w)) }
    ensures mismatch { IsErrOf result MergeError.Mismatch
        → PartsDiffer (SomeOfBoth ShapesDiffer) (parts_of_bucket left) (parts_of_bucket right) }
    ensures too_many { ¬ (IsErrOf result MergeError.TooMany) }
{
    match (left, right) {
        (
            IntermediateBucketResult::Filter {
                doc_count,
                mut sub_aggregations,
            },
            IntermediateBucketResult::Filter {
                doc_count: more,
                sub_aggregations: others,
            },
        ) => {
            let doc_count = add_counts(doc_count, more, passed);
            sub_aggregations.merge_all(others, passed)?;
            Ok(IntermediateBucketResult::Filter {
                doc_count,
                sub_aggregations,
            })
        }
        (
            IntermediateBucketResult::Composite { buckets },
            IntermediateBucketResult::Composite { buckets: others },
        ) => {
            let buckets = buckets.merged_with(others, passed)?;
            Ok(IntermediateBucketResult::Composite { buckets })
        }
        _ => Err(MergeError::Mismatch),
    }
}
