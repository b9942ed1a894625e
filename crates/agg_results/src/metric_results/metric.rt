//! Intermediate results of metrics.
ghost use Rattle.std.specs.Prelude.{◌≡◌, ◌≤◌, ◌+◌, ◌^◌, ◌+ℤ◌, false, FitsSigned, IfOk, IsErrOf};
ghost use Rattle.std.specs.Int.{int_max, int_min};
ghost use mir.Syntax.{w128};
ghost use Rattle.agg_request_tree.specs.Metrics.{best};
ghost use Rattle.agg_results.specs.metric_results.Merges.{Merges};
ghost use Rattle.agg_results.specs.metric_results.MetricMerging.{MetricsDiffer, MetricsMerged};
ghost use Rattle.agg_results.specs.metric_results.MetricMerging.{MetricsPass};

use crate::metric_results::MergeError;

/// How many values there are.
#[derive(Clone, Copy)]
pub struct IntermediateCount {
    pub count: u64,
}

/// The greatest number, if there is one.
#[derive(Clone, Copy)]
pub struct IntermediateMax {
    pub value: Option<i128>,
}

/// The least number, if there is one.
#[derive(Clone, Copy)]
pub struct IntermediateMin {
    pub value: Option<i128>,
}

/// The sum of the numbers.
#[derive(Clone, Copy)]
pub struct IntermediateSum {
    pub sum: i128,
}

/// The intermediate result of a metric.
#[derive(Clone, Copy)]
pub enum IntermediateMetricResult {
    Count(IntermediateCount),
    Max(IntermediateMax),
    Min(IntermediateMin),
    Sum(IntermediateSum),
}

impl IntermediateMetricResult {
    /// This and another as one. Where a sum is too large, `passed` is raised, and what is answered
    /// means nothing.
    pub fn merged_with(
        self,
        other: IntermediateMetricResult,
        passed: &mut bool,
    ) -> Result<IntermediateMetricResult, MergeError>
        ensures ok { IfOk result (λ w. Merges passed.old passed.new
            (MetricsDiffer self other) (MetricsPass self other)) }
        ensures merged { IfOk result (λ w. passed.new ≡ false → MetricsMerged self other w) }
        ensures mismatch { IsErrOf result MergeError.Mismatch → MetricsDiffer self other }
        ensures too_many { ¬ (IsErrOf result MergeError.TooMany) }
    {
        match (self, other) {
            (Self::Count(held), Self::Count(more)) => Ok(Self::Count(IntermediateCount {
                count: add_counts(held.count, more.count, passed),
            })),
            (Self::Max(held), Self::Max(more)) => Ok(Self::Max(IntermediateMax {
                value: greatest(held.value, more.value),
            })),
            (Self::Min(held), Self::Min(more)) => Ok(Self::Min(IntermediateMin {
                value: least(held.value, more.value),
            })),
            (Self::Sum(held), Self::Sum(more)) => Ok(Self::Sum(IntermediateSum {
                sum: add_sums(held.sum, more.sum, passed),
            })),
            _ => Err(MergeError::Mismatch),
        }
    }
}

/// The sum of two counts. Where it is too large, `passed` is raised.
pub fn add_counts(count: u64, more: u64, passed: &mut bool) -> u64
    ensures merges { Merges passed.old passed.new ⊥ (2 ^ 64 ≤ count + more) }
    ensures sum { passed.new ≡ false → result ≡ count + more }
{
    match count.checked_add(more) {
        Some(sum) => sum,
        None => {
            *passed = true;
            0
        }
    }
}

// The sum of two sums. Where it is too large, `passed` is raised.
fn add_sums(sum: i128, more: i128, passed: &mut bool) -> i128
    ensures merges { Merges passed.old passed.new ⊥ (¬ (FitsSigned w128 (sum +ℤ more))) }
    ensures sum { passed.new ≡ false → result ≡ sum +ℤ more }
{
    match sum.checked_add(more) {
        Some(both) => both,
        None => {
            *passed = true;
            0
        }
    }
}

/// The greater of two numbers, where there are two.
pub fn greatest(held: Option<i128>, more: Option<i128>) -> Option<i128>
    ensures { result ≡ best int_max held more }
{
    match (held, more) {
        (Some(a), Some(b)) => Some(a.max(b)),
        (Some(a), None) => Some(a),
        (None, more) => more,
    }
}

/// The lesser of two numbers, where there are two.
pub fn least(held: Option<i128>, more: Option<i128>) -> Option<i128>
    ensures { result ≡ best int_min held more }
{
    match (held, more) {
        (Some(a), Some(b)) => Some(a.min(b)),
        (Some(a), None) => Some(a),
        (None, more) => more,
    }
}
