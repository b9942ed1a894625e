//! Metrics, as they are shown.
ghost use Rattle.std.specs.Prelude.{◌≡◌};
ghost use Rattle.agg_results.specs.metric_results.MetricShown.{final_metric};

use crate::final_results::{AggregationResult, MetricResult, SingleMetricResult};
use crate::metric_results::IntermediateMetricResult;

/// The final result of a metric.
pub fn shown_metric(held: IntermediateMetricResult) -> AggregationResult
    ensures { result ≡ final_metric held }
{
    AggregationResult::MetricResult(match held {
        IntermediateMetricResult::Count(metric) => {
            MetricResult::Count(single(Some(i128::from(metric.count))))
        }
        IntermediateMetricResult::Max(metric) => MetricResult::Max(single(metric.value)),
        IntermediateMetricResult::Min(metric) => MetricResult::Min(single(metric.value)),
        IntermediateMetricResult::Sum(metric) => MetricResult::Sum(single(Some(metric.sum))),
    })
}

fn single(value: Option<i128>) -> SingleMetricResult
    ensures { result ≡ record { value = value } }
{
    SingleMetricResult { value }
}
