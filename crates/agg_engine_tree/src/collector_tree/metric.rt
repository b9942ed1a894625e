//! How a metric takes documents under parents.
ghost use Rattle.agg_cache.specs.Waiting.{under};
ghost use Rattle.agg_engine_tree.specs.collector_tree.Call.{pairs_in};
ghost use Rattle.agg_engine_tree.specs.collector_tree.Took.{MetricAnswers};

use crate::collector_tree::Call;
use agg_cache::{BucketId, CollectError};
use agg_metric::SegmentMetricCollector;
use agg_values::DocId;

/// Takes the documents of a call under its parent, which is prepared first.
pub(crate) fn take_in_metric(
    collector: &mut SegmentMetricCollector<'_>,
    call: Call<'_>,
) -> Result<(), CollectError>
    ensures { MetricAnswers (pairs_in call.entry) collector.old collector.new result }
{
    match call {
        Call::Collect(parent, docs) => collect_under(collector, parent, docs),
        Call::Flush => Ok(()),
    }
}

// Takes documents under a parent, which is prepared.
fn collect_under(
    collector: &mut SegmentMetricCollector<'_>,
    parent: BucketId,
    docs: &[DocId],
) -> Result<(), CollectError>
    ensures { MetricAnswers (under parent docs.now) collector.old collector.new result }
{
    collector.prepare_max_bucket(parent)?;
    collector.collect(parent, docs)
}
