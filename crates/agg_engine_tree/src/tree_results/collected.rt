//! What a collector has of a parent, and of none: nothing.
ghost use Rattle.std.specs.Prelude.{◌≡◌, [], ℕ, List, Bool, IfOk, filter, length, true};
ghost use Rattle.agg_segment.specs.Segment.{Stored, documents_at};
ghost use Rattle.agg_request_tree.specs.Metrics.{values_of_field};
ghost use Rattle.agg_filter.specs.Filter.{FilterFor};
ghost use Rattle.agg_metric.specs.Collector.{MetricFor};
ghost use Rattle.agg_metric.specs.Metric.{metric_of};
ghost use Rattle.agg_engine_tree.specs.collector_tree.Caches.{waiting_in};
ghost use Rattle.agg_engine_tree.specs.tree_results.Pages.{encoded_under};
ghost use Rattle.agg_engine_tree.specs.tree_results.Results.{docs_taken};

use crate::collector_tree::FilterCollector;
use crate::tree_results::made::metric_of_none;
use agg_cache::{BucketId, HighCardSubAggCache};
use agg_composite::{PageEntries, SegmentCompositeCollector};
use agg_metric::{MetricAggReqData, SegmentMetricCollector};
use agg_results::IntermediateMetricResult;
use agg_values::OutOfMemory;
use std::alloc::Global;

/// The metric of a parent's documents.
pub fn metric_under(
    collector: &SegmentMetricCollector<'_>,
    req: &MetricAggReqData,
    parent: Option<BucketId>,
) -> IntermediateMetricResult
    ensures { (segment : Stored) (taken : List (ℕ × ℕ))
        → MetricFor segment req.now collector.now taken
        → result ≡ metric_of req.now.collecting_for (values_of_field req.now.field
        (documents_at segment (docs_taken parent taken))) }
{
    match parent {
        Some(parent) => collector.result(parent),
        None => metric_of_none(req.collecting_for),
    }
}

/// How many of a parent's documents match, and the id of its bucket, under which these were given.
/// One that isn't prepared has no bucket and no documents.
pub fn bucket_under(
    collector: &FilterCollector,
    parent: Option<BucketId>,
) -> (u64, Option<BucketId>)
    ensures count { (is_match : ℕ → Bool) (taken given : List (ℕ × ℕ))
        → FilterFor waiting_in is_match collector.now taken given
        → result.0 ≡ length (filter is_match (docs_taken parent taken)) }
    ensures given { (is_match : ℕ → Bool) (taken given : List (ℕ × ℕ))
        → FilterFor waiting_in is_match collector.now taken given
        → collector.now.hands_on ≡ true
        → ((id : ℕ) → waiting_in collector.now.cache.0 id ≡ [])
        → docs_taken result.1 given ≡ filter is_match (docs_taken parent taken) }
{
    match parent {
        Some(parent) => (collector.doc_count(parent), collector.bucket_id(parent)),
        None => (0, None),
    }
}

/// The entries of the page of a parent's documents, none without a parent.
pub fn entries_under(
    alloc: Global,
    collector: &SegmentCompositeCollector<HighCardSubAggCache>,
    parent: Option<BucketId>,
) -> Result<PageEntries, OutOfMemory>
    ensures { IfOk result (λ entries. entries ≡ encoded_under collector.now parent) }
{
    match parent {
        Some(parent) => collector.entries(parent),
        None => Ok(PageEntries::none(alloc)),
    }
}
