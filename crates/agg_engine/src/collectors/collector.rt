//! The collector of a request, whose results over segments become final.
ghost use Rattle.std.specs.Prelude.{◌≡◌, ◌≤◌, ◌+◌, [], All, IfErr, IfOk, List, OnErr, OnOk, Option};
ghost use Rattle.std.specs.Prelude.{false, length};
ghost use Rattle.agg_cache.specs.Limits.{charged};
ghost use Rattle.agg_request_tree.specs.Faults.{IsSoundRequest};
ghost use Rattle.agg_request_tree.specs.charges.Charges.{fixed_charge};
ghost use Rattle.agg_segment.specs.storage.Document.{Fields, HasNumbersOf64Bits};
ghost use Rattle.agg_segment.specs.Segment.{documents_of};
ghost use Rattle.agg_segment.specs.declared.query.QueryTree.{QueryTree as Tree};
ghost use Rattle.agg_request_tree.specs.Matching.{built_matches};
ghost use Rattle.agg_request_tree.specs.Request.{with_builders};
ghost use Rattle.agg_results.specs.final_results.BucketCount.{results_buckets};
ghost use Rattle.agg_results.specs.Results.{AreResults};
ghost use Rattle.agg_engine_tree.specs.segment_context.Pages.{paged};
ghost use Rattle.agg_engine_tree.specs.segment_context.Trees.{AreOfRequest, AreTreesOf};
ghost use Rattle.agg_request_tree.specs.BuiltRequest.{built, built_tree};
ghost use Rattle.agg_engine.specs.collectors.Fruits.{IsFinalCause, StandForEach, joined};
ghost use Rattle.agg_engine.specs.collectors.Segment.{CollectorFor, IsSetupCause, MayBeUsed};

use crate::collectors::AggregationSegmentCollector;
use crate::collectors::merging::merged;
use agg_cache::LimitsLedger;
use agg_engine_tree::segment_context::{AggContextParams, SetupError};
use agg_request_tree::Aggregations;
use agg_results::{AggregationResults, FinalError, IntermediateAggregationResults};
use agg_segment::SegmentReader;
use agg_values::ItemList;

/// A request with its context. Each segment gets a collector, and the results of all segments
/// become one final result.
#[derive(Drop)]
pub struct AggregationCollector<'a> {
    agg: &'a Aggregations,
    context: AggContextParams,
}

impl<'a> AggregationCollector<'a> {
    /// The collector of a request, with a context that was made for it.
    pub fn from_aggs(agg: &'a Aggregations, context: AggContextParams) -> AggregationCollector<'a>
        requires { AreOfRequest agg.now context.trees }
        ensures agg { result.agg.now ≡ agg.now }
        ensures context { result.context ≡ context }
    {
        AggregationCollector { agg, context }
    }

    /// The collector of the request in a segment.
    pub fn for_segment<'s>(
        &'s self,
        reader: &'s SegmentReader,
        limits: &mut LimitsLedger,
    ) -> Result<AggregationSegmentCollector<'s>, SetupError>
        requires { AreOfRequest self.now.agg.now self.now.context.trees }
        ensures ok { IfOk result (λ collector. (made : _ → Tree)
            → AreTreesOf made self.now.agg.now self.now.context.trees
            → CollectorFor (paged self.now.context.page (with_builders made self.now.agg.now))
            reader.now [] 0 collector) }
        ensures usable { IfOk result MayBeUsed }
        ensures reader { IfOk result (λ collector. collector.reader.now ≡ reader.now) }
        ensures num_docs { IfOk result
            (λ collector. collector.num_docs ≡ length (documents_of reader.now)) }
        ensures sound { OnOk result
            (IsSoundRequest (paged self.now.context.page self.now.agg.now)) }
        ensures cause { IfErr result (IsSetupCause (paged self.now.context.page self.now.agg.now)
            (length (documents_of reader.now)) limits.old) }
        ensures within { OnOk result (limits.old.in_use + fixed_charge
            (paged self.now.context.page self.now.agg.now) (length (documents_of reader.now))
            ≤ limits.old.memory_limit) }
        ensures ledger { OnOk result (limits.new ≡ charged (fixed_charge
            (paged self.now.context.page self.now.agg.now) (length (documents_of reader.now)))
            limits.old) }
        ensures guard { IfOk result (λ collector. collector.tree.guard ≡ fixed_charge
            (paged self.now.context.page self.now.agg.now) (length (documents_of reader.now))) }
        ensures kept { OnErr result (limits.new ≡ limits.old) }
    {
        let alloc = self.agg.allocator();
        AggregationSegmentCollector::from_agg_req_and_reader(
            alloc,
            self.agg,
            reader,
            &self.context,
            limits,
        )
    }

    /// Whether a collector needs the scores of documents. None does.
    pub fn requires_scoring(&self) -> bool
        ensures { result ≡ false }
    {
        false
    }

    /// The final results of those of segments, merged in their order.
    pub fn merge_fruits(
        &self,
        fruits: ItemList<IntermediateAggregationResults>,
        limits: &LimitsLedger,
    ) -> Result<AggregationResults, FinalError>
        ensures ok { IfOk result (λ results. (query_for : _ → Option Tree)
            → AreTreesOf (built_tree query_for) self.now.agg.now self.now.context.trees
            → (lists : List (List Fields))
            → StandForEach (paged self.now.context.page (built query_for self.now.agg.now)) lists
            fruits
            → AreResults (built_matches query_for) (paged self.now.context.page self.now.agg.now)
            (joined lists) results) }
        ensures buckets { IfOk result
            (λ results. results_buckets results ≤ limits.now.bucket_limit) }
        ensures cause { IfErr result (λ error. (query_for : _ → Option Tree)
            → AreTreesOf (built_tree query_for) self.now.agg.now self.now.context.trees
            → (lists : List (List Fields)) → All HasNumbersOf64Bits (joined lists)
            → StandForEach (paged self.now.context.page (built query_for self.now.agg.now)) lists
            fruits
            → IsFinalCause (built_matches query_for) limits.now.bucket_limit
            (paged self.now.context.page self.now.agg.now) (joined lists) error) }
    {
        match merged(self.agg.allocator(), fruits) {
            Ok(whole) => whole.into_final_result(self.agg, limits),
            Err(error) => Err(FinalError::from(error)),
        }
    }
}
