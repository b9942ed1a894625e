//! The collector of a request, whose results over segments are merged and go on elsewhere.
ghost use Rattle.std.specs.Prelude.{◌≡◌, ◌≤◌, ◌+◌, [], All, IfErr, IfOk, List, OnErr, OnOk, false};
ghost use Rattle.std.specs.Prelude.{length};
ghost use Rattle.agg_cache.specs.Limits.{charged};
ghost use Rattle.agg_request_tree.specs.Faults.{IsSoundRequest};
ghost use Rattle.agg_request_tree.specs.charges.Charges.{fixed_charge};
ghost use Rattle.agg_segment.specs.storage.Document.{Fields, HasNumbersOf64Bits};
ghost use Rattle.agg_segment.specs.Query.{matches};
ghost use Rattle.agg_segment.specs.Segment.{documents_of};
ghost use Rattle.agg_segment.specs.declared.query.QueryTree.{QueryTree as Tree};
ghost use Rattle.agg_request_tree.specs.Names.{NamesAscend};
ghost use Rattle.agg_request_tree.specs.Request.{Request, with_builders};
ghost use Rattle.agg_results.specs.intermediate_results.Empty.{empty_results};
ghost use Rattle.agg_results.specs.StandsFor.{StandsFor};
ghost use Rattle.agg_engine_tree.specs.segment_context.Pages.{paged};
ghost use Rattle.agg_engine_tree.specs.segment_context.Trees.{AreOfRequest, AreTreesOf};
ghost use Rattle.agg_engine.specs.collectors.Fruits.{IsMergeCause, StandForEach, joined};
ghost use Rattle.agg_engine.specs.collectors.Segment.{CollectorFor, IsSetupCause, MayBeUsed};

use crate::collectors::AggregationSegmentCollector;
use crate::collectors::empty::empty_paged;
use crate::collectors::merging::merged;
use agg_cache::LimitsLedger;
use agg_engine_tree::segment_context::{AggContextParams, SetupError};
use agg_request_tree::Aggregations;
use agg_results::{IntermediateAggregationResults, MergeError};
use agg_segment::SegmentReader;
use agg_values::ItemList;

/// A request with its context. Each segment gets a collector, and the results of all segments
/// become one intermediate result, which can be merged with those of other machines.
#[derive(Drop)]
pub struct DistributedAggregationCollector<'a> {
    agg: &'a Aggregations,
    context: AggContextParams,
}

impl<'a> DistributedAggregationCollector<'a> {
    /// The collector of a request, with a context that was made for it.
    pub fn from_aggs(
        agg: &'a Aggregations,
        context: AggContextParams,
    ) -> DistributedAggregationCollector<'a>
        requires { AreOfRequest agg.now context.trees }
        ensures agg { result.agg.now ≡ agg.now }
        ensures context { result.context ≡ context }
    {
        DistributedAggregationCollector { agg, context }
    }

    /// The collector of the request in a segment.
    pub fn for_segment<'s>(
        &'s self,
        reader: &'s SegmentReader,
        limits: &mut LimitsLedger,
    ) -> Result<AggregationSegmentCollector<'s>, SetupError>
        requires { AreOfRequest self.now.agg.now self.now.context.trees }
        ensures ok { IfOk result (λ collector. (made : _ → Tree)
            → AreTreesOf made self.now.agg.now self.now.context.trees
            → CollectorFor (paged self.now.context.page (with_builders made self.now.agg.now))
            reader.now [] 0 collector) }
        ensures usable { IfOk result MayBeUsed }
        ensures reader { IfOk result (λ collector. collector.reader.now ≡ reader.now) }
        ensures num_docs { IfOk result
            (λ collector. collector.num_docs ≡ length (documents_of reader.now)) }
        ensures sound { OnOk result
            (IsSoundRequest (paged self.now.context.page self.now.agg.now)) }
        ensures cause { IfErr result (IsSetupCause (paged self.now.context.page self.now.agg.now)
            (length (documents_of reader.now)) limits.old) }
        ensures within { OnOk result (limits.old.in_use + fixed_charge
            (paged self.now.context.page self.now.agg.now) (length (documents_of reader.now))
            ≤ limits.old.memory_limit) }
        ensures ledger { OnOk result (limits.new ≡ charged (fixed_charge
            (paged self.now.context.page self.now.agg.now) (length (documents_of reader.now)))
            limits.old) }
        ensures guard { IfOk result (λ collector. collector.tree.guard ≡ fixed_charge
            (paged self.now.context.page self.now.agg.now) (length (documents_of reader.now))) }
        ensures kept { OnErr result (limits.new ≡ limits.old) }
    {
        let alloc = self.agg.allocator();
        AggregationSegmentCollector::from_agg_req_and_reader(
            alloc,
            self.agg,
            reader,
            &self.context,
            limits,
        )
    }

    /// Whether a collector needs the scores of documents. None does.
    pub fn requires_scoring(&self) -> bool
        ensures { result ≡ false }
    {
        false
    }

    /// The results of segments, merged in their order; of none, the empty results of the request
    /// with the page that is set.
    pub fn merge_fruits(
        &self,
        fruits: ItemList<IntermediateAggregationResults>,
    ) -> Result<IntermediateAggregationResults, MergeError>
        ensures empty { fruits ≡ [] → IfOk result (λ whole.
            whole.results ≡ empty_results (paged self.now.context.page self.now.agg.now)) }
        ensures ok { IfOk result (λ whole. (made : _ → Tree)
            → (fruits ≡ [] → NamesAscend self.now.agg.now) → (lists : List (List Fields))
            → StandForEach (paged self.now.context.page (with_builders made self.now.agg.now))
            lists fruits
            → StandsFor matches
            (paged self.now.context.page (with_builders made self.now.agg.now)) (joined lists)
            whole.results) }
        ensures cause { IfErr result (λ error. (request : Request Tree)
            (lists : List (List Fields)) → All HasNumbersOf64Bits (joined lists)
            → StandForEach request lists fruits → IsMergeCause request (joined lists) error) }
    {
        let alloc = self.agg.allocator();
        if fruits.as_slice().is_empty() {
            return empty_paged(alloc, self.agg, self.context.page());
        }
        merged(alloc, fruits)
    }
}
