//! The collector of a request in a segment.
ghost use Rattle.std.specs.Prelude.{◌≡◌, ◌≤◌, ◌+◌, ◌<◌, ◌∷◌, [], All, Err, ℕ, List, true};
ghost use Rattle.std.specs.Prelude.{IfErr, IfOk, OnErr, OnOk, length};
ghost use Rattle.agg_cache.specs.Limits.{charged};
ghost use Rattle.agg_request_tree.specs.Faults.{IsSoundRequest};
ghost use Rattle.agg_request_tree.specs.charges.Charges.{fixed_charge};
ghost use Rattle.agg_segment.specs.Query.{matches};
ghost use Rattle.agg_segment.specs.Segment.{Stored, documents_at, documents_of};
ghost use Rattle.agg_segment.specs.declared.query.QueryTree.{QueryTree as Tree};
ghost use Rattle.agg_request_tree.specs.Request.{Request, with_builders};
ghost use Rattle.agg_results.specs.StandsFor.{StandsFor};
ghost use Rattle.agg_engine_tree.specs.segment_context.Pages.{paged};
ghost use Rattle.agg_engine_tree.specs.segment_context.Trees.{AreOfRequest, AreTreesOf};
ghost use Rattle.agg_engine.specs.snapshot_results.ChargedTrees.{ChargesAnew};
ghost use Rattle.agg_engine.specs.collectors.Segment.{CollectorFor, GivesBack, HarvestsFew};
ghost use Rattle.agg_engine.specs.collectors.Segment.{HasRoom, IsBlockCause, IsHarvestCause};
ghost use Rattle.agg_engine.specs.collectors.Segment.{IsRightForSome, IsSetupCause, IsTreeCause};
ghost use Rattle.agg_engine.specs.collectors.Segment.{MayBeUsed, TakesBlock, TakesFew, TakesInTree};

use crate::snapshot_results::ChargedTree;
use agg_cache::{CollectError, LimitsLedger};
use agg_engine_tree::segment_context::{
    AggContextParams, AggregationsSegmentCtx, SetupError, check_paged, segment_context,
};
use agg_engine_tree::tree_results::into_results;
use agg_engine_tree::uncut::{UncutCounts, are_starts_in_range, uncut_lengths};
use agg_request_tree::Aggregations;
use agg_results::IntermediateAggregationResults;
use agg_segment::SegmentReader;
use agg_values::{DocId, Steps};
use std::alloc::Global;
use std::sync::ledger::Ledger;

/// The collector of a request in a segment. Once a call has answered an error, it has failed: it
/// takes no more documents and has no results. What it charges is given back at its end.
#[derive(Drop)]
pub struct AggregationSegmentCollector<'s> {
    alloc: Global,
    reader: &'s SegmentReader,
    aggregations: AggregationsSegmentCtx<'s>,
    tree: ChargedTree<'s>,
    counts: UncutCounts,
    has_failed: bool,
    num_docs: u32,
}

impl<'s> AggregationSegmentCollector<'s> {
    /// A collector of a request in a segment, with the trees of its filters and the page that is
    /// set. The fixed charge of the request is charged.
    pub fn from_agg_req_and_reader(
        alloc: Global,
        agg: &'s Aggregations,
        reader: &'s SegmentReader,
        context: &'s AggContextParams,
        limits: &mut LimitsLedger,
    ) -> Result<AggregationSegmentCollector<'s>, SetupError>
        requires trees { AreOfRequest agg.now context.now.trees }
        ensures ok { IfOk result (λ collector. (made : _ → Tree)
            → AreTreesOf made agg.now context.now.trees
            → CollectorFor (paged context.now.page (with_builders made agg.now)) reader.now [] 0
            collector) }
        ensures usable { IfOk result MayBeUsed }
        ensures reader { IfOk result (λ collector. collector.reader.now ≡ reader.now) }
        ensures num_docs { IfOk result
            (λ collector. collector.num_docs ≡ length (documents_of reader.now)) }
        ensures sound { OnOk result (IsSoundRequest (paged context.now.page agg.now)) }
        ensures cause { IfErr result (IsSetupCause (paged context.now.page agg.now)
            (length (documents_of reader.now)) limits.old) }
        ensures within { OnOk result (limits.old.in_use + fixed_charge
            (paged context.now.page agg.now) (length (documents_of reader.now))
            ≤ limits.old.memory_limit) }
        ensures ledger { OnOk result (limits.new ≡ charged (fixed_charge
            (paged context.now.page agg.now) (length (documents_of reader.now))) limits.old) }
        ensures guard { IfOk result (λ collector. collector.tree.guard ≡ fixed_charge
            (paged context.now.page agg.now) (length (documents_of reader.now))) }
        ensures kept { OnErr result (limits.new ≡ limits.old) }
    {
        check_paged(alloc, agg, context)?;
        let aggregations = segment_context(alloc, agg, reader, context)?;
        let ctx = &aggregations.per_request;
        let counts = UncutCounts::new(uncut_lengths(alloc, ctx, reader, &[])?);
        let tree = ChargedTree::new(alloc, ctx, reader, limits)?;
        Ok(AggregationSegmentCollector {
            alloc,
            reader,
            aggregations,
            tree,
            counts,
            has_failed: false,
            num_docs: reader.num_docs(),
        })
    }

    /// Takes a document of the segment.
    pub fn collect<L: Ledger>(
        &mut self,
        doc: DocId,
        limits: &mut LimitsLedger,
        steps: &mut Steps<L>,
    ) -> Result<(), CollectError>
        requires usable { MayBeUsed self.old }
        requires within { doc < length (documents_of self.old.reader.now) }
        requires charged { self.old.tree.guard ≤ limits.old.in_use }
        ensures ok { OnOk result (TakesBlock (doc ∷ []) self.old self.new steps.old steps.new) }
        ensures cause { IfErr result (IsBlockCause (doc ∷ []) self.old limits.old) }
        ensures failed { self.old.has_failed ≡ true → result ≡ Err CollectError.CollectorFailed }
        ensures fails { OnErr result (self.new.has_failed ≡ true) }
        ensures charges { ChargesAnew self.old.tree self.new.tree limits.old limits.new }
        ensures limit { OnOk result (limits.new.in_use ≤ limits.new.memory_limit) }
        ensures usable { MayBeUsed self.new }
        ensures reader { self.new.reader.now ≡ self.old.reader.now }
        ensures num_docs { self.new.num_docs ≡ self.old.num_docs }
        ensures most { TakesFew (doc ∷ []) self.old steps.old steps.new }
        ensures later { steps.old ≤ steps.new }
    {
        self.collect_block(&[doc], limits, steps)
    }

    /// Takes documents of the segment. It first asks whether the start of each bucket lies within
    /// 64 bits, and then how many documents each aggregation lists in all. The bytes of new buckets
    /// are charged.
    pub fn collect_block<L: Ledger>(
        &mut self,
        docs: &[DocId],
        limits: &mut LimitsLedger,
        steps: &mut Steps<L>,
    ) -> Result<(), CollectError>
        requires usable { MayBeUsed self.old }
        requires within { All (λ doc. doc < length (documents_of self.old.reader.now)) docs.now }
        requires charged { self.old.tree.guard ≤ limits.old.in_use }
        ensures ok { OnOk result (TakesBlock docs.now self.old self.new steps.old steps.new) }
        ensures cause { IfErr result (IsBlockCause docs.now self.old limits.old) }
        ensures failed { self.old.has_failed ≡ true → result ≡ Err CollectError.CollectorFailed }
        ensures fails { OnErr result (self.new.has_failed ≡ true) }
        ensures charges { ChargesAnew self.old.tree self.new.tree limits.old limits.new }
        ensures limit { OnOk result (limits.new.in_use ≤ limits.new.memory_limit) }
        ensures usable { MayBeUsed self.new }
        ensures reader { self.new.reader.now ≡ self.old.reader.now }
        ensures num_docs { self.new.num_docs ≡ self.old.num_docs }
        ensures most { TakesFew docs.now self.old steps.old steps.new }
        ensures later { steps.old ≤ steps.new }
    {
        if self.has_failed {
            return Err(CollectError::CollectorFailed);
        }
        self.has_failed = true;
        self.take(docs, limits, steps)?;
        self.has_failed = false;
        Ok(())
    }

    // Takes documents, of which none may start a bucket outside 64 bits or be one too many.
    fn take<L: Ledger>(
        &mut self,
        docs: &[DocId],
        limits: &mut LimitsLedger,
        steps: &mut Steps<L>,
    ) -> Result<(), CollectError>
        requires right { IsRightForSome self.old }
        requires within { All (λ doc. doc < length (documents_of self.old.reader.now)) docs.now }
        requires charged { self.old.tree.guard ≤ limits.old.in_use }
        ensures ok { OnOk result (TakesInTree docs.now self.old self.new steps.old steps.new) }
        ensures cause { IfErr result (IsTreeCause docs.now self.old limits.old) }
        ensures failed { self.new.has_failed ≡ self.old.has_failed }
        ensures charges { ChargesAnew self.old.tree self.new.tree limits.old limits.new }
        ensures limit { OnOk result (limits.new.in_use ≤ limits.new.memory_limit) }
        ensures reader { self.new.reader.now ≡ self.old.reader.now }
        ensures num_docs { self.new.num_docs ≡ self.old.num_docs }
        ensures most { TakesFew docs.now self.old steps.old steps.new }
        ensures later { steps.old ≤ steps.new }
    {
        let ctx = &self.aggregations.per_request;
        if !are_starts_in_range(ctx, docs) {
            return Err(CollectError::BucketOutOfRange);
        }
        let counts = uncut_lengths(self.alloc, ctx, self.reader, docs)?;
        self.counts.add(&counts);
        if self.counts.is_too_many() {
            return Err(CollectError::TooMany);
        }
        self.tree.take_blocks(docs, ctx, limits, steps)?;
        Ok(())
    }

    /// The results of the documents that were taken. What was charged is given back.
    pub fn harvest<L: Ledger>(
        self,
        limits: &mut LimitsLedger,
        steps: &mut Steps<L>,
    ) -> Result<IntermediateAggregationResults, CollectError>
        requires usable { MayBeUsed self }
        requires charged { self.tree.guard ≤ limits.old.in_use }
        ensures ok { IfOk result (λ results. (request : Request Tree) (segment : Stored)
            → (docs : List ℕ) (visits : ℕ) → CollectorFor request segment docs visits self.entry
            → StandsFor matches request (documents_at segment docs) results.results) }
        ensures cause { IfErr result (IsHarvestCause self.entry limits.old) }
        ensures failed { self.entry.has_failed ≡ true → result ≡ Err CollectError.CollectorFailed }
        ensures room { OnOk result (HasRoom self.entry limits.old) }
        ensures given_back { GivesBack self.entry.tree.guard limits.old limits.new }
        ensures most { HarvestsFew self.entry steps.old steps.new }
        ensures later { steps.old ≤ steps.new }
    {
        let mut collector = self;
        let results = collector.results(limits, steps);
        collector.abandon(limits);
        results
    }

    // The results of what was taken, after all that waits was handed down.
    fn results<L: Ledger>(
        &mut self,
        limits: &mut LimitsLedger,
        steps: &mut Steps<L>,
    ) -> Result<IntermediateAggregationResults, CollectError>
        requires usable { MayBeUsed self.old }
        requires charged { self.old.tree.guard ≤ limits.old.in_use }
        ensures ok { IfOk result (λ results. (request : Request Tree) (segment : Stored)
            → (docs : List ℕ) (visits : ℕ) → CollectorFor request segment docs visits self.old
            → StandsFor matches request (documents_at segment docs) results.results) }
        ensures cause { IfErr result (IsHarvestCause self.old limits.old) }
        ensures failed { self.old.has_failed ≡ true → result ≡ Err CollectError.CollectorFailed }
        ensures room { OnOk result (HasRoom self.old limits.old) }
        ensures charges { ChargesAnew self.old.tree self.new.tree limits.old limits.new }
        ensures most { HarvestsFew self.old steps.old steps.new }
        ensures later { steps.old ≤ steps.new }
    {
        if self.has_failed {
            return Err(CollectError::CollectorFailed);
        }
        let ctx = &self.aggregations.per_request;
        self.tree.flush(ctx, limits, steps)?;
        let mut results = IntermediateAggregationResults::new(self.alloc);
        into_results(
            self.alloc,
            self.tree.take_tree(self.alloc),
            ctx,
            &mut results,
            0,
        )?;
        Ok(results)
    }

    /// Ends without results. What was charged is given back.
    pub fn abandon(self, limits: &mut LimitsLedger)
        requires charged { self.tree.guard ≤ limits.old.in_use }
        ensures given_back { GivesBack self.entry.tree.guard limits.old limits.new }
    {
        let AggregationSegmentCollector { tree, .. } = self;
        tree.give_back(limits);
    }

    /// How many documents the segment has. Their numbers are those below it.
    pub fn num_docs(&self) -> u32
        ensures { result ≡ self.now.num_docs }
    {
        self.num_docs
    }

    /// The bytes that are charged.
    pub fn allocated(&self) -> u64
        ensures { result ≡ self.now.tree.guard }
    {
        self.tree.allocated()
    }

    /// What the aggregations of the request are asked in the segment.
    pub fn segment_data(&self) -> &AggregationsSegmentCtx<'s>
        ensures { result.now ≡ self.now.aggregations }
    {
        &self.aggregations
    }
}
