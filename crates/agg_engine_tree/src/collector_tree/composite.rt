//! How a composite takes documents under parents.
ghost use Rattle.std.specs.Prelude.{◌≤◌, IsTrue, length};
ghost use Rattle.agg_values.specs.Names.{Named};
ghost use Rattle.agg_values.specs.declared.after_key.AfterKey.{AfterKey};
ghost use Rattle.agg_cache.specs.Waiting.{under};
ghost use Rattle.agg_segment.specs.Segment.{Stored};
ghost use Rattle.agg_composite.specs.accessor.Accessors.{Fits};
ghost use Rattle.agg_composite.specs.accessor.Ranges.{AreAllInRange};
ghost use Rattle.agg_composite.specs.buckets.Visits.{docs_in};
ghost use Rattle.agg_engine_tree.specs.collector_tree.Call.{pairs_in};
ghost use Rattle.agg_engine_tree.specs.collector_tree.Took.{CompositeAnswers};

use crate::collector_tree::Call;
use agg_cache::{BucketId, CollectError, HighCardSubAggCache};
use agg_composite::SegmentCompositeCollector;
use agg_composite::accessor::CompositeAggReqData;
use agg_values::{DocId, Steps};
use std::sync::ledger::Ledger;

/// Takes the documents of a call under its parent, which is prepared first. It looks at their
/// starts, unless these are checked.
pub(crate) fn take_in_composite<L: Ledger, const STARTS_CHECKED: bool>(
    collector: &mut SegmentCompositeCollector<HighCardSubAggCache>,
    call: Call<'_>,
    req: &CompositeAggReqData<'_>,
    steps: &mut Steps<L>,
) -> Result<(), CollectError>
    requires fits { (segment : Stored) × (after : Named AfterKey) × Fits segment after req.now }
    requires range { IsTrue STARTS_CHECKED → (segment : Stored) × (after : Named AfterKey)
        × Fits segment after req.now
        × AreAllInRange segment req.now.req.now.sources (docs_in (pairs_in call)) }
    requires room { length req.now.req.now.sources ≤ collector.old.room }
    ensures { (segment : Stored) (after : Named AfterKey) → Fits segment after req.now
        → CompositeAnswers req.now segment after (pairs_in call.entry)
        collector.old collector.new steps.old steps.new result }
{
    match call {
        Call::Collect(parent, docs) => {
            collect_under::<L, STARTS_CHECKED>(collector, parent, docs, req, steps)
        }
        Call::Flush => Ok(()),
    }
}

// Takes documents under a parent, which is prepared, after a look at their starts, unless these are
// checked.
fn collect_under<L: Ledger, const STARTS_CHECKED: bool>(
    collector: &mut SegmentCompositeCollector<HighCardSubAggCache>,
    parent: BucketId,
    docs: &[DocId],
    req: &CompositeAggReqData<'_>,
    steps: &mut Steps<L>,
) -> Result<(), CollectError>
    requires fits { (segment : Stored) × (after : Named AfterKey) × Fits segment after req.now }
    requires range { IsTrue STARTS_CHECKED → (segment : Stored) × (after : Named AfterKey)
        × Fits segment after req.now
        × AreAllInRange segment req.now.req.now.sources docs.now }
    requires room { length req.now.req.now.sources ≤ collector.old.room }
    ensures { (segment : Stored) (after : Named AfterKey) → Fits segment after req.now
        → CompositeAnswers req.now segment after (under parent docs.now)
        collector.old collector.new steps.old steps.new result }
{
    collector.prepare_max_bucket(parent)?;
    if !STARTS_CHECKED {
        return collector.collect_uncharged(parent, docs, req, steps);
    }
    collector.collect_in_range(parent, docs, req, steps)?;
    Ok(())
}
