//! How a filter takes documents under parents.
ghost use Rattle.std.specs.Prelude.{◌∷◌, []};
ghost use Rattle.agg_cache.specs.Waiting.{under};
ghost use Rattle.agg_segment.specs.Marks.{AreMarks};
ghost use Rattle.agg_segment.specs.Query.{matches};
ghost use Rattle.agg_segment.specs.Segment.{Stored};
ghost use Rattle.agg_segment.specs.declared.query.QueryTree.{QueryTree};
ghost use Rattle.agg_filter.specs.Matching.{is_matching};
ghost use Rattle.agg_engine_tree.specs.collector_tree.Call.{pairs_in, parents_in};
ghost use Rattle.agg_engine_tree.specs.collector_tree.Took.{FilterAnswers};

use crate::collector_tree::{Call, FilterCollector};
use agg_cache::{BucketId, CollectError};
use agg_filter::FilterAggReqData;
use agg_values::DocId;

/// Takes the documents of a call under its parent, which is prepared first.
pub(crate) fn take_in_filter(
    collector: &mut FilterCollector,
    call: Call<'_>,
    req: &FilterAggReqData,
) -> Result<(), CollectError>
    ensures { (tree : QueryTree) (segment : Stored)
        → AreMarks (matches tree) segment req.now.evaluator
        → FilterAnswers (is_matching tree segment) (pairs_in call.entry)
        (parents_in call.entry) collector.old collector.new result }
{
    match call {
        Call::Collect(parent, docs) => collect_under(collector, parent, docs, req),
        Call::Flush => Ok(()),
    }
}

// Takes documents under a parent, which is prepared.
fn collect_under(
    collector: &mut FilterCollector,
    parent: BucketId,
    docs: &[DocId],
    req: &FilterAggReqData,
) -> Result<(), CollectError>
    ensures { (tree : QueryTree) (segment : Stored)
        → AreMarks (matches tree) segment req.now.evaluator
        → FilterAnswers (is_matching tree segment) (under parent docs.now) (parent ∷ [])
        collector.old collector.new result }
{
    collector.prepare_max_bucket(parent)?;
    collector.collect(parent, docs, req)
}
