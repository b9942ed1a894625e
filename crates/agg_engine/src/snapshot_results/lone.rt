//! A composite that stands alone in a segment.
ghost use Rattle.std.specs.Prelude.{◌≡◌, ◌≤◌, IfSome, length, true};
ghost use Rattle.agg_values.specs.Names.{Named};
ghost use Rattle.agg_values.specs.declared.after_key.AfterKey.{AfterKey};
ghost use Rattle.agg_segment.specs.Segment.{Stored, documents_at};
ghost use Rattle.agg_request_tree.specs.Uncut.{counted};
ghost use Rattle.agg_composite.specs.accessor.Accessors.{Fits};
ghost use Rattle.agg_engine_tree.specs.segment_context.Context.{IsMeant, Meaning};
ghost use Rattle.agg_engine.specs.snapshot_results.Lone.{IsLone};

use crate::snapshot_results::context::SegmentContext;
use agg_composite::accessor::CompositeAggReqData;
use agg_engine_tree::segment_context::AggKind;
use agg_values::DocId;

/// A composite that stands alone in a segment, with one source and nothing below it.
#[derive(Drop)]
pub struct LoneComposite<'a, 's> {
    pub context: &'a SegmentContext<'s>,
    pub req: &'a CompositeAggReqData<'s>,
}

/// The composite of a segment's context, where it stands alone, has one source, and its page has
/// room for a bucket for each occurrence of the documents that match.
pub fn lone_composite<'a, 's>(context: &'a SegmentContext<'s>) -> Option<LoneComposite<'a, 's>>
    requires { (meaning : Meaning) × IsMeant meaning context.now.aggregations.per_request }
    ensures context { IfSome result (λ lone. lone.context.now ≡ context.now) }
    ensures lone { IfSome result
        (λ lone. IsLone context.now.aggregations.per_request lone.req.now) }
    ensures room { IfSome result (λ lone. (segment : Stored) (after : Named AfterKey)
        → Fits segment after lone.req.now
        → length (counted lone.req.now.req.now (documents_at segment context.now.docs.items))
        ≤ lone.req.now.size) }
{
    let ctx = &context.aggregations.per_request;
    let [node] = ctx.agg_tree.as_slice() else {
        return None;
    };
    let AggKind::Composite = node.kind else {
        return None;
    };
    if !node.children.as_slice().is_empty() {
        return None;
    }
    let req = ctx.composite_req_data.as_slice().get(node.idx_in_req_data)?;
    if req.req.sources.as_slice().len() != 1 || !has_room(req, &context.docs) {
        return None;
    }
    Some(LoneComposite { context, req })
}

// Whether a page has room for a bucket for each occurrence of documents.
fn has_room(req: &CompositeAggReqData<'_>, docs: &[DocId]) -> bool
    requires { (segment : Stored) × (after : Named AfterKey) × Fits segment after req.now }
    ensures { (segment : Stored) (after : Named AfterKey) → Fits segment after req.now
        → result ≡ true
        → length (counted req.now.req.now (documents_at segment docs.now)) ≤ req.now.size }
{
    let size = req.size as u64;
    docs.len() as u64 <= size && req.count_occurrences(docs) <= size
}
