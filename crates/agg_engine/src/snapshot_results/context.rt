//! Segments as a page reads them.
ghost use Rattle.std.specs.Prelude.{◌≡◌, IfErr, IfOk};
ghost use Rattle.agg_segment.specs.declared.query.QueryTree.{QueryTree as Tree};
ghost use Rattle.agg_request_tree.specs.Request.{Request};
ghost use Rattle.agg_engine.specs.snapshot_results.Asked.{IsAsked, MayBeAsked};
ghost use Rattle.agg_engine.specs.snapshot_results.Contexts.{AreContextsOf, IsContextOf};

use crate::snapshot_results::SnapshotError;
use crate::snapshot_results::matching::matching_docs;
use agg_engine_tree::segment_context::{AggContextParams, AggregationsSegmentCtx, segment_context};
use agg_request_tree::Aggregation;
use agg_segment::{QueryTree, SegmentReader};
use agg_values::{DocId, ItemList, NameMap};
use std::alloc::Global;

/// What a page is asked: a request, the trees of its filters with the page that is set, and which
/// documents are counted.
#[derive(Drop)]
pub struct PageRequest<'a, B> {
    pub request: &'a NameMap<Aggregation<B>>,
    pub params: &'a AggContextParams,
    pub query: &'a QueryTree,
}

/// A segment as a page reads it: the documents that match, and what the aggregations of the request
/// are asked there.
#[derive(Drop)]
pub struct SegmentContext<'a> {
    pub reader: &'a SegmentReader,
    pub docs: Vec<DocId>,
    pub aggregations: AggregationsSegmentCtx<'a>,
}

/// The context of each segment for a page.
pub fn segment_contexts<'a, B: Drop>(
    alloc: Global,
    page: &PageRequest<'a, B>,
    segments: &'a [SegmentReader],
) -> Result<ItemList<SegmentContext<'a>>, SnapshotError>
    requires { MayBeAsked page.now }
    ensures ok { IfOk result (λ contexts. (request : Request Tree) → IsAsked page.now request
        → AreContextsOf request page.now.query.now segments.now contexts) }
    ensures err { IfErr result (λ error. error ≡ SnapshotError.OutOfMemory) }
{
    let mut contexts = ItemList::new(alloc);
    for segment in segments {
        contexts.push(context_in(alloc, page, segment)?)?;
    }
    Ok(contexts)
}

// The context of a segment for a page.
fn context_in<'a, B: Drop>(
    alloc: Global,
    page: &PageRequest<'a, B>,
    reader: &'a SegmentReader,
) -> Result<SegmentContext<'a>, SnapshotError>
    requires { MayBeAsked page.now }
    ensures ok { IfOk result (λ context. (request : Request Tree) → IsAsked page.now request
        → IsContextOf request page.now.query.now reader.now context) }
    ensures err { IfErr result (λ error. error ≡ SnapshotError.OutOfMemory) }
{
    let docs = matching_docs(alloc, page.query, reader)?;
    let made = segment_context(alloc, page.request, reader, page.params);
    match made {
        Ok(aggregations) => Ok(SegmentContext {
            reader,
            docs,
            aggregations,
        }),
        Err(_) => Err(SnapshotError::OutOfMemory),
    }
}
