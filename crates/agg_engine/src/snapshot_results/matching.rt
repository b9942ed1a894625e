//! The documents that a query matches.
ghost use Rattle.std.specs.Prelude.{◌≡◌, ◌<◌, All, IfOk, filter, length};
ghost use Rattle.std.specs.List.{range_with_len};
ghost use Rattle.agg_segment.specs.storage.Document.{HasNumbersOf64Bits};
ghost use Rattle.agg_segment.specs.Query.{matches};
ghost use Rattle.agg_segment.specs.Segment.{documents_at, documents_of};

use agg_segment::{Matches, QueryTree, SegmentReader};
use agg_values::{DocId, OutOfMemory};
use std::alloc::Global;

/// The documents of a segment that a query matches, ascending.
pub fn matching_docs(
    alloc: Global,
    query: &QueryTree,
    segment: &SegmentReader,
) -> Result<Vec<DocId>, OutOfMemory>
    ensures documents { IfOk result
        (λ docs. documents_at segment.now docs.items
        ≡ filter (matches query.now) (documents_of segment.now)) }
    ensures within { IfOk result
        (λ docs. All (λ doc. doc < length (documents_of segment.now)) docs.items) }
    ensures numbers { All HasNumbersOf64Bits (documents_of segment.now) }
{
    let count = segment.num_docs();
    if let QueryTree::All = query {
        return first_docs(alloc, count);
    }
    Matches::new(alloc, query, segment)?.docs(alloc)
}

// The first documents of a segment, as many as this.
fn first_docs(alloc: Global, count: u32) -> Result<Vec<DocId>, OutOfMemory>
    ensures { IfOk result (λ docs. docs.items ≡ range_with_len 0 count) }
{
    let mut docs = Vec::with_capacity(alloc, count as usize)?;
    for doc in 0..count {
        docs.push(doc)?;
    }
    Ok(docs)
}
