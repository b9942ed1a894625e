//! The entries of a composite of one source, whose tuples are listed, sorted and counted.
ghost use Rattle.std.specs.Prelude.{◌≡◌, ◌∷◌, [], ℕ, List, false, length};
ghost use Rattle.agg_values.specs.Names.{Named};
ghost use Rattle.agg_values.specs.declared.after_key.AfterKey.{AfterKey};
ghost use Rattle.agg_segment.specs.Segment.{Stored};
ghost use Rattle.agg_composite.specs.accessor.Accessors.{Fits};
ghost use Rattle.agg_composite.specs.accessor.Ranges.{AreAllInRange};
ghost use Rattle.agg_composite.specs.Listing.{AnswersDocuments, AnswersListed, AnswersTuples};
ghost use Rattle.agg_composite.specs.Walk.{walked};

use super::choice::Choice;
use super::gather::Gathered;
use crate::PageEntries;
use crate::accessor::{CompositeAggReqData, Encoded};
use crate::buckets::VisitError;
use crate::page_entries::EncodedEntries;
use crate::stored_tuple::StoredTuple;
use crate::tuple_counts::TupleCounts;
use agg_values::{DocId, Steps};
use std::alloc::Global;
use std::cmp::Ordering;
use std::sync::ledger::Ledger;

/// The entries of the page of documents, where a composite has one source. Their tuples that lie
/// past the bound are listed, sorted and counted, which is faster than to look each up among the
/// buckets where most of them have one. The entries have no ids of their own.
pub fn list_entries<L: Ledger>(
    alloc: Global,
    docs: &[DocId],
    req: &CompositeAggReqData<'_>,
    steps: &mut Steps<L>,
) -> Result<PageEntries, VisitError>
    requires one { length req.now.req.now.sources ≡ 1 }
    requires fits { (segment : Stored) × (after : Named AfterKey) × Fits segment after req.now }
    ensures { (segment : Stored) (after : Named AfterKey) → Fits segment after req.now
        → AreAllInRange segment req.now.req.now.sources docs.now
        → AnswersListed segment after req.now docs.now steps.old steps.new result }
{
    let mut counts = TupleCounts::new(alloc, docs.len());
    count_documents(alloc, &mut counts, docs, req, steps)?;
    let lowest = counts.into_ascending(req.size as usize)?;
    Ok(PageEntries::new(EncodedEntries::Listed(lowest)))
}

// Counts the tuples of documents that lie past the bound.
fn count_documents<L: Ledger>(
    alloc: Global,
    counts: &mut TupleCounts<StoredTuple<Encoded, 1>>,
    docs: &[DocId],
    req: &CompositeAggReqData<'_>,
    steps: &mut Steps<L>,
) -> Result<(), VisitError>
    requires one { length req.now.req.now.sources ≡ 1 }
    requires accessors { length req.now.req.now.sources ≡ length req.now.composite_accessors }
    ensures { (segment : Stored) (after : Named AfterKey) → Fits segment after req.now
        → AreAllInRange segment req.now.req.now.sources docs.now
        → AnswersDocuments segment after req.now docs.now counts.old counts.new
        steps.old steps.new result }
{
    let mut gathered = Gathered::new(alloc);
    for doc in docs {
        count_document(counts, *doc, req, &mut gathered, steps)?;
    }
    Ok(())
}

// Counts the tuples of a document that lie past the bound.
fn count_document<L: Ledger>(
    counts: &mut TupleCounts<StoredTuple<Encoded, 1>>,
    doc: DocId,
    req: &CompositeAggReqData<'_>,
    gathered: &mut Gathered,
    steps: &mut Steps<L>,
) -> Result<(), VisitError>
    requires one { length req.now.req.now.sources ≡ 1 }
    requires accessors { length req.now.req.now.sources ≡ length req.now.composite_accessors }
    ensures { (segment : Stored) (after : Named AfterKey) → Fits segment after req.now
        → AreAllInRange segment req.now.req.now.sources (doc ∷ [])
        → AnswersDocuments segment after req.now (doc ∷ []) counts.old counts.new
        steps.old steps.new result }
{
    let sources = req.req.sources.as_slice();
    gathered.gather(sources, req.composite_accessors.as_slice(), doc)?;
    count_choices(counts, gathered.choices.as_slice(), steps)
}

// Counts the tuples of one key each that are above the bound.
fn count_choices<L: Ledger>(
    counts: &mut TupleCounts<StoredTuple<Encoded, 1>>,
    choices: &[Choice],
    steps: &mut Steps<L>,
) -> Result<(), VisitError>
    ensures { AnswersTuples (walked (choices.now ∷ []) [] false) counts.old counts.new
        steps.old steps.new result }
{
    for choice in choices {
        if let Ordering::Greater = choice.side {
            steps.tick();
            counts.count(tuple_of(choice.value))?;
        }
    }
    Ok(())
}

// The tuple of one key.
fn tuple_of(key: Encoded) -> StoredTuple<Encoded, 1>
    ensures { result ≡ key ∷ [] }
{
    let mut tuple = StoredTuple::new();
    tuple.push(key);
    tuple
}
