//! The walk over the tuples of documents.
ghost use Rattle.std.specs.Prelude.{◌≡◌, ◌+◌, ◌<◌, ◌≤◌, [], ◌∷◌, length, sum, OnOk};
ghost use Rattle.agg_request_tree.specs.Faults.{max_sources};
ghost use Rattle.agg_composite.specs.Answers.{AnswersDocuments, AnswersEncoded};
ghost use Rattle.agg_composite.specs.HeldTuples.{KeepTuples, KeepTuplesAt};
ghost use Rattle.agg_composite.specs.Walk.{if_above, next_standing, parts, walked};

mod choice;
mod gather;
mod index;
mod listing;

use crate::accessor::{CompositeAggReqData, Encoded};
use crate::buckets::{BucketsByParent, VisitError};
use crate::stored_tuple::StoredTuple;
use agg_values::{DocId, Steps};
use choice::Choice;
use gather::Gathered;
pub use listing::list_entries;
use std::alloc::Global;
use std::cmp::Ordering;
use std::sync::ledger::Ledger;

/// Visits the tuples of the documents of these numbers that lie past the bound, in the order
/// of their occurrences.
pub fn visit_documents<const N: usize, L: Ledger>(
    alloc: Global,
    buckets: &mut BucketsByParent<StoredTuple<Encoded, N>>,
    docs: &[DocId],
    req: &CompositeAggReqData<'_>,
    steps: &mut Steps<L>,
) -> Result<(), VisitError>
    requires accessors { length req.now.req.now.sources ≡ length req.now.composite_accessors }
    requires few { N ≤ max_sources }
    requires room { length req.now.req.now.sources ≤ N }
    ensures answers { AnswersDocuments req.now docs.now buckets.old buckets.new
        steps.old steps.new result }
    ensures held { KeepTuplesAt req.now docs.now buckets.old buckets.new }
{
    let mut gathered = Gathered::new(alloc);
    for doc in docs {
        visit_document(buckets, *doc, req, &mut gathered, steps)?;
    }
    Ok(())
}

// Visits the tuples of a document that lie past the bound.
fn visit_document<const N: usize, L: Ledger>(
    buckets: &mut BucketsByParent<StoredTuple<Encoded, N>>,
    doc: DocId,
    req: &CompositeAggReqData<'_>,
    gathered: &mut Gathered,
    steps: &mut Steps<L>,
) -> Result<(), VisitError>
    requires accessors { length req.now.req.now.sources ≡ length req.now.composite_accessors }
    requires few { N ≤ max_sources }
    requires room { length req.now.req.now.sources ≤ N }
    ensures answers { AnswersDocuments req.now (doc ∷ []) buckets.old buckets.new
        steps.old steps.new result }
    ensures held { KeepTuplesAt req.now (doc ∷ []) buckets.old buckets.new }
{
    let sources = req.req.sources.as_slice();
    let accessors = req.composite_accessors.as_slice();
    gathered.gather(sources, accessors, doc)?;
    buckets.begin_document(doc);
    let rest = Rest {
        choices: gathered.choices.as_slice(),
        sizes: gathered.sizes.as_slice(),
        is_above: false,
    };
    walk_from(buckets, &mut StoredTuple::new(), &rest, steps)
}

// What a walk has left of a document: the choices of the sources that are left, end to end, how
// many each has, and whether the keys so far are above the bound already; else they are equal to
// it.
#[derive(Clone, Copy)]
struct Rest<'a> {
    choices: &'a [Choice],
    sizes: &'a [usize],
    is_above: bool,
}

// Visits the tuples that begin with these keys.
fn walk_from<const N: usize, L: Ledger>(
    buckets: &mut BucketsByParent<StoredTuple<Encoded, N>>,
    tuple: &mut StoredTuple<Encoded, N>,
    rest: &Rest<'_>,
    steps: &mut Steps<L>,
) -> Result<(), VisitError>
    requires sizes { sum rest.now.sizes.now ≤ length rest.now.choices.now }
    requires few { N ≤ max_sources }
    requires room { length tuple.old + length rest.now.sizes.now ≤ N }
    ensures answers { AnswersEncoded
        (walked (parts rest.now.sizes.now rest.now.choices.now) tuple.old rest.now.is_above)
        buckets.old buckets.new steps.old steps.new result }
    ensures held { KeepTuples
        (walked (parts rest.now.sizes.now rest.now.choices.now) tuple.old rest.now.is_above)
        buckets.old buckets.new }
    ensures same { OnOk result (tuple.new ≡ tuple.old) }
{
    let Some((size, sizes)) = rest.sizes.split_first() else {
        return visit_above(buckets, tuple, rest.is_above, steps);
    };
    let (own, choices) = rest.choices.split_at(*size);
    if sizes.is_empty() {
        return visit_each(buckets, tuple, own, rest.is_above, steps);
    }
    for choice in own {
        if let Some(is_above) = standing_with(rest.is_above, choice.side) {
            let others = Rest {
                choices,
                sizes,
                is_above,
            };
            tuple.push(choice.value);
            walk_from(buckets, tuple, &others, steps)?;
            tuple.pop();
        }
    }
    Ok(())
}

// Visits the tuples of these keys and one of the last source, without a further call of the walk
// for each.
fn visit_each<const N: usize, L: Ledger>(
    buckets: &mut BucketsByParent<StoredTuple<Encoded, N>>,
    tuple: &mut StoredTuple<Encoded, N>,
    choices: &[Choice],
    was_above: bool,
    steps: &mut Steps<L>,
) -> Result<(), VisitError>
    requires { length tuple.old < N }
    ensures answers { AnswersEncoded (walked (choices.now ∷ []) tuple.old was_above)
        buckets.old buckets.new steps.old steps.new result }
    ensures held { KeepTuples (walked (choices.now ∷ []) tuple.old was_above)
        buckets.old buckets.new }
    ensures same { OnOk result (tuple.new ≡ tuple.old) }
{
    for choice in choices {
        if let Some(is_above) = standing_with(was_above, choice.side) {
            tuple.push(choice.value);
            visit_above(buckets, tuple, is_above, steps)?;
            tuple.pop();
        }
    }
    Ok(())
}

// Visits a tuple where it is above the bound.
fn visit_above<const N: usize, L: Ledger>(
    buckets: &mut BucketsByParent<StoredTuple<Encoded, N>>,
    tuple: &StoredTuple<Encoded, N>,
    is_above: bool,
    steps: &mut Steps<L>,
) -> Result<(), VisitError>
    ensures answers { AnswersEncoded (if_above tuple.now is_above) buckets.old buckets.new
        steps.old steps.new result }
    ensures held { KeepTuples (if_above tuple.now is_above) buckets.old buckets.new }
{
    if is_above {
        return visit(buckets, tuple, steps);
    }
    Ok(())
}

// Whether a tuple is above the bound with one more key; None where it is below.
fn standing_with(was_above: bool, side: Ordering) -> Option<bool>
    ensures { result ≡ next_standing was_above side }
{
    if was_above {
        return Some(true);
    }
    match side {
        Ordering::Less => None,
        Ordering::Equal => Some(false),
        Ordering::Greater => Some(true),
    }
}

// Visits a tuple.
fn visit<const N: usize, L: Ledger>(
    buckets: &mut BucketsByParent<StoredTuple<Encoded, N>>,
    tuple: &StoredTuple<Encoded, N>,
    steps: &mut Steps<L>,
) -> Result<(), VisitError>
    ensures answers { AnswersEncoded (tuple.now ∷ []) buckets.old buckets.new
        steps.old steps.new result }
    ensures held { KeepTuples (tuple.now ∷ []) buckets.old buckets.new }
{
    buckets.visit(tuple, steps)
}
