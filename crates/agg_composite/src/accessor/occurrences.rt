//! How many occurrences documents have, counted without walking them.
ghost use Rattle.std.specs.Prelude.{◌≡◌, Option, filter, length};
ghost use Rattle.std.specs.Io.Iter.{u64_saturate};
ghost use Rattle.agg_values.specs.Names.{Named};
ghost use Rattle.agg_values.specs.TypedKey.{CompositeIntermediateKey as Key};
ghost use Rattle.agg_values.specs.declared.after_key.AfterKey.{AfterKey};
ghost use Rattle.agg_segment.specs.storage.Columns.{all_keys};
ghost use Rattle.agg_segment.specs.Segment.{Stored, document_at, documents_at};
ghost use Rattle.agg_request_tree.specs.Occurrences.{occurrences, occurrences_in};
ghost use Rattle.agg_request_tree.specs.Source.{is_from, min_of, source_values};
ghost use Rattle.agg_composite.specs.accessor.Accessors.{AllFit, AreOfField};
ghost use Rattle.agg_composite.specs.accessor.Lanes.{columns_of};
ghost use Rattle.agg_composite.specs.accessor.Least.{AreLeastIn, numbers_from};

use crate::accessor::{CompositeSourceAccessors, PrecomputedAfterKey};
use agg_request_tree::CompositeAggregationSource;
use agg_values::DocId;

/// How many occurrences documents have, at most the greatest u64.
pub fn count_occurrences(
    sources: &[CompositeAggregationSource],
    accessors: &[CompositeSourceAccessors<'_>],
    docs: &[DocId],
) -> u64
    requires { length sources.now ≡ length accessors.now }
    ensures { (segment : Stored) (after : Named AfterKey)
        → AllFit segment after sources.now accessors.now
        → result
        ≡ u64_saturate (length (occurrences_in sources.now (documents_at segment docs.now))) }
{
    let mut count: u64 = 0;
    for doc in docs {
        count = count.saturating_add(num_occurrences(sources, accessors, *doc));
    }
    count
}

// How many occurrences a document has: the product of the numbers of its keys, source by source.
fn num_occurrences(
    sources: &[CompositeAggregationSource],
    accessors: &[CompositeSourceAccessors<'_>],
    doc: DocId,
) -> u64
    requires { length sources.now ≡ length accessors.now }
    ensures { (segment : Stored) (after : Named AfterKey)
        → AllFit segment after sources.now accessors.now
        → result ≡ u64_saturate (length (occurrences sources.now (document_at segment doc))) }
{
    let mut product: u64 = 1;
    for index in 0..sources.len() {
        product = product.saturating_mul(num_keys(&sources[index], &accessors[index], doc));
    }
    product
}

// How many keys a source reads in a document.
fn num_keys(
    source: &CompositeAggregationSource,
    accessors: &CompositeSourceAccessors<'_>,
    doc: DocId,
) -> u64
    ensures { (segment : Stored) → AreOfField segment source.now accessors.now.accessors
        → AreLeastIn (min_of source.now) accessors.now.accessors accessors.now.min
        → result ≡ u64_saturate (length (source_values source.now (document_at segment doc))) }
{
    let num_values = num_values(accessors, doc);
    if source.missing_bucket() {
        return num_values.max(1);
    }
    num_values
}

// How many values a document has in the columns of accessors that aren't below the least one.
fn num_values(accessors: &CompositeSourceAccessors<'_>, doc: DocId) -> u64
    ensures { (min : Option Key)
        → AreLeastIn min accessors.now.accessors accessors.now.min
        → result ≡ u64_saturate (length
        (filter (is_from min) (all_keys (columns_of accessors.now.accessors) doc))) }
{
    let mut count: u64 = 0;
    let columns = accessors.accessors.as_slice();
    for index in 0..columns.len() {
        let accessor = &columns[index];
        let numbers = accessor.column.values_for_doc(doc);
        count = count.saturating_add(num_numbers(accessors.least(index), numbers));
    }
    count
}

// How many numbers aren't below a place.
fn num_numbers(least: PrecomputedAfterKey, numbers: &[u64]) -> u64
    ensures { result ≡ length (numbers_from least numbers.now) }
{
    // Most sources have no least value: then no number is looked at.
    if let PrecomputedAfterKey::Next(0) = least {
        return numbers.len() as u64;
    }
    numbers.iter().filter(|number| !least.gt(**number)).count() as u64
}
