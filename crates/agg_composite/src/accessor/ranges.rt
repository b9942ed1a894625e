//! Whether the starts of buckets lie within 64 bits.
ghost use Rattle.std.specs.Prelude.{◌≡◌, ◌↔◌, IsTrue, Option, length};
ghost use Rattle.agg_values.specs.Names.{Named};
ghost use Rattle.agg_values.specs.declared.after_key.AfterKey.{AfterKey};
ghost use Rattle.agg_segment.specs.Segment.{Stored};
ghost use Rattle.agg_request_tree.specs.Source.{min_of};
ghost use Rattle.agg_values.specs.TypedKey.{CompositeIntermediateKey as Key};
ghost use Rattle.agg_composite.specs.accessor.Accessors.{AllFit};
ghost use Rattle.agg_composite.specs.accessor.Least.{AreLeastIn, IsLeastIn};
ghost use Rattle.agg_composite.specs.accessor.Ranges.{AreAllInRange, AreColumnsWithin};
ghost use Rattle.agg_composite.specs.accessor.Ranges.{AreNumbersWithin, IsColumnWithin};
ghost use Rattle.agg_composite.specs.accessor.Ranges.{IsDocumentWithin, IsNumberWithin};
ghost use Rattle.agg_composite.specs.accessor.Starts.{CanDivide};

use crate::accessor::divisor::DividedColumn;
use crate::accessor::{CompositeSourceAccessors, PrecomputedAfterKey};
use agg_request_tree::CompositeAggregationSource;
use agg_values::DocId;

/// Whether the starts of all values that sources read in documents lie within 64 bits.
pub fn are_sources_in_range(
    sources: &[CompositeAggregationSource],
    accessors: &[CompositeSourceAccessors<'_>],
    docs: &[DocId],
) -> bool
    requires { length sources.now ≡ length accessors.now }
    ensures { (segment : Stored) (after : Named AfterKey)
        → AllFit segment after sources.now accessors.now
        → IsTrue result ↔ AreAllInRange segment sources.now docs.now }
{
    for index in 0..sources.len() {
        if !are_columns_in_range(&sources[index], &accessors[index], docs) {
            return false;
        }
    }
    true
}

// Whether the starts that a source has for the values that it reads in its columns do. Terms have
// none.
fn are_columns_in_range(
    source: &CompositeAggregationSource,
    accessors: &CompositeSourceAccessors<'_>,
    docs: &[DocId],
) -> bool
    ensures { AreLeastIn (min_of source.now) accessors.now.accessors accessors.now.min
        → IsTrue result ↔ AreColumnsWithin source.now accessors.now.accessors docs.now }
{
    if let CompositeAggregationSource::Terms(_) = source {
        return true;
    }
    let columns = accessors.accessors.as_slice();
    for index in 0..columns.len() {
        let column = DividedColumn::new(source, &columns[index]);
        if !is_column_in_range(&column, accessors.least(index), docs) {
            return false;
        }
    }
    true
}

// Whether the starts for the values in a column do that aren't below a least one.
fn is_column_in_range(
    column: &DividedColumn<'_>,
    least: PrecomputedAfterKey,
    docs: &[DocId],
) -> bool
    requires { CanDivide column.now.divisor }
    ensures { (min : Option Key) → IsLeastIn column.now.column.now.keys min least
        → IsTrue result
        ↔ IsColumnWithin min column.now.divisor column.now.column.now docs.now }
{
    for doc in docs {
        if !is_document_in_range(column, least, *doc) {
            return false;
        }
    }
    true
}

// Whether those for the values of a document in a column do.
fn is_document_in_range(column: &DividedColumn<'_>, least: PrecomputedAfterKey, doc: DocId) -> bool
    requires { CanDivide column.now.divisor }
    ensures { (min : Option Key) → IsLeastIn column.now.column.now.keys min least
        → IsTrue result
        ↔ IsDocumentWithin min column.now.divisor column.now.column.now doc }
{
    are_numbers_in_range(column, least, column.column.values_for_doc(doc))
}

// Whether the starts for those of these numbers of a column do that aren't below a place.
fn are_numbers_in_range(
    column: &DividedColumn<'_>,
    least: PrecomputedAfterKey,
    numbers: &[u64],
) -> bool
    requires { CanDivide column.now.divisor }
    ensures { IsTrue result
        ↔ AreNumbersWithin column.now.divisor column.now.column.now.keys least numbers.now }
{
    numbers
        .iter()
        .all(|number| is_number_in_range(column, least, *number))
}

// Whether the start for a number of a column does, where the number isn't below a place.
fn is_number_in_range(column: &DividedColumn<'_>, least: PrecomputedAfterKey, number: u64) -> bool
    requires { CanDivide column.now.divisor }
    ensures { IsTrue result
        ↔ IsNumberWithin column.now.divisor column.now.column.now.keys least number }
{
    if least.gt(number) {
        return true;
    }
    column.is_in_range(number)
}
