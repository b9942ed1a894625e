//! What a source reads in a segment, and where its after value stands there.
ghost use Rattle.std.specs.Prelude.{◌≡◌, Some, option_map, IfErr, IfOk, OnOk};
ghost use Rattle.std.specs.Ordering.{nat_cmp};
ghost use Rattle.agg_values.specs.Column.{class_of, class_rank};
ghost use Rattle.agg_values.specs.TypedKey.{CompositeIntermediateKey};
ghost use Rattle.agg_segment.specs.storage.Columns.{keys_rank};
ghost use Rattle.agg_request_tree.specs.Faults.{IsSoundSource};
ghost use Rattle.agg_composite.specs.accessor.Accessors.{AreAccessorsOf, HasNoAccessors};
ghost use Rattle.agg_composite.specs.accessor.Least.{least_at};

mod build;
mod division;
mod least;

use crate::accessor::PrecomputedAfterKey;
use agg_calendar::PrecomputedDateInterval;
use agg_request_tree::CompositeAggregationSource;
use agg_segment::{Column, SegmentReader};
use agg_values::{
    ColumnPaginationOrder, CompositeIntermediateKey, InvalidArgument, ItemList, RequestError,
};
use build::{from_the_start, going_on, in_requested_order};
use division::division_of;
use least::least_places;
use std::alloc::Global;
use std::cmp::Ordering;

/// A column that a source reads.
#[derive(Clone, Copy)]
pub struct CompositeAccessor<'s> {
    pub column: &'s Column,
    /// What a date source divides the dates by; not applicable for other sources.
    pub date_histogram_interval: PrecomputedDateInterval,
    /// By how many nanoseconds the buckets of a date source begin later; 0 for other sources.
    pub date_offset_ns: i64,
}

/// The columns that a source reads in a segment, and where its after value stands among their keys.
#[derive(Drop)]
pub struct CompositeSourceAccessors<'s> {
    /// One for each column of the source's field that the source reads, in the requested order of
    /// their classes.
    pub accessors: ItemList<CompositeAccessor<'s>>,
    /// Where the source's least value stands in the column of each accessor; none without a least
    /// value.
    pub min: ItemList<PrecomputedAfterKey>,
    /// Where the after value stands in the accessor at its index, if there is one; of a histogram
    /// among the starts, which are encoded as numbers of an I64 column.
    pub after_key: PrecomputedAfterKey,
    /// How many accessors have only keys that come before the after value; 0 of a histogram.
    pub after_key_accessor_idx: usize,
    /// Whether Null comes before the after value.
    pub skip_missing: bool,
    /// Whether the after value is Null.
    pub is_after_key_explicit_missing: bool,
}

impl CompositeAccessor<'_> {
    /// How the class of its keys stands to a class.
    pub(crate) fn cmp_class(&self, class: ColumnPaginationOrder) -> Ordering
        ensures { (key : CompositeIntermediateKey) → class_of key ≡ Some class
            → result ≡ nat_cmp (keys_rank self.now.column.now.keys) (class_rank key) }
    {
        self.column.column_pagination_order().cmp(&class)
    }
}

impl<'s> CompositeSourceAccessors<'s> {
    /// The accessors of a source in a segment, for its after value if there is one. Of several
    /// faults the first is named: a Null that the source never has, its interval, its offset, an
    /// after value of another type.
    pub fn build_for_source(
        alloc: Global,
        reader: &'s SegmentReader,
        source: &CompositeAggregationSource,
        source_after_key_opt: Option<&CompositeIntermediateKey>,
    ) -> Result<CompositeSourceAccessors<'s>, RequestError>
        ensures ok { IfOk result (AreAccessorsOf
            reader.now source.now (option_map (λ k. k.now) source_after_key_opt.entry)) }
        ensures allowed { OnOk result
            (IsSoundSource source.now (option_map (λ k. k.now) source_after_key_opt.entry)) }
        ensures err { IfErr result
            (HasNoAccessors source.now (option_map (λ k. k.now) source_after_key_opt.entry)) }
    {
        if source.is_null_after(source_after_key_opt) {
            return Err(RequestError::Invalid(InvalidArgument::NullAfter));
        }
        let division = division_of(alloc, source)?;
        if source.is_other_after(source_after_key_opt) {
            return Err(RequestError::Invalid(InvalidArgument::AfterType));
        }
        let columns = reader.columns(source.field());
        let accessors = in_requested_order(alloc, columns, source, division)?;
        let min = least_places(alloc, accessors.as_slice(), source.min())?;
        match source_after_key_opt {
            Some(key) => Ok(going_on(accessors, min, source, key)),
            None => Ok(from_the_start(accessors, min, source.order())),
        }
    }

    /// Where the least value stands in the column of the accessor at an index: no number is below
    /// it where there is none.
    pub fn least(&self, index: usize) -> PrecomputedAfterKey
        ensures { result ≡ least_at self.now.min index }
    {
        match self.min.as_slice().get(index) {
            Some(place) => *place,
            None => PrecomputedAfterKey::Next(0),
        }
    }
}
