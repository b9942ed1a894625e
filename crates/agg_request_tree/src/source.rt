ghost use Rattle.std.specs.Prelude.{◌≡◌, IfOk, option_map};
ghost use Rattle.agg_request_tree.specs.Source.{field_of, name_of, order_of};
ghost use Rattle.agg_request_tree.specs.Source.{min_of, missing_order_of, missing_bucket_of};
ghost use Rattle.agg_request_tree.specs.SourceColumns.{reads_class};

mod after;

use agg_calendar::CalendarInterval;
use agg_values::{
    AfterKey, ColumnPaginationOrder, CompositeIntermediateKey, MissingOrder, Order, OutOfMemory,
    Text,
};
use std::alloc::Global;

/// A source whose keys are the values of a field.
#[derive(Debug, Drop, PartialEq)]
pub struct TermCompositeAggregationSource {
    pub name: Text,
    pub field: Text,
    pub order: Order,
    /// Whether a document without a value has the key Null.
    pub missing_bucket: bool,
    pub missing_order: MissingOrder,
    /// The least value that is read. Values of classes before its own are less, those of classes
    /// after it aren't.
    pub min: Option<AfterKey>,
}

impl TermCompositeAggregationSource {
    /// An equal source.
    pub fn try_clone(&self, alloc: Global) -> Result<TermCompositeAggregationSource, OutOfMemory>
        ensures { IfOk result (λ source. source ≡ self.now) }
    {
        Ok(TermCompositeAggregationSource {
            name: self.name.try_clone(alloc)?,
            field: self.field.try_clone(alloc)?,
            order: self.order,
            missing_bucket: self.missing_bucket,
            missing_order: self.missing_order,
            min: key_copy_of(alloc, self.min.as_ref())?,
        })
    }
}

/// A source whose keys are the starts of the buckets of a field's numbers and dates, as numbers.
#[derive(Debug, Drop, PartialEq)]
pub struct HistogramCompositeAggregationSource {
    pub name: Text,
    pub field: Text,
    /// The width of a bucket. Dates count in milliseconds.
    pub interval: i64,
    pub order: Order,
    /// Whether a document without a number or date has the key Null.
    pub missing_bucket: bool,
    pub missing_order: MissingOrder,
    /// The least value that is read. Values of classes before its own are less, those of classes
    /// after it aren't.
    pub min: Option<AfterKey>,
}

impl HistogramCompositeAggregationSource {
    /// An equal source.
    pub fn try_clone(
        &self,
        alloc: Global,
    ) -> Result<HistogramCompositeAggregationSource, OutOfMemory>
        ensures { IfOk result (λ source. source ≡ self.now) }
    {
        Ok(HistogramCompositeAggregationSource {
            name: self.name.try_clone(alloc)?,
            field: self.field.try_clone(alloc)?,
            interval: self.interval,
            order: self.order,
            missing_bucket: self.missing_bucket,
            missing_order: self.missing_order,
            min: key_copy_of(alloc, self.min.as_ref())?,
        })
    }
}

/// A source whose keys are the starts of the buckets of a field's dates, as dates. One of its two
/// intervals is set.
#[derive(Debug, Drop, PartialEq)]
pub struct DateHistogramCompositeAggregationSource {
    pub name: Text,
    pub field: Text,
    /// The text of a number of days, hours, minutes, seconds or milliseconds.
    pub fixed_interval: Option<Text>,
    pub calendar_interval: Option<CalendarInterval>,
    /// The text of a time with a sign or none, by which each bucket begins later.
    pub offset: Option<Text>,
    pub order: Order,
    /// Whether a document without a date has the key Null.
    pub missing_bucket: bool,
    pub missing_order: MissingOrder,
    /// The least value that is read. Values of classes before its own are less, those of classes
    /// after it aren't.
    pub min: Option<AfterKey>,
}

impl DateHistogramCompositeAggregationSource {
    /// An equal source.
    pub fn try_clone(
        &self,
        alloc: Global,
    ) -> Result<DateHistogramCompositeAggregationSource, OutOfMemory>
        ensures { IfOk result (λ source. source ≡ self.now) }
    {
        Ok(DateHistogramCompositeAggregationSource {
            name: self.name.try_clone(alloc)?,
            field: self.field.try_clone(alloc)?,
            fixed_interval: copy_of(alloc, self.fixed_interval.as_ref())?,
            calendar_interval: self.calendar_interval,
            offset: copy_of(alloc, self.offset.as_ref())?,
            order: self.order,
            missing_bucket: self.missing_bucket,
            missing_order: self.missing_order,
            min: key_copy_of(alloc, self.min.as_ref())?,
        })
    }
}

// An equal text, where there is one.
fn copy_of(alloc: Global, text: Option<&Text>) -> Result<Option<Text>, OutOfMemory>
    ensures { IfOk result (λ copy. copy ≡ option_map (λ t. t.now) text.entry) }
{
    match text {
        Some(text) => Ok(Some(text.try_clone(alloc)?)),
        None => Ok(None),
    }
}

// An equal key, where there is one.
fn key_copy_of(alloc: Global, key: Option<&AfterKey>) -> Result<Option<AfterKey>, OutOfMemory>
    ensures { IfOk result (λ copy. copy ≡ option_map (λ k. k.now) key.entry) }
{
    match key {
        Some(AfterKey(key)) => Ok(Some(AfterKey(key.try_clone(alloc)?))),
        None => Ok(None),
    }
}

// The key that a text of a request stands for, where there is one.
fn key_of(key: &Option<AfterKey>) -> Option<&CompositeIntermediateKey>
    ensures { option_map (λ k. k.now) result ≡ option_map (λ k. k.0) key.now }
{
    match key {
        Some(AfterKey(key)) => Some(key),
        None => None,
    }
}

/// A source of keys.
#[derive(Debug, Drop, PartialEq)]
pub enum CompositeAggregationSource {
    Terms(TermCompositeAggregationSource),
    Histogram(HistogramCompositeAggregationSource),
    DateHistogram(DateHistogramCompositeAggregationSource),
}

impl CompositeAggregationSource {
    /// An equal source.
    pub fn try_clone(&self, alloc: Global) -> Result<CompositeAggregationSource, OutOfMemory>
        ensures { IfOk result (λ source. source ≡ self.now) }
    {
        match self {
            CompositeAggregationSource::Terms(terms) => {
                Ok(CompositeAggregationSource::Terms(terms.try_clone(alloc)?))
            }
            CompositeAggregationSource::Histogram(histogram) => {
                Ok(CompositeAggregationSource::Histogram(histogram.try_clone(alloc)?))
            }
            CompositeAggregationSource::DateHistogram(dates) => {
                Ok(CompositeAggregationSource::DateHistogram(dates.try_clone(alloc)?))
            }
        }
    }

    /// The field that is read.
    pub fn field(&self) -> &Text
        ensures { result.now ≡ field_of self.now }
    {
        match self {
            CompositeAggregationSource::Terms(terms) => &terms.field,
            CompositeAggregationSource::Histogram(histogram) => &histogram.field,
            CompositeAggregationSource::DateHistogram(dates) => &dates.field,
        }
    }

    /// The name under which the key is shown.
    pub fn name(&self) -> &Text
        ensures { result.now ≡ name_of self.now }
    {
        match self {
            CompositeAggregationSource::Terms(terms) => &terms.name,
            CompositeAggregationSource::Histogram(histogram) => &histogram.name,
            CompositeAggregationSource::DateHistogram(dates) => &dates.name,
        }
    }

    /// The direction in which the keys are listed.
    pub fn order(&self) -> Order
        ensures { result ≡ order_of self.now }
    {
        match self {
            CompositeAggregationSource::Terms(terms) => terms.order,
            CompositeAggregationSource::Histogram(histogram) => histogram.order,
            CompositeAggregationSource::DateHistogram(dates) => dates.order,
        }
    }

    /// The place of Null among the keys.
    pub fn missing_order(&self) -> MissingOrder
        ensures { result ≡ missing_order_of self.now }
    {
        match self {
            CompositeAggregationSource::Terms(terms) => terms.missing_order,
            CompositeAggregationSource::Histogram(histogram) => histogram.missing_order,
            CompositeAggregationSource::DateHistogram(dates) => dates.missing_order,
        }
    }

    /// Whether a document without a value that the source reads has the key Null.
    pub fn missing_bucket(&self) -> bool
        ensures { result ≡ missing_bucket_of self.now }
    {
        match self {
            CompositeAggregationSource::Terms(terms) => terms.missing_bucket,
            CompositeAggregationSource::Histogram(histogram) => histogram.missing_bucket,
            CompositeAggregationSource::DateHistogram(dates) => dates.missing_bucket,
        }
    }

    /// The least value that is read, if there is one.
    pub fn min(&self) -> Option<&CompositeIntermediateKey>
        ensures { option_map (λ k. k.now) result ≡ min_of self.now }
    {
        match self {
            CompositeAggregationSource::Terms(terms) => key_of(&terms.min),
            CompositeAggregationSource::Histogram(histogram) => key_of(&histogram.min),
            CompositeAggregationSource::DateHistogram(dates) => key_of(&dates.min),
        }
    }

    /// Whether the values of a class are read.
    pub fn reads(&self, class: ColumnPaginationOrder) -> bool
        ensures { result ≡ reads_class self.now class }
    {
        match self {
            CompositeAggregationSource::Terms(_) => true,
            CompositeAggregationSource::Histogram(_) => matches!(
                class,
                ColumnPaginationOrder::Numeric | ColumnPaginationOrder::DateTime
            ),
            CompositeAggregationSource::DateHistogram(_) => {
                matches!(class, ColumnPaginationOrder::DateTime)
            }
        }
    }
}
