//! The sources of a composite.
ghost use Rattle.std.specs.Prelude.{◌≡◌, [], Ok, IfOk, IfErr, option_map, unwrap_or};
ghost use Rattle.peslumok_front.specs.grouping.Sources.{HasNoSource, date_source, divided_source};
ghost use Rattle.peslumok_front.specs.grouping.Sources.{faulty_part, has_group, order_asked};
ghost use Rattle.peslumok_front.specs.grouping.Sources.{source_asked, source_by, source_parts};
ghost use Rattle.peslumok_front.specs.grouping.Sources.{standing_of, values_source, width_source};
ghost use Rattle.peslumok_texts.specs.fields.Types.{type_of};
ghost use Rattle.peslumok_texts.specs.words.By.{parts};

use crate::grouping::by_fault::ByFault;
use crate::grouping::column_of;
use crate::grouping::division::{DateInterval, Division};
use crate::grouping::error::GroupingError;
use crate::grouping::min::least_of;
use agg_calendar::CalendarInterval;
use agg_request_tree::{
    CompositeAggregationSource, DateHistogramCompositeAggregationSource,
    HistogramCompositeAggregationSource, TermCompositeAggregationSource,
};
use agg_values::{AfterKey, MissingOrder, Order, OutOfMemory, Text};
use peslumok_texts::fields::FieldTypes;
use peslumok_texts::words::{BySpec, Missing};
use std::alloc::Global;

/// The source that groups are made by.
pub fn source_of(
    alloc: Global,
    by: &BySpec<'_>,
    types: &FieldTypes,
) -> Result<CompositeAggregationSource, GroupingError>
    ensures source { IfOk result (λ source. source_asked types.now (parts by.now) ≡ Ok source) }
    ensures cause { IfErr result (HasNoSource types.now (parts by.now)) }
{
    let field = Text::copy_of(alloc, by.field)?;
    match read_source(alloc, by, &field, types)? {
        Ok(source) => Ok(source),
        Err(why) => Err(GroupingError::By {
            field,
            text: Text::copy_of(alloc, faulty_text(by, &why))?,
            why,
        }),
    }
}

// The source for a field of the type of that name, or what is wrong with it.
fn read_source(
    alloc: Global,
    by: &BySpec<'_>,
    field: &Text,
    types: &FieldTypes,
) -> Result<Result<CompositeAggregationSource, ByFault>, OutOfMemory>
    ensures { IfOk result (λ read. read
        ≡ source_by (type_of types.now field.now) (parts by.now)) }
{
    let division = match Division::read(alloc, by, types.get(field))? {
        Ok(division) => division,
        Err(why) => return Ok(Err(why)),
    };
    let min = match least_of(alloc, by.min, types.get(field))? {
        Ok(min) => min,
        Err(why) => return Ok(Err(why)),
    };
    let parts = SourceParts::new(alloc, by, min)?;
    Ok(Ok(parts.divided(division)))
}

// The text of the part that a fault is of.
fn faulty_text<'a>(by: &BySpec<'a>, why: &ByFault) -> &'a str
    ensures { result.now ≡ unwrap_or (faulty_part (parts by.now) why.now) [] }
{
    match faulty_part(by, why) {
        Some(text) => text,
        None => "",
    }
}

// The part that a fault is of.
fn faulty_part<'a>(by: &BySpec<'a>, why: &ByFault) -> Option<&'a str>
    ensures { option_map (λ text. text.now) result ≡ faulty_part (parts by.now) why.now }
{
    match why {
        ByFault::Interval(_) => by.interval,
        ByFault::Offset(_) => by.offset,
        ByFault::Min(_) => by.min,
    }
}

// A source but for what its values are divided by.
#[derive(Drop)]
struct SourceParts {
    name: Text,
    field: Text,
    order: Order,
    missing_bucket: bool,
    missing_order: MissingOrder,
    min: Option<AfterKey>,
}

impl SourceParts {
    fn new(
        alloc: Global,
        by: &BySpec<'_>,
        min: Option<AfterKey>,
    ) -> Result<SourceParts, OutOfMemory>
        ensures { IfOk result (λ made. made ≡ source_parts (parts by.now) min) }
    {
        let (missing_bucket, missing_order) = missing_rule(by.missing);
        Ok(SourceParts {
            name: Text::copy_of(alloc, column_of(by))?,
            field: Text::copy_of(alloc, by.field)?,
            order: order_of(by.is_descending),
            missing_bucket,
            missing_order,
            min,
        })
    }

    // A source of the values themselves.
    fn terms(self) -> CompositeAggregationSource
        ensures { result ≡ values_source self }
    {
        let SourceParts {
            name,
            field,
            order,
            missing_bucket,
            missing_order,
            min,
        } = self;
        CompositeAggregationSource::Terms(TermCompositeAggregationSource {
            name,
            field,
            order,
            missing_bucket,
            missing_order,
            min,
        })
    }

    // A source of values that are divided so.
    fn divided(self, division: Division) -> CompositeAggregationSource
        ensures { result ≡ divided_source self division }
    {
        match division {
            Division::Values => self.terms(),
            Division::Width(interval) => self.histogram(interval),
            Division::Dates(interval, offset) => self.divided_dates(interval, offset),
        }
    }

    // A source of the starts of intervals of dates.
    fn divided_dates(
        self,
        interval: DateInterval,
        offset: Option<Text>,
    ) -> CompositeAggregationSource
        ensures { result ≡ divided_source self (Division.Dates interval offset) }
    {
        match interval {
            DateInterval::Fixed(text) => self.dates(Some(text), None, offset),
            DateInterval::Calendar(unit) => self.dates(None, Some(unit), offset),
        }
    }

    fn histogram(self, interval: i64) -> CompositeAggregationSource
        ensures { result ≡ width_source self interval }
    {
        let SourceParts {
            name,
            field,
            order,
            missing_bucket,
            missing_order,
            min,
        } = self;
        CompositeAggregationSource::Histogram(HistogramCompositeAggregationSource {
            name,
            field,
            interval,
            order,
            missing_bucket,
            missing_order,
            min,
        })
    }

    fn dates(
        self,
        fixed_interval: Option<Text>,
        calendar_interval: Option<CalendarInterval>,
        offset: Option<Text>,
    ) -> CompositeAggregationSource
        ensures { result ≡ date_source self fixed_interval calendar_interval offset }
    {
        let SourceParts {
            name,
            field,
            order,
            missing_bucket,
            missing_order,
            min,
        } = self;
        CompositeAggregationSource::DateHistogram(DateHistogramCompositeAggregationSource {
            name,
            field,
            fixed_interval,
            calendar_interval,
            offset,
            order,
            missing_bucket,
            missing_order,
            min,
        })
    }
}

fn order_of(is_descending: bool) -> Order
    ensures { result ≡ order_asked is_descending }
{
    if is_descending {
        Order::Desc
    } else {
        Order::Asc
    }
}

// Whether records without a value have a group, and where it stands.
fn missing_rule(missing: Missing) -> (bool, MissingOrder)
    ensures { result ≡ (has_group missing, standing_of missing) }
{
    match missing {
        Missing::NoGroup => (false, MissingOrder::Default),
        Missing::ByOrder => (true, MissingOrder::Default),
        Missing::First => (true, MissingOrder::First),
        Missing::Last => (true, MissingOrder::Last),
    }
}
