//! Sources, composites and requests, as the tables of tests hold them.
ghost use Rattle.std.specs.Prelude.{◌≡◌, ◌∷◌, [], IfOk};
ghost use Rattle.agg_request_tree.specs.Request.{agg_of, below_of};

use agg_calendar::CalendarInterval;
use agg_low_tests::segment::given::Given;
use agg_request_tree::{
    Aggregation, AggregationVariants, Aggregations, CompositeAggregation,
    CompositeAggregationSource, DateHistogramCompositeAggregationSource,
    HistogramCompositeAggregationSource, TermCompositeAggregationSource,
};
use agg_values::{
    Address, AfterKey, CompositeIntermediateKey, ItemList, MissingOrder, NameMap, Order,
    OutOfMemory, Text,
};
use std::alloc::Global;

/// What a source makes keys of: values, or the starts of numbers or of dates.
#[derive(Clone, Copy)]
pub enum Kind {
    Terms,
    Histogram(i64),
    Dates(Option<&'static str>, Option<CalendarInterval>),
}

/// A source.
#[derive(Clone, Copy)]
pub struct GivenSource {
    pub name: &'static str,
    pub field: &'static str,
    pub kind: Kind,
    pub order: Order,
    pub missing_bucket: bool,
    pub missing_order: MissingOrder,
    /// By how much the buckets of dates begin later.
    pub offset: Option<&'static str>,
    /// The least value that is read.
    pub min: Option<Given>,
}

impl GivenSource {
    /// An ascending source of a field, by the field's name.
    pub fn of(field: &'static str, kind: Kind, missing_bucket: bool) -> GivenSource {
        GivenSource {
            name: field,
            field,
            kind,
            order: Order::Asc,
            missing_bucket,
            missing_order: MissingOrder::Default,
            offset: None,
            min: None,
        }
    }

    /// The source itself.
    pub fn source(self, alloc: Global) -> Result<CompositeAggregationSource, OutOfMemory> {
        match self.kind {
            Kind::Terms => self.terms(alloc),
            Kind::Histogram(interval) => self.histogram(alloc, interval),
            Kind::Dates(fixed, calendar) => self.dates(alloc, fixed, calendar),
        }
    }

    fn terms(self, alloc: Global) -> Result<CompositeAggregationSource, OutOfMemory> {
        Ok(CompositeAggregationSource::Terms(TermCompositeAggregationSource {
            name: Text::copy_of(alloc, self.name)?,
            field: Text::copy_of(alloc, self.field)?,
            order: self.order,
            missing_bucket: self.missing_bucket,
            missing_order: self.missing_order,
            min: self.least(alloc)?,
        }))
    }

    fn histogram(
        self,
        alloc: Global,
        interval: i64,
    ) -> Result<CompositeAggregationSource, OutOfMemory> {
        Ok(CompositeAggregationSource::Histogram(HistogramCompositeAggregationSource {
            name: Text::copy_of(alloc, self.name)?,
            field: Text::copy_of(alloc, self.field)?,
            interval,
            order: self.order,
            missing_bucket: self.missing_bucket,
            missing_order: self.missing_order,
            min: self.least(alloc)?,
        }))
    }

    fn dates(
        self,
        alloc: Global,
        fixed: Option<&str>,
        calendar_interval: Option<CalendarInterval>,
    ) -> Result<CompositeAggregationSource, OutOfMemory> {
        Ok(CompositeAggregationSource::DateHistogram(DateHistogramCompositeAggregationSource {
            name: Text::copy_of(alloc, self.name)?,
            field: Text::copy_of(alloc, self.field)?,
            fixed_interval: text_of(alloc, fixed)?,
            calendar_interval,
            offset: text_of(alloc, self.offset)?,
            order: self.order,
            missing_bucket: self.missing_bucket,
            missing_order: self.missing_order,
            min: self.least(alloc)?,
        }))
    }

    fn least(self, alloc: Global) -> Result<Option<AfterKey>, OutOfMemory> {
        match self.min {
            Some(least) => Ok(Some(AfterKey(key_of(alloc, Some(least))?))),
            None => Ok(None),
        }
    }
}

fn text_of(alloc: Global, text: Option<&str>) -> Result<Option<Text>, OutOfMemory> {
    match text {
        Some(text) => Ok(Some(Text::copy_of(alloc, text)?)),
        None => Ok(None),
    }
}

/// The key of a value. None is Null.
pub fn key_of(
    alloc: Global,
    given: Option<Given>,
) -> Result<CompositeIntermediateKey, OutOfMemory> {
    Ok(match given {
        Some(Given::Truth(truth)) => CompositeIntermediateKey::Bool(truth),
        Some(Given::Text(text)) => CompositeIntermediateKey::Str(Text::copy_of(alloc, text)?),
        Some(Given::Signed(number)) => CompositeIntermediateKey::I64(number),
        Some(Given::Unsigned(number)) => CompositeIntermediateKey::U64(number),
        Some(Given::Address(address)) => CompositeIntermediateKey::IpAddr(Address(address)),
        Some(Given::Date(nanoseconds)) => CompositeIntermediateKey::DateTime(nanoseconds),
        None => CompositeIntermediateKey::Null,
    })
}

/// The composite of these sources without after values.
pub fn composite_of(
    alloc: Global,
    sources: &[GivenSource],
    size: u32,
) -> Result<CompositeAggregation, OutOfMemory> {
    let mut listed = ItemList::new(alloc);
    for source in sources {
        listed.push(source.source(alloc)?)?;
    }
    Ok(CompositeAggregation {
        sources: listed,
        size,
        after: NameMap::new(alloc),
    })
}

/// A composite with no aggregations below it.
pub fn lone(alloc: Global, composite: CompositeAggregation) -> Aggregation
    ensures agg { agg_of result ≡ AggregationVariants.Composite composite }
    ensures below { below_of result ≡ [] }
{
    Aggregation {
        agg: AggregationVariants::Composite(composite),
        sub_aggregation: NameMap::new(alloc),
    }
}

/// The request of one aggregation.
pub fn request_of(
    alloc: Global,
    name: &str,
    aggregation: Aggregation,
) -> Result<Aggregations, OutOfMemory>
    ensures { IfOk result (λ request. request ≡ (name.now, aggregation) ∷ []) }
{
    lone_entry(alloc, name, aggregation)
}

// A map of one name.
fn lone_entry<T: Drop>(alloc: Global, name: &str, value: T) -> Result<NameMap<T>, OutOfMemory>
    ensures { IfOk result (λ map. map ≡ (name.now, value) ∷ []) }
{
    let mut map = NameMap::new(alloc);
    map.insert(Text::copy_of(alloc, name)?, value)?;
    Ok(map)
}
