//! Documents whose tuples would be too many to walk, and values of which a source reads some.
ghost use Rattle.std.specs.Prelude.{[], IfOk};
ghost use Rattle.agg_composite.specs.accessor.Accessors.{AllFit, Fits};

use agg_calendar::CalendarInterval;
use agg_composite::accessor::{CompositeAggReqData, CompositeSourceAccessors};
use agg_expect::{expect_equal, expect_equal_for};
use agg_low_tests::segment::given::{Given, segment_of};
use agg_request_tests::request_tree::given::{GivenSource, Kind, composite_of};
use agg_request_tree::{CompositeAggregation, CompositeAggregationSource};
use agg_segment::{Document, FieldValue, SegmentBuilder, SegmentReader};
use agg_values::{ItemList, Text};
use std::alloc::Global;
use std::test::Fail;

#[test]
fn sources_multiply_and_a_missing_value_counts_once_where_it_has_a_bucket(
    rt: HostRuntime,
) -> Result<(), Fail> {
    expect_products(rt.alloc(), &one_document(rt.alloc())?)
}

// The composites of these fields count the one document so often.
fn expect_products(alloc: Global, segment: &SegmentReader) -> Result<(), Fail> {
    for (fields, missing_bucket, expected) in [
        (["a"].as_slice(), false, 1 << 16),
        (["a", "a"].as_slice(), false, 1 << 32),
        (["a", "a", "b"].as_slice(), false, 0),
        (["a", "b", "a"].as_slice(), true, 1 << 32),
        (["a", "a", "a", "a"].as_slice(), false, u64::MAX),
    ] {
        let count = count_of(alloc, segment, fields, missing_bucket)?;
        expect_equal(count, expected)?;
    }
    Ok(())
}

// Documents with values of the field `m`.
const MIXED: &[&[(&str, Given)]] = &[
    &[
        ("m", Given::Date(-1)),
        ("m", Given::Text("1970-01-01")),
        ("m", Given::Truth(true)),
        ("m", Given::Signed(-5)),
        ("m", Given::Date(86_400_000_000_000)),
        ("m", Given::Signed(5)),
    ],
    &[("m", Given::Text("1970-01-01"))],
    &[],
    &[("m", Given::Signed(7)), ("m", Given::Signed(7))],
];

// How many of these a terms source, a histogram and a date source read.
const READ: &[[u64; 3]] = &[[6, 4, 2], [1, 0, 0], [0, 0, 0], [2, 2, 0]];

#[test]
fn a_source_counts_the_values_that_it_reads(rt: HostRuntime) -> Result<(), Fail> {
    expect_read(rt.alloc(), &segment_of(rt.alloc(), MIXED)?)
}

// The sources read so many values of each document of a segment.
fn expect_read(alloc: Global, segment: &SegmentReader) -> Result<(), Fail> {
    for (doc, &read) in (0..4).zip(READ) {
        expect_equal_for(doc, counts(alloc, segment, doc, false)?, read)?;
        let with_bucket = [read[0].max(1), read[1].max(1), read[2].max(1)];
        expect_equal_for(doc, counts(alloc, segment, doc, true)?, with_bucket)?;
    }
    Ok(())
}

// How often a composite of one source of each kind counts a document.
fn counts(
    alloc: Global,
    segment: &SegmentReader,
    doc: u32,
    missing_bucket: bool,
) -> Result<[u64; 3], Fail> {
    let terms = GivenSource::of("m", Kind::Terms, missing_bucket);
    let numbers = GivenSource::of("m", Kind::Histogram(10), missing_bucket);
    let weeks = Kind::Dates(None, Some(CalendarInterval::Week));
    let dates = GivenSource::of("m", weeks, missing_bucket);
    Ok([
        count(alloc, &[terms], segment, doc)?,
        count(alloc, &[numbers], segment, doc)?,
        count(alloc, &[dates], segment, doc)?,
    ])
}

// A document with 65,536 values of the field `a`, each held twice.
fn one_document(alloc: Global) -> Result<SegmentReader, Fail> {
    let mut document = Document::new(alloc);
    for number in 0..65_536 {
        document.add(Text::copy_of(alloc, "a")?, FieldValue::I64(number / 2))?;
    }
    let mut builder = SegmentBuilder::new(alloc);
    builder.add_document(document)?;
    Ok(builder.build()?)
}

// How often a composite over these fields counts the one document.
fn count_of(
    alloc: Global,
    segment: &SegmentReader,
    fields: &[&'static str],
    missing_bucket: bool,
) -> Result<u64, Fail> {
    let mut sources = Vec::new(alloc);
    for &field in fields {
        sources.push(GivenSource::of(field, Kind::Terms, missing_bucket))?;
    }
    count(alloc, sources.as_slice(), segment, 0)
}

// How often a composite of these sources counts a document.
fn count(
    alloc: Global,
    sources: &[GivenSource],
    segment: &SegmentReader,
    doc: u32,
) -> Result<u64, Fail> {
    let composite = composite_of(alloc, sources, 1)?;
    let req = request_data(alloc, &composite, segment)?;
    Ok(req.count_occurrences(&[doc]))
}

// The composite in a segment, from its start.
fn request_data<'a>(
    alloc: Global,
    composite: &'a CompositeAggregation,
    segment: &'a SegmentReader,
) -> Result<CompositeAggReqData<'a>, Fail>
    ensures { IfOk result (Fits segment.now []) }
{
    Ok(CompositeAggReqData {
        name: Text::copy_of(alloc, "g")?,
        req: composite,
        size: 1,
        composite_accessors: accessors_of(alloc, composite.sources.as_slice(), segment)?,
    })
}

// The accessors of each source, from its start.
fn accessors_of<'a>(
    alloc: Global,
    sources: &[CompositeAggregationSource],
    segment: &'a SegmentReader,
) -> Result<ItemList<CompositeSourceAccessors<'a>>, Fail>
    ensures { IfOk result (AllFit segment.now [] sources.now) }
{
    let mut accessors = ItemList::new(alloc);
    for source in sources {
        accessors.push(CompositeSourceAccessors::build_for_source(alloc, segment, source, None)?)?;
    }
    Ok(accessors)
}
