//! Tests of results over no segment and over several, of all documents and of some, and of limits.
ghost use Rattle.std.specs.Prelude.{◌≡◌, ◌<◌};
ghost use Rattle.agg_engine.specs.snapshot_results.Asked.{MayBeAsked};

use agg_cache::LimitsLedger;
use agg_engine::snapshot_results::{PageRequest, SnapshotError, snapshot_results};
use agg_engine_tree::segment_context::AggContextParams;
use agg_expect::expect_equal;
use agg_low_tests::segment::given::{Given, segment_of};
use agg_request::{read_aggregations, read_query};
use agg_request_tree::{Aggregations, NamedBuilder, check_request};
use agg_segment::{QueryTree, Schema, SegmentReader};
use agg_values::{ItemList, Steps, Text};
use serde_json::Value;
use std::alloc::Global;
use std::marker::Brand;
use std::sync::ledger::{Blank, Ledger};
use std::test::Fail;

// The values of a document.
type Values = &'static [(&'static str, Given)];

const FIRST: &[Values] = &[
    &[("colour", Given::Text("red")), ("size", Given::Signed(1))],
    &[
        ("colour", Given::Text("blue")),
        ("colour", Given::Text("red")),
        ("size", Given::Signed(3)),
    ],
];

const SECOND: &[Values] = &[
    &[("colour", Given::Text("blue")), ("size", Given::Signed(5))],
    &[("colour", Given::Text("red")), ("size", Given::Signed(7))],
    &[("size", Given::Signed(9))],
];

// What is red, by its colours with the sum of the sizes of each, and also the greatest size and
// the number of sizes.
const REQUEST: &str = r#"{"f":{"filter":{"term":{"field":"colour","value":"str:red"}},
    "aggs":{"g":{"composite":{"sources":[{"colour":{"terms":{"field":"colour"}}}],"size":2},
    "aggs":{"s":{"sum":{"field":"size"}}}}}},
    "m":{"max":{"field":"size"}},"n":{"value_count":{"field":"size"}}}"#;

const ALL: &str = r#"{"all":{}}"#;

// The results over all documents.
const OF_ALL: &str = concat!(
    r#"{"f":{"doc_count":3,"g":{"after_key":{"colour":"str:red"},"buckets":["#,
    r#"{"doc_count":1,"key":{"colour":"blue"},"s":{"value":3}},"#,
    r#"{"doc_count":3,"key":{"colour":"red"},"s":{"value":11}}"#,
    r#"]}},"m":{"value":9},"n":{"value":5}}"#,
);

// Which documents are counted, the documents of the segments, and the results.
const ROWS: &[(&str, &[&[Values]], &str)] = &[
    (
        ALL,
        &[],
        r#"{"f":{"doc_count":0,"g":{"buckets":[]}},"m":{"value":null},"n":{"value":0}}"#,
    ),
    (ALL, &[FIRST, SECOND], OF_ALL),
    (ALL, &[SECOND, &[], FIRST], OF_ALL),
    (
        r#"{"term":{"field":"colour","value":"str:blue"}}"#,
        &[FIRST, SECOND],
        concat!(
            r#"{"f":{"doc_count":1,"g":{"after_key":{"colour":"str:red"},"buckets":["#,
            r#"{"doc_count":1,"key":{"colour":"blue"},"s":{"value":3}},"#,
            r#"{"doc_count":1,"key":{"colour":"red"},"s":{"value":3}}"#,
            r#"]}},"m":{"value":5},"n":{"value":2}}"#,
        ),
    ),
];

// Six documents, each with a number of its own.
const NUMBERS: &[Values] = &[
    &[("a", Given::Signed(1))],
    &[("a", Given::Signed(2))],
    &[("a", Given::Signed(3))],
    &[("a", Given::Signed(4))],
    &[("a", Given::Signed(5))],
    &[("a", Given::Signed(6))],
];

// A page with room for all numbers. The composite and its source take 512 bytes, and a bucket 96.
const BY_NUMBER: &str =
    r#"{"g":{"composite":{"sources":[{"a":{"terms":{"field":"a"}}}],"size":10}}}"#;

// A limit of memory, the documents of the segments, and why there are no results over them.
const LIMITS: &[(u64, &[&[Values]], Option<SnapshotError>)] = &[
    (1_088, &[NUMBERS], None),
    (1_088, &[NUMBERS, NUMBERS], None),
    (
        1_087,
        &[NUMBERS],
        Some(SnapshotError::MemoryExceeded {
            limit: 1_087,
            current: 1_088,
        }),
    ),
    (
        511,
        &[&[]],
        Some(SnapshotError::MemoryExceeded {
            limit: 511,
            current: 512,
        }),
    ),
];

// Segments, and which of their documents are counted.
#[derive(Drop)]
struct Snapshot {
    query: QueryTree,
    segments: ItemList<SegmentReader>,
}

// A query, and segments of these documents.
fn snapshot_of(alloc: Global, query: &str, given: &[&[Values]]) -> Result<Snapshot, Fail> {
    let segments = segments_of(alloc, given)?;
    let query = query_of(alloc, query)?;
    Ok(Snapshot { query, segments })
}

fn segments_of(alloc: Global, given: &[&[Values]]) -> Result<ItemList<SegmentReader>, Fail> {
    let mut segments = ItemList::new(alloc);
    for documents in given {
        add_segment(alloc, &mut segments, documents)?;
    }
    Ok(segments)
}

// Adds a segment of these documents.
fn add_segment(
    alloc: Global,
    segments: &mut ItemList<SegmentReader>,
    documents: &[Values],
) -> Result<(), Fail> {
    segments.push(segment_of(alloc, documents)?)?;
    Ok(())
}

fn query_of(alloc: Global, text: &str) -> Result<QueryTree, Fail> {
    let query = read_query(alloc, &Value::from_str(alloc, text)?);
    Ok(query?)
}

fn request_of(alloc: Global, text: &str) -> Result<Aggregations, Fail> {
    let request = read_aggregations(alloc, &Value::from_str(alloc, text)?, Vec::new(alloc));
    Ok(request?)
}

// The results of a page over segments within limits, as they are shown, or why there are none.
fn shown<L: Ledger>(
    alloc: Global,
    page: &PageRequest<'_, NamedBuilder>,
    segments: &[SegmentReader],
    limits: &mut LimitsLedger,
    steps: &mut Steps<L>,
) -> Result<Result<Text, SnapshotError>, Fail>
    requires asked { MayBeAsked page.now }
{
    match snapshot_results(alloc, page, segments, limits, steps) {
        Ok(merged) => {
            let text = merged.into_final_result(page.request, limits)?.write_json();
            Ok(Ok(text?))
        }
        Err(error) => Ok(Err(error)),
    }
}

// The results of a request over a snapshot, as they are shown, or why there are none.
fn shown_of<L: Ledger>(
    alloc: Global,
    request: &Aggregations,
    snapshot: &Snapshot,
    limits: &mut LimitsLedger,
    blank: Blank,
) -> Result<Result<Text, SnapshotError>, Fail>
    requires name { blank.name ≡ L.name }
    requires parts { blank.parts ≡ L.parts }
    requires shared { 0 < L.parts }
{
    check_request(alloc, request)?;
    let params = AggContextParams::new(alloc, request, &Schema::new(alloc))?;
    let page = PageRequest {
        request,
        params: &params,
        query: &snapshot.query,
    };
    let mut steps: Steps<L> = Steps::new(blank);
    shown(
        alloc,
        &page,
        snapshot.segments.as_slice(),
        limits,
        &mut steps,
    )
}

// The results of a request over a snapshot are shown so.
fn expect_results(
    alloc: Global,
    request: &Aggregations,
    snapshot: &Snapshot,
    text: &str,
) -> Result<(), Fail> {
    let mut limits = LimitsLedger::new(None, None);
    let blank = Blank::new(1);
    let found = shown_of::<Brand>(alloc, request, snapshot, &mut limits, blank)??;
    expect_equal(found.as_str(), text)
}

// The results of a request are those of a row.
fn expect_row(
    alloc: Global,
    request: &Aggregations,
    (query, given, text): (&str, &[&[Values]], &str),
) -> Result<(), Fail> {
    let snapshot = snapshot_of(alloc, query, given)?;
    expect_results(alloc, request, &snapshot, text)
}

fn expect_rows(alloc: Global, request: &Aggregations) -> Result<(), Fail> {
    for &row in ROWS {
        expect_row(alloc, request, row)?;
    }
    Ok(())
}

#[test]
fn gives_results_of_all_segments(rt: HostRuntime) -> Result<(), Fail> {
    let request = request_of(rt.alloc(), REQUEST)?;
    expect_rows(rt.alloc(), &request)
}

// A limit of memory refuses the results of a request over a snapshot for this reason, or gives
// them. Nothing is in use after that.
fn expect_refusal(
    alloc: Global,
    request: &Aggregations,
    snapshot: &Snapshot,
    limit: u64,
    refusal: Option<SnapshotError>,
) -> Result<(), Fail> {
    let mut limits = LimitsLedger::new(Some(limit), None);
    let blank = Blank::new(1);
    let found = shown_of::<Brand>(alloc, request, snapshot, &mut limits, blank)?;
    expect_equal((found.err(), limits.in_use()), (refusal, 0))
}

// The limit of a row refuses what the row says.
fn expect_limit(
    alloc: Global,
    request: &Aggregations,
    (limit, given, refusal): (u64, &[&[Values]], Option<SnapshotError>),
) -> Result<(), Fail> {
    let snapshot = snapshot_of(alloc, ALL, given)?;
    expect_refusal(alloc, request, &snapshot, limit, refusal)
}

fn expect_limits(alloc: Global, request: &Aggregations) -> Result<(), Fail> {
    for &row in LIMITS {
        expect_limit(alloc, request, row)?;
    }
    Ok(())
}

#[test]
fn keeps_to_the_limit_and_gives_all_back(rt: HostRuntime) -> Result<(), Fail> {
    let request = request_of(rt.alloc(), BY_NUMBER)?;
    expect_limits(rt.alloc(), &request)
}
