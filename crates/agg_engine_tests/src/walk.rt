//! Walks over small snapshots: their pages, and all that a refusal says.
ghost use Rattle.std.specs.Prelude.{◌≡◌, ◌<◌};

use agg_cache::LimitsLedger;
use agg_engine::{Snapshot, Walk, WalkError, walk_pages};
use agg_expect::expect_equal;
use agg_low_tests::segment::given::{Given, segment_of};
use agg_request_tests::request_tree::given::{GivenSource, Kind, composite_of, lone, request_of};
use agg_request_tree::Aggregations;
use agg_segment::{QueryTree, Schema};
use agg_values::{AggregationError, InvalidArgument, ItemList, OutOfMemory, Steps, Text};
use std::alloc::Global;
use std::marker::Brand;
use std::sync::ledger::{Blank, Ledger};
use std::test::Fail;

/// The values of a document.
pub type Values = &'static [(&'static str, Given)];

/// The size of a snapshot's page, and the documents of its segments.
pub type Documents = (u32, &'static [&'static [Values]]);

// What a walk is asked: a composite's name, the names of its sources, which all read the field a,
// its size in the request, how many buckets a page may have, and the snapshots.
#[derive(Clone, Copy)]
struct Asked {
    name: &'static str,
    sources: &'static [&'static str],
    size: u32,
    bucket_limit: Option<u32>,
    snapshots: &'static [Documents],
}

const ONE: Values = &[("a", Given::Signed(1))];

const TWO: Values = &[("a", Given::Signed(2))];

const THREE: Values = &[("a", Given::Signed(3))];

const ONE_SOURCE: &[&str] = &["a"];

const ROOM_FOR_TWO: Documents = (2, &[&[THREE, ONE, TWO, ONE]]);

const TWO_SEGMENTS: Documents = (2, &[&[THREE, ONE], &[TWO, ONE]]);

const THREE_SEGMENTS: Documents = (2, &[&[THREE], &[ONE, TWO], &[ONE]]);

const TWO_PAGES: &[&str] = &[
    "{\"g\":{\"after_key\":{\"a\":\"i64:2\"},\"buckets\":[\
        {\"doc_count\":2,\"key\":{\"a\":1}},{\"doc_count\":1,\"key\":{\"a\":2}}]}}",
    "{\"g\":{\"buckets\":[{\"doc_count\":1,\"key\":{\"a\":3}}]}}",
];

// What is asked, the results of its pages, and whether the walk ended.
const WALKS: &[(Asked, &[&str], bool)] = &[
    (
        Asked {
            name: "g",
            sources: ONE_SOURCE,
            size: 2,
            bucket_limit: None,
            snapshots: &[ROOM_FOR_TWO, ROOM_FOR_TWO],
        },
        TWO_PAGES,
        true,
    ),
    (
        Asked {
            name: "g",
            sources: ONE_SOURCE,
            size: 2,
            bucket_limit: Some(2),
            snapshots: &[TWO_SEGMENTS, ROOM_FOR_TWO],
        },
        TWO_PAGES,
        true,
    ),
    (
        Asked {
            name: "g",
            sources: ONE_SOURCE,
            size: 2,
            bucket_limit: None,
            snapshots: &[THREE_SEGMENTS, TWO_SEGMENTS],
        },
        TWO_PAGES,
        true,
    ),
    (
        Asked {
            name: "g",
            sources: ONE_SOURCE,
            size: 2,
            bucket_limit: None,
            snapshots: &[],
        },
        &[],
        false,
    ),
];

// A walk with the one composite g, over these snapshots.
fn walk(alloc: Global, asked: Asked) -> Result<Result<Walk, WalkError>, Fail> {
    let request = request_with(alloc, asked.sources, asked.size)?;
    let snapshots = snapshots_of(alloc, asked.snapshots)?;
    Ok(walk_over::<Brand>(alloc, asked, &request, &snapshots, Blank::new(1)))
}

// The request of a composite g, whose sources have these names.
fn request_with(
    alloc: Global,
    names: &[&'static str],
    size: u32,
) -> Result<Aggregations, OutOfMemory> {
    let mut sources = Vec::new(alloc);
    for name in names {
        let source = GivenSource::of("a", Kind::Terms, false);
        sources.push(GivenSource { name, ..source })?;
    }
    let composite = composite_of(alloc, &sources, size)?;
    request_of(alloc, "g", lone(alloc, composite))
}

/// Snapshots of these documents.
pub fn snapshots_of(alloc: Global, given: &[Documents]) -> Result<ItemList<Snapshot>, Fail> {
    let mut snapshots = ItemList::new(alloc);
    for &(page_size, segments) in given {
        snapshots.push(snapshot_of(alloc, page_size, segments)?)?;
    }
    Ok(snapshots)
}

fn snapshot_of(alloc: Global, page_size: u32, given: &[&[Values]]) -> Result<Snapshot, Fail> {
    let mut segments = ItemList::new(alloc);
    for documents in given {
        segments.push(segment_of(alloc, documents)?)?;
    }
    Ok(Snapshot {
        segments,
        page_size,
    })
}

fn walk_over<L: Ledger>(
    alloc: Global,
    asked: Asked,
    request: &Aggregations,
    snapshots: &ItemList<Snapshot>,
    blank: Blank,
) -> Result<Walk, WalkError>
    requires name { blank.name ≡ L.name }
    requires parts { blank.parts ≡ L.parts }
    requires shared { 0 < L.parts }
{
    let mut steps: Steps<L> = Steps::new(blank);
    let mut limits = LimitsLedger::new(None, asked.bucket_limit);
    let name = Text::copy_of(alloc, asked.name)?;
    let (schema, query) = (Schema::new(alloc), QueryTree::All);
    walk_pages(
        alloc,
        &mut limits,
        &schema,
        request,
        &name,
        &query,
        snapshots,
        &mut steps,
    )
}

// A walk has pages of these results.
fn expect_pages(walk: &Walk, pages: &[&str], ended: bool) -> Result<(), Fail> {
    let found = walk.pages.as_slice();
    expect_equal((found.len(), walk.ended), (pages.len(), ended))?;
    for (page, text) in found.iter().zip(pages) {
        expect_equal(page.write_json()?.as_str(), *text)?;
    }
    Ok(())
}

#[test]
fn gives_its_pages(rt: HostRuntime) -> Result<(), Fail> {
    for &(asked, pages, ended) in WALKS {
        expect_pages(&walk(rt.alloc(), asked)??, pages, ended)?;
    }
    Ok(())
}

const THREE_BUCKETS: &[Documents] = &[(3, &[&[ONE, TWO], &[THREE]])];

const NO_SNAPSHOT: &[Documents] = &[];

const ONE_SNAPSHOT: &[Documents] = &[ROOM_FOR_TWO];

const NO_ROOM_AT_LAST: &[Documents] = &[ROOM_FOR_TWO, (0, &[])];

// A document with this many values has 4^15 choices of one for each of fifteen sources.
const FOUR_VALUES: Values = &[
    ("a", Given::Signed(1)),
    ("a", Given::Signed(2)),
    ("a", Given::Signed(3)),
    ("a", Given::Signed(4)),
];

const FIFTEEN_SOURCES: &[&str] = &[
    "a", "b", "c", "d", "e", "f", "g", "h", "i", "j", "k", "l", "m", "n", "o",
];

// Each segment has 2^31 occurrences.
const TOO_MANY_TOGETHER: &[Documents] = &[(
    1,
    &[&[FOUR_VALUES, FOUR_VALUES], &[FOUR_VALUES, FOUR_VALUES]],
)];

// The composite's name, the names of its sources, and its size.
type Composite = (&'static str, &'static [&'static str], u32);

// No pages are given, for this reason, where a page may have two buckets.
fn expect_refusal(
    alloc: Global,
    (name, sources, size): Composite,
    snapshots: &'static [Documents],
    refusal: WalkError,
) -> Result<(), Fail> {
    let asked = Asked {
        name,
        sources,
        size,
        bucket_limit: Some(2),
        snapshots,
    };
    expect_equal(walk(alloc, asked)?.err(), Some(refusal))
}

// Why a walk has no pages.
#[derive(Clone, Copy)]
enum Refusal {
    ThirdBucket,
    UnknownComposite,
    ZeroSize,
    TooMany,
}

impl Refusal {
    fn error(self) -> WalkError {
        match self {
            Refusal::ThirdBucket => WalkError::Aggregation(AggregationError::BucketLimitExceeded {
                limit: 2,
                current: 3,
            }),
            Refusal::UnknownComposite => WalkError::UnknownComposite,
            Refusal::ZeroSize => WalkError::Invalid(InvalidArgument::ZeroSize),
            Refusal::TooMany => WalkError::TooMany,
        }
    }
}

const REFUSALS: &[(Composite, &[Documents], Refusal)] = &[
    (("g", ONE_SOURCE, 3), THREE_BUCKETS, Refusal::ThirdBucket),
    (("h", ONE_SOURCE, 2), NO_SNAPSHOT, Refusal::UnknownComposite),
    (
        ("h", ONE_SOURCE, 2),
        ONE_SNAPSHOT,
        Refusal::UnknownComposite,
    ),
    (("g", ONE_SOURCE, 0), NO_SNAPSHOT, Refusal::ZeroSize),
    (("g", ONE_SOURCE, 2), NO_ROOM_AT_LAST, Refusal::ZeroSize),
    (
        ("g", FIFTEEN_SOURCES, 1),
        TOO_MANY_TOGETHER,
        Refusal::TooMany,
    ),
];

#[test]
fn says_why_there_are_no_pages(rt: HostRuntime) -> Result<(), Fail> {
    for &(asked, snapshots, refusal) in REFUSALS {
        expect_refusal(rt.alloc(), asked, snapshots, refusal.error())?;
    }
    Ok(())
}
