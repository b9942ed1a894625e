//! Walks under limits of memory.
ghost use Rattle.std.specs.Prelude.{◌≡◌, ◌<◌};

use crate::walk::{Documents, Values, snapshots_of};
use agg_cache::LimitsLedger;
use agg_engine::{Snapshot, Walk, WalkError, walk_pages};
use agg_expect::expect_equal_for;
use agg_low_tests::segment::given::Given;
use agg_request_tests::request_tree::given::{GivenSource, Kind, composite_of, lone, request_of};
use agg_request_tree::{Aggregations, CompositeAggregation};
use agg_segment::{QueryTree, Schema};
use agg_values::{AggregationError, ItemList, OutOfMemory, Steps, Text};
use std::alloc::Global;
use std::marker::Brand;
use std::sync::ledger::{Blank, Ledger};
use std::test::Fail;

// A composite g over the field a, and perhaps one below it.
#[derive(Clone, Copy)]
enum Request {
    Alone,
    // The one below it is over the field b, and has room for one group.
    Above,
}

const SIX: &[Values] = &[
    &[("a", Given::Signed(1))],
    &[("a", Given::Signed(2))],
    &[("a", Given::Signed(3))],
    &[("a", Given::Signed(4))],
    &[("a", Given::Signed(5))],
    &[("a", Given::Signed(6))],
];

const INNER: &[Values] = &[
    &[("a", Given::Signed(1)), ("b", Given::Signed(1))],
    &[("a", Given::Signed(1)), ("b", Given::Signed(2))],
    &[("a", Given::Signed(1)), ("b", Given::Signed(3))],
];

const ROOM_FOR_FIVE: &[Documents] = &[(5, &[SIX])];

const ROOM_FOR_TEN: &[Documents] = &[(10, &[SIX])];

// Each segment takes as much as one.
const THREE_SEGMENTS: &[Documents] = &[(10, &[SIX, SIX, SIX]), (10, &[SIX])];

const INNER_GROUPS: &[Documents] = &[(10, &[INNER])];

// What is asked, the limit, the snapshots, and how many bytes more are refused, if any are.
const WALKS: &[(Request, u64, &[Documents], Option<u64>)] = &[
    (Request::Alone, 1000, ROOM_FOR_FIVE, None),
    (Request::Alone, 1000, ROOM_FOR_TEN, Some(1088)),
    (Request::Alone, 1088, ROOM_FOR_TEN, None),
    (Request::Alone, 511, ROOM_FOR_TEN, Some(512)),
    (Request::Alone, 0, &[], None),
    (Request::Alone, 1088, THREE_SEGMENTS, None),
    (Request::Alone, 1087, THREE_SEGMENTS, Some(1088)),
    (Request::Above, 1216, INNER_GROUPS, None),
    (Request::Above, 1215, INNER_GROUPS, Some(1216)),
    (Request::Above, u64::MAX, INNER_GROUPS, None),
];

// A composite over a field, which has room for so many groups.
fn composite_over(
    alloc: Global,
    field: &'static str,
    size: u32,
) -> Result<CompositeAggregation, OutOfMemory> {
    composite_of(alloc, &[GivenSource::of(field, Kind::Terms, false)], size)
}

// Adds the composite h over the field b.
fn add_inner(alloc: Global, below: &mut Aggregations) -> Result<(), OutOfMemory> {
    let name = Text::copy_of(alloc, "h")?;
    below.insert(name, lone(alloc, composite_over(alloc, "b", 1)?))?;
    Ok(())
}

fn request_for(alloc: Global, asked: Request) -> Result<Aggregations, OutOfMemory> {
    let mut composite = lone(alloc, composite_over(alloc, "a", 10)?);
    if let Request::Above = asked {
        add_inner(alloc, &mut composite.sub_aggregation)?;
    }
    request_of(alloc, "g", composite)
}

// The walk over snapshots under a limit, which a blank makes the counter of steps for.
fn walk_under<L: Ledger>(
    alloc: Global,
    memory_limit: u64,
    request: &Aggregations,
    snapshots: &ItemList<Snapshot>,
    blank: Blank,
) -> Result<Walk, WalkError>
    requires name { blank.name ≡ L.name }
    requires parts { blank.parts ≡ L.parts }
    requires shared { 0 < L.parts }
{
    let mut steps: Steps<L> = Steps::new(blank);
    let mut limits = LimitsLedger::new(Some(memory_limit), None);
    let name = Text::copy_of(alloc, "g")?;
    let (schema, query) = (Schema::new(alloc), QueryTree::All);
    walk_pages(
        alloc,
        &mut limits,
        &schema,
        request,
        &name,
        &query,
        snapshots,
        &mut steps,
    )
}

// A walk under a limit is refused so many bytes, or none.
fn expect_refused(
    alloc: Global,
    (asked, limit): (Request, u64),
    snapshots: &[Documents],
    refused: Option<u64>,
) -> Result<(), Fail> {
    let request = request_for(alloc, asked)?;
    let snapshots = snapshots_of(alloc, snapshots)?;
    let walk = walk_under::<Brand>(alloc, limit, &request, &snapshots, Blank::new(1));
    let expected = refused.map(|current| {
        WalkError::Aggregation(AggregationError::MemoryExceeded { limit, current })
    });
    expect_equal_for(limit, walk.err(), expected)
}

#[test]
fn refuses_what_takes_more_memory_than_the_limit(rt: HostRuntime) -> Result<(), Fail> {
    for &(asked, limit, snapshots, refused) in WALKS {
        expect_refused(rt.alloc(), (asked, limit), snapshots, refused)?;
    }
    Ok(())
}
