//! Tests of counts over blocks of documents.
ghost use Rattle.agg_composite_tests.specs.segment_context.Context.{IsContextIn};

use crate::segment_context::uncut::given::{context_of, segment};
use agg_engine_tree::segment_context::PerRequestAggSegCtx;
use agg_engine_tree::uncut::{UncutCounts, are_starts_in_range, uncut_lengths};
use agg_expect::expect_equal;
use agg_request_tests::request_tree::given::{GivenSource, Kind, composite_of};
use agg_request_tree::CompositeAggregation;
use agg_segment::SegmentReader;
use agg_values::DocId;
use std::alloc::Global;
use std::process::Abort;
use std::test::Fail;

// Documents, and how many of them the composite, the count below it and the filter list.
type Block = (&'static [DocId], &'static [u64]);

const BLOCKS: &[Block] = &[
    (&[], &[0, 0, 0]),
    (&[0, 1, 2], &[3, 4, 2]),
    (&[1, 1], &[4, 4, 2]),
    (&[2], &[0, 0, 0]),
];

// The composite of the colours.
fn colours(alloc: Global) -> Result<CompositeAggregation, Fail> {
    Ok(composite_of(alloc, &[GivenSource::of("colour", Kind::Terms, false)], 2)?)
}

// Counts a block, and adds it to the sums.
fn count_block(
    rt: &(impl Abort + AllocGlobal),
    ctx: &PerRequestAggSegCtx<'_>,
    segment: &SegmentReader,
    block: Block,
    sums: &mut UncutCounts,
) -> Result<(), Fail>
    requires { IsContextIn segment.now ctx.now }
{
    let (docs, counts) = block;
    assert!(rt; docs.iter().all(|doc| *doc < segment.num_docs()));
    assert!(rt; are_starts_in_range(ctx, docs));
    let counted = uncut_lengths(rt.alloc(), ctx, segment, docs)?;
    expect_equal(counted.as_slice(), counts)?;
    sums.add(&counted);
    Ok(())
}

// The sums of all blocks.
fn sums_in(
    rt: &(impl Abort + AllocGlobal),
    ctx: &PerRequestAggSegCtx<'_>,
    segment: &SegmentReader,
) -> Result<UncutCounts, Fail>
    requires { IsContextIn segment.now ctx.now }
{
    let mut sums = UncutCounts::new(uncut_lengths(rt.alloc(), ctx, segment, &[])?);
    for block in BLOCKS {
        count_block(rt, ctx, segment, *block, &mut sums)?;
    }
    Ok(sums)
}

// These are the sums in a context.
fn expect_sums(
    rt: &(impl Abort + AllocGlobal),
    ctx: &PerRequestAggSegCtx<'_>,
    segment: &SegmentReader,
) -> Result<(), Fail>
    requires { IsContextIn segment.now ctx.now }
{
    let sums = sums_in(rt, ctx, segment)?;
    expect_equal(
        (sums.as_slice(), sums.is_too_many()),
        ([7, 8, 4].as_slice(), false),
    )
}

// So they are in that of a composite.
fn expect_sums_of(
    rt: &(impl Abort + AllocGlobal),
    segment: &SegmentReader,
    colours: &CompositeAggregation,
) -> Result<(), Fail> {
    let num_sources = colours.sources.as_slice().len();
    assert!(rt; 1 <= num_sources && num_sources <= 16 && colours.size != 0);
    let ctx = context_of(rt.alloc(), segment, colours)?;
    expect_sums(rt, &ctx, segment)
}

#[test]
fn counts_documents(rt: HostRuntime) -> Result<(), Fail> {
    let segment = segment(rt.alloc())?;
    let colours = colours(rt.alloc())?;
    expect_sums_of(&rt, &segment, &colours)
}
