//! The documents of generated inputs.
use agg_expect::{expect_equal, expect_equal_for};
use agg_pages::generator::generated_input;
use agg_pages::input_text::Input;
use agg_segment::{SegmentReader, Snapshot};
use agg_values::{AfterKey, CompositeIntermediateKey, Text};
use std::alloc::Global;
use std::collections::BTreeSet;
use std::test::Fail;

// The snapshots of a seed.
fn snapshots_of(alloc: Global, seed: u64) -> Result<Vec<Snapshot>, Fail> {
    let input: Input = generated_input(alloc, seed)?;
    Ok(input.snapshots.into_vec())
}

// The first key of a field of a document, if it has one.
fn key_of(
    alloc: Global,
    segment: &SegmentReader,
    field: &str,
    doc: u32,
) -> Result<Option<CompositeIntermediateKey>, Fail> {
    let field = Text::copy_of(alloc, field)?;
    for column in segment.columns(&field) {
        for number in column.values_for_doc(doc) {
            return Ok(Some(column.decode(alloc, *number)?));
        }
    }
    Ok(None)
}

// Appends the first key of a field of a document to a text, and a space.
fn show_key(
    alloc: Global,
    shown: &mut String,
    segment: &SegmentReader,
    field: &str,
    doc: u32,
) -> Result<(), Fail> {
    if let Some(key) = key_of(alloc, segment, field, doc)? {
        shown.push_str(AfterKey::from(key).write(alloc)?.as_str())?;
    }
    shown.push(' ')?;
    Ok(())
}

// The number and the text of a document as one text.
fn pair_of(alloc: Global, segment: &SegmentReader, doc: u32) -> Result<String, Fail> {
    let mut pair = String::new(alloc);
    show_key(alloc, &mut pair, segment, "a", doc)?;
    show_key(alloc, &mut pair, segment, "b", doc)?;
    Ok(pair)
}

// Adds the pairs of a segment's documents.
fn add_pairs(
    alloc: Global,
    pairs: &mut BTreeSet<String>,
    segment: &SegmentReader,
) -> Result<(), Fail> {
    for doc in 0..segment.num_docs() {
        pairs.insert(pair_of(alloc, segment, doc)?)?;
    }
    Ok(())
}

// How many groups the documents of segments make.
fn count_pairs(alloc: Global, segments: &[SegmentReader]) -> Result<usize, Fail> {
    let mut pairs = BTreeSet::new(alloc);
    for segment in segments {
        add_pairs(alloc, &mut pairs, segment)?;
    }
    Ok(pairs.len())
}

// Each of twelve snapshots has four segments.
fn expect_four_segments(snapshots: &[Snapshot]) -> Result<(), Fail> {
    expect_equal(snapshots.len(), 12)?;
    for snapshot in snapshots {
        let segments = snapshot.segments.as_slice();
        expect_equal((snapshot.page_size, segments.len()), (100, 4))?;
        for segment in segments {
            expect_equal(segment.num_docs(), 1_024)?;
        }
    }
    Ok(())
}

#[test]
fn twelve_snapshots_have_four_segments(rt: HostRuntime) -> Result<(), Fail> {
    expect_four_segments(&snapshots_of(rt.alloc(), 7)?)?;
    Ok(())
}

// The first key of a field of a document is this one.
fn expect_key(
    alloc: Global,
    segment: &SegmentReader,
    field: &str,
    doc: u32,
    expected: &CompositeIntermediateKey,
) -> Result<(), Fail> {
    let found = key_of(alloc, segment, field, doc)?;
    expect_equal(found.as_ref(), Some(expected))
}

// A document has a number, a text and a date, which are these.
fn expect_drawn(
    alloc: Global,
    segment: &SegmentReader,
    doc: u32,
    (number, text, date): (i64, &str, i64),
) -> Result<(), Fail> {
    let text = CompositeIntermediateKey::Str(Text::copy_of(alloc, text)?);
    expect_key(alloc, segment, "b", doc, &text)?;
    let number = CompositeIntermediateKey::I64(number);
    expect_key(alloc, segment, "a", doc, &number)?;
    let date = CompositeIntermediateKey::DateTime(date);
    expect_key(alloc, segment, "d", doc, &date)
}

// The first document of snapshots and the last one are as they are drawn.
fn expect_ends(alloc: Global, snapshots: &[Snapshot]) -> Result<(), Fail> {
    for snapshot in snapshots {
        let segments = snapshot.segments.as_slice();
        let first = segments.first().ok_or("a segment")?;
        let last = segments.last().ok_or("a segment")?;
        expect_drawn(alloc, first, 0, (28, "t11", 65_059_200_000_000_000))?;
        expect_drawn(alloc, last, 1_023, (48, "t17", 51_494_400_000_000_000))?;
    }
    Ok(())
}

#[test]
fn documents_are_as_they_are_drawn(rt: HostRuntime) -> Result<(), Fail> {
    expect_ends(rt.alloc(), &snapshots_of(rt.alloc(), 7)?)
}

// Each of the snapshots of a seed has so many groups.
fn expect_groups(
    alloc: Global,
    snapshots: &[Snapshot],
    seed: u64,
    groups: usize,
) -> Result<(), Fail> {
    for snapshot in snapshots {
        let found = count_pairs(alloc, snapshot.segments.as_slice())?;
        expect_equal_for(seed, found, groups)?;
    }
    Ok(())
}

#[test]
fn seeds_have_their_groups(rt: HostRuntime) -> Result<(), Fail> {
    for (seed, groups) in [(0, 1_017), (7, 1_018)] {
        expect_groups(rt.alloc(), &snapshots_of(rt.alloc(), seed)?, seed, groups)?;
    }
    Ok(())
}
