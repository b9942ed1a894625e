//! What is read of inputs: page sizes, and the segments of snapshots.
use agg_expect::expect_equal;
use agg_pages::input_text::{Input, InputError, read_input};
use agg_request::NamedBuilder;
use agg_segment::SegmentReader;
use std::alloc::Global;
use std::test::Fail;

const HEADER: &str = concat!(
    r#"{"request":{"byA":{"composite":{"sources":[{"a":{"terms":{"field":"A"}}}],"size":2}}},"#,
    r#""name":"byA","schema":["A"]}"#,
);

// What comes after the header in an input of two snapshots.
const TWO_SNAPSHOTS: &str = "\r\nsnapshot 2\n{\"A\":1,\"B\":[2,-3]}\n \t\n{}\nsnapshot 07\n";

// Lines of a snapshot, and the numbers of documents in its segments.
const SEGMENTS: &[(&str, &[u32])] = &[
    ("", &[]),
    ("segment", &[0]),
    ("{}\nsegment", &[1, 0]),
    ("segment\n{}\n{}\nsegment\nsegment\n{}", &[2, 0, 1]),
    ("{}\n{}\nsegment\n{}\n{}\n{}", &[2, 3]),
];

// The input of a text, for a program without builders.
fn read_text(alloc: Global, text: &str) -> Result<Input, InputError> {
    let builders: Vec<NamedBuilder> = Vec::new(alloc);
    read_input(alloc, builders, text.as_bytes())
}

// The numbers of documents in segments.
fn counts_of(alloc: Global, segments: &[SegmentReader]) -> Result<Vec<u32>, Fail> {
    let mut counts = Vec::new(alloc);
    for segment in segments {
        counts.push(segment.num_docs())?;
    }
    Ok(counts)
}

// The snapshots of an input have these page sizes, and segments of so many documents.
fn expect_snapshots(alloc: Global, input: &Input, expected: &[(u32, &[u32])]) -> Result<(), Fail> {
    let snapshots = input.snapshots.as_slice();
    expect_equal(snapshots.len(), expected.len())?;
    for (snapshot, &(page_size, counts)) in snapshots.iter().zip(expected) {
        let found = counts_of(alloc, snapshot.segments.as_slice())?;
        expect_equal((snapshot.page_size, found.as_slice()), (page_size, counts))?;
    }
    Ok(())
}

// An input has one aggregation, one field and these two snapshots.
fn expect_two_snapshots(alloc: Global, input: &Input) -> Result<(), Fail> {
    let header = &input.header;
    expect_equal((header.request.len(), header.schema.fields().len()), (1, 1))?;
    expect_snapshots(alloc, input, &[(2, &[2]), (7, &[])])
}

#[test]
fn reads(rt: HostRuntime) -> Result<(), Fail> {
    let text = format!(in rt.alloc(); "\n{HEADER}{TWO_SNAPSHOTS}")?;
    expect_two_snapshots(rt.alloc(), &read_text(rt.alloc(), &text)?)
}

// A text is an input of one snapshot, whose segments have so many documents.
fn expect_counts(alloc: Global, text: &str, counts: &[u32]) -> Result<(), Fail> {
    expect_snapshots(alloc, &read_text(alloc, text)?, &[(1, counts)])
}

#[test]
fn reads_segments(rt: HostRuntime) -> Result<(), Fail> {
    for &(lines, counts) in SEGMENTS {
        let text = format!(in rt.alloc(); "{HEADER}\nsnapshot 1\n{lines}")?;
        expect_counts(rt.alloc(), &text, counts)?;
    }
    Ok(())
}
