//! Tests of a page that is full, and of a second parent.
ghost use Rattle.std.specs.Prelude.{◌≡◌, ◌<◌, ◌∷◌, [], length};

use agg_cache::BucketId;
use agg_composite::buckets::{Bucket, BucketsByParent};
use agg_values::{DocId, Steps};
use arrayvec::ArrayVec;
use std::marker::Brand;
use std::process::Abort;
use std::sync::ledger::{Blank, Ledger};
use std::test::Fail;

type Tuple = ArrayVec<u64, 4>;

// A tuple of one key.
fn tuple_of(key: u64) -> Tuple
    ensures { result.items ≡ key ∷ [] }
{
    let mut tuple: Tuple = ArrayVec::new();
    tuple.push(key);
    tuple
}

// Visits a tuple of a document.
fn visit<L: Ledger>(
    buckets: &mut BucketsByParent<Tuple>,
    doc: DocId,
    key: u64,
    steps: &mut Steps<L>,
) -> Result<(), Fail> {
    buckets.begin_document(doc);
    buckets.visit(&tuple_of(key), steps)?;
    Ok(())
}

// A bucket's number of documents and id, after the one key of its tuple.
fn entry_of(tuple: &Tuple, bucket: &Bucket) -> (Option<u64>, u64, BucketId) {
    (tuple.as_slice().first().copied(), bucket.count, bucket.id)
}

// A parent has two buckets, of these keys, counts and ids.
fn expect_page(
    rt: &(impl Abort + AllocGlobal),
    buckets: &BucketsByParent<Tuple>,
    parent: BucketId,
    expected: [(u64, u64, BucketId); 2],
) -> Result<(), Fail> {
    let page = buckets.of_parent(parent)?;
    assert!(rt; buckets.num_buckets(parent) == 2);
    expect_buckets(rt, &page, expected)
}

// These are two buckets, of these keys, counts and ids.
fn expect_buckets(
    rt: &impl Abort,
    page: &[(Tuple, Bucket)],
    expected: [(u64, u64, BucketId); 2],
) -> Result<(), Fail> {
    assert!(rt; page.len() == 2);
    for (entry, (key, count, id)) in page.iter().zip(expected) {
        assert!(rt; entry_of(&entry.0, &entry.1) == (Some(key), count, id));
    }
    Ok(())
}

// Of three tuples the highest goes, and doesn't come back.
fn expect_lowest<L: Ledger>(
    rt: &(impl Abort + AllocGlobal),
    steps: &mut Steps<L>,
) -> Result<(), Fail> {
    let mut buckets: BucketsByParent<Tuple> = BucketsByParent::new(rt.alloc())?;
    buckets.expect(2);
    buckets.begin_parent(0, 2);
    visit(&mut buckets, 0, 5, steps)?;
    visit(&mut buckets, 0, 7, steps)?;
    visit(&mut buckets, 1, 6, steps)?;
    visit(&mut buckets, 2, 7, steps)?;
    visit(&mut buckets, 2, 5, steps)?;
    expect_page(rt, &buckets, 0, [(5, 2, 0), (6, 1, 2)])?;
    assert!(rt; buckets.pushes() == [(0, 0), (1, 0), (2, 1), (0, 2)].as_slice());
    assert!(rt; buckets.num_buckets(1) == 0 && buckets.total_num_buckets() == 2);
    Ok(())
}

// The buckets of another parent have ids of their own.
fn expect_parents<L: Ledger>(
    rt: &(impl Abort + AllocGlobal),
    steps: &mut Steps<L>,
) -> Result<(), Fail> {
    let mut buckets: BucketsByParent<Tuple> = BucketsByParent::new(rt.alloc())?;
    buckets.begin_parent(0, 2);
    visit(&mut buckets, 0, 5, steps)?;
    buckets.prepare(1)?;
    buckets.begin_parent(1, 2);
    visit(&mut buckets, 1, 6, steps)?;
    visit(&mut buckets, 2, 5, steps)?;
    expect_page(rt, &buckets, 1, [(5, 1, 2), (6, 1, 1)])?;
    assert!(rt; buckets.num_buckets(0) == 1 && buckets.num_buckets(2) == 0);
    assert!(rt; buckets.total_num_buckets() == 3);
    assert!(rt; buckets.pushes() == [(1, 1), (2, 2)].as_slice());
    buckets.begin_parent(1, 2);
    assert!(rt; buckets.pushes().is_empty());
    let page: Vec<(Tuple, Bucket)> = buckets.into_parent(1)?.collect(rt.alloc())?;
    expect_buckets(rt, &page, [(5, 1, 2), (6, 1, 1)])
}

fn expect_over<L: Ledger>(rt: &(impl Abort + AllocGlobal), blank: Blank) -> Result<(), Fail>
    requires name { blank.name ≡ L.name }
    requires parts { blank.parts ≡ L.parts }
    requires shared { 0 < L.parts }
{
    let mut steps: Steps<L> = Steps::new(blank);
    expect_lowest(rt, &mut steps)?;
    expect_parents(rt, &mut steps)
}

#[test]
fn evicts_for_good(rt: HostRuntime) -> Result<(), Fail> {
    expect_over::<Brand>(&rt, Blank::new(1))
}
