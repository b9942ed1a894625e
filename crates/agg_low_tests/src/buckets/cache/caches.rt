use agg_cache::{Batch, BucketId, HighCardSubAggCache, LowCardSubAggCache, SubAggCache};
use agg_expect::expect_equal;
use agg_values::{DocId, OutOfMemory};
use std::alloc::Global;
use std::test::Fail;

// A bucket and its documents.
type Documents = (BucketId, &'static [DocId]);

// Pushes of a document of a bucket, and the batches that each cache gives.
#[derive(Clone, Copy)]
struct Taken {
    pushes: &'static [(BucketId, DocId)],
    low: &'static [Documents],
    high: &'static [Documents],
}

const TAKEN: &[Taken] = &[
    Taken {
        pushes: &[],
        low: &[],
        high: &[],
    },
    Taken {
        pushes: &[(0, 5), (17, 6), (0, 7)],
        low: &[(0, &[5, 7]), (17, &[6])],
        high: &[(0, &[5, 7]), (17, &[6])],
    },
    // The buckets 0 and 16 share a partition.
    Taken {
        pushes: &[(16, 1), (1, 2), (0, 3), (16, 4), (0, 4)],
        low: &[(0, &[3, 4]), (1, &[2]), (16, &[1, 4])],
        high: &[(0, &[3, 4]), (16, &[1, 4]), (1, &[2])],
    },
];

fn pushed<C: SubAggCache>(alloc: Global, pushes: &[(BucketId, DocId)]) -> Result<C, OutOfMemory> {
    let mut cache = C::new(alloc);
    for &(bucket_id, doc_id) in pushes {
        cache.push(bucket_id, doc_id)?;
    }
    Ok(cache)
}

// The batches are of these buckets, with these documents.
fn expect_batches(batches: &[Batch], expected: &[Documents]) -> Result<(), Fail> {
    expect_equal(batches.len(), expected.len())?;
    for (batch, &documents) in batches.iter().zip(expected) {
        expect_equal((batch.bucket_id, batch.docs.as_slice()), documents)?;
    }
    Ok(())
}

// A cache gives these batches of the pushes, and then none.
fn expect_taken<C: SubAggCache>(
    alloc: Global,
    pushes: &[(BucketId, DocId)],
    expected: &[Documents],
) -> Result<(), Fail> {
    let mut cache: C = pushed(alloc, pushes)?;
    expect_batches(cache.take_batches()?.as_slice(), expected)?;
    expect_batches(cache.take_batches()?.as_slice(), &[])
}

#[test]
fn give_the_documents_of_each_bucket(rt: HostRuntime) -> Result<(), Fail> {
    for &Taken { pushes, low, high } in TAKEN {
        expect_taken::<LowCardSubAggCache>(rt.alloc(), pushes, low)?;
        expect_taken::<HighCardSubAggCache>(rt.alloc(), pushes, high)?;
    }
    Ok(())
}
