use agg_cache::CollectError;
use agg_expect::expect_equal;
use agg_values::{AggregationError, OutOfMemory, TooMany};
use std::alloc::Global;
use std::test::Fail;

// Each error tells its text.
fn expect_texts(alloc: Global, cases: &[(CollectError, &str)]) -> Result<(), Fail> {
    for (error, text) in cases {
        expect_equal(error.to_string(alloc)?.as_str(), *text)?;
    }
    Ok(())
}

#[test]
fn tells_why_documents_are_refused(rt: HostRuntime) -> Result<(), Fail> {
    let limited = AggregationError::BucketLimitExceeded {
        limit: 1,
        current: 2,
    };
    let cases = [
        (
            CollectError::BucketOutOfRange,
            "a bucket starts outside 64 bits",
        ),
        (CollectError::from(TooMany), "too many occurrences"),
        (
            CollectError::from(limited),
            "bucket limit exceeded: 1 buckets allowed, 2 made",
        ),
        (
            CollectError::CollectorFailed,
            "the collector has failed before",
        ),
        (CollectError::from(OutOfMemory), "out of memory"),
    ];
    expect_texts(rt.alloc(), &cases)
}
