//! Tests of lists of tuples that are counted.
use agg_composite::tuple_counts::TupleCounts;
use agg_expect::expect_equal;
use std::test::Fail;

#[test]
fn counts_tuples_that_come_again(rt: HostRuntime) -> Result<(), Fail> {
    let mut counts: TupleCounts<u64> = TupleCounts::new(rt.alloc(), 0);
    for n in 0..10_000 {
        counts.count(9_999 - n)?;
        counts.count(n % 10)?;
    }
    let mut ascending = counts.into_ascending(9_999)?;
    expect_equal(
        (ascending.len(), ascending.next()),
        (9_999, Some((0, 1_001))),
    )?;
    expect_equal(ascending.last(), Some((9_998, 1)))
}
