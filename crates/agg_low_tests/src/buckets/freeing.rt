//! Tests of lists that give their memory back.
use agg_expect::expect_equal;
use agg_values::freeing::FreeingIter;
use std::test::Fail;

#[test]
fn items_come_in_their_order(rt: HostRuntime) -> Result<(), Fail> {
    let alloc = rt.alloc();
    let items: Vec<u32> = (0..5_000).collect(alloc)?;
    let mut rest = FreeingIter::new(items);
    expect_equal((rest.next(), rest.next()), (Some(0), Some(1)))?;
    let left: Vec<u32> = rest.collect(alloc)?;
    expect_equal((left.first(), left.last()), (Some(&2), Some(&4_999)))?;
    expect_equal(left.len(), 4_998)
}
