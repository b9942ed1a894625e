use agg_cache::LowCardCachedSubAggs;
use agg_expect::expect_equal;
use agg_values::OutOfMemory;
use std::alloc::Global;
use std::test::Fail;

// How many documents are pushed, and whether they are then due.
const DUE: &[(u32, bool)] = &[(0, false), (2_047, false), (2_048, true)];

fn pushed(alloc: Global, docs: u32) -> Result<LowCardCachedSubAggs, OutOfMemory> {
    let mut cached = LowCardCachedSubAggs::new(alloc);
    for doc_id in 0..docs {
        cached.push(1, doc_id)?;
    }
    Ok(cached)
}

#[test]
fn is_due_after_enough_pushes(rt: HostRuntime) -> Result<(), Fail> {
    for &(docs, due) in DUE {
        expect_equal(pushed(rt.alloc(), docs)?.due(), due)?;
    }
    Ok(())
}

#[test]
fn a_take_leaves_nothing(rt: HostRuntime) -> Result<(), Fail> {
    let mut cached = pushed(rt.alloc(), 2_048)?;
    let batches = cached.take()?.as_slice().len();
    let more = cached.take()?.as_slice().len();
    expect_equal((batches, cached.due(), more), (1, false, 0))
}
