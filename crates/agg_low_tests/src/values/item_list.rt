use agg_expect::expect_equal;
use agg_values::ItemList;
use std::test::Fail;

#[test]
fn lists_its_items(rt: HostRuntime) -> Result<(), Fail> {
    let mut list = ItemList::new(rt.alloc());
    for item in [3, 1, 2] {
        list.push(item)?;
    }
    let mut others = ItemList::from_vec(Vec::new(list.allocator()));
    others.push(4)?;
    let items = list.into_vec();
    let found = (items.as_slice(), others.as_slice());
    expect_equal(found, ([3, 1, 2].as_slice(), [4].as_slice()))
}
