use agg_cache::MemoryConsumption;
use agg_expect::expect_equal;
use std::collections::HashMap;
use std::test::Fail;

#[test]
fn an_entry_of_a_map_takes_64_bytes(rt: HostRuntime) -> Result<(), Fail> {
    let mut map: HashMap<u64, &str> = HashMap::new(rt.alloc());
    expect_equal(map.memory_consumption(), 0)?;
    for (key, value) in [(7, "a"), (5, "b"), (9, "a")] {
        map.insert(key, value)?;
    }
    expect_equal(map.memory_consumption(), 192)
}
