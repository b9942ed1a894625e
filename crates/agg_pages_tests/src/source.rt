use crate::drip::Drip;
use agg_expect::expect_equal;
use agg_pages::source::{MemorySource, ReadAllError, SteadySource, read_all};
use std::test::Fail;

#[test]
fn reads_all_that_comes_slowly(rt: HostRuntime) -> Result<(), Fail> {
    let bytes = b"one at a time".to_vec(rt.alloc())?;
    let mut slow = Drip(SteadySource::new(bytes));
    let all = read_all(rt.alloc(), &mut slow)?;
    expect_equal(all.as_slice(), b"one at a time".as_slice())
}

#[test]
fn reads_all_that_comes_in_chunks(rt: HostRuntime) -> Result<(), Fail> {
    let mut large = SteadySource::new(vec![in rt.alloc(); 7; 20_000]?);
    expect_equal(read_all(rt.alloc(), &mut large)?.len(), 20_000)
}

#[test]
fn reads_nothing_of_what_breaks_off(rt: HostRuntime) -> Result<(), Fail> {
    let bytes = b"abcd".to_vec(rt.alloc())?;
    let mut broken = MemorySource::new(bytes, vec![in rt.alloc(); 2]?);
    let all = read_all(rt.alloc(), &mut broken);
    expect_equal(all.err(), Some(ReadAllError::ReadFault))
}
