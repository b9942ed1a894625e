use agg_expect::expect_equal;
use agg_streams::Failed;
use agg_streams::source::{MemorySource, Source};
use std::test::Fail;

#[test]
fn fails_at_the_second_read_alone(rt: HostRuntime) -> Result<(), Fail> {
    let bytes = b"abcd".to_vec(rt.alloc())?;
    let failing = vec![in rt.alloc(); 2]?;
    let mut source = MemorySource::new(bytes, failing);
    let mut buf = [0; 3];
    for read in [Ok(3), Err(Failed), Ok(1), Ok(0)] {
        expect_equal(source.read(&mut buf), read)?;
    }
    expect_equal(buf.as_slice(), b"dbc".as_slice())
}
