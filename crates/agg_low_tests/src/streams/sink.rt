use agg_expect::expect_equal;
use agg_streams::Failed;
use agg_streams::sink::{MemorySink, Sink, write_all};
use std::test::Fail;

#[test]
fn fails_at_the_first_write_alone(rt: HostRuntime) -> Result<(), Fail> {
    let failing = vec![in rt.alloc(); 1]?;
    let mut sink = MemorySink::new(rt.alloc(), failing)?;
    let answers = (write_all(&mut sink, b"lost"), write_all(&mut sink, b"kept"));
    expect_equal(
        (answers, sink.bytes()),
        ((Err(Failed), Ok(())), b"kept".as_slice()),
    )
}

#[test]
fn a_full_sink_takes_no_byte(rt: HostRuntime) -> Result<(), Fail> {
    let mut sink = MemorySink::new(rt.alloc(), Vec::new(rt.alloc()))?;
    let most = vec![in rt.alloc(); 7; MemorySink::ROOM - 1]?;
    let filled = write_all(&mut sink, &most);
    let answers = [sink.write(b"ab"), sink.write(b"b"), sink.write(b"")];
    let end = (sink.bytes().len(), sink.bytes().last());
    expect_equal((filled, answers), (Ok(()), [Ok(1), Err(Failed), Ok(0)]))?;
    expect_equal(end, (MemorySink::ROOM, Some(&b'a')))
}
