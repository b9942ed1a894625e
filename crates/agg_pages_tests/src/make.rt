//! Runs over generated inputs, where a source or a sink fails.
use crate::given::{breaking, nearly_full, run_words, steady};
use agg_expect::expect_equal;
use agg_pages::sink::{MemorySink, Sink};
use agg_pages::source::Source;
use agg_pages::{Failed, Status};
use std::test::Fail;

// The summary of the walk of seed 7, which another program counted.
const SEVEN: &str = "{\"buckets\":1018,\"ended\":true,\"pages\":11}\n";

#[test]
fn reads_nothing_where_the_first_read_would_fail(rt: HostRuntime) -> Result<(), Fail> {
    let alloc = rt.alloc();
    let mut source = breaking(alloc, "{}", 1)?;
    let mut sink = MemorySink::new(alloc, Vec::new(alloc))?;
    let status = run_words(alloc, &["make", "7"], &mut source, &mut sink)?;
    expect_equal(
        (status, sink.bytes(), source.read(&mut [0])),
        (Status::Ok, SEVEN.as_bytes(), Err(Failed)),
    )
}

#[test]
fn fills_a_sink_with_a_summary(rt: HostRuntime) -> Result<(), Fail> {
    let alloc = rt.alloc();
    let mut sink = nearly_full(rt.alloc(), 10)?;
    let status = run_words(alloc, &["make", "7"], &mut steady(alloc, "{}")?, &mut sink)?;
    let found = (sink.bytes().len(), sink.bytes().ends_with(b".{\"buckets\""));
    expect_equal(
        (status, found),
        (Status::WriteFault, (MemorySink::ROOM, true)),
    )
}
