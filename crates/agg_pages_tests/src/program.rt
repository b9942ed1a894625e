//! Runs over sources and sinks that fail, or that give and take a few bytes at a time.
ghost use Rattle.std.specs.Prelude.{Some};

use crate::drip::Drip;
use crate::given::{breaking, nearly_full, run_words, steady};
use agg_expect::{expect_equal, expect_equal_for};
use agg_pages::sink::{MemorySink, Sink};
use agg_pages::source::Source;
use agg_pages::{Failed, Status};
use std::alloc::Global;
use std::test::Fail;

// An input whose document has a value twice, and its page.
const TWICE: &str = concat!(
    r#"{"request":{"g":{"composite":{"sources":[{"a":{"terms":{"field":"a"}}}],"size":10}}},"#,
    r#""name":"g","schema":["a","b"]}"#,
    "\nsnapshot 10\n{\"a\":[5,5]}\n",
);

const PAGE: &str = r#"{"page":1,"results":{"g":{"buckets":[{"doc_count":2,"key":{"a":5}}]}}}
{"ended":true}
"#;

// A sink that takes a few bytes at a time.
#[derive(Drop)]
struct Sip(MemorySink);

impl Sink for Sip {
    ghost contents = { λ sink. Some sink.0.bytes };

    ghost faults = { λ sink. sink.0.calls.faults };

    fn write(&mut self, bytes: &[u8]) -> Result<usize, Failed> {
        self.0.write(&bytes[..bytes.len().min(16)])
    }
}

// A run over a source has this status and writes nothing.
fn expect_nothing<R: Source>(alloc: Global, source: &mut R, status: Status) -> Result<(), Fail> {
    let mut sink = MemorySink::new(alloc, Vec::new(alloc))?;
    let answer = run_words(alloc, &["walk"], source, &mut sink)?;
    expect_equal((answer, sink.bytes().len()), (status, 0))
}

#[test]
fn writes_nothing_where_no_input_was_read(rt: HostRuntime) -> Result<(), Fail> {
    for (text, failing, status) in [
        (TWICE, 1, Status::ReadFault),
        (TWICE, 2, Status::ReadFault),
        ("{\"request\":{\"g\"", 3, Status::Input),
    ] {
        expect_nothing(
            rt.alloc(),
            &mut breaking(rt.alloc(), text, failing)?,
            status,
        )?;
    }
    Ok(())
}

// A call of a sink that takes a few bytes at a time, the status of a run where it fails, and what
// was taken before.
const TAKEN: &[(u64, Status, &str)] = &[
    (1, Status::WriteFault, ""),
    (
        3,
        Status::WriteFault,
        "{\"page\":1,\"results\":{\"g\":{\"bucke",
    ),
    (100, Status::Ok, PAGE),
];

// A run holds what was taken before one write failed.
fn expect_taken(alloc: Global, call: u64, status: Status, taken: &str) -> Result<(), Fail> {
    let mut source = Drip(steady(alloc, TWICE)?);
    let mut sink = Sip(MemorySink::new(alloc, vec![in alloc; call]?)?);
    let answer = run_words(alloc, &["walk"], &mut source, &mut sink)?;
    expect_equal_for(call, (answer, sink.0.bytes()), (status, taken.as_bytes()))
}

#[test]
fn holds_what_was_taken_before_a_write_failed(rt: HostRuntime) -> Result<(), Fail> {
    for &(call, status, taken) in TAKEN {
        expect_taken(rt.alloc(), call, status, taken)?;
    }
    Ok(())
}

// A run fills a sink, whose last bytes are these.
fn expect_full(alloc: Global, sink: &mut MemorySink, last: &str) -> Result<(), Fail> {
    let answer = run_words(alloc, &["walk"], &mut steady(alloc, TWICE)?, sink)?;
    let found = (sink.bytes().len(), sink.bytes().ends_with(last.as_bytes()));
    expect_equal(
        (answer, found),
        (Status::WriteFault, (MemorySink::ROOM, true)),
    )
}

#[test]
fn fills_a_sink_to_its_last_byte(rt: HostRuntime) -> Result<(), Fail> {
    for (room, last) in [(0, ""), (5, "{\"pag")] {
        expect_full(rt.alloc(), &mut nearly_full(rt.alloc(), room)?, last)?;
    }
    Ok(())
}

// Runs arguments that are no command, where the first read and the first write would fail.
fn expect_usage(alloc: Global, words: &[&str]) -> Result<(), Fail> {
    let mut source = breaking(alloc, TWICE, 1)?;
    let mut sink = MemorySink::new(alloc, vec![in alloc; 1]?)?;
    let status = run_words(alloc, words, &mut source, &mut sink)?;

    // Those calls are still to come.
    let left = (source.read(&mut [0]), sink.write(b"."));
    expect_equal((status, left), (Status::Usage, (Err(Failed), Err(Failed))))
}

// Arguments that are no command.
const NO_COMMANDS: &[&[&str]] = &[
    &[],
    &["walk", "x"],
    &["make", "1x"],
    &["make", "7", "8"],
    &["7"],
];

#[test]
fn touches_nothing_where_the_arguments_are_no_command(rt: HostRuntime) -> Result<(), Fail> {
    for words in NO_COMMANDS {
        expect_usage(rt.alloc(), words)?;
    }
    Ok(())
}
