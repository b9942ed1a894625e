//! Runs over texts, and the sources and sinks that they read and write.
use agg_expect::expect_equal;
use agg_pages::sink::{MemorySink, Sink, write_all};
use agg_pages::source::{MemorySource, Source, SteadySource};
use agg_pages::{AnyField, Status, run_uncounted};
use agg_request::NamedBuilder;
use agg_values::{OutOfMemory, Text};
use std::alloc::Global;
use std::test::Fail;

/// What the program answers to these words, with a builder for a value in any field.
pub fn run_words<R: Source, W: Sink>(
    alloc: Global,
    words: &[&str],
    source: &mut R,
    sink: &mut W,
) -> Result<Status, OutOfMemory> {
    let mut texts = Vec::new(alloc);
    for word in words {
        texts.push(Text::copy_of(alloc, word)?)?;
    }
    let mut builders = Vec::new(alloc);
    builders.push(NamedBuilder {
        name: Text::copy_of(alloc, "any_field")?,
        builder: Box::new(alloc, AnyField)?,
    })?;
    Ok(run_uncounted(alloc, &texts, builders, source, sink))
}

/// A source that gives the bytes of a text.
pub fn steady(alloc: Global, text: &str) -> Result<SteadySource, OutOfMemory> {
    Ok(SteadySource::new(text.as_bytes().to_vec(alloc)?))
}

/// A source that gives the bytes of a text, but for one read, which fails.
pub fn breaking(alloc: Global, text: &str, failing: u64) -> Result<MemorySource, Fail> {
    let bytes = text.as_bytes().to_vec(alloc)?;
    Ok(MemorySource::new(bytes, vec![in alloc; failing]?))
}

/// A sink that has room for so many bytes.
pub fn nearly_full(alloc: Global, room: usize) -> Result<MemorySink, Fail> {
    let mut sink = MemorySink::new(alloc, Vec::new(alloc))?;
    let filler = vec![in alloc; b'.'; MemorySink::ROOM.saturating_sub(room)]?;
    expect_equal(write_all(&mut sink, &filler), Ok(()))?;
    Ok(sink)
}
