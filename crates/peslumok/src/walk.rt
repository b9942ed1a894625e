//! `walk`: what `agg_pages walk` does, with each refusal in words.
ghost use Rattle.std.specs.Prelude.{◌≡◌, ◌<◌};

use crate::files::{read_file, shown_name};
use crate::output::Output;
use crate::progress::Progress;
use crate::stop::Stop;
use agg_cache::LimitsLedger;
use agg_check::refusals::write_refusal;
use agg_engine::{Walk, WalkError, walk_pages};
use agg_pages::input_text::{Input as WalkInput, read_input};
use agg_pages::source::StdSource;
use agg_pages::{AnyField, Status, run_uncounted};
use agg_request::NamedBuilder;
use agg_streams::sink::{Sink, StdSink};
use agg_values::{OutOfMemory, Steps, Text};
use peslumok_front::front::Failure;
use std::alloc::Global;
use std::marker::Brand;
use std::sync::ledger::{Blank, Ledger};

/// Writes to standard output the pages of the input in a file, or in standard input where no file
/// is given. The error tells why there are none, or no more.
pub fn walk_file(
    rt: &HostRuntime,
    file: Option<&str>,
    progress: &mut Progress<'_, HostRuntime>,
) -> Result<(), Stop> {
    let name = file.unwrap_or("-");
    let bytes = read_file(rt, name, progress)?;
    progress.begin("walked");
    let mut output = Output::new(rt.stdout(), progress);
    let status = status_of(rt.alloc(), bytes.as_slice(), &mut StdSink::new(&mut output))?;
    if status == Status::WriteFault && output.is_closed() {
        return Err(Stop::Closed);
    }
    end_of(rt.alloc(), name, status, bytes.as_slice())
}

// The status of a run over bytes, with the builder that filters of a request may ask for.
fn status_of<W: Sink>(alloc: Global, bytes: &[u8], sink: &mut W) -> Result<Status, OutOfMemory> {
    let words = [Text::copy_of(alloc, "walk")?];
    let mut builders = Vec::new(alloc);
    builders.push(NamedBuilder {
        name: Text::copy_of(alloc, "any_field")?,
        builder: Box::new(alloc, AnyField)?,
    })?;
    let mut source = StdSource::new(bytes);
    Ok(run_uncounted(alloc, &words, builders, &mut source, sink))
}

// How a run with this status ends.
fn end_of(alloc: Global, name: &str, status: Status, bytes: &[u8]) -> Result<(), Stop> {
    let file = Text::copy_of(alloc, shown_name(name))?;
    match status {
        Status::Ok => Ok(()),
        Status::Refused => Err(Stop::Refused {
            file,
            why: refusal_of(alloc, bytes)?,
        }),
        Status::Input | Status::Usage => Err(Stop::NoInput(file)),
        Status::ReadFault => Err(Stop::Failed(Failure::Unreadable(file))),
        Status::WriteFault => Err(Stop::Failed(Failure::Unwritten)),
        Status::OutOfMemory => Err(Stop::Failed(Failure::OutOfMemory)),
    }
}

// The words of the refusal of an input.
fn refusal_of(alloc: Global, bytes: &[u8]) -> Result<Text, OutOfMemory> {
    let mut words = String::new(alloc);
    let mut builders = Vec::new(alloc);
    builders.push(NamedBuilder {
        name: Text::copy_of(alloc, "any_field")?,
        builder: Box::new(alloc, AnyField)?,
    })?;
    if let Ok(input) = read_input(alloc, builders, bytes) {
        if let Err(error) = walk_of::<Brand>(alloc, &input, Blank::new(1)) {
            let header = &input.header;
            write_refusal(alloc, &mut words, &header.request, &header.name, &error)?;
        }
    }
    Text::from_string(words)
}

// The walk over an input; a blank makes the counter of steps, which nobody reads.
fn walk_of<L: Ledger>(alloc: Global, input: &WalkInput, blank: Blank) -> Result<Walk, WalkError>
    requires name { blank.name ≡ L.name }
    requires parts { blank.parts ≡ L.parts }
    requires shared { 0 < L.parts }
{
    let mut steps: Steps<L> = Steps::new(blank);
    let header = &input.header;
    let mut limits = LimitsLedger::new(header.memory_limit, header.bucket_limit);
    walk_pages(
        alloc,
        &mut limits,
        &header.schema,
        &header.request,
        &header.name,
        &header.query,
        &input.snapshots,
        &mut steps,
    )
}
