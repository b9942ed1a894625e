//! Pages over the groups of snapshots: reads a request and snapshots of documents, and writes one
//! page for each reached snapshot and whether the walk has ended. Or it generates an input from a
//! seed, and writes how many pages and buckets there are.
#![tactic(auto)]

ghost use Rattle.std.specs.Prelude.{◌≡◌, ◌⊎◌, ◌↔◌, IfOk, IfErr, drop, map, string_bytes};
ghost use Rattle.std.specs.IoError.{error_kind};
ghost use Rattle.std.specs.Vec.Iter.{into_iter_items};

use agg_pages::sink::{Sink, StdSink};
use agg_pages::source::{Source, StdSource};
use agg_pages::{AnyField, Status, run_uncounted};
use agg_request::NamedBuilder;
use agg_values::{OutOfMemory, Text};
use std::alloc::Global;
use std::env::{self, Args};
use std::io::{self, ErrorKind};
use std::process::ExitCode;
use std::rt::Env;

fn main(rt: HostRuntime) -> ExitCode {
    let alloc = rt.alloc();
    let words = match read_words(alloc, &rt) {
        Ok(words) => words,
        Err(status) => return ExitCode::from(status.code()),
    };
    let mut source = StdSource::new(rt.stdin());
    let mut sink = StdSink::new(rt.stdout());
    match run_program(alloc, &words, &mut source, &mut sink) {
        Ok(status) => ExitCode::from(status.code()),
        Err(_) => ExitCode::from(Status::OutOfMemory.code()),
    }
}

// The status of a run, with the builder that filters of a request may ask for.
fn run_program<R: Source, W: Sink>(
    alloc: Global,
    words: &[Text],
    source: &mut R,
    sink: &mut W,
) -> Result<Status, OutOfMemory> {
    let mut builders = Vec::new(alloc);
    builders.push(NamedBuilder {
        name: Text::copy_of(alloc, "any_field")?,
        builder: Box::new(alloc, AnyField)?,
    })?;
    Ok(run_uncounted(alloc, words, builders, source, sink))
}

// The arguments without the program's name, or the status where they cannot be read.
fn read_words(alloc: Global, rt: &(impl Env + AllocGlobal)) -> Result<Vec<Text>, Status>
    ensures { IfErr result (λ status. (status ≡ Status.Usage) ⊎ (status ≡ Status.OutOfMemory)) }
{
    let arguments = env::args(rt).map_err(status_of_arguments)?;
    Ok(words_of(alloc, arguments)?)
}

// The texts of the arguments after the first, which is the program's name.
fn words_of(alloc: Global, mut arguments: Args) -> Result<Vec<Text>, OutOfMemory>
    ensures { IfOk result
        (λ words. words.items ≡ map string_bytes (drop 1 (into_iter_items arguments))) }
{
    let mut words = Vec::new(alloc);
    arguments.next();
    for argument in arguments {
        words.push(Text::from_string(argument)?)?;
    }
    Ok(words)
}

// The status where the arguments cannot be read: memory was refused, or one is no text.
fn status_of_arguments(error: io::Error) -> Status
    ensures kinds { (result ≡ Status.Usage) ⊎ (result ≡ Status.OutOfMemory) }
    ensures memory { result ≡ Status.OutOfMemory ↔ (error_kind error ≡ ErrorKind.OutOfMemory) }
{
    match error.kind() {
        ErrorKind::OutOfMemory => Status::OutOfMemory,
        _ => Status::Usage,
    }
}
