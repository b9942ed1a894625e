//! The program as a function of its arguments, its source and its sink.

ghost use Rattle.std.specs.Prelude.{◌≡◌, ◌≢◌, ◌<◌, ◌+◌, ◌⊎◌, Err, IfOk, IfErr, string_bytes};
ghost use Rattle.agg_pages.specs.Answer.{IsNeverRefused, IsReply, IsSummary};
ghost use Rattle.agg_pages.specs.Answer.{IsSummaryPrefix};
ghost use Rattle.agg_streams.specs.Causes.{Rose};
ghost use Rattle.agg_pages.specs.input_text.Input.{Input as Meant, max_input_bytes};
ghost use Rattle.agg_pages.specs.input_text.StoredInput.{input_of};
ghost use Rattle.agg_pages.specs.Observed.{over};
ghost use Rattle.agg_pages.specs.Reading.{TakesAtMost};
ghost use Rattle.agg_pages.specs.Run.{GaveInput, HadNoInput, HasAppended, IsAnswered};
ghost use Rattle.agg_pages.specs.Run.{IsWalkAnswered, invocation};
ghost use Rattle.agg_pages.specs.Status.{IsUnanswered};

use crate::command::{Command, command_of};
use crate::generator::generated_input;
use crate::input_text::{Input, read_input};
use crate::reply::{Reply, deliver, reply_to, summary_of};
use crate::source::{Source, read_all};
use crate::status::Status;
use agg_request::NamedBuilder;
use agg_streams::sink::Sink;
use agg_values::{Steps, Text};
use std::alloc::Global;
use std::marker::Brand;
use std::sync::ledger::{Blank, Ledger};

/// Does all that the program does. `words` are its arguments without its name; the builders are
/// those that filters of a request may ask for.
pub fn run<R: Source, W: Sink, L: Ledger>(
    alloc: Global,
    words: &[Text],
    builders: Vec<NamedBuilder>,
    source: &mut R,
    sink: &mut W,
    steps: &mut Steps<L>,
) -> Status
    ensures { IsAnswered builders.items (λ b. b.name)
        (λ b. tree_for (b.builder.vtable, b.builder.value)) (invocation words.now result)
        (over R.left R.faults source.old source.new) (over W.contents W.faults sink.old sink.new) }
{
    match command_of(words) {
        Some(Command::Walk) => walk(alloc, builders, source, sink, steps),
        Some(Command::Make(seed)) => match generated_input(alloc, seed) {
            Ok(input) => summarize(alloc, input, sink, steps),
            Err(_) => Status::OutOfMemory,
        },
        None => Status::Usage,
    }
}

/// Does all that the program does, where nobody counts the steps.
pub fn run_uncounted<R: Source, W: Sink>(
    alloc: Global,
    words: &[Text],
    builders: Vec<NamedBuilder>,
    source: &mut R,
    sink: &mut W,
) -> Status
    ensures { IsAnswered builders.items (λ b. b.name)
        (λ b. tree_for (b.builder.vtable, b.builder.value)) (invocation words.now result)
        (over R.left R.faults source.old source.new) (over W.contents W.faults sink.old sink.new) }
{
    run_over::<R, W, Brand>(alloc, words, builders, source, sink, Blank::new(1))
}

// Does all that the program does, where a blank makes the counter of steps.
fn run_over<R: Source, W: Sink, L: Ledger>(
    alloc: Global,
    words: &[Text],
    builders: Vec<NamedBuilder>,
    source: &mut R,
    sink: &mut W,
    blank: Blank,
) -> Status
    requires name { blank.name ≡ L.name }
    requires parts { blank.parts ≡ L.parts }
    requires shared { 0 < L.parts }
    ensures { IsAnswered builders.items (λ b. b.name)
        (λ b. tree_for (b.builder.vtable, b.builder.value)) (invocation words.now result)
        (over R.left R.faults source.old source.new) (over W.contents W.faults sink.old sink.new) }
{
    let mut steps: Steps<L> = Steps::new(blank);
    run(alloc, words, builders, source, sink, &mut steps)
}

// Walks what a source has left, and writes the answer.
fn walk<R: Source, W: Sink, L: Ledger>(
    alloc: Global,
    builders: Vec<NamedBuilder>,
    source: &mut R,
    sink: &mut W,
    steps: &mut Steps<L>,
) -> Status
    ensures answered { IsWalkAnswered builders.items (λ b. b.name)
        (λ b. tree_for (b.builder.vtable, b.builder.value)) result
        (over R.left R.faults source.old source.new) (over W.contents W.faults sink.old sink.new) }
    ensures no_usage { result ≢ Status.Usage }
{
    match answer(alloc, builders, source, steps) {
        Ok(reply) => deliver(sink, &reply),
        Err(status) => status,
    }
}

// Walks an input that is never refused, and writes the summary.
fn summarize<W: Sink, L: Ledger>(
    alloc: Global,
    input: Input,
    sink: &mut W,
    steps: &mut Steps<L>,
) -> Status
    requires { IsNeverRefused (λ b. tree_for (b.builder.vtable, b.builder.value))
        (input_of input) }
    ensures ok { result ≡ Status.Ok → HasAppended
        (IsSummary (λ b. tree_for (b.builder.vtable, b.builder.value)) (input_of input))
        (over W.contents W.faults sink.old sink.new) }
    ensures prefix { result ≡ Status.WriteFault → HasAppended
        (IsSummaryPrefix (λ b. tree_for (b.builder.vtable, b.builder.value)) (input_of input))
        (over W.contents W.faults sink.old sink.new) }
    ensures fault { result ≡ Status.WriteFault → Rose (W.faults sink.old) (W.faults sink.new) }
    ensures quiet { result ≡ Status.OutOfMemory → sink.new ≡ sink.old }
    ensures kinds { (result ≡ Status.Ok)
        ⊎ ((result ≡ Status.WriteFault) ⊎ (result ≡ Status.OutOfMemory)) }
{
    match summary_of(alloc, &input, steps) {
        Ok(reply) => deliver(sink, &reply),
        Err(_) => Status::OutOfMemory,
    }
}

// The answer to the bytes that a source has left, or the status where there is none.
fn answer<R: Source, L: Ledger>(
    alloc: Global,
    builders: Vec<NamedBuilder>,
    source: &mut R,
    steps: &mut Steps<L>,
) -> Result<Reply, Status>
    ensures ok { IfOk result
        (λ reply. (i : Meant _)
        × GaveInput builders.items (λ b. b.name) (over R.left R.faults source.old source.new) i
        × IsReply (λ b. tree_for (b.builder.vtable, b.builder.value)) reply.refused i
        (string_bytes reply.text)) }
    ensures kinds { IfErr result IsUnanswered }
    ensures no_input { result ≡ Err Status.Input
        → HadNoInput builders.items (λ b. b.name) (over R.left R.faults source.old source.new) }
    ensures read_fault { result ≡ Err Status.ReadFault
        → Rose (R.faults source.old) (R.faults source.new) }
    ensures taken { TakesAtMost (max_input_bytes + 1) (R.left source.old) (R.left source.new) }
{
    let bytes = read_all(alloc, source)?;
    let input = read_input(alloc, builders, &bytes)?;
    give_back(bytes);
    Ok(reply_to(alloc, &input, steps)?)
}

// Drops bytes, all but one of which are given back before. Where many go at once, the C library
// keeps the memory of later lists as long as these, in case it is asked for again.
fn give_back(mut bytes: Vec<u8>) {
    bytes.truncate(1);
    bytes.shrink_to_fit();
}
