//! Answers: their texts, and how they are written.
ghost use Rattle.std.specs.Prelude.{◌≡◌, ◌≢◌, ◌⊎◌, ℕ, take, true, false, IfErr, IfOk};
ghost use Rattle.std.specs.Prelude.{string_bytes};
ghost use Rattle.std.specs.Io.KnownBytes.{Appends};
ghost use Rattle.agg_streams.specs.Causes.{Rose};
ghost use Rattle.agg_pages.specs.input_text.StoredInput.{input_of};
ghost use Rattle.agg_pages.specs.Answer.{IsNeverRefused, IsPlainWalk, IsReply, IsSummary};
ghost use Rattle.agg_pages.specs.Answer.{IsValid, InputRefusedAtMost};

use crate::input_text::Input;
use crate::output::{refusal_text, summary_text, walk_text};
use crate::status::Status;
use agg_cache::LimitsLedger;
use agg_engine::{Walk, WalkError, walk_pages};
use agg_streams::sink::{Sink, write_all};
use agg_values::{OutOfMemory, Steps};
use std::alloc::Global;
use std::sync::ledger::Ledger;

/// The whole text of an answer, and whether it is a refusal.
#[derive(Drop)]
pub struct Reply {
    pub text: String,
    pub refused: bool,
}

/// The answer to an input: the printed walk, or the line of a refusal.
pub fn reply_to<L: Ledger>(
    alloc: Global,
    input: &Input,
    steps: &mut Steps<L>,
) -> Result<Reply, OutOfMemory>
    ensures { IfOk result
        (λ reply. IsReply (λ b. tree_for (b.builder.vtable, b.builder.value))
        reply.refused (input_of input.now) (string_bytes reply.text)) }
{
    match walk_of(alloc, input, steps) {
        Ok(walk) => Ok(Reply {
            text: walk_text(alloc, walk)?,
            refused: false,
        }),
        Err(WalkError::OutOfMemory) => Err(OutOfMemory),
        Err(error) => Ok(Reply {
            text: refusal_text(alloc, &error)?,
            refused: true,
        }),
    }
}

/// The summary of the walk of an input that is never refused.
pub fn summary_of<L: Ledger>(
    alloc: Global,
    input: &Input,
    steps: &mut Steps<L>,
) -> Result<Reply, OutOfMemory>
    requires { IsNeverRefused (λ b. tree_for (b.builder.vtable, b.builder.value))
        (input_of input.now) }
    ensures no_refusal { IfOk result (λ reply. reply.refused ≡ false) }
    ensures summary { IfOk result
        (λ reply. IsSummary (λ b. tree_for (b.builder.vtable, b.builder.value))
        (input_of input.now) (string_bytes reply.text)) }
{
    match walk_of(alloc, input, steps) {
        Ok(walk) => Ok(Reply {
            text: summary_text(alloc, &walk)?,
            refused: false,
        }),
        Err(WalkError::OutOfMemory) => Err(OutOfMemory),
        // By the condition, nothing but want of memory refuses the input.
        Err(_) => unreachable!(),
    }
}

// The walk of an input, under the limits of its header.
fn walk_of<L: Ledger>(alloc: Global, input: &Input, steps: &mut Steps<L>) -> Result<Walk, WalkError>
    ensures valid { IfOk result
        (λ walk. IsValid (λ b. tree_for (b.builder.vtable, b.builder.value)) (input_of input.now)) }
    ensures plain { IfOk result
        (IsPlainWalk (λ b. tree_for (b.builder.vtable, b.builder.value)) (input_of input.now)) }
    ensures cause { IfErr result (λ error. error ≢ WalkError.OutOfMemory
        → InputRefusedAtMost (λ b. tree_for (b.builder.vtable, b.builder.value))
        (input_of input.now) error) }
{
    let header = &input.header;
    let mut limits = LimitsLedger::new(header.memory_limit, header.bucket_limit);
    walk_pages(
        alloc,
        &mut limits,
        &header.schema,
        &header.request,
        &header.name,
        &header.query,
        &input.snapshots,
        steps,
    )
}

/// Writes an answer.
pub fn deliver<W: Sink>(sink: &mut W, reply: &Reply) -> Status
    ensures ok { result ≡ Status.Ok
        → (reply.now.refused ≡ false)
        × Appends (W.contents sink.old) (W.contents sink.new) (string_bytes reply.now.text) }
    ensures refused { result ≡ Status.Refused
        → (reply.now.refused ≡ true)
        × Appends (W.contents sink.old) (W.contents sink.new) (string_bytes reply.now.text) }
    ensures prefix { result ≡ Status.WriteFault
        → (count : ℕ)
        × Appends (W.contents sink.old) (W.contents sink.new)
        (take count (string_bytes reply.now.text)) }
    ensures fault { result ≡ Status.WriteFault → Rose (W.faults sink.old) (W.faults sink.new) }
    ensures kinds { (result ≡ Status.Ok)
        ⊎ ((result ≡ Status.Refused) ⊎ (result ≡ Status.WriteFault)) }
{
    match write_all(sink, reply.text.as_bytes()) {
        Err(_) => Status::WriteFault,
        Ok(()) if reply.refused => Status::Refused,
        Ok(()) => Status::Ok,
    }
}
