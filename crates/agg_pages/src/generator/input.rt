//! The input that is generated from a seed.
ghost use Rattle.std.specs.Prelude.{◌≡◌, [], ◌∷◌, IfOk, codes};
ghost use Rattle.agg_pages.specs.input_text.StoredInput.{input_of};
ghost use Rattle.agg_pages.specs.generator.Generator.{generated, generated_header};

use crate::generator::request::generated_request;
use crate::generator::snapshots::generated_snapshots;
use crate::input_text::{Header, Input};
use agg_segment::{QueryTree, Schema};
use agg_values::{OutOfMemory, Text};
use std::alloc::Global;

/// The input of a seed: the groups of 4,096 random documents, a page at a time, over twelve
/// snapshots that hold the same documents.
#[tactic(auto, unfolding(crate::specs::generator::Generator::generated))]
pub fn generated_input<B: Drop>(alloc: Global, seed: u64) -> Result<Input<B>, OutOfMemory>
    ensures { IfOk result (λ input. input_of input ≡ generated seed) }
{
    Ok(Input {
        header: generated_header(alloc)?,
        snapshots: generated_snapshots(alloc, seed)?,
    })
}

// The header: the request over all documents, with no limits.
fn generated_header<B: Drop>(alloc: Global) -> Result<Header<B>, OutOfMemory>
    ensures { IfOk result (λ header. header ≡ generated_header) }
{
    Ok(Header {
        request: generated_request(alloc)?,
        name: Text::copy_of(alloc, "g")?,
        schema: schema(alloc)?,
        query: QueryTree::All,
        memory_limit: None,
        bucket_limit: None,
    })
}

// The fields of the documents.
fn schema(alloc: Global) -> Result<Schema, OutOfMemory>
    ensures { IfOk result (λ schema. schema ≡ codes "a" ∷ codes "b" ∷ codes "d" ∷ []) }
{
    let mut schema = Schema::new(alloc);
    schema.add_field(Text::copy_of(alloc, "a")?)?;
    schema.add_field(Text::copy_of(alloc, "b")?)?;
    schema.add_field(Text::copy_of(alloc, "d")?)?;
    Ok(schema)
}
