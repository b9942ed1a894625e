//! How a program of one's own takes pages: the input stands in memory, and so does what is written.
#![tactic(auto)]

ghost use Rattle.std.specs.Prelude.{IfErr, IfOk, Some, codes};
ghost use Rattle.agg_segment.specs.declared.storage.document.FieldValue.TheVariants as value;
ghost use Rattle.agg_segment.specs.declared.query.QueryTree.TheVariants as tree;
ghost use Rattle.agg_embedding.specs.NoPages.{HaveNoPages};
ghost use Rattle.agg_pages.specs.Answer.{IsPrintedWalk};
ghost use Rattle.agg_pages.specs.Input.{Input, IsInput};

use agg_pages::sink::{MemorySink, Sink, StdSink, write_all};
use agg_pages::source::SteadySource;
use agg_pages::{Status, run_uncounted};
use agg_request::{NamedBuilder, QueryBuildError, QueryBuilder};
use agg_segment::{FieldValue, QueryTree, Schema};
use agg_values::Text;
use std::alloc::Global;
use std::process::ExitCode;

const SALES: &str = concat!(
    "{\"request\":{\"by_shop\":{\"composite\":{\"sources\":[{\"shop\":{\"terms\":",
    "{\"field\":\"shop\"}}}],\"size\":2}},\"ours\":{\"filter\":{\"builder\":\"ours\"}}},",
    "\"name\":\"by_shop\",\"schema\":[\"shop\"]}\n",
    "snapshot 2\n{\"shop\":12}\n{\"shop\":3}\n{\"shop\":12}\n",
    "snapshot 2\nsegment\n{\"shop\":12}\n{\"shop\":3}\n{\"shop\":12}\nsegment\n{\"shop\":41}\n",
);

// Asks for the sales of one shop.
#[derive(Drop)]
struct InShop(i64);

impl QueryBuilder for InShop {
    ghost tree_for = { λ shop _. Some (tree.Term (codes "shop") (value.I64 shop.0)) };

    fn build_query(&self, alloc: Global, _schema: &Schema) -> Result<QueryTree, QueryBuildError> {
        Ok(QueryTree::Term {
            field: Text::copy_of(alloc, "shop")?,
            value: FieldValue::I64(self.0),
        })
    }
}

fn main(rt: HostRuntime) -> ExitCode {
    match show_sales(rt.alloc(), &mut StdSink::new(rt.stdout())) {
        Ok(()) => ExitCode::SUCCESS,
        Err(status) => ExitCode::from(status.code()),
    }
}

fn show_sales<W: Sink>(alloc: Global, out: &mut W) -> Result<(), Status> {
    let bytes = SALES
        .as_bytes()
        .to_vec(alloc)
        .map_err(|_| Status::OutOfMemory)?;
    let ours = NamedBuilder {
        name: Text::copy_of(alloc, "ours")?,
        builder: Box::new(alloc, InShop(12)).map_err(|_| Status::OutOfMemory)?,
    };
    let mut builders = Vec::new(alloc);
    builders.push(ours).map_err(|_| Status::OutOfMemory)?;
    let pages = pages_of(alloc, builders, bytes)?;
    write_all(out, pages.bytes()).map_err(|_| Status::WriteFault)
}

// The printed pages of bytes, or the status that says why they have none. The builders are those
// that filters of a request may ask for.
fn pages_of(
    alloc: Global,
    builders: Vec<NamedBuilder>,
    bytes: Vec<u8>,
) -> Result<MemorySink, Status>
    ensures pages { IfOk result
        (λ sink. (i : Input _) × IsInput builders.items (λ b. b.name) bytes.items i
        × IsPrintedWalk (λ b. tree_for (b.builder.vtable, b.builder.value)) i sink.bytes) }
    ensures cause { IfErr result (HaveNoPages builders.items (λ b. b.name)
        (λ b. tree_for (b.builder.vtable, b.builder.value)) bytes.items) }
{
    let words = [Text::copy_of(alloc, "walk")?];
    let mut source = SteadySource::new(bytes);
    let mut sink = MemorySink::new(alloc, Vec::new(alloc))?;
    match run_uncounted(alloc, &words, builders, &mut source, &mut sink) {
        Status::Ok => Ok(sink),
        status => Err(status),
    }
}
