//! `request`: the header that options stand for.
use crate::asked::asked_of;
use crate::output::Output;
use crate::progress::Progress;
use crate::stop::Stop;
use agg_pages::header_text::header_line;
use agg_request::{Aggregation, Aggregations, may_be_written};
use agg_segment::Schema;
use agg_streams::sink::{StdSink, write_all};
use agg_values::{NameMap, OutOfMemory, Text};
use peslumok_command_line::GroupOptions;
use peslumok_front::front::{Asked, Failure, after_of, check_asked};
use peslumok_front::grouping::{AskedPage, GROUPS, asked_fields, query_of, request_of};
use peslumok_texts::fields::FieldType;
use std::alloc::Global;

/// Writes the header of `walk` that options stand for, a line, to standard output. `--top` has no
/// place in it, and some requests are in no header: then nothing is written.
pub fn write_request(
    rt: &HostRuntime,
    options: GroupOptions<'_>,
    progress: &mut Progress<'_, HostRuntime>,
) -> Result<(), Stop> {
    if options.top.is_some() {
        return Err(Stop::TopInRequest);
    }
    let asked = asked_of(rt.alloc(), options, false)?;
    check_asked(rt.alloc(), &asked)?;
    let mut line = header_of(rt.alloc(), &asked)?;
    if line.push('\n').is_err() {
        return Err(Stop::Failed(Failure::OutOfMemory));
    }
    let mut output = Output::new(rt.stdout(), progress);
    let written = write_all(&mut StdSink::new(&mut output), line.as_bytes());
    match written {
        Ok(()) => Ok(()),
        Err(_) if output.is_closed() => Err(Stop::Closed),
        Err(error) => Err(Stop::Failed(Failure::from(error))),
    }
}

// The header of what is asked.
fn header_of(alloc: Global, asked: &Asked<'_>) -> Result<String, Stop> {
    let grouping = &asked.grouping;
    let query = query_of(alloc, grouping)?;
    let fields = asked_fields(alloc, grouping, &query)?;
    let request: Aggregations = request_in(alloc, asked)?;
    let schema = schema_of(alloc, &fields)?;
    let name = Text::copy_of(alloc, GROUPS)?;
    if !may_be_written(&request) {
        return Err(Stop::NoHeader);
    }
    Ok(header_line(alloc, &request, &name, &schema, query)?)
}

// The request of the page that is asked for.
fn request_in<B: Drop>(alloc: Global, asked: &Asked<'_>) -> Result<NameMap<Aggregation<B>>, Stop> {
    let after = match asked.pages.after {
        Some(text) => after_of(alloc, text, &asked.grouping)?,
        None => NameMap::new(alloc),
    };
    let page = AskedPage {
        size: asked.pages.size,
        after,
    };
    Ok(request_of(alloc, &asked.grouping, page)?)
}

// The names of fields.
fn schema_of(alloc: Global, fields: &NameMap<FieldType>) -> Result<Schema, OutOfMemory> {
    let mut schema = Schema::new(alloc);
    for name in fields.keys() {
        schema.add_field(name.try_clone(alloc)?)?;
    }
    Ok(schema)
}
