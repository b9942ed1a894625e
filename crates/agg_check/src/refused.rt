//! The finding for a request that is refused.
ghost use Rattle.std.specs.Prelude.{◌≡◌, IfOk, true};
ghost use Rattle.agg_check.specs.findings.Findings.{is_mistake};

use crate::findings::{Finding, Path, Severity};
use crate::refusals::{refused_composite, refused_source, write_refusal};
use crate::verdict::BuilderName;
use agg_engine::WalkError;
use agg_pages::input_text::Header;
use agg_values::{OutOfMemory, Text};
use std::alloc::Global;

/// Why the request of a header is refused, at its place in the line of that number.
pub fn refusal_finding(
    alloc: Global,
    line: (u64, &str),
    header: &Header<BuilderName>,
    error: &WalkError,
) -> Result<Finding, OutOfMemory>
    ensures { IfOk result (λ finding. is_mistake finding ≡ true) }
{
    let mut what = String::new(alloc);
    write_refusal(alloc, &mut what, &header.request, &header.name, error)?;
    let root = Path::Root("header");
    let (path, column) = match error {
        WalkError::UnknownComposite => placed(alloc, line.1, &Path::below(alloc, &root, "name")?)?,
        WalkError::QueryBuild => placed(alloc, line.1, &Path::below(alloc, &root, "schema")?)?,
        _ => match refused_composite(alloc, &header.request)? {
            Some(found) => {
                let source = refused_source(alloc, &found)?;
                let request = Path::below(alloc, &root, "request")?;
                placed_below(alloc, line.1, &request, found.names.as_slice(), source)?
            }
            None => placed(alloc, line.1, &root)?,
        },
    };
    Ok(Finding {
        line: line.0,
        column,
        severity: Severity::Mistake,
        path,
        what: Text::from_string(what)?,
    })
}

// The path and the column of a source, or else of its composite, that names lead to.
fn placed_below(
    alloc: Global,
    line: &str,
    path: &Path<'_>,
    names: &[Text],
    source: Option<usize>,
) -> Result<(Text, usize), OutOfMemory> {
    match names {
        [] => placed(alloc, line, path),
        [name] => {
            let named = Path::Member(&*path, name.try_clone(alloc)?);
            placed_in(alloc, line, &named, source)
        }
        [name, rest @ ..] => {
            let named = Path::Member(&*path, name.try_clone(alloc)?);
            let below = Path::below(alloc, &named, "aggs")?;
            placed_below(alloc, line, &below, rest, source)
        }
    }
}

// The path and the column of a source of an aggregation, or else of its composite.
fn placed_in(
    alloc: Global,
    line: &str,
    path: &Path<'_>,
    source: Option<usize>,
) -> Result<(Text, usize), OutOfMemory> {
    let composite = Path::Member(&*path, Text::copy_of(alloc, "composite")?);
    match source {
        Some(index) => {
            let sources = Path::below(alloc, &composite, "sources")?;
            placed(alloc, line, &Path::Item(&sources, index))
        }
        None => placed(alloc, line, &composite),
    }
}

// A path as a text, and the column of its value.
fn placed(alloc: Global, line: &str, path: &Path<'_>) -> Result<(Text, usize), OutOfMemory> {
    let mut words = String::new(alloc);
    path.write(&mut words)?;
    let offset = path.value_place(alloc, line).unwrap_or(0);
    Ok((Text::from_string(words)?, offset.saturating_add(1)))
}
