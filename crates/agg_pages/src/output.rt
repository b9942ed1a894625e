//! The text of an answer.
ghost use Rattle.std.specs.Prelude.{◌≡◌, ◌++◌, IfOk, OnOk, string_bytes, sum_by};
ghost use Rattle.agg_results.specs.final_results.BucketCount.{results_buckets};
ghost use Rattle.agg_pages.specs.Output.{ended_line, page_line, refusal_text};
ghost use Rattle.agg_pages.specs.Output.{summary_text, walk_text};

use agg_engine::{Walk, WalkError};
use agg_results::AggregationResults;
use agg_values::OutOfMemory;
use std::alloc::Global;

/// A walk: a line for each page, which is dropped once its line stands there, and one that says
/// whether it has ended.
pub fn walk_text(alloc: Global, walk: Walk) -> Result<String, OutOfMemory>
    ensures { IfOk result (λ text. string_bytes text ≡ walk_text walk) }
{
    let mut text = String::new(alloc);
    let mut number: u64 = 0;
    for page in walk.pages.into_vec() {
        number += 1;
        write_page(&mut text, number, page)?;
    }
    text.push_str(ended_text(walk.ended))?;
    Ok(text)
}

// The line that says whether a walk has ended.
fn ended_text(ended: bool) -> &'static str
    ensures { result.now ≡ ended_line ended }
{
    if ended {
        "{\"ended\":true}\n"
    } else {
        "{\"ended\":false}\n"
    }
}

// Appends the line of a page.
fn write_page(text: &mut String, number: u64, page: AggregationResults) -> Result<(), OutOfMemory>
    ensures { OnOk result
        (string_bytes text.new ≡ string_bytes text.old ++ page_line number page) }
{
    write!(text, "{{\"page\":{number},\"results\":")?;
    page.into_json(text)?;
    text.push_str("}\n")?;
    Ok(())
}

/// The line of a refusal.
pub fn refusal_text(alloc: Global, error: &WalkError) -> Result<String, OutOfMemory>
    ensures { IfOk result (λ text. string_bytes text ≡ refusal_text error.now) }
{
    let mut text = String::from_str(alloc, "error: ")?;
    text.push_str(error.name())?;
    text.push('\n')?;
    Ok(text)
}

/// The line of a summary: how many buckets and pages a walk has, and whether it has ended.
pub fn summary_text(alloc: Global, walk: &Walk) -> Result<String, OutOfMemory>
    ensures { IfOk result (λ text. string_bytes text ≡ summary_text walk.now) }
{
    let pages = walk.pages.as_slice();
    let buckets = bucket_count(pages)?;
    let ended = walk.ended;
    let count = pages.len();
    Ok(format!(in alloc; "{{\"buckets\":{buckets},\"ended\":{ended},\"pages\":{count}}}\n")?)
}

// How many buckets pages have. No memory has room for the greatest u64.
fn bucket_count(pages: &[AggregationResults]) -> Result<u64, OutOfMemory>
    ensures { IfOk result (λ count. count ≡ sum_by results_buckets pages.now) }
{
    let mut count: u64 = 0;
    for page in pages {
        count = count.saturating_add(page.get_bucket_count());
    }
    match count {
        u64::MAX => Err(OutOfMemory),
        count => Ok(count),
    }
}
