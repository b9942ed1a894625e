//! The values of single arguments.
ghost use Rattle.std.specs.Prelude.{◌≡◌, IfOk, map, option_map, option_and_then, codes};
ghost use Rattle.clap.specs.Words.{first_of, found_of, rows_of};
ghost use Rattle.peslumok_command_line.specs.Asked as spec;
ghost use Rattle.peslumok_command_line.specs.Asked.{ReadsFlag, ReadsNumber, ReadsOptionalNumber};

use clap::ArgMatches;
use peslumok_texts::formats::{OutputFormat, RecordFormat};
use std::alloc::{AllocError, Global};

/// The values of all uses of an option.
pub(crate) fn texts<'a>(
    alloc: Global,
    matches: &ArgMatches<'a>,
    id: &str,
) -> Result<Vec<&'a str>, AllocError>
    ensures { IfOk result (λ texts. map (λ text. text.now) texts.items
        ≡ spec.texts_of id.now (rows_of (found_of matches.now))) }
{
    match matches.get_strs(id) {
        Some(texts) => texts.to_vec(alloc),
        None => Ok(Vec::new(alloc)),
    }
}

/// The value of an option that is used once.
pub(crate) fn text<'a>(matches: &ArgMatches<'a>, id: &str) -> Option<&'a str>
    ensures { option_map (λ text. text.now) result
        ≡ first_of id.now (rows_of (found_of matches.now)) }
{
    matches.get_str(id)
}

/// Whether an option without a value is used.
pub(crate) fn is_used(matches: &ArgMatches<'_>, id: &str) -> bool
    ensures { ReadsFlag id.now (rows_of (found_of matches.now)) result }
{
    matches.get_flag(id)
}

/// How many groups a page has.
pub(crate) fn size(matches: &ArgMatches<'_>) -> u32
    ensures { ReadsNumber (codes "size") (rows_of (found_of matches.now)) result }
{
    matches.get_one::<u32>("size").unwrap_or(20)
}

/// How many of the greatest groups there are.
pub(crate) fn top(matches: &ArgMatches<'_>) -> Option<u32>
    ensures { ReadsOptionalNumber (codes "top") (rows_of (found_of matches.now)) result }
{
    matches.get_one::<u32>("top")
}

/// How records are written.
pub(crate) fn from(matches: &ArgMatches<'_>) -> Option<RecordFormat>
    ensures { result ≡ option_and_then
        spec.record_format_of
        (first_of (codes "from") (rows_of (found_of matches.now))) }
{
    text(matches, "from").and_then(record_format)
}

/// How groups are written.
pub(crate) fn to(matches: &ArgMatches<'_>) -> Option<OutputFormat>
    ensures { result ≡ option_and_then
        spec.output_format_of
        (first_of (codes "to") (rows_of (found_of matches.now))) }
{
    text(matches, "to").and_then(output_format)
}

#[tactic(auto, using(crate::proofs::Names::other))]
fn record_format(name: &str) -> Option<RecordFormat>
    ensures { result ≡ spec.record_format_of name.now }
{
    match name {
        "jsonl" => Some(RecordFormat::JsonLines),
        "json" => Some(RecordFormat::Json),
        "csv" => Some(RecordFormat::Csv),
        "tsv" => Some(RecordFormat::Tsv),
        _ => None,
    }
}

#[tactic(auto, using(crate::proofs::Names::other))]
fn output_format(name: &str) -> Option<OutputFormat>
    ensures { result ≡ spec.output_format_of name.now }
{
    match name {
        "table" => Some(OutputFormat::Table),
        "jsonl" => Some(OutputFormat::JsonLines),
        "csv" => Some(OutputFormat::Csv),
        _ => None,
    }
}
