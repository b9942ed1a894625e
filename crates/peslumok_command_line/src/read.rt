ghost use Rattle.std.specs.Prelude.{◌≡◌, ◌≤◌, IfOk, IfErr, Some, true, codes, length, map};
ghost use Rattle.std.specs.Prelude.{string_bytes};
ghost use Rattle.std.specs.List.{AllZip};
ghost use Rattle.clap.specs.Words.{found_of, rows_of, subcommand_of};
ghost use Rattle.peslumok_command_line.specs.Asked.{Asks, IsAsked, ReadsBy, texts_of};
ghost use Rattle.peslumok_command_line.specs.CommandLine.{Formats, peslumok};
ghost use Rattle.peslumok_command_line.specs.AskedParts.{AsksColumns, AsksPage, AsksRecords};
ghost use Rattle.peslumok_command_line.specs.Mistakes.{IsTold, Tells, TellsOf, is_own};

use crate::command::matches_of;
use crate::readings::{metric_columns, read_all};
use crate::values::{from, is_used, size, text, texts, to, top};
use crate::{Chosen, CommandLineError, GroupOptions};
use clap::ArgMatches;
use peslumok_texts::words::{BySpec, Condition, DateField, DecimalField, Metric};
use std::alloc::Global;

/// What the words of a command line ask; the first word is the program's name.
pub fn read_command_line<'a>(
    alloc: Global,
    words: &'a [String],
) -> Result<Chosen<'a>, CommandLineError<'a>>
    ensures asked { IfOk result (λ chosen. (formats : Formats)
        × IsAsked
        (subcommand_of (peslumok formats) (map string_bytes words.entry.now))
        chosen) }
    ensures told { IfErr result (IsTold (map string_bytes words.entry.now)) }
{
    let matches = match matches_of(alloc, words) {
        Ok(matches) => matches,
        Err(error) => return Err(CommandLineError::from(error)),
    };
    let Some((name, found)) = matches.subcommand() else {
        return Err(CommandLineError::NoCommand);
    };
    chosen(alloc, name, found)
}

// What the matches of the command `name` ask.
fn chosen<'a>(
    alloc: Global,
    name: &str,
    found: &ArgMatches<'a>,
) -> Result<Chosen<'a>, CommandLineError<'a>>
    ensures asked { IfOk result (IsAsked (Some (name.now, rows_of (found_of found.now)))) }
    ensures told { IfErr result (λ told. is_own told ≡ true
        → TellsOf (Some (name.now, rows_of (found_of found.now))) told) }
{
    match name {
        "group" => Ok(Chosen::Group(group_options(alloc, found)?)),
        "request" => Ok(Chosen::Request(group_options(alloc, found)?)),
        "walk" => Ok(Chosen::Walk(text(found, "file"))),
        "check" => Ok(Chosen::Check(text(found, "file"))),
        _ => Err(CommandLineError::NoCommand),
    }
}

// The options of `group` or `request`.
fn group_options<'a>(
    alloc: Global,
    matches: &ArgMatches<'a>,
) -> Result<GroupOptions<'a>, CommandLineError<'a>>
    ensures asked { IfOk result (Asks (rows_of (found_of matches.now))) }
    ensures told { IfErr result (Tells (rows_of (found_of matches.now))) }
{
    let by = by_specs(alloc, matches)?;
    let page = page_options(matches)?;
    let records = record_options(alloc, matches)?;
    let columns = column_options(alloc, matches)?;
    Ok(GroupOptions {
        files: records.files,
        by,
        conditions: records.conditions,
        query: text(matches, "query"),
        metrics: columns.metrics,
        has_total: is_used(matches, "total"),
        size: page.size,
        after: page.after,
        is_all: page.is_all,
        top: page.top,
        dates: columns.dates,
        decimals: columns.decimals,
        texts: columns.texts,
        from: from(matches),
        to: to(matches),
    })
}

// What groups are made by.
fn by_specs<'a>(
    alloc: Global,
    matches: &ArgMatches<'a>,
) -> Result<Vec<BySpec<'a>>, CommandLineError<'a>>
    ensures by { IfOk result (λ by. AllZip
        ReadsBy
        (texts_of (codes "by") (rows_of (found_of matches.now)))
        by.items) }
    ensures few { IfOk result (λ by. length by.items ≤ 16) }
    ensures told { IfErr result (Tells (rows_of (found_of matches.now))) }
{
    let by = read_all::<BySpec>(alloc, matches, "by")?;
    if by.len() > 16 {
        return Err(CommandLineError::TooManyBy);
    }
    Ok(by)
}

// Which groups are shown.
#[derive(Clone, Copy)]
struct PageOptions<'a> {
    size: u32,
    after: Option<&'a str>,
    is_all: bool,
    top: Option<u32>,
}

fn page_options<'a>(matches: &ArgMatches<'a>) -> Result<PageOptions<'a>, CommandLineError<'a>>
    ensures asked { IfOk result (AsksPage (rows_of (found_of matches.now))) }
    ensures told { IfErr result (Tells (rows_of (found_of matches.now))) }
{
    let (top, after) = (top(matches), text(matches, "after"));
    let is_all = is_used(matches, "all");
    if top.is_some() && after.is_some() {
        return Err(CommandLineError::TopWithAfter);
    }
    if top.is_some() && is_all {
        return Err(CommandLineError::TopWithAll);
    }
    let size = size(matches);
    Ok(PageOptions {
        size,
        after,
        is_all,
        top,
    })
}

// Which records are read.
#[derive(Drop)]
struct RecordOptions<'a> {
    files: Vec<&'a str>,
    conditions: Vec<Condition<'a>>,
}

fn record_options<'a>(
    alloc: Global,
    matches: &ArgMatches<'a>,
) -> Result<RecordOptions<'a>, CommandLineError<'a>>
    ensures asked { IfOk result (AsksRecords (rows_of (found_of matches.now))) }
    ensures told { IfErr result (Tells (rows_of (found_of matches.now))) }
{
    let files = texts(alloc, matches, "file")?;
    let conditions = read_all(alloc, matches, "where")?;
    Ok(RecordOptions { files, conditions })
}

// What is shown of fields, and how they are read.
#[derive(Drop)]
struct ColumnOptions<'a> {
    metrics: Vec<Metric<'a>>,
    dates: Vec<DateField<'a>>,
    decimals: Vec<DecimalField<'a>>,
    texts: Vec<&'a str>,
}

fn column_options<'a>(
    alloc: Global,
    matches: &ArgMatches<'a>,
) -> Result<ColumnOptions<'a>, CommandLineError<'a>>
    ensures asked { IfOk result (AsksColumns (rows_of (found_of matches.now))) }
    ensures told { IfErr result (Tells (rows_of (found_of matches.now))) }
{
    let metrics = metric_columns(alloc, matches)?;
    let dates = read_all(alloc, matches, "date")?;
    let decimals = read_all(alloc, matches, "decimal")?;
    let texts = texts(alloc, matches, "text")?;
    Ok(ColumnOptions {
        metrics,
        dates,
        decimals,
        texts,
    })
}
