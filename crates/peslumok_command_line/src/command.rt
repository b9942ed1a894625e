ghost use Rattle.std.specs.Prelude.{◌≡◌, IfOk, map, string_bytes};
ghost use Rattle.clap.specs.Words.{app_of, new_app, subcommand_of, subcommand_rows_of};
ghost use Rattle.clap.specs.Words.{with_subcommand};
ghost use Rattle.peslumok_command_line.specs.Adds.{HasNoGlobals};
ghost use Rattle.peslumok_command_line.specs.CommandLine as spec;
ghost use Rattle.peslumok_command_line.specs.CommandLine.{Formats};
ghost use Rattle.peslumok_command_line.specs.Subcommands.{subcommand_app};

use crate::arguments::{FormatNames, file, files, format_names, with_options};
use clap::{ArgMatches, Command, Error};
use std::alloc::{AllocError, Global};

const VERSION: &str = "0.1.0";

const GROUP_EXAMPLES: &str = "\
Examples:
  peslumok group sales.csv --by shop --decimal amount=2 --sum amount
  peslumok group sales.csv --date day --by day:month,desc --size 12
  peslumok group sales.jsonl --by shop --where 'items>=10' --all --to csv";

const REQUEST_EXAMPLES: &str = "\
Examples:
  peslumok request --by shop --sum items --total
  peslumok request --by items:10,desc --where 'shop=Leith'
  (peslumok request --by shop; echo snapshot 20; cat orders.jsonl) | peslumok walk";

const WALK_ABOUT: &str = "Writes the pages of a request over snapshots of documents, as JSON lines";

const WALK_EXAMPLES: &str = "\
Examples:
  peslumok walk sales_pages.jsonl
  peslumok walk < sales_pages.jsonl
  (peslumok request --by shop; echo snapshot 20; cat orders.jsonl) | peslumok walk";

const CHECK_ABOUT: &str = "Tells what is wrong with an input of 'walk'";

const CHECK_EXAMPLES: &str = "\
Examples:
  peslumok check sales_pages.jsonl
  peslumok check < sales_pages.jsonl
  peslumok check sales_pages.jsonl && peslumok walk sales_pages.jsonl";

/// The matches of a command line's words, a function of them.
pub(crate) fn matches_of<'a>(alloc: Global, words: &'a [String]) -> Result<ArgMatches<'a>, Error>
    ensures { IfOk result (λ matches. (formats : Formats)
        × (subcommand_rows_of matches
        ≡ subcommand_of (spec.peslumok formats) (map string_bytes words.entry.now))) }
{
    let command = root(alloc)?;
    command.try_get_matches_from(words)
}

// The program and its commands.
fn root<'a>(alloc: Global) -> Result<Command<'a>, AllocError>
    ensures { IfOk result (λ command. (formats : Formats)
        × (app_of command ≡ spec.peslumok formats)) }
{
    let formats = format_names();
    let grouped = with_command(alloc, bare(alloc)?, Subcommand::Group, formats)?;
    let requested = with_command(alloc, grouped, Subcommand::Request, formats)?;
    let walked = with_command(alloc, requested, Subcommand::Walk, formats)?;
    with_command(alloc, walked, Subcommand::Check, formats)
}

// A command of the program.
#[derive(Clone, Copy)]
enum Subcommand {
    Group,
    Request,
    Walk,
    Check,
}

// Adds a command.
fn with_command<'a>(
    alloc: Global,
    program: Command<'a>,
    subcommand: Subcommand,
    formats: FormatNames<'a>,
) -> Result<Command<'a>, AllocError>
    ensures { IfOk result (λ command. app_of command ≡ with_subcommand
        (app_of program.entry)
        (subcommand_app subcommand formats.entry.inputs formats.entry.outputs).top) }
{
    let below = command_of(alloc, subcommand, formats)?;
    program.subcommand(below)
}

// A command and its arguments.
fn command_of<'a>(
    alloc: Global,
    subcommand: Subcommand,
    formats: FormatNames<'a>,
) -> Result<Command<'a>, AllocError>
    ensures app { IfOk result (λ command. app_of command
        ≡ subcommand_app subcommand formats.entry.inputs formats.entry.outputs) }
    ensures local { IfOk result HasNoGlobals }
{
    match subcommand {
        Subcommand::Group => group(alloc, formats),
        Subcommand::Request => request(alloc, formats),
        Subcommand::Walk => file_command(alloc, "walk", WALK_ABOUT, WALK_EXAMPLES),
        Subcommand::Check => file_command(alloc, "check", CHECK_ABOUT, CHECK_EXAMPLES),
    }
}

// The program before it has a command.
fn bare<'a>(alloc: Global) -> Result<Command<'a>, AllocError>
    ensures { IfOk result (λ command. app_of command ≡ spec.bare_app) }
{
    let program = Command::new(alloc, "peslumok")
        .bin_name("peslumok")?
        .version(VERSION)
        .propagate_version(true)
        .about("Groups records by the values of their fields, page by page")
        .subcommand_required(true)
        .arg_required_else_help(true);
    Ok(program)
}

// `group` and its arguments.
fn group<'a>(alloc: Global, formats: FormatNames<'a>) -> Result<Command<'a>, AllocError>
    ensures app { IfOk result (λ command. app_of command
        ≡ spec.group_app formats.entry.inputs formats.entry.outputs) }
    ensures local { IfOk result HasNoGlobals }
{
    let about = "Groups records, and writes one page of groups or all pages";
    let command = bare_command(alloc, "group", about, GROUP_EXAMPLES);
    let named = command.arg(files(alloc))?;
    with_options(alloc, named, formats)
}

// `request` and its arguments.
fn request<'a>(alloc: Global, formats: FormatNames<'a>) -> Result<Command<'a>, AllocError>
    ensures app { IfOk result (λ command. app_of command
        ≡ spec.request_app formats.entry.inputs formats.entry.outputs) }
    ensures local { IfOk result HasNoGlobals }
{
    let about = "Writes the header for 'walk' that the options of 'group' stand for";
    let command = bare_command(alloc, "request", about, REQUEST_EXAMPLES);
    with_options(alloc, command, formats)
}

// A command with one file.
fn file_command<'a>(
    alloc: Global,
    name: &'a str,
    about: &'a str,
    examples: &'a str,
) -> Result<Command<'a>, AllocError>
    ensures app { IfOk result (λ command. app_of command ≡ spec.file_app name.entry.now) }
    ensures local { IfOk result HasNoGlobals }
{
    let command = bare_command(alloc, name, about, examples);
    let named = command.arg(file(alloc))?;
    Ok(named)
}

// A command before it has arguments.
fn bare_command<'a>(alloc: Global, name: &'a str, about: &'a str, examples: &'a str) -> Command<'a>
    ensures app { app_of result ≡ new_app name.entry.now }
    ensures local { HasNoGlobals result }
{
    Command::new(alloc, name).about(about).after_help(examples)
}
