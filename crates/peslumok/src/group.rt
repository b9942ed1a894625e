//! `group`: the groups of records.
use crate::asked::asked_of;
use crate::files::read_files;
use crate::output::Output;
use crate::progress::Progress;
use crate::stop::Stop;
use agg_streams::sink::StdSink;
use peslumok_command_line::GroupOptions;
use peslumok_front::front::{Failure, Report, check_asked, group};
use std::io::IsTerminal;

/// Groups the records of files, and writes the pages that are asked for to standard output. What
/// options ask is checked before a file is read.
pub fn group_files(
    rt: &HostRuntime,
    options: GroupOptions<'_>,
    progress: &mut Progress<'_, HostRuntime>,
) -> Result<Report, Stop> {
    let names = match options.files.clone() {
        Ok(names) => names,
        Err(error) => return Err(Stop::Failed(Failure::from(error))),
    };
    let from = options.from;
    let asked = asked_of(rt.alloc(), options, rt.stdout().is_terminal())?;
    check_asked(rt.alloc(), &asked)?;
    let files = read_files(rt, names.as_slice(), from, progress)?;
    progress.begin("grouped");
    let mut output = Output::new(rt.stdout(), progress);
    let grouped = group(rt.alloc(), &asked, files, &mut StdSink::new(&mut output));
    match grouped {
        Ok(report) => Ok(report),
        Err(Failure::Unwritten) if output.is_closed() => Err(Stop::Closed),
        Err(failure) => Err(Stop::Failed(failure)),
    }
}
