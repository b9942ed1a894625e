//! What is told beside the groups.
use peslumok_front::front::Report;
use std::fmt::Display;
use std::io;
use std::process::ExitCode;

/// Tells why there are no groups, on standard error, and answers the exit code that is given.
pub fn complain(rt: &impl Eprint, code: u8, why: &impl Display) -> ExitCode {
    // Where even this can't be written, the exit code tells it alone.
    let _written = eprintln!(rt; "{why}");
    ExitCode::from(code)
}

/// Tells on standard error of fields that no record has, and where the next page begins. The exit
/// code is 0, or 5 where it can't be written.
pub fn tell(rt: &impl Eprint, report: &Report) -> ExitCode {
    match try_tell(rt, report) {
        Ok(()) => ExitCode::SUCCESS,
        Err(_) => ExitCode::from(5),
    }
}

fn try_tell(rt: &impl Eprint, report: &Report) -> io::Result<()> {
    for field in report.unseen.iter() {
        warn_of(rt, field.as_str(), report)?;
    }
    if let Some(next) = &report.next {
        tell_next(rt, next.as_str())?;
    }
    Ok(())
}

// Tells that no record has a value of a field, and which fields there are.
fn warn_of(rt: &impl Eprint, field: &str, report: &Report) -> io::Result<()> {
    eprint!(rt; "warning: no record has a value of {field}; fields that were seen:")?;
    for name in report.names.iter() {
        eprint!(rt; " {}", name.as_str())?;
    }
    eprintln!(rt; "")
}

// Tells the option with which the next page begins, quoted for a shell.
fn tell_next(rt: &impl Eprint, next: &str) -> io::Result<()> {
    eprint!(rt; "next page: --after='")?;
    for (place, part) in next.split('\'').enumerate() {
        if place > 0 {
            eprint!(rt; "'\\''")?;
        }
        eprint!(rt; "{part}")?;
    }
    eprintln!(rt; "'")
}
