//! Groups the records of files from the command line.
#![tactic(auto)]

mod asked;
mod check;
mod files;
mod group;
mod messages;
mod output;
mod progress;
mod request;
mod stop;
mod walk;

use check::check_file;
use group::group_files;
use messages::{complain, tell};
use peslumok_command_line::{Chosen, CommandLineError, read_command_line};
use peslumok_front::front::Failure;
use progress::Progress;
use request::write_request;
use std::env;
use std::io::IsTerminal;
use std::process::ExitCode;
use stop::Stop;
use walk::walk_file;

fn main(rt: HostRuntime) -> ExitCode {
    let Ok(arguments) = env::args(&rt) else {
        return complain(&rt, 2, &"peslumok: an argument is not UTF-8 text");
    };
    let Ok(words) = arguments.collect::<Vec<String>>(rt.alloc()) else {
        return complain(&rt, 6, &Failure::OutOfMemory);
    };
    match read_command_line(rt.alloc(), words.as_slice()) {
        Ok(chosen) => answer(&rt, chosen),
        Err(error) => show(&rt, &error),
    }
}

// Does what was chosen, and tells what there is to tell beside the answer.
fn answer(rt: &HostRuntime, chosen: Chosen<'_>) -> ExitCode {
    let mut progress = Progress::new(rt, rt.stderr().is_terminal());
    let ended = do_chosen(rt, chosen, &mut progress);
    progress.wipe();
    match ended {
        Ok(code) => code,
        Err(stop) => stop.tell(rt),
    }
}

// Does what was chosen.
fn do_chosen(
    rt: &HostRuntime,
    chosen: Chosen<'_>,
    progress: &mut Progress<'_, HostRuntime>,
) -> Result<ExitCode, Stop> {
    match chosen {
        Chosen::Group(options) => {
            let report = group_files(rt, options, progress)?;
            progress.wipe();
            Ok(tell(rt, &report))
        }
        Chosen::Request(options) => {
            write_request(rt, options, progress)?;
            Ok(ExitCode::SUCCESS)
        }
        Chosen::Walk(file) => {
            walk_file(rt, file, progress)?;
            Ok(ExitCode::SUCCESS)
        }
        Chosen::Check(file) => check_file(rt, file, progress),
    }
}

// Shows help, the version or what is wrong with the words.
fn show(rt: &HostRuntime, error: &CommandLineError<'_>) -> ExitCode {
    if let CommandLineError::OutOfMemory = error {
        return complain(rt, 6, &Failure::OutOfMemory);
    }
    match error.print(&mut rt.stdout(), &mut rt.stderr()) {
        Ok(()) => ExitCode::from(error.exit_code()),
        Err(_) => ExitCode::from(5),
    }
}
