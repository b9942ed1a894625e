//! `check`: what is wrong with an input of `walk`.
use crate::files::{read_file, shown_name};
use crate::progress::Progress;
use crate::stop::Stop;
use agg_check::{Finding, Severity, check_input};
use std::process::ExitCode;

/// Tells on standard error what is wrong with the input in a file, or in standard input where no
/// file is given, and answers the exit code: 3 if there is a mistake, and 0 after warnings alone.
pub fn check_file(
    rt: &HostRuntime,
    file: Option<&str>,
    progress: &mut Progress<'_, HostRuntime>,
) -> Result<ExitCode, Stop> {
    let name = file.unwrap_or("-");
    let bytes = read_file(rt, name, progress)?;
    progress.begin("checked");
    let findings = check_input(rt.alloc(), bytes.as_slice())?;
    progress.wipe();
    let mut code = ExitCode::SUCCESS;
    for finding in findings.iter() {
        let told = tell(rt, shown_name(name), finding);
        if finding.severity == Severity::Mistake {
            code = told;
        }
    }
    Ok(code)
}

// Tells a finding in a file.
fn tell(rt: &impl Eprint, name: &str, finding: &Finding) -> ExitCode {
    let _written = eprintln!(rt; "{name}:{finding}");
    ExitCode::from(3)
}
