//! The command `acpins-survey`: what the tables DSDT and SSDT of a machine declare or may declare, and under which
//! condition, without running any of their code.
//!
//! Words go in, and files by name; a text goes out, whole or not at all, and a status. `run` is the whole
//! program over any files and streams; `main` gives it the host's.
#![tactic(auto)]

ghost use Rattle.std.specs.Prelude.{◌≤◌, IfOk};

use acpins_survey_run::{
    Failure, HostConsole, HostFiles, HostFolders, UntilFailure, arguments, report_failure, run,
};
use acpins_survey_texts::SurveyPrinter;
use std::alloc::Global;
use std::process::ExitCode;

// What the host gives: its arguments, its files and folders, its terminal, and its two streams.
fn run_on_host(rt: &HostRuntime, alloc: Global) -> Result<u8, Failure>
    ensures { IfOk result (λ status. status ≤ 3) }
{
    let args = arguments(rt, alloc)?;
    let mut words: Vec<&str> = Vec::new(alloc);
    for arg in args.iter().skip(1) {
        words.push(arg.as_str())?;
    }
    let mut files = HostFiles::with_streams(rt);
    let mut folders = HostFolders::new(rt);
    let mut console = HostConsole::new(rt);
    let ending = run(
        alloc,
        words.as_slice(),
        &SurveyPrinter,
        &mut files,
        &mut folders,
        &mut console,
        &mut rt.stdout(),
        &mut rt.stderr(),
    );
    Ok(ending.status)
}

fn main(rt: HostRuntime) -> ExitCode {
    let status = match run_on_host(&rt, rt.alloc()) {
        Ok(status) => status,
        Err(failure) => report_failure(&failure, &mut rt.stderr(), &mut UntilFailure::new()),
    };
    ExitCode::from(status)
}
