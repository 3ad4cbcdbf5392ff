//! Answers each line of standard input on standard output.
#![tactic(auto)]

ghost use Rattle.std.specs.Prelude.{◌≡◌, is_ok, if◌then◌else◌};
ghost use Rattle.std.specs.Process.{exit_status};

mod answering;
mod commands;
mod cutting;
mod dispatch;
mod laws;
mod names;
mod replies;
mod route_tables;
mod run;

use crate::run::run;
use lines::fault::RunFault;
use lines::watched::Watched;
use std::process::ExitCode;

fn main(rt: HostRuntime) -> ExitCode {
    let mut reader = Watched::new(rt.stdin());
    let mut writer = Watched::new(rt.stdout());
    let end = run(rt.alloc(), &mut reader, &mut writer);
    if let Err(fault) = end {
        let _ = rt.eprintln(fault.text());
    }
    status(end)
}

/// Returns the exit status of the program: 0 after a run that answered all of its input, and 1
/// otherwise.
fn status(end: Result<(), RunFault>) -> ExitCode
    ensures { exit_status result ≡ if is_ok end then 0 else 1 }
{
    match end {
        Ok(()) => ExitCode::SUCCESS,
        Err(_) => ExitCode::FAILURE,
    }
}
