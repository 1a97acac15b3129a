// check: judges texts of declarations, and says of each what came of it.

#![tactic(auto)]

mod answer;
mod files;
mod judging;
mod names;
mod options;
mod report;
mod tally;

use judging::Judging;
use options::{Asked, Options};
use std::io;
use std::process::ExitCode;

// The status is a failure if not every text holds, or something could not be read.
fn main(rt: HostRuntime) -> ExitCode {
    match run(&rt) {
        Ok(true) => ExitCode::SUCCESS,
        Ok(false) => ExitCode::FAILURE,
        Err(e) => {
            let _ = files::complain(&rt, e);
            ExitCode::FAILURE
        }
    }
}

// Does what the arguments ask for, and says whether all is well.
fn run(rt: &HostRuntime) -> io::Result<bool> {
    match options::read_arguments(rt) {
        Asked::Help => {
            rt.print(options::HELP)?;
            Ok(true)
        }
        Asked::Version => {
            rt.println(options::VERSION)?;
            Ok(true)
        }
        Asked::Judge(options) => judge_all(rt, options),
    }
}

// Judges the texts that are named, and says whether each holds.
fn judge_all(rt: &HostRuntime, options: Options) -> io::Result<bool> {
    let mut judging = Judging::new(rt.alloc(), options)?;
    judging.arguments(rt)?;
    if options.list {
        judging.listed(rt)?;
    } else if options.files == 0 && !judging.tally.faulty() {
        judging.named(rt, "-")?;
    }
    let tally = judging.tally;
    if tally.several() {
        eprintln!(rt; "{tally}")?;
    }
    Ok(tally.all_hold())
}
