//! The program `saa-lab`: explains scripts, explores schedules, and draws both, for people who want to look.
#![tactic(auto)]

mod conditions;
mod draw;
mod explain;
mod explore;
mod forms;
mod line;
mod machine_words;
mod mermaid;
mod opening;
mod options;
mod paint;
mod picture;
mod player;
mod reading;
mod report;
mod scene;
mod script_core;
mod source;
mod trouble;
mod watched;

use crate::options::Terminals;
use std::io::IsTerminal;
use std::process::ExitCode;

fn main(rt: HostRuntime) -> ExitCode {
    let terminals = Terminals {
        out: rt.stdout().is_terminal(),
        errors: rt.stderr().is_terminal(),
    };
    ExitCode::from(options::run(&rt, terminals))
}
