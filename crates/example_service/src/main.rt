//! A service that does queued jobs, and is stopped: `example_service N [MILLISECONDS]`, N from 1 to 16 workers, and how long each job takes, 0 to 1000.
#![tactic(auto)]

mod report;
mod serve;
mod service;

use crate::report::Report;
use crate::serve::{Plan, serve};
use anyhow::{Result, ensure};
use std::io::IsTerminal;
use std::time::Duration;
use std::{env, io};

fn main(rt: HostRuntime) -> Result<()> {
    let mut words = [None, Some(0)];
    for (place, word) in words.iter_mut().zip(env::args(&rt)?.skip(1)) {
        *place = word.as_str().parse::<u16>().ok();
    }
    match words {
        [Some(workers @ 1..=16), Some(length @ 0..=1000)] => {
            let plan = Plan {
                workers,
                length: Duration::from_millis(u64::from(length)),
                shows_progress: rt.stdout().is_terminal(),
            };
            let report = serve(&rt, rt.alloc(), plan)?;
            ensure!(report.adds_up(), "the numbers don't add up: {report:?}");
            print_report(&rt, &report)?;
        }
        _ => println!(rt;
            "usage: example_service N [MILLISECONDS], with N from 1 to 16, and 0 to 1000"
        )?,
    }
    Ok(())
}

// Prints what became of the jobs.
fn print_report(rt: &impl Print, report: &Report) -> io::Result<()> {
    println!(rt;
        "{} jobs were offered: {} accepted, {} refused in time, and {} after the stop",
        report.offered, report.accepted, report.refused, report.stopped
    )?;
    println!(rt;
        "{} of those accepted were done, and {} left in the queue at the stop",
        report.done, report.drained
    )?;
    println!(rt; "no job was lost, and none was done twice")
}
