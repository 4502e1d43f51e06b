//! The command line: which command, which file, how it is written; and the status of the program.

use crate::draw::{Drawing, draw};
use crate::explain::explain;
use crate::explore::{Ended, Progress, Wish, explore};
use crate::paint::Look;
use crate::source::Source;
use crate::trouble::{Fault, Trouble};
use clap::{Arg, ArgAction, ArgMatches, Command, value_parser};
use std::alloc::{AllocError, Global};
use std::io::{self, BufReader, BufWriter, Write};
use std::rt::Runtime;
use std::{env, fs};

/// How many states are kept, where no other bound is named.
const MOST_STATES: usize = 2_000_000;

/// Which outputs are terminals.
#[derive(Clone, Copy)]
pub struct Terminals {
    /// Whether standard output is one.
    pub out: bool,
    /// Whether standard error is one.
    pub errors: bool,
}

/// Does what the arguments ask for, and answers the status of the program.
pub fn run<R: Runtime + AllocGlobal>(rt: &R, terminals: Terminals) -> u8 {
    match asked(rt, terminals) {
        Ok(status) => status,
        Err(trouble) => told(rt, trouble),
    }
}

/// The program's command line.
fn command<'a>(alloc: Global) -> Result<Command<'a>, AllocError> {
    Command::new(alloc, "saa-lab")
        .about("Explains scripts of saa, explores what a few calls can come to, and draws both")
        .after_help(
            "Statuses: 0 done; 1 no schedule leads to the condition; 2 a bad line, condition or argument; 3 no memory; 4 a read or a write failed; 5 states were left out",
        )
        .subcommand_required(true)
        .subcommand(explain_command(alloc)?)?
        .subcommand(explore_command(alloc)?)?
        .subcommand(draw_command(alloc)?)
}

fn explain_command<'a>(alloc: Global) -> Result<Command<'a>, AllocError> {
    Command::new(alloc, "explain")
        .about("Shows each line of a script with its reply and the state after it")
        .arg(file(alloc))?
        .arg(json(alloc))
}

fn explore_command<'a>(alloc: Global) -> Result<Command<'a>, AllocError> {
    let states = Arg::new(alloc, "states")
        .long("states")
        .value_name("N")
        .value_parser(value_parser!(u32))
        .default_value("2000000")
        .help("Keeps at most so many states");
    let schedules = Arg::new(alloc, "schedules")
        .long("schedules")
        .action(ArgAction::SetTrue)
        .help("Shows the shortest schedule to each outcome");
    Command::new(alloc, "explore")
        .about(
            "Makes every interleaving of a few calls at a form in words, and shows what they come to",
        )
        .arg(file(alloc))?
        .arg(until(alloc))?
        .arg(states)?
        .arg(schedules)?
        .arg(json(alloc))
}

fn draw_command<'a>(alloc: Global) -> Result<Command<'a>, AllocError> {
    let mermaid = Arg::new(alloc, "mermaid")
        .long("mermaid")
        .action(ArgAction::SetTrue)
        .help("Writes text that Mermaid draws, in place of SVG");
    Command::new(alloc, "draw")
        .about("Draws a script or a schedule as a picture, SVG or Mermaid")
        .arg(file(alloc))?
        .arg(until(alloc))?
        .arg(mermaid)
}

fn file<'a>(alloc: Global) -> Arg<'a> {
    Arg::new(alloc, "FILE").help("What is read; standard input where none is named")
}

fn json<'a>(alloc: Global) -> Arg<'a> {
    Arg::new(alloc, "json")
        .long("json")
        .action(ArgAction::SetTrue)
        .help("Writes JSON, for programs to read")
}

fn until<'a>(alloc: Global) -> Arg<'a> {
    Arg::new(alloc, "until")
        .long("until")
        .value_name("CONDITION")
        .help("Seeks the shortest schedule to a state that meets this, as `waits 0 and free 5`")
}

fn asked<R: Runtime + AllocGlobal>(rt: &R, terminals: Terminals) -> Result<u8, Trouble> {
    let alloc = rt.alloc();
    let mut words: Vec<String> = env::args(rt)?.collect(alloc)?;
    // (what the help calls it, whatever the file is called)
    if let Some(own) = words.get_mut(0) {
        *own = String::from_str(alloc, "saa-lab")?;
    }
    let command = command(alloc)?;
    let matches = match command.try_get_matches_from(words.as_slice()) {
        Ok(matches) => matches,
        Err(error) => {
            error.print(rt)?;
            return Ok(error.exit_code() as u8);
        }
    };
    match matches.subcommand() {
        Some(("explain", found)) => explained(rt, terminals, found),
        Some(("explore", found)) => explored(rt, terminals, found),
        Some(("draw", found)) => drawn(rt, terminals, found),
        _ => Ok(2),
    }
}

fn look<R: Runtime + AllocGlobal>(rt: &R, terminals: Terminals, found: &ArgMatches<'_>) -> Look {
    let is_plain = env::var(rt, "NO_COLOR").is_ok_and(|value| !value.is_empty());
    let is_json = found.get_flag("json");
    Look {
        is_json,
        is_coloured: !is_json && !is_plain && terminals.out,
    }
}

/// A file that is to be read.
fn opened<R: Runtime + AllocGlobal>(rt: &R, path: &str) -> Result<R::File, Trouble> {
    match fs::open(rt, path) {
        Ok(file) => Ok(file),
        Err(error) => Err(Trouble::Unopened(String::from_str(rt.alloc(), path)?, error)),
    }
}

fn explained<R: Runtime + AllocGlobal>(
    rt: &R,
    terminals: Terminals,
    found: &ArgMatches<'_>,
) -> Result<u8, Trouble> {
    let alloc = rt.alloc();
    let look = look(rt, terminals, found);
    let mut writer = BufWriter::new(alloc, io::writer(rt))?;
    match found.get_str("FILE") {
        None => {
            let mut source = Source::new(alloc, BufReader::new(alloc, rt.reader())?);
            explain(alloc, &mut source, &mut writer, look)?;
        }
        Some(path) => {
            let mut source = Source::new(alloc, BufReader::new(alloc, opened(rt, path)?)?);
            explain(alloc, &mut source, &mut writer, look)?;
        }
    }
    writer.flush()?;
    Ok(0)
}

fn explored<R: Runtime + AllocGlobal>(
    rt: &R,
    terminals: Terminals,
    found: &ArgMatches<'_>,
) -> Result<u8, Trouble> {
    let alloc = rt.alloc();
    let look = look(rt, terminals, found);
    let mut writer = BufWriter::new(alloc, io::writer(rt))?;
    let progress = Progress {
        to: rt,
        is_shown: terminals.errors,
    };
    let wish = Wish {
        until: found.get_str("until"),
        bound: found
            .get_one::<u32>("states")
            .map_or(MOST_STATES, |states| states as usize),
        shows_schedules: found.get_flag("schedules"),
    };
    let ended = match found.get_str("FILE") {
        None => {
            let mut source = Source::new(alloc, BufReader::new(alloc, rt.reader())?);
            explore(alloc, &mut source, &mut writer, &progress, look, wish)?
        }
        Some(path) => {
            let mut source = Source::new(alloc, BufReader::new(alloc, opened(rt, path)?)?);
            explore(alloc, &mut source, &mut writer, &progress, look, wish)?
        }
    };
    writer.flush()?;
    Ok(status_of(ended))
}

/// The status that says how an exploration ended.
fn status_of(ended: Ended) -> u8 {
    match ended {
        Ended::Done => 0,
        Ended::NotFound => 1,
        Ended::Cut => 5,
    }
}

fn drawn<R: Runtime + AllocGlobal>(
    rt: &R,
    terminals: Terminals,
    found: &ArgMatches<'_>,
) -> Result<u8, Trouble> {
    let alloc = rt.alloc();
    let mut writer = BufWriter::new(alloc, io::writer(rt))?;
    let progress = Progress {
        to: rt,
        is_shown: terminals.errors,
    };
    let drawing = Drawing {
        until: found.get_str("until"),
        bound: MOST_STATES,
        is_mermaid: found.get_flag("mermaid"),
    };
    let ended = match found.get_str("FILE") {
        None => {
            let mut source = Source::new(alloc, BufReader::new(alloc, rt.reader())?);
            draw(alloc, &mut source, &mut writer, &progress, drawing)?
        }
        Some(path) => {
            let mut source = Source::new(alloc, BufReader::new(alloc, opened(rt, path)?)?);
            draw(alloc, &mut source, &mut writer, &progress, drawing)?
        }
    };
    writer.flush()?;
    match ended {
        Ended::Done => {}
        Ended::NotFound => eprintln!(rt; "saa-lab: no schedule leads to the condition")?,
        Ended::Cut => eprintln!(rt; "saa-lab: too many states: some were left out")?,
    }
    Ok(status_of(ended))
}

/// Says on standard error why a run ended early, and answers the status.
fn told<R: Runtime + AllocGlobal>(rt: &R, trouble: Trouble) -> u8 {
    match trouble {
        Trouble::Bad(fault) => {
            let _ = tell_fault(rt, &fault);
            2
        }
        Trouble::NoMemory => {
            let _ = eprintln!(rt; "saa-lab: no memory");
            3
        }
        Trouble::Unopened(path, error) => {
            let _ = eprintln!(rt; "saa-lab: {path}: {error}");
            4
        }
        Trouble::Failed(error) => {
            let _ = eprintln!(rt; "saa-lab: {error}");
            4
        }
        Trouble::Closed => 0,
    }
}

/// Says where a line is bad and why, and shows it with a mark below that column.
fn tell_fault<R: Runtime + AllocGlobal>(rt: &R, fault: &Fault) -> io::Result<()> {
    let column = fault.column;
    let what = fault.what.as_str();
    match fault.line {
        0 => eprintln!(rt; "saa-lab: in the condition, column {column}: {what}")?,
        line => eprintln!(rt; "saa-lab: line {line}, column {column}: {what}")?,
    }
    if fault.text.is_empty() {
        return Ok(());
    }
    let text = fault.text.as_str();
    eprintln!(rt; "    {text}")?;
    let alloc = rt.alloc();
    let mut mark = String::new(alloc);
    for c in text.chars().take(column.saturating_sub(1)) {
        mark.push(if c == '\t' { c } else { ' ' })?;
    }
    eprintln!(rt; "    {mark}^")
}
