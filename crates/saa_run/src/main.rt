//! The program `saa-run`: reads a script of one primitive, or a schedule of a machine, and answers its lines; or runs workers on
//! threads of their own.
//!
//! The top floor. `run` does what the arguments ask for: it runs the language of `script` or of `schedule`, over any reader and
//! writer, by the engine in `saa_run_text`, or the workers of `saa_run_workers`, whose counts `counts` writes.
//! `docs/LANGUAGES.md` has the languages.
#![tactic(auto)]

mod arguments;
mod counts;
mod run;
mod schedule;
mod script;
mod wants;
mod words;

use crate::arguments::BehindName;
use crate::run::Wanted;
use arrayvec::ArrayVec;
use saa_run_text::run::no_memory;
use std::alloc::Global;
use std::env::{self, Env};
use std::io::{self, BufReader, ErrorKind, Read, Write};
use std::process::ExitCode;
use std::sync::Wait;
use std::thread::Threads;

// How many arguments are kept: no wish has so many, so it doesn't matter what those behind them are.
const KEPT: usize = 3;

/// What the arguments ask for; nothing where memory for them was refused.
///
/// An argument that is no text is like any other unknown word. The name that the program was called by
/// is none, and isn't read. Only reading them takes memory, and none is asked for anew.
fn asked<E: Env>(environment: &E, alloc: Global) -> Option<Wanted> {
    match env::args(&(BehindName(environment), alloc)) {
        Err(error) => match error.kind() {
            ErrorKind::OutOfMemory => None,
            _ => Some(Wanted::Usage),
        },
        Ok(args) => {
            let mut words = ArrayVec::<String, KEPT, Global>::new_in(alloc);
            for word in args {
                let _unkept = words.try_push(word);
            }
            Some(run::wanted(words.as_slice()))
        }
    }
}

/// Runs a script, where its input was opened.
fn run_script<T: Read + Drop, E: Drop, W: Write>(
    alloc: Global,
    input: Result<T, E>,
    writer: &mut W,
) -> u8 {
    match input {
        Ok(mut reader) => run::script(alloc, &mut reader, writer),
        Err(_) => no_memory(writer),
    }
}

/// Runs a schedule, where its input was opened.
fn run_machine<T: Read + Drop, E: Drop, W: Write>(
    alloc: Global,
    input: Result<T, E>,
    writer: &mut W,
) -> u8 {
    match input {
        Ok(mut reader) => run::machine(alloc, &mut reader, writer),
        Err(_) => no_memory(writer),
    }
}

/// Does what is wanted, and answers the status; its input is opened only where it is read.
fn answer<R, T, E, F, W>(rt: &R, alloc: Global, wanted: Wanted, input: F, writer: &mut W) -> u8
where
    R: Threads + Wait + Sync,
    T: Read + Drop,
    E: Drop,
    F: FnOnce() -> Result<T, E> + Drop,
    W: Write,
    requires { F.pre input }
{
    match wanted {
        Wanted::Script => run_script(alloc, input(), writer),
        Wanted::Machine => run_machine(alloc, input(), writer),
        Wanted::Threads(count @ 1..=32) => run::threads(rt, alloc, count, writer),
        Wanted::Threads(_) | Wanted::Usage => run::usage(writer),
    }
}

fn main(rt: HostRuntime) -> ExitCode {
    let mut writer = io::writer(&rt);
    let status = match asked(&rt, rt.alloc()) {
        None => no_memory(&mut writer),
        Some(wanted) => {
            let input = || BufReader::new(rt.alloc(), rt.reader());
            answer(&rt, rt.alloc(), wanted, input, &mut writer)
        }
    };
    ExitCode::from(status)
}
