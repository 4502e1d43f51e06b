//! Times forms of saa beside primitives of the kit that do the same work, in one run: of `tokio`, `crossbeam_utils` and std.
//!
//! With the argument `measure` it prints seven passes. Each line is a table, a row, a column and how many nanoseconds one turn took;
//! `scripts/write_beside` makes tables of them. With no argument it takes a few turns of each, and prints no time. What is measured here is proved
//! nowhere.
#![tactic(auto)]

mod arrivals;
mod lock_free;
mod rows;
mod threaded;

use crate::rows::print_pass;
use measure_turns::machine::Machine;
use measure_turns::pass::Pass;
use std::{env, io};

// How many passes are measured, and how long each cell, in nanoseconds.
const PASSES: u64 = 7;

const LENGTH: u64 = 40_000_000;

fn main(rt: HostRuntime) -> io::Result<()> {
    match env::args(&rt)?.skip(1).last() {
        Some(word) => print_chosen(&rt, word.as_str()),
        None => print_chosen(&rt, ""),
    }
}

// Prints what a word chooses: all times, that all was taken, or how to run it.
fn print_chosen<R: Machine>(rt: &R, word: &str) -> io::Result<()> {
    if word == "measure" {
        return print_passes(rt);
    }
    if word.is_empty() {
        return print_pass(rt, Pass::without_times());
    }
    println!(rt; "run with: measure, or with no argument")
}

// Prints all passes.
fn print_passes<R: Machine>(rt: &R) -> io::Result<()> {
    for _pass in 0..PASSES {
        print_pass(rt, Pass::of(LENGTH))?;
    }
    Ok(())
}
