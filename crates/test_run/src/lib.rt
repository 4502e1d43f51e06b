//! Tests of what is below the program `saa-run` and no run of it shows: what its workers do, and that a line is written in one piece.
#![tactic(auto)]

#[cfg(test)]
mod transfers;
#[cfg(test)]
mod workers;
