//! Worked rows of each core and of words, beside what the contracts say of every run; what cores print; lists of moves beside a plain model, written apart
//! from the definitions; and the history that threads wrote in a journal.
#![tactic(auto)]

#[cfg(test)]
mod bench;
#[cfg(test)]
mod beside;
#[cfg(test)]
mod journal;
#[cfg(test)]
mod model;
#[cfg(test)]
mod stories;
#[cfg(test)]
mod values;
pub mod widths;
