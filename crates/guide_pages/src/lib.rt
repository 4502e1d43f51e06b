//! Programs that the pages of the guide and docs/PROGRAMS.md show or lead to, a module each: a test is the `main` of its page.
//!
//! Each module is a whole program, but for the word `#[test]` above its `main`; `printed/` has what it prints. They stand in one
//! crate because each program takes the gate some 50 processor seconds before its first function: the proofs of what it links.
#![tactic(auto)]

#[cfg(test)]
mod barrier;
#[cfg(test)]
mod desk;
#[cfg(test)]
mod future;
#[cfg(test)]
mod gate;
#[cfg(test)]
mod jobs;
#[cfg(test)]
mod lock;
#[cfg(test)]
mod lock_free;
#[cfg(test)]
mod pager;
#[cfg(test)]
mod phases;
#[cfg(test)]
mod pool;
#[cfg(test)]
mod queue;
#[cfg(test)]
mod seats;
#[cfg(test)]
mod semaphore;
#[cfg(test)]
mod spawned;
#[cfg(test)]
mod stopping;
#[cfg(test)]
mod tasks;
#[cfg(test)]
mod tills;
#[cfg(test)]
mod word_lock;
#[cfg(test)]
mod word_workers;
