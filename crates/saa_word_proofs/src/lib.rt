//! What is proved of the word's single steps, each law as the contract of a function that does nothing.
//!
//! `refinement`: each step keeps that words, places and abstract state stand together. `waiting`: what a step that waits has seen.
//! `step_bounds`: how many steps a call has left at most. `conservation`: no permit is lost or made. `order`: every history is FIFO.
//! `turns`: turns at what is asked for whole never overlap. `solo`: a call that moves while no other does answers and leaves what the sequential
//! specification does.
#![tactic(auto)]

pub mod conservation;
pub mod order;
pub mod refinement;
pub mod solo;
pub mod step_bounds;
pub mod turns;
pub mod waiting;
