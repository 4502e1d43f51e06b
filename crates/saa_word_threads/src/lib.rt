//! The word's semaphore and lock on shared memory: threads that make the word's single steps on a table of atomic words.
//!
//! What a place does next, and how it goes on with what it finds, is `saa_word_steps`', and that each step keeps the refinement is `saa_word_proofs`'. Here
//! stand the table with its rule (`table`), the form that makes steps and calls on it (`form`, `step`, `call`), the two steps of an uncontended call
//! (`straight`, `main_word`, `answers`) and how it goes on where it is contended (`contended`), how the flag's holder walks the queue (`walk`), how a place
//! looks before it joins the waiters (`looking`), joins them (`joining`), looks for itself to leave them (`cancelling`), waits (`waiting`), while it may
//! (`limit`), is woken (`written`, `mark`) and takes its answer (`taking`), polls in time (`timed`) and for a task (`tasks`, `wakers`), a caller with no place
//! (`visitor`, `visit`), and the public semaphore and lock. `laws` says what follows for several places. `docs/PROTOCOL.md` tells the protocol.
#![tactic(auto)]

mod answers;
mod call;
mod cancelling;
mod contended;
mod form;
mod joining;
pub mod laws;
mod limit;
pub mod lock;
mod lock_visits;
mod looking;
mod main_word;
mod mark;
mod open;
pub mod place;
pub mod receipt;
pub mod semaphore;
mod semaphore_visits;
mod step;
mod straight;
mod table;
mod taking;
mod tasks;
pub mod testing;
mod timed;
mod visit;
pub mod visitor;
mod waiting;
mod wakers;
mod walk;
mod watch;
pub mod words;
mod written;
