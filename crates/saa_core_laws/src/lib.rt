//! Laws of the sequential object, which its callers may rely on.
//!
//! They are about the definitions alone, and no code of the cores occurs here: each is the contract of a function that
//! does nothing. `proofs/Rows.antt` has worked stories, which hold by computation.
#![tactic(auto)]

pub mod laws;
pub mod runs;
