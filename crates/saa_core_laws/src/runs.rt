//! The laws of whole runs, as the contract of one function.
//!
//! They are what users may conclude from any list of commands on a newly made primitive, with any number of names.
//! `specs/WholeRuns.antt` states them; the functions of `laws` have each of them apart.

ghost use Rattle.saa_core_laws.specs.WholeRuns.{GrantsInOrder, NobodyWaitsForNothing, PermitsConserved, RegistrationsAnsweredOnce, LeadersCounted};

/// Does nothing: its contract is the laws of every run from a newly made primitive.
///
/// `order`: no waiter of a semaphore or a lock is granted while an older one waits. `nothing`: nobody waits at a semaphore
/// with nothing out or that is shut, at a lock that is free or poisoned, or at a gate that isn't controlled. `conserved`: what is out and
/// what was given back are what was withheld at first and what was granted, drops counted too. `once`: a registration is
/// answered at most once, and its answer consumed at most once. `leaders`: a barrier names one leader for each full round
/// of arrivals, not counting those that were dropped while they waited.
pub fn laws()
    ensures order { GrantsInOrder }
    ensures nothing { NobodyWaitsForNothing }
    ensures conserved { PermitsConserved }
    ensures once { RegistrationsAnsweredOnce }
    ensures leaders { LeadersCounted }
{}
