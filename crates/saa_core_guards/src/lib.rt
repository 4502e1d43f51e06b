//! Mutexes, reader-writer locks and their guards, once for every lock: a value that a guard shows, and a turn at a lock that ends after it.
//!
//! `raw_lock` says what a lock has to offer. A mutex and a reader-writer lock over any such lock (`guarded`, `mutex`, `rw_lock`), and the futures of
//! their guards (`future`), stand on that, with the turns of `turn_at`. The guard (`guard`), how a value is shown and written through it (`value`), and
//! the downgrade of a writer's guard take any turn (`turn`): the mutexes whose callers have places bring their own.
//!
//! Permits as values, once for every semaphore: `raw_semaphore` says what it has to offer, and over that stand a permit (`permit`), how many it is
//! (`owed`), and the future that waits for one (`permit_future`).
#![tactic(auto)]

pub mod future;
pub mod guard;
pub mod guarded;
pub mod mutex;
mod owed;
pub mod permit;
pub mod permit_future;
pub mod raw_lock;
pub mod raw_semaphore;
pub mod rw_lock;
pub mod turn;
pub mod turn_at;
pub mod value;

pub use guard::Guard;
pub use owed::Owed;
pub use turn::{Lowers, Turn, Witnessed, Writing};
pub use value::{Lowered, ValueMut, ValueRef, ValueReleased};
