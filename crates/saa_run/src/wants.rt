//! What the program is asked to do.

/// What the program's arguments ask for.
#[derive(Clone, Copy, PartialEq)]
pub enum Wanted {
    /// `script`: to run a script.
    Script,
    /// `machine`: to run schedules of the word machine.
    Machine,
    /// `threads N`: to run so many threads.
    Threads(u8),
    /// Anything else: to be told how the program is used.
    Usage,
}
