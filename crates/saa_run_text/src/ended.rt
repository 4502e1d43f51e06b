//! How a run of a script ends.

/// How a run ended that had its memory.
#[derive(Clone, Copy, Debug)]
pub enum Ended {
    /// The input was read to its end, and each line was answered.
    Done,
    /// A bad line was met and told.
    BadLine,
    /// A read failed.
    ReadFailed,
    /// A write failed, or took no byte.
    WriteFailed,
    /// There were more lines than can be counted.
    Endless,
}
