//! The kinds of atomic step.

ghost use Rattle.std.specs.Prelude.{◌≡◌};
ghost use Rattle.saa_word.specs.Kinds.{kind_at};

use saa_word_steps::place::Stage;

/// What an atomic step is for.
#[derive(Clone, Copy, Debug, Eq, PartialEq)]
pub enum Kind {
    /// It looks at the main word, or raises its count.
    Ask,
    /// It writes the own line word, before joining.
    Prepare,
    /// It joins the line, by becoming its tail.
    Join,
    /// It looks at the main word to give something back, or lowers its count.
    Release,
    /// It reads or writes a line word, as the one who works on the line.
    Walk,
    /// It makes what was granted known in the main word.
    Publish,
    /// It reads the line word of a place whose answer is due, or writes that answer.
    Show,
    /// It takes the own answer.
    Take,
    /// It looks at the main word to set the flag, or sets it, to cancel.
    Flag,
    /// It reads or writes a line word, as the one who looks for itself in the line and leaves it.
    Unlink,
    /// It leaves the line as its tail, in the main word.
    Tail,
    /// It looks at the main word to poison a lock or to shut a semaphore, or does so.
    Poison,
    /// It makes a poisoned lock free.
    Clear,
}

/// The kind of the step that is made at a stage; `None` where the place is in no call.
pub fn kind_at(stage: Stage) -> Option<Kind>
    ensures { result ≡ kind_at stage }
{
    match stage {
        Stage::Quiet => None,
        Stage::ReadLoad { .. } | Stage::AcquireLoad { .. } | Stage::AcquireExchange { .. } => {
            Some(Kind::Ask)
        }
        Stage::Prepare { .. } => Some(Kind::Prepare),
        Stage::Join { .. } => Some(Kind::Join),
        Stage::ReleaseLoad { .. } | Stage::ReleaseExchange { .. } => Some(Kind::Release),
        Stage::BackLoad { .. }
        | Stage::BackStore { .. }
        | Stage::Forward { .. }
        | Stage::CutToClose { .. }
        | Stage::CutForRetry { .. } => Some(Kind::Walk),
        Stage::Close { .. } | Stage::Empty { .. } | Stage::Retry { .. } => Some(Kind::Publish),
        Stage::ShowLoad { .. } | Stage::ShowStore { .. } => Some(Kind::Show),
        Stage::Take { .. } => Some(Kind::Take),
        Stage::FlagLoad | Stage::FlagExchange { .. } => Some(Kind::Flag),
        Stage::LookLoad { .. } | Stage::LookStore { .. } | Stage::Unlink { .. } => {
            Some(Kind::Unlink)
        }
        Stage::DropTail { .. } => Some(Kind::Tail),
        Stage::PoisonLoad | Stage::PoisonExchange { .. } => Some(Kind::Poison),
        Stage::Clear => Some(Kind::Clear),
    }
}
