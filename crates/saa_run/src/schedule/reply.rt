//! What a schedule's lines are replied.
//!
//! Held to `specs/ScheduleReplies.antt` and `specs/MachineWords.antt`. The words take no memory; how they are written is `saa_run_text`'s.
ghost use Rattle.std.specs.Prelude.{◌≡◌, ◌≤◌, length};
ghost use Rattle.saa_run.specs.LockWords.{try_word};
ghost use Rattle.saa_run.specs.MachineWords.{done_words, kind_word, main_words, mark_word, step_words, taken_word};

use crate::script::reply::{error_text, truth_text};
use itoa::Buffer;
use saa::lock::TryLockError;
use saa::word::machine::{Answer, Kind, Step};
use saa::words::word::Word;
use saa_run_text::reply::{ReplyText, ReplyWords, joined, numbered, word};

/// What a reply says.
#[derive(Clone, Copy)]
pub enum ScheduleReply {
    /// What a move of a machine did, which is a lock or a semaphore.
    Step { is_lock: bool, step: Step },
    /// `at KIND`: the kind of the step that is next.
    At(Kind),
    /// The parts of a main word: the count, the flag, poison and the tail.
    Main(Word),
}

impl ReplyWords for ScheduleReply {
    ghost use Rattle.saa_run.specs.ScheduleReplies.{schedule_words};

    ghost words = { schedule_words };

    fn text(self) -> ReplyText {
        match self {
            ScheduleReply::Step { is_lock, step } => step_text(is_lock, step),
            ScheduleReply::At(kind) => joined("at ", kind_text(kind)),
            ScheduleReply::Main(word) => main_text(word),
        }
    }
}

/// What a move of a lock or of a semaphore did.
fn step_text(is_lock: bool, step: Step) -> ReplyText
    ensures text { result.bytes ≡ step_words is_lock step }
    ensures short { length result.bytes ≤ 63 }
{
    match step {
        Step::Idle => word("idle"),
        Step::Busy => word("busy"),
        Step::Going => word("going"),
        Step::Waits => word("waits"),
        Step::Done(answer) => done_text(is_lock, answer),
    }
}

/// What a call of a machine answers, which is a lock or a semaphore.
fn done_text(is_lock: bool, answer: Answer) -> ReplyText
    ensures text { result.bytes ≡ done_words is_lock answer }
    ensures short { length result.bytes ≤ 63 }
{
    match answer {
        Answer::Bool(truth) => joined("done ", truth_text(truth)),
        Answer::Number(number) => numbered("done ", usize::from(number)),
        Answer::Tried(answer) => joined("done ", try_text(answer)),
        Answer::Taken(Ok(is_granted)) => joined("done ", taken_text(is_lock, is_granted)),
        Answer::Taken(Err(error)) => joined("done ", error_text(error)),
        Answer::Unit => word("done"),
    }
}

/// An answer that is taken, in a word: of a lock or of a semaphore.
fn taken_text(is_lock: bool, is_granted: bool) -> &'static str
    ensures word { result.now ≡ taken_word is_lock is_granted }
    ensures short { length result.now ≤ 6 }
{
    match (is_lock, is_granted) {
        (true, true) => "true",
        (true, false) => "false",
        (false, true) => "ok",
        (false, false) => "closed",
    }
}

/// What a try of a lock answers, in a word.
fn try_text(answer: Result<(), TryLockError>) -> &'static str
    ensures word { result.now ≡ try_word answer }
    ensures short { length result.now ≤ 11 }
{
    match answer {
        Ok(()) => "ok",
        Err(TryLockError::WouldBlock) => "would_block",
        Err(TryLockError::Poisoned) => "poisoned",
    }
}

/// The word of a kind of step.
fn kind_text(kind: Kind) -> &'static str
    ensures word { result.now ≡ kind_word kind }
    ensures short { length result.now ≤ 7 }
{
    match kind {
        Kind::Ask => "ask",
        Kind::Prepare => "prepare",
        Kind::Join => "join",
        Kind::Release => "release",
        Kind::Walk => "walk",
        Kind::Publish => "publish",
        Kind::Show => "show",
        Kind::Take => "take",
        Kind::Flag => "flag",
        Kind::Unlink => "unlink",
        Kind::Tail => "tail",
        Kind::Poison => "poison",
        Kind::Clear => "clear",
    }
}

/// The parts of a main word.
fn main_text(word: Word) -> ReplyText
    ensures text { result.bytes ≡ main_words word }
    ensures short { length result.bytes ≤ 63 }
{
    let mut count = Buffer::new();
    let mut tail = Buffer::new();
    let mut line = ReplyText::new();
    line.push_str(count.format(usize::from(word.count)));
    line.push_str(mark_text(word.is_flagged));
    line.push_str(mark_text(word.is_poisoned));
    line.push_str(" ");
    line.push_str(tail.format(usize::from(word.tail)));
    line
}

/// A mark of a main word, behind a space: 1 where it is set, and else 0.
fn mark_text(is_set: bool) -> &'static str
    ensures word { result.now ≡ mark_word is_set }
    ensures short { length result.now ≤ 2 }
{
    match is_set {
        true => " 1",
        false => " 0",
    }
}
