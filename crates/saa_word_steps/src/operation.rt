//! Which one operation on which word a place is about to make.

ghost use Rattle.std.specs.Prelude.{◌^◌, ◌≡◌, ◌<◌};
ghost use Rattle.saa_word_steps.specs.declared.operation.Operation.TheVariants.{Store};
ghost use Rattle.saa_word_steps.specs.Steps.{operation_of, exchanged, flagged_word, dropped_word, released, settled_word, IsRanged, IsSmall};
ghost use Rattle.saa_word_steps.specs.Needs.{needs_of};
ghost use Rattle.saa_word_steps.specs.Readings.{poisoned_word, refusing_word};
ghost use Rattle.saa_core_words.specs.Words.{count_bits, line_number};

use crate::place::{ReleaseAmount, Stage};
use crate::rules::Rules;
use saa_core_words::answer_word;
use saa_core_words::line_word::LineWord;
use saa_core_words::word::Word;

/// What a place does to the word at an index, in one step; it finds the number that stood there.
///
/// Index 0 is the main word; the line word of a place stands at its link, and its answer word as many behind that as there are
/// places.
#[derive(Clone, Copy, Debug, Eq, PartialEq)]
pub enum Operation {
    /// Leaves it.
    Load { index: usize },
    /// Writes `new` where it is `old`, and else leaves it.
    Exchange { index: usize, old: u64, new: u64 },
    /// Adds a number, modulo 2 to the 64.
    Add { index: usize, number: u64 },
    /// Writes a number. It has no use for what it finds.
    Store { index: usize, number: u64 },
    /// Writes a number.
    Swap { index: usize, number: u64 },
}

impl Stage {
    /// The operation that the place of this number makes at the stage, out of so many places. A visitor has no words of its own, and may have any number.
    pub fn operation(self, rules: Rules, places: u16, me: u16) -> Operation
        requires within { me < 65535 }
        requires wide { (needs_of rules).top < 2 ^ count_bits }
        requires ranged { IsRanged (needs_of rules) self }
        ensures { result ≡ operation_of (needs_of rules) places me self }
    {
        let main = Operation::Load { index: 0 };
        match self {
            Stage::Quiet
            | Stage::ReadLoad { .. }
            | Stage::AcquireLoad { .. }
            | Stage::ReleaseLoad { .. }
            | Stage::FlagLoad
            | Stage::PoisonLoad => main,
            Stage::AcquireExchange { ask, seen } => {
                let count = rules.plus(seen.count, ask.request);
                exchange(seen, Word { count, ..seen })
            }
            Stage::Prepare { request, seen } => {
                let line = LineWord {
                    request,
                    older: seen.tail,
                    newer: 0,
                };
                store(me + 1, line)
            }
            Stage::Join { seen, .. } => exchange(
                seen,
                Word {
                    tail: me + 1,
                    ..seen
                },
            ),
            Stage::ReleaseExchange { given, seen } => exchange(seen, released(rules, seen, given)),
            Stage::BackLoad { current, .. }
            | Stage::Forward { current, .. }
            | Stage::ShowLoad { current, .. }
            | Stage::LookLoad { current, .. } => Operation::Load {
                index: usize::from(current),
            },
            Stage::BackStore {
                current,
                newer,
                line,
                ..
            }
            | Stage::LookStore {
                current,
                newer,
                line,
                ..
            } => store(current, LineWord { newer, ..line }),
            Stage::CutToClose { current, line, .. } | Stage::CutForRetry { current, line, .. } => {
                store(current, LineWord { older: 0, ..line })
            }
            Stage::Close { seen, count, .. } => exchange(seen, settled(count, seen.tail)),
            Stage::Empty { seen, count, .. } => exchange(seen, settled(count, 0)),
            // Why this order: what was granted is added, and the count isn't written back; written back, it would undo each release in place
            // since the walk.
            Stage::Retry { seen, count, .. } => Operation::Add {
                index: 0,
                number: u64::from(count.saturating_sub(seen.count)),
            },
            Stage::ShowStore { current, value, .. } => Operation::Store {
                index: usize::from(places) + usize::from(current),
                number: u64::from(answer_word::pack(Some(value))),
            },
            Stage::Take { .. } => Operation::Swap {
                index: usize::from(places) + usize::from(me) + 1,
                number: 0,
            },
            Stage::FlagExchange { seen } => exchange(seen, flagged(seen)),
            Stage::Unlink {
                newer,
                line,
                older,
                ..
            } => store(newer, LineWord { older, ..line }),
            Stage::DropTail { seen, older } => exchange(seen, dropped(seen, older)),
            Stage::PoisonExchange { seen } => exchange(seen, refusing(rules, seen)),
            Stage::Clear => exchange(poisoned(), settled(0, 0)),
        }
    }
}

// An exchange of the main word.
fn exchange(seen: Word, new: Word) -> Operation
    requires seen { IsSmall seen }
    requires new { IsSmall new }
    ensures { result ≡ exchanged seen new }
{
    Operation::Exchange {
        index: 0,
        old: seen.pack(),
        new: new.pack(),
    }
}

// A store of the line word at a link.
fn store(link: u16, line: LineWord) -> Operation
    ensures { result ≡ Store link (line_number line) }
{
    Operation::Store {
        index: usize::from(link),
        number: line.pack(),
    }
}

/// The main word once something is given back, where that is held.
pub(crate) fn released(rules: Rules, seen: Word, given: ReleaseAmount) -> Word
    requires { IsSmall seen }
    ensures released { result ≡ released (needs_of rules) seen given }
    ensures small { IsSmall result }
{
    let count = match rules.left(seen.count, given) {
        Some(left) => left,
        None => seen.count,
    };
    Word {
        count,
        is_flagged: seen.is_flagged || seen.tail != 0,
        is_poisoned: seen.is_poisoned,
        tail: seen.tail,
    }
}

/// The main word with the flag set.
pub(crate) fn flagged(seen: Word) -> Word
    ensures { result ≡ flagged_word seen }
{
    Word {
        is_flagged: true,
        ..seen
    }
}

/// The main word once its tail has left the line.
pub(crate) fn dropped(seen: Word, older: u16) -> Word
    ensures { result ≡ dropped_word seen older }
{
    Word {
        tail: older,
        is_flagged: older != 0,
        ..seen
    }
}

/// The main word of a poisoned lock.
pub(crate) fn poisoned() -> Word
    ensures { result ≡ poisoned_word }
{
    Word {
        count: 0,
        is_flagged: false,
        is_poisoned: true,
        tail: 0,
    }
}

// The main word once the lock is poisoned, or the semaphore shut: nobody waits any more.
fn refusing(rules: Rules, seen: Word) -> Word
    requires { IsSmall seen }
    ensures refusing { result ≡ refusing_word (needs_of rules) seen }
    ensures small { IsSmall result }
{
    Word {
        count: rules.kept(seen.count),
        ..poisoned()
    }
}

// The main word of a line that is settled.
fn settled(count: u16, tail: u16) -> Word
    ensures { result ≡ settled_word count tail }
{
    Word {
        count,
        is_flagged: false,
        is_poisoned: false,
        tail,
    }
}
