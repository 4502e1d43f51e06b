//! Worked rows of values: the bits of words, the numbers of a gate's states and errors, and what a future's progress prints.

use saa_core::future::Progress;
use saa_core::ticket::Full;
use saa_core_spec::gate::{Error, State};
use saa_core_words::answer_word;
use saa_core_words::line_word::LineWord;
use saa_core_words::word::Word;
use std::test::Fail;
use test_asserts::same;

#[test]
fn words_are_their_bits(rt: HostRuntime) {
    let main = Word {
        count: 58,
        is_flagged: true,
        is_poisoned: false,
        tail: 1,
    };
    same!(rt; (main.pack(), Word::unpack(327_738)), (327_738, main));
    let line = LineWord {
        request: 3,
        older: 1,
        newer: 2,
    };
    same!(rt; (line.pack(), LineWord::unpack(0xFFFF_0002_0001_0003)), (0x0002_0001_0003, line));
    for (answer, number) in [(None, 0), (Some(0), 1), (Some(2), 3)] {
        same!(rt; (answer_word::pack(answer), answer_word::unpack(number)), (number, answer));
    }
}

#[test]
fn states_and_errors_have_numbers(rt: HostRuntime) {
    same!(rt; (u8::from(State::Open), State::from(3u8)), (2, State::Open));
    same!(rt; (u8::from(Error::WrongMode), Error::from(5usize)), (20, Error::NotReady));
}

static PROGRESSES: [Progress<Option<u8>>; 5] = [
    Progress::Done(None),
    Progress::Done(Some(200)),
    Progress::Joined,
    Progress::Waits,
    Progress::Refused(Full),
];

#[test]
fn each_progress_prints_its_name(rt: HostRuntime) -> Result<(), Fail> {
    let printed = format!(in rt.alloc(); "{:?}", PROGRESSES)?;
    same!(rt; printed.as_str(), "[Done(None), Done(Some(200)), Joined, Waits, Refused(Full)]");
    Ok(())
}
