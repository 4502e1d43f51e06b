//! A pause that is told was made, and lasts: by times that no processor goes below.

use saa_word_threads::testing::{Moment, Pause, Watch};
use std::io;
use std::time::{Clock, Duration, Instant};
use test_asserts::same;

// Nobody looks on.
struct Nobody;

impl Watch for Nobody {
    fn at(&self, _moment: Moment) {}
}

// How long so many pauses of this kind last.
fn duration_of(clock: &impl Clock, pause: Pause, times: u32) -> io::Result<Duration> {
    let began = Instant::now(clock)?;
    for _time in 0..times {
        pause.make(&Nobody);
    }
    began.elapsed(clock)
}

// No processor gives 2 million spin hints in a millisecond, nor yields 20,000 times in half of one. Where the test is optimised, pauses that aren't made take
// no time.
#[test]
fn pauses_last(rt: HostRuntime) -> io::Result<()> {
    let spun = Duration::from_millis(1);
    let yielded = Duration::from_micros(500);
    same!(rt; duration_of(&rt, Pause::Rests(2_000_000), 1)? >= spun, true);
    same!(rt; duration_of(&rt, Pause::SpinsForAnswer, 2_000_000)? >= spun, true);
    same!(rt; duration_of(&rt, Pause::Yields, 20_000)? >= yielded, true);
    same!(rt; duration_of(&rt, Pause::Defers, 20_000)? >= yielded, true);
    same!(rt; duration_of(&rt, Pause::YieldsForAnswer, 20_000)? >= yielded, true);
    Ok(())
}
