//! What workers counted, as it is written.
ghost use Rattle.std.specs.Prelude.{◌≡◌, ◌≤◌, length};
ghost use Rattle.saa_run.specs.Counts.{counted_line, counts_text};

use arrayvec::ArrayString;
use itoa::Buffer;
use saa_run_workers::workers::Counts;

/// Three counts, each on a line of its own.
pub type CountsText = ArrayString<128>;

/// A count on a line of its own behind its name.
#[tactic(auto, unfolding(crate::specs::Counts::counted_line))]
fn line(name: &str, count: usize) -> ArrayString<64>
    requires { length name.now ≤ 10 }
    ensures text { result.bytes ≡ counted_line name.now count }
    ensures short { length result.bytes ≤ 31 }
{
    let mut digits = Buffer::new();
    let mut line = ArrayString::new();
    line.push_str(name);
    line.push_str(digits.format(count));
    line.push_str("\n");
    line
}

/// The counts, each on a line of its own behind its name.
pub fn written(counts: Counts) -> CountsText
    ensures { result.bytes ≡ counts_text counts.leaders counts.available counts.journal }
{
    let leaders = line("leaders ", counts.leaders);
    let available = line("available ", counts.available);
    let journal = line("journal ", counts.journal);
    let mut text = CountsText::new();
    text.push_str(leaders.as_str());
    text.push_str(available.as_str());
    text.push_str(journal.as_str());
    text
}
