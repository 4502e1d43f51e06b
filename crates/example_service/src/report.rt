//! What became of all jobs.

ghost use Rattle.std.specs.Prelude.{◌≡◌, ◌+◌, IsTrue};

/// What a client is told of a job that it offered.
#[derive(Clone, Copy, PartialEq)]
pub enum Answer {
    /// It will be done, or handed back as the service stops.
    Accepted,
    /// There was no room for it for as long as the client would wait.
    Refused,
    /// The service has stopped.
    Stopped,
}

/// What became of all jobs: how many, and the sums of their numbers.
#[derive(Clone, Copy, Debug, Default, Drop, PartialEq)]
pub struct Report {
    pub offered: u64,
    pub accepted: u64,
    pub accepted_sum: u64,
    pub refused: u64,
    pub stopped: u64,
    pub done: u64,
    pub done_sum: u64,
    pub drained: u64,
    pub drained_sum: u64,
    /// Whether no job has a place in the service any more.
    pub is_empty: bool,
}

impl Report {
    /// Counts an offer, and what its client was told.
    pub fn count_offer(&mut self, number: u64, answer: Answer) {
        self.offered = self.offered.saturating_add(1);
        match answer {
            Answer::Accepted => {
                self.accepted = self.accepted.saturating_add(1);
                self.accepted_sum = self.accepted_sum.saturating_add(number);
            }
            Answer::Refused => self.refused = self.refused.saturating_add(1),
            Answer::Stopped => self.stopped = self.stopped.saturating_add(1),
        }
    }

    /// Counts a job that was taken out of the queue of a service that was stopped.
    pub fn count_drained(&mut self, number: u64) {
        self.drained = self.drained.saturating_add(1);
        self.drained_sum = self.drained_sum.saturating_add(number);
    }

    /// Whether each offer had one answer, and each accepted job was done or drained, once, and left its place.
    pub fn adds_up(&self) -> bool
        ensures answers { IsTrue result → self.now.accepted + self.now.refused + self.now.stopped ≡ self.now.offered }
        ensures jobs { IsTrue result → self.now.done + self.now.drained ≡ self.now.accepted }
        ensures sums { IsTrue result → self.now.done_sum + self.now.drained_sum ≡ self.now.accepted_sum }
        ensures empty { IsTrue result → IsTrue self.now.is_empty }
    {
        is_sum(self.accepted, self.refused, self.stopped, self.offered)
            && is_sum(self.done, self.drained, 0, self.accepted)
            && is_sum(self.done_sum, self.drained_sum, 0, self.accepted_sum)
            && self.is_empty
    }
}

// Whether three numbers make this sum.
fn is_sum(first: u64, second: u64, third: u64, sum: u64) -> bool
    ensures { IsTrue result → first + second + third ≡ sum }
{
    match first.checked_add(second) {
        Some(two) => two.checked_add(third) == Some(sum),
        None => false,
    }
}
