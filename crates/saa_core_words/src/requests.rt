//! What is asked, as a number in a line word, and what such a number asks at each form.

ghost use Rattle.std.specs.Prelude.{◌≡◌, ℕ};
ghost use Rattle.saa_core_spec.specs.declared.request.Request.{Request};
ghost use Rattle.saa_core_spec.specs.Held.{request_number};
ghost use Rattle.saa_core_words.specs.Words.{permits_of, mode_of};

use saa_core_spec::request::Request;

/// The number of what is asked: of permits how many; of a lock 0 alone, 1 shared, and 2 and 3 to hear of these.
pub fn request_number(request: Request) -> u16
    ensures { result ≡ request_number request }
{
    match request {
        Request::Permits(count) => count,
        Request::Shared => 1,
        Request::WaitExclusive => 2,
        Request::WaitShared => 3,
        Request::Exclusive | Request::Enter | Request::Arrive => 0,
    }
}

/// What the numbers in the line words of a form ask.
pub trait Requests {
    // What a number asks.
    ghost read: { ℕ → Request };

    /// What a number asks.
    fn read(number: u16) -> Request
        ensures { result ≡ read number };
}

/// The requests of a semaphore.
#[derive(Drop)]
pub struct ForPermits;

/// The requests of a lock.
#[derive(Drop)]
pub struct ForModes;

impl Requests for ForPermits {
    ghost read = { permits_of };

    /// So many permits.
    fn read(number: u16) -> Request {
        Request::Permits(number)
    }
}

impl Requests for ForModes {
    ghost read = { mode_of };

    /// The mode of a number; from 3 on it is to hear when the lock could be shared.
    fn read(number: u16) -> Request {
        match number {
            0 => Request::Exclusive,
            1 => Request::Shared,
            2 => Request::WaitExclusive,
            _ => Request::WaitShared,
        }
    }
}
