//! Two futures, one after the other, as one.

ghost use Rattle.std.specs.Prelude.{◌≡◌, Some, IfSome, MatchOption};

use futures::task::{Context, Poll};
use futures::{Future, ready};

/// Waits as `first` says, and then, where that told to go on, as `second` says.
///
/// Both are made before either is polled: a future of a form asks for nothing before its first poll.
#[derive(Drop)]
pub struct Steps<A, B> {
    first: Option<A>,
    second: B,
}

impl<A, B> Steps<A, B> {
    /// The second after the first.
    pub fn new(first: A, second: B) -> Self
        ensures { result ≡ record { first = Some first; second = second } }
    {
        Steps {
            first: Some(first),
            second,
        }
    }
}

impl<A: Future<Output = bool>, B: Future<Output = ()>> Future for Steps<A, B> {
    type Output = ();

    ghost can_poll = { λ steps. IfSome steps.first A.can_poll × B.can_poll steps.second };

    ghost needs = { λ steps source. MatchOption steps.first (B.needs steps.second source) (λ first. A.needs first source) };

    fn poll(&mut self, cx: &mut Context<'_>) -> Poll<()> {
        if let Some(first) = &mut self.first {
            let goes_on = ready!(first.poll(cx));
            self.first = None;
            if !goes_on {
                return Poll::Ready(());
            }
        }
        self.second.poll(cx)
    }
}
