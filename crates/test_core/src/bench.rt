//! A bench over a core in use: of room 2, a slot that is held outside it leaves one.

ghost use Rattle.std.specs.Prelude.{◌≡◌, length};

use saa_core::Primitive;
use saa_core::semaphore::{SemaphoreAnswer, SemaphoreCall, SemaphoreCore};
use saa_core::ticket::{Error, Full, Ticket};
use saa_core_bench::bench::{Bench, Command, CommandOf, Reply, ReplyOf};
use test_asserts::same;

static COMMANDS: [Command<SemaphoreCore>; 5] = [
    CommandOf::Register(0, 1, true),
    CommandOf::Register(1, 1, false),
    CommandOf::Call(SemaphoreCall::ReleaseMany(1)),
    CommandOf::TryPoll(0),
    CommandOf::Call(SemaphoreCall::ReleaseMany(1)),
];

static REPLIES: [Reply<SemaphoreCore>; 5] = [
    ReplyOf::Registered(Ok(true)),
    ReplyOf::Registered(Err(Full)),
    ReplyOf::Answered(SemaphoreAnswer::Bool(true)),
    ReplyOf::Polled(Err(Error::NotReady)),
    ReplyOf::Answered(SemaphoreAnswer::Bool(true)),
];

// Polls the first pager: whether it is registered before, the reply, and whether it is registered then.
fn poll_first(bench: &mut Bench<SemaphoreCore>) -> (bool, Reply<SemaphoreCore>, bool)
    requires pagers { length bench.old.book ≡ 2 }
{
    let is_registered = bench.is_registered(0);
    let reply = bench.do_one(&CommandOf::PollSync(0));
    (is_registered, reply, bench.is_registered(0))
}

#[test]
fn a_core_in_use_is_run_as_it_is(rt: HostRuntime) {
    let mut core = SemaphoreCore::with_permits(rt.alloc(), 0, 2).expect(&rt, "no memory");
    same!(rt; core.register(&mut Ticket::new(), 1, true), Ok(true));
    let mut bench: Bench<SemaphoreCore> = Bench::new(rt.alloc(), core, 2).expect(&rt, "no memory");
    same!(rt; bench.pagers(), 2);
    let mut out: [Reply<SemaphoreCore>; 5] = [ReplyOf::Dropped; 5];
    bench.run(&COMMANDS, &mut out);
    same!(rt; out, REPLIES);
    same!(rt; poll_first(&mut bench), (true, ReplyOf::Polled(Ok(())), false));
}
