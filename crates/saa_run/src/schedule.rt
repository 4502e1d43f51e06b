//! The lines of a schedule, spoken to a machine: moves of its places, one after another.
//!
//! Held to `specs/Scheduled.antt`.
pub mod calls;
pub mod lines;
pub mod reply;

ghost use Rattle.std.specs.Prelude.{◌≡◌, ◌<◌, IfOk, length};
ghost use Rattle.saa_word.specs.Machine.{is_lock};
ghost use Rattle.saa_run.specs.declared.schedule.reply.ScheduleReply.TheVariants.{Step as Did};
ghost use Rattle.saa_run.specs.Schedules.{IsLineOf};
ghost use Rattle.saa_run.specs.Scheduled.{ended, goes_on, is_at, line_said, machine_of, most_steps, until_at};

use crate::schedule::lines::{
    FirstOfSchedule, ScheduleLine, parse_first_of_schedule, parse_schedule,
};
use crate::schedule::reply::ScheduleReply;
use saa::word::machine::{Kind, Machine, Move, Step, WordCall};
use saa::words::word::Word;
use saa_run_text::ended::Ended;
use saa_run_text::header::Header;
use saa_run_text::steps::{Session, run_lines};
use std::alloc::{AllocError, Global};
use std::io::{Read, Write};

// How many steps a line makes at most.
const MOST_STEPS: u16 = 1000;

/// A machine that the lines of a schedule reply_to to.
#[derive(Drop)]
pub struct Schedule {
    machine: Machine,
}

impl Header for FirstOfSchedule {
    ghost use Rattle.saa_run.specs.Schedules.{first_schedule_of};
    ghost use Rattle.saa_run.specs.Scheduled.{behind_schedule};
    ghost use Rattle.saa_run.specs.ScheduleLaws.{behind-nothing, first-empty, first-long};

    ghost reads = { first_schedule_of };

    ghost behind = { behind_schedule };

    ghost too_long = { first-long };

    ghost not_empty = { first-empty };

    ghost at_end = { behind-nothing };

    fn parse(line: &[u8]) -> Option<FirstOfSchedule> {
        parse_first_of_schedule(line)
    }

    fn open<R: Read, W: Write>(
        self,
        alloc: Global,
        reader: &mut R,
        writer: &mut W,
    ) -> Result<Ended, AllocError> {
        match made(self, alloc) {
            Ok(machine) => Ok(run_lines(&mut Schedule { machine }, reader, writer)),
            Err(refused) => Err(refused),
        }
    }
}

// Makes the machine that a first line says.
fn made(first: FirstOfSchedule, alloc: Global) -> Result<Machine, AllocError>
    ensures { IfOk result (λ machine. machine ≡ machine_of first) }
{
    match first {
        FirstOfSchedule::Semaphore { withheld, places } => {
            Machine::semaphore(alloc, withheld, places)
        }
        FirstOfSchedule::Bounded {
            bound,
            withheld,
            places,
        } => Machine::semaphore_of(alloc, bound.get(), withheld, places),
        FirstOfSchedule::Lock { places } => Machine::lock(alloc, places),
    }
}

impl Schedule {
    // Does what a line says.
    fn say(&mut self, line: ScheduleLine) -> ScheduleReply
        requires { IsLineOf (is_lock self.old.machine) (length self.old.machine.places) line }
        ensures said { result ≡ (line_said self.old.machine line).said }
        ensures machine { self.new.machine ≡ (line_said self.old.machine line).machine }
    {
        match line {
            ScheduleLine::Start(place, call) => {
                let step = self.machine.go(Move::Start(place, call));
                did(&self.machine, step)
            }
            ScheduleLine::Go(place) => {
                let step = self.machine.go(Move::Go(place));
                did(&self.machine, step)
            }
            ScheduleLine::End(place) => {
                let step = end(&mut self.machine, place);
                did(&self.machine, step)
            }
            ScheduleLine::Until(place, kind) => until(&mut self.machine, place, kind),
            ScheduleLine::Word => ScheduleReply::Main(Word::unpack(self.machine.word())),
        }
    }
}

impl Session for Schedule {
    type Reply = ScheduleReply;

    ghost use Rattle.saa_run.specs.Scheduled.{answer_schedule};
    ghost use Rattle.saa_run.specs.ScheduleLaws.{schedule-end, schedule-long};

    ghost answer_to = { λ schedule number lines. answer_schedule number schedule.machine lines };

    fn reply_to(&mut self, line: &[u8]) -> Option<ScheduleReply> {
        match parse_schedule(is_lock(&self.machine), self.machine.places(), line) {
            None => None,
            Some(good) => Some(self.say(good)),
        }
    }

    ghost at_end = { λ schedule number. schedule-end number schedule.machine };

    ghost too_long = { λ schedule number line long. schedule-long number schedule.machine line long };
}

// Whether a machine is a lock.
fn is_lock(machine: &Machine) -> bool
    ensures { result ≡ is_lock machine.now }
{
    machine.takes(WordCall::TryLock)
}

// What a step says that a machine did.
fn did(machine: &Machine, step: Step) -> ScheduleReply
    ensures { result ≡ Did (is_lock machine.now) step }
{
    ScheduleReply::Step {
        is_lock: is_lock(machine),
        step,
    }
}

// Whether a place is in the middle of its call behind a step.
fn goes_on(step: Step) -> bool
    ensures { result ≡ goes_on step }
{
    matches!(step, Step::Going)
}

// Whether the next step of a place is of this kind.
fn is_at(machine: &Machine, place: u16, kind: Kind) -> bool
    requires { place < length machine.now.places }
    ensures { result ≡ is_at machine.now place kind }
{
    machine.next_kind(place) == Some(kind)
}

/// Makes steps at a place until one is another than `Going`, at most 1000; answers the last.
pub fn end(machine: &mut Machine, place: u16) -> Step
    requires { place < length machine.old.places }
    ensures step { result ≡ (ended most_steps machine.old place).step }
    ensures machine { machine.new ≡ (ended most_steps machine.old place).machine }
    ensures places { length machine.new.places ≡ length machine.old.places }
{
    for _step in 0..MOST_STEPS {
        let step = machine.go(Move::Go(place));
        if !goes_on(step) {
            return step;
        }
    }
    Step::Going
}

// The same, until the next step is of this kind.
fn until(machine: &mut Machine, place: u16, kind: Kind) -> ScheduleReply
    requires { place < length machine.old.places }
    ensures said { result ≡ (until_at most_steps machine.old place kind).said }
    ensures machine { machine.new ≡ (until_at most_steps machine.old place kind).machine }
    ensures places { length machine.new.places ≡ length machine.old.places }
{
    for _step in 0..MOST_STEPS {
        if is_at(machine, place, kind) {
            return ScheduleReply::At(kind);
        }
        let step = machine.go(Move::Go(place));
        if !goes_on(step) {
            return did(machine, step);
        }
    }
    if is_at(machine, place, kind) {
        return ScheduleReply::At(kind);
    }
    did(machine, Step::Going)
}
