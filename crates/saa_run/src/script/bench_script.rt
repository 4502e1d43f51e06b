//! The lines of a script behind the first, spoken to a bench of one primitive.
//!
//! Held to `specs/Replies.antt`: a command does what it does in every run, and a question after a pager
//! reads whether it is registered. Which kind of primitive it is doesn't matter here.
ghost use Rattle.std.specs.Prelude.{◌≡◌, IfOk, length, replicate};
ghost use Rattle.saa_core.specs.declared.ticket.Registration.TheVariants.{Unregistered};
ghost use Rattle.saa_core.specs.Tickets.{object_of};
ghost use Rattle.saa_run.specs.ScriptText.{pagers};

use crate::script::command::{ScriptLine, parse_line};
use crate::script::reply::ScriptReply;
use crate::script::script_core::{ScriptCore, replied};
use saa::bench::{Bench, Primitive};
use saa_run_text::steps::Session;
use std::alloc::{AllocError, Global};

/// A bench of one primitive, with as many pagers as a line can name.
#[derive(Drop)]
pub struct BenchScript<P: Primitive> {
    bench: Bench<P>,
    ghost all_pagers: { length bench.book ≡ 100 },
}

impl<P: Primitive> BenchScript<P> {
    /// The core that is handed in, as it is, and its pagers.
    pub fn new(alloc: Global, core: P) -> Result<Self, AllocError>
        ensures { IfOk result (λ script. script.bench ≡ object_of (P.core core) (replicate pagers Unregistered)) }
    {
        let bench = Bench::new(alloc, core, 100)?;
        Ok(BenchScript { bench })
    }
}

impl<P: ScriptCore> Session for BenchScript<P> {
    type Reply = ScriptReply;

    ghost use Rattle.saa_run.specs.Language.{line_of};
    ghost use Rattle.saa_run.specs.Replies.{line_does, reply_words};
    ghost use Rattle.saa_run.specs.ScriptText.{answer_from};
    ghost use Rattle.saa_run.specs.AnswerLaws.{answer-none, line-too_long};

    ghost answer_to = { λ script number lines. answer_from (line_of P.readings)
        (line_does (reply_words P.answer_words P.poll_words) P.request P.step P.value) number script.bench lines };

    fn reply_to(&mut self, line: &[u8]) -> Option<ScriptReply> {
        match parse_line::<P>(line) {
            None => None,
            Some(ScriptLine::Do(command)) => Some(replied::<P>(self.bench.do_one(&command))),
            Some(ScriptLine::Registered(pager)) => Some(ScriptReply::Truth(
                self.bench.is_registered(pager),
            )),
        }
    }

    ghost at_end = { λ script number. answer-none (line_of P.readings)
        (line_does (reply_words P.answer_words P.poll_words) P.request P.step P.value) number script.bench };

    ghost too_long = { λ script number line long. line-too_long P.readings
        (line_does (reply_words P.answer_words P.poll_words) P.request P.step P.value) number script.bench line long };
}
