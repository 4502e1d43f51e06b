//! What the definitions of the language mean, each as the contract of a function that does nothing.
//!
//! No code calls these functions; what they ensure is proved all the same.
ghost use Rattle.std.specs.Prelude.{◌≡◌, ◌↔◌, ℕ, List, Some};
ghost use Rattle.saa_core_spec.specs.declared.request.Request.TheVariants.{Permits};
ghost use Rattle.saa_core_spec.specs.Semaphore.{semaphore_step};
ghost use Rattle.saa_core_spec.specs.Lock.{lock_step, mode_request};
ghost use Rattle.saa_core_spec.specs.Gate.{enter_request, gate_step};
ghost use Rattle.saa_core_spec.specs.Barrier.{arrive_request, barrier_step};
ghost use Rattle.saa_core_spec.specs.Values.{barrier_value, gate_value, lock_value, semaphore_value};
ghost use Rattle.saa_run.specs.declared.script.command.FirstLine.{FirstLine};
ghost use Rattle.saa_run.specs.Language.{first_line_of};
ghost use Rattle.saa_run.specs.Spelling.{IsSpelled, SpellsFirst};
ghost use Rattle.saa_run.specs.RunLaws.{AnswersAsRun};
ghost use Rattle.saa_run.specs.SemaphoreWords.{semaphore_readings, semaphore_reply, semaphore_spellings};
ghost use Rattle.saa_run.specs.LockWords.{lock_readings, lock_reply, lock_spellings};
ghost use Rattle.saa_run.specs.GateWords.{gate_readings, gate_reply, gate_spellings};
ghost use Rattle.saa_run.specs.BarrierWords.{barrier_readings, barrier_reply, barrier_spellings};

/// A line is good exactly where it is a command's spelling, and then it is that command: its fields
/// joined by single spaces, numbers in plain decimal, each in its range.
pub fn spelling()
    ensures first_lines { (bytes : List ℕ) (first : FirstLine)
        → (first_line_of bytes ≡ Some first) ↔ SpellsFirst bytes first }
    ensures semaphore_lines { IsSpelled semaphore_readings semaphore_spellings }
    ensures lock_lines { IsSpelled lock_readings lock_spellings }
    ensures gate_lines { IsSpelled gate_readings gate_spellings }
    ensures barrier_lines { IsSpelled barrier_readings barrier_spellings }
{}

/// The replies to a script's lines are those of the run of its commands, in words, one a line, from any state;
/// a question after a pager reads the book as the commands before it left it, and changes nothing.
pub fn answers()
    ensures of_semaphores { AnswersAsRun semaphore_reply Permits semaphore_step semaphore_value }
    ensures of_locks { AnswersAsRun lock_reply mode_request lock_step lock_value }
    ensures of_gates { AnswersAsRun gate_reply enter_request gate_step gate_value }
    ensures of_barriers { AnswersAsRun barrier_reply arrive_request barrier_step barrier_value }
{}
