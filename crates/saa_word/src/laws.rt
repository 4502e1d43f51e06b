//! What holds of every machine and every trace that tracks it, as contracts of functions that do nothing.

ghost use Rattle.std.specs.Prelude.{◌^◌, ◌≡◌, ℕ, ◌<◌, ◌≤◌, length};
ghost use Rattle.saa_core_spec.specs.Object.{Object, newly_made};
ghost use Rattle.saa_core_words.specs.Words.{count_bits};
ghost use Rattle.saa_word_steps.specs.declared.rules.Rules.{Rules};
ghost use Rattle.saa_word_steps.specs.Needs.{needs_of};
ghost use Rattle.saa_word_proofs.specs.Promises.{WordsAreQuiescent};
ghost use Rattle.saa_word.specs.declared.moves.Move.{Move};
ghost use Rattle.saa_word.specs.Machine.{IsMove, State, is_lock, opened, row_of};
ghost use Rattle.saa_word.specs.Moves.{gone};
ghost use Rattle.saa_word.specs.Simulation.{Simulates};
ghost use Rattle.saa_word.specs.Solo.{IsRepresented};
ghost use Rattle.saa_word.specs.Trace.{IsQuiescent, Trace, beginning};
ghost use Rattle.saa_word.specs.Tracks.{Tracks};

/// What holds while no place is in a call: the solo runs of `Machine::run` start there.
///
/// The flag is clear and no answer is due; the abstract state isn't open, and its line is settled. Some sequential semaphore or lock represents
/// every machine, and a newly made one represents a machine that was just made.
pub fn solo()
    ensures quiet { (state : State) (trace : Trace) → Tracks state trace → IsQuiescent trace → WordsAreQuiescent (needs_of state.rules) (row_of state) trace.state }
    ensures exists { (state : State) (trace : Trace) → (s : Object) × IsRepresented state trace s }
    ensures opening { (rules : Rules) (count places : ℕ) → IsRepresented (opened rules count places) (beginning count) (newly_made ((needs_of rules).held count) places places) }
{}

/// What a move does as a function of the machine, which `go` names in its clauses `step` and `machine`.
///
/// It simulates with every trace that tracks the machine, and a trace tracks each machine that was just made. So nobody has to believe that function.
pub fn moves()
    ensures opening { (rules : Rules) (count places : ℕ) → (needs_of rules).top < 2 ^ count_bits → count ≤ (needs_of rules).top → places < 2 ^ 16
        → Tracks (opened rules count places) (beginning count) }
    ensures simulates { (state : State) (move : Move) (trace : Trace) → IsMove (is_lock state) (length state.places) move → Tracks state trace
        → Simulates state move (gone state move) trace }
{}
