//! Laws of the sequential object, each the contract of a function that does nothing.
//!
//! They show that the definitions of `specs/` mean what they should. No program needs to call these functions;
//! what they ensure is proved all the same. [`all`] names each, and `runs::laws` has those of whole runs together.

ghost use Rattle.std.specs.Prelude.{◌≡◌, ℕ, ◌+◌, ◌-◌, ◌/◌, ◌<◌, ◌≤◌, ◌↔◌, Bool, not, ◌||◌, false, List, length, Result, Ok, All, IsTrue, true, min, sum};
ghost use Rattle.std.specs.List.{count_by, sum_by};
ghost use Rattle.saa_core_spec.specs.declared.request.Request.{Request};
ghost use Rattle.saa_core_spec.specs.declared.request.Request.TheVariants.{Permits};
ghost use Rattle.saa_core_spec.specs.declared.semaphore.SemaphoreCall.{SemaphoreCall};
ghost use Rattle.saa_core_spec.specs.declared.semaphore.SemaphoreCall.TheVariants.{Shut};
ghost use Rattle.saa_core_spec.specs.declared.semaphore.SemaphoreAnswer.{SemaphoreAnswer};
ghost use Rattle.saa_core_spec.specs.declared.lock.Mode.{Mode};
ghost use Rattle.saa_core_spec.specs.declared.lock.LockCall.{LockCall};
ghost use Rattle.saa_core_spec.specs.declared.lock.LockAnswer.{LockAnswer};
ghost use Rattle.saa_core_spec.specs.declared.gate.GateCall.{GateCall};
ghost use Rattle.saa_core_spec.specs.declared.gate.GateCall.TheVariants.{Permit, PermitMany};
ghost use Rattle.saa_core_spec.specs.declared.gate.GateAnswer.{GateAnswer};
ghost use Rattle.saa_core_spec.specs.declared.barrier.BarrierCall.{BarrierCall};
ghost use Rattle.saa_core_spec.specs.declared.barrier.BarrierAnswer.{BarrierAnswer};
ghost use Rattle.saa_core_spec.specs.declared.run.CommandOf.{CommandOf};
ghost use Rattle.saa_core_spec.specs.declared.run.CommandOf.TheVariants.{Drop};
ghost use Rattle.saa_core_spec.specs.Held.{Held, LockState, OfSemaphore, OfLock, OfGate, OfBarrier, Free, Poisoned, asks_too_much, max_rounds};
ghost use Rattle.saa_core_spec.specs.Asking.{is_idle, tried, registered};
ghost use Rattle.saa_core_spec.specs.Polling.{given_back, dropped, withdrawn};
ghost use Rattle.saa_core_spec.specs.declared.gate.State.{State};
ghost use Rattle.saa_core_spec.specs.declared.gate.State.TheVariants.{Controlled};
ghost use Rattle.saa_core_spec.specs.declared.gate.Error.{Error as GateError};
ghost use Rattle.saa_core_spec.specs.declared.polling.Error.{Error};
ghost use Rattle.saa_core_spec.specs.Object.{Object, Waiter, Idle, Waiting, Answered, entry_at, with_entry, newly_made, without};
ghost use Rattle.saa_core_spec.specs.Settling.{fitting_front, settled};
ghost use Rattle.saa_core_spec.specs.Values.{semaphore_value, lock_value, gate_value, barrier_value, granted_value, closed_value};
ghost use Rattle.saa_core_spec.specs.Semaphore.{semaphore_step, new_semaphore, bound_of, out_of, is_shut};
ghost use Rattle.saa_core_spec.specs.Lock.{lock_step, mode_request, new_lock};
ghost use Rattle.saa_core_spec.specs.Gate.{gate_step, enter_request, new_gate};
ghost use Rattle.saa_core_spec.specs.Barrier.{round_of, barrier_step, arrive_request};
ghost use Rattle.saa_core_spec.specs.Run.{IsWithin, done, state_after};
ghost use Rattle.saa_core_laws.specs.Laws.{is_waiting, IsFittingFront, IsSettledAt, GrantsInTurn, IsSemaphoreInOrder, IsLockInOrder, IsGateInOrder, IsBarrierInOrder, IsOpenBarrier};
ghost use Rattle.saa_core_laws.specs.RunLaws.{IsSettledSemaphore, IsSettledLock, NobodyWaits, AnswersInOrder};
ghost use Rattle.saa_core_laws.specs.Registrations.{AnswersOnce, is_answered};
ghost use Rattle.saa_core_laws.specs.Leaders.{IsOfFixedSize, is_arrival, is_given_up, names_leader, completes_round, LetsAllPass, barrier_run, barrier_next, CompletesRound};
ghost use Rattle.saa_core_laws.specs.Conservation.{granted_by, given_back_by, released_by, taken_in_hand_by, semaphore_run};
ghost use Rattle.saa_core_laws.specs.Steps.{step_of};
ghost use Rattle.saa_core_laws.specs.WholeRuns.{WholeRuns};

use crate::runs;

/// The fitting front is the greatest number of the oldest waiters that all fit, one after another.
///
/// After settling none in front fits, and fronts granted one after another, until none fits, are
/// together the one greatest front.
pub fn settling()
    ensures fits { (held : Held) (line : List Waiter) → IsFittingFront held line (fitting_front held line) }
    ensures greatest { (held : Held) (line : List Waiter) (k : ℕ)
        → IsFittingFront held line k → k ≤ fitting_front held line }
    ensures settled { (s : Object) → IsSettledAt (settled s).held (settled s).line }
    ensures in_turn { (held : Held) (line : List Waiter) (ks : List ℕ)
        → GrantsInTurn held line ks → sum ks ≡ fitting_front held line }
{}

/// Every run of a newly made semaphore leaves it in order.
///
/// The line holds exactly the names that wait, each once, beside each what its entry waits for; it is
/// settled; nobody waits while nothing is out; and no more slots are held than there is room.
pub fn semaphore_runs()
    ensures { (bound permits room names : ℕ) (commands : List (CommandOf SemaphoreCall ℕ))
        → All (IsWithin names) commands
        → IsSemaphoreInOrder bound (state_after Permits semaphore_step semaphore_value commands (new_semaphore bound permits room names)) }
{}

/// Every run of a newly made lock leaves it in order, as [`semaphore_runs`] says it of a semaphore.
///
/// Nobody waits while the lock is free or poisoned.
pub fn lock_runs()
    ensures { (room names : ℕ) (commands : List (CommandOf LockCall Mode))
        → All (IsWithin names) commands
        → IsLockInOrder (state_after mode_request lock_step lock_value commands (new_lock room names)) }
{}

/// Every run of a newly made gate leaves it in order: nobody waits while it isn't controlled.
pub fn gate_runs()
    ensures { (room names : ℕ) (commands : List (CommandOf GateCall (Unit {0})))
        → All (IsWithin names) commands
        → IsGateInOrder (state_after enter_request gate_step gate_value commands (new_gate room names)) }
{}

/// Every run of a newly made barrier of any size leaves it in order: its round is incomplete.
///
/// `fixed`: while no call changes its size or arrives without waiting, it keeps its size, and all who arrived wait. `open`: of any
/// run, fewer have arrived than pass together.
pub fn barrier_runs()
    ensures fixed { (size room names : ℕ) (commands : List (CommandOf BarrierCall (Unit {0})))
        → All (IsWithin names) commands → All IsOfFixedSize commands
        → IsBarrierInOrder size (state_after arrive_request barrier_step barrier_value commands (newly_made (OfBarrier size 0 0) room names)) }
    ensures open { (size room names : ℕ) (commands : List (CommandOf BarrierCall (Unit {0})))
        → All (IsWithin names) commands
        → IsOpenBarrier (state_after arrive_request barrier_step barrier_value commands (newly_made (OfBarrier size 0 0) room names)) }
{}

/// A settled semaphore stays settled, whatever is out, whatever its line and its book are, and however it came there; and
/// nobody waits where it is shut.
///
/// Every command leaves it settled, and so does every list of commands, names that there aren't among them.
pub fn semaphore_stays_settled()
    ensures command { (bound : ℕ) (s : Object) (command : CommandOf SemaphoreCall ℕ)
        → IsSettledSemaphore bound s
        → IsSettledSemaphore bound (done Permits semaphore_step semaphore_value command s).state }
    ensures run { (bound : ℕ) (s : Object) (commands : List (CommandOf SemaphoreCall ℕ))
        → IsSettledSemaphore bound s
        → IsSettledSemaphore bound (state_after Permits semaphore_step semaphore_value commands s) }
{}

/// A settled lock stays settled, as [`semaphore_stays_settled`] says it of a semaphore, and nobody waits while it is poisoned.
///
/// The two are kept together: a lock that is poisoned while there is a waiter is settled until the poison is cleared.
pub fn lock_stays_settled()
    ensures command { (s : Object) (command : CommandOf LockCall Mode)
        → IsSettledLock s
        → IsSettledLock (done mode_request lock_step lock_value command s).state }
    ensures run { (s : Object) (commands : List (CommandOf LockCall Mode))
        → IsSettledLock s
        → IsSettledLock (state_after mode_request lock_step lock_value commands s) }
{}

/// Nobody waits for nothing: not at a semaphore with nothing out or that is shut, not at a lock that is free or poisoned,
/// and not at a gate that isn't controlled.
///
/// This is so after every run of a newly made one. (Who waits at a barrier waits for others to arrive.)
pub fn nobody_waits_for_nothing()
    ensures semaphore { (bound permits room names : ℕ) (commands : List (CommandOf SemaphoreCall ℕ))
        → All (IsWithin names) commands
        → let s = state_after Permits semaphore_step semaphore_value commands (new_semaphore bound permits room names) in
        s.held ≡ OfSemaphore bound 0 → NobodyWaits s }
    ensures shut_semaphore { (bound permits room names : ℕ) (commands : List (CommandOf SemaphoreCall ℕ))
        → All (IsWithin names) commands
        → let s = state_after Permits semaphore_step semaphore_value commands (new_semaphore bound permits room names) in
        is_shut s.held ≡ true → NobodyWaits s }
    ensures free_lock { (room names : ℕ) (commands : List (CommandOf LockCall Mode))
        → All (IsWithin names) commands
        → let s = state_after mode_request lock_step lock_value commands (new_lock room names) in
        s.held ≡ OfLock Free → NobodyWaits s }
    ensures poisoned_lock { (room names : ℕ) (commands : List (CommandOf LockCall Mode))
        → All (IsWithin names) commands
        → let s = state_after mode_request lock_step lock_value commands (new_lock room names) in
        s.held ≡ OfLock Poisoned → NobodyWaits s }
    ensures gate { (room names : ℕ) (commands : List (CommandOf GateCall (Unit {0})))
        → All (IsWithin names) commands
        → let s = state_after enter_request gate_step gate_value commands (new_gate room names) in
        ¬ (s.held ≡ OfGate Controlled) → NobodyWaits s }
{}

/// A semaphore and a lock answer the waiters in the order of the line.
///
/// After every run, and at every next command: where a waiter is answered (granted, or told that the lock is poisoned or the
/// semaphore shut),
/// nobody who stood before it in the line still waits.
pub fn answers_in_order()
    ensures semaphore { (bound permits room names : ℕ) (commands : List (CommandOf SemaphoreCall ℕ)) (next : CommandOf SemaphoreCall ℕ)
        → All (IsWithin names) commands → IsWithin names next
        → let s = state_after Permits semaphore_step semaphore_value commands (new_semaphore bound permits room names) in
        AnswersInOrder s (done Permits semaphore_step semaphore_value next s).state }
    ensures lock { (room names : ℕ) (commands : List (CommandOf LockCall Mode)) (next : CommandOf LockCall Mode)
        → All (IsWithin names) commands → IsWithin names next
        → let s = state_after mode_request lock_step lock_value commands (new_lock room names) in
        AnswersInOrder s (done mode_request lock_step lock_value next s).state }
{}

/// A registration is answered at most once, and its answer is consumed at most once, in each of the four primitives.
///
/// Which names are registered can be read off the commands and replies of a run alone: a name is registered since it
/// was answered `Ok(true)`, until a poll has its value or it is dropped. None is made where there is one, no value is polled
/// where it isn't, and an answer that is there stays as it is until then, whatever is called.
pub fn answers_once()
    ensures semaphore { AnswersOnce SemaphoreCall ℕ SemaphoreAnswer (Result (Unit {0}) Error) Permits semaphore_step semaphore_value }
    ensures lock { AnswersOnce LockCall Mode LockAnswer (Result Bool Error) mode_request lock_step lock_value }
    ensures gate { AnswersOnce GateCall (Unit {0}) GateAnswer (Result State GateError) enter_request gate_step gate_value }
    ensures barrier { AnswersOnce BarrierCall (Unit {0}) BarrierAnswer (Result Bool Error) arrive_request barrier_step barrier_value }
{}

/// The permits of a semaphore are conserved: what is out in the end and all that was given back are what was withheld at
/// first and all that was granted.
///
/// Granted is what a try took that was answered true, what a registration took that was answered at once, and what waiters
/// were granted. Given back is what a release gave back that was answered true, and a grant that was dropped
/// before it was consumed. Such a drop is the release of what was granted. It gives back all of it wherever no more was
/// released by calls than was withheld, tried and polled; where others have released the grant already, so that less is
/// out, it gives nothing back.
pub fn permits_conserved()
    ensures conserved { (bound permits room names : ℕ) (commands : List (CommandOf SemaphoreCall ℕ))
        → All (IsWithin names) commands
        → let run = semaphore_run bound permits room names commands in
        let end = state_after Permits semaphore_step semaphore_value commands (new_semaphore bound permits room names) in
        out_of end.held + sum_by given_back_by run ≡ (bound - min permits bound) + sum_by granted_by run }
    ensures whole { (bound permits room names : ℕ) (commands : List (CommandOf SemaphoreCall ℕ)) (name n : ℕ) (is_sync slotted : Bool)
        → All (IsWithin names) commands
        → let run = semaphore_run bound permits room names commands in
        let end = state_after Permits semaphore_step semaphore_value commands (new_semaphore bound permits room names) in
        sum_by released_by run ≤ (bound - min permits bound) + sum_by taken_in_hand_by run
        → entry_at end.book name ≡ Answered granted_value (Permits n) is_sync slotted
        → given_back_by (step_of Permits semaphore_step semaphore_value (Drop name) end) ≡ n }
{}

/// A semaphore is shut for good: with it every waiter is answered Closed, once, and nothing is granted from then on.
///
/// `answered`, `others`: it answers all waiters, after every run, and changes no other entry. `for_good`: no list of commands opens
/// it. `refused`, `closed`: from then on every try is false and changes nothing, and every registration of an idle name that doesn't
/// ask for more than there ever is has its answer at once, takes no slot and changes nothing else. `given_back`: what is out
/// comes back as ever. That nobody waits there is [`nobody_waits_for_nothing`]'s.
pub fn shutting()
    ensures answered { (bound permits room names : ℕ) (commands : List (CommandOf SemaphoreCall ℕ)) (name : ℕ) (request : Request) (is_sync : Bool)
        → All (IsWithin names) commands
        → let s = state_after Permits semaphore_step semaphore_value commands (new_semaphore bound permits room names) in
        entry_at s.book name ≡ Waiting request is_sync
        → entry_at (semaphore_step Shut s).state.book name ≡ Answered closed_value request is_sync true }
    ensures others { (s : Object) (name : ℕ)
        → is_waiting (entry_at s.book name) ≡ false
        → entry_at (semaphore_step Shut s).state.book name ≡ entry_at s.book name }
    ensures for_good { (s : Object) (commands : List (CommandOf SemaphoreCall ℕ))
        → is_shut s.held ≡ true
        → is_shut (state_after Permits semaphore_step semaphore_value commands s).held ≡ true }
    ensures refused { (s : Object) (request : Request)
        → is_shut s.held ≡ true → tried s request ≡ record { state = s; reply = false } }
    ensures closed { (s : Object) (name n : ℕ) (is_sync : Bool)
        → is_shut s.held ≡ true → entry_at s.book name ≡ Idle → n ≤ bound_of s.held
        → registered s name (Permits n) is_sync
        ≡ record { state = with_entry s name (Answered closed_value (Permits n) is_sync false); reply = Ok true } }
    ensures given_back { (s : Object) (n : ℕ)
        → is_shut s.held ≡ true → n ≤ out_of s.held
        → ((given_back s (Permits n)).reply ≡ true) × (out_of (given_back s (Permits n)).state.held + n ≡ out_of s.held) }
{}

/// A name that leaves quietly is idle, and disturbs nobody: a gate isn't told of it as it is of a drop.
///
/// `elsewhere`: where what is held is no gate, it is a drop. `idle`, `others`, `line`: at a gate its own entry is idle, every other
/// entry stays as it was, and in the line all others stay where they are.
pub fn quiet_leaves()
    ensures elsewhere { (s : Object) (name : ℕ)
        → ((gate : State) → ¬ (s.held ≡ OfGate gate)) → withdrawn s name ≡ dropped s name }
    ensures idle { (s : Object) (gate : State) (name : ℕ)
        → s.held ≡ OfGate gate → entry_at (withdrawn s name).book name ≡ Idle }
    ensures others { (s : Object) (gate : State) (name other : ℕ)
        → s.held ≡ OfGate gate → ¬ (other ≡ name)
        → entry_at (withdrawn s name).book other ≡ entry_at s.book other }
    ensures line { (s : Object) (gate : State) (name : ℕ) (request : Request) (is_sync : Bool)
        → s.held ≡ OfGate gate → entry_at s.book name ≡ Waiting request is_sync
        → (withdrawn s name).line ≡ without name s.line }
{}

/// A gate lets its oldest waiters in: as many as are asked for, and all where no more wait.
///
/// After every run nobody is let in while an older one still waits.
pub fn permits()
    ensures all { (s : Object) (n : ℕ)
        → length s.line ≤ n → gate_step (PermitMany n) s ≡ gate_step Permit s }
    ensures in_order { (room names n : ℕ) (commands : List (CommandOf GateCall (Unit {0})))
        → All (IsWithin names) commands
        → let s = state_after enter_request gate_step gate_value commands (new_gate room names) in
        AnswersInOrder s (gate_step (PermitMany n) s).state }
{}

/// A barrier of size `N` has named as many leaders as full rounds of `N` arrivals, not counting arrivals that were dropped
/// while they waited.
///
/// The arrival that completes a round is its leader, and is told so; all others of the round are told that they aren't.
/// No waiter is answered in any other way. This is so of runs in which the size stays, and nobody arrives who doesn't wait.
pub fn leaders()
    ensures counted { (size room names : ℕ) (commands : List (CommandOf BarrierCall (Unit {0})))
        → 0 < size → All (IsWithin names) commands → All IsOfFixedSize commands
        → let run = barrier_run size room names commands in
        count_by names_leader run ≡ (count_by is_arrival run - count_by is_given_up run) / size }
    ensures round { (size room names : ℕ) (commands : List (CommandOf BarrierCall (Unit {0}))) (next : CommandOf BarrierCall (Unit {0}))
        → All (IsWithin names) commands → IsWithin names next → All IsOfFixedSize commands → IsOfFixedSize next
        → let step = barrier_next size room names commands next in
        IsTrue (names_leader step) → CompletesRound size step }
    ensures nothing_else { (size room names : ℕ) (commands : List (CommandOf BarrierCall (Unit {0}))) (next : CommandOf BarrierCall (Unit {0})) (name : ℕ)
        → All (IsWithin names) commands → IsWithin names next → All IsOfFixedSize commands → IsOfFixedSize next
        → let step = barrier_next size room names commands next in
        IsTrue (is_waiting (entry_at step.before.book name))
        → IsTrue (is_answered (entry_at step.after.state.book name))
        → IsTrue (names_leader step) }
{}

/// The number of a barrier's rounds counts the rounds that are complete, of any run: the leaders, and the calls that complete a
/// round without one.
///
/// It counts up to the most that a u64 can say, and stays there. A step that completes a round lets all waiters pass, and the next
/// round begins with no arrival; no other step answers a waiter.
pub fn rounds()
    ensures counted { (size room names : ℕ) (commands : List (CommandOf BarrierCall (Unit {0})))
        → All (IsWithin names) commands
        → round_of (state_after arrive_request barrier_step barrier_value commands (newly_made (OfBarrier size 0 0) room names)).held
        ≡ min (count_by completes_round (barrier_run size room names commands)) max_rounds }
    ensures passed { (size room names : ℕ) (commands : List (CommandOf BarrierCall (Unit {0}))) (next : CommandOf BarrierCall (Unit {0}))
        → All (IsWithin names) commands → IsWithin names next
        → let step = barrier_next size room names commands next in
        IsTrue (completes_round step) → LetsAllPass step.before step.after.state }
    ensures nothing_else { (size room names : ℕ) (commands : List (CommandOf BarrierCall (Unit {0}))) (next : CommandOf BarrierCall (Unit {0})) (name : ℕ)
        → All (IsWithin names) commands → IsWithin names next
        → let step = barrier_next size room names commands next in
        IsTrue (is_waiting (entry_at step.before.book name))
        → IsTrue (is_answered (entry_at step.after.state.book name))
        → IsTrue (completes_round step) }
{}

/// A registration is false exactly where its name isn't idle, or it asks a semaphore for more permits than there ever are.
///
/// So of an idle name none is false for one permit of a semaphore that has any, and none at a lock, a gate or a barrier: a
/// future that asks for these ends with an answer, or because the room is full.
pub fn false_registrations()
    ensures exactly { (s : Object) (name : ℕ) (request : Request) (is_sync : Bool)
        → (registered s name request is_sync).reply ≡ Ok false
        ↔ IsTrue (not (is_idle (entry_at s.book name)) || asks_too_much s.held request) }
    ensures one_permit { (s : Object) (name bound out : ℕ) (is_sync : Bool)
        → s.held ≡ OfSemaphore bound out → 1 ≤ bound → entry_at s.book name ≡ Idle
        → ¬ ((registered s name (Permits 1) is_sync).reply ≡ Ok false) }
    ensures lock { (s : Object) (name : ℕ) (lock : LockState) (request : Request) (is_sync : Bool)
        → s.held ≡ OfLock lock → entry_at s.book name ≡ Idle → ¬ ((registered s name request is_sync).reply ≡ Ok false) }
    ensures gate { (s : Object) (name : ℕ) (gate : State) (request : Request) (is_sync : Bool)
        → s.held ≡ OfGate gate → entry_at s.book name ≡ Idle → ¬ ((registered s name request is_sync).reply ≡ Ok false) }
    ensures barrier { (s : Object) (name size arrived round : ℕ) (request : Request) (is_sync : Bool)
        → s.held ≡ OfBarrier size arrived round → entry_at s.book name ≡ Idle → ¬ ((registered s name request is_sync).reply ≡ Ok false) }
{}

/// Every law, by its name; together those of the runs from newly made primitives are one, which is the contract here too.
pub fn all()
    ensures whole_runs { WholeRuns }
{
    runs::laws();
    settling();
    semaphore_runs();
    lock_runs();
    gate_runs();
    barrier_runs();
    semaphore_stays_settled();
    lock_stays_settled();
    nobody_waits_for_nothing();
    answers_in_order();
    answers_once();
    permits_conserved();
    shutting();
    quiet_leaves();
    permits();
    leaders();
    false_registrations();
}
