//! How lines are spelled, as tables: the words that begin them, and what each takes after it.

/// What a field after a word is.
#[derive(Clone, Copy, Debug, Eq, PartialEq)]
pub enum Takes {
    /// A pager, 0 to 99.
    Pager,
    /// How many permits.
    Count,
    /// A mode of a lock.
    Mode,
    /// `sync` or `async`.
    How,
}

impl Takes {
    /// How it is called in a form.
    pub fn name(self) -> &'static str {
        match self {
            Takes::Pager => "P",
            Takes::Count => "N",
            Takes::Mode => "MODE",
            Takes::How => "sync|async",
        }
    }
}

/// What a line asks for.
#[derive(Clone, Copy, Debug, Eq, PartialEq)]
pub enum Asks {
    Try,
    Release,
    Available,
    IsOpen,
    IsClosed,
    Shut,
    IsShut,
    TryLock,
    TryShare,
    ReleaseLock,
    ReleaseShare,
    Downgrade,
    PoisonLock,
    ClearPoison,
    IsFree,
    IsLocked,
    IsShared,
    IsPoisoned,
    State,
    Reset,
    Permit,
    PermitMany,
    Reject,
    Open,
    Seal,
    Arrivals,
    Arrive,
    Join,
    LeaveBarrier,
    Round,
    Register,
    TryPoll,
    PollSync,
    PollAsync,
    Registered,
    Drop,
    Leave,
    Poll,
    Cancel,
}

/// What stands after the word of a form.
#[derive(Clone, Copy, Debug, Eq, PartialEq)]
pub enum Shape {
    /// Nothing.
    Alone,
    /// A pager.
    OfPager,
    /// How many permits.
    Counted,
    /// A mode of a lock.
    InMode,
    /// A registration of a semaphore.
    CountedPager,
    /// A registration of a lock.
    PagerInMode,
    /// A registration of a gate or a barrier.
    PagerAlone,
}

impl Shape {
    /// The fields after the word.
    pub fn takes(self) -> &'static [Takes] {
        match self {
            Shape::Alone => &[],
            Shape::OfPager => &[Takes::Pager],
            Shape::Counted => &[Takes::Count],
            Shape::InMode => &[Takes::Mode],
            Shape::CountedPager => &[Takes::Pager, Takes::Count, Takes::How],
            Shape::PagerInMode => &[Takes::Pager, Takes::Mode, Takes::How],
            Shape::PagerAlone => &[Takes::Pager, Takes::How],
        }
    }
}

/// A form of line: the word that begins it, what that asks for, and what stands after it.
pub type Form = (&'static str, Asks, Shape);

/// The lines of a script about a semaphore.
pub static OF_A_SEMAPHORE: [Form; 14] = [
    ("try", Asks::Try, Shape::Counted),
    ("release", Asks::Release, Shape::Counted),
    ("available", Asks::Available, Shape::Alone),
    ("is_open", Asks::IsOpen, Shape::Alone),
    ("is_closed", Asks::IsClosed, Shape::Alone),
    ("shut", Asks::Shut, Shape::Alone),
    ("is_shut", Asks::IsShut, Shape::Alone),
    ("reg", Asks::Register, Shape::CountedPager),
    ("try_poll", Asks::TryPoll, Shape::OfPager),
    ("poll_sync", Asks::PollSync, Shape::OfPager),
    ("poll_async", Asks::PollAsync, Shape::OfPager),
    ("registered", Asks::Registered, Shape::OfPager),
    ("drop", Asks::Drop, Shape::OfPager),
    ("leave", Asks::Leave, Shape::OfPager),
];

/// The lines of a script about a lock.
pub static OF_A_LOCK: [Form; 18] = [
    ("try_lock", Asks::TryLock, Shape::Alone),
    ("try_share", Asks::TryShare, Shape::Alone),
    ("release_lock", Asks::ReleaseLock, Shape::Alone),
    ("release_share", Asks::ReleaseShare, Shape::Alone),
    ("downgrade", Asks::Downgrade, Shape::Alone),
    ("poison_lock", Asks::PoisonLock, Shape::Alone),
    ("clear_poison", Asks::ClearPoison, Shape::Alone),
    ("is_free", Asks::IsFree, Shape::Alone),
    ("is_locked", Asks::IsLocked, Shape::Alone),
    ("is_shared", Asks::IsShared, Shape::Alone),
    ("is_poisoned", Asks::IsPoisoned, Shape::Alone),
    ("reg", Asks::Register, Shape::PagerInMode),
    ("try_poll", Asks::TryPoll, Shape::OfPager),
    ("poll_sync", Asks::PollSync, Shape::OfPager),
    ("poll_async", Asks::PollAsync, Shape::OfPager),
    ("registered", Asks::Registered, Shape::OfPager),
    ("drop", Asks::Drop, Shape::OfPager),
    ("leave", Asks::Leave, Shape::OfPager),
];

/// The lines of a script about a gate.
pub static OF_A_GATE: [Form; 14] = [
    ("state", Asks::State, Shape::Alone),
    ("reset", Asks::Reset, Shape::Alone),
    ("permit", Asks::Permit, Shape::Alone),
    ("permit_many", Asks::PermitMany, Shape::Counted),
    ("reject", Asks::Reject, Shape::Alone),
    ("open", Asks::Open, Shape::Alone),
    ("seal", Asks::Seal, Shape::Alone),
    ("reg", Asks::Register, Shape::PagerAlone),
    ("try_poll", Asks::TryPoll, Shape::OfPager),
    ("poll_sync", Asks::PollSync, Shape::OfPager),
    ("poll_async", Asks::PollAsync, Shape::OfPager),
    ("registered", Asks::Registered, Shape::OfPager),
    ("drop", Asks::Drop, Shape::OfPager),
    ("leave", Asks::Leave, Shape::OfPager),
];

/// The lines of a script about a barrier.
pub static OF_A_BARRIER: [Form; 12] = [
    ("count", Asks::Arrivals, Shape::Alone),
    ("arrive", Asks::Arrive, Shape::Alone),
    ("join", Asks::Join, Shape::Alone),
    ("leave_barrier", Asks::LeaveBarrier, Shape::Alone),
    ("round", Asks::Round, Shape::Alone),
    ("reg", Asks::Register, Shape::PagerAlone),
    ("try_poll", Asks::TryPoll, Shape::OfPager),
    ("poll_sync", Asks::PollSync, Shape::OfPager),
    ("poll_async", Asks::PollAsync, Shape::OfPager),
    ("registered", Asks::Registered, Shape::OfPager),
    ("drop", Asks::Drop, Shape::OfPager),
    ("leave", Asks::Leave, Shape::OfPager),
];

/// The calls of a semaphore in words.
pub static CALLS_OF_A_SEMAPHORE: [Form; 9] = [
    ("try", Asks::Try, Shape::Counted),
    ("reg", Asks::Register, Shape::Counted),
    ("release", Asks::Release, Shape::Counted),
    ("available", Asks::Available, Shape::Alone),
    ("shut", Asks::Shut, Shape::Alone),
    ("is_shut", Asks::IsShut, Shape::Alone),
    ("try_poll", Asks::TryPoll, Shape::Alone),
    ("poll", Asks::Poll, Shape::Alone),
    ("cancel", Asks::Cancel, Shape::Alone),
];

/// The calls of a lock in words.
pub static CALLS_OF_A_LOCK: [Form; 15] = [
    ("try_lock", Asks::TryLock, Shape::Alone),
    ("try_share", Asks::TryShare, Shape::Alone),
    ("reg", Asks::Register, Shape::InMode),
    ("release_lock", Asks::ReleaseLock, Shape::Alone),
    ("release_share", Asks::ReleaseShare, Shape::Alone),
    ("downgrade", Asks::Downgrade, Shape::Alone),
    ("poison_lock", Asks::PoisonLock, Shape::Alone),
    ("clear_poison", Asks::ClearPoison, Shape::Alone),
    ("is_free", Asks::IsFree, Shape::Alone),
    ("is_locked", Asks::IsLocked, Shape::Alone),
    ("is_shared", Asks::IsShared, Shape::Alone),
    ("is_poisoned", Asks::IsPoisoned, Shape::Alone),
    ("try_poll", Asks::TryPoll, Shape::Alone),
    ("poll", Asks::Poll, Shape::Alone),
    ("cancel", Asks::Cancel, Shape::Alone),
];

/// Whose lines begin with a word; `None` where nobody's do.
pub fn owner_of(word: &str) -> Option<&'static str> {
    if has(&OF_A_SEMAPHORE, word) {
        return Some("a semaphore");
    }
    if has(&OF_A_LOCK, word) {
        return Some("a lock");
    }
    if has(&OF_A_GATE, word) {
        return Some("a gate");
    }
    if has(&OF_A_BARRIER, word) {
        return Some("a barrier");
    }
    None
}

fn has(forms: &[Form], word: &str) -> bool {
    forms.iter().any(|form| form.0 == word)
}
