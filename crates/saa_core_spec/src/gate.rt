//! The states and calls of a gate, what they answer, and the numbers of states and errors.
//!
//! The tables of numbers stand in `specs/Values.antt`; the conversions here are held to them.

ghost use Rattle.std.specs.Prelude.{◌≡◌};
ghost use Rattle.saa_core_spec.specs.Values.{state_number, number_state, error_number, number_error};

/// How a gate treats tasks that enter.
#[derive(Clone, Copy, Debug, Eq, Ord, PartialEq, PartialOrd)]
pub enum State {
    /// Those who enter wait until they are permitted or rejected. Its number is 0.
    Controlled,
    /// Those who enter are refused at once. Its number is 1.
    Sealed,
    /// Those who enter pass at once. Its number is 2.
    Open,
}

/// Why a task didn't pass a gate.
#[derive(Clone, Copy, Debug, Eq, Ord, PartialEq, PartialOrd, thiserror::Error)]
#[error("{}", self.message())]
pub enum Error {
    /// The gate rejected all waiters. Its number is 4.
    Rejected,
    /// The gate is or was sealed. Its number is 8.
    Sealed,
    /// Another waiter cancelled, and all others were woken to ask again. Its number is 12.
    SpuriousFailure,
    /// The ticket isn't registered in this gate. Its number is 16.
    NotRegistered,
    /// The ticket was registered as sync and polled as async, or the other way round. Its number is 20.
    WrongMode,
    /// The registration isn't answered yet. Its number is 24.
    NotReady,
}

impl Error {
    pub(crate) fn message(&self) -> &'static str {
        match self {
            Error::Rejected => "the gate rejected all waiters",
            Error::Sealed => "the gate is or was sealed",
            Error::SpuriousFailure => "another waiter cancelled: ask again",
            Error::NotRegistered => "nothing is registered here",
            Error::WrongMode => "registered as sync and polled as async, or the other way round",
            Error::NotReady => "not answered yet",
        }
    }
}

/// A call of a gate that needs no ticket.
#[derive(Clone, Copy, Debug, Eq, PartialEq)]
pub enum GateCall {
    /// Asks for the state.
    State,
    /// Makes a sealed or open gate controlled.
    Reset,
    /// Lets all waiters of a controlled gate pass.
    Permit,
    /// Lets so many waiters of a controlled gate pass, the oldest first.
    PermitMany(usize),
    /// Rejects all waiters of a controlled gate.
    Reject,
    /// Opens the gate, and lets all waiters pass.
    Open,
    /// Seals the gate, and refuses all waiters.
    Seal,
}

/// What a call of a gate answers.
#[derive(Clone, Copy, Debug, Eq, PartialEq)]
pub enum GateAnswer {
    /// Of `State`.
    State(State),
    /// Of `Reset`: the state before, where it wasn't controlled.
    Reset(Option<State>),
    /// Of `Permit`, `PermitMany` and `Reject`: how many were answered, or the state that isn't controlled.
    Answered(Result<usize, State>),
    /// Of `Open` and `Seal`: the state before, and how many were answered.
    Moved(State, usize),
}

/// The number of a state.
impl From<State> for u8 {
    ghost from_gives = { λ state number. number ≡ state_number state };

    fn from(state: State) -> u8 {
        match state {
            State::Controlled => 0,
            State::Sealed => 1,
            State::Open => 2,
        }
    }
}

/// The number of a state.
impl From<State> for usize {
    ghost from_gives = { λ state number. number ≡ state_number state };

    fn from(state: State) -> usize {
        u8::from(state) as usize
    }
}

/// The state of a number; any number that is no state's reads as `Open`.
impl From<usize> for State {
    ghost from_gives = { λ number state. state ≡ number_state number };

    fn from(number: usize) -> State {
        match number {
            0 => State::Controlled,
            1 => State::Sealed,
            _ => State::Open,
        }
    }
}

/// The state of a number; any number that is no state's reads as `Open`.
impl From<u8> for State {
    ghost from_gives = { λ number state. state ≡ number_state number };

    fn from(number: u8) -> State {
        State::from(number as usize)
    }
}

/// The number of an error.
impl From<Error> for u8 {
    ghost from_gives = { λ error number. number ≡ error_number error };

    fn from(error: Error) -> u8 {
        match error {
            Error::Rejected => 4,
            Error::Sealed => 8,
            Error::SpuriousFailure => 12,
            Error::NotRegistered => 16,
            Error::WrongMode => 20,
            Error::NotReady => 24,
        }
    }
}

/// The number of an error.
impl From<Error> for usize {
    ghost from_gives = { λ error number. number ≡ error_number error };

    fn from(error: Error) -> usize {
        u8::from(error) as usize
    }
}

/// The error of a number; any number that is no error's reads as `NotReady`.
impl From<usize> for Error {
    ghost from_gives = { λ number error. error ≡ number_error number };

    fn from(number: usize) -> Error {
        match number {
            4 => Error::Rejected,
            8 => Error::Sealed,
            12 => Error::SpuriousFailure,
            16 => Error::NotRegistered,
            20 => Error::WrongMode,
            _ => Error::NotReady,
        }
    }
}

/// The error of a number; any number that is no error's reads as `NotReady`.
impl From<u8> for Error {
    ghost from_gives = { λ number error. error ≡ number_error number };

    fn from(number: u8) -> Error {
        Error::from(number as usize)
    }
}
