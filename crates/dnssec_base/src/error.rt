//! Why a call is refused.
ghost use Rattle.std.specs.Prelude.{◌≡◌, Some};
ghost use Rattle.dnssec_base.specs.ErrorTexts.{error_text};
ghost use Rattle.dnssec_base.specs.declared.error.Error.TheVariants.{OutOfMemory};

use crate::text::DurationText;
use std::alloc::{AllocError, AllocFailed};
use std::fmt;
use std::time::Duration;

/// Why a call is refused. A refused call has changed nothing.
#[derive(Clone, Copy, Debug, PartialEq)]
pub enum Error {
    /// A key has this reference already.
    KeyExists,
    /// No key has this reference.
    KeyNotFound,
    /// The key is still in use, and can't be deleted.
    KeyNotOld,
    /// A key has this key tag already.
    DuplicateKeyTag,
    /// The call doesn't take a key of this kind.
    WrongKeyType,
    /// The key can't come in by a roll, or lacks a stamp that the call reads.
    WrongKeyState,
    /// The roll would leave no key to go on with.
    NoSuitableKeyPresent,
    /// The roll isn't in the phase that the call needs.
    WrongStateForRollOperation,
    /// Another roll is in progress that doesn't go together with this one.
    ConflictingRollInProgress,
    /// The old and the new keys of a roll differ in their algorithms.
    AlgorithmSetsMismatch,
    /// The call comes too early, by so much.
    Wait(Duration),
    /// The text names no roll.
    UnknownRollType,
    /// Memory has run out. The same call may succeed later.
    OutOfMemory,
}

impl std::error::Error for Error {}

impl fmt::Display for Error {
    ghost output = { λ e. Some (error_text e) };

    /// Writes to `f` in a few words why the call was refused. For `Wait` it says how much time is
    /// left, as `wait for duration 1.5s`. It fails only if a write to `f` fails.
    fn fmt<W: fmt::Write>(&self, f: &mut fmt::Formatter<W>) -> fmt::Result {
        match self {
            Error::KeyExists => f.write_str("key already exists"),
            Error::KeyNotFound => f.write_str("key not found"),
            Error::KeyNotOld => f.write_str("key is still in use, not old"),
            Error::DuplicateKeyTag => f.write_str("Key tag already present"),
            Error::WrongKeyType => f.write_str("key has the wrong type"),
            Error::WrongKeyState => f.write_str("key is in the wrong state"),
            Error::NoSuitableKeyPresent => f.write_str("no suitable key present after key roll"),
            Error::WrongStateForRollOperation => f.write_str("wrong roll state for operation"),
            Error::ConflictingRollInProgress => f.write_str("conflicting roll is in progress"),
            Error::AlgorithmSetsMismatch => {
                f.write_str("algorithm set mismatch for non-algorithm key roll")
            }
            Error::Wait(duration) => {
                let length = DurationText(*duration);
                write!(f, "wait for duration {length}")
            }
            Error::UnknownRollType => f.write_str("unable to parse string as roll type"),
            Error::OutOfMemory => f.write_str("out of memory"),
        }
    }
}

impl From<AllocError> for Error {
    ghost from_gives = { λ _ error. error ≡ OutOfMemory };

    /// Turns a failed request for memory into `OutOfMemory`, so that `?` hands it on.
    fn from(_: AllocError) -> Self {
        Error::OutOfMemory
    }
}

impl<T: Drop> From<AllocFailed<T>> for Error {
    ghost from_gives = { λ _ error. error ≡ OutOfMemory };

    /// Turns a failed request for memory into `OutOfMemory`, so that `?` hands it on. The value
    /// that found no memory comes in the argument, and is dropped.
    fn from(_: AllocFailed<T>) -> Self {
        Error::OutOfMemory
    }
}
