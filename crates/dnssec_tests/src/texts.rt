//! What an operator reads of refusals and faults.
use crate::values::{MAX, TimeParts, duration};
use dnssec_base::NameError;
use dnssec_keyset::Error;
use dnssec_network::NoteFault;
use dnssec_record::ScriptFault;
use std::alloc::Global;
use std::fmt::{self, Display, Write};
use std::test::Fail;

/// Refusals, except those of waits, and what they print.
const REFUSALS: &[(Error, &str)] = &[
    (Error::KeyExists, "key already exists"),
    (Error::KeyNotFound, "key not found"),
    (Error::KeyNotOld, "key is still in use, not old"),
    (Error::DuplicateKeyTag, "Key tag already present"),
    (Error::WrongKeyType, "key has the wrong type"),
    (Error::WrongKeyState, "key is in the wrong state"),
    (
        Error::NoSuitableKeyPresent,
        "no suitable key present after key roll",
    ),
    (
        Error::WrongStateForRollOperation,
        "wrong roll state for operation",
    ),
    (
        Error::ConflictingRollInProgress,
        "conflicting roll is in progress",
    ),
    (
        Error::AlgorithmSetsMismatch,
        "algorithm set mismatch for non-algorithm key roll",
    ),
    (
        Error::UnknownRollType,
        "unable to parse string as roll type",
    ),
    (Error::OutOfMemory, "out of memory"),
];

/// How long a wait still lasts, and what its refusal prints. A duration is printed in its largest
/// unit, with the decimals that are left. The micro sign is that of Latin-1.
const WAITS: &[(TimeParts, &str)] = &[
    ((1, 0), "wait for duration 1s"),
    ((60, 0), "wait for duration 60s"),
    ((1, 500_000_000), "wait for duration 1.5s"),
    ((1, 1), "wait for duration 1.000000001s"),
    ((0, 999_000_000), "wait for duration 999ms"),
    ((0, 1_000_001), "wait for duration 1.000001ms"),
    ((0, 2_569), "wait for duration 2.569\u{B5}s"),
    ((0, 1_000), "wait for duration 1\u{B5}s"),
    ((0, 999), "wait for duration 999ns"),
    ((0, 0), "wait for duration 0ns"),
    (MAX, "wait for duration 18446744073709551615.999999999s"),
];

/// Faults of names, and what they print.
const FAULTS_OF_NAMES: &[(NameError, &str)] = &[
    (NameError::EmptyLabel, "empty label"),
    (NameError::LongLabel, "label longer than 63 bytes"),
    (NameError::LongName, "name longer than 255 bytes"),
    (NameError::BadEscape, "illegal escape"),
    (NameError::BadByte, "illegal character"),
    (NameError::OutOfMemory, "out of memory"),
];

/// Faults of scripts, what they print, and the status that a program ends with after them.
const FAULTS_OF_SCRIPTS: &[(ScriptFault, &str, u8)] = &[
    (ScriptFault::Malformed(1), "line 1: malformed", 1),
    (ScriptFault::Malformed(12), "line 12: malformed", 1),
    (ScriptFault::Device, "input or output fault", 2),
    (ScriptFault::OutOfMemory, "out of memory", 3),
];

/// Faults of notes, and what they print.
const FAULTS_OF_NOTES: &[(NoteFault, &str)] = &[
    (NoteFault::CallNotMade, "no such call yet"),
    (NoteFault::PublishedBeforeCall, "published before its call"),
    (
        NoteFault::SeenBeforePublished,
        "seen before it was published",
    ),
    (NoteFault::MomentFalls, "moment before the last one"),
    (NoteFault::OutOfMemory, "out of memory"),
];

/// What a value has still to print. Whatever is written is taken, so that an error is the value's
/// own.
#[derive(Drop)]
struct ExpectedText<'a> {
    left: &'a [u8],
    is_so: bool,
}

impl<'a> fmt::Write for ExpectedText<'a> {
    fn write_str(&mut self, text: &str) -> fmt::Result {
        match self.left.strip_prefix(text.as_bytes()) {
            Some(rest) => self.left = rest,
            None => self.is_so = false,
        }
        Ok(())
    }
}

/// Whether a value prints this, to a writer that takes all and to a string.
fn prints(alloc: Global, value: &impl Display, text: &str) -> bool {
    let mut wanted = ExpectedText {
        left: text.as_bytes(),
        is_so: true,
    };
    let is_written = write!(wanted, "{value}").is_ok() && wanted.is_so && wanted.left.is_empty();
    match value.to_string(alloc) {
        Ok(printed) => is_written && printed.as_str() == text,
        Err(_) => false,
    }
}

#[test]
fn refusals_have_their_texts(rt: HostRuntime) -> Result<(), Fail> {
    let mut texts = 0u64;
    for (error, text) in REFUSALS {
        assert!(rt; prints(rt.alloc(), error, text), "{text}");
        texts = texts.saturating_add(1);
    }
    for (wait, text) in WAITS {
        let error = Error::Wait(duration(*wait));
        assert!(rt; prints(rt.alloc(), &error, text), "{text}");
        texts = texts.saturating_add(1);
    }
    println!(rt; "dnssec_tests: {texts} refusals printed")?;
    Ok(())
}

#[test]
fn faults_have_their_texts(rt: HostRuntime) -> Result<(), Fail> {
    let mut texts = 0u64;
    for (fault, text) in FAULTS_OF_NAMES {
        assert!(rt; prints(rt.alloc(), fault, text), "{text}");
        texts = texts.saturating_add(1);
    }
    for (fault, text, status) in FAULTS_OF_SCRIPTS {
        let is_so = prints(rt.alloc(), fault, text) && fault.status() == *status;
        assert!(rt; is_so, "{text}");
        texts = texts.saturating_add(1);
    }
    for (fault, text) in FAULTS_OF_NOTES {
        assert!(rt; prints(rt.alloc(), fault, text), "{text}");
        texts = texts.saturating_add(1);
    }
    println!(rt; "dnssec_tests: {texts} faults printed")?;
    Ok(())
}
