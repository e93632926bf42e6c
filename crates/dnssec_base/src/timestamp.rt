//! Timestamps of DNSSEC records.
ghost use Rattle.std.specs.Prelude.{◌≡◌};

use std::marker::Model;

/// A timestamp as DNSSEC records hold it: whole seconds since the start of 1970 (RFC 4034, 3.1.5).
///
/// ```rust
/// let signed = Timestamp::from(1_700_000_000);
/// let seconds = signed.into_int();
/// ```
#[derive(Clone, Copy, Debug, PartialEq, Eq)]
pub struct Timestamp {
    seconds: u32,
}

impl Model for Timestamp {
    ghost use Rattle.std.specs.Prelude.{ℕ};

    ghost Value = { ℕ };

    ghost view = { λ timestamp. timestamp.seconds };

    ghost inverse = { λ seconds. record { seconds = seconds } };
}

impl From<u32> for Timestamp {
    ghost use Rattle.std.specs.Prelude.{◌≡◌};

    ghost from_gives = { λ seconds timestamp. timestamp ≡ seconds };

    /// The timestamp that lies so many seconds after the start of 1970.
    fn from(seconds: u32) -> Self {
        Timestamp { seconds }
    }
}

impl Timestamp {
    /// The timestamp as a number: the seconds from the start of 1970.
    pub fn into_int(self) -> u32
        ensures { result ≡ self }
    {
        self.seconds
    }
}
