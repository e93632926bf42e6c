//! Why a text is no policy.
ghost use Rattle.std.specs.Prelude.{Some};
ghost use Rattle.dnssec_policy.specs.Text.Faults.{fault_text};

use std::fmt;

/// Why a text was not read as a policy. Lines are counted from 1, and the first one with a fault is
/// named.
#[derive(Clone, Copy, Debug, PartialEq)]
pub enum PolicyFault {
    /// This line doesn't have the form of a line of a policy.
    Malformed(usize),
    /// This line says once more what a line above it says.
    SaidTwice(usize),
    /// This line speaks of keys that line 1 doesn't roll, as of ZSKs beside `csk-roll`.
    NoSuchKeys(usize),
    /// Memory has run out.
    OutOfMemory,
}

impl fmt::Display for PolicyFault {
    ghost output = { λ fault. Some (fault_text fault) };

    /// Writes what a program shows its user, as `line 3: malformed`.
    fn fmt<W: fmt::Write>(&self, f: &mut fmt::Formatter<W>) -> fmt::Result {
        let (number, what) = match self {
            PolicyFault::Malformed(number) => (number, "malformed"),
            PolicyFault::SaidTwice(number) => (number, "said twice"),
            PolicyFault::NoSuchKeys(number) => (number, "no such keys by line 1"),
            PolicyFault::OutOfMemory => return f.write_str("out of memory"),
        };
        write!(f, "line {number}: {what}")
    }
}

impl std::error::Error for PolicyFault {}
