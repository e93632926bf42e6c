//! What went otherwise than it should.
use std::fmt;

#[derive(Clone, Copy, Debug)]
pub(crate) enum Failure {
    /// No calls have this letter.
    Letter,
    /// A name wasn't read, copied or printed as it should be.
    Name(&'static str),
    /// A key or a set wasn't copied as it should be.
    Copy,
    /// A script wasn't recorded as it should be.
    Record,
    /// A record wasn't judged as it should be.
    Verdict,
}

impl fmt::Display for Failure {
    fn fmt<W: fmt::Write>(&self, f: &mut fmt::Formatter<W>) -> fmt::Result {
        match self {
            Failure::Letter => f.write_str("no calls have this letter"),
            Failure::Name(text) => write!(f, "the name {text}"),
            Failure::Copy => f.write_str("a copy"),
            Failure::Record => f.write_str("a record"),
            Failure::Verdict => f.write_str("a verdict"),
        }
    }
}

impl std::error::Error for Failure {}
