//! Why no name was made.
ghost use Rattle.std.specs.Prelude.{◌≡◌, Some};
ghost use Rattle.dnssec_base.specs.NameText.{fault_text};
ghost use Rattle.dnssec_base.specs.declared.name.error.NameError.TheVariants.{OutOfMemory};

use std::alloc::AllocError;
use std::error::Error;
use std::fmt;

/// The fault that stands first in a text, or lack of memory.
#[derive(Clone, Copy, Debug, PartialEq, Eq)]
pub enum NameError {
    /// The text is empty, or a dot ends a label without bytes (RFC 1035, section 3.1).
    EmptyLabel,
    /// A label has more than 63 bytes (RFC 1035, section 2.3.4).
    LongLabel,
    /// The name has more than 255 bytes on the wire (RFC 1035, section 2.3.4).
    LongName,
    /// A backslash begins no escape (RFC 1035, section 5.1).
    BadEscape,
    /// A byte outside `!` to `~` stands in the text without an escape: a space, a control
    /// character, or a byte of a character that is not ASCII.
    BadByte,
    /// There was no memory for the wire bytes.
    OutOfMemory,
}

impl fmt::Display for NameError {
    ghost output = { λ error. Some (fault_text error) };

    /// Writes to `f` in a few words why no name was made, as `empty label`. It fails only if a
    /// write to `f` fails.
    fn fmt<W: fmt::Write>(&self, f: &mut fmt::Formatter<W>) -> fmt::Result {
        f.write_str(match self {
            NameError::EmptyLabel => "empty label",
            NameError::LongLabel => "label longer than 63 bytes",
            NameError::LongName => "name longer than 255 bytes",
            NameError::BadEscape => "illegal escape",
            NameError::BadByte => "illegal character",
            NameError::OutOfMemory => "out of memory",
        })
    }
}

impl Error for NameError {}

impl From<AllocError> for NameError {
    ghost from_gives = { λ _ error. error ≡ OutOfMemory };

    /// Turns a failed request for memory into `OutOfMemory`, so that `?` hands it on.
    fn from(_error: AllocError) -> Self {
        NameError::OutOfMemory
    }
}
