//! The labels of a name, printed.
ghost use Rattle.std.specs.Prelude.{Some, flat_map};
ghost use Rattle.dnssec_base.specs.NameText.{printed_byte};

use std::fmt;

/// A label that prints its bytes.
#[derive(Clone, Copy)]
pub struct Label<'a>(pub &'a [u8]);

impl<'a> fmt::Display for Label<'a> {
    ghost output = { λ label. Some (flat_map printed_byte label.0.now) };

    /// Writes the bytes of the label to `f` as they stand in a zone file (RFC 1035, section 5.1),
    /// with an escape for each byte that needs one. The length byte isn't written. It fails only if
    /// a write to `f` fails.
    fn fmt<W: fmt::Write>(&self, f: &mut fmt::Formatter<W>) -> fmt::Result {
        for byte in self.0 {
            write!(f, "{}", LabelByte(*byte))?;
        }
        Ok(())
    }
}

/// A byte of a label, printed so that it reads back.
#[derive(Clone, Copy)]
struct LabelByte(u8);

impl fmt::Display for LabelByte {
    ghost output = { λ byte. Some (printed_byte byte.0) };

    /// Writes the byte to `f` so that it reads back: `.` and `\` with a `\` before them, other
    /// bytes from `!` to `~` as they are, and all others as `\DDD`, their number in three decimal
    /// digits. It fails only if a write to `f` fails.
    fn fmt<W: fmt::Write>(&self, f: &mut fmt::Formatter<W>) -> fmt::Result {
        let byte = self.0;
        match byte {
            b'.' | b'\\' => write!(f, "\\{}", char::from(byte)),
            b'!'..=b'~' => write!(f, "{}", char::from(byte)),
            _ => write!(f, "\\{byte:03}"),
        }
    }
}
