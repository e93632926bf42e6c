//! Zone names: their wire bytes and their text, by RFC 1035.
ghost use Rattle.std.specs.Prelude.{◌≡◌, ◌≢◌, ◌↔◌, Some};
ghost use Rattle.std.specs.Prelude.{IfOk, IfErr, IsOk, IsErrOf, IsOkUnless};
ghost use Rattle.dnssec_base.specs.WireName.{IsWireName};
ghost use Rattle.dnssec_base.specs.NameText.{Spells, StandsFirst, HasNoFault, name_text};

mod draft;
mod error;
mod laws;
mod piece;
mod print;
mod read;
mod wire;

pub use error::NameError;
pub use laws::{
    one_fault_stands_first, prints_its_spelling, spells_no_fault, spells_one_name,
    spells_unless_fault,
};
use print::Label;
use read::read;
use std::alloc::Global;
use std::convert::AsSlice;
use std::fmt;
use std::marker::Model;
use wire::{is_wire_name, split_label};

/// A zone name: `Octs` holds its bytes on the wire (RFC 1035, section 3.1).
///
/// The names of this crate are `Name<Vec<u8>>`. By the type's invariant each is a whole wire name.
#[derive(Debug, Drop)]
pub struct Name<Octs: AsSlice<u8>> {
    octets: Octs,
}

impl<Octs: AsSlice<u8>> Model for Name<Octs> {
    ghost use Rattle.std.specs.Prelude.{ℕ, List};

    ghost Value = { List ℕ };

    ghost use Rattle.dnssec_base.specs.WireName.{IsWireName};

    ghost view = { λ name. Octs.items name.octets };

    ghost invariant = { λ name. IsWireName (Octs.items name.octets) };
}

impl Name<Vec<u8>> {
    /// The name that a text spells, as in a zone file (RFC 1035, section 5.1).
    ///
    /// `.` is the root. In any other text dots stand between the labels, and one more may stand at
    /// the end. A byte from `!` to `~` stands for itself, except `.` and `\`. `\DDD` stands for the
    /// byte with this decimal number. `\X` stands for the character `X`, from the space to `~`, but
    /// no digit. Case is kept.
    ///
    /// The text is read once, from its start to its end or to a fault. After that `alloc` gives the
    /// memory for the wire bytes.
    ///
    /// # Errors
    ///
    /// The fault that stands first in the text. If a label and the name get too long at the same
    /// place, it is `LongLabel`. `OutOfMemory` comes only if the text has no fault.
    ///
    /// # Example
    ///
    /// ```
    /// let name = Name::<Vec<u8>>::from_str(alloc, "a\\.b.example")?;
    /// assert_eq!(rt; name.as_slice(), b"\x03a.b\x07example\x00".as_slice());
    /// ```
    pub fn from_str(alloc: Global, text: &str) -> Result<Self, NameError>
        ensures name { IfOk result (Spells text.now) }
        ensures fault { IfErr result (λ error.
            error ≢ NameError.OutOfMemory → StandsFirst text.now error) }
        ensures memory { IsErrOf result NameError.OutOfMemory → HasNoFault text.now }
    {
        if text == "." {
            let octets = Vec::from_slice(alloc, &[0])?;
            return Ok(Name { octets });
        }
        if text.is_empty() {
            return Err(NameError::EmptyLabel);
        }
        let mut draft = read(text.as_bytes())?;
        let octets = Vec::from_slice(alloc, draft.finish())?;
        Ok(Name { octets })
    }

    /// The name with these wire bytes (RFC 1035, section 3.1). It takes no memory.
    ///
    /// # Errors
    ///
    /// If the bytes are no wire name, the vector comes back as it was.
    pub fn from_octets(octets: Vec<u8>) -> Result<Self, Vec<u8>>
        ensures ok { IsOk result ↔ IsWireName octets.items }
        ensures bytes { IfOk result (λ name. name ≡ octets.items) }
        ensures back { IfErr result (λ vector. vector ≡ octets) }
    {
        if is_wire_name(&octets) {
            Ok(Name { octets })
        } else {
            Err(octets)
        }
    }

    /// The wire bytes of the name, from the length of its first label to the zero byte of the root.
    pub fn as_slice(&self) -> &[u8]
        ensures bytes { result.now ≡ self.now }
        ensures wire { IsWireName self.now }
    {
        self.octets.as_slice()
    }

    /// A second name with the same bytes, in memory of the same allocator.
    ///
    /// # Errors
    ///
    /// `OutOfMemory` if there is no memory for them.
    pub fn try_clone(&self) -> Result<Self, NameError>
        ensures ok { IfOk result (λ clone. clone ≡ self.now) }
        ensures memory { IsOkUnless result NameError.OutOfMemory }
    {
        let octets = self.octets.clone()?;
        Ok(Name { octets })
    }
}

/// Prints a text that spells the name (RFC 1035, section 5.1).
///
/// The root prints as `.`. Any other name prints its labels with dots between them, and no final
/// dot. In a label `.` and `\` have a `\` before them, other bytes from `!` to `~` print as
/// themselves, and all others as `\DDD`.
impl fmt::Display for Name<Vec<u8>> {
    ghost output = { λ name. Some (name_text name) };

    /// Writes to `f` a text that `from_str` reads back as this name: `.` for the root, else the
    /// labels with dots between them, and no final dot. It fails only if a write to `f` fails.
    fn fmt<W: fmt::Write>(&self, f: &mut fmt::Formatter<W>) -> fmt::Result {
        let Some((first, mut rest)) = split_label(self.as_slice()) else {
            return f.write_str(".");
        };
        write!(f, "{}", Label(first))?;
        'labels: while let Some((label, after)) = split_label(rest) {
            write!(f, ".{}", Label(label))?;
            rest = after;
        }
        Ok(())
    }
}
