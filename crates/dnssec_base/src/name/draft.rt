//! The wire bytes of a name while its text is read. They stand on the stack, so a text with a fault
//! is never answered by lack of memory.
ghost use Rattle.std.specs.Prelude.{◌≡◌, ◌≢◌, [], ◌∷◌, ◌++◌, length, OnOk, IfErr};
ghost use Rattle.dnssec_base.specs.Inner.Draft.{HasRoom, IsLimit};
ghost use Rattle.dnssec_base.specs.NameText.{wire_end};
ghost use Rattle.dnssec_base.specs.WireName.{wire_label};

use super::NameError;
use super::wire::{MAX_LABEL, MAX_NAME};
use std::marker::Model;

/// Labels that have ended, and a last one that has not: its length is still to be written.
#[derive(Drop)]
pub struct Draft {
    octets: [u8; MAX_NAME],
    /// How many octets are in use.
    len: usize,
    /// Where the length of the last label goes. Until then a zero stands there.
    head: usize,
}

impl Model for Draft {
    ghost use Rattle.dnssec_base.specs.Inner.DraftName.{DraftName};

    ghost Value = { DraftName };

    ghost use Rattle.dnssec_base.specs.Inner.Draft.{draft_of, IsDraft};

    ghost view = { draft_of };

    ghost invariant = { IsDraft };
}

impl Draft {
    /// The draft of a name of whose text nothing is read yet: no label has ended, and the one that
    /// is being read is empty.
    pub fn new() -> Self
        ensures labels { result.labels ≡ [] }
        ensures label { result.label ≡ [] }
    {
        Draft {
            octets: [0; MAX_NAME],
            len: 1,
            head: 0,
        }
    }

    /// How many bytes the last label, which hasn't ended, has so far, without its length byte.
    pub fn label_len(&self) -> usize
        ensures { result ≡ length self.now.label }
    {
        self.len - (self.head + 1)
    }

    /// Adds `byte` to the last label, which hasn't ended. `LongLabel` if that label has 63 bytes
    /// already, else `LongName` if the byte and the root would take the name past 255 wire bytes.
    /// An error leaves the draft as it was.
    pub fn push(&mut self, byte: u8) -> Result<(), NameError>
        ensures labels { OnOk result (self.new.labels ≡ self.old.labels) }
        ensures label { OnOk result (self.new.label ≡ self.old.label ++ byte ∷ []) }
        ensures room { OnOk result (HasRoom self.old) }
        ensures limit { IfErr result (λ error. IsLimit error self.old) }
    {
        if self.label_len() == MAX_LABEL {
            return Err(NameError::LongLabel);
        }
        // The byte and the root have to fit.
        if self.len + 2 > MAX_NAME {
            return Err(NameError::LongName);
        }
        self.octets[self.len] = byte;
        self.len += 1;
        Ok(())
    }

    /// Ends the last label, which has to have bytes, and begins the next one, which is empty. Only
    /// now the length byte before the ended label is written.
    pub fn end_label(&mut self)
        requires { self.old.label ≢ [] }
        ensures labels { self.new.labels ≡ self.old.labels ++ wire_label self.old.label }
        ensures label { self.new.label ≡ [] }
    {
        self.octets[self.head] = self.label_len() as u8;
        self.octets[self.len] = 0;
        self.head = self.len;
        self.len += 1;
    }

    /// Ends the last label if it has bytes, and answers the wire bytes of the whole name: the
    /// labels and the root. An empty last label, as after a final dot, adds none. The draft then
    /// has an empty last label, so a second call answers the same bytes.
    pub fn finish(&mut self) -> &[u8]
        ensures { result.now ≡ self.old.labels ++ wire_end self.old.label }
    {
        if self.label_len() > 0 {
            self.end_label();
        }
        // The zero for the length of a label that stays empty is the root's.
        &self.octets[..self.len]
    }
}
