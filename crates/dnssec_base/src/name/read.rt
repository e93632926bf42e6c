//! A name's text, read into its labels.
ghost use Rattle.std.specs.Prelude.{◌≢◌, [], IfOk, IfErr};
ghost use Rattle.dnssec_base.specs.Inner.Draft.{IsRead};
ghost use Rattle.dnssec_base.specs.NameText.{StandsFirst, root_text};

use super::NameError;
use super::draft::Draft;
use super::piece::{NamePiece, split_piece};

/// Reads the text of a name into the wire bytes of a draft, in one pass. The text is neither empty
/// nor `.`. The last label of the draft isn't ended yet: `finish` does that. The error is the fault
/// that stands first in the text, and never `OutOfMemory`.
#[tactic(auto, using(crate::proofs::Reading::reading))]
pub fn read(text: &[u8]) -> Result<Draft, NameError>
    requires some { text.now ≢ [] }
    requires other { text.now ≢ root_text }
    ensures ok { IfOk result (IsRead text.now) }
    ensures err { IfErr result (StandsFirst text.now) }
{
    let mut draft = Draft::new();
    let mut rest = text;
    'pieces: while let Some((&first, after)) = rest.split_first() {
        let (piece, after) = split_piece(first, after)?;
        match piece {
            NamePiece::Dot if draft.label_len() == 0 => return Err(NameError::EmptyLabel),
            NamePiece::Dot => draft.end_label(),
            NamePiece::Byte(byte) => draft.push(byte)?,
        }
        rest = after;
    }
    Ok(draft)
}
