//! The pieces of a name's text: dots, and symbols that stand for bytes (RFC 1035, section 5.1).
ghost use Rattle.std.specs.Prelude.{◌∷◌, ℕ, List, IfOk, IfErr, IfNone, IfSome};
ghost use Rattle.dnssec_base.specs.NameText.{BeginsWithSymbol, backslash};
ghost use Rattle.dnssec_base.specs.Inner.Pieces.{IsPiece, IsEscape, IsDecimal, IsBadPiece};

use super::NameError;

/// What stands at one place of a name's text.
pub enum NamePiece {
    /// An unescaped dot, which ends a label.
    Dot,
    /// A symbol, by the byte that it stands for.
    Byte(u8),
}

/// Splits a name's text, which is the byte `first` and then `text`, after its first piece: a dot,
/// or a character or an escape that stands for a byte. Answers this piece and the text after it.
/// `BadEscape` if a backslash begins no escape, `BadByte` if `first` is outside `!` to `~`.
#[tactic(auto, using(crate::proofs::Symbols::plain_piece))]
pub fn split_piece(first: u8, text: &[u8]) -> Result<(NamePiece, &[u8]), NameError>
    ensures ok { IfOk result (λ split. IsPiece split.0 (first ∷ text.now) split.1.now) }
    ensures err { IfErr result (λ error. IsBadPiece error (first ∷ text.now)) }
{
    match first {
        b'.' => Ok((NamePiece::Dot, text)),
        b'\\' => {
            let (byte, text) = split_escape(text).ok_or(NameError::BadEscape)?;
            Ok((NamePiece::Byte(byte), text))
        }
        b'!'..=b'~' => Ok((NamePiece::Byte(first), text)),
        _ => Err(NameError::BadByte),
    }
}

/// The byte that an escape stands for, and the text after the escape. `text` follows the backslash.
/// `None` if it begins neither with three digits that write a number up to 255, nor with a
/// character from the space to `~` that is no digit.
#[tactic(auto, using(crate::proofs::Symbols::escapes))]
fn split_escape(text: &[u8]) -> Option<(u8, &[u8])>
    ensures some { IfSome result (λ split. IsEscape split.0 text.now split.1.now) }
    ensures none { IfNone result (¬ BeginsWithSymbol (backslash ∷ text.now)) }
{
    let (&first, after) = text.split_first()?;
    match first {
        b'0'..=b'9' => split_decimal(text),
        b' '..=b'~' => Some((first, after)),
        _ => None,
    }
}

/// The byte whose number the first three characters of `text` write in decimal digits, and the text
/// after them. `None` if they aren't three digits, or write a number above 255.
fn split_decimal(text: &[u8]) -> Option<(u8, &[u8])>
    ensures some { IfSome result (λ split. IsDecimal split.0 text.now split.1.now) }
    ensures none { IfNone result ((byte : ℕ) (after : List ℕ) → ¬ IsDecimal byte text.now after) }
{
    let [
        x @ b'0'..=b'9',
        y @ b'0'..=b'9',
        z @ b'0'..=b'9',
        after @ ..,
    ] = text
    else {
        return None;
    };
    let hundreds = u16::from(x - b'0') * 100;
    let byte = hundreds + u16::from(y - b'0') * 10 + u16::from(z - b'0');
    Some((u8::try_from(byte).ok()?, after))
}
