//! Pieces of JSON, written after what is there. A value comes with the piece before it.
ghost use Rattle.std.specs.Prelude.{◌≡◌, ◌++◌, ◌<◌, ℕ, List, OnOk, codes, decimal};
ghost use Rattle.dnssec_status.specs.Json.{array_json, escaped, flag_json, hex_digit, text_json};

use std::alloc::{AllocError, Global};

/// Appends `bytes` to `out` as they are, without escapes. If memory runs out, it fails, and `out`
/// may end in a part of this.
pub(crate) fn push_bytes(out: &mut Vec<u8>, bytes: &[u8]) -> Result<(), AllocError>
    ensures { OnOk result (out.new.items ≡ out.old.items ++ bytes.now) }
{
    out.extend_from_slice(bytes)?;
    Ok(())
}

/// Appends `before`, the JSON in front of the value, and then `text` as a JSON string: in quotes,
/// and with escapes. If memory runs out, it fails, and `out` may end in a part of this.
pub(crate) fn push_text(out: &mut Vec<u8>, before: &[u8], text: &[u8]) -> Result<(), AllocError>
    ensures { OnOk result (out.new.items ≡ (out.old.items ++ before.now) ++ text_json text.now) }
{
    push_bytes(out, before)?;
    push_bytes(out, b"\"")?;
    for byte in text {
        push_escaped(out, *byte)?;
    }
    push_bytes(out, b"\"")
}

/// Appends one `byte` of a JSON string to `out`. A quote, a backslash and a byte below 32 are
/// escaped, and any other byte stays as it is. If memory runs out, it fails, and `out` may end in a
/// part of this.
fn push_escaped(out: &mut Vec<u8>, byte: u8) -> Result<(), AllocError>
    ensures { OnOk result (out.new.items ≡ out.old.items ++ escaped byte) }
{
    if byte == b'"' {
        return push_bytes(out, b"\\\"");
    }
    if byte == b'\\' {
        return push_bytes(out, b"\\\\");
    }
    if byte < 32 {
        push_bytes(out, b"\\u00")?;
        return push_bytes(out, &[hex_digit(byte / 16), hex_digit(byte % 16)]);
    }
    push_bytes(out, &[byte])
}

/// The ASCII code of the hexadecimal digit for `number`. Letters are small.
fn hex_digit(number: u8) -> u8
    requires { number < 16 }
    ensures { result ≡ hex_digit number }
{
    if number < 10 {
        48 + number
    } else {
        87 + number
    }
}

/// Appends `before`, the JSON in front of the value, and then `number` in decimal digits. The
/// digits take their memory from `alloc`. If memory runs out, it fails, and `out` may end in a part
/// of this.
pub(crate) fn push_number(
    alloc: Global,
    out: &mut Vec<u8>,
    before: &[u8],
    number: u128,
) -> Result<(), AllocError>
    ensures { OnOk result (out.new.items ≡ (out.old.items ++ before.now) ++ decimal number) }
{
    let digits = format!(in alloc; "{number}")?;
    push_bytes(out, before)?;
    push_bytes(out, digits.as_bytes())
}

/// Appends `before`, the JSON in front of the value, and then `null`, since the value is missing.
/// If memory runs out, it fails, and `out` may end in a part of this.
pub(crate) fn push_null(out: &mut Vec<u8>, before: &[u8]) -> Result<(), AllocError>
    ensures { OnOk result (out.new.items ≡ (out.old.items ++ before.now) ++ codes "null") }
{
    push_bytes(out, before)?;
    push_bytes(out, b"null")
}

/// Appends `before`, the JSON in front of the value, and then `flag` as `true` or `false`. If
/// memory runs out, it fails, and `out` may end in a part of this.
#[tactic(auto, unfolding(crate::specs::Json::flag_json))]
pub(crate) fn push_flag(out: &mut Vec<u8>, before: &[u8], flag: bool) -> Result<(), AllocError>
    ensures { OnOk result (out.new.items ≡ (out.old.items ++ before.now) ++ flag_json flag) }
{
    push_bytes(out, before)?;
    if flag {
        push_bytes(out, b"true")
    } else {
        push_bytes(out, b"false")
    }
}

/// Writes the elements of a JSON array, one at a time.
pub(crate) trait Writer<T> {
    // The text of an element.
    ghost json: { Self → T → List ℕ };

    /// Appends the JSON text of `element` to `out`. If memory runs out, it fails, and `out` may end
    /// in a part of this.
    fn push(&self, out: &mut Vec<u8>, element: &T) -> Result<(), AllocError>
        ensures { OnOk result (out.new.items ≡ out.old.items ++ json self.now element.now) };
}

/// Appends `elements` to `out` as a JSON array, in their order. `writer` writes each of them. If
/// memory runs out, it fails, and `out` may end in a part of this.
#[tactic(auto, unfolding(crate::specs::Json::array_json, crate::specs::Json::further_json))]
pub(crate) fn push_array<T, W: Writer<T>>(
    out: &mut Vec<u8>,
    writer: &W,
    elements: &[T],
) -> Result<(), AllocError>
    ensures { OnOk result (out.new.items ≡ out.old.items
        ++ array_json (W.json writer.now) elements.now) }
{
    let Some((first, rest)) = elements.split_first() else {
        return push_bytes(out, b"[]");
    };
    push_bytes(out, b"[")?;
    writer.push(out, first)?;
    for element in rest {
        push_bytes(out, b",")?;
        writer.push(out, element)?;
    }
    push_bytes(out, b"]")
}
