//! What to do next, by one text.
ghost use Rattle.std.specs.Prelude.{◌≡◌, IfOk, IfSome, map, string_bytes};
ghost use denote.Bor.{now};
ghost use Rattle.dnssec_policy.specs.Automatic.Asking.{AnswersParts, AnswersText, Asks, IsLastLine};
ghost use Rattle.dnssec_policy.specs.Automatic.Asking.{has_more};

use super::answer::answer_next;
use super::fault::NextFault;
use super::zone::AutomaticZone;
use crate::text::read_policy;
use dnssec_network::{DueFault, NotesFault, cut, read_question, without_end};
use dnssec_record::all_lines;
use std::alloc::Global;

/// What a policy says to do next, as one line without its line feed, such as
/// `report1 ksk-roll 3600 1700000000` or `publish ds`. The text has the lines of a policy, an empty
/// line, a script, an empty line, and its notes. The last line of these is `next` and the second
/// since 1970 that it asks about. One more empty line may stand at the end.
///
/// # Errors
///
/// - `Policy` with the fault of the policy.
/// - `Zone` with the fault of the script or of the notes. If the last line doesn't ask, the notes
///   are malformed at the line after it.
/// - `TooShort` if a lifetime of the policy is shorter than its roll takes by the notes' TTLs.
/// - `OutOfMemory` if memory runs out. In reading a part, it is within `Policy` or `Zone`.
///
/// ```rust
/// let text = "policy 13 ksk-roll zsk-roll\n\nzone example.com\n\nbefore 60 60 60\nnext 100\n";
/// let line = answer_text(alloc, text.as_bytes())?;
/// ```
pub fn answer_text(alloc: Global, text: &[u8]) -> Result<String, NextFault>
    ensures { IfOk result (λ line. AnswersText text.now (string_bytes line)) }
{
    let parts = cut(alloc, text)?;
    let line = answer_parts(alloc, &parts)?;
    Ok(line)
}

/// What a policy says to do next, as one line without its line feed, such as `publish ds`. The
/// `parts` are a policy, a script, and its notes, whose last line is `next` and the second since
/// 1970 that it asks about. One more part may follow if it is empty.
///
/// The error is the first fault of the policy, the script and the notes, a lifetime of the policy
/// that is `TooShort`, or a lack of memory. If a part is missing, the last line doesn't ask, or
/// more follows, and the parts can be read, the notes are malformed at the line after the last.
fn answer_parts(alloc: Global, parts: &[&[u8]]) -> Result<String, NextFault>
    ensures { IfOk result (λ line. AnswersParts (map now parts.now) (string_bytes line)) }
{
    let Some((policy, parts)) = parts.split_first() else {
        return unasked(alloc, b"", b"", b"");
    };
    let Some((script, parts)) = parts.split_first() else {
        return unasked(alloc, policy, b"", b"");
    };
    let Some((noted, more)) = parts.split_first() else {
        return unasked(alloc, policy, script, b"");
    };
    if has_more(more) {
        return unasked(alloc, policy, script, noted);
    }
    match asked(noted) {
        None => unasked(alloc, policy, script, noted),
        Some((notes, seconds)) => answer_next(alloc, policy, script, notes, seconds),
    }
}

/// Whether something follows after the notes of a text, given the parts after them. One empty part
/// doesn't count: it is only an empty line at the end.
fn has_more(parts: &[&[u8]]) -> bool
    ensures { result ≡ has_more (map now parts.now) }
{
    match parts.split_first() {
        None => false,
        Some((first, rest)) => !first.is_empty() || !rest.is_empty(),
    }
}

/// The fault of a text that asks nothing, never an answer. It is the first one of the policy, the
/// script and the notes, or a lack of memory. If all three can be read, a line that asks is missing
/// after the notes, and the notes are malformed at that line.
fn unasked(alloc: Global, policy: &[u8], script: &[u8], notes: &[u8]) -> Result<String, NextFault>
    ensures { IfOk result (λ _. ⊥) }
{
    match read_policy(alloc, policy) {
        Ok(_) => {
            AutomaticZone::resume(alloc, script, notes)?;
            let lines = all_lines(alloc, notes)?;
            let missing = NotesFault::Malformed(lines.len() + 1);
            Err(NextFault::Zone(DueFault::Notes(missing)))
        }
        Err(fault) => Err(NextFault::Policy(fault)),
    }
}

/// The notes above the last line of `noted`, and the second since 1970 that this last line asks
/// about, as `next 1700000000`. `None` if it doesn't ask, or if no line stands above it.
fn asked(noted: &[u8]) -> Option<(&[u8], u64)>
    ensures { IfSome result (λ asked. Asks noted.now asked.0.now asked.1) }
{
    let (notes, last) = last_line(without_end(noted))?;
    let seconds = read_question(b"next", last)?;
    Some((notes, seconds))
}

/// Cuts a text before its last line: the lines above it, each with its line feed, and the last
/// line. `text` comes without the line feed at its end. `None` if it has only one line.
fn last_line(text: &[u8]) -> Option<(&[u8], &[u8])>
    ensures { IfSome result (λ found. IsLastLine text.now found.0.now found.1.now) }
{
    let mut at = text.len();
    while at > 0 {
        if text[at - 1] == b'\n' {
            return Some((&text[..at], &text[at..]));
        }
        at -= 1;
    }
    None
}
