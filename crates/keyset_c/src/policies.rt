//! What C asks of a policy. Nothing is kept: a script and its notes are the whole state.
ghost use Rattle.std.specs.Prelude.{◌≡◌, ◌⊎◌, ◌≤◌, length, string_bytes, take, IfOk};
ghost use Rattle.dnssec_policy.specs.Automatic.Answer.{AnswersNext};
ghost use Rattle.dnssec_policy.specs.Automatic.Faults.{next_fault_text};
ghost use Rattle.keyset_c.specs.Answered.{HandsText};
ghost use Rattle.keyset_c.specs.Policies.{IsSaid, SaysWhy};

use crate::answered::{ANSWERED, Answered, NOT_SAID, OUT_OF_MEMORY, fault, hand_out};
use dnssec_policy::{NextFault, answer_next};
use std::alloc::{AllocError, Global};

/// Writes what the text `policy` says to do next at `seconds` since 1970, after the calls of
/// `script` and by its `notes`: a line without its line feed, in the form that docs/POLICY.md has.
///
/// Status 0 if it is written. 13 if the policy, the script or the notes are refused, or a lifetime
/// of the policy is shorter than its roll takes: then it writes why, as the program `keyset` does.
/// 3 for lack of memory, and 4 with the length that is needed if `out` is too short. After 3 or 4
/// nothing is written.
#[unsafe(no_mangle)]
pub extern "C" fn keyset_next(
    alloc: Global,
    policy: &[u8],
    script: &[u8],
    notes: &[u8],
    seconds: u64,
    out: &mut [u8],
) -> Answered
    ensures said { result.status ≡ 0 →
        AnswersNext policy.now script.now notes.now seconds (take result.length out.new) }
    ensures why { result.status ≡ 13 → SaysWhy (take result.length out.new) }
    ensures needed { result.status ≡ 4 →
        IsSaid policy.now script.now notes.now seconds result.length }
    ensures status { (result.status ≡ 0) ⊎ (result.status ≡ 3) ⊎ (result.status ≡ 4)
        ⊎ (result.status ≡ 13) }
    ensures handed { HandsText result.status result.length result.line out.old out.new }
{
    match answer_next(alloc, policy, script, notes, seconds) {
        Ok(line) => hand_out(line.as_bytes(), out),
        Err(why) => refuse(alloc, &why, out),
    }
}

/// Answers C that what a policy says to do next was not found out: status 13, with the reason `why`
/// in the front of `out`. It is 3 if `why` is a lack of memory, or if there is none for the text of
/// the reason, and 4 with the length that is needed if `out` is too short. After 3 or 4 nothing is
/// written.
fn refuse(alloc: Global, why: &NextFault, out: &mut [u8]) -> Answered
    ensures why { result.status ≡ 13 → take result.length out.new ≡ next_fault_text why.now }
    ensures needed { result.status ≡ 4 → result.length ≡ length (next_fault_text why.now) }
    ensures status { (result.status ≡ 3) ⊎ (result.status ≡ 4) ⊎ (result.status ≡ 13) }
    ensures handed { HandsText result.status result.length result.line out.old out.new }
{
    if why.lacks_memory() {
        return fault(OUT_OF_MEMORY);
    }
    match text_of(alloc, why) {
        Ok(text) => hand_out_why(text.as_bytes(), out),
        Err(_) => fault(OUT_OF_MEMORY),
    }
}

/// Writes `text`, the reason why there is no answer to what a policy says to do next, into the
/// front of `out`, if it fits, with status 13 and the length of the text in bytes. Otherwise the
/// status is 4 with the length that is needed, and nothing is written.
fn hand_out_why(text: &[u8], out: &mut [u8]) -> Answered
    ensures status { (result.status ≡ 4) ⊎ (result.status ≡ 13) }
    ensures length { result.length ≡ length text.now }
    ensures written { result.status ≡ 13 → take result.length out.new ≡ text.now }
    ensures handed { HandsText result.status result.length result.line out.old out.new }
{
    let handed = hand_out(text, out);
    if handed.status == ANSWERED {
        Answered {
            status: NOT_SAID,
            length: handed.length,
            line: 0,
        }
    } else {
        handed
    }
}

/// The reason `why` there is no answer to what a policy says to do next, in the words of the
/// program `keyset`. It takes memory from `alloc`, and the only error is a lack of it.
fn text_of(alloc: Global, why: &NextFault) -> Result<String, AllocError>
    ensures { IfOk result (λ text. string_bytes text ≡ next_fault_text why.now) }
{
    let text = format!(in alloc; "{why}")?;
    Ok(text)
}
