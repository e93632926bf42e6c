//! The key set for C, and for what calls C.
//!
//! `keyset_answer` takes a script and writes its answers, and keeps nothing. A session keeps a zone
//! between two calls, so that a call costs what the call costs, and shows the zone's status.
//! `keyset_next` says what a policy wants to be done next.
#![tactic(auto)]

ghost use Rattle.std.specs.Prelude.{◌≡◌, ◌≢◌, ◌⊎◌, ◌↔◌, ℕ, ◌<◌, ◌≤◌, List, length, take, drop};
ghost use Rattle.std.specs.Prelude.{None, IsSome};
ghost use Rattle.dnssec_record.specs.Answer.{IsAnswerOf};
ghost use Rattle.dnssec_script.specs.Script.{IsFirstMalformed, IsScript, NamesZone, says};
ghost use Rattle.dnssec_run.specs.declared.call.Call.{Call};
ghost use Rattle.keyset_c.specs.Answered.{AtLength, StaysSafeIfPlain, TextEndsSafe};
ghost use Rattle.keyset_c.specs.Handles.{IsWhole, kept_by};
ghost use Rattle.keyset_c.specs.Sessions.{AcceptsLine, Calls, Forgoes, IfOpen, NotesLine, Opens};
ghost use Rattle.keyset_c.specs.Sessions.{RefusesCall, RefusesNote};

mod answered;
mod box_parts;
mod handle;
mod open_session;
mod pointer;
mod policies;
mod questions;
mod sessions;
mod texts;

pub use crate::answered::Answered;
use crate::answered::{ANSWERED, CLOSED, IS_OPEN, LOST, MALFORMED, OUT_OF_MEMORY, fault, hand_out};
pub use crate::handle::Handle;
use crate::open_session::OpenSession;
pub use crate::policies::keyset_next;
pub use crate::questions::{
    keyset_calls, keyset_closing, keyset_copy, keyset_due, keyset_status, keyset_told,
};
use crate::sessions::{accept, call, forgo_notes, note};
pub use crate::texts::{keyset_status_text, keyset_version_text};
use dnssec_network::SessionNotes;
use dnssec_record::{ScriptFault, Session, Std, run_script};
use dnssec_run::Moments;
use std::alloc::Global;

/// The version of what is exported here: of the calls, of their structs and of the statuses.
const VERSION: u32 = 3;

/// Answers the script into the front of `out`, with the bytes that the program `keyset` writes.
///
/// Status 0 has the length that was written, 1 the first malformed line, counted from 1, and 4 the
/// length that is needed if `out` is too short. 3 is lack of memory. Unless the status is 0,
/// nothing is written. `Global` takes no bytes, so C passes two pointers with their lengths.
#[unsafe(no_mangle)]
pub extern "C" fn keyset_answer(alloc: Global, script: &[u8], out: &mut [u8]) -> Answered
    // Answered: the input is a script, and the front of `out` is the output of a run of its calls.
    // What stands after it is as it was.
    ensures answered { result.status ≡ 0 → IsAnswerOf script.now (take result.length out.new) }
    ensures fits { result.status ≡ 0 → result.length ≤ length out.new }
    ensures rest { result.status ≡ 0 → drop result.length out.new ≡ drop result.length out.old }

    // If the list of its calls is plain, the run is safe, and the last line says so.
    ensures safe { result.status ≡ 0 →
        StaysSafeIfPlain script.now (take result.length out.new) }
    ensures chain { result.status ≡ 0 → TextEndsSafe script.now (take result.length out.new) }

    // Of a malformed input the first malformed line is named, and a script is never called
    // malformed.
    ensures malformed { result.status ≡ 1 → IsFirstMalformed script.now result.line }
    ensures well_formed { (name : List ℕ) (calls : List Call) → IsScript script.now name calls →
        result.status ≢ 1 }

    // Short of room is said only if it is so, with the length of an answer.
    ensures short { result.status ≡ 4 → length out.old < result.length }
    ensures needed { result.status ≡ 4 → AtLength (IsAnswerOf script.now) result.length }

    // Without an answer nothing is written.
    ensures silent { result.status ≢ 0 → out.new ≡ out.old }

    // There is no other status, and a field that a status has no use for is 0.
    ensures status { (result.status ≡ 0) ⊎ (result.status ≡ 1) ⊎ (result.status ≡ 3)
        ⊎ (result.status ≡ 4) }
    ensures no_length { (result.status ≡ 1) ⊎ (result.status ≡ 3) → result.length ≡ 0 }
    ensures no_line { result.status ≢ 1 → result.line ≡ 0 }
{
    let mut input = Std::new(script);
    let mut output = Std::new(Vec::new(alloc));
    match run_script(alloc, &mut input, &mut output) {
        Ok(()) => hand_out(&output.into_inner(), out),
        Err(ScriptFault::Malformed(line)) => Answered {
            status: MALFORMED,
            length: 0,
            line,
        },
        // A slice never fails, and a vector fails only for lack of memory.
        Err(ScriptFault::Device | ScriptFault::OutOfMemory) => fault(OUT_OF_MEMORY),
    }
}

/// The version of the interface of this library: of its calls, their structs and the statuses. C
/// compares it with that of its header.
#[unsafe(no_mangle)]
pub extern "C" fn keyset_version() -> u32
    ensures { result ≡ 3 }
{
    VERSION
}

/// Opens a session for the zone that the line names, as the first line of a script does, without a
/// line feed.
///
/// 0 if the session is now open, without calls and notes. Else it is as it was: 1 for a line that
/// names no zone, 3 for lack of memory, 6 if it was open before.
#[unsafe(no_mangle)]
pub extern "C" fn keyset_open(alloc: Global, line: &[u8], session: &mut Handle) -> u32
    requires { IsWhole session.old }
    ensures whole { IsWhole session.new }
    ensures opened { result ≡ 0 → Opens (kept_by session.new) line.now }
    ensures malformed { result ≡ 1 → ¬ NamesZone line.now }

    // A line that names no zone is malformed, and never lacks memory.
    ensures unnamed { kept_by session.old ≡ None → ¬ NamesZone line.now → result ≡ 1 }
    ensures memory { result ≡ 3 → NamesZone line.now }
    ensures is_open { (result ≡ 6) ↔ IsSome (kept_by session.old) }
    ensures unchanged { result ≢ 0 → kept_by session.new ≡ kept_by session.old }
    ensures status { (result ≡ 0) ⊎ (result ≡ 1) ⊎ (result ≡ 3) ⊎ (result ≡ 6) }
{
    if session.is_open() {
        return IS_OPEN;
    }
    match Session::open(alloc, line) {
        Ok(opened) => {
            let kept = OpenSession {
                session: opened,
                answer: String::new(alloc),
                moments: Some(Moments::new(alloc)),
                notes: SessionNotes::new(),
            };
            match Box::new(alloc, kept) {
                Ok(kept) => {
                    session.put(kept);
                    ANSWERED
                }
                Err(_) => OUT_OF_MEMORY,
            }
        }
        Err(ScriptFault::Malformed(_)) => MALFORMED,
        Err(ScriptFault::Device | ScriptFault::OutOfMemory) => OUT_OF_MEMORY,
    }
}

/// Makes the call of the line, without its line feed, and writes its answer into the front of
/// `out`.
///
/// The call is made, also if the key set refuses it, with status 0, or 4 if `out` is too short: the
/// length is then what is needed, and `keyset_told` writes the answer. After 1 (malformed), 3 (out
/// of memory) or 5 (closed) the session is as it was. After 12 it is closed, since memory ran out
/// after a part of the call was made: open one anew with the lines that were answered. Unless the
/// status is 0, nothing is written.
#[unsafe(no_mangle)]
pub extern "C" fn keyset_call(
    alloc: Global,
    session: &mut Handle,
    line: &[u8],
    out: &mut [u8],
) -> Answered
    // C holds what the library left there, or zeros.
    requires { IsWhole session.old }
    ensures whole { IsWhole session.new }

    // Answered: whatever record the run of its lines has, it has one entry more, and the front of
    // `out` is the answer to this line.
    ensures answered { result.status ≡ 0 →
        Calls (kept_by session.old) (kept_by session.new) line.now (take result.length out.new) }
    ensures fits { result.status ≡ 0 → result.length ≤ length out.new }
    ensures rest { result.status ≡ 0 → drop result.length out.new ≡ drop result.length out.old }

    // Short of room: the call is made, and its answer has this length.
    ensures short { result.status ≡ 4 → length out.old < result.length }
    ensures needed { result.status ≡ 4 →
        AtLength (Calls (kept_by session.old) (kept_by session.new) line.now) result.length }

    // A malformed line makes no call, and never lacks memory.
    ensures malformed { result.status ≡ 1 → says line.now ≡ None }
    ensures memory { result.status ≡ 3 → IsSome (says line.now) }
    ensures lost_line { result.status ≡ 12 → IsSome (says line.now) }

    // Malformed, out of memory, or closed before: it is as it was. Lost: it is closed.
    ensures kept { result.status ≢ 0 → result.status ≢ 4 → result.status ≢ 12 →
        kept_by session.new ≡ kept_by session.old }
    ensures lost { result.status ≡ 12 → kept_by session.new ≡ None }
    ensures closed { (result.status ≡ 5) ↔ (kept_by session.old ≡ None) }

    // Without an answer nothing is written, and there is no other status.
    ensures silent { result.status ≢ 0 → out.new ≡ out.old }
    ensures status { (result.status ≡ 0) ⊎ (result.status ≡ 1) ⊎ (result.status ≡ 3)
        ⊎ (result.status ≡ 4) ⊎ (result.status ≡ 5) ⊎ (result.status ≡ 12) }
    ensures no_length { result.status ≢ 0 → result.status ≢ 4 → result.length ≡ 0 }
    ensures no_line { result.line ≡ 0 }
{
    let Some(mut kept) = session.take(alloc) else {
        return fault(CLOSED);
    };
    let status = call(alloc, &mut *kept, line);
    if status == LOST {
        return fault(LOST);
    }
    if status != ANSWERED {
        session.put(kept);
        return fault(status);
    }
    let answered = hand_out(kept.answer.as_bytes(), out);
    session.put(kept);
    answered
}

/// Makes the call of the line, without its line feed, if the key set accepts it. `keyset_told`
/// writes the answer, of a refused call too.
///
/// 0 if the call is made. Else calls and notes are as they were: 1 for a malformed line, 3 for lack
/// of memory, also in the key set, 5 if the session is closed, 10 for a call refused otherwise.
#[unsafe(no_mangle)]
pub extern "C" fn keyset_accept(alloc: Global, session: &mut Handle, line: &[u8]) -> u32
    requires { IsWhole session.old }
    ensures whole { IsWhole session.new }

    // Accepted: whatever record the run of its lines has, it has one entry more. Refused: no call
    // is made, and only the answer that `keyset_told` writes is another.
    ensures accepted { result ≡ 0 →
        IfOpen AcceptsLine (kept_by session.old) line.now (kept_by session.new) }
    ensures refused { result ≡ 10 →
        IfOpen RefusesCall (kept_by session.old) line.now (kept_by session.new) }
    ensures malformed { result ≡ 1 → says line.now ≡ None }
    ensures memory { result ≡ 3 → IsSome (says line.now) }
    ensures closed { (result ≡ 5) ↔ (kept_by session.old ≡ None) }
    ensures unchanged { result ≢ 0 → result ≢ 10 → kept_by session.new ≡ kept_by session.old }
    ensures status { (result ≡ 0) ⊎ (result ≡ 1) ⊎ (result ≡ 3) ⊎ (result ≡ 5) ⊎ (result ≡ 10) }
{
    match session.look() {
        Some(kept) => accept(alloc, kept, line),
        None => CLOSED,
    }
}

/// Adds the next line to the notes of a session, after the calls that it has made so far: the TTLs
/// before call 1, what was published, with which TTL, or when all servers gave it. The calls stay
/// as they are.
///
/// 0 if it is added. Else the session is as it was: 1 for a malformed line, 3 for lack of memory, 5
/// if the session is closed; 7 if its call isn't made yet, 8 if all servers gave a set before it
/// was published, 9 for a moment before the last one, 11 if a set was published before its call was
/// made, 14 if the session forgoes notes.
#[unsafe(no_mangle)]
pub extern "C" fn keyset_note(alloc: Global, session: &mut Handle, line: &[u8]) -> u32
    requires { IsWhole session.old }
    ensures whole { IsWhole session.new }
    ensures noted { result ≡ 0 →
        IfOpen NotesLine (kept_by session.old) line.now (kept_by session.new) }
    ensures refused { result ≢ 0 → result ≢ 5 →
        RefusesNote (kept_by session.old) line.now result }
    ensures closed { (result ≡ 5) ↔ (kept_by session.old ≡ None) }
    ensures unchanged { result ≢ 0 → kept_by session.new ≡ kept_by session.old }
{
    match session.look() {
        Some(kept) => note(alloc, kept, line),
        None => CLOSED,
    }
}

/// Gives up the notes of a session, and what is kept for them, which grows by 16 bytes with each
/// call. From then on the session keeps neither, so that it is as small after many calls as after
/// few. The calls stay.
///
/// 0 if it forgoes them now, also if it did before. 5 if it is closed.
#[unsafe(no_mangle)]
pub extern "C" fn keyset_forgo_notes(session: &mut Handle) -> u32
    requires { IsWhole session.old }
    ensures whole { IsWhole session.new }
    ensures forgone { result ≡ 0 → Forgoes (kept_by session.old) (kept_by session.new) }
    ensures closed { (result ≡ 5) ↔ (kept_by session.old ≡ None) }
    ensures unchanged { result ≡ 5 → kept_by session.new ≡ kept_by session.old }
    ensures status { (result ≡ 0) ⊎ (result ≡ 5) }
{
    match session.look() {
        Some(kept) => {
            forgo_notes(kept);
            ANSWERED
        }
        None => CLOSED,
    }
}

/// Closes a session, and frees what it keeps. A closed session stays closed.
#[unsafe(no_mangle)]
pub extern "C" fn keyset_close(alloc: Global, session: &mut Handle)
    requires { IsWhole session.old }
    ensures whole { IsWhole session.new }
    ensures closed { kept_by session.new ≡ None }
{
    drop(session.take(alloc));
}
