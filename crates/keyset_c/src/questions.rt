//! What C asks of a session. A question reads it in its place, and writes nothing into it: so
//! questions may be asked side by side.
ghost use Rattle.std.specs.Prelude.{◌≡◌, ◌≢◌, ◌⊎◌, ◌↔◌, take, None, IsSome};
ghost use Rattle.keyset_c.specs.Answered.{AtLength, Hands};
ghost use Rattle.keyset_c.specs.Handles.{IsWhole, kept_by};
ghost use Rattle.keyset_c.specs.Sessions.{ClosesWith, Copies, HasMade, LacksNotes, Repeats};
ghost use Rattle.keyset_c.specs.Sessions.{ShowsDue, ShowsStatus};

use crate::answered::{ANSWERED, Answered, CLOSED, IS_OPEN, OUT_OF_MEMORY, fault, hand_out};
use crate::handle::Handle;
use crate::sessions::{copy_of, say_closing, say_due, say_status};
use std::alloc::Global;

/// How many calls an open session has made so far, which is the number of its last call. A refused
/// call counts if `keyset_call` made it. 0 of a closed session. The session stays as it is.
#[unsafe(no_mangle)]
pub extern "C" fn keyset_calls(session: &mut Handle) -> usize
    requires { IsWhole session.old }
    ensures whole { IsWhole session.new }
    ensures same { kept_by session.new ≡ kept_by session.old }
    ensures made { HasMade (kept_by session.old) result }
{
    match session.look() {
        Some(kept) => kept.session.calls(),
        None => 0,
    }
}

/// Writes the last answer of the session again, into the front of `out`: that to the last line
/// whose call was made or refused. Before the first such line it writes nothing, with status 0.
///
/// The status is 0, 5 for a closed session, or 4 with the length that is needed if `out` is too
/// short. Unless it is 0, nothing is written. The session never changes.
#[unsafe(no_mangle)]
pub extern "C" fn keyset_told(session: &mut Handle, out: &mut [u8]) -> Answered
    requires { IsWhole session.old }
    ensures whole { IsWhole session.new }
    ensures same { kept_by session.new ≡ kept_by session.old }
    ensures told { result.status ≡ 0 → Repeats (kept_by session.old) (take result.length out.new) }
    ensures needed { result.status ≡ 4 → AtLength (Repeats (kept_by session.old)) result.length }
    ensures closed { (result.status ≡ 5) ↔ (kept_by session.old ≡ None) }
    ensures status { (result.status ≡ 0) ⊎ (result.status ≡ 4) ⊎ (result.status ≡ 5) }
    ensures handed { Hands result.status result.length result.line out.old out.new }
{
    match session.look() {
        Some(kept) => hand_out(kept.answer.as_bytes(), out),
        None => fault(CLOSED),
    }
}

/// Writes the last two lines of the answers so far into the front of `out`: the sets that are
/// published after the last call, and the verdict on the record. That is `chain safe` if any sets
/// that caches may hold have a chain of trust or no DS, else `chain broken` with the first three
/// that have none.
///
/// The status is 0, 3 for lack of memory, 5 for a closed session, or 4 with the length that is
/// needed if `out` is too short. Unless it is 0, nothing is written. The session never changes.
#[unsafe(no_mangle)]
pub extern "C" fn keyset_closing(alloc: Global, session: &mut Handle, out: &mut [u8]) -> Answered
    requires { IsWhole session.old }
    ensures whole { IsWhole session.new }
    ensures same { kept_by session.new ≡ kept_by session.old }
    ensures told { result.status ≡ 0 →
        ClosesWith (kept_by session.old) (take result.length out.new) }
    ensures needed { result.status ≡ 4 →
        AtLength (ClosesWith (kept_by session.old)) result.length }
    ensures closed { (result.status ≡ 5) ↔ (kept_by session.old ≡ None) }
    ensures status { (result.status ≡ 0) ⊎ (result.status ≡ 3) ⊎ (result.status ≡ 4)
        ⊎ (result.status ≡ 5) }
    ensures handed { Hands result.status result.length result.line out.old out.new }
{
    match session.look() {
        Some(kept) => say_closing(alloc, &kept.session, out),
        None => fault(CLOSED),
    }
}

/// Writes the status of the zone after the calls so far into the front of `out`: one line of JSON.
///
/// The status of the call is 0, 3 for lack of memory, 5 for a closed session, or 4 with the length
/// that is needed if `out` is too short. Unless it is 0, nothing is written. The session never
/// changes.
#[unsafe(no_mangle)]
pub extern "C" fn keyset_status(alloc: Global, session: &mut Handle, out: &mut [u8]) -> Answered
    requires { IsWhole session.old }
    ensures whole { IsWhole session.new }
    ensures same { kept_by session.new ≡ kept_by session.old }
    ensures told { result.status ≡ 0 →
        ShowsStatus (kept_by session.old) (take result.length out.new) }
    ensures needed { result.status ≡ 4 →
        AtLength (ShowsStatus (kept_by session.old)) result.length }
    ensures closed { (result.status ≡ 5) ↔ (kept_by session.old ≡ None) }
    ensures status { (result.status ≡ 0) ⊎ (result.status ≡ 3) ⊎ (result.status ≡ 4)
        ⊎ (result.status ≡ 5) }
    ensures handed { Hands result.status result.length result.line out.old out.new }
{
    match session.look() {
        Some(kept) => say_status(alloc, &kept.session, out),
        None => fault(CLOSED),
    }
}

/// Writes a line for each of the session's rolls that waits for a report into the front of `out`:
/// the report, if it is due at `seconds` since 1970 by the session's notes, or else `not yet:` and
/// what it waits for. If no roll waits for one, it writes nothing, with status 0.
///
/// The status is 0, 1 if the session has no notes, 3 for lack of memory, 5 for a closed session, or
/// 4 with the length that is needed if `out` is too short. Unless it is 0, nothing is written. The
/// session never changes.
#[unsafe(no_mangle)]
pub extern "C" fn keyset_due(
    alloc: Global,
    session: &mut Handle,
    seconds: u64,
    out: &mut [u8],
) -> Answered
    requires { IsWhole session.old }
    ensures whole { IsWhole session.new }
    ensures same { kept_by session.new ≡ kept_by session.old }
    ensures told { result.status ≡ 0 →
        ShowsDue seconds (kept_by session.old) (take result.length out.new) }
    ensures needed { result.status ≡ 4 →
        AtLength (ShowsDue seconds (kept_by session.old)) result.length }
    // Without notes no other status is said.
    ensures no_notes { (result.status ≡ 1) ↔ LacksNotes (kept_by session.old) }
    ensures closed { (result.status ≡ 5) ↔ (kept_by session.old ≡ None) }
    ensures status { (result.status ≡ 0) ⊎ (result.status ≡ 1) ⊎ (result.status ≡ 3)
        ⊎ (result.status ≡ 4) ⊎ (result.status ≡ 5) }
    ensures handed { Hands result.status result.length result.line out.old out.new }
{
    match session.look() {
        Some(kept) => say_due(alloc, kept, seconds, out),
        None => fault(CLOSED),
    }
}

/// Opens the session `copy` with the calls, the last answer and the notes of `session`, so that a
/// caller can try a call on it.
///
/// 0 if it is now open, 6 if `copy` was open before, else 5 if `session` is closed, else 3 for lack
/// of memory. Unless it is 0, `copy` stays as it is. `session` never changes.
#[unsafe(no_mangle)]
pub extern "C" fn keyset_copy(alloc: Global, session: &mut Handle, copy: &mut Handle) -> u32
    requires session { IsWhole session.old }
    requires copy { IsWhole copy.old }
    ensures whole { IsWhole session.new }
    ensures whole_copy { IsWhole copy.new }
    ensures same { kept_by session.new ≡ kept_by session.old }
    ensures copied { result ≡ 0 → Copies (kept_by session.old) (kept_by copy.new) }
    ensures unchanged { result ≢ 0 → kept_by copy.new ≡ kept_by copy.old }
    ensures is_open { (result ≡ 6) ↔ IsSome (kept_by copy.old) }
    ensures closed { result ≡ 5 → kept_by session.old ≡ None }
    ensures status { (result ≡ 0) ⊎ (result ≡ 3) ⊎ (result ≡ 5) ⊎ (result ≡ 6) }
{
    if copy.is_open() {
        return IS_OPEN;
    }
    let Some(kept) = session.look() else {
        return CLOSED;
    };
    match copy_of(alloc, kept) {
        Ok(made) => {
            copy.put(made);
            ANSWERED
        }
        Err(_) => OUT_OF_MEMORY,
    }
}
