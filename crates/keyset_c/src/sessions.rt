//! The parts of the calls of a session.
ghost use Rattle.std.specs.Prelude.{◌≡◌, ◌≢◌, ◌⊎◌, ◌↔◌, ◌++◌, ◌∷◌, ℕ, List, [], take, None};
ghost use Rattle.std.specs.Prelude.{IfErr, IfOk, IsSome, OnOk};
ghost use Rattle.std.specs.Prelude.{string_bytes};
ghost use Rattle.dnssec_script.specs.Script.{says};
ghost use Rattle.dnssec_record.specs.Session.{StandsAfter};
ghost use Rattle.dnssec_run.specs.declared.call.Call.{Call};
ghost use Rattle.dnssec_run.specs.declared.record.Entry.{Entry};
ghost use Rattle.keyset_c.specs.Answered.{AtLength, Hands};
ghost use Rattle.keyset_c.specs.Sessions.{AcceptsLine, CallsLine, HasNoNotes, IsClosingOf, IsDueOf};
ghost use Rattle.keyset_c.specs.Sessions.{IsStatusOf, KeepsMoment, NotesLine, RefusesCall};
ghost use Rattle.keyset_c.specs.Sessions.{RefusesLine};

use crate::answered::{
    ANSWERED, Answered, LOST, MALFORMED, NO_NOTES, OUT_OF_MEMORY, REFUSED, fault, hand_out, refused,
};
use crate::open_session::OpenSession;
use dnssec_network::SessionNotes;
use dnssec_record::{CallFault, Response, Session, Trial};
use dnssec_run::Moments;
use dnssec_status::status;
use std::alloc::{AllocError, Global};

/// Makes the call of a line in an open session, also if the key set refuses it, and answers the
/// status for C.
///
/// 0 if the call was made, refused or not: its answer is then in `kept.answer`. 1 for a malformed
/// line, and 3 for lack of memory: `kept` stays as it is. 12 if memory ran out after a part of the
/// call was made: `kept` is then of no more use.
pub(crate) fn call(alloc: Global, kept: &mut OpenSession, line: &[u8]) -> u32
    ensures called { result ≡ 0 → CallsLine kept.old line.now kept.new }
    ensures malformed { result ≡ 1 → says line.now ≡ None }
    ensures memory { result ≡ 3 → IsSome (says line.now) }
    ensures lost { result ≡ 12 → IsSome (says line.now) }
    ensures kept { result ≢ 0 → result ≢ 12 → kept.new ≡ kept.old }
    ensures status { (result ≡ 0) ⊎ (result ≡ 1) ⊎ (result ≡ 3) ⊎ (result ≡ 12) }
    ensures room { result ≢ 4 }
    ensures open { result ≢ 5 }
{
    match kept.session.call(alloc, line) {
        Ok(Response::Answered(answer)) => match keep_moment(&mut kept.moments, &kept.session) {
            Ok(()) => {
                kept.answer = answer;
                ANSWERED
            }
            Err(_) => LOST,
        },
        Ok(Response::Malformed) => MALFORMED,
        Err(CallFault::OutOfMemory) => OUT_OF_MEMORY,
        Err(CallFault::Lost) => LOST,
    }
}

/// Adds the moment of the last call of `session` to those of the calls before it, if these are
/// kept. It fails only if there is no memory, and nothing is then added.
fn keep_moment(moments: &mut Option<Moments>, session: &Session) -> Result<(), AllocError>
    ensures ok { OnOk result ((name : List ℕ) (calls : List Call) (entries : List Entry)
        (entry : Entry) → StandsAfter name calls (entries ++ entry ∷ []) session.now →
        KeepsMoment moments.old moments.new entries entry) }
    ensures kept { IfErr result (λ _. moments.new ≡ moments.old) }
{
    match moments {
        Some(moments) => moments.add(session.latest()),
        None => Ok(()),
    }
}

/// Writes the last two lines of a session's answers into the front of `out`: the published sets,
/// and the verdict on the record, `chain safe` or `chain broken` with the first sets without a
/// chain. Status 0, or 3 for lack of memory, or 4 with the length that is needed if `out` is too
/// short. Unless it is 0, nothing is written.
pub(crate) fn say_closing(alloc: Global, session: &Session, out: &mut [u8]) -> Answered
    ensures answered { result.status ≡ 0 → IsClosingOf session.now (take result.length out.new) }
    ensures needed { result.status ≡ 4 → AtLength (IsClosingOf session.now) result.length }
    ensures status { (result.status ≡ 0) ⊎ (result.status ≡ 3) ⊎ (result.status ≡ 4) }
    ensures handed { Hands result.status result.length result.line out.old out.new }
{
    match session.closing(alloc) {
        Ok(text) => hand_out(text.as_bytes(), out),
        Err(_) => fault(OUT_OF_MEMORY),
    }
}

/// Writes the status of a session's zone into the front of `out`, as one line of JSON. Status 0, or
/// 3 for lack of memory, or 4 with the length that is needed if `out` is too short. Unless it is 0,
/// nothing is written.
pub(crate) fn say_status(alloc: Global, session: &Session, out: &mut [u8]) -> Answered
    ensures answered { result.status ≡ 0 → IsStatusOf session.now (take result.length out.new) }
    ensures needed { result.status ≡ 4 → AtLength (IsStatusOf session.now) result.length }
    ensures status { (result.status ≡ 0) ⊎ (result.status ≡ 3) ⊎ (result.status ≡ 4) }
    ensures handed { Hands result.status result.length result.line out.old out.new }
{
    match status(alloc, session) {
        Ok(text) => hand_out(&text, out),
        Err(_) => fault(OUT_OF_MEMORY),
    }
}

/// Writes a line for each roll that waits for a report into the front of `out`: the report, if it
/// is due at `seconds` since 1970 by the session's notes, or else `not yet:` and what it waits for.
/// Status 0, or 1 without notes, or 3 for lack of memory, or 4 with the length that is needed if
/// `out` is too short. Unless it is 0, nothing is written.
pub(crate) fn say_due(alloc: Global, kept: &OpenSession, seconds: u64, out: &mut [u8]) -> Answered
    ensures answered { result.status ≡ 0 →
        IsDueOf seconds kept.now (take result.length out.new) }
    ensures needed { result.status ≡ 4 → AtLength (IsDueOf seconds kept.now) result.length }
    ensures missing { (result.status ≡ 1) ↔ HasNoNotes kept.now }
    ensures status { (result.status ≡ 0) ⊎ (result.status ≡ 1) ⊎ (result.status ≡ 3)
        ⊎ (result.status ≡ 4) }
    ensures handed { Hands result.status result.length result.line out.old out.new }
{
    let Some(moments) = &kept.moments else {
        return fault(MALFORMED);
    };
    match kept.notes.due_now(alloc, &kept.session, moments, seconds) {
        Ok(Some(text)) => hand_out(text.as_bytes(), out),
        Ok(None) => fault(MALFORMED),
        Err(_) => fault(OUT_OF_MEMORY),
    }
}

/// Makes the call of a line in an open session if the key set accepts it, and answers the status
/// for C.
///
/// 0 if the call was made, and 10 if it was refused and so not made: the answer is then in
/// `kept.answer`. 1 for a malformed line, and 3 for lack of memory, also if the key set refuses the
/// call for that: `kept` stays as it is.
pub(crate) fn accept(alloc: Global, kept: &mut OpenSession, line: &[u8]) -> u32
    ensures accepted { result ≡ 0 → AcceptsLine kept.old line.now kept.new }
    ensures refused { result ≡ 10 → RefusesCall kept.old line.now kept.new }
    ensures malformed { result ≡ 1 → says line.now ≡ None }
    ensures memory { result ≡ 3 → IsSome (says line.now) }
    ensures unchanged { result ≢ 0 → result ≢ 10 → kept.new ≡ kept.old }
    ensures status { (result ≡ 0) ⊎ (result ≡ 1) ⊎ (result ≡ 3) ⊎ (result ≡ 10) }
    ensures open { result ≢ 5 }
{
    match kept.session.attempt(alloc, line) {
        Ok(Trial::Accepted { next, answer }) => match keep_moment(&mut kept.moments, &next) {
            Ok(()) => {
                kept.session = next;
                kept.answer = answer;
                ANSWERED
            }
            Err(_) => OUT_OF_MEMORY,
        },
        Ok(Trial::Refused(answer)) => {
            kept.answer = answer;
            REFUSED
        }
        Ok(Trial::Malformed) => MALFORMED,
        Err(_) => OUT_OF_MEMORY,
    }
}

/// Adds a line to the notes of an open session, and answers the status for C: 0 if it is added.
/// Else `kept` stays as it is: 1 malformed, 3 out of memory, 7 its call isn't made yet, 8 all
/// servers gave a set before it was published, 9 its moment is before the last one, 11 a set was
/// published before its call was made, 14 the session forgoes notes.
pub(crate) fn note(alloc: Global, kept: &mut OpenSession, line: &[u8]) -> u32
    ensures noted { result ≡ 0 → NotesLine kept.old line.now kept.new }
    ensures refused { result ≢ 0 → RefusesLine kept.old line.now result }
    ensures unchanged { result ≢ 0 → kept.new ≡ kept.old }
    ensures open { result ≢ 5 }
{
    let Some(moments) = &kept.moments else {
        return NO_NOTES;
    };
    match kept.notes.take_line(alloc, moments, line) {
        Ok(()) => ANSWERED,
        Err(fault) => refused(fault),
    }
}

/// Gives up the notes of an open session, and the moments of its calls. From then on it keeps
/// neither. The calls and the last answer stay.
pub(crate) fn forgo_notes(kept: &mut OpenSession)
    ensures { kept.new ≡ record kept.old { moments = None; notes = None } }
{
    kept.moments = None;
    kept.notes = SessionNotes::new();
}

/// A copy of all that an open session keeps: the zone after the same calls, the last answer, and
/// the notes with the moments that they need. It takes memory from `alloc`, and the only error is a
/// lack of it.
pub(crate) fn copy_of(alloc: Global, kept: &OpenSession) -> Result<Box<OpenSession>, AllocError>
    ensures stands { IfOk result (λ copy.
        (name : List ℕ) (calls : List Call) (entries : List Entry) →
        StandsAfter name calls entries kept.now.session →
        StandsAfter name calls entries copy.value.session) }
    ensures answer { IfOk result (λ copy.
        string_bytes copy.value.answer ≡ string_bytes kept.now.answer) }
    ensures notes { IfOk result (λ copy. copy.value.notes ≡ kept.now.notes) }
    ensures moments { IfOk result (λ copy. copy.value.moments ≡ kept.now.moments) }
{
    let moments = match &kept.moments {
        Some(moments) => Some(moments.try_clone()?),
        None => None,
    };
    let copy = OpenSession {
        session: kept.session.try_clone(alloc)?,
        answer: kept.answer.clone()?,
        moments,
        notes: kept.notes.try_clone(alloc)?,
    };
    Ok(Box::new(alloc, copy)?)
}
