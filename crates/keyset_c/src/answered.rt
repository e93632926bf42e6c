//! How C is answered.
ghost use Rattle.std.specs.Prelude.{◌≡◌, ◌≢◌, ◌⊎◌, ◌<◌, ◌≤◌, length, take, drop};
ghost use Rattle.keyset_c.specs.Sessions.{status_of};

use dnssec_network::{LineFault, NoteFault};

/// The answer was written.
pub(crate) const ANSWERED: u32 = 0;
/// A line doesn't have the form of a script's line.
pub(crate) const MALFORMED: u32 = 1;
/// Memory has run out.
pub(crate) const OUT_OF_MEMORY: u32 = 3;
/// The answer is longer than the room for it.
pub(crate) const SHORT: u32 = 4;
/// The session is closed.
pub(crate) const CLOSED: u32 = 5;
/// The session is open.
pub(crate) const IS_OPEN: u32 = 6;
/// A line of notes has the sets of a call that wasn't made yet.
pub(crate) const NO_SUCH_CALL: u32 = 7;
/// By a line of notes a version was seen everywhere before it was published.
pub(crate) const SEEN_EARLY: u32 = 8;
/// A line of notes has a moment before the last one.
pub(crate) const MOMENT_FALLS: u32 = 9;
/// The key set refuses the call.
pub(crate) const REFUSED: u32 = 10;
/// By a line of notes a version was published before its call.
pub(crate) const PUBLISHED_EARLY: u32 = 11;

/// Memory ran out after a part of a call was made. The session is closed.
pub(crate) const LOST: u32 = 12;

/// What a policy says was not said, and the answer is why.
pub(crate) const NOT_SAID: u32 = 13;

/// The session forgoes notes.
pub(crate) const NO_NOTES: u32 = 14;

/// How a call of the library was answered.
#[repr(C)]
#[derive(Drop)]
pub struct Answered {
    /// 0 answered, 1 malformed, 3 out of memory: as the program `keyset` ends. 4 short of room, 5
    /// for a closed session, 12 for a lost one, 13 if what a policy says is not said. It is never
    /// 2, the program's status if a device has failed.
    pub status: u32,
    /// Answered, or not said: how many bytes were written. Short of room: how many bytes the answer
    /// needs. Else 0.
    pub length: usize,
    /// Malformed script: the first malformed line, counted from 1. Else 0.
    pub line: usize,
}

/// The status that C gets for a line that isn't added to the notes of a session: 1 malformed, 3 out
/// of memory, 7 its call isn't made yet, 8 all servers gave a set before it was published, 9 its
/// moment is before the last one, 11 a set was published before its call was made.
pub(crate) fn refused(fault: LineFault) -> u32
    ensures rule { result ≡ status_of fault }
    ensures not_answered { result ≢ 0 }
    ensures not_closed { result ≢ 5 }
{
    match fault {
        LineFault::Malformed => MALFORMED,
        LineFault::Refused(NoteFault::CallNotMade) => NO_SUCH_CALL,
        LineFault::Refused(NoteFault::SeenBeforePublished) => SEEN_EARLY,
        LineFault::Refused(NoteFault::MomentFalls) => MOMENT_FALLS,
        LineFault::Refused(NoteFault::PublishedBeforeCall) => PUBLISHED_EARLY,
        LineFault::Refused(NoteFault::OutOfMemory) | LineFault::OutOfMemory => OUT_OF_MEMORY,
    }
}

/// What C gets if there is only a `status`. No bytes were written, so the length is 0. The line is
/// 0 too, also if the line of a call was malformed.
pub(crate) fn fault(status: u32) -> Answered
    ensures status { result.status ≡ status }
    ensures length { result.length ≡ 0 }
    ensures line { result.line ≡ 0 }
{
    Answered {
        status,
        length: 0,
        line: 0,
    }
}

/// Writes an answer for C into the front of `out`, if it fits. The status is then 0, and the length
/// is that of the text in bytes. Otherwise it is 4 with the length that is needed, and `out` stays
/// as it is.
pub(crate) fn hand_out(text: &[u8], out: &mut [u8]) -> Answered
    ensures status { (result.status ≡ 0) ⊎ (result.status ≡ 4) }
    ensures length { result.length ≡ length text.now }
    ensures line { result.line ≡ 0 }
    ensures written { result.status ≡ 0 → take result.length out.new ≡ text.now }
    ensures fits { result.status ≡ 0 → result.length ≤ length out.new }
    ensures rest { result.status ≡ 0 → drop result.length out.new ≡ drop result.length out.old }
    ensures short { result.status ≡ 4 → length out.old < result.length }
    ensures silent { result.status ≡ 4 → out.new ≡ out.old }
{
    let length = text.len();
    if length <= out.len() {
        out[..length].copy_from_slice(text);
        Answered {
            status: ANSWERED,
            length,
            line: 0,
        }
    } else {
        Answered {
            status: SHORT,
            length,
            line: 0,
        }
    }
}
