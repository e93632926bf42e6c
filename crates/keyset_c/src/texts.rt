//! What statuses mean, as texts.
ghost use Rattle.std.specs.Prelude.{◌≡◌, ◌⊎◌, ◌≤◌, codes, length, take};
ghost use Rattle.keyset_c.specs.Answered.{AtLength, Hands};
ghost use Rattle.keyset_c.specs.Texts.{status_text};

use crate::answered::{
    ANSWERED, Answered, CLOSED, IS_OPEN, LOST, MALFORMED, MOMENT_FALLS, NO_NOTES, NO_SUCH_CALL,
    NOT_SAID, OUT_OF_MEMORY, PUBLISHED_EARLY, REFUSED, SEEN_EARLY, SHORT, hand_out,
};

/// The release that this library is of.
const RELEASE: &str = "1.1.0";

/// Writes what a status means into the front of `out`, as `out of memory`, without a line feed. Of
/// another number it writes `no such status`.
///
/// 64 bytes always suffice. The status of the call itself is 0, or 4 with the length that is needed
/// if `out` is shorter, and then nothing is written.
#[unsafe(no_mangle)]
pub extern "C" fn keyset_status_text(status: u32, out: &mut [u8]) -> Answered
    ensures told { result.status ≡ 0 → take result.length out.new ≡ status_text status }
    ensures needed { result.length ≡ length (status_text status) }
    ensures room { result.length ≤ 64 }
    ensures status { (result.status ≡ 0) ⊎ (result.status ≡ 4) }
    ensures handed { Hands result.status result.length result.line out.old out.new }
{
    hand_out(text_of(status).as_bytes(), out)
}

/// Writes the release of this library into the front of `out`, as `1.1.0`, without a line feed.
///
/// 64 bytes always suffice. The status is 0, or 4 with the length that is needed if `out` is
/// shorter, and then nothing is written.
#[unsafe(no_mangle)]
pub extern "C" fn keyset_version_text(out: &mut [u8]) -> Answered
    ensures told { result.status ≡ 0 → take result.length out.new ≡ codes "1.1.0" }
    ensures room { result.length ≡ 5 }
    ensures status { (result.status ≡ 0) ⊎ (result.status ≡ 4) }
    ensures handed { Hands result.status result.length result.line out.old out.new }
{
    hand_out(RELEASE.as_bytes(), out)
}

/// The text that says what a status means to C, of at most 64 bytes: `no such status` for a number
/// that is none.
#[tactic(auto, using(std::proofs::lemmas::Grind::common_steps))]
fn text_of(status: u32) -> &'static str
    ensures text { result.now ≡ status_text status }
    ensures room { length result.now ≤ 64 }
{
    match status {
        ANSWERED => "answered",
        MALFORMED => "malformed",
        OUT_OF_MEMORY => "out of memory",
        SHORT => "short of room",
        CLOSED => "the session is closed",
        IS_OPEN => "the session is open",
        NO_SUCH_CALL => "no such call yet",
        SEEN_EARLY => "seen before it was published",
        MOMENT_FALLS => "moment before the last one",
        REFUSED => "refused",
        PUBLISHED_EARLY => "published before its call",
        LOST => "out of memory in a call: the session is closed",
        NOT_SAID => "the policy, the script or the notes are refused",
        NO_NOTES => "the session forgoes notes",
        _ => "no such status",
    }
}
