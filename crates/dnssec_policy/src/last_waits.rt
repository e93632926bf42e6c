//! The last second waits of the rolls.
ghost use Rattle.std.specs.Prelude.{◌≡◌, None, Some, if◌then◌else◌};
ghost use Rattle.dnssec_key.specs.declared.roll.RollType.{RollType as AnyRoll};
ghost use Rattle.dnssec_policy.specs.Code.{accepted_wait, is_wait_of, last_of, second_wait_of};
ghost use Rattle.dnssec_policy.specs.Laws.{LastsFollow};

use dnssec_keyset::RollType;
use dnssec_run::{Call, Reply};

/// The last second wait of each roll so far, as its position: the end of a roll counts from it.
///
/// ```rust
/// let wait = LastWaits::second_wait(&call);
/// let outcome = recorder.advance(alloc, call)?;
/// at += 1;
/// last_waits = last_waits.after(wait, &outcome.reply, at);
/// ```
#[derive(Clone, Copy, Debug)]
pub struct LastWaits {
    /// One for each roll, in their order in `RollType`.
    by_roll: [Option<usize>; 6],
}

impl LastWaits {
    /// The value before the first call of a zone: no roll has ended a second wait so far.
    pub fn new() -> Self
        ensures { (roll : AnyRoll) → last_of result roll ≡ None }
    {
        LastWaits { by_roll: [None; 6] }
    }

    /// The roll whose second wait, the one after its second report, this call ends
    /// (`CacheExpired2`). `None` for any other call. Whether the call is accepted doesn't count.
    /// Hand the answer to `after` once the call was made.
    pub fn second_wait(call: &Call<'_>) -> Option<RollType>
        ensures { result ≡ second_wait_of call.now }
    {
        match call {
            Call::CacheExpired2 { rolltype, .. } => Some(*rolltype),
            _ => None,
        }
    }

    /// The position of the last accepted call that ended a second wait of this roll, counted from 1
    /// for the first call of the zone. `None` if no call did.
    pub fn of(self, roll: RollType) -> Option<usize>
        ensures { result ≡ last_of self roll }
    {
        self.by_roll[roll as usize]
    }

    /// The last second waits once one more call was made. `wait` is the roll whose second wait that
    /// call ends, or `None`, by `second_wait`. `reply` is its answer, and `at` its position,
    /// counted from 1 for the first call of the zone. The position becomes that of the roll `wait`.
    /// A refused call changes nothing.
    pub fn after(self, wait: Option<RollType>, reply: &Reply, at: usize) -> Self
        ensures put { (roll : AnyRoll) → last_of result roll
            ≡ (if is_wait_of roll (accepted_wait reply.now wait) then Some at
            else last_of self roll) }
        ensures follows { LastsFollow self wait reply.now at result }
    {
        self.put(accepted_wait(wait, reply), at)
    }

    /// The last second waits with the position `at`, counted from 1, for the roll `wait`. Other
    /// rolls keep theirs, and all do if `wait` is `None`.
    fn put(mut self, wait: Option<RollType>, at: usize) -> Self
        ensures { (roll : AnyRoll) → last_of result roll
            ≡ (if is_wait_of roll wait then Some at else last_of self roll) }
    {
        if let Some(roll) = wait {
            self.by_roll[roll as usize] = Some(at);
        }
        self
    }
}

/// `wait`, the roll whose second wait a call ends, if `reply` accepts that call. `None` if it
/// refuses the call, or if `wait` is `None`.
fn accepted_wait(wait: Option<RollType>, reply: &Reply) -> Option<RollType>
    ensures { result ≡ accepted_wait reply.now wait }
{
    match reply {
        Reply::Done | Reply::Actions(_) => wait,
        Reply::Refused(_) => None,
    }
}
