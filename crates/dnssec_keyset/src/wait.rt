//! When a wait is over, and why it is refused before. Nothing is changed here.
ghost use Rattle.std.specs.Prelude.{◌≡◌, ◌-◌, ◌*◌, ◌^◌, ◌≤◌, min, OnOk, IsSome, IfSome, IfNone};
ghost use Rattle.std.specs.Duration.{as_nanos};
ghost use Rattle.dnssec_zone.specs.Rolls.{phase_of};
ghost use Rattle.dnssec_keyset.specs.Step.{AnswersWait, wait_clearance};
ghost use Rattle.dnssec_keyset.specs.WaitEnd.{EndsAt, HasNoWait, SaysEnd};

use crate::set::KeySet;
use dnssec_key::{Error, Half, RollState, RollType, UnixTime};
use std::time::Duration;

/// When the wait of a roll is over.
#[derive(Clone, Copy, Debug, PartialEq, Eq)]
pub enum WaitEnd {
    /// From this moment on.
    At(UnixTime),
    /// After the greatest moment that a `UnixTime` can have.
    PastTime,
}

/// How long a wait that is over at `end` still lasts at `now`, but at most `ttl` seconds. It is
/// zero if the wait is over. Both moments are in nanoseconds since 1970.
fn left_until(end: u128, now: u128, ttl: u32) -> Duration
    ensures { as_nanos result ≡ min (ttl * 1_000_000_000) (end - now) }
{
    let ttl = u64::from(ttl) * 1_000_000_000;
    Duration::from_nanos(end.saturating_sub(now).min(u128::from(ttl)) as u64)
}

/// The moment that is `nanos` nanoseconds after the start of 1970, or `None` if it lies past the
/// greatest moment that a `UnixTime` can have.
fn moment_of(nanos: u128) -> Option<UnixTime>
    ensures same { IfSome result (λ moment. moment ≡ nanos) }
    ensures past { IfNone result (2 ^ 64 * 1_000_000_000 ≤ nanos) }
{
    let seconds = u64::try_from(nanos / 1_000_000_000).ok()?;
    let beyond = (nanos % 1_000_000_000) as u32;
    Some(UnixTime::from(Duration::new(seconds, beyond)))
}

impl KeySet {
    /// Checks whether the wait of a half of the roll is over at the moment `now`. The key set stays
    /// as it is. Only the end of the wait is remembered, so that the next call needs no walk over
    /// the keys.
    ///
    /// The first refusal that applies is answered: `WrongStateForRollOperation` if the roll isn't
    /// in this wait, `WrongKeyState` if a key that the wait checks lacks the stamp that it reads,
    /// `Wait` with the time that is left, but at most the TTL, if it is early. It is never early if
    /// the TTL is 0 or the wait checks no key.
    pub(crate) fn check_wait(
        &mut self,
        rolltype: RollType,
        half: Half,
        now: &UnixTime,
    ) -> Result<(), Error>
        ensures reply { AnswersWait (wait_clearance rolltype half now.now self.old) result }
        ensures there { OnOk result (IsSome (phase_of self.old.rolls rolltype)) }
        ensures same { self.new ≡ self.old }
    {
        let Some(ttl) = self.rolls.ttl_in(rolltype, half) else {
            return Err(Error::WrongStateForRollOperation);
        };
        let Some(end) = self.keys.find_wait(self.alloc, rolltype, half, ttl) else {
            return Err(Error::WrongKeyState);
        };
        let now = Duration::from(*now).as_nanos();
        if now < end {
            return Err(Error::Wait(left_until(end, now, ttl)));
        }
        Ok(())
    }

    /// The nanosecond since 1970 from which the wait of a roll is over, or `None` if the roll isn't
    /// in a phase that waits, or if a key that the wait checks lacks the stamp that it reads.
    /// Otherwise it is 0 if the TTL is 0 or the wait checks no key.
    fn over_in_phase(&self, rolltype: RollType) -> Option<u128>
        ensures end { IfSome result (EndsAt rolltype self.now) }
        ensures none { IfNone result (HasNoWait rolltype self.now) }
    {
        match self.rolls.phase_of(rolltype) {
            Some(RollState::CacheExpire1(ttl)) => self.keys.over_from(rolltype, Half::First, ttl),
            Some(RollState::CacheExpire2(ttl)) => self.keys.over_from(rolltype, Half::Second, ttl),
            Some(RollState::Propagation1) => None,
            Some(RollState::Propagation2) => None,
            Some(RollState::Done) => None,
            None => None,
        }
    }

    /// When the wait of a roll is over, so that a tool can sleep until then.
    ///
    /// `None` if the roll isn't in a phase that waits, or if a key that the wait checks lacks the
    /// stamp that it reads. Before this moment, `cache_expired1` or `cache_expired2` (by the phase)
    /// is refused with the time that is left, at most the TTL that was reported. At this moment and
    /// later it is accepted, unless memory runs out (RFC 7583, section 3). It is the start of 1970
    /// if the TTL is 0 or the wait checks no key. No memory is taken.
    ///
    /// ```rust
    /// if let Some(WaitEnd::At(end)) = &set.wait_end(RollType::ZskRoll) {
    ///     // Sleep until then, and then:
    ///     let actions = set.cache_expired1(RollType::ZskRoll, end)?;
    /// }
    /// ```
    pub fn wait_end(&self, rolltype: RollType) -> Option<WaitEnd>
        ensures { SaysEnd rolltype self.now result }
    {
        match self.over_in_phase(rolltype) {
            None => None,
            Some(end) => match moment_of(end) {
                Some(moment) => Some(WaitEnd::At(moment)),
                None => Some(WaitEnd::PastTime),
            },
        }
    }
}
