//! The ends of waits, against what waits are answered.
use dnssec_keyset::{Error, KeySet, RollState, RollType, UnixTime, WaitEnd};
use std::time::Duration;

/// Whether the end of a roll's wait is true: a wait just before it is too early by a nanosecond,
/// and a wait at it is accepted. If there is no end, a wait is refused for its phase or for a
/// missing stamp.
pub fn is_end_true(set: &KeySet, roll: RollType) -> bool {
    match &set.wait_end(roll) {
        Some(end) => is_end(set, roll, end),
        None => matches!(
            wait(set, roll, &UnixTime::from(Duration::MAX)),
            Some(Error::WrongStateForRollOperation | Error::WrongKeyState)
        ),
    }
}

fn is_end(set: &KeySet, roll: RollType, end: &WaitEnd) -> bool {
    match end {
        WaitEnd::At(moment) => {
            wait(set, roll, moment).is_none() && is_early_before(set, roll, moment)
        }
        WaitEnd::PastTime => matches!(
            wait(set, roll, &UnixTime::from(Duration::MAX)),
            Some(Error::Wait(_))
        ),
    }
}

fn is_early_before(set: &KeySet, roll: RollType, end: &UnixTime) -> bool {
    let nanosecond = Duration::from_nanos(1);
    match Duration::from(*end).checked_sub(nanosecond) {
        Some(before) => wait(set, roll, &UnixTime::from(before)) == Some(Error::Wait(nanosecond)),
        None => true,
    }
}

/// Why the wait of a roll is refused at a moment. The set stays as it is.
fn wait(set: &KeySet, roll: RollType, now: &UnixTime) -> Option<Error> {
    match set.try_clone() {
        Ok(copy) => wait_on(copy, roll, now),
        Err(error) => Some(error),
    }
}

fn wait_on(mut set: KeySet, roll: RollType, now: &UnixTime) -> Option<Error> {
    let answer = match set.rollstates().get(&roll) {
        Some(RollState::CacheExpire2(_)) => set.cache_expired2(roll, now),
        _ => set.cache_expired1(roll, now),
    };
    answer.err()
}

/// The second from which on the wait of a roll is over; one more than the greatest if no moment is
/// left for it.
pub fn over_from(set: &KeySet, roll: RollType) -> Option<u128> {
    match &set.wait_end(roll) {
        Some(WaitEnd::At(end)) => Some(u128::from(Duration::from(*end).as_secs())),
        Some(WaitEnd::PastTime) => Some(1 << 64),
        None => None,
    }
}
