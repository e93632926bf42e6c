//! Moments, and the names of zones and of rolls.
use dnssec_keyset::{Error, KeySet, Name, RollType, Timestamp, UnixTime};
use std::alloc::Global;
use std::time::Duration;

/// A duration, or a moment by the time since 1970, in seconds and nanoseconds.
pub type TimeParts = (u64, u64);

/// The longest duration, and the greatest moment.
pub const MAX: TimeParts = (u64::MAX, 999_999_999);

/// A moment and a duration, and the moment that is so much later, if there is one.
const SUMS: &[(TimeParts, TimeParts, Option<TimeParts>)] = &[
    ((10, 999_999_999), (0, 2), Some((11, 1))),
    ((10, 999_999_999), (0, 0), Some((10, 999_999_999))),
    (MAX, (0, 0), Some(MAX)),
    (MAX, (0, 1), None),
    ((1, 0), MAX, None),
];

/// Two moments, and how long before the second the first one is.
const ELAPSED: &[(TimeParts, TimeParts, TimeParts)] = &[
    ((5, 0), (9, 0), (4, 0)),
    ((10, 0), (10, 999_999_999), (0, 999_999_999)),
    ((10, 999_999_999), (11, 0), (0, 1)),
    // the moment lies ahead
    ((9, 0), (5, 0), (0, 0)),
];

/// What is answered to a text that names no roll.
const NO_ROLL: Result<RollType, Error> = Err(Error::UnknownRollType);

/// Texts, and the rolls that they name. A roll is named as an operator writes it, and in no other
/// way.
const ROLLS: &[(&str, Result<RollType, Error>)] = &[
    ("ksk-roll", Ok(RollType::KskRoll)),
    ("ksk-double-ds-roll", Ok(RollType::KskDoubleDsRoll)),
    ("zsk-roll", Ok(RollType::ZskRoll)),
    (
        "zsk-double-signature-roll",
        Ok(RollType::ZskDoubleSignatureRoll),
    ),
    ("csk-roll", Ok(RollType::CskRoll)),
    ("algorithm-roll", Ok(RollType::AlgorithmRoll)),
    ("", NO_ROLL),
    ("CSK-roll", NO_ROLL),
    ("csk-roll ", NO_ROLL),
    (" csk-roll", NO_ROLL),
    ("csk", NO_ROLL),
    ("csk_roll", NO_ROLL),
    ("KskRoll", NO_ROLL),
];

pub fn duration((seconds, nanos): TimeParts) -> Duration {
    Duration::from_secs(seconds).saturating_add(Duration::from_nanos(nanos))
}

/// The moment that is so much later, if there is one.
fn sum(moment: TimeParts, later: TimeParts) -> Option<Duration> {
    let (moment, later) = (UnixTime::from(duration(moment)), duration(later));
    if moment.fits(later) {
        Some(Duration::from(moment + later))
    } else {
        None
    }
}

/// How long before the second moment the first is; none if their order says otherwise.
fn elapsed(moment: TimeParts, now: TimeParts) -> Option<Duration> {
    let (moment, now) = (
        UnixTime::from(duration(moment)),
        UnixTime::from(duration(now)),
    );
    let elapsed = moment.elapsed(&now);
    if (moment < now) == elapsed.is_zero() {
        None
    } else {
        Some(elapsed)
    }
}

/// A new set for the zone of this name.
pub fn new_set(alloc: Global, name: &str) -> Option<KeySet> {
    let name = Name::<Vec<u8>>::from_str(alloc, name).ok()?;
    Some(KeySet::new(alloc, name))
}

#[test]
fn moments(rt: HostRuntime) {
    for (index, (moment, later, wanted)) in SUMS.iter().enumerate() {
        assert_eq!(rt;
            sum(*moment, *later),
            wanted.map(duration),
            "in row {index}"
        );
    }
    for (index, (moment, now, wanted)) in ELAPSED.iter().enumerate() {
        let is_so = elapsed(*moment, *now) == Some(duration(*wanted));
        assert!(rt; is_so, "in row {index}");
    }
}

/// A timestamp reaches as far as its 32 bits.
#[test]
fn the_last_timestamp(rt: HostRuntime) {
    let last = UnixTime::from(Timestamp::from(u32::MAX));
    assert_eq!(rt; Duration::from(last), Duration::from_secs(4_294_967_295));
}

#[test]
fn names_of_rolls(rt: HostRuntime) {
    for (name, roll) in ROLLS {
        assert_eq!(rt; name.parse::<RollType>(), *roll, "{name:?}");
    }
}
