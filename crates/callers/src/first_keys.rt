//! A caller of `dnssec_keyset`.
use anyhow::{Result, bail};
use dnssec_keyset::{
    Action, Available, KeySet, Name, RollType, SecurityAlgorithm, UnixTime, WaitEnd,
};
use std::alloc::Global;
use std::time::Duration;

/// A moment of the caller's own clock.
fn at(seconds: u64) -> UnixTime {
    UnixTime::from(Duration::from_secs(seconds))
}

/// Brings the first keys of a zone in, up to the actions by which it gets its DS record.
pub fn bring_in(alloc: Global) -> Result<Vec<Action>> {
    let name = Name::<Vec<u8>>::from_str(alloc, "example.com")?;
    let mut set = KeySet::new(alloc, name);

    let algorithm = SecurityAlgorithm::ECDSAP256SHA256;
    let ksk = String::from_str(alloc, "K1")?;
    let zsk = String::from_str(alloc, "Z1")?;
    set.add_key_ksk(ksk, None, algorithm, 1, at(0), Available::Available)?;
    set.add_key_zsk(zsk, None, algorithm, 2, at(0), Available::Available)?;

    // The answer is what to publish: here the DNSKEY set and the signed zone.
    let roll = RollType::AlgorithmRoll;
    let actions = set.start_roll(roll, &[], &["K1", "Z1"], &at(0))?;
    if !actions.as_slice().contains(&Action::UpdateDnskeyRrset) {
        bail!("nothing to publish");
    }

    // All servers had it at 100, and its TTL is an hour. Sleep until the wait is over.
    set.propagation1_complete(roll, 3600, &at(100))?;
    match &set.wait_end(roll) {
        Some(WaitEnd::At(end)) => Ok(set.cache_expired1(roll, end)?),
        _ => bail!("no wait"),
    }
}
