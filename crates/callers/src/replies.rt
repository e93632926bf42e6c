//! What an answer of `dnssec_keyset` means: read off the one clause of the call.
ghost use Rattle.std.specs.Prelude.{◌≡◌, false, IfSome, IfNone};
ghost use Rattle.dnssec_key.specs.RollTable.{actions_of};
ghost use Rattle.dnssec_key.specs.declared.roll.RollType.TheVariants.{ZskRoll};
ghost use Rattle.dnssec_key.specs.declared.roll.RollState.TheVariants.{Propagation1};

use anyhow::Result;
use dnssec_keyset::{Action, KeySet, Name, RollType, UnixTime};
use std::alloc::Global;
use std::time::Duration;

/// Makes a key stale, if it is there.
fn retire(set: &mut KeySet, pubref: &str) -> bool
    ensures rolls { set.new.rolls ≡ set.old.rolls }
    ensures refused { result ≡ false → set.new ≡ set.old }
{
    set.set_stale(pubref).is_ok()
}

/// Starts a ZSK roll, if it may start.
fn start(set: &mut KeySet, old: &[&str], new: &[&str], now: &UnixTime) -> Option<Vec<Action>>
    ensures asks { IfSome result (λ actions. actions.items ≡ actions_of ZskRoll Propagation1) }
    ensures refused { IfNone result (set.new ≡ set.old) }
{
    set.start_roll(RollType::ZskRoll, old, new, now).ok()
}

/// Whether a set without keys lets a roll start, and a key become stale.
pub fn without_keys(alloc: Global) -> Result<(bool, bool)> {
    let mut set = KeySet::new(alloc, Name::<Vec<u8>>::from_str(alloc, "example.com")?);
    let now = UnixTime::from(Duration::from_secs(100));
    let started = start(&mut set, &["Z1"], &["Z2"], &now).is_some();
    Ok((started, retire(&mut set, "Z1")))
}
