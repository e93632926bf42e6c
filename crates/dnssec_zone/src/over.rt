//! When a wait is over: for a key, and for all keys.
ghost use Rattle.std.specs.Prelude.{◌≡◌};
ghost use Rattle.dnssec_zone.specs.Inner.{Over.over_at, Reported.IsLatest};
ghost use Rattle.dnssec_zone.specs.Keys.{keys_in_map};

use dnssec_key::{Half, Key, RollType, is_checked, stamp_named, stamp_read};
use std::collections::HashMap;
use std::time::Duration;

/// Keys by their public references.
pub(crate) type KeyMap = HashMap<String, Key>;

/// The nanosecond since 1970 from which a wait of `ttl` seconds is over for all `keys`, as a walk
/// finds it: `None` if one that it checks lacks its stamp, else 0 if it checks none or `ttl` is 0.
pub(crate) fn over_from(keys: &KeyMap, roll: RollType, half: Half, ttl: u32) -> Option<u128>
    ensures { IsLatest (over_at roll half ttl) (keys_in_map keys.now) result }
{
    let mut over = 0;
    for key in keys.values() {
        over = over.max(over_for(roll, half, ttl, key)?);
    }
    Some(over)
}

/// The nanosecond since 1970 from which a wait of `ttl` seconds is over for `key`. It is 0 if the
/// wait doesn't check the key, else `None` if its stamp is missing, else 0 if the TTL is 0.
#[inline(always)]
pub(crate) fn over_for(roll: RollType, half: Half, ttl: u32, key: &Key) -> Option<u128>
    ensures { result ≡ over_at roll half ttl key.now }
{
    if !is_checked(key, roll, half) {
        return Some(0);
    }
    let stamp = stamp_named(key.timestamps(), stamp_read(roll, half))?;
    if ttl == 0 {
        return Some(0);
    }
    Some(Duration::from(stamp).as_nanos() + u128::from(ttl) * 1_000_000_000)
}
