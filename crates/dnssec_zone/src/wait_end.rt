//! What is kept of the waits in progress.
ghost use Rattle.std.specs.Prelude.{◌≡◌, IsTrue, IfSome, true};
ghost use Rattle.dnssec_key.specs.Key.{KeyParts};
ghost use Rattle.dnssec_key.specs.Setters.{setting_of, set_by};
ghost use Rattle.dnssec_zone.specs.Inner.Over.{over_at};
ghost use Rattle.dnssec_zone.specs.Inner.Reported.{AreKnown, GoesOn, IsKnown, IsLatest, Knows};
ghost use Rattle.dnssec_zone.specs.Inner.Reported.{moved, over_by, over_for};
ghost use Rattle.dnssec_zone.specs.Keys.{Keys as AnyKeys, keys_in_map};

use crate::ends::CountedEnds;
use crate::over::{KeyMap, over_for, over_from};
use dnssec_key::{Half, Key, RollType, Setting, Side, apply_setting};
use std::alloc::Global;

/// A wait that a report has begun, and what is known of its end.
#[derive(Drop)]
pub(crate) struct ReportedWait {
    pub(crate) roll: RollType,
    pub(crate) half: Half,
    pub(crate) ttl: u32,
    /// The nanosecond since 1970 from which it is over, or `None` if a key lacks its stamp.
    pub(crate) over: Option<u128>,
    /// Its ends for the keys, if they were counted.
    pub(crate) ends: Option<CountedEnds>,
}

impl ReportedWait {
    /// Whether this is the wait in this half of `roll` for a TTL of `ttl` seconds.
    fn is_of(&self, roll: RollType, half: Half, ttl: u32) -> bool
        ensures roll { IsTrue result → self.now.roll ≡ roll }
        ensures half { IsTrue result → self.now.half ≡ half }
        ensures ttl { IsTrue result → self.now.ttl ≡ ttl }
        ensures same { self.now.roll ≡ roll → self.now.half ≡ half → self.now.ttl ≡ ttl
            → IsTrue result }
    {
        self.roll == roll && self.half == half && self.ttl == ttl
    }

    /// From which nanosecond since 1970 the wait is over for `key`. It is 0 if the wait doesn't
    /// check the key, else `None` if the key lacks its stamp, else 0 if the TTL is 0.
    // Out of line, as `seen` and `follow`, so that a setter, which mostly finds no wait, is short.
    #[inline(never)]
    fn over_for(&self, key: &Key) -> Option<u128>
        ensures { result ≡ over_by self.now key.now }
    {
        over_for(self.roll, self.half, self.ttl, key)
    }

    /// Follows a setter that moved the end of this wait for one key from `before` to `after`, in
    /// nanoseconds since 1970. `false` if only a walk now tells when it is over for all keys.
    #[inline(never)]
    fn follow(&mut self, before: Option<u128>, after: Option<u128>) -> bool
        ensures { result ≡ true → (k l : KeyParts) → over_by self.old k ≡ before
            → over_by self.old l ≡ after → GoesOn k l (Knows self.old) (Knows self.new) }
    {
        match &mut self.ends {
            None => {
                self.over = moved(before, after, self.over);
                self.over.is_some()
            }
            Some(ends) => match ends.exchange(before, after) {
                Ok(()) => {
                    self.over = ends.last();
                    true
                }
                Err(_) => false,
            },
        }
    }
}

/// The end of a wait for all keys, `latest` before a setter moved that of one key from `before` to
/// `after`: `None` if one of these is, or if it may be earlier now. In nanoseconds since 1970.
fn moved(before: Option<u128>, after: Option<u128>, latest: Option<u128>) -> Option<u128>
    ensures { result ≡ moved before after latest }
{
    match (before, after, latest) {
        (Some(before), Some(after), Some(latest)) if before < latest || before <= after => {
            Some(latest.max(after))
        }
        _ => None,
    }
}

/// The nanosecond `wait` is over for `key`: 0 if unchecked, `None` without wait or stamp.
fn seen(wait: &Option<ReportedWait>, key: &Key) -> Option<u128>
    ensures { result ≡ over_for wait.now key.now }
{
    match wait {
        Some(wait) => wait.over_for(key),
        None => None,
    }
}

/// Brings `wait` up to date after a setter moved its end for one key from `before` to `after`, in
/// nanoseconds since 1970. Drops it, and says so, if only a walk now tells when it is over.
fn follow(wait: &mut Option<ReportedWait>, before: Option<u128>, after: Option<u128>) -> bool
    ensures { (k l : KeyParts) → over_for wait.old k ≡ before → over_for wait.old l ≡ after
        → GoesOn k l (IsKnown wait.old) (IsKnown wait.new) }
{
    if after == before {
        return false;
    }
    let is_known = match wait {
        Some(wait) => wait.follow(before, after),
        None => false,
    };
    if !is_known {
        *wait = None;
    }
    !is_known
}

/// What is known of the waits in progress: that of a roll of only ZSKs, and that of any other roll.
/// A setter costs no walk over the keys. If only a walk tells when a wait is over after it, the
/// next question walks, and counts the wait's ends for the keys. Setters then keep the counts, so
/// none of them costs a walk again.
#[derive(Drop)]
pub(crate) struct Waits {
    pub(crate) of_ksks: Option<ReportedWait>,
    pub(crate) of_zsks: Option<ReportedWait>,
    /// Whether a setter has dropped a wait since the last report.
    is_moved: bool,
}

/// The nanosecond since 1970 from which each wait is over for one key, as far as it is known.
#[derive(Clone, Copy)]
pub(crate) struct Sights {
    pub(crate) of_ksks: Option<u128>,
    pub(crate) of_zsks: Option<u128>,
}

impl Waits {
    /// What is known of the waits before any report: nothing.
    pub(crate) fn none() -> Waits
        ensures { (keys : AnyKeys) → AreKnown result keys }
    {
        Waits {
            of_ksks: None,
            of_zsks: None,
            is_moved: false,
        }
    }

    /// What is known of the waits, for a copy of the keys, but not their ends for the keys.
    pub(crate) fn copy(&self) -> Waits
        ensures { (keys : AnyKeys) → AreKnown self.now keys → AreKnown result keys }
    {
        Waits {
            of_ksks: copy(&self.of_ksks),
            of_zsks: copy(&self.of_zsks),
            is_moved: self.is_moved,
        }
    }

    /// Forgets all waits, after keys have changed. The next question for one walks over the keys.
    pub(crate) fn forget(&mut self)
        ensures { (keys : AnyKeys) → AreKnown self.new keys }
    {
        if self.of_ksks.is_some() || self.of_zsks.is_some() {
            self.of_ksks = None;
            self.of_zsks = None;
        }
    }

    /// The wait kept for `roll` or one like it: `of_zsks` if it is of only ZSKs, else `of_ksks`.
    fn of(&self, roll: RollType) -> &Option<ReportedWait>
        ensures { (keys : AnyKeys) → AreKnown self.now keys → IsKnown result.now keys }
    {
        if is_of_zsks(roll) {
            &self.of_zsks
        } else {
            &self.of_ksks
        }
    }

    /// From which nanosecond since 1970 the wait of `ttl` seconds in this half of `roll` is over:
    /// `None` if it isn't kept, `Some(None)` if it is, but a key that it checks lacks its stamp.
    pub(crate) fn over(&self, roll: RollType, half: Half, ttl: u32) -> Option<Option<u128>>
        ensures { (keys : AnyKeys) → AreKnown self.now keys
            → IfSome result (IsLatest (over_at roll half ttl) keys) }
    {
        match self.of(roll) {
            Some(wait) if wait.is_of(roll, half, ttl) => Some(wait.over),
            _ => None,
        }
    }

    /// The nanosecond each wait is over for `key`: 0 if unchecked, `None` without wait or stamp.
    #[inline(never)]
    fn seen(&self, key: &Key) -> Sights
        ensures ksks { result.of_ksks ≡ over_for self.now.of_ksks key.now }
        ensures zsks { result.of_zsks ≡ over_for self.now.of_zsks key.now }
    {
        Sights {
            of_ksks: seen(&self.of_ksks, key),
            of_zsks: seen(&self.of_zsks, key),
        }
    }

    /// Brings the waits up to date after a setter changed one key: each was over for this key from
    /// `before` on, and now is from `after` on.
    #[inline(never)]
    fn follow(&mut self, before: Sights, after: Sights)
        ensures ksks { (k l : KeyParts) → over_for self.old.of_ksks k ≡ before.of_ksks
            → over_for self.old.of_ksks l ≡ after.of_ksks
            → GoesOn k l (IsKnown self.old.of_ksks) (IsKnown self.new.of_ksks) }
        ensures zsks { (k l : KeyParts) → over_for self.old.of_zsks k ≡ before.of_zsks
            → over_for self.old.of_zsks l ≡ after.of_zsks
            → GoesOn k l (IsKnown self.old.of_zsks) (IsKnown self.new.of_zsks) }
    {
        let ksks = follow(&mut self.of_ksks, before.of_ksks, after.of_ksks);
        let zsks = follow(&mut self.of_zsks, before.of_zsks, after.of_zsks);
        self.is_moved = self.is_moved | ksks | zsks;
    }

    /// Changes `key` as `setting` says. Brings each wait up to date, or drops it if that takes a
    /// walk.
    #[inline(always)]
    pub(crate) fn set(&mut self, key: &mut Key, setting: &Setting)
        ensures key { key.new ≡ set_by (setting_of setting.now) key.old }
        ensures waits { GoesOn key.old key.new (AreKnown self.old) (AreKnown self.new) }
    {
        if self.of_ksks.is_none() && self.of_zsks.is_none() {
            apply_setting(key, setting);
            return;
        }
        let before = self.seen(key);
        apply_setting(key, setting);
        self.follow(before, self.seen(key));
    }

    /// Keeps the wait of `ttl` seconds in this half of `roll` that a report begins. A walk over
    /// `keys` finds when it is over. If one of the other side is kept, a second walk finds its end.
    pub(crate) fn report(&mut self, keys: &KeyMap, roll: RollType, half: Half, ttl: u32)
        ensures { AreKnown self.new (keys_in_map keys.now) }
    {
        self.is_moved = false;
        if is_of_zsks(roll) {
            renew(&mut self.of_ksks, keys);
            self.of_zsks = Some(found(keys, roll, half, ttl));
        } else {
            self.of_ksks = Some(found(keys, roll, half, ttl));
            renew(&mut self.of_zsks, keys);
        }
    }

    /// Drops the ended wait of `roll`. If another is kept, a walk over `keys` finds its end anew.
    pub(crate) fn go_on(&mut self, keys: &KeyMap, roll: RollType)
        ensures { AreKnown self.new (keys_in_map keys.now) }
    {
        if is_of_zsks(roll) {
            renew(&mut self.of_ksks, keys);
            self.of_zsks = None;
        } else {
            self.of_ksks = None;
            renew(&mut self.of_zsks, keys);
        }
    }

    /// The nanosecond since 1970 from which this wait of `ttl` seconds is over, or `None` if a key
    /// that it checks lacks its stamp. If it isn't kept, a walk finds it, and `self` then keeps it,
    /// after a setter with its ends for the keys, if `alloc` has memory for these.
    pub(crate) fn find(
        &mut self,
        alloc: Global,
        keys: &KeyMap,
        roll: RollType,
        half: Half,
        ttl: u32,
    ) -> Option<u128>
        ensures known { AreKnown self.old (keys_in_map keys.now)
            → AreKnown self.new (keys_in_map keys.now) }
        ensures over { AreKnown self.old (keys_in_map keys.now)
            → IsLatest (over_at roll half ttl) (keys_in_map keys.now) result }
    {
        if let Some(over) = self.over(roll, half, ttl) {
            return over;
        }
        let wait = if self.is_moved {
            counted(alloc, keys, roll, half, ttl)
        } else {
            found(keys, roll, half, ttl)
        };
        let over = wait.over;
        if is_of_zsks(roll) {
            self.of_zsks = Some(wait);
        } else {
            self.of_ksks = Some(wait);
        }
        over
    }
}

/// Whether `roll` changes only ZSKs, so that its wait is kept in `of_zsks`, and else in `of_ksks`.
fn is_of_zsks(roll: RollType) -> bool {
    matches!(roll.column().side, Side::ZskSide)
}

/// A copy of what is known of `wait`, without its ends for the keys.
fn copy(wait: &Option<ReportedWait>) -> Option<ReportedWait>
    ensures { (keys : AnyKeys) → IsKnown wait.now keys → IsKnown result keys }
{
    match wait {
        Some(wait) => Some(ReportedWait {
            roll: wait.roll,
            half: wait.half,
            ttl: wait.ttl,
            over: wait.over,
            ends: None,
        }),
        None => None,
    }
}

/// The wait in this half of `roll` for `ttl` seconds, as a walk over `keys` finds it.
fn found(keys: &KeyMap, roll: RollType, half: Half, ttl: u32) -> ReportedWait
    ensures known { Knows result (keys_in_map keys.now) }
    ensures over { IsLatest (over_at roll half ttl) (keys_in_map keys.now) result.over }
{
    ReportedWait {
        roll,
        half,
        ttl,
        over: over_from(keys, roll, half, ttl),
        ends: None,
    }
}

/// The same with its ends for the keys, if `alloc` has memory for them.
fn counted(alloc: Global, keys: &KeyMap, roll: RollType, half: Half, ttl: u32) -> ReportedWait
    ensures known { Knows result (keys_in_map keys.now) }
    ensures over { IsLatest (over_at roll half ttl) (keys_in_map keys.now) result.over }
{
    match CountedEnds::of(alloc, keys, roll, half, ttl) {
        Ok(ends) => ReportedWait {
            roll,
            half,
            ttl,
            over: ends.last(),
            ends: Some(ends),
        },
        Err(_) => found(keys, roll, half, ttl),
    }
}

/// Finds anew, by a walk over the changed `keys`, when the wait `known` is over. `None` stays.
fn renew(known: &mut Option<ReportedWait>, keys: &KeyMap)
    ensures { IsKnown known.new (keys_in_map keys.now) }
{
    if let Some(wait) = known {
        *wait = found(keys, wait.roll, wait.half, wait.ttl);
    }
}
