//! The ends of a wait for the keys of a zone, counted, so that the last is known as keys change.
ghost use Rattle.std.specs.Prelude.{◌≡◌, ◌+◌, ◌-◌, ℕ, false, Option, OnOk, IfOk, nat_eq};
ghost use Rattle.std.specs.Option.{option_eq};
ghost use Rattle.dnssec_zone.specs.Inner.Counts.{bit};
ghost use Rattle.dnssec_zone.specs.Inner.Ends.{AreEndsOf, AreHad, IsLast, is_first, number};
ghost use Rattle.dnssec_zone.specs.Inner.Over.{over_at};
ghost use Rattle.dnssec_zone.specs.Keys.{keys_in_map};

use crate::over::{KeyMap, over_for};
use dnssec_key::{Half, RollType};
use std::alloc::{AllocError, Global};
use std::collections::BTreeMap;

/// How many keys have each end: the nanosecond since 1970 from which a wait is over for a key. An
/// end of 0 isn't counted: a wait has it for a key that it doesn't check.
#[derive(Drop)]
pub(crate) struct CountedEnds {
    /// The number of keys by their end. An end that no key has isn't here.
    keys: BTreeMap<u128, usize>,
    /// How many keys have no end, since they lack their stamp.
    lacking: usize,
}

impl CountedEnds {
    /// The ends of a wait of `ttl` seconds in this half of `roll` for all `keys`, by a walk. It
    /// fails only if there is no memory.
    pub(crate) fn of(
        alloc: Global,
        keys: &KeyMap,
        roll: RollType,
        half: Half,
        ttl: u32,
    ) -> Result<Self, AllocError>
        ensures { IfOk result (AreEndsOf (over_at roll half ttl) (keys_in_map keys.now)) }
    {
        let mut ends = CountedEnds::none(alloc);
        for key in keys.values() {
            ends.add(over_for(roll, half, ttl, key))?;
        }
        Ok(ends)
    }

    /// The ends of no keys. They will take their memory from `alloc`.
    fn none(alloc: Global) -> Self
        ensures number { (end : Option ℕ) → number result end ≡ 0 }
        ensures had { AreHad result }
    {
        CountedEnds {
            keys: BTreeMap::new(alloc),
            lacking: 0,
        }
    }

    /// Counts one key more that has this `end`, or none. It fails only if there is no memory, and
    /// these ends are then of no more use.
    fn add(&mut self, end: Option<u128>) -> Result<(), AllocError>
        ensures number { OnOk result ((other : Option ℕ) → is_first other ≡ false
            → number self.new other ≡ number self.old other + bit (option_eq nat_eq end other)) }
        ensures had { OnOk result (AreHad self.old → AreHad self.new) }
    {
        let Some(end) = end else {
            self.lacking = more(self.lacking)?;
            return Ok(());
        };
        if end == 0 {
            return Ok(());
        }
        let count = self.keys.get(&end).copied().unwrap_or(0);
        self.keys.insert(end, more(count)?)?;
        Ok(())
    }

    /// Counts one key less that has this `end`, or none. It fails only if there is no memory, and
    /// these ends are then of no more use.
    fn remove(&mut self, end: Option<u128>) -> Result<(), AllocError>
        ensures number { OnOk result ((other : Option ℕ) → is_first other ≡ false
            → number self.new other ≡ number self.old other - bit (option_eq nat_eq end other)) }
        ensures had { OnOk result (AreHad self.old → AreHad self.new) }
    {
        let Some(end) = end else {
            self.lacking = self.lacking.saturating_sub(1);
            return Ok(());
        };
        if end == 0 {
            return Ok(());
        }
        let count = self.keys.get(&end).copied().unwrap_or(0);
        if count > 1 {
            self.keys.insert(end, count - 1)?;
        } else {
            self.keys.remove(&end);
        }
        Ok(())
    }

    /// Counts a key under the end `after` that was counted under `before`. It fails only if there
    /// is no memory, and these ends are then of no more use.
    pub(crate) fn exchange(
        &mut self,
        before: Option<u128>,
        after: Option<u128>,
    ) -> Result<(), AllocError>
        ensures number { OnOk result ((other : Option ℕ) → is_first other ≡ false
            → number self.new other ≡ number self.old other - bit (option_eq nat_eq before other)
            + bit (option_eq nat_eq after other)) }
        ensures had { OnOk result (AreHad self.old → AreHad self.new) }
    {
        self.remove(before)?;
        self.add(after)?;
        Ok(())
    }

    /// The last end that some key has, or 0 if none has one. `None` if some key lacks its stamp.
    pub(crate) fn last(&self) -> Option<u128>
        ensures { AreHad self.now → IsLast self.now result }
    {
        if self.lacking > 0 {
            return None;
        }
        match self.keys.last_key_value() {
            Some((end, _)) => Some(*end),
            None => Some(0),
        }
    }
}

/// One more than `count`. It fails if no number is greater: no memory has so many keys.
fn more(count: usize) -> Result<usize, AllocError>
    ensures { IfOk result (λ more. more ≡ count + 1) }
{
    match count.checked_add(1) {
        Some(more) => Ok(more),
        None => Err(AllocError),
    }
}
