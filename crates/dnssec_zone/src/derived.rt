//! What is derived of the keys of a zone, so that calls needn't walk over them: their tags, how
//! many of them a start could go on with, and the waits in progress. Each change of the keys is
//! followed here, except the marks of a start, which `Keys::mark` follows.
ghost use Rattle.std.specs.Prelude.{◌≡◌, ℕ, None, Some, true, false, nat_eq, IfOk, OnOk, OnErr};
ghost use Rattle.std.specs.Prelude.{IsOkUnless, if◌then◌else◌, length, ◌≤◌, ◌<◌, ◌^◌, IsSome};
ghost use Rattle.std.specs.{List.fold, Option.option_map, String.string_eq};
ghost use Rattle.std.specs.HashMap as hash;
ghost use Rattle.dnssec_base.specs.declared.error.Error.TheVariants.{OutOfMemory};
ghost use Rattle.dnssec_key.specs.Setters.{setting_of, set_by};
ghost use Rattle.dnssec_zone.specs.Inner.TagIndex.{has};
ghost use Rattle.dnssec_zone.specs.Inner.Counts.{CountsAgree, count_in};
ghost use Rattle.dnssec_zone.specs.Inner.Counts.{end_moves_kept, moves_counts, no_counts, with_key};
ghost use Rattle.dnssec_zone.specs.Inner.Counts.{without_key};
ghost use Rattle.dnssec_zone.specs.Inner.Reported.{AreKnown, GoesOn};
ghost use Rattle.dnssec_zone.specs.Inner.Tags.{TagsAgree};
ghost use Rattle.dnssec_zone.specs.Keys.{Keys as AnyKeys, has_tag, keys_in_map};
ghost use Rattle.dnssec_zone.specs.Refusals.{Answers, reference_refusal};

use crate::index::{Counting, Counts, TagIndex};
use crate::over::KeyMap;
use crate::wait_end::Waits;
use dnssec_key::{Error, Half, Key, KeyType, PhaseEnd, RollType, Setting, wait_moves_kept};
use std::alloc::Global;

/// Up to this many keys we read each key's tag; more keys have an index of their tags.
const KEYS_WITHOUT_INDEX: usize = 16;

/// Whether a setter may change how many keys meet some `Want`: it may if it sets whether a key is
/// present, has a DS at the parent, or is stale. No count asks whether a key signs.
fn moves_counts(setting: &Setting) -> bool
    ensures { result ≡ moves_counts (setting_of setting.now) }
{
    matches!(
        setting,
        Setting::Present(_, _) | Setting::AtParent(_) | Setting::Stale
    )
}

/// What is derived of the keys. Only `keys` uses it.
#[derive(Drop)]
pub(crate) struct Derived {
    /// The tags of the keys: an index, as soon as there were many keys.
    pub(crate) tags: TagIndex,
    /// For each `Want` of a start, how many keys meet it by their flags.
    pub(crate) counts: Counts,
    /// The waits in progress; one that is asked for is kept too. An add, a start and its early end
    /// drop them. A deletion never does: no wait checks a stale key.
    pub(crate) waits: Waits,
}

impl Derived {
    /// What is derived of no keys: no index of tags, all counts zero, and no wait that is known.
    pub(crate) fn none() -> Derived
        ensures tags { (t : ℕ) → has result.tags t ≡ None }
        ensures counts { result.counts ≡ no_counts }
        ensures waits { (keys : AnyKeys) → AreKnown result.waits keys }
    {
        Derived {
            tags: TagIndex::none(),
            counts: Counts::none(),
            waits: Waits::none(),
        }
    }

    /// A copy, or `OutOfMemory`. The index of tags is copied into memory of `alloc`, if there is
    /// one. Nothing else takes memory.
    pub(crate) fn try_clone(&self, alloc: Global) -> Result<Derived, Error>
        ensures tags { IfOk result (λ copy. (t : ℕ) → has copy.tags t ≡ has self.now.tags t) }
        ensures counts { IfOk result (λ copy. copy.counts ≡ self.now.counts) }
        ensures waits { IfOk result (λ copy. (keys : AnyKeys) →
            AreKnown self.now.waits keys → AreKnown copy.waits keys) }
        ensures err { IsOkUnless result OutOfMemory }
    {
        Ok(Derived {
            tags: self.tags.try_clone(alloc)?,
            counts: self.counts,
            waits: self.waits.copy(),
        })
    }

    /// Prepares for one more key beside `keys`, at the public reference `pubref`. If there is no
    /// index of tags yet, and there are at least `KEYS_WITHOUT_INDEX` keys, it begins one in memory
    /// of `alloc`. Before that it refuses with `KeyExists` a reference that a key has, so that a
    /// refused add takes no memory. After an error, also `OutOfMemory`, `self` is as before.
    // Inline, so that most adds make no call for it.
    #[inline(always)]
    #[tactic(auto, using(crate::proofs::Counted::all_shown))]
    pub(crate) fn index_many(
        &mut self,
        alloc: Global,
        keys: &KeyMap,
        pubref: &str,
    ) -> Result<(), Error>
        ensures agree { TagsAgree (has self.old.tags) (keys_in_map keys.now)
            → TagsAgree (has self.new.tags) (keys_in_map keys.now) }
        ensures many { OnOk result
            (KEYS_WITHOUT_INDEX ≤ length keys.now.entries
            → (t : ℕ) → IsSome (has self.new.tags t)) }
        ensures few { OnOk result (count_in (λ q k. true) (keys_in_map keys.now) < 2 ^ 63) }
        ensures err { OnErr result
            (Answers (reference_refusal (hash.get_by_text keys.now pubref.now)) result) }
        ensures counts { self.new.counts ≡ self.old.counts }
        ensures waits { self.new.waits ≡ self.old.waits }
    {
        if keys.len() >= KEYS_WITHOUT_INDEX && self.tags.is_none() {
            if keys.contains_key(pubref) {
                return Err(Error::KeyExists);
            }
            self.tags = index_of(alloc, keys)?;
        }
        Ok(())
    }

    /// Brings what is derived up to date with a new key of this kind, with this tag: notes the tag
    /// as in use, and counts the key. What was known of waits is forgotten.
    pub(crate) fn add(&mut self, key_tag: u16, keytype: &KeyType)
        ensures tags { (t : ℕ) → has self.new.tags t ≡ option_map
            (λ b. if nat_eq key_tag t then true else b) (has self.old.tags t) }
        ensures counts { self.new.counts ≡ with_key keytype.now self.old.counts }
        ensures waits { (keys : AnyKeys) → AreKnown self.new.waits keys }
    {
        self.waits.forget();
        self.tags.note(key_tag, true);
        self.counts.count(keytype, Counting::OneMore);
    }

    /// Brings what is derived up to date after a stale key was deleted: notes its tag as no longer
    /// in use. The rest stays, for a stale key is in no count, and in no wait.
    pub(crate) fn delete(&mut self, key_tag: u16)
        ensures tags { (t : ℕ) → has self.new.tags t ≡ option_map
            (λ b. if nat_eq key_tag t then false else b) (has self.old.tags t) }
        ensures counts { self.new.counts ≡ self.old.counts }
        ensures waits { self.new.waits ≡ self.old.waits }
    {
        self.tags.note(key_tag, false);
    }

    /// Changes `key` by hand as `setting` says, and brings the counts up to date. Updates each wait
    /// too, or drops it if only a walk over the keys tells when it is over. The index of tags
    /// stays.
    pub(crate) fn set(&mut self, key: &mut Key, setting: &Setting)
        ensures key { key.new ≡ set_by (setting_of setting.now) key.old }
        ensures tags { self.new.tags ≡ self.old.tags }
        ensures counts { self.new.counts ≡ (if moves_counts (setting_of setting.now)
            then with_key (set_by (setting_of setting.now) key.old).keytype
            (without_key key.old.keytype self.old.counts) else self.old.counts) }
        ensures waits { GoesOn key.old key.new
            (AreKnown self.old.waits) (AreKnown self.new.waits) }
    {
        if !moves_counts(setting) {
            self.waits.set(key, setting);
            return;
        }
        self.counts.count(&key.keytype(), Counting::OneLess);
        self.waits.set(key, setting);
        self.counts.count(&key.keytype(), Counting::OneMore);
    }

    /// Counts all `keys` again after the flags of many have changed, and forgets what was known of
    /// waits. The index of tags stays.
    pub(crate) fn recount(&mut self, keys: &KeyMap)
        ensures tags { self.new.tags ≡ self.old.tags }
        ensures counts { CountsAgree self.new.counts (keys_in_map keys.now) }
        ensures waits { (keys : AnyKeys) → AreKnown self.new.waits keys }
    {
        self.waits.forget();
        self.counts = count_all(keys);
    }

    /// Brings what is derived up to date after the end of a phase in this half of `roll` has
    /// changed `keys`. After a report it finds by a walk when the wait that now begins is over.
    /// After a wait it forgets that wait, and counts the keys again if that may change a count. The
    /// wait of another roll, if there is one, is found anew by a walk. The index of tags stays.
    // Tools ask often for the wait that a report begins, so what a walk finds out about it is kept.
    pub(crate) fn end_phase(&mut self, keys: &KeyMap, end: PhaseEnd, roll: RollType, half: Half)
        ensures tags { self.new.tags ≡ self.old.tags }
        ensures moved { end_moves_kept end roll half ≡ true
            → CountsAgree self.new.counts (keys_in_map keys.now) }
        ensures kept { end_moves_kept end roll half ≡ false
            → self.new.counts ≡ self.old.counts }
        ensures waits { AreKnown self.new.waits (keys_in_map keys.now) }
    {
        match end {
            PhaseEnd::Report(ttl) => self.waits.report(keys, roll, half, ttl),
            PhaseEnd::Wait => {
                self.waits.go_on(keys, roll);
                if wait_moves_kept(roll, half) {
                    self.counts = count_all(keys);
                }
            }
        }
    }
}

/// An index of the tags of `keys`, in memory of `alloc`, or `OutOfMemory`.
fn index_of(alloc: Global, keys: &KeyMap) -> Result<TagIndex, Error>
    ensures ok { IfOk result (λ index. (t : ℕ) →
        has index t ≡ Some (has_tag t (keys_in_map keys.now))) }
    ensures err { IsOkUnless result OutOfMemory }
{
    let mut index = TagIndex::empty(alloc)?;
    for key in keys.values() {
        index.note(key.key_tag(), true);
    }
    Ok(index)
}

/// For each `Want` of a start, how many of `keys` meet it by their flags. For `PresentKsk` these
/// are the KSKs in the DNSKEY set that aren't old. A walk counts all of them anew.
fn count_all(keys: &KeyMap) -> Counts
    ensures { CountsAgree result (keys_in_map keys.now) }
{
    count_one_by_one(keys)
}

/// For each `Want` of a start, how many of `keys` meet it by their flags. For `PresentKsk` these
/// are the KSKs in the DNSKEY set that aren't old. The contract says it as a walk that adds one key
/// after the other, for `count_all` to conclude from.
fn count_one_by_one(keys: &KeyMap) -> Counts
    ensures walk { result ≡ fold (λ c k. with_key k.keytype c) no_counts (hash.values keys.now) }
    ensures unique { hash.IsUnique string_eq keys.now }
    ensures fits { length keys.now.entries ≤ 18446744073709551615 }
{
    keys.values().fold(Counts::none(), |mut counts, key| {
        counts.count(&key.keytype(), Counting::OneMore);
        counts
    })
}
