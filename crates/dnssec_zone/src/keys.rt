//! The keys by their public references.
ghost use Rattle.std.specs.Prelude.{◌≡◌, ℕ, List, None, Some, string_bytes, IfOk, IsOkUnless};
ghost use Rattle.std.specs.Prelude.{IfSome, IfNone, OnOk, OnErr, if◌then◌else◌, nat_eq};
ghost use Rattle.std.specs.{List.list_any, Option.option_map, Str.bytes_eq, String.string_eq};
ghost use Rattle.std.specs.FinMap as map;
ghost use Rattle.std.specs.HashMap as hash;
ghost use Rattle.dnssec_base.specs.declared.error.Error.TheVariants.{OutOfMemory};
ghost use Rattle.dnssec_key.specs.RollTable.{after_end, after_early_end};
ghost use Rattle.dnssec_key.specs.Setters.{setting_of, set_by};
ghost use Rattle.dnssec_zone.specs.Inner.Bits.{is_set};
ghost use Rattle.dnssec_zone.specs.Inner.{Counts.count_in, Counts.passes, KeyMark.marked};
ghost use Rattle.dnssec_zone.specs.Keys.{TagsApart, keys_in_map, has_tag};
ghost use Rattle.dnssec_zone.specs.Start.{is_listed, serves_as_kept, texts};
ghost use Rattle.dnssec_zone.specs.Refusals.{Answers, AnswersExactly, add_refusal};
ghost use Rattle.dnssec_zone.specs.Refusals.{deletion_refusal, reference_refusal, setting_refusal};
ghost use Rattle.dnssec_zone.specs.Wait.{IsOverFrom, LacksStamp};

use crate::derived::Derived;
use crate::index::{Counting, TagSet, is_set};
use crate::mark::KeyMark;
use crate::over::{KeyMap, over_from};
use dnssec_key::{
    Error, Half, Key, PhaseEnd, RollType, Setting, UnixTime, Want, end_phase, mark_new, mark_old,
    unmark_new, unmark_old,
};
use std::alloc::Global;
use std::collections::HashMap;
use std::collections::hash_map::Entry;
use std::marker::Model;

/// The keys of a zone by their public references.
#[derive(Drop)]
pub struct Keys {
    map: KeyMap,
    derived: Derived,
}

impl Model for Keys {
    ghost use Rattle.std.specs.Coded.{codes};
    ghost use Rattle.dnssec_zone.specs.Inner.Derived.{IsDerived};
    ghost use Rattle.dnssec_zone.specs.Keys.{Keys as ByReference, keys_code, keys_in_map};

    ghost Value = { ByReference };

    ghost coded = { Prim.hlevel (codes, keys_code) };

    ghost view = { λ s. keys_in_map s.map };

    ghost invariant = { λ s. IsDerived s.derived (keys_in_map s.map) };
}

/// Whether some key has the tag, by a walk over the keys.
fn some_has_tag(keys: &KeyMap, key_tag: u16) -> bool
    ensures some { result ≡ list_any (λ k. nat_eq k.key_tag key_tag) (hash.values keys.now) }
    ensures unique { hash.IsUnique string_eq keys.now }
{
    keys.values().any(|key| key.key_tag() == key_tag)
}

/// Puts `key` into `map` at the public reference `pubref`. Refuses it with `KeyExists` if a key has
/// this reference, or with `OutOfMemory`: the keys in `map` are then as before.
#[inline(always)]
fn put_new(map: &mut KeyMap, pubref: String, key: Key) -> Result<(), Error>
    ensures reply { Answers
        (reference_refusal (hash.get_by_text map.old (string_bytes pubref))) result }
    ensures ok { OnOk result ((q : List ℕ) → hash.get_by_text map.new q
        ≡ (if bytes_eq (string_bytes pubref) q then Some key else hash.get_by_text map.old q)) }
    ensures err { OnErr result (keys_in_map map.new ≡ keys_in_map map.old) }
{
    match map.entry(pubref)? {
        Entry::Vacant(place) => {
            place.insert(key);
            Ok(())
        }
        Entry::Occupied(_) => Err(Error::KeyExists),
    }
}

/// Undoes what the start of `roll` did to the flags of `key`, if the roll listed it: as old if its
/// tag is in `olds`, as new if it is in `news`. Its stamps stay, and a key that wasn't listed stays
/// whole.
fn unmark_key(roll: RollType, olds: &TagSet, news: &TagSet, key: &mut Key)
    ensures { key.new ≡ after_early_end roll
        (is_set olds.now key.old.key_tag) (is_set news.now key.old.key_tag) key.old }
{
    let key_tag = key.key_tag();
    if is_set(olds, key_tag) {
        unmark_old(key, roll);
    }
    if is_set(news, key_tag) {
        unmark_new(key, roll);
    }
}

impl Keys {
    /// The keys of a zone that has none yet. They will take their memory from `alloc`.
    pub fn new(alloc: Global) -> Self
        ensures { result ≡ map.empty }
    {
        Keys {
            map: HashMap::new(alloc),
            derived: Derived::none(),
        }
    }

    /// A copy of all keys, with what is derived of them, or `OutOfMemory`. The index of tags is
    /// copied into memory of `alloc`.
    pub fn try_clone(&self, alloc: Global) -> Result<Keys, Error>
        ensures same { IfOk result (λ keys. keys ≡ self.now) }
        ensures err { IsOkUnless result OutOfMemory }
    {
        Ok(Keys {
            map: self.map.clone()?,
            derived: self.derived.try_clone(alloc)?,
        })
    }

    /// The keys by their public references, to read. No two keys have one tag.
    #[tactic(auto, using(crate::proofs::Walks::shown))]
    pub fn as_map(&self) -> &HashMap<String, Key>
        ensures shown { keys_in_map result.now ≡ self.now }
        ensures at { (q : List ℕ) → hash.get_by_text result.now q ≡ map.get self.now q }
        ensures apart { TagsApart self.now }
    {
        &self.map
    }

    /// Whether some key has the tag: by the index of tags, or by a walk over the keys if there is
    /// none.
    fn has_tag(&self, key_tag: u16) -> bool
        ensures { result ≡ has_tag key_tag self.now }
    {
        match self.derived.tags.has(key_tag) {
            Some(has) => has,
            None => some_has_tag(&self.map, key_tag),
        }
    }

    /// How many keys meet `want` by their flags: the role that it asks for isn't old, and is in the
    /// DNSKEY set, or for `KskAtParent` has a DS at the parent. Keys that a start lists as old are
    /// counted too.
    pub(crate) fn count(&self, want: Want) -> usize
        ensures { result ≡ count_in (passes (serves_as_kept want)) self.now }
    {
        self.derived.counts.of(want)
    }

    /// Adds `key` at the public reference `pubref`. Refuses it with `DuplicateKeyTag` if a key has
    /// its tag, else with `KeyExists` if a key has the reference, or with `OutOfMemory`. No key is
    /// then changed. `alloc` gives the memory for the index of tags that many keys have.
    // Inline, as `put_new` below and the key set's `add`, so that a key is made where it stays.
    #[inline(always)]
    #[tactic(auto, using(crate::proofs::Walks::shown))]
    pub fn add(&mut self, alloc: Global, pubref: String, key: Key) -> Result<(), Error>
        ensures reply { Answers (add_refusal self.old (string_bytes pubref) key.key_tag) result }
        ensures ok { OnOk result ((q : List ℕ) → map.get self.new q
            ≡ (if bytes_eq (string_bytes pubref) q then Some key else map.get self.old q)) }
        ensures err { OnErr result (self.new ≡ self.old) }
    {
        let key_tag = key.key_tag();
        let keytype = key.keytype();
        if self.has_tag(key_tag) {
            return Err(Error::DuplicateKeyTag);
        }
        self.derived.index_many(alloc, &self.map, pubref.as_str())?;
        put_new(&mut self.map, pubref, key)?;
        self.derived.add(key_tag, &keytype);
        Ok(())
    }

    /// Deletes the key at the public reference `pubref`, and answers its tag. Refuses it with
    /// `KeyNotFound`, or with `KeyNotOld` unless the key is stale in each of its roles: old, not
    /// signing, not in the DNSKEY set, and without a DS at the parent. No key is then changed.
    #[tactic(auto, using(crate::proofs::Walks::shown))]
    pub fn delete(&mut self, pubref: &str) -> Result<u16, Error>
        ensures reply { AnswersExactly (deletion_refusal (map.get self.old pubref.now)) result }
        ensures tag { IfOk result (λ tag.
            option_map (λ k. k.key_tag) (map.get self.old pubref.now) ≡ Some tag) }
        ensures ok { OnOk result ((q : List ℕ) → map.get self.new q
            ≡ (if bytes_eq pubref.now q then None else map.get self.old q)) }
        ensures err { OnErr result (self.new ≡ self.old) }
    {
        let Some(key) = self.map.get(pubref) else {
            return Err(Error::KeyNotFound);
        };
        if !key.is_stale() {
            return Err(Error::KeyNotOld);
        }
        let key_tag = key.key_tag();
        self.map.remove(pubref);
        self.derived.delete(key_tag);
        Ok(key_tag)
    }

    /// Changes the key at the public reference `pubref` by hand as `setting` says, and answers its
    /// tag. Refuses it with `KeyNotFound`, or with `WrongKeyType` if `setting` is about the DS of a
    /// key that is neither KSK nor CSK, or about whether another signer's key signs. No key is then
    /// changed.
    #[tactic(auto, using(crate::proofs::Walks::shown))]
    pub fn set(&mut self, pubref: &str, setting: &Setting) -> Result<u16, Error>
        ensures reply { AnswersExactly
            (setting_refusal (setting_of setting.now) (map.get self.old pubref.now)) result }
        ensures tag { IfOk result (λ tag.
            option_map (λ k. k.key_tag) (map.get self.old pubref.now) ≡ Some tag) }
        ensures ok { OnOk result ((q : List ℕ) → map.get self.new q ≡ option_map
            (λ k. if bytes_eq pubref.now q then set_by (setting_of setting.now) k else k)
            (map.get self.old q)) }
        ensures err { OnErr result (self.new ≡ self.old) }
    {
        let Some(key) = self.map.get_mut(pubref) else {
            return Err(Error::KeyNotFound);
        };
        let key_tag = key.key_tag();
        if !setting.suits(&key.keytype()) {
            return Err(Error::WrongKeyType);
        }
        self.derived.set(key, setting);
        Ok(key_tag)
    }

    /// Marks the keys that a start lists by their public references, as `mark` says: as old, or as
    /// new ones of its roll, which sets flags and may stamp them as published. Other keys stay. An
    /// entry that names no key is passed over. What was known of waits is forgotten.
    pub fn mark(&mut self, references: &[&str], mark: &KeyMark)
        ensures { (q : List ℕ) → map.get self.new q
            ≡ option_map (λ k. if is_listed (texts references.now) q then marked mark.now k else k)
            (map.get self.old q) }
    {
        for reference in references {
            let Some(key) = self.map.get_mut(*reference) else {
                continue;
            };
            self.derived.counts.count(&key.keytype(), Counting::OneLess);
            match *mark {
                KeyMark::AsOld => mark_old(key),
                KeyMark::AsNew(roll, now) => mark_new(key, roll.column(), now),
            }
            self.derived.counts.count(&key.keytype(), Counting::OneMore);
        }
        self.derived.waits.of_ksks = None;
        self.derived.waits.of_zsks = None;
    }

    /// Undoes what the start of `roll` did to the keys that it listed, for an early end. Keys whose
    /// tag is in `olds` are no longer old. Keys whose tag is in `news` lose the flags by which they
    /// came in. Other flags, all stamps and all other keys stay.
    pub(crate) fn unmark(&mut self, roll: RollType, olds: &TagSet, news: &TagSet)
        ensures { (q : List ℕ) → map.get self.new q ≡ option_map (λ k. after_early_end roll
            (is_set olds.now k.key_tag) (is_set news.now k.key_tag) k) (map.get self.old q) }
    {
        self.map.retain(|_, key| {
            unmark_key(roll, olds, news, key);
            true
        });
        self.derived.recount(&self.map);
    }

    /// Changes every key as the end of a phase in this half of `roll` does, at the moment `now`: a
    /// report writes stamps, and the end of a wait also changes flags. No key comes in or goes out.
    pub fn end_phase(&mut self, end: PhaseEnd, roll: RollType, half: Half, now: UnixTime)
        ensures { (q : List ℕ) → map.get self.new q
            ≡ option_map (after_end end roll half now) (map.get self.old q) }
    {
        // `retain` says what is written on each key; it keeps them all.
        self.map.retain(|_, key| {
            end_phase(key, end, roll, half, now);
            true
        });
        self.derived.end_phase(&self.map, end, roll, half);
    }

    /// The nanosecond since 1970 from which the wait in this half of `roll` for a TTL of `ttl`
    /// seconds is over: 0 if it checks no key. `None` if a key that the wait checks lacks the stamp
    /// that it reads.
    pub fn over_from(&self, roll: RollType, half: Half, ttl: u32) -> Option<u128>
        ensures over { IfSome result (λ end.
            IsOverFrom roll half ttl self.now end) }
        ensures missing { IfNone result (LacksStamp roll half ttl self.now) }
    {
        match self.derived.waits.over(roll, half, ttl) {
            Some(over) => over,
            None => over_from(&self.map, roll, half, ttl),
        }
    }

    /// The nanosecond since 1970 from which the wait in this half of `roll` for a TTL of `ttl`
    /// seconds is over. `None` if a key that the wait checks lacks the stamp that it reads, else 0
    /// if it checks no key or `ttl` is 0. No key changes: `self` only keeps what a walk over them
    /// finds, so that the next call needs no walk. After a setter it takes memory from `alloc` for
    /// that, if there is some.
    pub fn find_wait(&mut self, alloc: Global, roll: RollType, half: Half, ttl: u32) -> Option<u128>
        ensures over { IfSome result (IsOverFrom roll half ttl self.old) }
        ensures missing { IfNone result (LacksStamp roll half ttl self.old) }
        ensures same { self.new ≡ self.old }
    {
        self.derived.waits.find(alloc, &self.map, roll, half, ttl)
    }
}
