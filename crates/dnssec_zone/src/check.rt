//! Why a start is refused for its keys. No key is changed here.
ghost use Rattle.std.specs.Prelude.{◌≡◌, ℕ, Bool, List, [], false, not, ◌&&◌, ◌||◌, length, None};
ghost use Rattle.std.specs.Prelude.{Some, Option, IfOk, IfErr, OnOk, nat_eq};
ghost use Rattle.std.specs.Prelude.{if◌then◌else◌};
ghost use Rattle.std.specs.{List.list_all, Option.option_map_or};
ghost use Rattle.std.specs.Str.{bytes_eq};
ghost use Rattle.std.specs.FinMap as map;
ghost use Rattle.dnssec_key.specs.Key.{KeyParts};
ghost use Rattle.dnssec_zone.specs.Inner.Bits.{is_set};
ghost use Rattle.dnssec_zone.specs.Inner.Counts.{count_in, listed_passes};
ghost use Rattle.dnssec_zone.specs.Inner.NewKeys.{AreOf, freshness_fault, some_serves};
ghost use Rattle.dnssec_zone.specs.Inner.Tags.{HasListed};
ghost use Rattle.dnssec_zone.specs.Start.{algorithms_within};
ghost use Rattle.dnssec_zone.specs.Start.{texts, is_listed, old_entry_fault, old_fault};
ghost use Rattle.dnssec_zone.specs.Start.{new_fault, has_algorithm, serves_as_new, serves_as_kept};
ghost use Rattle.dnssec_zone.specs.Start.{some_kept, is_met, Want as AnyWant};
ghost use Rattle.dnssec_base.specs.declared.error.Error.TheVariants.{NoSuitableKeyPresent};
ghost use Rattle.dnssec_zone.specs.Refusals.{AnswersExactly};

use crate::index::{AlgorithmSet, TagSet, is_set, set};
use crate::keys::Keys;
use dnssec_key::{
    Column, Error, Key, KeyType, RollType, Side, Want, is_kept_at_parent, is_kept_present,
};

/// A list with more entries than this is long.
const ENTRIES_OF_SHORT_LIST: usize = 4;

/// What a start asks of its new keys together: their algorithms, and which kinds are among them.
#[derive(Clone, Copy)]
pub struct NewKeys {
    pub algorithms: AlgorithmSet,
    ksk: bool,
    zsk: bool,
    csk: bool,
}

/// The algorithms and kinds of no keys.
const NO_KEYS: NewKeys = NewKeys {
    algorithms: [0; 4],
    ksk: false,
    zsk: false,
    csk: false,
};

impl NewKeys {
    /// Adds the algorithm and the kind of one more new key to `self`. Refuses the key with
    /// `WrongKeyState` if it isn't fresh (available, not old, and in no use), or if `is_taken` says
    /// that the start lists it before: `self` then stays as it was.
    fn add(&mut self, key: &Key, is_taken: bool) -> Result<(), Error>
        ensures sound { OnOk result (freshness_fault key.now is_taken ≡ None) }
        ensures fault { IfErr result (λ fault. freshness_fault key.now is_taken ≡ Some fault) }
        ensures algorithms { OnOk result ((a : ℕ) → is_set self.new.algorithms a
            ≡ (is_set self.old.algorithms a || nat_eq key.now.algorithm a)) }
        ensures kinds { OnOk result ((w : AnyWant) → some_serves self.new w
            ≡ (some_serves self.old w || serves_as_new w key.now.keytype)) }
    {
        if is_taken || !key.is_fresh() {
            return Err(Error::WrongKeyState);
        }
        match key.keytype() {
            KeyType::Ksk(_) => self.ksk = true,
            KeyType::Zsk(_) => self.zsk = true,
            KeyType::Csk(_, _) => self.csk = true,
            KeyType::Include(_) => (),
        }
        let algorithm = u16::from(key.algorithm().number);
        set(&mut self.algorithms, algorithm, true);
        Ok(())
    }
}

/// Whether a key of this kind and state is one to go on with after a start, as `want` asks, unless
/// the start lists it as old. The role that is asked for must not be old, and has to be in the
/// DNSKEY set, or for `KskAtParent` to have a DS at the parent.
fn serves_as_kept(want: Want, keytype: KeyType) -> bool
    ensures { result ≡ serves_as_kept want keytype }
{
    match want {
        Want::PresentKsk => is_kept_present(keytype.ksk()),
        Want::KskAtParent => is_kept_at_parent(keytype.ksk()),
        Want::PresentZsk => is_kept_present(keytype.zsk()),
        Want::PresentKskRole => is_kept_present(keytype.ksk_role()),
        Want::PresentZskRole => is_kept_present(keytype.zsk_role()),
    }
}

/// Whether the roll of this column may go from old keys with the algorithms in `old` to new keys
/// with those in `new`: the two sets are equal, or the roll may change algorithms.
pub fn may_go_over(column: &Column, old: &AlgorithmSet, new: &AlgorithmSet) -> bool
    ensures same { result ≡ (column.now.changes_algorithms || bytes_eq old.now new.now) }
    ensures within { (at : List ℕ → Option KeyParts) (olds news : List (List ℕ))
        → ((a : ℕ) → is_set old.now a ≡ has_algorithm at olds a)
        → ((a : ℕ) → is_set new.now a ≡ has_algorithm at news a)
        → result ≡ (column.now.changes_algorithms
        || (algorithms_within at olds news && algorithms_within at news olds)) }
{
    column.changes_algorithms || *old == *new
}

/// Whether `reference`, the public reference of a key, stands in the list `references`.
fn is_listed(references: &[&str], reference: &str) -> bool
    ensures { result ≡ is_listed (texts references.now) reference.now }
{
    references.iter().any(|listed| reference == *listed)
}

/// Why a start is refused for its keys.
impl Keys {
    /// The key that `reference` names, an entry in the list of old or of new keys of a start.
    /// Refuses the entry with `KeyNotFound` if there is no such key, and with `WrongKeyType` if
    /// `roll` doesn't change keys of its kind.
    fn listed_key(&self, roll: RollType, reference: &str) -> Result<&Key, Error>
        ensures key { IfOk result (λ key. map.get self.now reference.now ≡ Some key.now) }
        ensures sound { IfOk result (λ key.
            old_entry_fault roll (map.get self.now reference.now) ≡ None) }
        ensures fault { IfErr result (λ fault.
            old_entry_fault roll (map.get self.now reference.now) ≡ Some fault) }
    {
        let Some(key) = self.as_map().get(reference) else {
            return Err(Error::KeyNotFound);
        };
        match (roll.column().side, key.keytype()) {
            (Side::KskSide | Side::BothSides, KeyType::Ksk(_)) => Ok(key),
            (Side::ZskSide | Side::BothSides, KeyType::Zsk(_)) => Ok(key),
            (Side::BothSides, KeyType::Csk(_, _)) => Ok(key),
            _ => Err(Error::WrongKeyType),
        }
    }

    /// Puts the tag of the key at `reference` into the set `tags`, if there is such a key. The tags
    /// in the set stay in it.
    fn add_tag(&self, tags: &mut TagSet, reference: &str)
        ensures len { length tags.new ≡ length tags.old }
        ensures listed { (listed : List ℕ → Bool) → HasListed tags.old self.now listed
            → HasListed tags.new self.now (λ q. listed q || bytes_eq reference.now q) }
    {
        if let Some(key) = self.as_map().get(reference) {
            set(tags, key.key_tag(), true);
        }
    }

    /// Checks the old keys that a start of `roll` lists by their public references, and answers the
    /// set of their algorithms. The first entry with a fault is refused: with `KeyNotFound`, or
    /// with `WrongKeyType` if `roll` doesn't change keys of this kind.
    pub fn check_old(&self, roll: RollType, old: &[&str]) -> Result<AlgorithmSet, Error>
        ensures fault { AnswersExactly
            (old_fault roll (map.get self.now) (texts old.now)) result }
        ensures algorithms { IfOk result (λ algorithms. (a : ℕ) →
            is_set algorithms a ≡ has_algorithm (map.get self.now) (texts old.now) a) }
    {
        let mut algorithms = [0; 4];
        for reference in old {
            let key = self.listed_key(roll, reference)?;
            set(&mut algorithms, u16::from(key.algorithm().number), true);
        }
        Ok(algorithms)
    }

    /// Checks the new keys that a start of `roll` lists by their public references, and answers
    /// their algorithms and kinds. The first entry of `new` with a fault is refused: with
    /// `KeyNotFound`, `WrongKeyType` if `roll` doesn't change keys of this kind, or `WrongKeyState`
    /// for a key that isn't fresh (available, not old, and in no use), or is listed in `old` or
    /// earlier in `new`.
    // To find an entry that is listed before, short lists are read, and long ones are put into a
    // set of tags: to clear the set costs more than to read a few entries.
    #[tactic(auto, using(crate::proofs::Marks::lists))]
    pub fn check_new(&self, roll: RollType, old: &[&str], new: &[&str]) -> Result<NewKeys, Error>
        ensures fault { AnswersExactly
            (new_fault roll (map.get self.now) (texts old.now) [] (texts new.now)) result }
        ensures algorithms { IfOk result (λ keys. (a : ℕ) →
            is_set keys.algorithms a ≡ has_algorithm (map.get self.now) (texts new.now) a) }
        ensures kinds { IfOk result (AreOf (map.get self.now) (texts new.now)) }
    {
        if old.len() > ENTRIES_OF_SHORT_LIST || new.len() > ENTRIES_OF_SHORT_LIST {
            return self.check_many_new(roll, old, new);
        }
        let mut keys = NO_KEYS;
        for (i, reference) in new.iter().enumerate() {
            let key = self.listed_key(roll, reference)?;
            let is_taken = is_listed(old, reference) || is_listed(&new[..i], reference);
            keys.add(key, is_taken)?;
        }
        Ok(keys)
    }

    /// Checks the new keys that a start of `roll` lists in `new`, if `old` or `new` is long, and
    /// answers their algorithms and kinds. Both lists have public references. The first entry of
    /// `new` with a fault is refused: with `KeyNotFound`, with `WrongKeyType` if `roll` doesn't
    /// change keys of this kind, or with `WrongKeyState` for a key that isn't fresh (available, not
    /// old, and in no use), or is listed in `old` or earlier in `new`.
    // A set of tags tells which keys are listed already.
    // Out of line, so that a start with short lists doesn't pay for the place of the set.
    #[inline(never)]
    #[tactic(auto, using(crate::proofs::Marks::lists))]
    fn check_many_new(&self, roll: RollType, old: &[&str], new: &[&str]) -> Result<NewKeys, Error>
        ensures fault { AnswersExactly
            (new_fault roll (map.get self.now) (texts old.now) [] (texts new.now)) result }
        ensures algorithms { IfOk result (λ keys. (a : ℕ) →
            is_set keys.algorithms a ≡ has_algorithm (map.get self.now) (texts new.now) a) }
        ensures kinds { IfOk result (AreOf (map.get self.now) (texts new.now)) }
    {
        let mut taken = [0; 1024];
        for entry in old {
            self.add_tag(&mut taken, entry);
        }
        let mut keys = NO_KEYS;
        for reference in new {
            let key = self.listed_key(roll, reference)?;
            keys.add(key, is_set(&taken, key.key_tag()))?;
            self.add_tag(&mut taken, reference);
        }
        Ok(keys)
    }

    /// Refuses with `NoSuitableKeyPresent` a start that leaves no key to go on with. Each of
    /// `wants` has to be met by a new key, of the kinds in `new`, or by a key whose flags are as
    /// asked (not old, and in the DNSKEY set, or for `KskAtParent` with a DS at the parent) and
    /// that isn't listed as old by its public reference in `old`.
    pub fn check_suitability(
        &self,
        wants: &[Want],
        old: &[&str],
        new: &NewKeys,
    ) -> Result<(), Error>
        ensures { (news : List (List ℕ)) → AreOf (map.get self.now) news new.now
            → AnswersExactly (if list_all (is_met self.now (texts old.now) news) wants.now
            then None else Some NoSuitableKeyPresent) result }
    {
        let are_met = wants.iter().all(|want| {
            // A new key serves as soon as it comes in.
            let new_serves = match want {
                Want::PresentKsk | Want::KskAtParent => new.ksk,
                Want::PresentZsk => new.zsk,
                Want::PresentKskRole => new.ksk || new.csk,
                Want::PresentZskRole => new.zsk || new.csk,
            };
            new_serves || self.has_kept(*want, old)
        });
        if are_met {
            Ok(())
        } else {
            Err(Error::NoSuitableKeyPresent)
        }
    }

    /// Whether there is a key to go on with after a start, as `want` asks, beside the new ones: its
    /// flags are as asked, and it isn't listed as old by its public reference in `old`.
    // It is so if more keys have such flags than are listed.
    #[tactic(auto, using(crate::proofs::Counted::counts))]
    fn has_kept(&self, want: Want, old: &[&str]) -> bool
        ensures { result ≡ some_kept (serves_as_kept want) self.now (texts old.now) }
    {
        self.count_listed(want, old) < self.count(want)
    }

    /// How many of the keys that a start lists as old, by their public references in `old`, would
    /// be keys to go on with, as `want` asks, if they weren't listed. A key that is listed twice is
    /// counted once.
    fn count_listed(&self, want: Want, old: &[&str]) -> usize
        ensures { result ≡
            count_in (listed_passes (serves_as_kept want) (texts old.now)) self.now }
    {
        if old.len() <= ENTRIES_OF_SHORT_LIST {
            self.count_few_listed(want, old)
        } else {
            self.count_many_listed(want, old)
        }
    }

    /// How many of the keys that a start lists as old, by their public references in the short list
    /// `old`, would be keys to go on with, as `want` asks, if they weren't listed. An entry isn't
    /// counted if the same one stands before it.
    fn count_few_listed(&self, want: Want, old: &[&str]) -> usize
        ensures { result ≡
            count_in (listed_passes (serves_as_kept want) (texts old.now)) self.now }
    {
        let mut count = 0;
        for (i, reference) in old.iter().enumerate() {
            count += usize::from(self.serves_but_for(want, reference, &old[..i]));
        }
        count
    }

    /// How many of the keys that a start lists as old, by their public references in the long list
    /// `old`, would be keys to go on with, as `want` asks, if they weren't listed. A set of the
    /// tags so far tells which keys are counted already.
    #[inline(never)]
    fn count_many_listed(&self, want: Want, old: &[&str]) -> usize
        ensures { result ≡
            count_in (listed_passes (serves_as_kept want) (texts old.now)) self.now }
    {
        let mut earlier = [0; 1024];
        let mut count = 0;
        for reference in old {
            count += usize::from(self.serves_first(want, reference, &earlier));
            self.add_tag(&mut earlier, reference);
        }
        count
    }

    /// Whether the key at `reference`, an entry in a start's list of old keys, has the flags that
    /// `want` asks for, and the same entry isn't in `earlier`, the entries before it. `false` if
    /// there is no such key.
    fn serves_but_for(&self, want: Want, reference: &str, earlier: &[&str]) -> bool
        ensures { result ≡ option_map_or (λ k. serves_as_kept want k.keytype
            && not (is_listed (texts earlier.now) reference.now))
            (map.get self.now reference.now) false }
    {
        match self.as_map().get(reference) {
            None => false,
            Some(key) => serves_as_kept(want, key.keytype()) && !is_listed(earlier, reference),
        }
    }

    /// Whether the key at `reference`, an entry in a start's list of old keys, has the flags that
    /// `want` asks for, and its tag isn't in `earlier`, the tags of the keys before it. `false` if
    /// there is no such key.
    fn serves_first(&self, want: Want, reference: &str, earlier: &TagSet) -> bool
        ensures { result ≡ option_map_or (λ k. serves_as_kept want k.keytype
            && not (is_set earlier.now k.key_tag)) (map.get self.now reference.now) false }
    {
        match self.as_map().get(reference) {
            None => false,
            Some(key) => { serves_as_kept(want, key.keytype()) && !is_set(earlier, key.key_tag()) }
        }
    }
}
