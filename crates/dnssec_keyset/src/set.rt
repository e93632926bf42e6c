//! The key set: its keys and its rolls in progress, and how a roll starts.
ghost use Rattle.std.specs.Prelude.{◌≡◌, ℕ, List, IfOk, IsOkUnless};
ghost use Rattle.std.specs.FinMap as map;
ghost use Rattle.std.specs.HashMap as hash;
ghost use Rattle.dnssec_base.specs.declared.error.Error.TheVariants.{OutOfMemory};
ghost use Rattle.dnssec_key.specs.declared.roll.RollType.{RollType as AnyRoll};
ghost use Rattle.dnssec_zone.specs.Keys.{keys_in_map};
ghost use Rattle.dnssec_zone.specs.Rolls.{rolls_in_map, phase_of};
ghost use Rattle.dnssec_zone.specs.{Refusals.AnswersExactly, Start.texts};
ghost use Rattle.dnssec_keyset.specs.KeySet.{new_set};
ghost use Rattle.dnssec_keyset.specs.Step.{Step, StartRoll, reply_list, start_refusal};

use dnssec_base::Name;
use dnssec_key::{Action, Error, Key, RollState, RollType, UnixTime};
use dnssec_zone::{KeyMark, Keys, Lists, Rolls, may_go_over};
use std::alloc::Global;
use std::collections::HashMap;
use std::marker::Model;

/// The keys that sign one zone, by their public references, and the rolls in progress.
///
/// A call that is refused changes nothing: neither a key, nor a stamp, nor a roll.
///
/// ```rust
/// let name = Name::<Vec<u8>>::from_str(alloc, "example.com")?;
/// let mut set = KeySet::new(alloc, name);
/// let algorithm = SecurityAlgorithm::ECDSAP256SHA256;
/// let ksk = String::from_str(alloc, "K1")?;
/// set.add_key_ksk(ksk, None, algorithm, 1, now, Available::Available)?;
/// ```
pub struct KeySet {
    name: Name<Vec<u8>>,
    pub(crate) keys: Keys,
    pub(crate) rolls: Rolls,
    /// The keys that starts listed, of the rolls that may still be ended early.
    pub(crate) lists: Lists,
    pub(crate) alloc: Global,
}

impl Drop for KeySet {
    /// Frees the memory of the name, the keys and the rolls. It is written by hand, so that a
    /// caller drops a key set by one call.
    fn drop(self) {
        let KeySet {
            name: _,
            keys: _,
            rolls: _,
            lists: _,
            alloc: _,
        } = self;
    }
}

impl Model for KeySet {
    ghost use Rattle.std.specs.Coded.{codes};
    ghost use Rattle.dnssec_keyset.specs.KeySet.{KeySetParts};
    ghost use Rattle.dnssec_zone.specs.Keys.{keys_code};
    ghost use Rattle.dnssec_zone.specs.Rolls.{roll_code};
    ghost use Rattle.dnssec_zone.specs.Inner.Entries.{EntriesAgree, lists_of};

    ghost Value = { KeySetParts };

    ghost coded = { Prim.hlevel (codes, keys_code, roll_code) };

    ghost view = { λ s. record {
      name = s.name;
      keys = s.keys;
      rolls = s.rolls;
      lists = lists_of s.keys s.lists.entries.items;
    } };

    ghost invariant = { λ s. EntriesAgree s.keys s.lists.entries.items };
}

impl KeySet {
    /// A key set for the zone of this name, without keys or rolls. It will take its memory from
    /// `alloc`, and takes none yet.
    pub fn new(alloc: Global, name: Name<Vec<u8>>) -> Self
        ensures { result ≡ new_set name }
    {
        KeySet {
            name,
            keys: Keys::new(alloc),
            rolls: Rolls::new(alloc),
            lists: Lists::new(alloc),
            alloc,
        }
    }

    /// A copy: a key set with the same name, keys and rolls, which can also end these rolls early.
    ///
    /// # Errors
    ///
    /// Only `OutOfMemory`, if there is no memory for the copy.
    pub fn try_clone(&self) -> Result<KeySet, Error>
        ensures same { IfOk result (λ set. set ≡ self.now) }
        ensures err { IsOkUnless result OutOfMemory }
    {
        Ok(KeySet {
            name: clone_name(&self.name)?,
            keys: self.keys.try_clone(self.alloc)?,
            rolls: self.rolls.try_clone()?,
            lists: self.lists.try_clone()?,
            alloc: self.alloc,
        })
    }

    /// The name of the zone.
    pub fn name(&self) -> &Name<Vec<u8>>
        ensures { result.now ≡ self.now.name }
    {
        &self.name
    }

    /// The keys by their public references, in no particular order.
    pub fn keys(&self) -> &HashMap<String, Key>
        ensures shown { keys_in_map result.now ≡ self.now.keys }
        ensures at { (q : List ℕ) → hash.get_by_text result.now q ≡ map.get self.now.keys q }
    {
        self.keys.as_map()
    }

    /// The rolls in progress, each with the phase that it is in, in no particular order.
    pub fn rollstates(&self) -> &HashMap<RollType, RollState>
        ensures shown { rolls_in_map result.now ≡ self.now.rolls }
        ensures at { (roll : AnyRoll) → hash.get_by (⟦<RollType as PartialEq>⟧.eq roll) result.now
            ≡ phase_of self.now.rolls roll }
    {
        self.rolls.as_map()
    }

    /// Starts a roll from the keys of `old` to those of `new`, at the moment `now`.
    ///
    /// Both lists are of public references. Answers the actions that are due now. It marks the old
    /// keys as old, and gives the new keys the flags that these actions publish. A new key that
    /// comes into the DNSKEY set is stamped as published at `now`. An old key may have left
    /// already, or not have come in yet, and may be listed twice.
    ///
    /// # Errors
    ///
    /// The first that applies, in this order. Nothing is then changed.
    ///
    /// - `WrongStateForRollOperation` if this roll is in progress.
    /// - `ConflictingRollInProgress` if another roll is that doesn't go with it. Only a roll of
    ///   KSKs and one of ZSKs go together.
    /// - `KeyNotFound`, or `WrongKeyType` for a key that the roll doesn't change: for each old key
    ///   in turn, then for each new one. `WrongKeyState` for a new key that isn't available, was
    ///   used before, is listed as old too, or is listed twice.
    /// - `AlgorithmSetsMismatch` if old and new keys differ in their algorithms, also if only one
    ///   list is empty. Only an algorithm roll allows that.
    /// - `NoSuitableKeyPresent` if the roll would leave no KSK that is present and not old. A roll
    ///   of ZSKs asks this of ZSKs, `CskRoll` and `AlgorithmRoll` of both roles. `KskDoubleDsRoll`
    ///   asks for a DS at the parent in place of present.
    /// - `OutOfMemory` if memory runs out.
    ///
    /// ```rust
    /// // The actions: publish the DNSKEY set with Z2, and report when all servers have it.
    /// let actions = set.start_roll(RollType::ZskRoll, &["Z1"], &["Z2"], &now)?;
    /// ```
    pub fn start_roll(
        &mut self,
        rolltype: RollType,
        old: &[&str],
        new: &[&str],
        now: &UnixTime,
    ) -> Result<Vec<Action>, Error>
        // Causes: `start_refusal`, and memory.
        ensures { Step self.old (StartRoll rolltype (texts old.now) (texts new.now) now.now)
            (reply_list result) self.new }
    {
        self.check_start(rolltype, old, new)?;
        let actions = Vec::from_slice(self.alloc, rolltype.column().asks)?;
        self.lists.make_room(old, new)?;
        // The last request for memory comes before the first write: nothing after it can fail.
        self.rolls.put_in(rolltype, RollState::Propagation1)?;
        self.lists.start(&self.keys, rolltype, old, new);
        self.keys.mark(old, &KeyMark::AsOld);
        self.keys.mark(new, &KeyMark::AsNew(rolltype, *now));
        Ok(actions)
    }

    /// Checks whether the roll may start from the keys of `old` to those of `new`, which are lists
    /// of public references. Nothing is changed, and no memory is taken. Answers the first cause
    /// against it: `WrongStateForRollOperation` or `ConflictingRollInProgress` by the rolls in
    /// progress, `KeyNotFound`, `WrongKeyType` or `WrongKeyState` by a listed key,
    /// `AlgorithmSetsMismatch`, then `NoSuitableKeyPresent`.
    fn check_start(&self, rolltype: RollType, old: &[&str], new: &[&str]) -> Result<(), Error>
        ensures { AnswersExactly (start_refusal rolltype self.now (texts old.now) (texts new.now))
            result }
    {
        self.rolls.check_conflict(rolltype)?;
        let of_old = self.keys.check_old(rolltype, old)?;
        let of_new = self.keys.check_new(rolltype, old, new)?;
        let column = rolltype.column();
        if !may_go_over(column, &of_old, &of_new.algorithms) {
            return Err(Error::AlgorithmSetsMismatch);
        }
        self.keys.check_suitability(column.wants, old, &of_new)
    }
}

/// A copy of a zone's name. The only error is `OutOfMemory`, if there is no memory for it.
fn clone_name(name: &Name<Vec<u8>>) -> Result<Name<Vec<u8>>, Error>
    ensures same { IfOk result (λ made. made ≡ name.now) }
    ensures err { IsOkUnless result OutOfMemory }
{
    match name.try_clone() {
        Ok(made) => Ok(made),
        Err(_) => Err(Error::OutOfMemory),
    }
}
