//! The phases of the rolls in progress, and the keys that each start listed, until a first report.
ghost use Rattle.std.specs.Prelude.{◌≡◌, not, ◌&&◌, is_some, IsSome, None, Some, IfOk, ℕ, List, []};
ghost use Rattle.std.specs.Prelude.{IsOkUnless, OnOk, OnErr, ◌++◌, ◌≤◌, ◌+◌, length, vec_len};
ghost use Rattle.std.specs.FinMap as map;
ghost use Rattle.std.specs.HashMap as hash;
ghost use Rattle.std.specs.{Prelude.vec_capacity, Option.option_map};
ghost use Rattle.dnssec_base.specs.declared.error.Error.TheVariants.{OutOfMemory};
ghost use Rattle.dnssec_key.specs.declared.roll.RollType.{RollType as AnyRoll};
ghost use Rattle.dnssec_key.specs.RollTable.{after_early_end, cache_expire};
ghost use Rattle.dnssec_zone.specs.Rolls.{all_rolls, phase_of, with_phase, no_rolls, rolls_in_map};
ghost use Rattle.dnssec_zone.specs.Start.{has_conflict, conflict, texts, together};
ghost use Rattle.dnssec_zone.specs.Refusals.{AnswersExactly, report_refusal, end_refusal};
ghost use Rattle.dnssec_zone.specs.{Refusals.early_end_refusal, Wait.ttl_in, Lists.same_part};
ghost use Rattle.dnssec_zone.specs.Inner.Entries.{is_of, is_of_roll, entries_after_report};
ghost use Rattle.dnssec_zone.specs.Inner.Entries.{entries_at_start, entries_of, has_entry};
ghost use Rattle.dnssec_zone.specs.Inner.{Bits.is_set, Entries.without_roll, Entries.without_tag};
ghost use Rattle.dnssec_zone.specs.declared.rolls.Part.TheVariants.{Old, New};

use crate::index::{TagSet, set};
use crate::keys::Keys;
use dnssec_key::{Error, Half, RollState, RollType, Side};
use std::alloc::Global;
use std::collections::HashMap;
use std::marker::Model;

/// The six kinds of rolls, each once, in the order in which `RollType` has them.
pub fn all_rolls() -> &'static [RollType]
    ensures { result.now ≡ all_rolls }
{
    &[
        RollType::KskRoll,
        RollType::KskDoubleDsRoll,
        RollType::ZskRoll,
        RollType::ZskDoubleSignatureRoll,
        RollType::CskRoll,
        RollType::AlgorithmRoll,
    ]
}

/// The rolls in progress.
#[derive(Drop)]
pub struct Rolls {
    phases: HashMap<RollType, RollState>,
}

impl Model for Rolls {
    ghost use Rattle.std.specs.Coded.{codes};
    ghost use Rattle.dnssec_zone.specs.Rolls.{Rolls as Phases, rolls_in_map, roll_code};

    ghost Value = { Phases };

    ghost coded = { Prim.hlevel (codes, roll_code) };

    ghost view = { λ s. rolls_in_map s.phases };
}

impl Rolls {
    /// The rolls of a zone with none in progress. They will take their memory from `alloc`.
    pub fn new(alloc: Global) -> Self
        ensures { result ≡ no_rolls }
    {
        Rolls {
            phases: HashMap::new(alloc),
        }
    }

    /// A copy of the rolls in progress with their phases, or `OutOfMemory`.
    pub fn try_clone(&self) -> Result<Rolls, Error>
        ensures same { IfOk result (λ rolls. rolls ≡ self.now) }
        ensures err { IsOkUnless result OutOfMemory }
    {
        let phases = self.phases.clone()?;
        Ok(Rolls { phases })
    }

    /// The rolls in progress, each with its phase, to read.
    #[tactic(auto, using(crate::proofs::Phases::phases))]
    pub fn as_map(&self) -> &HashMap<RollType, RollState>
        ensures shown { rolls_in_map result.now ≡ self.now }
        ensures at { (roll : AnyRoll) → hash.get_by (⟦<RollType as PartialEq>⟧.eq roll) result.now
            ≡ phase_of self.now roll }
    {
        &self.phases
    }

    /// The phase of a roll, if it is in progress.
    #[tactic(auto, using(crate::proofs::Phases::phases))]
    pub fn phase_of(&self, roll: RollType) -> Option<RollState>
        ensures { result ≡ phase_of self.now roll }
    {
        self.phases.get(&roll).copied()
    }

    /// Puts `roll` into `phase`, also if it wasn't in progress. Nothing changes on `OutOfMemory`.
    #[tactic(auto, using(crate::proofs::Phases::phases))]
    pub fn put_in(&mut self, roll: RollType, phase: RollState) -> Result<(), Error>
        ensures ok { OnOk result (self.new ≡ with_phase self.old roll (Some phase)) }
        ensures err { OnErr result (self.new ≡ self.old) }
        ensures memory { IsOkUnless result OutOfMemory }
    {
        self.phases.insert(roll, phase)?;
        Ok(())
    }

    /// Moves `roll`, which has to be in progress, on to `phase`. No memory is taken.
    #[tactic(auto, using(crate::proofs::Phases::phases))]
    pub fn move_to(&mut self, roll: RollType, phase: RollState)
        requires { IsSome (phase_of self.old roll) }
        ensures { self.new ≡ with_phase self.old roll (Some phase) }
    {
        if let Some(state) = self.phases.get_mut(&roll) {
            *state = phase;
        }
    }

    /// Moves `roll` on to its wait of `ttl` seconds by the report of this half. Refuses the report
    /// with `WrongStateForRollOperation` if the roll doesn't wait for it: nothing changes then.
    #[tactic(auto, using(crate::proofs::Phases::phases))]
    pub fn take_report(&mut self, roll: RollType, half: Half, ttl: u32) -> Result<(), Error>
        ensures reply { AnswersExactly
            (report_refusal half (phase_of self.old roll)) result }
        ensures ok { OnOk result
            (self.new ≡ with_phase self.old roll (Some (cache_expire half ttl))) }
        ensures err { OnErr result (self.new ≡ self.old) }
    {
        let Some(phase) = self.phases.get_mut(&roll) else {
            return Err(Error::WrongStateForRollOperation);
        };
        if !awaits_report(*phase, half) {
            return Err(Error::WrongStateForRollOperation);
        }
        *phase = half.cache_expire(ttl);
        Ok(())
    }

    /// Ends `roll`, if it is in progress. The last roll leaves no memory behind.
    #[tactic(auto, using(crate::proofs::Phases::phases))]
    pub fn take_out(&mut self, roll: RollType)
        ensures { self.new ≡ with_phase self.old roll None }
    {
        self.phases.remove(&roll);
        if self.phases.is_empty() {
            self.phases.shrink_to_fit();
        }
    }

    /// Whether `roll` is in progress, or another roll is that may not be in progress with it.
    fn has_conflict(&self, roll: RollType) -> bool
        ensures { result ≡ has_conflict roll self.now }
    {
        all_rolls().iter().any(|other| self.phase_of(*other).is_some()
            && !go_together(roll, *other))
    }

    /// Refuses the start of `roll` with `WrongStateForRollOperation` if it is in progress, else
    /// with `ConflictingRollInProgress` if another is, unless one is KSK-only, and one ZSK-only.
    #[tactic(auto, unfolding(crate::specs::Start::conflict))]
    pub fn check_conflict(&self, roll: RollType) -> Result<(), Error>
        ensures { AnswersExactly (conflict roll self.now) result }
    {
        // Most starts find no roll in progress, and needn't ask for each.
        if self.phases.is_empty() {
            return Ok(());
        }
        if self.phase_of(roll).is_some() {
            return Err(Error::WrongStateForRollOperation);
        }
        if self.has_conflict(roll) {
            return Err(Error::ConflictingRollInProgress);
        }
        Ok(())
    }

    /// Refuses with `WrongStateForRollOperation` to end `roll`, unless it is in phase `Done`.
    pub fn check_end(&self, roll: RollType) -> Result<(), Error>
        ensures { AnswersExactly (end_refusal (phase_of self.now roll)) result }
    {
        match self.phase_of(roll) {
            Some(RollState::Done) => Ok(()),
            _ => Err(Error::WrongStateForRollOperation),
        }
    }

    /// Refuses with `WrongStateForRollOperation` to end `roll` early, unless it waits for its first
    /// report: after that, caches may hold what its start changed.
    pub fn check_early_end(&self, roll: RollType) -> Result<(), Error>
        ensures { AnswersExactly (early_end_refusal (phase_of self.now roll)) result }
    {
        match self.phase_of(roll) {
            Some(RollState::Propagation1) => Ok(()),
            _ => Err(Error::WrongStateForRollOperation),
        }
    }

    /// The TTL, in seconds, that `roll` waits for in this half. `None` if it isn't in this wait.
    pub fn ttl_in(&self, roll: RollType, half: Half) -> Option<u32>
        ensures { result ≡ ttl_in half (phase_of self.now roll) }
    {
        match (half, self.phase_of(roll)) {
            (Half::First, Some(RollState::CacheExpire1(ttl))) => Some(ttl),
            (Half::Second, Some(RollState::CacheExpire2(ttl))) => Some(ttl),
            _ => None,
        }
    }
}

/// Whether a roll in `phase` waits for the report of this half, and so accepts it.
fn awaits_report(phase: RollState, half: Half) -> bool
    ensures { result ≡ not (is_some (report_refusal half (Some phase))) }
{
    matches!(
        (half, phase),
        (Half::First, RollState::Propagation1) | (Half::Second, RollState::Propagation2)
    )
}

/// Whether two rolls may be in progress together: one changes only KSKs, the other only ZSKs.
pub fn go_together(one: RollType, other: RollType) -> bool
    ensures { result ≡ together one other }
{
    matches!(
        (one.column().side, other.column().side),
        (Side::KskSide, Side::ZskSide) | (Side::ZskSide, Side::KskSide)
    )
}

/// The part that a key plays in a roll: an old key goes out, a new one comes in.
#[derive(Clone, Copy, Debug, PartialEq, Eq)]
pub enum Part {
    Old,
    New,
}

/// Whether the two parts are the same: both old, or both new.
pub fn same_part(part: Part, other: Part) -> bool
    ensures { result ≡ same_part part other }
{
    match (part, other) {
        (Part::Old, Part::Old) | (Part::New, Part::New) => true,
        (Part::Old, Part::New) | (Part::New, Part::Old) => false,
    }
}

/// A key that the start of a roll has listed, by its key tag (RFC 4034, appendix B).
#[derive(Clone, Copy)]
pub(crate) struct ListedKey {
    pub(crate) roll: RollType,
    pub(crate) part: Part,
    pub(crate) key_tag: u16,
}

/// By their tags, the keys that starts listed: the new ones, and old ones that weren't old before.
#[derive(Drop)]
pub struct Lists {
    entries: Vec<ListedKey>,
}

impl ListedKey {
    /// Whether the start of `roll` has listed this key, as old or as new.
    #[tactic(auto, using(crate::proofs::Phases::phases))]
    fn is_of_roll(self, roll: RollType) -> bool
        ensures { result ≡ is_of_roll roll self }
    {
        roll == self.roll
    }

    /// Whether the start of `roll` has listed this key as `part`, old or new.
    fn is_of(self, roll: RollType, part: Part) -> bool
        ensures { result ≡ is_of roll part self }
    {
        self.is_of_roll(roll) && same_part(part, self.part)
    }
}

impl Lists {
    /// Lists in which no start has listed a key. They will take their memory from `alloc`.
    pub fn new(alloc: Global) -> Lists
        ensures { result.entries.items ≡ [] }
    {
        Lists {
            entries: Vec::new(alloc),
        }
    }

    /// A copy of all that starts have listed, or `OutOfMemory`.
    pub fn try_clone(&self) -> Result<Lists, Error>
        ensures same { IfOk result (λ lists. lists.entries.items ≡ self.now.entries.items) }
        ensures err { IsOkUnless result OutOfMemory }
    {
        let entries = self.entries.clone()?;
        Ok(Lists { entries })
    }

    /// Reserves memory for the keys in a start's two lists. No entry changes, even on an error.
    pub fn make_room(&mut self, old: &[&str], new: &[&str]) -> Result<(), Error>
        ensures same { self.new.entries.items ≡ self.old.entries.items }
        ensures room { OnOk result (vec_len self.new.entries + (length old.now + length new.now)
            ≤ vec_capacity self.new.entries) }
        ensures err { IsOkUnless result OutOfMemory }
    {
        let listed = old.len().checked_add(new.len()).ok_or(Error::OutOfMemory)?;
        Ok(self.entries.reserve(listed)?)
    }

    /// Lists, in place of what `roll` had listed, the keys of `old` and `new` (references) that are
    /// there and not old yet. Call `make_room` for them before it, and change their flags after it.
    pub fn start(&mut self, keys: &Keys, roll: RollType, old: &[&str], new: &[&str])
        requires { vec_len self.old.entries + (length old.now + length new.now)
            ≤ vec_capacity self.old.entries }
        ensures { self.new.entries.items ≡ entries_at_start keys.now roll
            (texts old.now) (texts new.now) self.old.entries.items }
    {
        self.take_out(roll);
        self.list(keys, roll, Part::Old, old);
        self.list(keys, roll, Part::New, new);
    }

    /// Adds an entry, as this part in `roll`, for each key that isn't old and `references` names.
    fn list(&mut self, keys: &Keys, roll: RollType, part: Part, references: &[&str])
        requires { vec_len self.old.entries + length references.now
            ≤ vec_capacity self.old.entries }
        ensures items { self.new.entries.items
            ≡ self.old.entries.items ++ entries_of keys.now roll part (texts references.now) }
        ensures len { vec_len self.new.entries ≤ vec_len self.old.entries + length references.now }
        ensures capacity { vec_capacity self.new.entries ≡ vec_capacity self.old.entries }
    {
        for reference in references {
            match keys.as_map().get(*reference) {
                Some(key) if key.is_kept() => {
                    self.entries.push_reserved(ListedKey {
                        roll,
                        part,
                        key_tag: key.key_tag(),
                    });
                }
                _ => {}
            }
        }
    }

    /// Drops all that the start of `roll` has listed. What other starts have listed stays.
    pub fn take_out(&mut self, roll: RollType)
        ensures items { self.new.entries.items ≡ without_roll roll self.old.entries.items }
        ensures len { vec_len self.new.entries ≤ vec_len self.old.entries }
        ensures capacity { vec_capacity self.new.entries ≡ vec_capacity self.old.entries }
    {
        self.entries.retain(|entry| !entry.is_of_roll(roll));
    }

    /// Updates the lists for the report of this half of `roll`. The first one drops what the start
    /// listed, since no early end may come after it. The second one changes nothing.
    pub fn report(&mut self, roll: RollType, half: Half)
        ensures { self.new.entries.items
            ≡ entries_after_report roll half self.old.entries.items }
    {
        match half {
            Half::First => self.take_out(roll),
            Half::Second => {}
        }
    }

    /// Drops the entries of the key with this tag, so that no early end of a roll changes it.
    pub fn forget(&mut self, key_tag: u16)
        ensures { self.new.entries.items ≡ without_tag key_tag self.old.entries.items }
    {
        self.entries.retain(|entry| entry.key_tag != key_tag);
    }

    /// Undoes in `keys` what the start of `roll` did to the flags of its listed keys. Stamps stay.
    // Out of line, so that other calls need no stack for the two sets.
    #[inline(never)]
    pub fn unmark(&self, roll: RollType, keys: &mut Keys)
        ensures { (q : List ℕ) → map.get keys.new q ≡ option_map (λ k. after_early_end roll
            (has_entry roll Old k.key_tag self.now.entries.items)
            (has_entry roll New k.key_tag self.now.entries.items) k) (map.get keys.old q) }
    {
        let olds = self.tags(roll, Part::Old);
        let news = self.tags(roll, Part::New);
        keys.unmark(roll, &olds, &news);
    }

    /// The set of the tags of all keys that the start of `roll` listed as this part, old or new.
    fn tags(&self, roll: RollType, part: Part) -> TagSet
        ensures { (t : ℕ) → is_set result t ≡ has_entry roll part t self.now.entries.items }
    {
        let mut tags = [0; 1024];
        for entry in self.entries.iter() {
            if entry.is_of(roll, part) {
                let key_tag = entry.key_tag;
                set(&mut tags, key_tag, true);
            }
        }
        tags
    }
}
