//! The rolls of a session: which keys their starts listed, and which were ended early.
ghost use Rattle.std.specs.Prelude.{◌≡◌, [], ◌++◌, filter, map, IfOk, OnOk};
ghost use Rattle.dnssec_record.specs.Courses.{as_listed, ended_after, is_another, is_of_other};
ghost use Rattle.dnssec_record.specs.Courses.{listed_after, listings, turn_after, turn_of};
ghost use Rattle.dnssec_zone.specs.Start.{texts, together};

use dnssec_keyset::RollType;
use dnssec_run::{Call, Reply};
use dnssec_zone::{Part, go_together};
use std::alloc::{AllocError, Global};

/// A key that the start of a roll listed, while the roll is in progress.
#[derive(Debug, Drop, PartialEq)]
pub struct Listing {
    pub roll: RollType,
    pub part: Part,
    pub reference: String,
}

/// What a call means for the rolls.
#[derive(Clone, Copy)]
pub(crate) enum Turn<'a> {
    Starts {
        roll: RollType,
        old: &'a [&'a str],
        new: &'a [&'a str],
    },
    Ends(RollType),
    EndsEarly(RollType),
    Deletes(&'a str),
    GoesOn,
}

impl<'a> Turn<'a> {
    /// What `call` means for the rolls if it is accepted: it starts a roll, ends one, ends one
    /// early, or deletes a key. Any other call changes no list of `Courses` (`GoesOn`).
    pub(crate) fn of(call: &Call<'a>) -> Self
        ensures { result ≡ turn_of call.now }
    {
        match call {
            Call::StartRoll {
                rolltype,
                old,
                new,
                ..
            } => Turn::Starts {
                roll: *rolltype,
                old: *old,
                new: *new,
            },
            Call::RollDone { rolltype } => Turn::Ends(*rolltype),
            Call::AbortRoll { rolltype } => Turn::EndsEarly(*rolltype),
            Call::DeleteKey { pubref } => Turn::Deletes(*pubref),
            _ => Turn::GoesOn,
        }
    }

    /// What the call means for the rolls now that it got this `reply`: `self` if it was accepted,
    /// and nothing (`GoesOn`) if it was refused.
    pub(crate) fn after(self, reply: &Reply) -> Self
        ensures { result ≡ turn_after self.entry reply.now }
    {
        match reply {
            Reply::Done | Reply::Actions(_) => self,
            Reply::Refused(_) => Turn::GoesOn,
        }
    }
}

/// The rolls of a session.
#[derive(Drop)]
pub(crate) struct Courses {
    /// The keys of rolls in progress.
    listed: Vec<Listing>,
    /// The rolls that were ended early, until a roll starts that may not be in progress with them.
    ended: Vec<RollType>,
}

impl Courses {
    /// The lists of a new session, in which no roll was started. Both are empty, and take their
    /// memory from `alloc` once they grow.
    pub(crate) fn new(alloc: Global) -> Self
        ensures listed { result.listed.items ≡ [] }
        ensures ended { result.ended.items ≡ [] }
    {
        Courses {
            listed: Vec::new(alloc),
            ended: Vec::new(alloc),
        }
    }

    /// A copy of both lists in memory from `alloc`. It fails only if there is no memory.
    pub(crate) fn try_clone(&self, alloc: Global) -> Result<Self, AllocError>
        ensures listed { IfOk result (λ copy.
            map as_listed copy.listed.items ≡ map as_listed self.now.listed.items) }
        ensures ended { IfOk result (λ copy. copy.ended.items ≡ self.now.ended.items) }
    {
        let mut listed = Vec::new(alloc);
        for key in &self.listed {
            listed.push(Listing {
                roll: key.roll,
                part: key.part,
                reference: key.reference.clone()?,
            })?;
        }
        let ended = self.ended.clone()?;
        Ok(Courses { listed, ended })
    }

    /// Updates `listed` and `ended` after a call that meant `turn`. A start adds the keys of its
    /// roll to `listed`. From `ended` it removes its own roll, and those that may not be in
    /// progress at the same time. An end, early or not, removes the keys of its roll from `listed`,
    /// and an early one adds the roll to `ended`. A deletion removes its key from `listed`.
    /// `GoesOn` changes nothing. If memory runs out, it fails, and the lists may be updated in
    /// part.
    pub(crate) fn take(&mut self, alloc: Global, turn: Turn<'_>) -> Result<(), AllocError>
        ensures listed { OnOk result (map as_listed self.new.listed.items
            ≡ listed_after (map as_listed self.old.listed.items) turn.entry) }
        ensures ended { OnOk result (self.new.ended.items
            ≡ ended_after self.old.ended.items turn.entry) }
    {
        match turn {
            Turn::Starts { roll, old, new } => {
                self.forget_ends(roll);
                self.list(alloc, roll, Part::Old, old)?;
                self.list(alloc, roll, Part::New, new)
            }
            Turn::Ends(roll) => {
                self.take_out(roll);
                Ok(())
            }
            Turn::EndsEarly(roll) => {
                self.take_out(roll);
                self.ended.push(roll)?;
                Ok(())
            }
            Turn::Deletes(reference) => {
                self.forget(reference);
                Ok(())
            }
            Turn::GoesOn => Ok(()),
        }
    }

    /// Adds the keys at `references` to the end of `listed`, as this `part` (old or new) of `roll`,
    /// which starts. If memory runs out, it fails, and some of them may be added.
    fn list(
        &mut self,
        alloc: Global,
        roll: RollType,
        part: Part,
        references: &[&str],
    ) -> Result<(), AllocError>
        ensures listed { OnOk result (map as_listed self.new.listed.items
            ≡ map as_listed self.old.listed.items ++ listings roll part (texts references.now)) }
        ensures ended { OnOk result (self.new.ended ≡ self.old.ended) }
    {
        self.listed.reserve_exact(references.len())?;
        for reference in references {
            self.listed.push(Listing {
                roll,
                part,
                reference: String::from_str(alloc, reference)?,
            })?;
        }
        Ok(())
    }

    /// Removes the keys of `roll`, which has ended, from `listed`. The others stay, in their order.
    fn take_out(&mut self, roll: RollType)
        ensures listed { map as_listed self.new.listed.items
            ≡ filter (is_of_other roll) (map as_listed self.old.listed.items) }
        ensures ended { self.new.ended ≡ self.old.ended }
    {
        self.listed.retain(|key| key.roll != roll);
        self.listed.shrink_to_fit();
    }

    /// Removes the key at `reference`, which was deleted, from `listed`, in every roll. The others
    /// stay, in their order.
    fn forget(&mut self, reference: &str)
        ensures listed { map as_listed self.new.listed.items
            ≡ filter (is_another reference.now) (map as_listed self.old.listed.items) }
        ensures ended { self.new.ended ≡ self.old.ended }
    {
        self.listed
            .retain(|key| key.reference.as_str() != reference);
    }

    /// Removes from `ended` the roll `roll`, which starts now, and those that may not be in
    /// progress at the same time. Callers start it only once what those early ends asked for is
    /// done. The others stay, in their order.
    fn forget_ends(&mut self, roll: RollType)
        ensures ended { self.new.ended.items ≡ filter (together roll) self.old.ended.items }
        ensures listed { self.new.listed ≡ self.old.listed }
    {
        self.ended.retain(|ended| go_together(roll, *ended));
    }

    /// The keys that the starts of the rolls in progress listed, in the order of the starts: first
    /// the old ones of a roll, then its new ones. Deleted keys are left out.
    pub(crate) fn listed(&self) -> &[Listing]
        ensures { result.now ≡ self.now.listed.items }
    {
        &self.listed
    }

    /// The rolls that were ended early, in the order of these ends. A roll stays here until it
    /// starts again, or until one starts that may not be in progress at the same time.
    pub(crate) fn ended(&self) -> &[RollType]
        ensures { result.now ≡ self.now.ended.items }
    {
        &self.ended
    }
}
