//! Which rolls in progress have listed a key, as old or as new.
ghost use Rattle.std.specs.Prelude.{◌≡◌, ◌++◌, OnOk, IfOk, IsPermutation, map, string_bytes};
ghost use Rattle.std.specs.List.{list_any};
ghost use denote.Bor.{now};
ghost use Rattle.dnssec_key.specs.declared.roll.RollType.{RollType as AnyRoll};
ghost use Rattle.dnssec_record.specs.Courses.{as_listed};
ghost use Rattle.dnssec_zone.specs.declared.rolls.Part.{Part as AnyPart};
ghost use Rattle.dnssec_status.specs.Inner.Entries.{lists, roll_if_listed};
ghost use Rattle.dnssec_status.specs.Keys.{has_listed, rolls_of};

use dnssec_keyset::RollType;
use dnssec_record::{Listing, Part};
use dnssec_zone::{all_rolls, same_part};
use std::alloc::{AllocError, Global};
use std::marker::Model;

/// What the starts of the rolls in progress listed, in the order of the references: the listings of
/// a key are found without a walk over all.
#[derive(Drop)]
pub(crate) struct Listings<'a> {
    ordered: Vec<&'a Listing>,
}

impl<'a> Model for Listings<'a> {
    ghost use Rattle.std.specs.Prelude.{List, map};
    ghost use Rattle.std.specs.Prelude.{IsSortedByKey};
    ghost use Rattle.std.specs.Cmp.Lexicographic.{slice_cmp};
    ghost use Rattle.std.specs.Ordering.{nat_cmp};
    ghost use Rattle.dnssec_record.specs.Courses.{Listing as AnyListing};
    ghost use Rattle.dnssec_status.specs.Inner.Entries.{listing_of, reference_of};

    ghost Value = { List AnyListing };

    ghost view = { λ listings. map listing_of listings.ordered.items };

    ghost invariant = { λ listings.
        IsSortedByKey reference_of (slice_cmp nat_cmp) listings.ordered.items };
}

impl<'a> Listings<'a> {
    /// Takes up the listings `listed`: each says that the start of a roll in progress listed a key
    /// as old (it goes out) or as new (it comes in). It sorts references to them, so that those of
    /// one key are found fast. It fails only if there is no memory.
    pub(crate) fn of(alloc: Global, listed: &'a [Listing]) -> Result<Self, AllocError>
        ensures { IfOk result (λ listings. IsPermutation (map as_listed listed.now) listings) }
    {
        let mut ordered = lent(alloc, listed)?;
        ordered.sort_unstable_by(|one, other| one.reference.cmp(&other.reference));
        Ok(Listings { ordered })
    }

    /// The listings of the key at `reference`. They say which rolls in progress listed it, and as
    /// what. The answer is empty if none did.
    fn of_key(&self, reference: &String) -> &[&'a Listing]
        ensures { (roll : AnyRoll) (part : AnyPart) →
            list_any (lists roll part (string_bytes reference.now)) result.now
            ≡ list_any (has_listed roll part (string_bytes reference.now)) self.now }
    {
        let end = self
            .ordered
            .partition_point(|listed| listed.reference.cmp(reference).is_le());
        let up_to = &self.ordered[..end];
        let begin = up_to.partition_point(|listed| listed.reference.cmp(reference).is_lt());
        &up_to[begin..]
    }
}

/// References to the listings in a new vector, in their order, to be sorted without a copy of the
/// listings. It fails only if there is no memory.
fn lent(alloc: Global, listed: &[Listing]) -> Result<Vec<&Listing>, AllocError>
    ensures { IfOk result (λ lent. map now lent.items ≡ listed.now) }
{
    listed.iter().collect(alloc)
}

/// The rolls in progress whose start listed the key at `reference` as this `part` (old if it goes
/// out, new if it comes in), in the order of `RollType`. It fails only if there is no memory.
pub(crate) fn rolls_of(
    alloc: Global,
    listings: &Listings<'_>,
    part: Part,
    reference: &String,
) -> Result<Vec<RollType>, AllocError>
    ensures { IfOk result (λ rolls. rolls.items
        ≡ rolls_of part (string_bytes reference.now) listings.now) }
{
    let listed = listings.of_key(reference);
    let mut rolls = Vec::new(alloc);
    for roll in all_rolls() {
        note(&mut rolls, listed, *roll, part, reference)?;
    }
    Ok(rolls)
}

/// Appends `roll` to `rolls` if one of the listings `listed` says that it listed the key at
/// `reference` as this `part` (old or new). Else `rolls` stays as it is. It fails only if there is
/// no memory, and `rolls` is then of no more use.
fn note(
    rolls: &mut Vec<RollType>,
    listed: &[&Listing],
    roll: RollType,
    part: Part,
    reference: &String,
) -> Result<(), AllocError>
    ensures { OnOk result (rolls.new.items ≡ rolls.old.items
        ++ roll_if_listed roll part (string_bytes reference.now) listed.now) }
{
    if is_listed(listed, roll, part, reference) {
        rolls.push(roll)?;
    }
    Ok(())
}

/// Whether one of the listings `listed` says that `roll` listed the key at `reference` as this
/// `part` (old if it goes out, new if it comes in).
fn is_listed(listed: &[&Listing], roll: RollType, part: Part, reference: &String) -> bool
    ensures { result ≡ list_any (lists roll part (string_bytes reference.now)) listed.now }
{
    listed.iter().any(|key| lists(key, roll, part, reference))
}

/// Whether the listing `listed` says that `roll` listed the key at `reference` as this `part` (old
/// if it goes out, new if it comes in).
fn lists(listed: &Listing, roll: RollType, part: Part, reference: &String) -> bool
    ensures { result ≡ has_listed roll part (string_bytes reference.now) (as_listed listed.now) }
{
    roll == listed.roll && same_part(part, listed.part) && *reference == listed.reference
}
