//! The four lists of what is published, and which of them have a key.
ghost use Rattle.std.specs.Prelude.{◌≡◌, ◌<◌, ◌++◌, ◌∷◌, ◌||◌, [], None, OnOk, Some, not};
ghost use Rattle.std.specs.Prelude.{if◌then◌else◌};
ghost use Rattle.std.specs.List.{list_any};
ghost use Rattle.dnssec_run.specs.Adds.{change_to};
ghost use Rattle.dnssec_run.specs.Changes.{moves, moves_in};
ghost use Rattle.dnssec_run.specs.Safe.{kind_of};
ghost use Rattle.dnssec_run.specs.Lists.{at_list, choose, either, lists_of};

use crate::caches::SetKind;
use dnssec_keyset::KeyType;
use std::alloc::AllocError;
use std::marker::Model;
use std::mem;

/// The four lists of what is published.
#[derive(Clone, Copy, Debug, PartialEq, Eq)]
pub enum Shown {
    Ds,
    Dnskey,
    DnskeySigners,
    ZoneSigners,
}

/// One yes or no for each of the four published lists.
#[derive(Clone, Copy, Debug, Drop, PartialEq, Eq)]
pub struct ByList {
    /// A bit for each list, in the order of `Shown`. A word, so that a `Change` has no padding.
    bits: u32,
}

impl Model for ByList {
    ghost use Rattle.std.proofs.Common.{◌<◌, ap};
    ghost use Rattle.dnssec_run.specs.ByList.{ByList, bits_of, bits_of-lists_in, lists_in};

    ghost Value = { ByList };

    ghost view = { λ l. lists_in l.bits };

    ghost inverse = { λ l. record { bits = bits_of l } };

    ghost invariant = { λ l. l.bits < 16 };

    ghost inverse_ok = { λ l below.
        ap (λ bits. record { bits = bits }) (bits_of-lists_in l.bits below) };
}

impl ByList {
    /// No list.
    pub const NONE: ByList = ByList { bits: 0 };

    /// The DS set alone.
    pub const DS: ByList = ByList { bits: 1 };

    /// The DNSKEY set alone, without those that sign it.
    pub const DNSKEY: ByList = ByList { bits: 2 };

    /// The keys that sign the DNSKEY set, alone.
    pub const DNSKEY_SIGNERS: ByList = ByList { bits: 4 };

    /// The keys that sign the zone, alone.
    pub const ZONE_SIGNERS: ByList = ByList { bits: 8 };

    /// All lists.
    pub const ALL: ByList = ByList { bits: 15 };

    /// The published lists that have a key of this kind, by the flags of its roles: a DS at the
    /// parent, present in the DNSKEY set, or a signer of the DNSKEY set or of the zone. Another
    /// signer's key is only in the DNSKEY set.
    #[inline(always)]
    pub(crate) fn showing(keytype: KeyType) -> ByList
        ensures { result ≡ lists_of keytype }
    {
        match keytype {
            KeyType::Ksk(state) => {
                ByList::by_flags(state.at_parent, state.present, state.signer, false)
            }
            KeyType::Zsk(state) => ByList::by_flags(false, state.present, false, state.signer),
            KeyType::Csk(ksk, zsk) => {
                ByList::by_flags(ksk.at_parent, ksk.present, ksk.signer, zsk.signer)
            }
            KeyType::Include(state) => ByList::by_flags(false, state.present, false, false),
        }
    }

    /// What these four say, in the order of `Shown`.
    #[inline(always)]
    pub fn by_flags(ds: bool, dnskey: bool, dnskey_signers: bool, zone_signers: bool) -> ByList
        ensures { result ≡ record {
          ds = ds;
          dnskey = dnskey;
          dnskey_signers = dnskey_signers;
          zone_signers = zone_signers;
        } }
    {
        let bits = ds as u32
            | (dnskey as u32) << 1
            | (dnskey_signers as u32) << 2
            | (zone_signers as u32) << 3;
        ByList { bits }
    }

    /// Yes of the lists that `self` or `other` says yes of.
    #[inline(always)]
    pub fn with(self, other: ByList) -> ByList
        ensures { result ≡ either self other }
    {
        ByList {
            bits: self.bits | other.bits,
        }
    }

    /// What `other` says of the lists in `at`, and `self` of all others.
    #[inline(always)]
    pub(crate) fn choose(self, at: ByList, other: ByList) -> ByList
        ensures { result ≡ choose at other self }
    {
        ByList {
            bits: self.bits ^ ((self.bits ^ other.bits) & at.bits),
        }
    }

    /// What is said of this list.
    #[inline(always)]
    pub fn of(self, list: Shown) -> bool
        ensures { result ≡ at_list self list }
    {
        let bit = match list {
            Shown::Ds => 1,
            Shown::Dnskey => 2,
            Shown::DnskeySigners => 4,
            Shown::ZoneSigners => 8,
        };
        self.bits & bit != 0
    }
}

/// A key that has come into published lists, or has left some.
#[derive(Clone, Copy, Debug, Drop, PartialEq, Eq)]
pub struct Change {
    /// The position of its add, counted from 1.
    pub added: usize,
    /// Which lists had it before.
    pub was: ByList,
    /// Which lists have it now.
    pub shown: ByList,
}

impl Change {
    /// Whether this key comes into the list. `None` if it neither comes into it nor leaves it.
    #[inline(always)]
    pub fn moves(&self, list: Shown) -> Option<bool>
        ensures { result
            ≡ (if moves list self.now then Some (at_list self.now.shown list) else None) }
    {
        let is = self.shown.of(list);
        if self.was.of(list) == is {
            return None;
        }
        Some(is)
    }
}

/// Whether a key comes into the set of this kind, or leaves it.
#[inline(always)]
pub fn is_other(changes: &[Change], kind: SetKind) -> bool
    ensures { result ≡ list_any (moves_in (kind_of kind)) changes.now }
{
    for change in changes {
        let moves = match kind {
            SetKind::Ds => change.moves(Shown::Ds).is_some(),
            SetKind::Dnskey => {
                change.moves(Shown::Dnskey).is_some()
                    || change.moves(Shown::DnskeySigners).is_some()
            }
            SetKind::ZoneSigners => change.moves(Shown::ZoneSigners).is_some(),
        };
        if moves {
            return true;
        }
    }
    false
}

/// Appends `change` to `changes`. It fails only if there is no memory, and changes nothing then.
// Inline, so that it makes no call while there is room.
#[inline(always)]
pub(crate) fn note_change(changes: &mut Vec<Change>, change: Change) -> Result<(), AllocError>
    ensures { OnOk result (changes.new.items ≡ changes.old.items ++ change ∷ []) }
{
    if changes.len() == changes.capacity() {
        changes.reserve(1)?;
    }
    changes.push_reserved(change);
    Ok(())
}

/// When a key was added, and which lists have it.
#[derive(Clone, Copy, Debug, Drop, PartialEq, Eq)]
pub(crate) struct KeyListing {
    /// The position of its add, counted from 1.
    pub(crate) added: usize,
    pub(crate) shown: ByList,
}

impl KeyListing {
    /// Notes that the lists in `shown` have the key, and no other list. Answers what this changes,
    /// or `None` if it changes nothing.
    #[inline(always)]
    pub(crate) fn show(&mut self, shown: ByList) -> Option<Change>
        ensures now { self.new ≡ record { added = self.old.added; shown = shown } }
        ensures change { result ≡ change_to shown self.old }
    {
        let was = mem::replace(&mut self.shown, shown);
        if was == shown {
            return None;
        }
        let added = self.added;
        Some(Change { added, was, shown })
    }
}

/// A key with what is known of it.
#[derive(Debug, Drop)]
pub(crate) struct Known {
    pub(crate) listing: KeyListing,
    pub(crate) reference: String,
}
