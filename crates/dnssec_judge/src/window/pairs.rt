//! Any two sets of the windows are tested once: each new set with all sets of the other kind.
ghost use Rattle.std.specs.Prelude.{◌≡◌, ◌≤◌, ℕ, true};
ghost use Rattle.dnssec_judge.specs.Sets.{holds, meets, Numbered};
ghost use Rattle.dnssec_judge.specs.Inner.Spans.{PairsTested, Tiles, new_hold, pairs_hold};
ghost use Rattle.dnssec_judge.specs.Inner.Window.{spans_of};

use super::Window;
use crate::sets::OpenSet;

/// Two kinds of sets that are neighbours in a chain.
#[derive(Clone, Copy, Debug)]
pub(crate) enum Link {
    /// A DS set names a key of a DNSKEY set.
    Named,
    /// A key of a DNSKEY set signs the zone.
    Signed,
}

impl Link {
    /// Whether each set of the window `above` fits each of the window `below` in a chain of trust.
    /// For `Named` these are DS sets and DNSKEY sets, for `Signed` DNSKEY sets and zone signers. It
    /// tests only pairs in which a set came at position `tested` or later: the caller knows that
    /// all others fit.
    // Inline, so that each of its two calls has a link that is known.
    #[inline(always)]
    pub(crate) fn new_sets_hold(self, above: &Window, below: &Window, tested: usize) -> bool
        ensures { (at to : ℕ → Numbered) (n : ℕ) → Tiles at n (spans_of above.now) →
            Tiles to n (spans_of below.now) → PairsTested tested (holds self true)
            (spans_of above.now) (spans_of below.now) →
            result ≡ pairs_hold (holds self true) (spans_of above.now)
            (spans_of below.now) }
    {
        below.hold_with_new(self, true, above, tested)
            && above.hold_with_new(self, false, below, tested)
    }

    /// Whether `one` and `other` fit in a chain of trust, by this link. If `is_above`, `one` is of
    /// the kind above (the DS set of `Named`, the DNSKEY set of `Signed`). Otherwise `other` is.
    #[inline(always)]
    pub(super) fn holds(self, is_above: bool, one: &OpenSet, other: &OpenSet) -> bool
        ensures { result ≡ holds self is_above one.now other.now }
    {
        match (self, is_above) {
            (Link::Named, true) => one.holds_with_keys(other),
            (Link::Named, false) => other.holds_with_keys(one),
            (Link::Signed, true) => one.holds_with_signers(other),
            (Link::Signed, false) => other.holds_with_signers(one),
        }
    }

    /// As `holds`, but only by a key of both sets, so that an empty DS set fits none.
    #[inline(always)]
    pub(super) fn meet(self, is_above: bool, one: &OpenSet, other: &OpenSet) -> bool
        ensures { result ≡ meets self is_above one.now other.now }
    {
        match (self, is_above) {
            (Link::Named, true) => one.names_key_of(other),
            (Link::Named, false) => other.names_key_of(one),
            (Link::Signed, true) => one.holds_with_signers(other),
            (Link::Signed, false) => other.holds_with_signers(one),
        }
    }
}

impl Window {
    /// Whether each set of this window fits, by `link`, each set of the window `other` that came at
    /// position `tested` or later. `is_above` says that `other` has the kind above (the DS sets of
    /// `Named`, the DNSKEY sets of `Signed`). Otherwise this window has it.
    #[inline(always)]
    fn hold_with_new(&self, link: Link, is_above: bool, other: &Window, tested: usize) -> bool
        ensures { (at : ℕ → Numbered) (n : ℕ) → Tiles at n (spans_of other.now) →
            result ≡ new_hold tested (holds link is_above) (spans_of other.now)
            (spans_of self.now) }
    {
        if other.spans.newest < tested {
            return true;
        }
        let mut place = other.spans.list.len();
        while let Some(before) = place.checked_sub(1) {
            let span = &other.spans.list[before];
            if span.from < tested {
                return true;
            }
            if !self.spans.all_hold(link, is_above, &span.set) {
                return false;
            }
            place = before;
        }
        true
    }
}
