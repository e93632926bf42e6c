//! The sets that caches may hold, by the positions that publish them, and what all of them have.
ghost use Rattle.std.specs.Prelude.{◌≡◌, ◌<◌, ◌∷◌, [], IfOk, OnOk, length, drop};
ghost use Rattle.std.specs.Prelude.{◌≤◌, ◌/◌, ℕ, false, true};
ghost use Rattle.std.specs.{List.All, Option.ForSome};
ghost use Rattle.dnssec_judge.specs.declared.window.spans.TheConstants.{FEW};
ghost use Rattle.dnssec_judge.specs.{Bits.in_word, Sets.holds};
ghost use Rattle.dnssec_judge.specs.Inner.Spans.{IsWithin, all_in, came, first_span, in_spans};
ghost use Rattle.dnssec_judge.specs.Inner.Spans.{trimmed};

use super::Link;
use crate::sets::OpenSet;
use std::alloc::{AllocError, Global};
use std::collections::VecDeque;

/// So many sets are tested one by one: nothing is known of what they have in common. Their list
/// has no room to spare.
pub(super) const FEW: usize = 4;

/// From a position on a set was published. The span ends where the next one begins.
#[derive(Debug, Drop)]
pub(crate) struct Span {
    pub(super) from: usize,
    pub(super) set: OpenSet,
}

impl Clone for Span {
    ghost is_clone = { λ span copy. copy ≡ span };

    /// A copy of the span. It fails only if there is no memory.
    fn clone(&self) -> Result<Self, AllocError> {
        Ok(Span {
            from: self.from,
            set: self.set.clone()?,
        })
    }
}

/// The sets that caches may hold, by their spans, in the order of the positions.
#[derive(Debug, Drop)]
pub(crate) struct Spans {
    pub(super) list: VecDeque<Span>,
    /// The position at which the last span begins: since then the set that is published last is
    /// published without a break.
    pub(crate) newest: usize,
    /// Keys and signers that are in each set, as a set, once there are more than a few. What fits
    /// it by a key fits all sets. So most sets are tested once, and not with each of many others.
    /// It has memory of its own, since most windows never have so many sets.
    pub(super) common: Option<Box<OpenSet>>,
    ghost newest_is: { newest ≡ came list.items },
    ghost many: { ForSome common (λ b. FEW ≤ length list.items) },
    ghost in_each: { ForSome common (λ b. All (λ span. IsWithin b.value span.set) list.items) },
}

impl Spans {
    /// The spans before the first call: one, of the empty set. It fails only if there is no memory.
    pub(super) fn new(alloc: Global) -> Result<Self, AllocError>
        ensures { IfOk result (λ spans. spans.list.items ≡ first_span ∷ []) }
    {
        let mut list = VecDeque::with_capacity(alloc, 1)?;
        let set = OpenSet::none();
        list.push_back(Span { from: 0, set })?;
        Ok(Spans {
            list,
            newest: 0,
            common: None,
        })
    }

    /// A copy of the spans. It fails only if there is no memory.
    pub(super) fn try_clone(&self) -> Result<Self, AllocError>
        ensures { IfOk result (λ spans. spans.list.items ≡ self.now.list.items) }
    {
        let list = self.list.clone()?;
        let common = match &self.common {
            Some(common) => Some(common.clone()?),
            None => None,
        };
        Ok(Spans {
            list,
            newest: self.newest,
            common,
        })
    }

    /// Gives the memory back that the list has to spare.
    pub(super) fn fit(&mut self)
        ensures { self.new.list.items ≡ self.old.list.items }
    {
        self.list.shrink_to_fit();
    }

    /// A bit for each number from 64 times `index` on whose key is in a set, or signs one.
    #[tactic(auto, using(crate::proofs::Words::in_either))]
    pub(crate) fn word(&self, index: usize) -> u64
        ensures { (n : ℕ) → n / 64 ≡ index → in_word result n ≡ in_spans self.now.list.items n }
    {
        let mut word = 0;
        for place in 0..self.list.len() {
            word |= self.list[place].set.word(index);
        }
        word
    }

    /// Drops the spans whose positions all lie below `floor`: caches hold their sets no more. The
    /// last span stays, since it has no end yet. After an error the spans are of no more use.
    #[tactic(auto, using(crate::proofs::OneByOne::Windows::came_rest))]
    #[inline(never)]
    pub(super) fn trim(&mut self, alloc: Global, floor: usize) -> Result<(), AllocError>
        ensures { OnOk result (self.new.list.items ≡ trimmed floor self.old.list.items) }
    {
        if !self.has_past(floor) {
            return Ok(());
        }
        self.common = None;
        while self.has_past(floor) {
            self.list.pop_front();
        }
        if self.list.len() > FEW {
            let common = self.common_with(alloc, &self.list[0].set)?;
            self.common = Some(Box::new(alloc, common)?);
        }
        Ok(())
    }

    /// Whether the first span ends at position `floor` or below it.
    #[tactic(auto, using(crate::proofs::OneByOne::Windows::trimmed_short))]
    #[inline(always)]
    fn has_past(&self, floor: usize) -> bool
        ensures yes { result ≡ true → (1 < length self.now.list.items)
            × (trimmed floor self.now.list.items ≡ trimmed floor (drop 1 self.now.list.items)) }
        ensures no { result ≡ false → trimmed floor self.now.list.items ≡ self.now.list.items }
    {
        match self.list.get(1) {
            Some(next) => next.from <= floor,
            None => false,
        }
    }

    /// The keys and signers that each set has, and `set` too, as a set: by `common`, or else by a
    /// look at all. It fails only if there is no memory.
    #[inline(never)]
    pub(super) fn common_with(&self, alloc: Global, set: &OpenSet) -> Result<OpenSet, AllocError>
        ensures each { IfOk result (λ common. All (λ span. IsWithin common span.set)
            self.now.list.items) }
        ensures set { IfOk result (λ common. IsWithin common set.now) }
    {
        if let Some(common) = &self.common {
            let common = common.common(alloc, set)?;
            return Ok(common);
        }
        let mut common = set.clone()?;
        for place in 0..self.list.len() {
            common = common.common(alloc, &self.list[place].set)?;
        }
        Ok(common)
    }

    /// Whether `set` fits each set of these spans in a chain of trust, by `link`. `is_above` says
    /// that `set` is of the kind above (the DS set of `Named`, the DNSKEY set of `Signed`), and the
    /// spans of the one below. Otherwise it is the other way round.
    #[inline(always)]
    #[tactic(auto, using(crate::proofs::OneByOne::Windows::all_held))]
    pub(super) fn all_hold(&self, link: Link, is_above: bool, set: &OpenSet) -> bool
        ensures { result ≡ all_in self.now.list.items (holds link is_above set.now) }
    {
        if let Some(common) = &self.common {
            if link.meet(is_above, set, &**common) {
                return true;
            }
        }
        // By place, since an iterator's `all` would be a call.
        for place in 0..self.list.len() {
            if !link.holds(is_above, set, &self.list[place].set) {
                return false;
            }
        }
        true
    }
}
