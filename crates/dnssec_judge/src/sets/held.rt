//! A set that caches may hold, by bits of the numbers of its keys.
ghost use Rattle.std.specs.Prelude.{◌≡◌, ◌&&◌, ◌||◌, ◌∷◌, ℕ, List, [], false, true, nat_eq};
ghost use Rattle.std.specs.Prelude.{◌≤◌, ◌<◌, ◌/◌, if◌then◌else◌};
ghost use Rattle.std.specs.{Prelude.IfOk, Prelude.OnOk};
ghost use Rattle.dnssec_judge.specs.Bits.{HasSome, all_at, has, has_bit, has_none, meet_three};
ghost use Rattle.dnssec_judge.specs.Bits.{drafted, in_word, rest_of, word_at, words_of};
ghost use Rattle.dnssec_judge.specs.Inner.Spans.{IsWithin};
ghost use Rattle.dnssec_judge.specs.Sets.{keys_hold, sets_have_chain, zone_holds};

use std::alloc::{AllocError, Global};
use std::marker::Model;
use std::sync::ArcSlice;

/// How many numbers have their bits in one word.
pub(crate) const WORD: usize = 64;

/// Whether `number` is in this `word`, which has a bit for it.
#[inline(always)]
pub(crate) fn is_in_word(word: u64, number: usize) -> bool
    ensures { result ≡ in_word word number }
{
    (word >> (number % WORD)) & 1 == 1
}

/// A set of small numbers, as a bit for each. Numbers below 64 take no memory of the allocator, and
/// a copy shares the words of the others.
#[derive(Debug, Drop)]
pub(crate) struct Bits {
    /// The numbers below 64.
    pub(crate) first: u64,
    /// The others, in words of 64 numbers. None if no such number was ever in the set.
    pub(crate) rest: Option<ArcSlice<u64>>,
}

impl Clone for Bits {
    ghost is_clone = { λ bits copy. words_of copy ≡ words_of bits };

    /// A copy of the set, which shares its words. It fails only if they are shared too often.
    #[inline(always)]
    fn clone(&self) -> Result<Self, AllocError> {
        let rest = match &self.rest {
            Some(rest) => Some(rest.clone()?),
            None => None,
        };
        Ok(Bits {
            first: self.first,
            rest,
        })
    }
}

impl Bits {
    /// The empty set.
    pub(crate) const NONE: Bits = Bits {
        first: 0,
        rest: None,
    };

    /// The numbers that are in this set and in `other`. It fails only if there is no memory.
    #[inline(always)]
    pub(crate) fn common(&self, alloc: Global, other: &Bits) -> Result<Self, AllocError>
        ensures { IfOk result (λ bits. (n : ℕ) →
            has bits n ≡ (has self.now n && has other.now n)) }
    {
        let first = self.first & other.first;
        if self.rest.is_none() {
            return Ok(Bits { first, rest: None });
        }
        let mut rest = Vec::new(alloc);
        for (index, word) in self.rest().iter().enumerate() {
            rest.push(*word & other.rest().get(index).copied().unwrap_or(0))?;
        }
        let rest = Some(ArcSlice::from_vec(rest)?);
        Ok(Bits { first, rest })
    }

    /// Whether it is seen at once that each of these numbers is in `other` too: all are below 64.
    #[inline(always)]
    pub(crate) fn is_within(&self, other: &Bits) -> bool
        ensures { result ≡ true → (n : ℕ) → has self.now n ≡ true → has other.now n ≡ true }
    {
        self.rest.is_none() && self.first & other.first == self.first
    }

    /// Whether it is seen at once that `other` has the same numbers: all are below 64.
    #[inline(always)]
    fn is_same(&self, other: &Bits) -> bool
        ensures { result ≡ true → words_of self.now ≡ words_of other.now }
    {
        self.rest.is_none() && other.rest.is_none() && self.first == other.first
    }

    /// The words of the numbers from 64 on.
    #[inline(always)]
    fn rest(&self) -> &[u64]
        ensures { result.now ≡ rest_of self.now.rest }
    {
        match &self.rest {
            Some(rest) => rest.as_slice(),
            None => &[],
        }
    }

    /// A copy of these words, with room for the one of this index. It fails only if there is no
    /// memory.
    fn rest_for(&self, alloc: Global, index: usize) -> Result<Vec<u64>, AllocError>
        ensures { IfOk result (λ words. words.items ≡ rest_of self.now.rest) }
    {
        let len = self.rest().len().max(index.saturating_add(1));
        let mut rest = Vec::with_capacity(alloc, len)?;
        rest.extend_from_slice(self.rest())?;
        Ok(rest)
    }

    /// The word of this index: a bit for each number from 64 times the index on. It is 0 past the
    /// end.
    pub(crate) fn word(&self, index: usize) -> u64
        ensures { result ≡ word_at (words_of self.now) index }
    {
        match index.checked_sub(1) {
            None => self.first,
            Some(index) => self.rest().get(index).copied().unwrap_or(0),
        }
    }

    /// Whether some number is in this set, in `one` and in `other`.
    #[inline(always)]
    pub(crate) fn meets_both(&self, one: &Bits, other: &Bits) -> bool
        ensures { result ≡ meet_three (words_of self.now) (words_of one.now) (words_of other.now) }
    {
        if self.first & one.first & other.first != 0 {
            return true;
        }
        do_all_meet(self.rest(), one.rest(), other.rest())
    }
}

/// The first word of a set with this `number`, which is below 64, if `is_in`, or else without it.
#[inline(always)]
pub(crate) fn put(first: u64, number: usize, is_in: bool) -> u64
    requires { number < 64 }
    ensures { (n : ℕ) (rest : List ℕ) → has_bit (result ∷ rest) n
        ≡ (if nat_eq number n then is_in else has_bit (first ∷ rest) n) }
{
    let bit = 1u64 << number;
    if is_in { first | bit } else { first & !bit }
}

/// A set while it is written over another one, its base: numbers are put in or taken out.
#[derive(Debug, Drop)]
pub(crate) struct BitsDraft {
    pub(crate) first: u64,
    /// The words from 64 on. None as long as they are those of the base.
    pub(crate) rest: Option<Vec<u64>>,
}

impl BitsDraft {
    /// Puts `number`, which is from 64 on, into the set if `is_in`, or else takes it out. The words
    /// from 64 on are then the draft's own. It fails only if there is no memory.
    #[inline(never)]
    pub(crate) fn put_far(
        &mut self,
        alloc: Global,
        number: usize,
        is_in: bool,
        base: &Bits,
    ) -> Result<(), AllocError>
        requires { 64 ≤ number }
        ensures { OnOk result ((n : ℕ) → has_bit (drafted base.now self.new) n
            ≡ (if nat_eq number n then is_in else has_bit (drafted base.now self.old) n)) }
    {
        let index = number / WORD - 1;
        let mut rest = match self.rest.take() {
            Some(rest) => rest,
            None => base.rest_for(alloc, index)?,
        };
        let len = rest.len().max(index + 1);
        rest.resize(len, 0)?;
        let bit = 1u64 << (number % WORD);
        let old = rest[index];
        let word = if is_in { old | bit } else { old & !bit };
        rest[index] = word;
        self.rest = Some(rest);
        Ok(())
    }

    /// The set that was written over `base`. If words were written, and they are those of `older`
    /// again, it shares these, so that a key which leaves a set and comes back takes no more
    /// memory. It fails only if there is no memory.
    #[inline(always)]
    pub(crate) fn end(self, base: &Bits, older: &Bits) -> Result<Bits, AllocError>
        ensures { IfOk result (λ bits. words_of bits ≡ drafted base.now self) }
    {
        let first = self.first;
        let words = match self.rest {
            Some(words) => Some(ArcSlice::from_vec(words)?),
            None => None,
        };
        if words.is_some() && words != older.rest {
            return Ok(Bits { first, rest: words });
        }
        let like = if words.is_some() { older } else { base };
        let rest = match &like.rest {
            Some(words) => Some(words.clone()?),
            None => None,
        };
        Ok(Bits { first, rest })
    }
}

/// A set that caches may hold, by the numbers of its keys.
#[derive(Debug, Drop)]
pub(crate) struct OpenSet {
    pub(crate) keys: Bits,
    /// The keys that sign it, if it is a DNSKEY set.
    pub(crate) signers: Bits,
}

impl Model for OpenSet {
    ghost use Rattle.dnssec_judge.specs.Sets.{Numbered, set_of};

    ghost Value = { Numbered };

    ghost view = { set_of };
}

impl Clone for OpenSet {
    ghost is_clone = { λ set copy. copy ≡ set };

    /// A copy of the set, which shares its words. It fails only if they are shared too often.
    #[inline(always)]
    fn clone(&self) -> Result<Self, AllocError> {
        Ok(OpenSet {
            keys: self.keys.clone()?,
            signers: self.signers.clone()?,
        })
    }
}

impl OpenSet {
    /// The set without keys and signers.
    pub(crate) fn none() -> Self
        ensures { result ≡ (0 ∷ [], 0 ∷ []) }
    {
        OpenSet {
            keys: Bits::NONE,
            signers: Bits::NONE,
        }
    }

    /// The keys, and the signers, that this set and `other` have. It fails only if there is no
    /// memory.
    #[inline(always)]
    pub(crate) fn common(&self, alloc: Global, other: &OpenSet) -> Result<Self, AllocError>
        ensures keys { IfOk result (λ common. (n : ℕ) →
            has_bit common.0 n ≡ (has_bit self.now.0 n && has_bit other.now.0 n)) }
        ensures signers { IfOk result (λ common. (n : ℕ) →
            has_bit common.1 n ≡ (has_bit self.now.1 n && has_bit other.now.1 n)) }
    {
        Ok(OpenSet {
            keys: self.keys.common(alloc, &other.keys)?,
            signers: self.signers.common(alloc, &other.signers)?,
        })
    }

    /// Whether it is seen at once that `other` has each key and each signer of this set.
    #[inline(always)]
    pub(crate) fn is_within(&self, other: &OpenSet) -> bool
        ensures { result ≡ true → IsWithin self.now other.now }
    {
        self.keys.is_within(&other.keys) && self.signers.is_within(&other.signers)
    }

    /// Whether it is seen at once that `other` has the same keys and the same signers.
    #[inline(always)]
    pub(crate) fn is_same(&self, other: &OpenSet) -> bool
        ensures { result ≡ true → self.now ≡ other.now }
    {
        self.keys.is_same(&other.keys) && self.signers.is_same(&other.signers)
    }

    /// The word of this index, with a bit for each key that is in the set, or signs it.
    #[tactic(auto, using(crate::proofs::Words::in_either))]
    pub(crate) fn word(&self, index: usize) -> u64
        ensures { (n : ℕ) → n / 64 ≡ index →
            in_word result n ≡ (has_bit self.now.0 n || has_bit self.now.1 n) }
    {
        self.keys.word(index) | self.signers.word(index)
    }

    /// Whether the set has no key.
    #[inline(always)]
    pub(crate) fn has_no_keys(&self) -> bool
        ensures { result ≡ has_none self.now.0 }
    {
        // A set that has a number shares it with itself.
        match self.keys.rest {
            None => self.keys.first == 0,
            Some(_) => !self.keys.meets_both(&self.keys, &self.keys),
        }
    }

    /// Asked of a DS set: whether one of its keys is in the DNSKEY set `dnskey` and also signs it.
    #[inline(always)]
    pub(crate) fn names_key_of(&self, dnskey: &OpenSet) -> bool
        ensures { result ≡ meet_three self.now.0 dnskey.now.0 dnskey.now.1 }
    {
        self.keys.meets_both(&dnskey.keys, &dnskey.signers)
    }

    /// Asked of a DS set: whether it fits the DNSKEY set `dnskey` in a chain of trust. It has no
    /// key, or one of its keys is in `dnskey` and also signs that set.
    #[inline(always)]
    pub(crate) fn holds_with_keys(&self, dnskey: &OpenSet) -> bool
        ensures { result ≡ keys_hold self.now dnskey.now }
    {
        self.has_no_keys() || self.names_key_of(dnskey)
    }

    /// Asked of a DNSKEY set: whether it fits the zone signers `zone` in a chain of trust. One of
    /// its keys then signs the zone.
    #[inline(always)]
    pub(crate) fn holds_with_signers(&self, zone: &OpenSet) -> bool
        ensures { result ≡ zone_holds self.now zone.now }
    {
        // The zone's keys stand for both.
        self.keys.meets_both(&zone.keys, &zone.keys)
    }

    /// Asked of a DS set: whether it has a chain of trust with the DNSKEY set `dnskey` and the zone
    /// signers `zone`. An empty DS set has one with all.
    pub(crate) fn has_chain(&self, dnskey: &OpenSet, zone: &OpenSet) -> bool
        ensures { result ≡ sets_have_chain self.now dnskey.now zone.now }
    {
        self.has_no_keys() || (self.names_key_of(dnskey) && dnskey.holds_with_signers(zone))
    }
}

/// Whether some bit is set in all three lists of words, at the same index. Past the end of a list
/// its words count as 0.
fn do_all_meet(words: &[u64], ones: &[u64], others: &[u64]) -> bool
    ensures yes { result ≡ true → (i : ℕ) × HasSome (all_at words.now ones.now others.now i) }
    ensures no { result ≡ false → (i : ℕ) → all_at words.now ones.now others.now i ≡ 0 }
{
    for (index, word) in words.iter().enumerate() {
        let one = ones.get(index).copied().unwrap_or(0);
        let other = others.get(index).copied().unwrap_or(0);
        if *word & one & other != 0 {
            return true;
        }
    }
    false
}
