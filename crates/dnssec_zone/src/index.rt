//! What answers for the keys of a zone without a walk over them: the tags in use, and how many keys
//! a start could go on with. A set of tags or algorithms is an array of words, with a bit for each
//! number. Only the index of tags takes memory of the allocator, for its set.
ghost use Rattle.std.specs.Prelude.{◌≡◌, ◌<◌, ◌/◌, ℕ, length, nat_eq, false};
ghost use Rattle.std.specs.Prelude.{None, Some, is_none, if◌then◌else◌, IfOk, IsOkUnless};
ghost use Rattle.std.specs.Option.{option_map};
ghost use Rattle.dnssec_base.specs.declared.error.Error.TheVariants.{OutOfMemory};
ghost use Rattle.dnssec_zone.specs.Inner.{Bits.is_set, TagIndex.has};
ghost use Rattle.dnssec_zone.specs.Inner.Counts.{count_after, count_of, counts_after, no_counts};

use dnssec_key::{Error, KeyType, Want};
use std::alloc::Global;

/// A bit for each key tag.
pub(crate) type TagSet = [u64; 1024];

/// A bit for each algorithm.
pub type AlgorithmSet = [u64; 4];

/// Whether `number` is in the set of key tags or of algorithms that `words` are: each word has the
/// bits of 64 numbers. A number for which there is no word isn't in it.
pub(crate) fn is_set(words: &[u64], number: u16) -> bool
    ensures { result ≡ is_set words.now number }
{
    match words.get(usize::from(number / 64)) {
        None => false,
        Some(word) => (*word >> (number % 64)) & 1 == 1,
    }
}

/// Puts `number` into the set of key tags or of algorithms that `words` are, or takes it out if
/// `is_in` is `false`. Each word has the bits of 64 numbers, and there has to be one for `number`.
/// All other numbers stay in the set, or out of it.
pub(crate) fn set(words: &mut [u64], number: u16, is_in: bool)
    requires { number / 64 < length words.old }
    ensures len { length words.new ≡ length words.old }
    ensures put { (n : ℕ) → is_set words.new n
        ≡ (if nat_eq number n then is_in else is_set words.old n) }
{
    let at = usize::from(number / 64);
    let bit = 1u64 << (number % 64);
    words[at] = if is_in {
        words[at] | bit
    } else {
        words[at] & !bit
    };
}

/// An index of the key tags in use, a bit for each. As long as there were few keys there is none,
/// and the tag of each key is read.
#[derive(Drop)]
pub(crate) struct TagIndex {
    tags: Option<Box<TagSet>>,
}

impl TagIndex {
    /// No index of the key tags in use: there are so few keys that the tag of each can be read.
    pub(crate) fn none() -> TagIndex
        ensures { (t : ℕ) → has result t ≡ None }
    {
        TagIndex { tags: None }
    }

    /// An index in which no key tag is in use yet, in memory of `alloc`, or `OutOfMemory`.
    // Out of line, as `try_clone`, so that other calls need no stack for the bits.
    #[inline(never)]
    pub(crate) fn empty(alloc: Global) -> Result<TagIndex, Error>
        ensures empty { IfOk result (λ index. (t : ℕ) → has index t ≡ Some false) }
        ensures err { IsOkUnless result OutOfMemory }
    {
        boxed(alloc, [0; 1024])
    }

    /// A copy of the index in memory of `alloc`, or `OutOfMemory`. If there is no index, the copy
    /// has none either, and takes no memory.
    #[inline(never)]
    pub(crate) fn try_clone(&self, alloc: Global) -> Result<TagIndex, Error>
        ensures same { IfOk result (λ index. (t : ℕ) → has index t ≡ has self.now t) }
        ensures err { IsOkUnless result OutOfMemory }
    {
        match &self.tags {
            None => Ok(TagIndex::none()),
            Some(tags) => boxed(alloc, **tags),
        }
    }

    /// Whether there is no index of the key tags in use.
    pub(crate) fn is_none(&self) -> bool
        ensures { (t : ℕ) → result ≡ is_none (has self.now t) }
    {
        self.tags.is_none()
    }

    /// Whether a key has this key tag, as the index says. `None` if there is no index.
    pub(crate) fn has(&self, key_tag: u16) -> Option<bool>
        ensures { result ≡ has self.now key_tag }
    {
        match &self.tags {
            None => None,
            Some(tags) => Some(is_set(&**tags, key_tag)),
        }
    }

    /// Notes in the index that this key tag is in use from now on, or no longer if `in_use` is
    /// `false`. Nothing happens if there is no index.
    pub(crate) fn note(&mut self, key_tag: u16, in_use: bool)
        ensures { (t : ℕ) → has self.new t ≡ option_map
            (λ b. if nat_eq key_tag t then in_use else b) (has self.old t) }
    {
        match &mut self.tags {
            None => {}
            Some(tags) => set(&mut **tags, key_tag, in_use),
        }
    }
}

/// An index in which exactly these key tags are in use, in memory of `alloc`, or `OutOfMemory`.
fn boxed(alloc: Global, tags: TagSet) -> Result<TagIndex, Error>
    ensures ok { IfOk result (λ index. (t : ℕ) → has index t ≡ Some (is_set tags t)) }
    ensures err { IsOkUnless result OutOfMemory }
{
    let tags = Box::new(alloc, tags)?;
    Ok(TagIndex { tags: Some(tags) })
}

/// For each `Want` of a start, how many keys meet it by their flags: the role that it asks for
/// isn't old, and is in the DNSKEY set, or for `KskAtParent` has a DS at the parent. Keys that the
/// start is to list as old are counted too.
#[derive(Clone, Copy)]
pub(crate) struct Counts {
    present_ksk: usize,
    ksk_at_parent: usize,
    present_zsk: usize,
    present_ksk_role: usize,
    present_zsk_role: usize,
}

/// Whether a key comes into the counts, or goes out of them.
#[derive(Clone, Copy)]
pub(crate) enum Counting {
    OneMore,
    OneLess,
}

impl Counting {
    /// Adds one to `count`, the number of keys that a start could go on with, for a key that comes
    /// in, or takes one off for a key that goes out. `count` stays if the key isn't among them, as
    /// `serves` says.
    fn change(self, count: &mut usize, serves: bool)
        ensures { count.new ≡ count_after serves self count.old }
    {
        if serves {
            *count = match self {
                Counting::OneMore => count.saturating_add(1),
                Counting::OneLess => count.saturating_sub(1),
            };
        }
    }
}

impl Counts {
    /// The counts of no keys: zero for each `Want`.
    pub(crate) fn none() -> Counts
        ensures { result ≡ no_counts }
    {
        Counts {
            present_ksk: 0,
            ksk_at_parent: 0,
            present_zsk: 0,
            present_ksk_role: 0,
            present_zsk_role: 0,
        }
    }

    /// How many keys meet `want` by their flags: the role that it asks for isn't old, and is in the
    /// DNSKEY set, or for `KskAtParent` has a DS at the parent. Keys that a start lists as old are
    /// counted too.
    pub(crate) fn of(&self, want: Want) -> usize
        ensures { result ≡ count_of self.now want }
    {
        match want {
            Want::PresentKsk => self.present_ksk,
            Want::KskAtParent => self.ksk_at_parent,
            Want::PresentZsk => self.present_zsk,
            Want::PresentKskRole => self.present_ksk_role,
            Want::PresentZskRole => self.present_zsk_role,
        }
    }

    /// Brings the counts up to date when a key of this kind and state comes in or goes out, as
    /// `counting` says. The count of each `Want` that the key meets by its flags changes by one,
    /// and the other counts stay. Another signer's key is in no count.
    pub(crate) fn count(&mut self, keytype: &KeyType, counting: Counting)
        ensures { self.new ≡ counts_after counting keytype.now self.old }
    {
        match *keytype {
            KeyType::Ksk(ksk) => {
                let present = !ksk.old && ksk.present;
                let at_parent = !ksk.old && ksk.at_parent;
                counting.change(&mut self.present_ksk, present);
                counting.change(&mut self.present_ksk_role, present);
                counting.change(&mut self.ksk_at_parent, at_parent);
            }
            KeyType::Zsk(zsk) => {
                let present = !zsk.old && zsk.present;
                counting.change(&mut self.present_zsk, present);
                counting.change(&mut self.present_zsk_role, present);
            }
            KeyType::Csk(ksk, zsk) => {
                counting.change(&mut self.present_ksk_role, !ksk.old && ksk.present);
                counting.change(&mut self.present_zsk_role, !zsk.old && zsk.present);
            }
            KeyType::Include(_) => {}
        }
    }
}
