//! The keys of a run as small numbers, by the positions of their adds.
ghost use Rattle.std.specs.Prelude.{◌≡◌, ◌≤◌, ◌<◌, ◌↔◌, ℕ, true, false, None, Some, IfOk};
ghost use Rattle.std.specs.Prelude.{IfSome, OnOk};
ghost use Rattle.dnssec_judge.specs.Adds.{AreNumbered, Extends, Grows, IsTable, add_at};

use dnssec_run::Change;
use std::alloc::{AllocError, Global};
use std::collections::BTreeMap;

/// A table has room for this many keys before numbers are given back. So few are looked at in turn.
const FEW: usize = 8;

/// A key of a run has the number of the place at which the position of its add stands here. Numbers
/// of keys that have left are given to other keys, the least first.
///
/// When its room is used up, the next call first gives back the numbers of keys that are in no set
/// any more. The room is then for 8 keys, for twice as many as are in sets, or up to the last of
/// those, whichever is most. So it follows what is in sets, not how many keys there were.
#[derive(Debug, Drop)]
pub(crate) struct Table {
    /// By number, the position of the add, or 0 if the number is free.
    adds: Vec<usize>,
    /// By the position of its add, the number of a key from `FEW` on. Lesser ones are looked at.
    by_added: BTreeMap<usize, usize>,
    /// Each number below this one is some key's.
    least: usize,
    /// So many more numbers may be given before it is time to give some back.
    pub(crate) left: usize,
    /// The number that was asked for last: it is looked at first.
    latest: usize,
}

impl Table {
    /// A table in which no key has a number yet. It takes its memory from `alloc` as it grows.
    pub(crate) fn new(alloc: Global) -> Self
        ensures table { IsTable result }
        ensures none { (n : ℕ) → add_at result n ≡ 0 }
    {
        Table {
            adds: Vec::new(alloc),
            by_added: BTreeMap::new(alloc),
            least: 0,
            left: FEW,
            latest: 0,
        }
    }

    /// A copy of the table, in which each key has the same number. It fails only if there is no
    /// memory.
    pub(crate) fn try_clone(&self) -> Result<Self, AllocError>
        ensures same { IfOk result (λ copy. (n : ℕ) → add_at copy n ≡ add_at self.now n) }
        ensures table { IfOk result (λ copy. IsTable self.now ↔ IsTable copy) }
    {
        Ok(Table {
            adds: self.adds.clone()?,
            by_added: self.by_added.clone()?,
            least: self.least,
            left: self.left,
            latest: self.latest,
        })
    }

    /// Gives each key of the `changes` a number, if it has none. Other keys keep theirs. It fails
    /// if there is no memory, or if a key says that it was added at position 0, where no call
    /// stands. The table is then of no more use.
    #[inline(always)]
    pub(crate) fn give_all(&mut self, changes: &[Change]) -> Result<(), AllocError>
        ensures { OnOk result (IsTable self.old → IsTable self.new × Grows self.old self.new
            × AreNumbered self.new changes.now) }
    {
        for change in changes {
            if change.added == 0 {
                return Err(AllocError);
            }
            self.latest = match self.find(change.added) {
                Some(number) => number,
                None => self.give(change.added)?,
            };
        }
        Ok(())
    }

    /// The number of the key that was added at this position, which isn't 0. `None` if it has none.
    #[inline(always)]
    pub(crate) fn find(&self, added: usize) -> Option<usize>
        ensures some { IfSome result (λ n. add_at self.now n ≡ added) }
        ensures none { result ≡ None → IsTable self.now → (n : ℕ) →
            add_at self.now n ≡ added → 0 < added → ⊥ }
    {
        match self.adds.get(self.latest) {
            Some(other) if *other == added => Some(self.latest),
            _ => self.search(added),
        }
    }

    /// The same as `find`, without a look at the number that was asked for last.
    fn search(&self, added: usize) -> Option<usize>
        ensures some { IfSome result (λ n. add_at self.now n ≡ added) }
        ensures none { result ≡ None → IsTable self.now → (n : ℕ) →
            add_at self.now n ≡ added → 0 < added → ⊥ }
    {
        for number in 0..self.adds.len().min(FEW) {
            if self.adds[number] == added {
                return Some(number);
            }
        }
        let number = self.by_added.get(&added).copied()?;
        match self.adds.get(number) {
            Some(other) if *other == added => Some(number),
            _ => None,
        }
    }

    /// Gives the key that was added at this position a number. All others keep theirs. After an
    /// error the table is of no more use.
    #[inline(never)]
    fn give(&mut self, added: usize) -> Result<usize, AllocError>
        ensures ok { IfOk result (λ number. add_at self.new number ≡ added) }
        ensures extends { OnOk result (((n : ℕ) → add_at self.old n ≡ added → ⊥) → 0 < added →
            Extends self.old self.new) }
    {
        let number = self.place(added)?;
        if number >= FEW {
            self.by_added.insert(added, number)?;
        }
        self.left = self.left.saturating_sub(1);
        Ok(number)
    }

    /// Writes `added` at the least place that is free, or at the end. Free places are then sought
    /// after it. If there is no memory, it fails and changes nothing.
    fn place(&mut self, added: usize) -> Result<usize, AllocError>
        ensures ok { IfOk result (λ number. add_at self.new number ≡ added) }
        ensures free { IfOk result (λ number. add_at self.old number ≡ 0) }
        ensures others { IfOk result (λ number. (n : ℕ) → (n ≡ number → ⊥) →
            add_at self.new n ≡ add_at self.old n) }
        ensures kept { OnOk result (self.new.by_added ≡ self.old.by_added) }
    {
        let mut number = self.adds.len();
        for free in self.least..self.adds.len() {
            if self.adds[free] == 0 {
                number = free;
                break;
            }
        }
        if number < self.adds.len() {
            self.adds[number] = added;
        } else {
            self.adds.push(added)?;
        }
        self.least = number.saturating_add(1);
        Ok(number)
    }

    /// A bound of the numbers: no key has this one or a greater one.
    pub(crate) fn end(&self) -> usize
        ensures { (n : ℕ) → result ≤ n → add_at self.now n ≡ 0 }
    {
        self.adds.len()
    }

    /// Frees `number`, so that its key has none any more. Other keys keep theirs. The caller then
    /// has to call `renew`, which brings the rest of the table up to date.
    pub(crate) fn give_back(&mut self, number: usize)
        ensures others { (n : ℕ) → (n ≡ number → ⊥) → add_at self.new n ≡ add_at self.old n }
        ensures none { add_at self.new number ≡ 0 }
        ensures table { IsTable self.old → IsTable self.new }
    {
        if number < self.adds.len() {
            self.adds[number] = 0;
        }
    }

    /// Brings `by_added`, `least` and `left` up to date after `give_back`. Each key keeps its
    /// number. After an error the table is of no more use.
    pub(crate) fn renew(&mut self, alloc: Global) -> Result<(), AllocError>
        ensures same { OnOk result ((n : ℕ) → add_at self.new n ≡ add_at self.old n) }
        ensures table { OnOk result (IsTable self.old → IsTable self.new) }
    {
        let mut by_added = BTreeMap::new(alloc);
        let mut in_use = 0usize;
        let mut end = 0;
        for (number, added) in self.adds.iter().enumerate() {
            if *added == 0 {
                continue;
            }
            if number >= FEW {
                by_added.insert(*added, number)?;
            }
            in_use = in_use.saturating_add(1);
            end = number + 1;
        }
        // All are free from here on.
        self.adds.truncate(end);
        let room = FEW.max(end).max(in_use.saturating_mul(2));
        // A list of its own, so that a lack of memory is an error, and no room to spare is left.
        let mut adds = Vec::with_capacity(alloc, room)?;
        adds.extend_from_slice(&self.adds)?;
        self.adds = adds;
        self.by_added = by_added;
        self.least = 0;
        self.left = room.saturating_sub(in_use);
        Ok(())
    }
}
