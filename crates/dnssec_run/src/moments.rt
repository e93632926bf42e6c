//! How late it was at each call, by the moments that calls are given.
ghost use Rattle.std.specs.Prelude.{◌≡◌, ◌∷◌, ◌++◌, List, [], IfOk, IfErr, OnOk};
ghost use Rattle.dnssec_run.specs.Moments.{latest_of, moment_of_call, moments_of};
ghost use Rattle.dnssec_run.specs.declared.record.Entry.{Entry};

use crate::record::Entry;
use dnssec_keyset::UnixTime;
use std::alloc::{AllocError, Global};
use std::marker::Model;
use std::time::Duration;

/// The moments of up to this many calls stand in a list without room to spare.
const FEW: usize = 4;

/// The greatest moment of the calls up to each one: no earlier than that was it when the call was
/// made. It takes 16 bytes for each call.
///
/// ```rust
/// let mut moments = Moments::new(alloc);
/// let outcome = recorder.advance(alloc, call)?;
/// moments.take(outcome.moment)?;
/// ```
#[derive(Debug, Drop)]
pub struct Moments {
    by_call: Vec<UnixTime>,
}

impl Model for Moments {
    ghost use Rattle.std.specs.Prelude.{ℕ, List};

    ghost Value = { List ℕ };

    ghost view = { λ moments. moments.by_call.items };
}

/// The start of 1970, which is how late it is before any call is given a moment.
fn start() -> UnixTime
    ensures { result ≡ 0 }
{
    UnixTime::from(Duration::from_secs(0))
}

impl Moments {
    /// The moments before the first call. They take their memory from `alloc` once calls are taken.
    pub fn new(alloc: Global) -> Self
        ensures { result ≡ [] }
    {
        Moments {
            by_call: Vec::new(alloc),
        }
    }

    /// The moments of the calls of a record: for each entry the greatest moment up to it, which is
    /// the start of 1970 as long as no call was given one.
    ///
    /// # Errors
    ///
    /// If there is no memory.
    pub fn of_record(alloc: Global, entries: &[Entry]) -> Result<Self, AllocError>
        ensures { IfOk result (λ moments. moments ≡ moments_of entries.now) }
    {
        let mut moments = Moments::new(alloc);
        for entry in entries {
            moments.take(entry.moment)?;
        }
        Ok(moments)
    }

    /// A copy. A call that one of the two takes from then on doesn't change the other.
    ///
    /// # Errors
    ///
    /// If there is no memory.
    pub fn try_clone(&self) -> Result<Self, AllocError>
        ensures { IfOk result (λ copy. copy ≡ self.now) }
    {
        Ok(Moments {
            by_call: self.by_call.clone()?,
        })
    }

    /// Adds the next call to the list. `moment` is what the call was given as `now`, if anything.
    /// The greatest moment stays if it is earlier or missing. A refused call is added too.
    ///
    /// # Errors
    ///
    /// If there is no memory. Nothing is then added.
    pub fn take(&mut self, moment: Option<UnixTime>) -> Result<(), AllocError>
        ensures ok { OnOk result ((entries : List Entry) (entry : Entry) →
            self.old ≡ moments_of entries → entry.moment ≡ moment →
            self.new ≡ moments_of (entries ++ entry ∷ [])) }
        ensures kept { IfErr result (λ _. self.new ≡ self.old) }
    {
        let latest = self.latest().max(moment.unwrap_or(start()));
        self.add(latest)
    }

    /// Adds the next call to the list. `latest` is the greatest moment of the calls up to it, as a
    /// session says after that call.
    ///
    /// # Errors
    ///
    /// If there is no memory. Nothing is then added.
    pub fn add(&mut self, latest: UnixTime) -> Result<(), AllocError>
        ensures ok { OnOk result ((entries : List Entry) (entry : Entry) →
            self.old ≡ moments_of entries → latest ≡ latest_of (entries ++ entry ∷ []) →
            self.new ≡ moments_of (entries ++ entry ∷ [])) }
        ensures kept { IfErr result (λ _. self.new ≡ self.old) }
    {
        make_room(&mut self.by_call)?;
        self.by_call.push(latest)?;
        Ok(())
    }

    /// The greatest moment of all calls so far. It is the start of 1970 if no call was given one.
    fn latest(&self) -> UnixTime
        ensures { (entries : List Entry) → self.now ≡ moments_of entries →
            result ≡ latest_of entries }
    {
        self.of_call(self.by_call.len()).unwrap_or(start())
    }

    /// The greatest moment of the calls up to that at `position`, or `None` if there is no such
    /// call. Positions count from 1. It is the start of 1970 if none of these calls was given one.
    pub fn of_call(&self, position: usize) -> Option<UnixTime>
        ensures { result ≡ moment_of_call self.now position }
    {
        let index = position.checked_sub(1)?;
        self.by_call.get(index).copied()
    }
}

/// Makes room in `list` for one moment more, and for no other while the list is short. If there is
/// no memory, it fails. The moments stay.
fn make_room(list: &mut Vec<UnixTime>) -> Result<(), AllocError>
    ensures { list.new.items ≡ list.old.items }
{
    if list.len() < FEW {
        list.reserve_exact(1)?;
    }
    Ok(())
}
