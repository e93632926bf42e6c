//! A report that a judge keeps, when it is over, and how it lifts the floor of a window.
ghost use Rattle.std.specs.Prelude.{◌≡◌, ◌<◌, ◌≤◌, ◌+◌, ◌*◌, ℕ, nat_lt, not, max};
ghost use Rattle.std.specs.Prelude.{OnOk, IfOk, []};
ghost use Rattle.dnssec_run.specs.Safe.{kind_of};
ghost use Rattle.dnssec_run.specs.Steps.{base_of};
ghost use Rattle.dnssec_judge.specs.Inner.Floor.{over_by};
ghost use Rattle.dnssec_judge.specs.Inner.Reports.{IsNoneBefore, floor_with, is_over_at, most};
ghost use Rattle.dnssec_judge.specs.Inner.Reports.{over_all, over_any};

use dnssec_keyset::{Half, UnixTime};
use dnssec_run::{Mark, SetKind, Steps, retires};
use std::alloc::{AllocError, Global};
use std::time::Duration;

/// The greatest second since 1970: without a report, none is over before it.
const NEVER: u64 = u64::MAX;

/// A report that isn't over yet. Once it is, all below its base is retired.
#[derive(Clone, Copy, Debug)]
pub(super) struct Due {
    over: UnixTime,
    base: usize,
}

impl Due {
    /// What a window keeps of a call with this `mark` that was given this `moment`: when the TTL
    /// that it reports is over, and below which position caches then hold no set of the `kind`.
    /// `steps` has the last step of each roll. `None` if the call is no report of the kind, has no
    /// moment, follows no step of its roll, or has a TTL that ends past the greatest `UnixTime`.
    #[inline(always)]
    pub(super) fn of(
        mark: &Mark,
        moment: &Option<UnixTime>,
        steps: &Steps,
        kind: SetKind,
    ) -> Option<Due>
        ensures { (time : ℕ) → time < most → over_any result time
            ≡ over_by (kind_of kind) (base_of steps.now) mark.now moment.now time }
    {
        let Mark::Report { roll, second, ttl } = *mark else {
            return None;
        };
        if !retires(roll, Half::of_report(second), kind) {
            return None;
        }
        let moment = (*moment)?;
        let ttl = Duration::from_secs(u64::from(ttl));
        if !moment.fits(ttl) {
            return None;
        }
        Some(Due {
            over: moment + ttl,
            base: steps.of(roll)?.at,
        })
    }

    /// Whether the TTL of this report has passed at `time`.
    pub(super) fn is_over(&self, time: UnixTime) -> bool
        ensures { result ≡ is_over_at time self.now }
    {
        self.over <= time
    }
}

/// The reports that aren't over yet.
#[derive(Debug, Drop)]
pub(crate) struct Dues {
    list: Vec<Due>,
    /// None of them is over before this moment.
    pub(super) next: UnixTime,
    ghost none_before: { IsNoneBefore next list.items },
}

impl Dues {
    /// No report. It takes its memory from `alloc` as reports come.
    pub(super) fn none(alloc: Global) -> Self
        ensures { result.list.items ≡ [] }
    {
        Dues {
            list: Vec::new(alloc),
            next: UnixTime::from(Duration::from_secs(NEVER)),
        }
    }

    /// A copy of the reports. It fails only if there is no memory.
    pub(super) fn try_clone(&self) -> Result<Self, AllocError>
        ensures { IfOk result (λ dues. dues.list.items ≡ self.now.list.items) }
    {
        Ok(Dues {
            list: self.list.clone()?,
            next: self.next,
        })
    }

    /// Gives the memory back that the list has to spare.
    pub(super) fn fit(&mut self)
        ensures { self.new.list.items ≡ self.old.list.items }
    {
        self.list.shrink_to_fit();
    }

    /// Adds the report `due`, if there is one. If there is no memory, it fails and changes nothing.
    #[inline(always)]
    #[tactic(auto, using(crate::proofs::OneByOne::Windows::over_more))]
    pub(super) fn note(&mut self, due: Option<Due>) -> Result<(), AllocError>
        ensures { OnOk result ((t : ℕ) → over_all self.new.list.items t
            ≡ max (over_all self.old.list.items t) (over_any due t)) }
    {
        let Some(due) = due else {
            return Ok(());
        };
        self.list.push(due)?;
        if due.over < self.next {
            self.next = due.over;
        }
        Ok(())
    }

    /// Drops the reports whose TTL is over at `time`, and answers the greatest `base` of these, or
    /// `floor` if that is greater: caches hold no set of lower positions.
    #[inline(never)]
    pub(super) fn retire(&mut self, floor: usize, time: UnixTime) -> usize
        ensures floor { result ≡ floor_with floor self.old.list.items time }
        ensures dues { (t : ℕ) → time ≤ t → floor_with result self.new.list.items t
            ≡ floor_with floor self.old.list.items t }
    {
        let mut risen = floor;
        let mut next = UnixTime::from(Duration::from_secs(NEVER));
        let mut kept = 0;
        // While reports change places, any of them may be over.
        self.next = UnixTime::from(Duration::from_secs(0));
        for place in 0..self.list.len() {
            let due = self.list[place];
            if due.is_over(time) {
                risen = risen.max(due.base);
                continue;
            }
            next = next.min(due.over);
            self.list[kept] = due;
            kept += 1;
        }
        self.list.truncate(kept);
        self.next = next;
        risen
    }
}

/// Whether `ttl` seconds have passed from `moment` to `time`. They never have if they end past the
/// greatest moment that a `UnixTime` can have.
pub(crate) fn is_over(moment: UnixTime, ttl: u32, time: UnixTime) -> bool
    ensures { result ≡ not (nat_lt time (moment + ttl * 1_000_000_000)) }
{
    let ttl = Duration::from_secs(u64::from(ttl));
    moment.fits(ttl) && moment + ttl <= time
}
