//! Reports that are due: what a roll waits for, and with which TTL.
ghost use Rattle.std.specs.Prelude.{◌≡◌, unwrap_or};
ghost use Rattle.dnssec_key.specs.RollTable.{is_second};
ghost use Rattle.dnssec_run.specs.Moments.{moment_of_call};
ghost use Rattle.dnssec_run.specs.Steps.{origin_in, step_of};
ghost use Rattle.dnssec_network.specs.Reports.{due, due_from, due_report, ttl_or_kind, waited_for};
ghost use Rattle.dnssec_zone.specs.Rolls.{phase_of};

use crate::notes::Notes;
use dnssec_keyset::{Half, KeySet, RollState, RollType, UnixTime};
use dnssec_run::{LastStep, Moments, SetKind, Steps};

/// A report that a roll waits for.
#[derive(Clone, Copy, Debug)]
pub struct DueReport {
    pub roll: RollType,
    /// Which of the roll's two reports it is.
    pub half: Half,
    /// The TTL, in seconds, with which it is due; or why it isn't due yet.
    pub ttl: Result<u32, NotYet>,
}

/// What a report waits for that isn't due yet.
#[derive(Clone, Copy, Debug)]
pub enum NotYet {
    /// Servers may still give older sets of this kind: the first of those that it speaks of.
    WaitsFor(SetKind),
    /// Its step, or a call before that, was made at this moment. No earlier report is true.
    WaitsUntil(UnixTime),
}

impl Notes {
    /// Says which report `roll` waits for, and the TTL with which it is true if it is made at
    /// `now`, or why it isn't due yet. `None` if the roll isn't in progress or waits for no report,
    /// or if `steps` has no last step of it.
    ///
    /// `keyset` says in which phase the roll is. `steps` are the last steps in the record of this
    /// key set: of each roll its last accepted start or end of its first wait. `moments` has the
    /// greatest moment up to each call of the record.
    ///
    /// ```rust
    /// let steps = Steps::of_record(&run.entries);
    /// let moments = Moments::of_record(alloc, &run.entries)?;
    /// let roll = RollType::KskRoll;
    /// if let Some(report) = notes.due_report(&run.keyset, steps, &moments, roll, now) {
    ///     // The TTL, or what to wait for.
    ///     let ttl = report.ttl;
    /// }
    /// ```
    pub fn due_report(
        &self,
        keyset: &KeySet,
        steps: Steps,
        moments: &Moments,
        roll: RollType,
        now: UnixTime,
    ) -> Option<DueReport>
        ensures { result ≡ due_report self.now.before self.now.facts moments.now
            (phase_of keyset.now.rolls roll) (step_of steps roll) roll now }
    {
        let half = waited_for(keyset, roll)?;
        let last = steps.of(roll)?;
        Some(DueReport {
            roll,
            half,
            ttl: self.due_from(moments, roll, half, last, now),
        })
    }

    /// The TTL, in seconds, with which the report on this `half` of `roll` is true at `now`. `last`
    /// is the roll's last accepted start or end of its first wait, and `moments` has the greatest
    /// moment up to each call.
    ///
    /// The error is `WaitsUntil` if `now` lies before the greatest moment of the calls up to
    /// `last`, and otherwise `WaitsFor` with the first kind for which the report isn't due yet, as
    /// servers may still give older sets of it.
    fn due_from(
        &self,
        moments: &Moments,
        roll: RollType,
        half: Half,
        last: LastStep,
        now: UnixTime,
    ) -> Result<u32, NotYet>
        ensures { result ≡ due_from (unwrap_or (moment_of_call moments.now last.at) 0) now
            (due self.now.before self.now.facts roll (is_second half) (origin_in last.origins)
            now) }
    {
        match moments.of_call(last.at) {
            Some(begun) if now < begun => Err(NotYet::WaitsUntil(begun)),
            _ => ttl_or_kind(self.ttl_due(roll, half, last.origins, now)),
        }
    }
}

/// Turns what `Notes::ttl_due` answers into what a `DueReport` says: a TTL in seconds stays the
/// same, and a kind of sets becomes the reason to wait for it.
fn ttl_or_kind(ttl: Result<u32, SetKind>) -> Result<u32, NotYet>
    ensures { result ≡ ttl_or_kind ttl }
{
    match ttl {
        Ok(ttl) => Ok(ttl),
        Err(kind) => Err(NotYet::WaitsFor(kind)),
    }
}

/// Which report `roll` waits for in its present phase in `keyset`: the first or the second. `None`
/// if the roll isn't in progress, or waits for no report.
fn waited_for(keyset: &KeySet, roll: RollType) -> Option<Half>
    ensures { result ≡ waited_for (phase_of keyset.now.rolls roll) }
{
    match keyset.rollstates().get(&roll) {
        Some(RollState::Propagation1) => Some(Half::First),
        Some(RollState::Propagation2) => Some(Half::Second),
        _ => None,
    }
}
