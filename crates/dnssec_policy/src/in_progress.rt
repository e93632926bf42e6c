//! How a roll in progress goes on.
ghost use Rattle.std.specs.Prelude.{◌≡◌, ℕ, Option, is_some};
ghost use Rattle.dnssec_key.specs.declared.roll.RollType.{RollType as AnyRoll};
ghost use Rattle.dnssec_keyset.specs.declared.wait.WaitEnd.{WaitEnd as AnyEnd};
ghost use Rattle.dnssec_run.specs.Steps.{step_of};
ghost use Rattle.dnssec_zone.specs.Rolls.{phase_of};
ghost use Rattle.dnssec_policy.specs.Code.{end_of, last_of, todo_of, view_of};
ghost use Rattle.dnssec_policy.specs.InProgress.{awaited, end_next, ends_with, is_wait_for};
ghost use Rattle.dnssec_policy.specs.InProgress.{later, once_settled, once_there, report_next};
ghost use Rattle.dnssec_policy.specs.InProgress.{report_or, report_with, roll_next, wait_next};
ghost use Rattle.dnssec_policy.specs.Next.{phase_next, rolls_next};

use crate::state::{Ends, State};
use crate::todo::Next;
use crate::why::Why;
use dnssec_keyset::{Action, Half, RollState, RollType, UnixTime, WaitEnd};
use dnssec_network::{Origins, Reach};
use dnssec_run::SetKind;
use dnssec_zone::all_rolls;
use std::time::Duration;

/// The nanoseconds of a moment since 1970.
pub(crate) fn nanos(moment: UnixTime) -> u128
    ensures { result ≡ moment }
{
    Duration::from(moment).as_nanos()
}

/// Whether `roll` is in progress in the zone's key set, in any of its phases.
pub(crate) fn is_in_progress(state: &State<'_>, roll: RollType) -> bool
    ensures { result ≡ is_some (phase_of state.now.keyset.now.rolls roll) }
{
    state.keyset.rollstates().get(&roll).is_some()
}

// ---- reports

/// What to do about a report whose TTL 32 bits can't hold yet: to wait until a second after `now`
/// (`NotBefore`). The TTL is how long caches may still hold old sets, and so it falls with time.
fn later<'a>(now: UnixTime) -> Next<'a>
    ensures { todo_of now result ≡ later now }
{
    Next::NotBefore {
        moment: nanos(now) + 1_000_000_000,
    }
}

/// What a report waits for at `now`, if the sets of this kind that it speaks of have come as far as
/// `reach` says. `Publish` if they aren't published yet, and `Watch` if servers may still give
/// older ones. If all servers give them, only the report's TTL is too long for 32 bits: then
/// `NotBefore` a second after `now`.
fn awaited<'a>(reach: Reach, kind: SetKind, now: UnixTime) -> Next<'a>
    ensures { todo_of now result ≡ awaited reach kind now }
{
    match reach {
        Reach::Unpublished => Next::Publish { kind },
        Reach::Spreading => Next::Watch { kind },
        Reach::Everywhere => later(now),
    }
}

/// The report of this half of the roll with this TTL, in seconds. If 32 bits can't hold the TTL, to
/// wait until a second after the moment of `state`, since the TTL falls with time.
fn report_with<'a>(state: &State<'a>, roll: RollType, half: Half, ttl: u64) -> Next<'a>
    ensures { (end : AnyRoll → Option AnyEnd) → todo_of state.now.moment result
        ≡ report_with (view_of state.now end) roll half ttl }
{
    match u32::try_from(ttl) {
        Ok(ttl) => Next::Report { roll, half, ttl },
        Err(_) => later(state.moment),
    }
}

/// The report of this half of the roll, or what it still waits for: a set to publish or to watch,
/// or a moment. `due` is what `Notes::ttl_due` answers: the least TTL, in seconds, with which the
/// report is true, or the first kind of sets for which none of 32 bits is enough yet. A report on
/// DS sets gets a higher TTL than `due`. `origins` has for each kind the position of the call after
/// which its sets came.
fn report_or<'a>(
    state: &State<'a>,
    roll: RollType,
    half: Half,
    origins: Origins,
    due: Result<u32, SetKind>,
) -> Next<'a>
    ensures { (end : AnyRoll → Option AnyEnd) → todo_of state.now.moment result
        ≡ report_or (view_of state.now end) roll half origins due }
{
    match due {
        Ok(due) => {
            let ttl = state.highest.lasting(roll, half, u64::from(due));
            report_with(state, roll, half, ttl)
        }
        Err(kind) => {
            let reach = state.notes.reach(kind, origins.of(kind), state.moment);
            awaited(reach, kind, state.moment)
        }
    }
}

/// The report of this half of the roll, or what it still waits for by the notes: a set to publish
/// or to watch, or a moment. It speaks of the sets that the roll's last start or end of its first
/// wait left. `Stuck` with `Why::NoStep` if `state` doesn't know where that stands in the record of
/// calls.
fn report_next<'a>(state: &State<'a>, roll: RollType, half: Half) -> Next<'a>
    ensures { (end : AnyRoll → Option AnyEnd) → todo_of state.now.moment result
        ≡ report_next (view_of state.now end) roll half (step_of state.now.steps roll) }
{
    match state.steps.of(roll) {
        None => Next::Stuck {
            why: Why::NoStep { roll },
        },
        Some(step) => {
            let due = state.notes.ttl_due(roll, half, step.origins, state.moment);
            report_or(state, roll, half, step.origins, due)
        }
    }
}

// ---- waits

/// The call that ends the wait of this half of the roll, if the moment `end` is reached. Before
/// that, to wait until then. `Stuck` with `Why::PastTime` if the wait ends after the last moment
/// that a `UnixTime` can have. `Stuck` with `Why::NoStamp` if `end` is `None`: a key lacks the
/// stamp that the wait counts from.
fn wait_next<'a>(state: &State<'a>, roll: RollType, half: Half, end: &Option<WaitEnd>) -> Next<'a>
    ensures { (e : AnyRoll → Option AnyEnd) → todo_of state.now.moment result
        ≡ wait_next (view_of state.now e) roll half end.now }
{
    match end {
        Some(WaitEnd::At(moment)) => {
            let moment = nanos(*moment);
            if moment <= nanos(state.moment) {
                Next::Wait { roll, half }
            } else {
                Next::NotBefore { moment }
            }
        }
        Some(WaitEnd::PastTime) => Next::Stuck {
            why: Why::PastTime { roll },
        },
        None => Next::Stuck {
            why: Why::NoStamp { roll },
        },
    }
}

// ---- ends

/// Whether `action` asks to wait until all servers give the sets of this kind: `WaitDsPropagated`
/// for DS sets, `WaitDnskeyPropagated` for DNSKEY sets, `WaitRrsigPropagated` for the zone's
/// signatures.
fn is_wait_for(kind: SetKind, action: Action) -> bool
    ensures { result ≡ is_wait_for kind action }
{
    match (kind, action) {
        (SetKind::Ds, Action::WaitDsPropagated)
        | (SetKind::Dnskey, Action::WaitDnskeyPropagated)
        | (SetKind::ZoneSigners, Action::WaitRrsigPropagated) => true,
        _ => false,
    }
}

/// Whether the actions in the last phase of this kind of roll ask to wait until all servers give
/// the sets of this kind. They are due after the second wait, and the roll may end only once they
/// are done.
fn ends_with(roll: RollType, kind: SetKind) -> bool
    ensures { result ≡ ends_with roll kind }
{
    roll.actions_in(RollState::Done)
        .iter()
        .any(|action| is_wait_for(kind, *action))
}

/// `todo`, if by the notes all servers give the sets of this kind as they are after the call of
/// position `base`, or later ones. Otherwise to publish or to watch them. Also `todo` if the last
/// actions of `roll` don't ask to wait for that kind.
fn once_there<'a>(
    state: &State<'a>,
    roll: RollType,
    base: usize,
    kind: SetKind,
    todo: Next<'a>,
) -> Next<'a>
    ensures { (end : AnyRoll → Option AnyEnd) → todo_of state.now.moment result
        ≡ once_there (view_of state.now end) roll base kind (todo_of state.now.moment todo.entry) }
{
    if !ends_with(roll, kind) {
        return todo;
    }
    match state.notes.reach(kind, base, state.moment) {
        Reach::Everywhere => todo,
        Reach::Spreading => Next::Watch { kind },
        Reach::Unpublished => Next::Publish { kind },
    }
}

/// `todo`, if by the notes all servers give the sets that the last actions of `roll` ask to wait
/// for. Otherwise to publish or to watch such a set: first the DS set, then the DNSKEY set, then
/// the zone's signatures. `base` is the position of the call that ended the roll's second wait: the
/// sets are those after it, or later ones.
pub(crate) fn once_settled<'a>(
    state: &State<'a>,
    roll: RollType,
    base: usize,
    todo: Next<'a>,
) -> Next<'a>
    ensures { (end : AnyRoll → Option AnyEnd) → todo_of state.now.moment result
        ≡ once_settled (view_of state.now end) roll base (todo_of state.now.moment todo.entry) }
{
    let zone = once_there(state, roll, base, SetKind::ZoneSigners, todo);
    let dnskey = once_there(state, roll, base, SetKind::Dnskey, zone);
    once_there(state, roll, base, SetKind::Ds, dnskey)
}

/// What is to be done for a roll in its last phase: to end it, or first to publish or to watch a
/// set that its last actions ask to wait for. `Stuck` with `Why::NoLastWait` if `state` doesn't
/// know the position of the call that ended its second wait.
fn end_next<'a>(state: &State<'a>, roll: RollType) -> Next<'a>
    ensures { (end : AnyRoll → Option AnyEnd) → todo_of state.now.moment result
        ≡ end_next (view_of state.now end) roll (last_of state.now.last_waits roll) }
{
    match state.last_waits.of(roll) {
        None => Next::Stuck {
            why: Why::NoLastWait { roll },
        },
        Some(base) => once_settled(state, roll, base, Next::Done { roll }),
    }
}

// ---- by their phases

/// What is to be done for a roll that is in this phase: a report, the end of a wait or of the roll,
/// or what these still wait for, or `Stuck` with the cause if it can't go on. `ends` says when the
/// waits of the rolls are over.
fn roll_next<'a>(state: &State<'a>, ends: &Ends, roll: RollType, phase: RollState) -> Next<'a>
    ensures { todo_of state.now.moment result
        ≡ roll_next (view_of state.now (end_of ends.now)) roll phase }
{
    match phase {
        RollState::Propagation1 => report_next(state, roll, Half::First),
        RollState::CacheExpire1(_) => wait_next(state, roll, Half::First, &ends.of(roll)),
        RollState::Propagation2 => report_next(state, roll, Half::Second),
        RollState::CacheExpire2(_) => wait_next(state, roll, Half::Second, &ends.of(roll)),
        RollState::Done => end_next(state, roll),
    }
}

/// What is to be done for this roll in its present phase: a call, what that still waits for, or
/// `Stuck` with a cause. `Rest` if the roll isn't in progress. `ends` says when the waits of the
/// rolls are over.
pub(crate) fn phase_next<'a>(state: &State<'a>, ends: &Ends, roll: RollType) -> Next<'a>
    ensures { todo_of state.now.moment result
        ≡ phase_next (view_of state.now (end_of ends.now)) roll
        (phase_of state.now.keyset.now.rolls roll) }
{
    match state.keyset.rollstates().get(&roll) {
        None => Next::Rest,
        Some(phase) => roll_next(state, ends, roll, *phase),
    }
}

/// The most urgent of what the rolls in progress ask for: a call, what one still waits for, or
/// `Stuck` with a cause. `Rest` if no roll is in progress. `ends` says when the waits of the rolls
/// are over.
pub(crate) fn rolls_next<'a>(state: &State<'a>, ends: &Ends) -> Next<'a>
    ensures { todo_of state.now.moment result
        ≡ rolls_next (view_of state.now (end_of ends.now)) }
{
    let mut best = Next::Rest;
    for roll in all_rolls() {
        best = best.or(phase_next(state, ends, *roll));
    }
    best
}
