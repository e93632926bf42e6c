//! The rolls of a status.
ghost use Rattle.std.specs.Prelude.{◌≡◌, ◌++◌, IfOk, OnOk, codes, decimal, map};
ghost use Rattle.std.specs.List.{All, list_any};
ghost use Rattle.dnssec_keyset.specs.WaitEnd.{SaysEnd};
ghost use Rattle.dnssec_status.specs.Rolls.{end_json, ended_json, going_json};
ghost use Rattle.dnssec_status.specs.Rolls.{is_for_parent, parts_json, phase_json};
ghost use Rattle.dnssec_status.specs.Rolls.{phase_pair, rolls_in_progress, waits_for};
ghost use Rattle.dnssec_status.specs.Rolls.{with_its_phase};
ghost use Rattle.dnssec_status.specs.declared.rolls.RollInProgress.{RollInProgress as AnyRoll};
ghost use Rattle.dnssec_zone.specs.Rolls.{phase_of};

use crate::json::{Writer, push_array, push_bytes, push_null, push_number};
use crate::names::{Names, push_roll_name};
use dnssec_keyset::{Action, KeySet, RollState, RollType, WaitEnd};
use dnssec_zone::all_rolls;
use std::alloc::{AllocError, Global};
use std::time::Duration;

/// A roll in progress, and when its wait ends.
#[derive(Clone, Copy)]
pub(crate) struct RollInProgress {
    pub(crate) roll: RollType,
    pub(crate) phase: RollState,
    pub(crate) end: Option<WaitEnd>,
}

/// The rolls in progress in `keyset`, in the order of `RollType`, each with its phase and the end
/// of its wait. That is `None` if the roll doesn't wait, or if a key lacks the stamp that the wait
/// checks. It fails only if there is no memory.
pub(crate) fn in_progress(alloc: Global, keyset: &KeySet) -> Result<Vec<RollInProgress>, AllocError>
    ensures all { IfOk result (λ rolls.
        map phase_pair rolls.items ≡ rolls_in_progress keyset.now) }
    ensures ends { IfOk result (λ rolls.
        All (λ (g : AnyRoll). SaysEnd g.roll keyset.now g.end) rolls.items) }
{
    let mut rolls = Vec::new(alloc);
    for roll in all_rolls() {
        note(&mut rolls, keyset, *roll)?;
    }
    Ok(rolls)
}

/// Appends `roll` to `rolls`, with its phase and the end of its wait, if it is in progress in
/// `keyset`. Else `rolls` stays as it is. The end is `None` if the roll doesn't wait, or if a key
/// lacks the stamp that the wait checks. It fails only if there is no memory, and `rolls` is then
/// of no more use.
#[tactic(auto, unfolding(crate::specs::Rolls::with_its_phase))]
fn note(rolls: &mut Vec<RollInProgress>, keyset: &KeySet, roll: RollType) -> Result<(), AllocError>
    ensures all { OnOk result (map phase_pair rolls.new.items ≡ map phase_pair rolls.old.items
        ++ with_its_phase roll (phase_of keyset.now.rolls roll)) }
    ensures ends { OnOk result (
        All (λ (g : AnyRoll). SaysEnd g.roll keyset.now g.end) rolls.old.items →
        All (λ (g : AnyRoll). SaysEnd g.roll keyset.now g.end) rolls.new.items) }
{
    match keyset.rollstates().get(&roll) {
        None => Ok(()),
        Some(phase) => {
            let end = keyset.wait_end(roll);
            rolls.push(RollInProgress {
                roll,
                phase: *phase,
                end,
            })?;
            Ok(())
        }
    }
}

/// Writes rolls in progress.
#[derive(Drop)]
pub(crate) struct ProgressWriter {
    pub(crate) alloc: Global,
}

impl Writer<RollInProgress> for ProgressWriter {
    ghost json = { λ _ going. going_json going };

    /// Appends a roll in progress to `out` as a JSON object, with the actions that are due in its
    /// phase. If memory runs out, it fails, and `out` may end in a part of this.
    #[tactic(auto, unfolding(crate::specs::Rolls::going_json))]
    fn push(&self, out: &mut Vec<u8>, going: &RollInProgress) -> Result<(), AllocError> {
        let due = going.roll.actions_in(going.phase);
        push_parts(self.alloc, out, going.roll, going.phase, going.end, due)
    }
}

/// Appends a roll in progress to `out` as a JSON object. `end` says when its wait is over: `None`
/// if it doesn't wait, or if a key lacks a stamp for that. `due` has the actions that are due in
/// its `phase`. If memory runs out, it fails, and `out` may end in a part of this.
#[tactic(auto, using(crate::proofs::Chains::assoc), unfolding(crate::specs::Rolls::parts_json))]
fn push_parts(
    alloc: Global,
    out: &mut Vec<u8>,
    roll: RollType,
    phase: RollState,
    end: Option<WaitEnd>,
    due: &[Action],
) -> Result<(), AllocError>
    ensures { OnOk result (out.new.items ≡ out.old.items ++ parts_json roll phase end due.now) }
{
    push_bytes(out, b"{\"roll\":")?;
    push_roll_name(out, roll)?;
    push_phase(alloc, out, phase)?;
    push_end(alloc, out, b",\"not_before\":", &end)?;
    push_bytes(out, b",\"waits_for\":")?;
    push_waits_for(out, phase, due)?;
    push_bytes(out, b",\"due\":")?;
    push_array(out, &Names, due)?;
    push_bytes(out, b"}")?;
    Ok(())
}

// What is written in each phase of a roll. In a wait the TTL stands between two pieces.
const SPREADS1: &[u8] = b",\"phase\":\"propagation1\",\"ttl\":null,\"next\":\"report1\"";

const EXPIRES1: &[u8] = b",\"phase\":\"cache-expire1\",\"ttl\":";

const THEN_WAIT1: &[u8] = b",\"next\":\"wait1\"";

const SPREADS2: &[u8] = b",\"phase\":\"propagation2\",\"ttl\":null,\"next\":\"report2\"";

const EXPIRES2: &[u8] = b",\"phase\":\"cache-expire2\",\"ttl\":";

const THEN_WAIT2: &[u8] = b",\"next\":\"wait2\"";

const DONE: &[u8] = b",\"phase\":\"done\",\"ttl\":null,\"next\":\"done\"";

/// Appends three members to `out`: the name of the `phase`, as `cache-expire1`, the TTL that was
/// reported, in seconds (`null` unless the roll waits for caches), and the name of the call that
/// leaves the phase, as `wait1`. If memory runs out, it fails, and `out` may end in a part of this.
fn push_phase(alloc: Global, out: &mut Vec<u8>, phase: RollState) -> Result<(), AllocError>
    ensures { OnOk result (out.new.items ≡ out.old.items ++ phase_json phase) }
{
    match phase {
        RollState::Propagation1 => push_bytes(out, SPREADS1),
        RollState::CacheExpire1(ttl) => push_ttl(alloc, out, EXPIRES1, ttl, THEN_WAIT1),
        RollState::Propagation2 => push_bytes(out, SPREADS2),
        RollState::CacheExpire2(ttl) => push_ttl(alloc, out, EXPIRES2, ttl, THEN_WAIT2),
        RollState::Done => push_bytes(out, DONE),
    }
}

/// Appends `before`, then `ttl` (seconds) in decimal digits, and then `after`. The other two are
/// the JSON around the TTL. If memory runs out, it fails, and `out` may end in a part of this.
#[tactic(auto, using(crate::proofs::Chains::assoc))]
fn push_ttl(
    alloc: Global,
    out: &mut Vec<u8>,
    before: &[u8],
    ttl: u32,
    after: &[u8],
) -> Result<(), AllocError>
    ensures { OnOk result (out.new.items
        ≡ out.old.items ++ (before.now ++ decimal ttl ++ after.now)) }
{
    push_number(alloc, out, before, u128::from(ttl))?;
    push_bytes(out, after)?;
    Ok(())
}

/// Appends `before`, the JSON in front of the value, and then the first second since 1970 at which
/// a wait that is over at `end` is accepted: `end` rounded up. It is `null` without an end, and
/// `"past-time"` if no call can name that second. If memory runs out, it fails, and `out` may end
/// in a part of this.
#[tactic(auto, unfolding(crate::specs::Rolls::end_json, crate::specs::Rolls::second_json))]
fn push_end(
    alloc: Global,
    out: &mut Vec<u8>,
    before: &[u8],
    end: &Option<WaitEnd>,
) -> Result<(), AllocError>
    ensures { OnOk result (out.new.items ≡ (out.old.items ++ before.now) ++ end_json end.now) }
{
    match end {
        None => push_null(out, before),
        Some(WaitEnd::PastTime) => push_past_time(out, before),
        Some(WaitEnd::At(moment)) => {
            let nanos = Duration::from(*moment).as_nanos();
            let second = (nanos + 999_999_999) / 1_000_000_000;
            // A call names seconds by 64 bits.
            if second <= 18_446_744_073_709_551_615 {
                push_number(alloc, out, before, second)
            } else {
                push_past_time(out, before)
            }
        }
    }
}

/// Appends `before`, the JSON in front of the value, and then `"past-time"`: the wait ends at a
/// second that no call can name. If memory runs out, it fails, and `out` may end in a part of this.
fn push_past_time(out: &mut Vec<u8>, before: &[u8]) -> Result<(), AllocError>
    ensures { OnOk result (out.new.items
        ≡ (out.old.items ++ before.now) ++ codes "\"past-time\"") }
{
    push_bytes(out, before)?;
    push_bytes(out, b"\"past-time\"")
}

/// Appends to `out` for whom a roll in this `phase` waits: for `"caches"` while caches expire, in
/// another phase for the `"parent"` if `due` has `UpdateDsRrset`, or else for `"you"`. If memory
/// runs out, it fails, and `out` may end in a part of this.
#[tactic(auto, unfolding(crate::specs::Rolls::waits_for))]
fn push_waits_for(out: &mut Vec<u8>, phase: RollState, due: &[Action]) -> Result<(), AllocError>
    ensures { OnOk result (out.new.items ≡ out.old.items ++ waits_for phase due.now) }
{
    match phase {
        RollState::CacheExpire1(_) | RollState::CacheExpire2(_) => push_bytes(out, b"\"caches\""),
        RollState::Propagation1 | RollState::Propagation2 | RollState::Done => {
            if has_parent_action(due) {
                push_bytes(out, b"\"parent\"")
            } else {
                push_bytes(out, b"\"you\"")
            }
        }
    }
}

/// Whether one of the actions `due` is for the parent: an update of the DS set (`UpdateDsRrset`).
fn has_parent_action(due: &[Action]) -> bool
    ensures { result ≡ list_any is_for_parent due.now }
{
    due.iter().any(|action| is_for_parent(*action))
}

/// Whether the `action` is for the parent. Only `UpdateDsRrset` is: the parent publishes the DS
/// set.
fn is_for_parent(action: Action) -> bool
    ensures { result ≡ is_for_parent action }
{
    matches!(action, Action::UpdateDsRrset)
}

/// Writes rolls that were ended early.
#[derive(Drop)]
pub(crate) struct EarlyEndWriter;

impl Writer<RollType> for EarlyEndWriter {
    ghost json = { λ _ roll. ended_json roll };

    /// Appends a roll that was ended early to `out` as a JSON object, with the actions that its end
    /// asked for. If memory runs out, it fails, and `out` may end in a part of this.
    #[tactic(auto, unfolding(crate::specs::Rolls::ended_json))]
    fn push(&self, out: &mut Vec<u8>, roll: &RollType) -> Result<(), AllocError> {
        push_bytes(out, b"{\"roll\":")?;
        push_roll_name(out, *roll)?;
        push_bytes(out, b",\"asked\":")?;
        push_array(out, &Names, roll.asks_at_early_end())?;
        push_bytes(out, b"}")
    }
}
