//! What a policy wants and doesn't get, and why.
ghost use Rattle.std.specs.Prelude.{◌≡◌, ℕ, IfOk, Option, false};
ghost use Rattle.std.specs.Option.{option_map_or};
ghost use Rattle.dnssec_key.specs.State.{is_leaving};
ghost use Rattle.std.specs.List.{list_any};
ghost use Rattle.dnssec_key.specs.declared.roll.RollType.{RollType as AnyRoll};
ghost use Rattle.dnssec_keyset.specs.WaitEnd.{SaysEnd};
ghost use Rattle.dnssec_keyset.specs.declared.wait.WaitEnd.{WaitEnd as AnyEnd};
ghost use Rattle.dnssec_zone.specs.Rolls.{phase_of};
ghost use Rattle.dnssec_policy.specs.Code.{AreKeysOf, OfView, end_of, todo_of, view_of};
ghost use Rattle.dnssec_policy.specs.Keys.{is_left_over};
ghost use Rattle.dnssec_policy.specs.Stuck.{barred_if, is_over, keys_why, phase_why, renewal_why};
ghost use Rattle.dnssec_policy.specs.Stuck.{renewals_why, rolls_why, starts_why, stuck_of, why_of};

use crate::deletions::is_rolled;
use crate::in_progress::{nanos, phase_next};
use crate::policy::{Policy, Scheme};
use crate::starts::{first_due, may_begin, wants_others};
use crate::state::{Ends, State};
use crate::todo::Next;
use crate::why::Why;
use dnssec_keyset::{Key, KeyState, RollState, RollType};
use dnssec_run::keys_in_order;
use dnssec_zone::all_rolls;
use std::alloc::{AllocError, Global};

// ---- rolls in progress

/// Why a roll in this phase doesn't go on, if `todo` is what is to be done for it: the cause of
/// `Stuck`, or `TtlTooLong` if it waits for a moment before a report. `None` for anything else, so
/// also for a wait after a report, or a set to publish or to watch.
fn why_of(roll: RollType, phase: RollState, todo: &Next<'_>) -> Option<Why>
    ensures { (now : ℕ) → result ≡ why_of roll phase (todo_of now todo.now) }
{
    match (todo, phase) {
        (Next::Stuck { why }, _) => Some(*why),
        (Next::NotBefore { .. }, RollState::Propagation1 | RollState::Propagation2) => {
            Some(Why::TtlTooLong { roll })
        }
        _ => None,
    }
}

/// Why this roll is stuck in its present phase. `None` if something is to be done for it, if it
/// waits for a moment after a report, or if it isn't in progress. `ends` says when the waits of the
/// rolls are over.
fn phase_why(state: &State<'_>, ends: &Ends, roll: RollType) -> Option<Why>
    ensures { result ≡ phase_why (view_of state.now (end_of ends.now)) roll
        (phase_of state.now.keyset.now.rolls roll) }
{
    match state.keyset.rollstates().get(&roll) {
        None => None,
        Some(phase) => why_of(roll, *phase, &phase_next(state, ends, roll)),
    }
}

/// Why the first roll that is stuck doesn't go on, in the order of `RollType`. `None` if none is:
/// something is to be done for each roll in progress, or it waits for a moment after a report.
/// `ends` says when the waits of the rolls are over.
fn rolls_why(state: &State<'_>, ends: &Ends) -> Option<Why>
    ensures { result ≡ rolls_why (view_of state.now (end_of ends.now)) }
{
    let mut first = None;
    for roll in all_rolls() {
        first = first.or(phase_why(state, ends, *roll));
    }
    first
}

// ---- starts

/// `Why::Barred` with `roll`, if `wanted` says that the roll is wanted, and it may not begin: it is
/// in progress itself, or another roll in progress excludes it. Otherwise `None`.
fn barred_if(wanted: bool, state: &State<'_>, roll: RollType) -> Option<Why>
    ensures { (end : AnyRoll → Option AnyEnd) → result
        ≡ barred_if wanted (view_of state.now end) roll }
{
    if !wanted {
        return None;
    }
    if may_begin(state, roll) {
        return None;
    }
    Some(Why::Barred { roll })
}

/// Whether at the moment of `state` some key at work has to be renewed by `roll`: its lifetime is
/// over, or the policy asks for it on demand. A key at work is in the DNSKEY set, signs, and isn't
/// on its way out, and as a KSK or a CSK has to have a DS at the parent too. `keys` are the zone's
/// keys, each after its reference.
fn is_over(policy: &Policy, state: &State<'_>, keys: &[(&String, &Key)], roll: RollType) -> bool
    ensures { OfView state.now keys.now (λ v. is_over policy.now v roll) result }
{
    match first_due(policy, roll, keys) {
        None => false,
        Some(moment) => moment <= nanos(state.moment),
    }
}

/// `Why::Barred` if `roll` has to renew some key by its lifetime or on demand, and it can't start:
/// it is in progress itself, or another roll in progress excludes it. Otherwise `None`. Only keys
/// at work have to be renewed: in the DNSKEY set, signing, and not on their way out, and as a KSK
/// or a CSK with a DS due at the parent. `keys` are the zone's keys, each after its reference.
fn renewal_why(
    policy: &Policy,
    state: &State<'_>,
    keys: &[(&String, &Key)],
    roll: RollType,
) -> Option<Why>
    ensures { OfView state.now keys.now (λ v. renewal_why policy.now v roll) result }
{
    barred_if(is_over(policy, state, keys, roll), state, roll)
}

/// `Why::Barred` with the first roll of the scheme that has to renew a key at the moment of
/// `state`, and can't start: it is in progress itself, or another roll in progress excludes it.
/// `None` if there is none. The roll of KSKs comes before that of ZSKs. `keys` are the zone's keys,
/// each after its reference.
fn renewals_why(policy: &Policy, state: &State<'_>, keys: &[(&String, &Key)]) -> Option<Why>
    ensures { OfView state.now keys.now (λ v. renewals_why policy.now v policy.now.scheme) result }
{
    match policy.scheme {
        Scheme::Split(ksk, zsk) => {
            let one = renewal_why(policy, state, keys, ksk.roll());
            let two = renewal_why(policy, state, keys, zsk.roll());
            one.or(two)
        }
        Scheme::SingleType => renewal_why(policy, state, keys, RollType::CskRoll),
    }
}

/// `Why::Barred` with the first roll that the policy wants at the moment of `state`, and that can't
/// start: it is in progress itself, or another roll in progress excludes it. `None` if there is
/// none. An algorithm roll comes before those that renew keys. `keys` are the zone's keys, each
/// after its reference.
fn starts_why(policy: &Policy, state: &State<'_>, keys: &[(&String, &Key)]) -> Option<Why>
    ensures { OfView state.now keys.now (starts_why policy.now) result }
{
    let change = barred_if(wants_others(policy, keys), state, RollType::AlgorithmRoll);
    let renewals = renewals_why(policy, state, keys);
    change.or(renewals)
}

// ---- keys

/// Whether a role is on its way out, but not gone: it still signs, is in the DNSKEY set, or has to
/// have a DS at the parent. False for `None`, a key without such a role.
fn is_leaving(role: Option<KeyState>) -> bool
    ensures { result ≡ option_map_or is_leaving role false }
{
    role.is_some_and(|s| s.old() && (s.signer() || s.present() || s.at_parent()))
}

/// Whether a key is stuck on its way out: it has a role on its way out that still signs, is in the
/// DNSKEY set, or has to have a DS at the parent, and no roll in progress changes keys of its kind.
/// So no roll takes the key out. False for another signer's key.
fn is_left_over(state: &State<'_>, key: &Key) -> bool
    ensures { result ≡ is_left_over state.now.keyset.now.rolls key.now }
{
    let kind = key.keytype();
    (is_leaving(kind.ksk_role()) || is_leaving(kind.zsk_role())) && !is_rolled(state, kind)
}

/// Whether some key is stuck on its way out: it has a role on its way out that still signs, is in
/// the DNSKEY set, or has to have a DS at the parent, and no roll in progress changes keys of its
/// kind. `keys` are the zone's keys, each after its reference.
fn some_left_over(state: &State<'_>, keys: &[(&String, &Key)]) -> bool
    ensures { result
        ≡ list_any (λ e. is_left_over state.now.keyset.now.rolls e.1.now) keys.now }
{
    keys.iter().any(|entry| is_left_over(state, entry.1))
}

/// `Why::OldKeyInUse` if some key has a role on its way out that still signs, is in the DNSKEY set,
/// or has to have a DS at the parent, and no roll in progress changes keys of its kind. Otherwise
/// `None`. `keys` are the zone's keys, each after its reference.
fn keys_why(state: &State<'_>, keys: &[(&String, &Key)]) -> Option<Why>
    ensures { OfView state.now keys.now keys_why result }
{
    if some_left_over(state, keys) {
        Some(Why::OldKeyInUse)
    } else {
        None
    }
}

// ---- all of it

/// The first cause for which something isn't done that the policy wants: a roll in progress that
/// doesn't go on, else a roll that may not begin, else `OldKeyInUse`: a role on its way out still
/// signs, is in the DNSKEY set or has to have a DS, and no roll takes its key out. `None` if there
/// is no cause. `ends` says when the waits of the rolls are over. `keys` are all keys of the zone,
/// each after its reference, in the order of references.
pub(crate) fn stuck_of(
    policy: &Policy,
    state: &State<'_>,
    ends: &Ends,
    keys: &[(&String, &Key)],
) -> Option<Why>
    ensures { AreKeysOf state.now.keyset.now keys.now → result
        ≡ stuck_of policy.now (view_of state.now (end_of ends.now)) }
{
    let rolls = rolls_why(state, ends);
    let starts = starts_why(policy, state, keys);
    rolls.or(starts.or(keys_why(state, keys)))
}

/// The first cause for which something isn't done that the policy wants, whatever else is to be
/// done: a roll in progress that doesn't go on, else a roll that may not begin, else `OldKeyInUse`:
/// a role on its way out still signs, is in the DNSKEY set or has to have a DS, and no roll takes
/// its key out. `None` if there is no such cause. A call made by hand isn't one here, but `next`
/// says it.
///
/// # Errors
///
/// If there is no memory.
pub fn stuck(alloc: Global, policy: &Policy, state: &State<'_>) -> Result<Option<Why>, AllocError>
    ensures { IfOk result (λ why. (end : AnyRoll → Option AnyEnd)
        × ((roll : AnyRoll) → SaysEnd roll state.now.keyset.now (end roll))
        × (why ≡ stuck_of policy.now (view_of state.now end))) }
{
    let ends = Ends::of_keyset(state.keyset);
    let keys = keys_in_order(alloc, state.keyset.keys())?;
    Ok(stuck_of(policy, state, &ends, &keys))
}
