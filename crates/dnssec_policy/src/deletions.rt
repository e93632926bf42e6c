//! Keys that have left are deleted.
ghost use Rattle.std.specs.Prelude.{◌≡◌, ℕ, Option, Some, string_bytes};
ghost use Rattle.std.specs.List.{list_any};
ghost use Rattle.dnssec_key.specs.declared.roll.RollType.{RollType as AnyRoll};
ghost use Rattle.dnssec_keyset.specs.declared.wait.WaitEnd.{WaitEnd as AnyEnd};
ghost use Rattle.dnssec_policy.specs.Code.{OfView, last_of, todo_of, view_of};
ghost use Rattle.dnssec_keyset.specs.Step.{DeleteKey};
ghost use Rattle.dnssec_policy.specs.Keys.{has_left, is_rolled, leaves_from};
ghost use Rattle.dnssec_policy.specs.Next.{at_moment, deletion, deletions, once_all_ended};
ghost use Rattle.dnssec_policy.specs.Next.{once_ended};
ghost use Rattle.dnssec_policy.specs.Todo.{Make};

use crate::in_progress::{is_in_progress, nanos, once_settled};
use crate::keys::is_of_side;
use crate::policy::Policy;
use crate::state::State;
use crate::todo::Next;
use dnssec_key::side_of;
use dnssec_keyset::{Key, KeyType, RollType, UnixTime};
use dnssec_zone::all_rolls;

/// Whether a roll is in progress that changes keys of this kind: KSKs, ZSKs or CSKs. False for
/// another signer's key, since no roll changes it. The flags in `kind` don't count.
pub(crate) fn is_rolled(state: &State<'_>, kind: KeyType) -> bool
    ensures { result ≡ is_rolled state.now.keyset.now.rolls kind }
{
    all_rolls().iter().any(|roll| is_in_progress(state, *roll) && is_of_side(side_of(*roll), kind))
}

/// Whether a key has left, and no roll is in progress that changes keys of its kind. A key has left
/// if it is on its way out, signs nothing, isn't in the DNSKEY set, and needs no DS at the parent
/// any more, a CSK in both roles. It may also be another signer's.
fn has_left(state: &State<'_>, key: &Key) -> bool
    ensures { result ≡ has_left state.now.keyset.now.rolls key.now }
{
    key.is_stale() && !is_rolled(state, key.keytype())
}

/// The nanosecond since 1970 from which a key may be deleted: `after` seconds later than the moment
/// at which it was `withdrawn`. A key without that stamp (`None`) may be deleted at any time, so
/// the answer is 0.
fn leaves_from(after: u64, withdrawn: Option<UnixTime>) -> u128
    ensures { result ≡ leaves_from after withdrawn }
{
    match withdrawn {
        None => 0,
        Some(moment) => nanos(moment) + u128::from(after) * 1_000_000_000,
    }
}

/// The nanosecond since 1970 from which the policy lets this key be deleted: its `delete_after`
/// seconds later than the key was withdrawn. 0 if the key has no stamp of its withdrawal.
fn moment_of(policy: &Policy, key: &Key) -> u128
    ensures { result ≡ leaves_from policy.now.delete_after key.now.timestamps.withdrawn }
{
    leaves_from(policy.delete_after, key.timestamps().withdrawn())
}

/// What is to be done at `now`, if `todo` isn't to be done before `moment`, a nanosecond since
/// 1970: `NotBefore` that moment if `now` is before it, otherwise `todo`.
fn at_moment<'a>(now: UnixTime, moment: u128, todo: Next<'a>) -> Next<'a>
    ensures { todo_of now result ≡ at_moment now (Some moment) (todo_of now todo.entry) }
{
    if moment <= nanos(now) {
        todo
    } else {
        Next::NotBefore { moment }
    }
}

/// `todo`, if by the notes all servers give the sets that the last actions of `roll` ask to wait
/// for, as they are after its last second wait, or later ones. Otherwise to publish or to watch
/// such a set, first the DS set, then the DNSKEY set, then the zone's signatures. Also `todo` if
/// `roll` never ended a second wait.
fn once_ended<'a>(state: &State<'a>, roll: RollType, todo: Next<'a>) -> Next<'a>
    ensures { (end : AnyRoll → Option AnyEnd) → todo_of state.now.moment result
        ≡ once_ended (view_of state.now end) roll (last_of state.now.last_waits roll)
        (todo_of state.now.moment todo.entry) }
{
    match state.last_waits.of(roll) {
        None => todo,
        Some(base) => once_settled(state, roll, base, todo),
    }
}

/// `todo`, if by the notes all servers give the sets that the last actions of each roll ask to wait
/// for, as they are after its last second wait, or later ones. Otherwise to publish or to watch
/// such a set. A kind of roll that never ended a second wait asks for none. So no key is deleted
/// that a server may still give.
fn once_all_ended<'a>(state: &State<'a>, todo: Next<'a>) -> Next<'a>
    ensures { (end : AnyRoll → Option AnyEnd) → todo_of state.now.moment result
        ≡ once_all_ended (view_of state.now end) (todo_of state.now.moment todo.entry) }
{
    let mut so_far = todo;
    for roll in all_rolls() {
        so_far = once_ended(state, *roll, so_far);
    }
    so_far
}

/// The answer that the key of this reference is to be deleted: `Delete`. Nothing is deleted here.
fn delete<'a>(reference: &'a String) -> Next<'a>
    ensures { (now : ℕ) → todo_of now result ≡ Make (DeleteKey (string_bytes reference.now)) }
{
    Next::Delete {
        reference: reference.as_str(),
    }
}

/// What is to be done to delete this key: `Delete`, or what that still waits for, a moment or a set
/// on all servers. `Rest` if the key hasn't left, or a roll in progress changes keys of its kind. A
/// key has left if it is on its way out, signs nothing, isn't in the DNSKEY set, and needs no DS at
/// the parent any more, a CSK in both roles.
fn deletion<'a>(policy: &Policy, state: &State<'a>, reference: &'a String, key: &Key) -> Next<'a>
    ensures { (end : AnyRoll → Option AnyEnd) → todo_of state.now.moment result
        ≡ deletion policy.now (view_of state.now end) (string_bytes reference.now) key.now }
{
    if !has_left(state, key) {
        return Next::Rest;
    }
    let todo = once_all_ended(state, delete(reference));
    let moment = moment_of(policy, key);
    at_moment(state.moment, moment, todo)
}

/// The most urgent of what is to be done to delete keys that have left: a deletion, or what one
/// still waits for. `Rest` if no key has left, or rolls in progress change keys of their kinds. A
/// key has left if it is on its way out, signs nothing, isn't in the DNSKEY set, and needs no DS at
/// the parent any more, a CSK in both roles. `keys` are all keys of the zone, each after its
/// reference, in the order of the references.
pub(crate) fn deletions<'a>(
    policy: &Policy,
    state: &State<'a>,
    keys: &[(&'a String, &'a Key)],
) -> Next<'a>
    ensures { OfView state.now keys.now (deletions policy.now) (todo_of state.now.moment result) }
{
    let mut best = Next::Rest;
    for entry in keys {
        best = best.or(deletion(policy, state, entry.0, entry.1));
    }
    best
}
