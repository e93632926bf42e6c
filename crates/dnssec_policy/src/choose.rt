//! What a policy says to do next.
ghost use Rattle.std.specs.Prelude.{◌≡◌, IfOk, Option};
ghost use Rattle.dnssec_key.specs.declared.roll.RollType.{RollType as AnyRoll};
ghost use Rattle.dnssec_keyset.specs.WaitEnd.{SaysEnd};
ghost use Rattle.dnssec_keyset.specs.declared.wait.WaitEnd.{WaitEnd as AnyEnd};
ghost use Rattle.dnssec_policy.specs.Code.{AreKeysOf, end_of, todo_of, view_of};
ghost use Rattle.dnssec_policy.specs.Next.{answer_of};

use crate::deletions::deletions;
use crate::in_progress::rolls_next;
use crate::policy::Policy;
use crate::starts::{change, renewals};
use crate::state::{Ends, State};
use crate::todo::Next;
use crate::unmet::stuck_of;
use dnssec_keyset::Key;
use dnssec_run::keys_in_order;
use std::alloc::{AllocError, Global};

/// What the policy says to do next for the zone in this state: the most urgent call to make, set to
/// publish or to watch, key to make or moment to wait for. Otherwise `Stuck` with why nothing is
/// done that the policy wants, or `Rest` if all is as it wants. `Stuck` also takes the place of a
/// moment if its cause doesn't go away by itself. After a call made by hand it is always `Stuck`
/// with `Why::ByHand`. Nothing is changed here.
///
/// # Errors
///
/// If there is no memory.
pub fn next<'a>(alloc: Global, policy: &Policy, state: &State<'a>) -> Result<Next<'a>, AllocError>
    ensures { IfOk result (λ next. (end : AnyRoll → Option AnyEnd)
        × ((roll : AnyRoll) → SaysEnd roll state.now.keyset.now (end roll))
        × (todo_of state.now.moment next
        ≡ answer_of policy.now state.now.by_hand.at (view_of state.now end))) }
{
    let ends = Ends::of_keyset(state.keyset);
    let keys = keys_in_order(alloc, state.keyset.keys())?;
    let next = of_keys(alloc, policy, state, &ends, &keys)?;
    Ok(next)
}

/// What the policy says to do next for the zone in this state: what `next` answers. `ends` says
/// when the waits of the rolls are over. `keys` are all keys of the zone's key set, each after its
/// reference, in the order of the references. It fails only if memory runs out.
fn of_keys<'a>(
    alloc: Global,
    policy: &Policy,
    state: &State<'a>,
    ends: &Ends,
    keys: &[(&'a String, &'a Key)],
) -> Result<Next<'a>, AllocError>
    ensures { IfOk result (λ next. AreKeysOf state.now.keyset.now keys.now
        → todo_of state.now.moment next
        ≡ answer_of policy.now state.now.by_hand.at (view_of state.now (end_of ends.now))) }
{
    let change = change(alloc, policy, state, keys)?;
    let renewals = renewals(alloc, policy, state, keys)?;
    let one = rolls_next(state, ends).or(deletions(policy, state, keys));
    let two = one.or(change);
    let three = two.or(renewals);
    let why = stuck_of(policy, state, ends, keys);
    let next = three.or(Next::without(why));
    Ok(next.unless_lasting(why).unless_by_hand(state.by_hand))
}
