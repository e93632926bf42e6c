//! Calls that a person makes by hand.
ghost use Rattle.std.specs.Prelude.{◌≡◌, None};
ghost use Rattle.std.specs.Option.{option_or};
ghost use Rattle.dnssec_run.specs.Record.{is_accepted};
ghost use Rattle.dnssec_policy.specs.ByHand.{at_if_by_hand, is_by_hand, is_others};
ghost use Rattle.dnssec_policy.specs.Laws.{FirstFollows};

use dnssec_keyset::{KeySet, KeyType};
use dnssec_run::{Call, Reply};

/// The first call that a person made by hand, as its position: no law says what may follow it.
///
/// ```rust
/// let is_by_hand = FirstByHand::is_by_hand(recorder.keyset(), &call);
/// let outcome = recorder.advance(alloc, call)?;
/// at += 1;
/// by_hand = by_hand.after(is_by_hand, &outcome.reply, at);
/// ```
#[derive(Clone, Copy, Debug)]
pub struct FirstByHand {
    at: Option<usize>,
}

impl FirstByHand {
    /// The value before the first call of a zone: no call was made by hand so far.
    pub fn new() -> Self
        ensures { result.at ≡ None }
    {
        FirstByHand { at: None }
    }

    /// Whether a call is by hand, as no policy says it: `AbortRoll` ends a roll early, and the
    /// calls `Set..` set a flag or a time of a key. Two of these aren't by hand: `SetDecoupled`,
    /// and `SetPresent` for another signer's key. `keyset` is the key set before the call. Whether
    /// the call is accepted doesn't count.
    pub fn is_by_hand(keyset: &KeySet, call: &Call<'_>) -> bool
        ensures { result ≡ is_by_hand keyset.now call.now }
    {
        match call {
            Call::SetPresent { pubref, .. } => !is_others(keyset, *pubref),
            Call::SetSigner { .. }
            | Call::SetAtParent { .. }
            | Call::SetStale { .. }
            | Call::SetVisible { .. }
            | Call::SetDsVisible { .. }
            | Call::SetRrsigVisible { .. }
            | Call::AbortRoll { .. } => true,
            _ => false,
        }
    }

    /// The position of the first call made by hand, counted from 1 for the first call of the zone.
    /// `None` if no call was made by hand.
    pub fn position(self) -> Option<usize>
        ensures { result ≡ self.at }
    {
        self.at
    }

    /// The first call made by hand, once one more call was made. `is_by_hand` says whether that
    /// call is by hand, `reply` is its answer, and `at` is its position, counted from 1 for the
    /// first call of the zone. A refused call doesn't count. If there was a first call by hand
    /// already, it stays.
    pub fn after(self, is_by_hand: bool, reply: &Reply, at: usize) -> Self
        ensures { FirstFollows self is_by_hand reply.now at result }
    {
        FirstByHand {
            at: self.at.or(at_if_by_hand(is_by_hand, reply, at)),
        }
    }
}

/// `at`, the position of a call, if `is_by_hand` says that it was made by hand, and `reply` says
/// that it was accepted. `None` if it wasn't by hand, or was refused.
fn at_if_by_hand(is_by_hand: bool, reply: &Reply, at: usize) -> Option<usize>
    ensures { result ≡ at_if_by_hand is_by_hand reply.now at }
{
    match reply {
        Reply::Done | Reply::Actions(_) if is_by_hand => Some(at),
        _ => None,
    }
}

/// Whether `reference` names a key of another signer in the key set. It is false if it names no
/// key.
fn is_others(keyset: &KeySet, reference: &str) -> bool
    ensures { result ≡ is_others keyset.now reference.now }
{
    match keyset.keys().get(reference) {
        Some(key) => matches!(key.keytype(), KeyType::Include(_)),
        None => false,
    }
}
