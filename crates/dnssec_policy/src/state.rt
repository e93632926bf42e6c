//! What is known of a zone when a policy says what to do next.
ghost use Rattle.std.specs.Prelude.{◌≡◌};
ghost use Rattle.dnssec_key.specs.declared.roll.RollType.{RollType as AnyRoll};
ghost use Rattle.dnssec_keyset.specs.WaitEnd.{SaysEnd};
ghost use Rattle.dnssec_policy.specs.Code.{end_of};

use crate::by_hand::FirstByHand;
use crate::last_waits::LastWaits;
use crate::ttls::HighestTtls;
use dnssec_keyset::{KeySet, RollType, UnixTime, WaitEnd};
use dnssec_network::{Notes, Steps};

/// What is known of a zone at a moment.
#[derive(Drop)]
pub struct State<'a> {
    pub keyset: &'a KeySet,
    /// The last steps of the record of this key set.
    pub steps: Steps,
    /// The last second waits of that record.
    pub last_waits: LastWaits,
    /// The first call of that record that was made by hand.
    pub by_hand: FirstByHand,
    pub notes: &'a Notes,
    /// The highest TTLs of these notes.
    pub highest: HighestTtls,
    pub moment: UnixTime,
}

/// When the waits of the rolls are over.
#[derive(Clone, Copy)]
pub(crate) struct Ends {
    by_roll: [Option<WaitEnd>; 6],
}

impl Ends {
    /// When the wait of each roll of this key set is over, if the roll is in a phase that waits. It
    /// asks the key set once for each roll.
    pub(crate) fn of_keyset(keyset: &KeySet) -> Self
        ensures { (roll : AnyRoll) → SaysEnd roll keyset.now (end_of result roll) }
    {
        Ends {
            by_roll: [
                keyset.wait_end(RollType::KskRoll),
                keyset.wait_end(RollType::KskDoubleDsRoll),
                keyset.wait_end(RollType::ZskRoll),
                keyset.wait_end(RollType::ZskDoubleSignatureRoll),
                keyset.wait_end(RollType::CskRoll),
                keyset.wait_end(RollType::AlgorithmRoll),
            ],
        }
    }

    /// When the wait of `roll` is over. `None` if the roll isn't in progress or not in a phase that
    /// waits, or if a key lacks the stamp that the wait counts from.
    pub(crate) fn of(&self, roll: RollType) -> Option<WaitEnd>
        ensures { result ≡ end_of self.now roll }
    {
        self.by_roll[roll as usize]
    }
}
