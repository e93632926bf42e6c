//! Why something isn't done that a policy wants.
ghost use Rattle.std.specs.Prelude.{◌≡◌, Some};
ghost use Rattle.dnssec_policy.specs.Stuck.{lasts};
ghost use Rattle.dnssec_policy.specs.Texts.{why_text};

use dnssec_key::roll_name;
use dnssec_keyset::RollType;
use std::fmt;

/// Why something isn't done that the policy wants.
#[derive(Clone, Copy, Debug, PartialEq)]
pub enum Why {
    /// It isn't known which step a report of this roll speaks of.
    NoStep { roll: RollType },
    /// The report of this roll needs a TTL that 32 bits can't hold.
    TtlTooLong { roll: RollType },
    /// A key lacks the stamp that the wait of this roll counts from: it was set by hand.
    NoStamp { roll: RollType },
    /// The wait of this roll ends after the last moment that a `UnixTime` can have.
    PastTime { roll: RollType },
    /// It isn't known which call ended the second wait of this roll. Its end counts from that.
    NoLastWait { roll: RollType },
    /// This roll is wanted, and may not begin: it or a roll that excludes it is in progress.
    Barred { roll: RollType },
    /// A role of a key is on its way out, but still signs, is in the DNSKEY set, or has to have a
    /// DS at the parent. No roll takes the key out: it was set by hand.
    OldKeyInUse,
    /// The call at this position, counted from 1, was made by hand: a roll was ended early, or a
    /// flag or a time of a key set.
    ByHand { at: usize },
}

impl Why {
    /// Whether the cause stays until somebody acts. False only for `TtlTooLong`, as a TTL falls
    /// with time, and for `Barred`, as the roll may begin once others are done.
    pub(crate) fn lasts(self) -> bool
        ensures { result ≡ lasts self }
    {
        !matches!(self, Why::TtlTooLong { .. } | Why::Barred { .. })
    }
}

impl fmt::Display for Why {
    ghost output = { λ why. Some (why_text why) };

    /// Writes what a program shows its user, as `ksk-roll may not begin beside the rolls in
    /// progress`.
    fn fmt<W: fmt::Write>(&self, f: &mut fmt::Formatter<W>) -> fmt::Result {
        let (before, roll, after) = match self {
            Why::NoStep { roll } => ("the last step of ", roll, " isn't known"),
            Why::TtlTooLong { roll } => ("", roll, " has to report a TTL of more than 32 bits"),
            Why::NoStamp { roll } => ("a key lacks the stamp for the wait of ", roll, ""),
            Why::PastTime { roll } => ("the wait of ", roll, " ends after all time"),
            Why::NoLastWait { roll } => ("the second wait of ", roll, " isn't known"),
            Why::Barred { roll } => ("", roll, " may not begin beside the rolls in progress"),
            Why::OldKeyInUse => {
                return f.write_str("a key is on its way out, and no roll takes it out");
            }
            Why::ByHand { at } => return write!(f, "call {at} was made by hand"),
        };
        let name = roll_name(*roll);
        write!(f, "{before}{name}{after}")
    }
}
