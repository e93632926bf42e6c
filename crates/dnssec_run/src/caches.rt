//! The kinds of sets that caches hold of a record, and what a report retires of them.
ghost use Rattle.std.specs.Prelude.{◌≡◌};
ghost use Rattle.dnssec_key.specs.RollTable.{is_second};
ghost use Rattle.dnssec_run.specs.Asked.{report_of};
ghost use Rattle.dnssec_run.specs.ByKind.{at_kind};
ghost use Rattle.dnssec_run.specs.Safe.{kind_of, retires};

use dnssec_keyset::{Action, Half, RollState, RollType};

/// The kinds of sets that caches hold.
#[derive(Clone, Copy, Debug, PartialEq, Eq)]
pub enum SetKind {
    /// A DS set.
    Ds,
    /// A DNSKEY set with its signers.
    Dnskey,
    /// The keys that sign the zone.
    ZoneSigners,
}

/// One value for each kind of sets.
#[derive(Clone, Copy, Debug, Drop, PartialEq, Eq)]
pub struct ByKind<T> {
    pub ds: T,
    pub dnskey: T,
    pub zone: T,
}

impl<T: Copy> ByKind<T> {
    /// The value that belongs to sets of the kind `kind`.
    pub fn of(self, kind: SetKind) -> T
        ensures { result ≡ at_kind self (kind_of kind) }
    {
        match kind {
            SetKind::Ds => self.ds,
            SetKind::Dnskey => self.dnskey,
            SetKind::ZoneSigners => self.zone,
        }
    }
}

/// Whether the report of this half of a roll retires older sets of the kind `kind`: those that were
/// published before the roll's last start or end of its first wait. It does so for each kind that
/// the actions due before it ask to report. A retired set is in no cache any more once the report's
/// TTL has passed (RFC 6781, section 4.1; RFC 7583, section 3).
///
/// ```rust
/// // After the DS report of a KSK roll and its TTL no cache holds the DS set of before the wait.
/// let retired = retires(RollType::KskRoll, Half::Second, SetKind::Ds);
/// ```
pub fn retires(roll: RollType, half: Half, kind: SetKind) -> bool
    ensures { result ≡ retires roll (is_second half) (kind_of kind) }
{
    let report = report_of(kind);
    match half {
        Half::First => roll.actions_in(RollState::Propagation1).contains(&report),
        Half::Second => roll.actions_in(RollState::Propagation2).contains(&report),
    }
}

/// The action by which a roll asks its operator to report that all servers have the new set of the
/// kind `kind`.
fn report_of(kind: SetKind) -> Action
    ensures { result ≡ report_of (kind_of kind) }
{
    match kind {
        SetKind::Ds => Action::ReportDsPropagated,
        SetKind::Dnskey => Action::ReportDnskeyPropagated,
        SetKind::ZoneSigners => Action::ReportRrsigPropagated,
    }
}
