//! The words of a roll's column. `specs/Inner/Columns` gives each the meaning that it has in
//! `specs/RollTable`.
use crate::roll::{Action, Side, Want};
use dnssec_base::Stamp;

/// A test of one role. `Kept` says that it isn't old, `Leaving` that it is old but not stale yet,
/// and `Silent` that it doesn't sign.
#[derive(Clone, Copy)]
pub(crate) enum RoleTest {
    Old,
    KeptPresent,
    KeptSigning,
    KeptAtParent,
    LeavingOrKeptPresent,
    LeavingOrKeptAtParent,
    OldPresent,
    OldAtParent,
    OldSilent,
}

/// The keys with a role that passes.
#[derive(Clone, Copy)]
pub(crate) enum KeyTest {
    /// KSKs, but no CSKs.
    Ksk(RoleTest),
    /// ZSKs, but no CSKs.
    Zsk(RoleTest),
    /// KSKs and CSKs, by their KSK role.
    KskRole(RoleTest),
    /// ZSKs and CSKs, by their ZSK role.
    ZskRole(RoleTest),
    /// All keys of this signer, by their first role.
    AnyKey(RoleTest),
    /// ZSKs and CSKs, by their first role.
    ZoneKey(RoleTest),
    /// Keys of which the KSK role passes the one, or the ZSK role the other.
    EitherRole(RoleTest, RoleTest),
}

/// What happens to one role.
#[derive(Clone, Copy)]
pub(crate) enum RoleMove {
    /// No flag changes.
    Stays,
    /// Sets `old`.
    TurnsOld,
    /// Clears `old`.
    TurnsBack,
    /// Sets `present`.
    ComesIn,
    /// Sets `present` and `signer`.
    ComesInSigning,
    /// Sets `at_parent`.
    DsComesIn,
    /// In a role that is present: clears `at_parent` if the role is old, and else sets it.
    DsFollows,
    /// Clears `signer` in an old role, and sets it in one that is present and not old.
    SignaturesFollow,
    /// Clears `present` and `signer` in an old role that is present. Sets both in a role that isn't
    /// old and has `at_parent`.
    KeysChangePlaces,
    /// Clears `present` and `signer`.
    LeavesDnskey,
    /// Clears `at_parent`.
    LeavesParent,
    /// Clears `present`. `signer` stays as it is.
    LeavesSilently,
    /// Clears `present` and `signer` in a role that passes the test.
    LeavesDnskeyIf(RoleTest),
    /// Clears `at_parent` in a role that passes the test.
    LeavesParentIf(RoleTest),
    /// Clears `present` in a role that passes the test.
    LeavesSilentlyIf(RoleTest),
    /// An operator sets `present` by hand.
    SetPresent(bool),
    /// An operator sets `signer` by hand.
    SetSigner(bool),
    /// An operator sets `at_parent` by hand.
    SetAtParent(bool),
    /// An operator sets `old` by hand. It clears `present`, `signer` and `at_parent`.
    SetStale,
}

/// What happens to which roles of a key.
#[derive(Clone, Copy)]
pub(crate) enum KeyMove {
    NoRole,
    /// The role of a KSK, but not of a CSK.
    AtKsk(RoleMove),
    /// The role of a ZSK, but not of a CSK.
    AtZsk(RoleMove),
    /// The one to each KSK role, the other to each ZSK role.
    AtRoles(RoleMove, RoleMove),
    AtEachRole(RoleMove),
    /// Each role of a key of this signer whose first role passes.
    AtEachRoleIf(RoleTest, RoleMove),
    /// Each state, also that of another signer's key.
    AtEachState(RoleMove),
}

/// Which stamps an event writes: each on the keys that pass.
pub(crate) type Writes = &'static [(Stamp, KeyTest)];

/// Half of a roll: a change spreads and is reported, then old data leaves the caches.
pub(crate) struct HalfRoll {
    /// The stamps that the report writes.
    pub(crate) report: Writes,
    /// The keys that the wait checks.
    pub(crate) checks: KeyTest,
    /// The stamp that it reads of them.
    pub(crate) reads: Stamp,
    /// What happens once the wait is over.
    pub(crate) moves: KeyMove,
    /// Whether that may change which keys that stay are in the DNSKEY set or have a DS.
    pub(crate) moves_kept: bool,
    /// The stamps that it writes then.
    pub(crate) writes: Writes,
}

/// A roll: its start, its two halves, and the actions due.
pub struct Column {
    /// Its name in a script.
    pub(crate) name: &'static str,
    /// Which keys it changes.
    pub side: Side,
    /// What its start has to leave.
    pub wants: &'static [Want],
    /// Whether its new keys may have other algorithms than its old ones.
    pub changes_algorithms: bool,
    /// What a start puts on a new key.
    pub(crate) comes: KeyMove,
    /// Whether it publishes the key, and so writes that stamp on it.
    pub(crate) publishes: bool,
    /// The actions due after the start.
    pub asks: &'static [Action],
    /// What an early end takes from a new key.
    pub(crate) goes: KeyMove,
    /// What it takes from an old one.
    pub(crate) returns: KeyMove,
    /// The actions due after an early end.
    pub(crate) asks_early: &'static [Action],
    pub(crate) first: HalfRoll,
    /// The actions due after the first wait.
    pub(crate) asks_between: &'static [Action],
    pub(crate) second: HalfRoll,
    /// The actions due after the second wait.
    pub(crate) asks_last: &'static [Action],
}
