//! The table of rolls: each roll is one column, as in `specs/RollTable`. `specs/Sides` has the side
//! of a roll, what its start asks, and `moves_kept`; `specs/Texts` its name. What others read of a
//! column stands after it.
#![tactic(auto, unfolding(crate::specs::RollTable::column))]

ghost use Rattle.std.specs.Prelude.{◌≡◌};
ghost use Rattle.dnssec_key.specs.RollTable.{column, half_of, actions_of};
ghost use Rattle.dnssec_key.specs.declared.roll.Half.TheVariants.{First as TheFirst};
ghost use Rattle.dnssec_key.specs.declared.roll.Half.TheVariants.{Second as TheSecond};
ghost use Rattle.dnssec_key.specs.Sides.{side_of, wants, may_change_algorithms, wait_moves_kept};
ghost use Rattle.dnssec_key.specs.Texts.{roll_name, NamesRoll};
ghost use Rattle.dnssec_key.specs.Inner.Columns.{half_roll_of, column_of};

use crate::column::KeyMove::{AtEachRole, AtEachRoleIf, AtKsk, AtRoles, AtZsk, NoRole};
use crate::column::KeyTest::{AnyKey, EitherRole, Ksk, KskRole, ZoneKey, Zsk, ZskRole};
use crate::column::RoleMove::{
    ComesIn, ComesInSigning, DsComesIn, DsFollows, KeysChangePlaces, LeavesDnskey, LeavesDnskeyIf,
    LeavesParent, LeavesParentIf, LeavesSilently, LeavesSilentlyIf, SignaturesFollow, Stays,
    TurnsBack,
};
use crate::column::RoleTest::{
    KeptAtParent, KeptPresent, KeptSigning, LeavingOrKeptAtParent, LeavingOrKeptPresent, Old,
    OldAtParent, OldPresent, OldSilent,
};
use crate::column::{Column, HalfRoll};
use crate::roll::Action::{
    CreateCdsRrset, RemoveCdsRrset, ReportDnskeyPropagated, ReportDsPropagated,
    ReportRrsigPropagated, UpdateDnskeyRrset, UpdateDsRrset, UpdateRrsig, WaitDnskeyPropagated,
    WaitDsPropagated, WaitRrsigPropagated,
};
use crate::roll::Side::{BothSides, KskSide, ZskSide};
use crate::roll::Want::{KskAtParent, PresentKsk, PresentKskRole, PresentZsk, PresentZskRole};
use crate::roll::{Action, Half, RollState, RollType, Side};
use dnssec_base::Stamp::{DsVisible, Published, RrsigVisible, Visible, Withdrawn};
use dnssec_base::{Error, Stamp};
use std::str::FromStr;

/// Double-Signature KSK roll: both sign the DNSKEY set, then the DS moves.
static KSK_DOUBLE_SIGNATURE: Column = Column {
    name: "ksk-roll",
    side: KskSide,
    wants: &[PresentKsk],
    changes_algorithms: false,
    comes: AtKsk(ComesInSigning),
    publishes: true,
    asks: &[UpdateDnskeyRrset, ReportDnskeyPropagated],
    goes: AtKsk(LeavesDnskey),
    returns: AtKsk(TurnsBack),
    asks_early: &[UpdateDnskeyRrset, WaitDnskeyPropagated],
    first: HalfRoll {
        report: &[(Visible, Ksk(KeptPresent))],
        checks: Ksk(LeavingOrKeptPresent),
        reads: Visible,
        moves: AtKsk(DsFollows),
        moves_kept: true,
        writes: &[],
    },
    asks_between: &[CreateCdsRrset, UpdateDsRrset, ReportDsPropagated],
    second: HalfRoll {
        report: &[(DsVisible, Ksk(KeptAtParent))],
        checks: Ksk(LeavingOrKeptAtParent),
        reads: DsVisible,
        moves: AtKsk(LeavesDnskeyIf(OldPresent)),
        moves_kept: false,
        writes: &[(Withdrawn, Ksk(OldPresent))],
    },
    asks_last: &[RemoveCdsRrset, UpdateDnskeyRrset, WaitDnskeyPropagated],
};

/// Double-DS KSK roll: both keys have a DS, then the keys change places.
static KSK_DOUBLE_DS: Column = Column {
    name: "ksk-double-ds-roll",
    side: KskSide,
    wants: &[KskAtParent],
    changes_algorithms: false,
    comes: AtKsk(DsComesIn),
    publishes: false,
    asks: &[CreateCdsRrset, UpdateDsRrset, ReportDsPropagated],
    goes: AtKsk(LeavesParent),
    returns: AtKsk(TurnsBack),
    asks_early: &[CreateCdsRrset, UpdateDsRrset, WaitDsPropagated],
    first: HalfRoll {
        report: &[(DsVisible, Ksk(KeptAtParent))],
        checks: Ksk(KeptAtParent),
        reads: DsVisible,
        moves: AtKsk(KeysChangePlaces),
        moves_kept: true,
        writes: &[(Published, Ksk(KeptAtParent))],
    },
    asks_between: &[RemoveCdsRrset, UpdateDnskeyRrset, ReportDnskeyPropagated],
    second: HalfRoll {
        report: &[(Visible, Ksk(KeptPresent))],
        checks: Ksk(KeptPresent),
        reads: Visible,
        moves: AtKsk(LeavesParentIf(OldAtParent)),
        moves_kept: false,
        writes: &[(Withdrawn, Ksk(OldAtParent))],
    },
    asks_last: &[CreateCdsRrset, UpdateDsRrset, WaitDsPropagated],
};

/// Pre-Publish ZSK roll: the new key is published before it signs.
static ZSK_PRE_PUBLISH: Column = Column {
    name: "zsk-roll",
    side: ZskSide,
    wants: &[PresentZsk],
    changes_algorithms: false,
    comes: AtZsk(ComesIn),
    publishes: true,
    asks: &[UpdateDnskeyRrset, ReportDnskeyPropagated],
    goes: AtZsk(LeavesSilently),
    returns: AtZsk(TurnsBack),
    asks_early: &[UpdateDnskeyRrset, WaitDnskeyPropagated],
    first: HalfRoll {
        report: &[(Visible, Zsk(KeptPresent))],
        checks: Zsk(KeptPresent),
        reads: Visible,
        moves: AtZsk(SignaturesFollow),
        moves_kept: false,
        writes: &[],
    },
    asks_between: &[UpdateRrsig, ReportRrsigPropagated],
    second: HalfRoll {
        report: &[(RrsigVisible, Zsk(KeptSigning))],
        checks: Zsk(KeptSigning),
        reads: RrsigVisible,
        moves: AtZsk(LeavesSilentlyIf(OldSilent)),
        moves_kept: false,
        writes: &[(Withdrawn, Zsk(OldSilent))],
    },
    asks_last: &[UpdateDnskeyRrset, WaitDnskeyPropagated],
};

/// Double-Signature ZSK roll: both keys sign the zone for a while.
static ZSK_DOUBLE_SIGNATURE: Column = Column {
    name: "zsk-double-signature-roll",
    side: ZskSide,
    wants: &[PresentZsk],
    changes_algorithms: false,
    comes: AtZsk(ComesInSigning),
    publishes: true,
    asks: &[
        UpdateDnskeyRrset,
        UpdateRrsig,
        ReportDnskeyPropagated,
        ReportRrsigPropagated,
    ],
    goes: AtZsk(LeavesDnskey),
    returns: AtZsk(TurnsBack),
    asks_early: &[
        UpdateDnskeyRrset,
        UpdateRrsig,
        WaitDnskeyPropagated,
        WaitRrsigPropagated,
    ],
    first: HalfRoll {
        report: &[
            (Visible, Zsk(KeptPresent)),
            (RrsigVisible, Zsk(KeptPresent)),
        ],
        checks: Zsk(KeptPresent),
        reads: Visible,
        moves: AtZsk(LeavesDnskeyIf(Old)),
        moves_kept: false,
        writes: &[(Withdrawn, Zsk(Old))],
    },
    asks_between: &[
        UpdateDnskeyRrset,
        UpdateRrsig,
        ReportDnskeyPropagated,
        ReportRrsigPropagated,
    ],
    second: HalfRoll {
        report: &[],
        checks: Zsk(KeptSigning),
        reads: RrsigVisible,
        moves: NoRole,
        moves_kept: false,
        writes: &[],
    },
    asks_last: &[],
};

/// CSK roll: the DNSKEY set, then DS and signatures.
static CSK_ROLL: Column = Column {
    name: "csk-roll",
    side: BothSides,
    wants: &[PresentKskRole, PresentZskRole],
    changes_algorithms: false,
    comes: AtRoles(ComesInSigning, ComesIn),
    publishes: true,
    asks: &[UpdateDnskeyRrset, ReportDnskeyPropagated],
    goes: AtRoles(LeavesDnskey, LeavesSilently),
    returns: AtEachRole(TurnsBack),
    asks_early: &[UpdateDnskeyRrset, WaitDnskeyPropagated],
    first: HalfRoll {
        report: &[(Visible, AnyKey(KeptPresent))],
        checks: AnyKey(KeptPresent),
        reads: Visible,
        moves: AtRoles(DsFollows, SignaturesFollow),
        moves_kept: true,
        writes: &[],
    },
    asks_between: &[
        CreateCdsRrset,
        UpdateDsRrset,
        UpdateRrsig,
        ReportDsPropagated,
        ReportRrsigPropagated,
    ],
    second: HalfRoll {
        report: &[
            (DsVisible, KskRole(KeptPresent)),
            (RrsigVisible, ZskRole(KeptSigning)),
        ],
        checks: ZskRole(KeptSigning),
        reads: RrsigVisible,
        moves: AtRoles(LeavesDnskeyIf(OldPresent), LeavesSilentlyIf(OldSilent)),
        moves_kept: false,
        writes: &[(Withdrawn, EitherRole(OldPresent, OldSilent))],
    },
    asks_last: &[RemoveCdsRrset, UpdateDnskeyRrset, WaitDnskeyPropagated],
};

/// Algorithm roll: keys and signatures at once, then the DS.
static ALGORITHM_ROLL: Column = Column {
    name: "algorithm-roll",
    side: BothSides,
    wants: &[PresentKskRole, PresentZskRole],
    changes_algorithms: true,
    comes: AtEachRole(ComesInSigning),
    publishes: true,
    asks: &[
        UpdateDnskeyRrset,
        UpdateRrsig,
        ReportDnskeyPropagated,
        ReportRrsigPropagated,
    ],
    goes: AtEachRole(LeavesDnskey),
    returns: AtEachRole(TurnsBack),
    asks_early: &[
        UpdateDnskeyRrset,
        UpdateRrsig,
        WaitDnskeyPropagated,
        WaitRrsigPropagated,
    ],
    first: HalfRoll {
        report: &[
            (Visible, AnyKey(KeptPresent)),
            (RrsigVisible, ZoneKey(KeptPresent)),
        ],
        checks: AnyKey(KeptPresent),
        reads: Visible,
        moves: AtRoles(DsFollows, Stays),
        moves_kept: true,
        writes: &[],
    },
    asks_between: &[CreateCdsRrset, UpdateDsRrset, ReportDsPropagated],
    second: HalfRoll {
        report: &[(DsVisible, KskRole(KeptPresent))],
        checks: KskRole(KeptSigning),
        reads: DsVisible,
        moves: AtEachRoleIf(OldPresent, LeavesDnskey),
        moves_kept: true,
        writes: &[(Withdrawn, AnyKey(OldPresent))],
    },
    asks_last: &[
        RemoveCdsRrset,
        UpdateDnskeyRrset,
        UpdateRrsig,
        WaitDnskeyPropagated,
        WaitRrsigPropagated,
    ],
};

impl RollType {
    /// What the roll does to keys, and which actions are due in it: its column in the table of
    /// rolls.
    pub fn column(self) -> &'static Column
        ensures means { column_of result.now ≡ column self }
        ensures name { result.now.name.now ≡ roll_name self }
        ensures side { result.now.side ≡ side_of self }
        ensures wants { result.now.wants.now ≡ wants self }
        ensures algorithms { result.now.changes_algorithms ≡ may_change_algorithms self }
        ensures asks { result.now.asks.now ≡ (column self).asks }
        ensures kept_first { result.now.first.moves_kept ≡ wait_moves_kept self TheFirst }
        ensures kept_second { result.now.second.moves_kept ≡ wait_moves_kept self TheSecond }
    {
        match self {
            RollType::KskRoll => &KSK_DOUBLE_SIGNATURE,
            RollType::KskDoubleDsRoll => &KSK_DOUBLE_DS,
            RollType::ZskRoll => &ZSK_PRE_PUBLISH,
            RollType::ZskDoubleSignatureRoll => &ZSK_DOUBLE_SIGNATURE,
            RollType::CskRoll => &CSK_ROLL,
            RollType::AlgorithmRoll => &ALGORITHM_ROLL,
        }
    }

    /// What one half of the roll does: the stamps that its report writes, the keys and the stamp
    /// that its wait reads, and what the end of the wait changes.
    pub(crate) fn half(self, half: Half) -> &'static HalfRoll
        ensures means { half_roll_of result.now ≡ half_of self half }
        ensures kept { result.now.moves_kept ≡ wait_moves_kept self half }
    {
        match half {
            Half::First => &self.column().first,
            Half::Second => &self.column().second,
        }
    }

    /// The actions that the roll asks of the operator in `phase`: none while old data leaves the
    /// caches.
    pub fn actions_in(self, phase: RollState) -> &'static [Action]
        ensures { result.now ≡ actions_of self phase }
    {
        match phase {
            RollState::Propagation1 => self.column().asks,
            RollState::Propagation2 => self.column().asks_between,
            RollState::Done => self.column().asks_last,
            RollState::CacheExpire1(_) | RollState::CacheExpire2(_) => &[],
        }
    }

    /// The actions that the operator has to take once the roll is ended early, before its first
    /// report.
    pub fn asks_at_early_end(self) -> &'static [Action]
        ensures { result.now ≡ (column self).asks_early }
    {
        self.column().asks_early
    }
}

/// The stamp of a key from which the wait in this half of `roll` measures the TTL.
pub fn stamp_read(roll: RollType, half: Half) -> Stamp
    ensures { result ≡ (half_of roll half).reads }
{
    roll.half(half).reads
}

/// Whether the end of the wait in this half of `roll` may change which roles that aren't old are in
/// the DNSKEY set or have a DS. If not, a number of such roles from before that end is still right.
pub fn wait_moves_kept(roll: RollType, half: Half) -> bool
    ensures { result ≡ wait_moves_kept roll half }
{
    roll.half(half).moves_kept
}

/// Which keys a roll changes: only KSKs, only ZSKs, or KSKs, ZSKs and CSKs.
pub fn side_of(roll: RollType) -> Side
    ensures { result ≡ side_of roll }
{
    roll.column().side
}

/// The name of a roll in scripts and other texts, such as `ksk-roll`. `from_str` reads it back.
pub fn roll_name(roll: RollType) -> &'static str
    ensures { result.now ≡ roll_name roll }
{
    roll.column().name
}

impl FromStr for RollType {
    type Err = Error;

    ghost from_str_gives = { NamesRoll };

    /// The roll of this name: `ksk-roll`, `ksk-double-ds-roll`, `zsk-roll`,
    /// `zsk-double-signature-roll`, `csk-roll` or `algorithm-roll`. Every other text is refused
    /// with `UnknownRollType`.
    fn from_str(text: &str) -> Result<RollType, Error> {
        match text {
            "ksk-roll" => Ok(RollType::KskRoll),
            "ksk-double-ds-roll" => Ok(RollType::KskDoubleDsRoll),
            "zsk-roll" => Ok(RollType::ZskRoll),
            "zsk-double-signature-roll" => Ok(RollType::ZskDoubleSignatureRoll),
            "csk-roll" => Ok(RollType::CskRoll),
            "algorithm-roll" => Ok(RollType::AlgorithmRoll),
            _ => Err(Error::UnknownRollType),
        }
    }
}
