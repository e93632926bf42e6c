//! What a roll or a setter does to one key. First what each test and each move in a roll's column
//! means, then the changes that a key set makes by them. These are functions, and no methods of
//! `Key`, so that only our crates reach them: whoever has a key set can't change a key outside its
//! calls.
ghost use Rattle.std.specs.Prelude.{◌≡◌, false};
ghost use Rattle.std.specs.Option.{option_map_or};
ghost use Rattle.dnssec_key.specs.RollTable.{leaves_dnskey, half_of, after_end, key_by};
ghost use Rattle.dnssec_key.specs.RollTable.{old_at_start, new_at_early_end, old_at_early_end};
ghost use Rattle.dnssec_key.specs.Setters.{setting_of, set_by};
ghost use Rattle.dnssec_key.specs.Stamping.{stamps_after};
ghost use Rattle.dnssec_key.specs.Inner.Columns.{test_of, keys_of, move_of, change_of, writes_of};
ghost use Rattle.dnssec_key.specs.Inner.Columns.{column_of};

use crate::column::KeyMove::{AtEachRole, AtEachState, AtRoles};
use crate::column::RoleMove::{SetAtParent, SetPresent, SetSigner, SetStale, Stays, TurnsOld};
use crate::column::{Column, KeyMove, KeyTest, RoleMove, RoleTest};
use crate::key::Key;
use crate::kind::{KeyState, KeyType};
use crate::roll::{Half, PhaseEnd, RollType};
use crate::setting::Setting;
use dnssec_base::{KeyTimestamps, Stamp, UnixTime, write_stamp};

impl RoleTest {
    /// Whether a role in this state passes the test, by its flags. In the names of the tests,
    /// `Kept` says not old, `Leaving` old but not stale, and `Silent` not signing.
    #[inline(always)]
    fn passes(self, state: KeyState) -> bool
        ensures { result ≡ test_of self state }
    {
        match self {
            RoleTest::Old => state.old,
            RoleTest::KeptPresent => !state.old && state.present,
            RoleTest::KeptSigning => !state.old && state.signer,
            RoleTest::KeptAtParent => !state.old && state.at_parent,
            RoleTest::LeavingOrKeptPresent => {
                (state.old && !state.stale()) || (!state.old && state.present)
            }
            RoleTest::LeavingOrKeptAtParent => {
                (state.old && !state.stale()) || (!state.old && state.at_parent)
            }
            RoleTest::OldPresent => state.old && state.present,
            RoleTest::OldAtParent => state.old && state.at_parent,
            RoleTest::OldSilent => state.old && !state.signer,
        }
    }

    /// Whether a key passes the test in a role. `role` is the state of that role, or `None` if the
    /// key doesn't have it: then it doesn't pass.
    #[inline(always)]
    fn is_passed_by(self, role: Option<KeyState>) -> bool
        ensures { result ≡ option_map_or (test_of self) role false }
    {
        match role {
            Some(state) => self.passes(state),
            None => false,
        }
    }
}

impl KeyTest {
    /// Whether the test selects a key of this kind, with these states of its roles: it has the role
    /// that the test names, and this role passes. For `EitherRole` one of the two roles is enough.
    #[inline(always)]
    pub(crate) fn has(self, key: &KeyType) -> bool
        ensures { result ≡ keys_of self key.now }
    {
        match self {
            KeyTest::Ksk(test) => test.is_passed_by(key.ksk()),
            KeyTest::Zsk(test) => test.is_passed_by(key.zsk()),
            KeyTest::KskRole(test) => test.is_passed_by(key.ksk_role()),
            KeyTest::ZskRole(test) => test.is_passed_by(key.zsk_role()),
            KeyTest::AnyKey(test) => test.is_passed_by(key.first_role()),
            KeyTest::ZoneKey(test) => test.is_passed_by(key.first_role_of_zone_key()),
            KeyTest::EitherRole(ksk, zsk) => {
                ksk.is_passed_by(key.ksk_role()) || zsk.is_passed_by(key.zsk_role())
            }
        }
    }
}

/// Writes the moment `now` into `stamps` for each stamp in `writes` whose test the key passes. Its
/// other stamps stay. `key` is the kind of the key, with the states that its roles have before the
/// event.
// Most waits write none, and so make no call.
#[inline(always)]
#[tactic(auto, using(std::proofs::lemmas::Grind::common_steps, crate::proofs::Stampings::put_last))]
fn write_stamps(
    writes: &[(Stamp, KeyTest)],
    key: &KeyType,
    now: UnixTime,
    stamps: &mut KeyTimestamps,
)
    ensures { stamps.new ≡ stamps_after (writes_of writes.now) key.now now stamps.old }
{
    for (stamp, keys) in writes {
        if keys.has(key) {
            write_stamp(stamps, *stamp, now);
        }
    }
}

impl RoleMove {
    /// Makes this move on one role of a key, whose flags are in `state`. It changes only the flags
    /// that `RoleMove` says for the move. If the move asks for flags that the role doesn't have, as
    /// `LeavesParentIf` asks for a test to pass, `state` stays as it is.
    fn at(self, state: &mut KeyState)
        ensures { state.exit.now ≡ move_of self state.entry.now }
    {
        match self {
            RoleMove::Stays => {}
            RoleMove::TurnsOld => state.old = true,
            RoleMove::TurnsBack => state.old = false,
            RoleMove::ComesIn => state.present = true,
            RoleMove::ComesInSigning => {
                state.present = true;
                state.signer = true;
            }
            RoleMove::DsComesIn => state.at_parent = true,
            RoleMove::DsFollows => {
                if state.present {
                    state.at_parent = !state.old;
                }
            }
            RoleMove::SignaturesFollow => {
                if state.old {
                    state.signer = false;
                } else if state.present {
                    state.signer = true;
                }
            }
            RoleMove::KeysChangePlaces => {
                if state.old && state.present {
                    leaves_dnskey(state);
                } else if !state.old && state.at_parent {
                    state.present = true;
                    state.signer = true;
                }
            }
            RoleMove::LeavesDnskey => leaves_dnskey(state),
            RoleMove::LeavesParent => state.at_parent = false,
            RoleMove::LeavesSilently => state.present = false,
            RoleMove::LeavesDnskeyIf(test) => {
                if test.passes(*state) {
                    leaves_dnskey(state);
                }
            }
            RoleMove::LeavesParentIf(test) => {
                if test.passes(*state) {
                    state.at_parent = false;
                }
            }
            RoleMove::LeavesSilentlyIf(test) => {
                if test.passes(*state) {
                    state.present = false;
                }
            }
            RoleMove::SetPresent(value) => state.present = value,
            RoleMove::SetSigner(value) => state.signer = value,
            RoleMove::SetAtParent(value) => state.at_parent = value,
            RoleMove::SetStale => {
                state.old = true;
                state.at_parent = false;
                leaves_dnskey(state);
            }
        }
    }
}

/// Takes a role out of the DNSKEY set and lets it sign no more: clears `present` and `signer` in
/// `state`. Its other flags stay.
fn leaves_dnskey(state: &mut KeyState)
    ensures { state.exit.now ≡ leaves_dnskey state.entry.now }
{
    state.present = false;
    state.signer = false;
}

impl KeyMove {
    /// Makes this move on the roles of `key` that it is about. Other roles stay, and so does the
    /// whole key if it has no such role. Only `AtEachState` changes another signer's key.
    #[inline(always)]
    pub(crate) fn at(self, key: &mut KeyType)
        ensures { key.new ≡ change_of self key.old }
    {
        let (ksk, zsk) = match (self, &*key) {
            (KeyMove::AtKsk(does), KeyType::Ksk(_)) => (does, Stays),
            (KeyMove::AtZsk(does), KeyType::Zsk(_)) => (Stays, does),
            (KeyMove::AtRoles(ksk, zsk), _) => (ksk, zsk),
            (KeyMove::AtEachRole(does) | KeyMove::AtEachState(does), _) => (does, does),
            (KeyMove::AtEachRoleIf(test, does), key) if test.is_passed_by(key.first_role()) => {
                (does, does)
            }
            _ => return,
        };
        match key {
            KeyType::Ksk(state) => ksk.at(state),
            KeyType::Zsk(state) => zsk.at(state),
            KeyType::Csk(ksk_state, zsk_state) => {
                ksk.at(ksk_state);
                zsk.at(zsk_state);
            }
            KeyType::Include(state) => {
                if let KeyMove::AtEachState(does) = self {
                    does.at(state);
                }
            }
        }
    }
}

/// Changes `key` by hand as `setting` says. `Present` and `Signer` write this flag in each role,
/// `AtParent` only in a KSK role. `Stale` sets `old` and clears these three flags in each role. The
/// other settings write `decoupled` or one stamp. A key that is set present is also stamped as
/// published at that moment, unless it has this stamp. The kind of the key isn't checked:
/// `Setting::suits` has to hold before.
pub fn apply_setting(key: &mut Key, setting: &Setting)
    ensures { key.new ≡ set_by (setting_of setting.now) key.old }
{
    match *setting {
        Setting::Decoupled(value) => key.decoupled = value,
        Setting::Present(value, now) => {
            AtEachState(SetPresent(value)).at(&mut key.keytype);
            if value && key.timestamps.published().is_none() {
                write_stamp(&mut key.timestamps, Stamp::Published, now);
            }
        }
        Setting::Signer(value) => AtEachState(SetSigner(value)).at(&mut key.keytype),
        Setting::AtParent(value) => AtRoles(SetAtParent(value), Stays).at(&mut key.keytype),
        Setting::Stale => AtEachState(SetStale).at(&mut key.keytype),
        Setting::VisibleAt(time) => write_stamp(&mut key.timestamps, Stamp::Visible, time),
        Setting::DsVisibleAt(time) => write_stamp(&mut key.timestamps, Stamp::DsVisible, time),
        Setting::RrsigVisibleAt(time) => {
            write_stamp(&mut key.timestamps, Stamp::RrsigVisible, time);
        }
    }
}

/// Marks `key` as one that the start of a roll lists as old: each of its roles is then old, that is
/// on its way out. Its other flags and its stamps stay. Another signer's key stays as it is.
pub fn mark_old(key: &mut Key)
    ensures { key.new ≡ old_at_start key.old }
{
    AtEachRole(TurnsOld).at(&mut key.keytype);
}

/// Marks `key` as one that the start of a roll at the moment `now` lists as new. `column` is that
/// of the roll: it says which of `present`, `signer` and `at_parent` are set in the key's roles,
/// and whether the key is stamped as published at `now`. Its other flags and stamps stay.
pub fn mark_new(key: &mut Key, column: &Column, now: UnixTime)
    ensures { key.new
        ≡ key_by (column_of column.now).comes (column_of column.now).writes now key.old }
{
    column.comes.at(&mut key.keytype);
    if column.publishes {
        write_stamp(&mut key.timestamps, Stamp::Published, now);
    }
}

/// Undoes what the start of `roll` did to an old key, if the roll is ended early: clears `old` in
/// the roles of `key` that `roll` changes. The other flags and the stamps of `key` stay. A key that
/// was old before the start isn't to be given here.
pub fn unmark_old(key: &mut Key, roll: RollType)
    ensures { key.new ≡ old_at_early_end roll key.old }
{
    roll.column().returns.at(&mut key.keytype);
}

/// Undoes what the start of `roll` did to a new key, if the roll is ended early: clears those of
/// `present`, `signer` and `at_parent` that the start of such a roll sets in the key's roles. The
/// other flags and the stamps of `key` stay.
pub fn unmark_new(key: &mut Key, roll: RollType)
    ensures { key.new ≡ new_at_early_end roll key.old }
{
    roll.column().goes.at(&mut key.keytype);
}

/// Changes `key` as the end of a phase in this half of `roll` does, at the moment `now`. A report
/// only writes stamps. The end of a wait writes stamps and changes flags of the key's roles. What
/// it does depends on the kind of the key and on its flags before.
pub fn end_phase(key: &mut Key, end: PhaseEnd, roll: RollType, half: Half, now: UnixTime)
    ensures { key.new ≡ after_end end roll half now key.old }
{
    let half_roll = roll.half(half);
    match end {
        PhaseEnd::Report(_) => {
            write_stamps(half_roll.report, &key.keytype, now, &mut key.timestamps);
        }
        PhaseEnd::Wait => {
            write_stamps(half_roll.writes, &key.keytype, now, &mut key.timestamps);
            half_roll.moves.at(&mut key.keytype);
        }
    }
}

/// Whether the wait in this half of `roll` checks the key, by its kind and flags. The wait is over
/// once the reported TTL has passed since the stamp `stamp_read` of each such key.
#[inline(always)]
pub fn is_checked(key: &Key, roll: RollType, half: Half) -> bool
    ensures { result ≡ (half_of roll half).checks key.now.keytype }
{
    roll.half(half).checks.has(&key.keytype)
}
