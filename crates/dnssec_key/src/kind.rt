//! The kinds of keys, their roles, and the state of a key in each of its roles.
ghost use Rattle.std.specs.Prelude.{◌≡◌, Some, false};
ghost use Rattle.std.specs.Option.{option_map_or};
ghost use Rattle.dnssec_key.specs.State.{is_stale, kept_present, kept_at_parent};
ghost use Rattle.dnssec_key.specs.Key.{is_available, new_state};
ghost use Rattle.dnssec_key.specs.Key.{ksk_state, zsk_state, ksk_role_state, zsk_role_state};
ghost use Rattle.dnssec_key.specs.Key.{key_state, zone_key_state};
ghost use Rattle.dnssec_key.specs.Texts.{ending, state_text};

use std::fmt;
use std::marker::Model;

/// Whether a key may come in by a roll.
#[derive(Clone, Copy, Debug, PartialEq, Eq)]
pub enum Available {
    Available,
    NotAvailable,
}

/// The state of a key in one of its roles.
///
/// Before a roll takes it in, a role of an available key is fresh. Then it is in use: it signs, is
/// in the DNSKEY set, or has to have a DS at the parent. Then it is old, and once nothing of it is
/// left, stale.
#[derive(Clone, Copy, Debug, Default, PartialEq)]
pub struct KeyState {
    /// Whether a roll may take the role in.
    pub available: bool,
    /// Whether the role is on its way out.
    pub old: bool,
    /// Whether the key signs in this role: the DNSKEY set as a KSK, the zone as a ZSK.
    pub signer: bool,
    /// Whether the key is in the DNSKEY set.
    pub present: bool,
    /// Whether the parent has to have a DS record for the key.
    pub at_parent: bool,
}

impl Model for KeyState {
    ghost use Rattle.dnssec_key.specs.State.{Flags};

    ghost Value = { Flags };

    ghost view = { λ s. record {
      available = s.available;
      old = s.old;
      signer = s.signer;
      present = s.present;
      at_parent = s.at_parent;
    } };

    ghost inverse = { λ s. record {
      available = s.available;
      old = s.old;
      signer = s.signer;
      present = s.present;
      at_parent = s.at_parent;
    } };
}

/// The state of a role that may come in, and has not begun to.
pub(crate) const FRESH: KeyState = KeyState {
    available: true,
    old: false,
    signer: false,
    present: false,
    at_parent: false,
};

impl KeyState {
    /// The state of a role that no roll has taken in yet. `available` says whether a roll may. No
    /// other flag is set.
    pub fn new(available: Available) -> KeyState
        ensures { result ≡ new_state (is_available available) }
    {
        KeyState {
            available: available == Available::Available,
            ..FRESH
        }
    }

    /// Whether the role is old: on its way out, or already gone.
    pub fn old(&self) -> bool
        ensures { result ≡ self.now.old }
    {
        self.old
    }

    /// Whether the key signs in this role: the DNSKEY set as a KSK, the zone as a ZSK.
    pub fn signer(&self) -> bool
        ensures { result ≡ self.now.signer }
    {
        self.signer
    }

    /// Whether the key is in the DNSKEY set.
    pub fn present(&self) -> bool
        ensures { result ≡ self.now.present }
    {
        self.present
    }

    /// Whether the parent has to have a DS record for the key.
    pub fn at_parent(&self) -> bool
        ensures { result ≡ self.now.at_parent }
    {
        self.at_parent
    }

    /// Whether the role has left: it is old, doesn't sign, isn't in the DNSKEY set and has no DS at
    /// the parent.
    pub fn stale(&self) -> bool
        ensures { result ≡ is_stale self.now }
    {
        self.old && !self.signer && !self.present && !self.at_parent
    }
}

/// Whether a key has this role, and in it is in the DNSKEY set and not old. `role` is the state of
/// the role, or `None` if the key doesn't have it.
pub fn is_kept_present(role: Option<KeyState>) -> bool
    ensures { result ≡ option_map_or kept_present role false }
{
    role.is_some_and(|state| !state.old && state.present)
}

/// Whether a key has this role, and in it has to have a DS at the parent and is not old. `role` is
/// the state of the role, or `None` if the key doesn't have it.
pub fn is_kept_at_parent(role: Option<KeyState>) -> bool
    ensures { result ≡ option_map_or kept_at_parent role false }
{
    role.is_some_and(|state| !state.old && state.at_parent)
}

impl fmt::Display for KeyState {
    ghost output = { λ s. Some (state_text s) };

    /// Writes to `f` the flags that are set, except `available`, and the part that such a key plays
    /// in a roll, as `Signer, Present (Active)`. It fails only if a write to `f` fails.
    fn fmt<W: fmt::Write>(&self, f: &mut fmt::Formatter<W>) -> fmt::Result {
        let words = [
            (self.old, "Old"),
            (self.signer, "Signer"),
            (self.present, "Present"),
            (self.at_parent, "At Parent"),
        ];
        let mut separator = "";
        for (is_set, word) in words {
            if is_set {
                write!(f, "{separator}{word}")?;
                separator = ", ";
            }
        }
        f.write_str(self.ending())
    }
}

impl KeyState {
    /// The end of the state's text: the part that such a role plays in a roll. A role that isn't
    /// old is `(Future)`, ` (Incoming)` once it is present, and ` (Active)` if it also signs. An
    /// old one is ` (Leaving)` while it is present and signs, ` (Retired)` if it is only present,
    /// and then ` (Stale)`, also if it still has a DS. The text is empty for a role that signs but
    /// isn't present.
    fn ending(&self) -> &'static str
        ensures { result.now ≡ ending self.now.old self.now.signer self.now.present }
    {
        match (self.old, self.signer, self.present) {
            (false, false, false) => "(Future)",
            (false, false, true) => " (Incoming)",
            (false, true, true) => " (Active)",
            (true, true, true) => " (Leaving)",
            (true, false, true) => " (Retired)",
            (true, false, false) => " (Stale)",
            (_, true, false) => "",
        }
    }
}

/// The kind of a key, with the state of each of its roles.
#[derive(Clone, Copy, Debug, PartialEq)]
pub enum KeyType {
    /// A key signing key: it signs the DNSKEY set, and the parent's DS names it.
    Ksk(KeyState),
    /// A zone signing key.
    Zsk(KeyState),
    /// Both in one: its KSK role, then its ZSK role.
    Csk(KeyState, KeyState),
    /// A key of another signer, which may be published beside those of the set.
    Include(KeyState),
}

/// The roles of a key, as the table of rolls names them.
impl KeyType {
    /// The state of a KSK, or `None` for a key of any other kind, also for a CSK.
    pub fn ksk(&self) -> Option<KeyState>
        ensures { result ≡ ksk_state self.now }
    {
        match *self {
            KeyType::Ksk(state) => Some(state),
            KeyType::Zsk(_) | KeyType::Csk(_, _) | KeyType::Include(_) => None,
        }
    }

    /// The state of a ZSK, or `None` for a key of any other kind, also for a CSK.
    pub fn zsk(&self) -> Option<KeyState>
        ensures { result ≡ zsk_state self.now }
    {
        match *self {
            KeyType::Zsk(state) => Some(state),
            KeyType::Ksk(_) | KeyType::Csk(_, _) | KeyType::Include(_) => None,
        }
    }

    /// The state of the KSK role of a KSK or a CSK, or `None` for a key without this role.
    pub fn ksk_role(&self) -> Option<KeyState>
        ensures { result ≡ ksk_role_state self.now }
    {
        match *self {
            KeyType::Ksk(state) | KeyType::Csk(state, _) => Some(state),
            KeyType::Zsk(_) | KeyType::Include(_) => None,
        }
    }

    /// The state of the ZSK role of a ZSK or a CSK, or `None` for a key without this role.
    pub fn zsk_role(&self) -> Option<KeyState>
        ensures { result ≡ zsk_role_state self.now }
    {
        match *self {
            KeyType::Zsk(state) | KeyType::Csk(_, state) => Some(state),
            KeyType::Ksk(_) | KeyType::Include(_) => None,
        }
    }

    /// The state that says whether a key of this signer is in the DNSKEY set: its only one, or of a
    /// CSK that of its KSK role. `None` for another signer's key.
    pub(crate) fn first_role(&self) -> Option<KeyState>
        ensures { result ≡ key_state self.now }
    {
        match *self {
            KeyType::Ksk(state) | KeyType::Zsk(state) | KeyType::Csk(state, _) => Some(state),
            KeyType::Include(_) => None,
        }
    }

    /// The state that says whether a key that can sign the zone is in the DNSKEY set: of a ZSK its
    /// only one, of a CSK that of its KSK role. `None` for a KSK and for another signer's key.
    pub(crate) fn first_role_of_zone_key(&self) -> Option<KeyState>
        ensures { result ≡ zone_key_state self.now }
    {
        match *self {
            KeyType::Zsk(state) | KeyType::Csk(state, _) => Some(state),
            KeyType::Ksk(_) | KeyType::Include(_) => None,
        }
    }
}
