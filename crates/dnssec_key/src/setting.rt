//! What an operator sets on a key by hand.
ghost use Rattle.std.specs.Prelude.{◌≡◌};
ghost use Rattle.dnssec_key.specs.Setters.{setting_of, is_flag_setting, suits_kind};

use crate::kind::KeyType;
use dnssec_base::UnixTime;

/// What a setter of the key set, which an operator calls by hand, sets on one key.
#[derive(Clone, Copy)]
pub enum Setting {
    /// Whether the key is decoupled from the caller's storage of keys.
    Decoupled(bool),
    /// Whether the key is in the DNSKEY set, and the moment at which the operator says so.
    Present(bool, UnixTime),
    /// Whether the key signs, in each of its roles.
    Signer(bool),
    /// Whether the parent has to have a DS record for the key.
    AtParent(bool),
    /// The key is old, and neither signs, nor is in the DNSKEY set, nor has a DS at the parent.
    Stale,
    /// Since when all servers have the key in the DNSKEY set.
    VisibleAt(UnixTime),
    /// Since when all servers of the parent have the key's DS record.
    DsVisibleAt(UnixTime),
    /// Since when all servers have the signatures by the key.
    RrsigVisibleAt(UnixTime),
}

impl Setting {
    /// Whether the setter changes flags of the key's roles: present, signer, DS at the parent, or
    /// stale. It doesn't if it only writes a stamp, or whether the key is decoupled.
    pub fn sets_flag(&self) -> bool
        ensures { result ≡ is_flag_setting (setting_of self.now) }
    {
        matches!(
            self,
            Setting::Present(_, _) | Setting::Signer(_) | Setting::AtParent(_) | Setting::Stale
        )
    }

    /// Whether the setter may be used on a key of this kind: only a key of this signer may sign,
    /// and only a KSK or a CSK may have a DS at the parent. The other setters suit every key.
    pub fn suits(&self, key: &KeyType) -> bool
        ensures { result ≡ suits_kind (setting_of self.now) key.now }
    {
        match self {
            Setting::Signer(_) => !matches!(key, KeyType::Include(_)),
            Setting::AtParent(_) => matches!(key, KeyType::Ksk(_) | KeyType::Csk(_, _)),
            _ => true,
        }
    }
}
