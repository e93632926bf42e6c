//! Lifetimes that are shorter than a roll takes.
ghost use Rattle.std.specs.Prelude.{◌≡◌, ◌++◌, Some};
ghost use Rattle.dnssec_policy.specs.Text.Lint.{shorter, too_short, ttl_in};
ghost use Rattle.dnssec_policy.specs.Text.Faults.{too_short_text};

use crate::policy::{Policy, Scheme};
use crate::ttls::HighestTtls;
use dnssec_key::roll_name;
use dnssec_keyset::RollType;
use std::fmt;

/// A lifetime that ends before the roll is over that its keys came in by.
#[derive(Clone, Copy, Debug, PartialEq)]
pub struct TooShort {
    /// The roll by which the keys are renewed.
    pub roll: RollType,
    /// In seconds.
    pub lifetime: u64,
    /// How many seconds the two waits of the roll count, by the highest TTLs noted.
    pub takes: u64,
}

impl fmt::Display for TooShort {
    ghost output = { λ fault. Some (too_short_text fault) };

    /// Writes what a program shows its user, as `a lifetime of 3600 seconds is shorter than a
    /// zsk-roll takes: 7202`.
    fn fmt<W: fmt::Write>(&self, f: &mut fmt::Formatter<W>) -> fmt::Result {
        let name = roll_name(self.roll);
        let (lifetime, takes) = (self.lifetime, self.takes);
        write!(
            f,
            "a lifetime of {lifetime} seconds is shorter than a {name} takes: {takes}"
        )
    }
}

impl std::error::Error for TooShort {}

/// The fault of the `lifetime` of the keys that `roll` renews, if it is shorter than `takes`, what
/// the roll takes. Both are in seconds. `None` if it is long enough, or the keys have no lifetime.
fn shorter(roll: RollType, lifetime: Option<u64>, takes: u64) -> Option<TooShort>
    ensures { result ≡ shorter roll lifetime takes }
{
    match lifetime {
        None => None,
        Some(lifetime) => {
            if lifetime < takes {
                Some(TooShort {
                    roll,
                    lifetime,
                    takes,
                })
            } else {
                None
            }
        }
    }
}

/// The first lifetime of the policy that is shorter than its roll takes, by the highest TTLs noted:
/// its keys would have to be renewed before the roll that brought them in is over. KSKs or CSKs
/// come first, then ZSKs. `None` if each lifetime is long enough, or isn't set.
///
/// A roll takes at least its two waits, one after each report. A wait counts as the highest TTL of
/// the sets that its report speaks of and a second (RFC 7583, section 3). After a report on DS sets
/// one more DNSKEY TTL and a second count, for which validators may keep the algorithms of old DS
/// sets. This wait also lasts at least the highest TTL of other sets and a second, as caches keep
/// CDS.
///
/// ```rust
/// if let Some(fault) = too_short(&policy, &highest) {
///     // It is too short by so many seconds.
///     let seconds = fault.takes - fault.lifetime;
/// }
/// ```
pub fn too_short(policy: &Policy, highest: &HighestTtls) -> Option<TooShort>
    ensures { result ≡ too_short policy.now policy.now.scheme (ttl_in highest.now) }
{
    match policy.scheme {
        Scheme::Split(ksk, zsk) => {
            let (ksk, zsk) = (ksk.roll(), zsk.roll());
            match shorter(ksk, policy.ksk.lifetime, highest.roll_takes(ksk)) {
                Some(fault) => Some(fault),
                None => shorter(zsk, policy.zsk.lifetime, highest.roll_takes(zsk)),
            }
        }
        Scheme::SingleType => {
            let roll = RollType::CskRoll;
            shorter(roll, policy.ksk.lifetime, highest.roll_takes(roll))
        }
    }
}
