//! The published lists, as they are read off what is known of the keys.
ghost use Rattle.std.specs.Prelude.{◌≡◌, ◌++◌, IfOk, OnOk, map, string_bytes};
ghost use Rattle.dnssec_run.specs.Adds.{AreListed, ids_shown, shown_one};
ghost use Rattle.dnssec_run.specs.Published.{id_of};

use crate::adds::{Adds, Kept};
use crate::lists::{KeyListing, Shown};
use crate::record::{Published, PublishedKey};
use std::alloc::{AllocError, Global};

impl Adds {
    /// The four published lists, each with its keys in the order of their references. They take
    /// their memory from `alloc`. It fails only if there is none.
    pub(crate) fn published(&self, alloc: Global) -> Result<Published, AllocError>
        ensures { IfOk result (λ sets. AreListed sets self.now.kept) }
    {
        Ok(Published {
            ds: self.list(alloc, Shown::Ds)?,
            dnskey: self.list(alloc, Shown::Dnskey)?,
            dnskey_signers: self.list(alloc, Shown::DnskeySigners)?,
            zone_signers: self.list(alloc, Shown::ZoneSigners)?,
        })
    }

    /// The keys that this list has, in the order of their references. It fails only if there is no
    /// memory.
    fn list(&self, alloc: Global, list: Shown) -> Result<Vec<PublishedKey>, AllocError>
        ensures { IfOk result (λ keys. map id_of keys.items ≡ ids_shown list self.now.kept) }
    {
        let mut keys = Vec::new(alloc);
        match &self.kept {
            Kept::Few(few) => {
                for key in few {
                    show_key(&mut keys, list, &key.reference, key.listing)?;
                }
            }
            Kept::Many(tree) => {
                for (reference, listing) in tree.iter() {
                    show_key(&mut keys, list, reference, *listing)?;
                }
            }
        }
        Ok(keys)
    }
}

/// Appends the key with this reference to `keys` if the list has it, by its `listing`. It fails
/// only if there is no memory, and `keys` is then as it was.
fn show_key(
    keys: &mut Vec<PublishedKey>,
    list: Shown,
    reference: &String,
    listing: KeyListing,
) -> Result<(), AllocError>
    ensures { OnOk result (map id_of keys.new.items ≡ map id_of keys.old.items
        ++ shown_one list (string_bytes reference.now, listing)) }
{
    if listing.shown.of(list) {
        keys.push(PublishedKey {
            added: listing.added,
            reference: reference.clone()?,
        })?;
    }
    Ok(())
}
