//! The calls on one key: adds, setters and the deletion.
ghost use Rattle.std.specs.Prelude.{None, string_bytes};
ghost use Rattle.std.specs.Option.{option_map};
ghost use Rattle.dnssec_key.specs.declared.kind.KeyType.TheVariants.{Ksk, Zsk, Csk, Include};
ghost use Rattle.dnssec_key.specs.Key.{new_key, new_state, is_available};
ghost use Rattle.dnssec_key.specs.Setters.{Decoupled, Present, Signer, AtParent, Stale, VisibleAt};
ghost use Rattle.dnssec_key.specs.Setters.{DsVisibleAt, RrsigVisibleAt, setting_of};
ghost use Rattle.dnssec_keyset.specs.Step.{Step, AddKey, Set, DeleteKey, reply_done};

use crate::set::KeySet;
use dnssec_base::SecurityAlgorithm;
use dnssec_key::{Available, Error, Key, KeyState, KeyType, Setting, UnixTime, new_key};

impl KeySet {
    /// Adds a KSK, which may come in by a roll if it is available.
    ///
    /// `pubref` names the key from now on, and `privref` its private part in the caller's storage.
    /// `algorithm` and `key_tag` are those of its DNSKEY record (RFC 4034, section 2 and appendix
    /// B). `creation_ts` is the moment when it was made; no other stamp is set.
    ///
    /// # Errors
    ///
    /// The first that applies, in this order. The strings are then dropped, and nothing is changed.
    ///
    /// - `DuplicateKeyTag` if a key has the tag.
    /// - `KeyExists` if a key has the reference.
    /// - `OutOfMemory` if memory runs out.
    pub fn add_key_ksk(
        &mut self,
        pubref: String,
        privref: Option<String>,
        algorithm: SecurityAlgorithm,
        key_tag: u16,
        creation_ts: UnixTime,
        available: Available,
    ) -> Result<(), Error>
        // Causes: `add_refusal`, and memory.
        ensures { Step self.old (AddKey (string_bytes pubref)
            (new_key (option_map string_bytes privref) (Ksk (new_state (is_available available)))
            algorithm key_tag creation_ts)) (reply_done result) self.new }
    {
        let keytype = KeyType::Ksk(KeyState::new(available));
        let key = new_key(privref, keytype, algorithm, key_tag, creation_ts);
        self.add(pubref, key)
    }

    /// Adds a ZSK, which may come in by a roll if it is available.
    ///
    /// `pubref` names the key from now on, and `privref` its private part in the caller's storage.
    /// `algorithm` and `key_tag` are those of its DNSKEY record. `creation_ts` is the moment when
    /// it was made; no other stamp is set.
    ///
    /// # Errors
    ///
    /// The first that applies, in this order. The strings are then dropped, and nothing is changed.
    ///
    /// - `DuplicateKeyTag` if a key has the tag.
    /// - `KeyExists` if a key has the reference.
    /// - `OutOfMemory` if memory runs out.
    pub fn add_key_zsk(
        &mut self,
        pubref: String,
        privref: Option<String>,
        algorithm: SecurityAlgorithm,
        key_tag: u16,
        creation_ts: UnixTime,
        available: Available,
    ) -> Result<(), Error>
        // Causes: `add_refusal`, and memory.
        ensures { Step self.old (AddKey (string_bytes pubref)
            (new_key (option_map string_bytes privref) (Zsk (new_state (is_available available)))
            algorithm key_tag creation_ts)) (reply_done result) self.new }
    {
        let keytype = KeyType::Zsk(KeyState::new(available));
        let key = new_key(privref, keytype, algorithm, key_tag, creation_ts);
        self.add(pubref, key)
    }

    /// Adds a CSK, which may come in by a roll, in both its roles, if it is available.
    ///
    /// `pubref` names the key from now on, and `privref` its private part in the caller's storage.
    /// `algorithm` and `key_tag` are those of its DNSKEY record. `creation_ts` is the moment when
    /// it was made; no other stamp is set.
    ///
    /// # Errors
    ///
    /// The first that applies, in this order. The strings are then dropped, and nothing is changed.
    ///
    /// - `DuplicateKeyTag` if a key has the tag.
    /// - `KeyExists` if a key has the reference.
    /// - `OutOfMemory` if memory runs out.
    pub fn add_key_csk(
        &mut self,
        pubref: String,
        privref: Option<String>,
        algorithm: SecurityAlgorithm,
        key_tag: u16,
        creation_ts: UnixTime,
        available: Available,
    ) -> Result<(), Error>
        // Causes: `add_refusal`, and memory.
        ensures { Step self.old (AddKey (string_bytes pubref)
            (new_key (option_map string_bytes privref)
            (Csk (new_state (is_available available)) (new_state (is_available available)))
            algorithm key_tag creation_ts)) (reply_done result) self.new }
    {
        let state = KeyState::new(available);
        let key = new_key(
            privref,
            KeyType::Csk(state, state),
            algorithm,
            key_tag,
            creation_ts,
        );
        self.add(pubref, key)
    }

    /// Adds the key of another signer. Only `set_present` puts it into the DNSKEY set.
    ///
    /// `pubref` names the key from now on; it has no private part here. `algorithm` and `key_tag`
    /// are those of its DNSKEY record. `creation_ts` is the moment when it was made; no other stamp
    /// is set. `available` is kept, but no roll takes such a key.
    ///
    /// # Errors
    ///
    /// The first that applies, in this order. The strings are then dropped, and nothing is changed.
    ///
    /// - `DuplicateKeyTag` if a key has the tag.
    /// - `KeyExists` if a key has the reference.
    /// - `OutOfMemory` if memory runs out.
    pub fn add_public_key(
        &mut self,
        pubref: String,
        algorithm: SecurityAlgorithm,
        key_tag: u16,
        creation_ts: UnixTime,
        available: bool,
    ) -> Result<(), Error>
        // Causes: `add_refusal`, and memory.
        ensures { Step self.old (AddKey (string_bytes pubref)
            (new_key None (Include (new_state available)) algorithm key_tag creation_ts))
            (reply_done result) self.new }
    {
        let available = if available {
            Available::Available
        } else {
            Available::NotAvailable
        };
        let keytype = KeyType::Include(KeyState::new(available));
        let key = new_key(None, keytype, algorithm, key_tag, creation_ts);
        self.add(pubref, key)
    }

    /// Sets whether a key is decoupled from the caller's storage of keys. Nothing else of the key
    /// changes, and no memory is taken.
    ///
    /// # Errors
    ///
    /// `KeyNotFound` if no key has the reference. Nothing is then changed.
    pub fn set_decoupled(&mut self, pubref: &str, value: bool) -> Result<(), Error>
        // Causes: `setting_refusal`.
        ensures { Step self.old (Set pubref.now (Decoupled value)) (reply_done result) self.new }
    {
        self.set(pubref, &Setting::Decoupled(value))
    }

    /// Puts a key into the DNSKEY set by hand if `value` is true, and else takes it out, in each of
    /// its roles. A key that is put in and was never published is stamped as published at `now`; no
    /// other stamp changes. An early end of a roll in progress then leaves this key as it is. No
    /// memory is taken.
    ///
    /// # Errors
    ///
    /// `KeyNotFound` if no key has the reference. Nothing is then changed.
    pub fn set_present(&mut self, pubref: &str, value: bool, now: &UnixTime) -> Result<(), Error>
        // Causes: `setting_refusal`.
        ensures { Step self.old (Set pubref.now (Present value now.now))
            (reply_done result) self.new }
    {
        self.set(pubref, &Setting::Present(value, *now))
    }

    /// Sets by hand whether a key signs, in each of its roles. No other flag and no stamp changes.
    /// An early end of a roll in progress then leaves this key as it is. It needs no memory.
    ///
    /// # Errors
    ///
    /// `KeyNotFound` if no key has the reference, `WrongKeyType` for a key of another signer.
    /// Nothing is then changed.
    pub fn set_signer(&mut self, pubref: &str, value: bool) -> Result<(), Error>
        // Causes: `setting_refusal`.
        ensures { Step self.old (Set pubref.now (Signer value)) (reply_done result) self.new }
    {
        self.set(pubref, &Setting::Signer(value))
    }

    /// Sets by hand whether the parent has to have a DS record for a KSK or a CSK. No other flag
    /// and no stamp changes. An early end of a roll in progress then leaves this key as it is. No
    /// memory is taken.
    ///
    /// # Errors
    ///
    /// `KeyNotFound` if no key has the reference, `WrongKeyType` for a ZSK or a key of another
    /// signer. Nothing is then changed.
    pub fn set_at_parent(&mut self, pubref: &str, value: bool) -> Result<(), Error>
        // Causes: `setting_refusal`.
        ensures { Step self.old (Set pubref.now (AtParent value)) (reply_done result) self.new }
    {
        self.set(pubref, &Setting::AtParent(value))
    }

    /// Makes a key stale by hand. In each of its roles it is then old, and neither signs, nor is in
    /// the DNSKEY set, nor has a DS at the parent. Its stamps stay. An early end of a roll in
    /// progress then leaves this key as it is. It needs no memory.
    ///
    /// # Errors
    ///
    /// `KeyNotFound` if no key has the reference. Nothing is then changed.
    pub fn set_stale(&mut self, pubref: &str) -> Result<(), Error>
        // Causes: `setting_refusal`.
        ensures { Step self.old (Set pubref.now Stale) (reply_done result) self.new }
    {
        self.set(pubref, &Setting::Stale)
    }

    /// Sets by hand the stamp that says since when all servers of the zone have the key in its
    /// DNSKEY set: from `time` on. It replaces an earlier one. Nothing else of the key changes, and
    /// the call needs no memory.
    ///
    /// # Errors
    ///
    /// `KeyNotFound` if no key has the reference. Nothing is then changed.
    pub fn set_visible(&mut self, pubref: &str, time: UnixTime) -> Result<(), Error>
        // Causes: `setting_refusal`.
        ensures { Step self.old (Set pubref.now (VisibleAt time)) (reply_done result) self.new }
    {
        self.set(pubref, &Setting::VisibleAt(time))
    }

    /// Sets by hand the stamp that says since when all servers of the parent have the key's DS
    /// record: from `time` on. It replaces an earlier one. Nothing else of the key changes, and no
    /// memory is taken.
    ///
    /// # Errors
    ///
    /// `KeyNotFound` if no key has the reference. Nothing is then changed.
    pub fn set_ds_visible(&mut self, pubref: &str, time: UnixTime) -> Result<(), Error>
        // Causes: `setting_refusal`.
        ensures { Step self.old (Set pubref.now (DsVisibleAt time)) (reply_done result) self.new }
    {
        self.set(pubref, &Setting::DsVisibleAt(time))
    }

    /// Sets by hand the stamp that says since when all servers of the zone have the signatures by
    /// the key: from `time` on. It replaces an earlier one. Nothing else of the key changes, and no
    /// memory is taken.
    ///
    /// # Errors
    ///
    /// `KeyNotFound` if no key has the reference. Nothing is then changed.
    pub fn set_rrsig_visible(&mut self, pubref: &str, time: UnixTime) -> Result<(), Error>
        // Causes: `setting_refusal`.
        ensures { Step self.old (Set pubref.now (RrsigVisibleAt time))
            (reply_done result) self.new }
    {
        self.set(pubref, &Setting::RrsigVisibleAt(time))
    }

    /// Deletes a key that is stale in each of its roles: it is old, and neither signs, nor is in
    /// the DNSKEY set, nor has a DS at the parent. Rolls may be in progress. No memory is taken.
    ///
    /// # Errors
    ///
    /// `KeyNotFound` if no key has the reference, `KeyNotOld` if the key isn't stale in one of its
    /// roles. Nothing is then changed.
    pub fn delete_key(&mut self, pubref: &str) -> Result<(), Error>
        // Causes: `deletion_refusal`.
        ensures { Step self.old (DeleteKey pubref.now) (reply_done result) self.new }
    {
        let key_tag = self.keys.delete(pubref)?;
        self.lists.forget(key_tag);
        Ok(())
    }

    /// Adds `key` under the reference `pubref`, for all calls that add one.
    ///
    /// The first refusal that applies is answered: `DuplicateKeyTag` if a key has the tag,
    /// `KeyExists` if a key has the reference, `OutOfMemory` if memory runs out. Nothing is then
    /// changed.
    #[inline(always)]
    fn add(&mut self, pubref: String, key: Key) -> Result<(), Error>
        ensures { Step self.old (AddKey (string_bytes pubref) key) (reply_done result) self.new }
    {
        self.keys.add(self.alloc, pubref, key)
    }

    /// Changes the key with the reference `pubref` as `setting` says, for all setters. If that sets
    /// a flag, a later early end of a roll leaves this key as it is. It needs no memory: what
    /// it may keep of a wait is dropped if there is none.
    ///
    /// It is refused with `KeyNotFound` if no key has the reference. `WrongKeyType` says that such
    /// a key can't have the flag: another signer's key doesn't sign, and only a KSK or a CSK has a
    /// DS. Nothing is then changed.
    fn set(&mut self, pubref: &str, setting: &Setting) -> Result<(), Error>
        // Causes: `setting_refusal`.
        ensures { Step self.old (Set pubref.now (setting_of setting.now))
            (reply_done result) self.new }
    {
        let key_tag = self.keys.set(pubref, setting)?;
        if setting.sets_flag() {
            self.lists.forget(key_tag);
        }
        Ok(())
    }
}
