//! The calls of a roll after its start.
ghost use Rattle.std.specs.Prelude.{◌≡◌, [], IfOk, IsOk, IsOkUnless};
ghost use Rattle.dnssec_base.specs.declared.error.Error.TheVariants.{OutOfMemory};
ghost use Rattle.dnssec_key.specs.declared.roll.Half.TheVariants.{First, Second};
ghost use Rattle.dnssec_key.specs.RollTable.{actions_due};
ghost use Rattle.dnssec_zone.specs.Rolls.{phase_of};
ghost use Rattle.dnssec_keyset.specs.Step.{Step, Report, Wait, RollDone, AbortRoll, reply_list};

use crate::set::KeySet;
use dnssec_key::{Action, Error, Half, PhaseEnd, RollType, UnixTime};
use std::alloc::Global;

impl KeySet {
    /// Reports that all servers have what the start changed, at the moment `now`.
    ///
    /// The start's actions name the kinds of sets to report. `ttl` is the highest TTL, in seconds,
    /// that a cache may still have for an older set of such a kind. Keys that aren't old, of the
    /// kinds that the roll changes, get the stamp `now` for what was reported: `visible` in the
    /// DNSKEY set, `ds_visible` in the DS set, `rrsig_visible` for signatures. A spare key, in no
    /// set and not signing, gets none. The roll then waits for the caches. No new action is due, so
    /// the answer is empty, and no memory is taken.
    ///
    /// # Errors
    ///
    /// `WrongStateForRollOperation` if the roll isn't waiting for this report. Nothing is then
    /// changed.
    ///
    /// ```rust
    /// // All servers have the new DNSKEY set. The old one had a TTL of an hour.
    /// set.propagation1_complete(RollType::ZskRoll, 3600, &now)?;
    /// ```
    pub fn propagation1_complete(
        &mut self,
        rolltype: RollType,
        ttl: u32,
        now: &UnixTime,
    ) -> Result<Vec<Action>, Error>
        // Causes: `report_refusal`.
        ensures { Step self.old (Report rolltype First ttl now.now) (reply_list result) self.new }
    {
        self.report(rolltype, Half::First, ttl, now)
    }

    /// Ends the first wait of a roll, if old data has left the caches by the moment `now`.
    ///
    /// Answers the actions that are due now. It changes the flags of keys that these actions
    /// publish, and the roll waits for its second report. `KskDoubleDsRoll` stamps each KSK that
    /// has a DS and isn't old as published at `now`, and `ZskDoubleSignatureRoll` each old ZSK as
    /// withdrawn. Other rolls write no stamp here.
    ///
    /// # Errors
    ///
    /// The first that applies, in this order. Nothing is then changed.
    ///
    /// - `WrongStateForRollOperation` if the roll isn't in its first wait.
    /// - `WrongKeyState` if a key that the wait checks lacks the stamp that the wait reads.
    /// - `Wait` with the longest time that is left for such a key, if there is some.
    /// - `OutOfMemory` if there is no memory for the answer.
    ///
    /// ```rust
    /// match set.cache_expired1(RollType::ZskRoll, &now) {
    ///     Ok(actions) => publish(actions),
    ///     Err(Error::Wait(left)) => sleep(left),
    ///     Err(error) => return Err(error),
    /// }
    /// ```
    pub fn cache_expired1(
        &mut self,
        rolltype: RollType,
        now: &UnixTime,
    ) -> Result<Vec<Action>, Error>
        // Causes: `wait_clearance`, and memory for a list of actions.
        ensures { Step self.old (Wait rolltype First now.now) (reply_list result) self.new }
    {
        self.go_on(rolltype, Half::First, now)
    }

    /// Reports that all servers have what the end of the first wait changed, at the moment `now`.
    ///
    /// The actions of `cache_expired1` name the kinds of sets to report. `ttl` is the highest TTL,
    /// in seconds, that a cache may still have for an older set of such a kind. Keys that aren't
    /// old, of the kinds that the roll changes, get the stamp `now` for what was reported:
    /// `visible` in the DNSKEY set, `ds_visible` in the DS set, `rrsig_visible` for signatures. A
    /// spare key, in no set and not signing, gets none, and a `ZskDoubleSignatureRoll` writes no
    /// stamp here. The roll then waits for the caches again. No new action is due, so the answer is
    /// empty, and no memory is taken.
    ///
    /// # Errors
    ///
    /// `WrongStateForRollOperation` if the roll isn't waiting for this report. Nothing is then
    /// changed.
    pub fn propagation2_complete(
        &mut self,
        rolltype: RollType,
        ttl: u32,
        now: &UnixTime,
    ) -> Result<Vec<Action>, Error>
        // Causes: `report_refusal`.
        ensures { Step self.old (Report rolltype Second ttl now.now) (reply_list result) self.new }
    {
        self.report(rolltype, Half::Second, ttl, now)
    }

    /// Ends the second wait of a roll, if old data has left the caches by the moment `now`.
    ///
    /// Answers the last actions of the roll, which are due now. Old keys leave the sets that these
    /// actions publish, and are stamped as withdrawn at `now`. After the actions only `roll_done`
    /// is left. For `ZskDoubleSignatureRoll` no action is due, no key changes, and no memory is
    /// taken.
    ///
    /// # Errors
    ///
    /// The first that applies, in this order. Nothing is then changed.
    ///
    /// - `WrongStateForRollOperation` if the roll isn't in its second wait.
    /// - `WrongKeyState` if a key that the wait checks lacks the stamp that the wait reads.
    /// - `Wait` with the longest time that is left for such a key, if there is some.
    /// - `OutOfMemory` if there is no memory for the answer.
    pub fn cache_expired2(
        &mut self,
        rolltype: RollType,
        now: &UnixTime,
    ) -> Result<Vec<Action>, Error>
        // Causes: `wait_clearance`, and memory for a list of actions.
        ensures { Step self.old (Wait rolltype Second now.now) (reply_list result) self.new }
    {
        self.go_on(rolltype, Half::Second, now)
    }

    /// Ends a roll after its last actions are done. The roll is no longer in progress, and no key
    /// changes. The answer is empty, and no memory is taken.
    ///
    /// # Errors
    ///
    /// `WrongStateForRollOperation` if the roll isn't in its last phase, which `cache_expired2`
    /// begins. Nothing is then changed.
    ///
    /// ```rust
    /// set.roll_done(RollType::ZskRoll)?;
    /// set.delete_key("Z1")?;
    /// ```
    pub fn roll_done(&mut self, rolltype: RollType) -> Result<Vec<Action>, Error>
        // Causes: `end_refusal`.
        ensures { Step self.old (RollDone rolltype) (reply_list result) self.new }
    {
        self.rolls.check_end(rolltype)?;
        self.rolls.take_out(rolltype);
        Ok(Vec::new(self.alloc))
    }

    /// Ends a roll early, before its first report.
    ///
    /// The roll is no longer in progress. An old key that wasn't old before the start is no longer
    /// old. The flags that the start set on its new keys are cleared, so each may come in by
    /// another roll. Stamps stay. A key that was deleted, or got a flag by hand since the start, is
    /// left as it is. Answers the actions that are due now.
    ///
    /// # Errors
    ///
    /// The first that applies, in this order. Nothing is then changed.
    ///
    /// - `WrongStateForRollOperation` if the roll isn't waiting for its first report: after it,
    ///   caches may hold what the start changed.
    /// - `OutOfMemory` if there is no memory for the answer.
    ///
    /// ```rust
    /// set.start_roll(RollType::ZskRoll, &["Z1"], &["Z2"], &now)?;
    /// set.abort_roll(RollType::ZskRoll)?;
    /// // Z1 isn't old any more, and Z2 may come in by another roll.
    /// ```
    pub fn abort_roll(&mut self, rolltype: RollType) -> Result<Vec<Action>, Error>
        // Causes: `early_end_refusal`, and memory.
        ensures { Step self.old (AbortRoll rolltype) (reply_list result) self.new }
    {
        self.rolls.check_early_end(rolltype)?;
        let actions = Vec::from_slice(self.alloc, rolltype.asks_at_early_end())?;
        self.lists.unmark(rolltype, &mut self.keys);
        self.lists.take_out(rolltype);
        self.rolls.take_out(rolltype);
        Ok(actions)
    }

    /// The actions of a roll in its phase: those that its last accepted call answered.
    ///
    /// The list is empty for a roll that isn't in progress, while caches expire, and at the end of
    /// `ZskDoubleSignatureRoll`. An empty list takes no memory.
    ///
    /// # Errors
    ///
    /// Only `OutOfMemory`, if there is no memory for the list.
    pub fn actions(&self, rolltype: RollType) -> Result<Vec<Action>, Error>
        ensures list { IfOk result (λ actions.
            actions.items ≡ actions_due rolltype (phase_of self.now.rolls rolltype)) }
        ensures none { actions_due rolltype (phase_of self.now.rolls rolltype) ≡ [] → IsOk result }
        ensures err { IsOkUnless result OutOfMemory }
    {
        match self.rolls.phase_of(rolltype) {
            None => Ok(Vec::new(self.alloc)),
            Some(phase) => list(self.alloc, rolltype.actions_in(phase)),
        }
    }

    /// Takes the report that ends the propagation phase of a half of the roll, for both public
    /// calls. The roll then waits for the caches, which hold older sets for at most `ttl` seconds.
    /// The answer is empty.
    ///
    /// Keys that aren't old, of the kinds that the roll changes, get the stamp `now` for what was
    /// reported: `visible` in the DNSKEY set, `ds_visible` in the DS set, `rrsig_visible` for
    /// signatures. A spare key, in no set and not signing, gets none. The second report of a
    /// `ZskDoubleSignatureRoll` writes no stamp.
    ///
    /// It is refused with `WrongStateForRollOperation` if the roll isn't waiting for this report.
    /// Nothing is then changed.
    fn report(
        &mut self,
        rolltype: RollType,
        half: Half,
        ttl: u32,
        now: &UnixTime,
    ) -> Result<Vec<Action>, Error>
        ensures { Step self.old (Report rolltype half ttl now.now)
            (reply_list result) self.new }
    {
        // A report takes no memory, so one step checks the phase and writes it.
        self.rolls.take_report(rolltype, half, ttl)?;
        self.keys
            .end_phase(PhaseEnd::Report(ttl), rolltype, half, *now);
        self.lists.report(rolltype, half);
        Ok(Vec::new(self.alloc))
    }

    /// Ends the wait of a half of the roll at the moment `now`, for both public calls. Answers the
    /// actions that are due now. It changes the flags of keys that these actions publish, with the
    /// stamps that go with them, and the roll moves to its next phase.
    ///
    /// The first refusal that applies is answered: `WrongStateForRollOperation` if the roll isn't
    /// in this wait, `WrongKeyState` if a key that the wait checks lacks the stamp that it reads,
    /// `Wait` with the time that is left, but at most the TTL, if it is early, `OutOfMemory` if
    /// there is no memory for the answer. Nothing is then changed.
    fn go_on(
        &mut self,
        rolltype: RollType,
        half: Half,
        now: &UnixTime,
    ) -> Result<Vec<Action>, Error>
        ensures { Step self.old (Wait rolltype half now.now) (reply_list result) self.new }
    {
        self.check_wait(rolltype, half, now)?;
        let actions = list(self.alloc, rolltype.actions_in(half.after_expiry()))?;
        self.keys.end_phase(PhaseEnd::Wait, rolltype, half, *now);
        self.rolls.move_to(rolltype, half.after_expiry());
        Ok(actions)
    }
}

/// A copy of these actions, to answer a caller with. Its memory comes from `alloc`, and the only
/// error is `OutOfMemory`. An empty list takes no memory.
fn list(alloc: Global, actions: &[Action]) -> Result<Vec<Action>, Error>
    ensures same { IfOk result (λ made. made.items ≡ actions.now) }
    ensures none { actions.now ≡ [] → IsOk result }
    ensures err { IsOkUnless result OutOfMemory }
{
    if actions.is_empty() {
        return Ok(Vec::new(alloc));
    }
    Ok(Vec::from_slice(alloc, actions)?)
}
