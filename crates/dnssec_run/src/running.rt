//! A run that goes on call by call, and what the next report of each roll counts from.
ghost use Rattle.std.specs.Prelude.{◌≡◌, ◌||◌, ◌++◌, ◌∷◌, ℕ, List, [], IfOk, IfErr, OnOk};
ghost use Rattle.std.specs.Option.{option_map};
ghost use Rattle.std.specs.Prelude.{true, false, IsSome, Some, None, if◌then◌else◌};
ghost use Rattle.dnssec_base.specs.declared.error.Error.TheVariants.{OutOfMemory};
ghost use Rattle.dnssec_key.specs.declared.roll.RollType.{RollType};
ghost use Rattle.std.specs.{FinMap.get, List.list_any};
ghost use Rattle.std.specs.Prelude.{◌≢◌, length};
ghost use Rattle.dnssec_run.specs.Adds.{listing_in};
ghost use Rattle.dnssec_run.specs.Asked.{asked_by, asks_to_publish, kind_shown, updates};
ghost use Rattle.dnssec_run.specs.Changes.{LeadTo, add_of};
ghost use Rattle.dnssec_run.specs.Lists.{at_list, lists_said};
ghost use Rattle.dnssec_run.specs.Record.{call_of};
ghost use Rattle.dnssec_run.specs.Recorder.{AreShown, IsCopyOf, Records, Renews, SaysOutcome};
ghost use Rattle.dnssec_run.specs.Recorder.{listing_after, put_by, reference_set, taken_by};
ghost use Rattle.dnssec_run.specs.Safe.{is_step, position_at, position_of};
ghost use Rattle.dnssec_run.specs.Steps.{step_of};
ghost use Rattle.dnssec_run.specs.declared.call.Call.{Call};
ghost use Rattle.dnssec_run.specs.declared.lists.Shown.{Shown};
ghost use Rattle.dnssec_run.specs.declared.record.Entry.{Entry};

use crate::adds::Adds;
use crate::caches::ByKind;
use crate::call::{Call, KeyChange};
use crate::lists::{ByList, Change, note_change};
use crate::record::{Entry, Mark, Outcome, Published, Reply};
use crate::walk_order::WalkOrder;
use dnssec_base::Name;
use dnssec_keyset::{Action, Error, KeySet, RollType};
use std::alloc::{AllocError, Global};

/// For each kind of sets the position at which the set came that is published at some position: no
/// call between the two has changed it. A set that comes back comes anew.
pub type Origins = ByKind<usize>;

/// The last step of each roll so far: what the roll's next report counts from.
///
/// ```rust
/// let outcome = recorder.advance(alloc, call)?;
/// at += 1;
/// steps.note(outcome.mark, at, origins);
/// ```
#[derive(Clone, Copy, Debug)]
pub struct Steps {
    /// One for each roll, in their order in `RollType`.
    by_roll: [Option<LastStep>; 6],
}

/// The last step of a roll: its last accepted start or end of its first wait.
#[derive(Clone, Copy, Debug)]
pub struct LastStep {
    /// Its position.
    pub at: usize,
    /// The origins of the sets that are published after it. A set that it has changed has its
    /// position.
    pub origins: Origins,
}

impl Steps {
    /// The steps before the first call: no roll has one.
    pub fn new() -> Self
        ensures { (roll : RollType) → step_of result roll ≡ None }
    {
        Steps { by_roll: [None; 6] }
    }

    /// The last accepted start of the roll or end of its first wait, which its next report counts
    /// from. `None` if the roll has made none.
    pub fn of(&self, roll: RollType) -> Option<LastStep>
        ensures { result ≡ step_of self.now roll }
    {
        self.by_roll[roll as usize]
    }

    /// Takes the next call, which stands at position `at` and has this mark. `origins` has for each
    /// set that is published after it the position of the call that brought the set. If the mark is
    /// that of an accepted start or end of a first wait, the call becomes the last step of its
    /// roll. Any other call changes nothing.
    // Inline, so that another call makes no call here.
    #[inline(always)]
    pub fn note(&mut self, mark: Mark, at: usize, origins: Origins)
        ensures { (roll : RollType) → step_of self.new roll ≡ (if is_step roll mark
            then Some (record { at = at; origins = origins }) else step_of self.old roll) }
    {
        if let Mark::Step(roll) = mark {
            self.by_roll[roll as usize] = Some(LastStep { at, origins });
        }
    }
}

impl Reply {
    /// Which of the four published lists the call with this reply may have changed: those in
    /// `by_hand`, which show what it set by hand, and those that the actions of the reply ask to
    /// publish. With the DNSKEY set come the keys that sign it.
    pub(crate) fn touched(&self, by_hand: ByList) -> ByList
        ensures { (list : Shown) → at_list result list
            ≡ (at_list by_hand list || list_any (updates (kind_shown list)) (asked_by self.now)) }
    {
        let mut ds = false;
        let mut dnskey = false;
        let mut zone = false;
        if let Reply::Actions(actions) = self {
            for action in actions {
                match action {
                    Action::UpdateDsRrset => ds = true,
                    Action::UpdateDnskeyRrset => dnskey = true,
                    Action::UpdateRrsig => zone = true,
                    _ => {}
                }
            }
        }
        by_hand.with(ByList::by_flags(ds, dnskey, dnskey, zone))
    }
}

/// Keeps `added`, what is known of each key by its reference, up to date after the accepted call at
/// position `at`. `change` is which key the call added or deleted. Answers whether it added or
/// deleted one. It fails only if there is no memory, and `added` is then of no more use.
#[inline(always)]
fn note(
    alloc: Global,
    added: &mut Adds,
    change: KeyChange<'_>,
    at: usize,
) -> Result<bool, AllocError>
    ensures { OnOk result ((q : List ℕ) → listing_in added.new.kept q
        ≡ listing_after at (put_by change.entry) (taken_by change.entry)
        (listing_in added.old.kept) q) }
{
    match change {
        KeyChange::Adds(reference) => {
            added.put(alloc, reference, at)?;
            Ok(true)
        }
        KeyChange::Deletes(reference) => {
            added.take(reference);
            Ok(true)
        }
        KeyChange::Nothing => Ok(false),
    }
}

/// Which of the four published lists have the key `reference`. If `says` isn't `None`, it is the
/// answer for each list. Otherwise the flags of the key decide, and no list has a key that isn't in
/// the key set.
#[inline(always)]
fn lists_with(keyset: &KeySet, reference: &str, says: Option<bool>) -> ByList
    ensures { result ≡ lists_said says (get keyset.now.keys reference.now) }
{
    match says {
        Some(true) => ByList::ALL,
        Some(false) => ByList::NONE,
        None => match keyset.keys().get(reference) {
            Some(key) => ByList::showing(key.keytype()),
            None => ByList::NONE,
        },
    }
}

/// Makes calls one by one on a new key set, and says what each came to, as `run` records it.
///
/// It keeps no entry, only which published lists have which keys after the last call. So a caller
/// who needs only a part of the record, as the answers and a judge's verdict, takes memory for its
/// keys, and not for each call.
///
/// ```rust
/// let mut recorder = Recorder::new(alloc, name);
/// for call in calls {
///     let outcome = recorder.advance(alloc, call)?;
///     judge.note(alloc, outcome.mark, outcome.moment, recorder.changes())?;
/// }
/// ```
#[derive(Drop)]
pub struct Recorder {
    keyset: KeySet,
    added: Adds,
    order: WalkOrder,
    /// What the last call has changed in the published lists.
    changes: Vec<Change>,
    /// How many calls were made.
    at: usize,
}

impl Recorder {
    /// A recorder with a new key set for the zone of this name, before its first call. It takes its
    /// memory from `alloc`.
    pub fn new(alloc: Global, name: Name<Vec<u8>>) -> Self
        ensures { Records name [] [] result }
    {
        Recorder {
            keyset: KeySet::new(alloc, name),
            added: Adds::new(alloc),
            order: WalkOrder::new(alloc),
            changes: Vec::new(alloc),
            at: 0,
        }
    }

    /// Makes the next call on the key set, and answers its outcome: an entry without the published
    /// sets. A refused call has an outcome too, also one that was refused because memory ran out.
    /// It counts as a position of the record, and changes nothing else.
    ///
    /// `changes` then says which keys came into published lists by this call, or left some.
    ///
    /// # Errors
    ///
    /// Only `OutOfMemory`, if there is no memory to note the call. The recorder is then of no more
    /// use: begin anew with the first call.
    // Inline, so that no call moves its outcome.
    #[inline(always)]
    pub fn advance(&mut self, alloc: Global, call: Call<'_>) -> Result<Outcome, Error>
        ensures ok { IfOk result (λ outcome.
            (name : List ℕ) (calls : List Call) (entries : List Entry) (entry : Entry) →
            SaysOutcome entry outcome → AreShown entry.published self.new →
            Records name calls entries self.old →
            Records name (calls ++ call.entry ∷ []) (entries ++ entry ∷ []) self.new
            × LeadTo add_of self.new.changes.items (position_at entries (length entries))
            (position_of entry)) }
        ensures kept { IfOk result (λ outcome. outcome.may_publish ≡ false →
            self.new.changes.items ≡ []) }
        ensures asked { IfOk result (λ outcome. reference_set (call_of call.entry) ≡ None →
            outcome.may_publish ≡ asks_to_publish outcome.reply) }
        ensures by_hand { IfOk result (λ outcome. IsSome (reference_set (call_of call.entry)) →
            outcome.may_publish ≡ true → self.new.changes.items ≢ []) }
        ensures err { IfErr result (λ e. e ≡ OutOfMemory) }
    {
        let Some(at) = self.at.checked_add(1) else {
            return Err(Error::OutOfMemory);
        };
        let meaning = call.meaning()?;
        let reply = call.make(&mut self.keyset);
        self.at = at;
        self.changes.clear();
        if let Reply::Refused(_) = &reply {
            return Ok(Outcome {
                reply,
                moment: meaning.moment,
                mark: Mark::Other,
                may_publish: false,
            });
        }
        self.order.is_stale |= note(alloc, &mut self.added, meaning.change, at)?;
        let touched = reply.touched(meaning.sets_shown);
        let may_publish = self.renew(alloc, touched, meaning.reference_set, meaning.is_shown)?;
        Ok(Outcome {
            reply,
            moment: meaning.moment,
            mark: meaning.mark,
            may_publish,
        })
    }

    /// Brings what is known of the keys up to date after an accepted call, and `changes` with it.
    /// Only the lists in `touched` may have changed.
    ///
    /// If the call set a key by hand, `only` is its reference. Then only this key is looked at, and
    /// the answer is whether a list has changed. `says` is whether the touched lists have this key,
    /// or `None` if its flags decide. Without `only` all keys are read, and the answer is whether a
    /// list is touched, so that it may have changed.
    ///
    /// It fails only if there is no memory. The recorder is then of no more use.
    #[inline(always)]
    fn renew(
        &mut self,
        alloc: Global,
        touched: ByList,
        only: Option<&str>,
        says: Option<bool>,
    ) -> Result<bool, AllocError>
        requires { self.old.changes.items ≡ [] }
        ensures keyset { OnOk result (self.new.keyset ≡ self.old.keyset) }
        ensures at { OnOk result (self.new.at ≡ self.old.at) }
        ensures renewed { IfOk result (λ changed.
            Renews (option_map (λ r. r.now) only.entry) touched says self.old.keyset
            self.old.added.kept self.new.added.kept self.new.changes.items changed) }
    {
        if touched == ByList::NONE {
            return Ok(false);
        }
        let Some(reference) = only else {
            let keys = self.keyset.keys();
            self.added
                .read(alloc, keys, &mut self.order, &mut self.changes)?;
            return Ok(true);
        };
        let is = lists_with(&self.keyset, reference, says);
        let Some(change) = self.added.set(reference, touched, is) else {
            return Ok(false);
        };
        note_change(&mut self.changes, change)?;
        Ok(true)
    }

    /// Makes the next call on the key set, and answers its entry of the record, with what is then
    /// published. A refused call has an entry too, also one that was refused because memory ran
    /// out.
    ///
    /// # Errors
    ///
    /// Only `OutOfMemory`, if there is no memory for the entry. The recorder is then of no more
    /// use: begin anew with the first call.
    pub fn make(&mut self, alloc: Global, call: Call<'_>) -> Result<Entry, Error>
        ensures ok { IfOk result (λ entry.
            (name : List ℕ) (calls : List Call) (entries : List Entry) →
            Records name calls entries self.old →
            Records name (calls ++ call.entry ∷ []) (entries ++ entry ∷ []) self.new) }
        ensures err { IfErr result (λ e. e ≡ OutOfMemory) }
    {
        let outcome = self.advance(alloc, call)?;
        let published = self.published(alloc)?;
        Ok(Entry {
            reply: outcome.reply,
            moment: outcome.moment,
            mark: outcome.mark,
            published,
        })
    }

    /// What is published after the calls so far. The lists take their memory from `alloc`.
    ///
    /// # Errors
    ///
    /// Only `OutOfMemory`, if there is no memory for the lists.
    pub fn published(&self, alloc: Global) -> Result<Published, Error>
        ensures ok { IfOk result (λ sets. AreShown sets self.now) }
        ensures err { IfErr result (λ e. e ≡ OutOfMemory) }
    {
        Ok(self.added.published(alloc)?)
    }

    /// What the last call has changed in the published lists: the keys that came into some, or left
    /// some. There is none before the first call, after a refused call, and in a copy.
    pub fn changes(&self) -> &[Change]
        ensures { result.now ≡ self.now.changes.items }
    {
        self.changes.as_slice()
    }

    /// The key set after the calls so far, to look at.
    pub fn keyset(&self) -> &KeySet
        ensures { result.now ≡ self.now.keyset }
    {
        &self.keyset
    }

    /// A copy at the same position. A call can be tried on it, while this recorder stays as it is.
    ///
    /// # Errors
    ///
    /// Only `OutOfMemory`, if there is no memory for the copy.
    pub fn try_clone(&self, alloc: Global) -> Result<Recorder, Error>
        ensures same { IfOk result (λ copy. IsCopyOf copy self.now) }
        ensures records { IfOk result (λ copy.
            (name : List ℕ) (calls : List Call) (entries : List Entry) →
            Records name calls entries self.now → Records name calls entries copy) }
        ensures err { IfErr result (λ e. e ≡ OutOfMemory) }
    {
        let added = self.added.try_clone(alloc)?;
        Ok(Recorder {
            keyset: self.keyset.try_clone()?,
            added,
            order: WalkOrder::new(alloc),
            changes: Vec::new(alloc),
            at: self.at,
        })
    }

    /// Gives memory back: that of `changes`, which then has none, and that to spare of the keys. If
    /// their map has room for more, a copy of the recorder replaces it, so call it rarely, and for
    /// few keys. If there is no memory for the copy, the keys keep theirs. Later calls are answered
    /// as without it.
    ///
    /// ```rust
    /// recorder.fit(alloc);
    /// ```
    pub fn fit(&mut self, alloc: Global)
        ensures { (name : List ℕ) (calls : List Call) (entries : List Entry) →
            Records name calls entries self.old → Records name calls entries self.new }
    {
        self.changes = Vec::new(alloc);
        if self.keyset.keys().len() == self.keyset.keys().capacity() {
            return;
        }
        if let Ok(fitted) = self.try_clone(alloc) {
            *self = fitted;
        }
    }

    /// Gives up the recorder, and answers its key set after the calls so far.
    pub fn into_keyset(self) -> KeySet
        ensures { result ≡ self.keyset }
    {
        self.keyset
    }
}
