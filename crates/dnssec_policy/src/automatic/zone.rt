//! A zone that rolls by itself.
ghost use Rattle.std.specs.Prelude.{◌≡◌, ◌≢◌, ◌++◌, ◌∷◌, ℕ, List, [], length, true, IfOk, IfErr};
ghost use Rattle.std.specs.Prelude.{OnOk};
ghost use Rattle.dnssec_base.specs.declared.error.Error.TheVariants.{OutOfMemory};
ghost use Rattle.dnssec_record.specs.Answer.{AnswerFault};
ghost use Rattle.dnssec_run.specs.declared.call.Call.{Call as AnyCall};
ghost use Rattle.dnssec_run.specs.declared.record.Entry.{Entry};
ghost use Rattle.dnssec_run.specs.declared.record.Reply.TheVariants.{Refused};
ghost use Rattle.dnssec_policy.specs.Automatic.{is_add};
ghost use Rattle.dnssec_policy.specs.Code.{todo_of};
ghost use Rattle.dnssec_policy.specs.Text.Lint.{highest_of, too_short};
ghost use Rattle.dnssec_policy.specs.Automatic.Calls.{GoesOn, IsAfter, Resumes, Takes};
ghost use Rattle.dnssec_policy.specs.Automatic.ZoneNotes.{HasHighest};
ghost use Rattle.dnssec_policy.specs.Automatic.Zone.{Adds, Advances, IsAutomaticAfter, Makes};
ghost use Rattle.dnssec_policy.specs.Automatic.Zone.{ReachesResolvers, ResumesZone, Says};

use super::zone_notes::ZoneNotes;
use crate::by_hand::FirstByHand;
use crate::choose::next;
use crate::last_waits::LastWaits;
use crate::laws::automatic_runs_reach_resolvers;
use crate::policy::Policy;
use crate::state::State;
use crate::text::{TooShort, too_short};
use crate::todo::Next;
use dnssec_base::Name;
use dnssec_keyset::{Error, UnixTime};
use dnssec_network::{Before, DueFault, Moments, News, NoteFault, SetKind};
use dnssec_record::{Call, Reply, ScriptFault, Session};
use dnssec_script::{Lines, Statement};
use std::alloc::{AllocError, Global};

/// A zone that rolls by itself: it makes exactly the calls that a policy says, each with the moment
/// at which it was said, and adds of keys. It keeps what the next call goes by, and for its notes
/// the moment of each call.
///
/// After a restart `resume` makes the same zone from the lines that were kept: those of its calls,
/// and those of its notes.
///
/// ```rust
/// let mut zone = AutomaticZone::new(alloc, name, before)?;
/// // The reply says what to publish.
/// let reply = zone.advance(alloc, &policy, moment)?;
/// if let Next::Watch { kind } = zone.next(alloc, &policy, moment)? {
///     watch(kind);
/// }
/// ```
#[derive(Drop)]
pub struct AutomaticZone {
    calls: Calls,
    moments: Moments,
    noted: ZoneNotes,
}

/// A session, the last second waits of its calls, and the first one by hand.
#[derive(Drop)]
pub(crate) struct Calls {
    session: Session,
    last_waits: LastWaits,
    by_hand: FirstByHand,
}

/// The calls with one more, and the reply to it.
#[derive(Drop)]
pub(crate) struct Advance {
    calls: Calls,
    reply: Reply,
}

/// Whether the call adds a key, of this signer or of another one. A policy never says to make such
/// a call: it only says that it needs a key.
pub fn is_add(call: &Call<'_>) -> bool
    ensures { result ≡ is_add call.now }
{
    matches!(
        call,
        Call::AddKeyKsk { .. }
            | Call::AddKeyZsk { .. }
            | Call::AddKeyCsk { .. }
            | Call::AddPublicKey { .. }
    )
}

impl AutomaticZone {
    /// A zone of this name without keys, before its first call. `before` are the highest TTLs, in
    /// seconds, of what its servers gave until then.
    ///
    /// # Errors
    ///
    /// If there is no memory.
    pub fn new(alloc: Global, name: Name<Vec<u8>>, before: Before) -> Result<Self, AllocError>
        ensures { IfOk result (λ zone. IsAutomaticAfter name [] [] [] zone) }
    {
        Ok(AutomaticZone {
            calls: Calls::new(alloc, name)?,
            moments: Moments::new(alloc),
            noted: ZoneNotes::new(alloc, before),
        })
    }

    /// The zone after a restart, from the lines that were kept of it: the script of its calls, each
    /// of which is made again, and its notes. It answers as the zone before did. If each call of
    /// that one added a key or was said by a policy, `reaches_resolvers` holds of this one too.
    ///
    /// # Errors
    ///
    /// - `Script` with the fault of the script. It is `OutOfMemory` if memory runs out, also in
    ///   making one of its calls.
    /// - `Notes` with the fault of the notes, which is `OutOfMemory` if memory runs out.
    ///
    /// ```rust
    /// let zone = AutomaticZone::resume(alloc, script.as_bytes(), notes.as_bytes())?;
    /// ```
    pub fn resume(alloc: Global, script: &[u8], notes: &[u8]) -> Result<Self, DueFault>
        ensures { IfOk result (ResumesZone script.now notes.now) }
    {
        let (calls, moments) = Calls::resume(alloc, script)?;
        let noted = ZoneNotes::read(alloc, &moments, notes)?;
        Ok(AutomaticZone {
            calls,
            moments,
            noted,
        })
    }

    /// What the policy says to do next with this zone at this moment. After an accepted call made
    /// by hand it is always `Stuck` with `Why::ByHand`. Such a call, from the script of `resume`,
    /// ended a roll early or set a flag or a time of a key. The zone stays as it is.
    ///
    /// # Errors
    ///
    /// If there is no memory.
    pub fn next<'a>(
        &'a self,
        alloc: Global,
        policy: &Policy,
        moment: UnixTime,
    ) -> Result<Next<'a>, AllocError>
        ensures { IfOk result (λ next.
            (name : List ℕ) (calls : List AnyCall) (entries : List Entry) →
            IsAfter name calls entries self.now.calls → HasHighest self.now.noted →
            Says name calls entries policy.now moment self.now (todo_of moment next)) }
    {
        let state = State {
            keyset: self.calls.session.keyset(),
            steps: self.calls.session.steps(),
            last_waits: self.calls.last_waits,
            by_hand: self.calls.by_hand,
            notes: self.noted.notes(),
            highest: *self.noted.highest(),
            moment,
        };
        next(alloc, policy, &state)
    }

    /// Makes the call that the policy says to make at this moment, and answers the reply to it. A
    /// refused call counts as a call. If the policy says no call, `None`, and the zone is as it
    /// was. The notes stay in any case. The moment has to be in whole seconds if the calls are kept
    /// as lines. It takes as long as a copy of the session, and a call of it.
    ///
    /// # Errors
    ///
    /// If there is no memory, also where the call would be refused for that. The zone is then as it
    /// was.
    pub fn advance(
        &mut self,
        alloc: Global,
        policy: &Policy,
        moment: UnixTime,
    ) -> Result<Option<Reply>, AllocError>
        ensures ok { IfOk result (λ reply.
            (name : List ℕ) (calls : List AnyCall) (entries : List Entry) (asked : List ℕ) →
            IsAutomaticAfter name calls entries asked self.old →
            Advances name calls entries asked policy.now moment self.old self.new reply) }
        ensures kept { IfErr result (λ _. self.new ≡ self.old) }
    {
        let Some(made) = self.said(alloc, policy, moment)? else {
            return Ok(None);
        };
        self.moments.add(made.calls.session.latest())?;
        self.calls = made.calls;
        Ok(Some(made.reply))
    }

    /// A copy of the zone's calls with the one more that the policy says to make at this moment,
    /// and the reply to it. `None` if the policy says no call. The zone itself stays as it is. It
    /// fails only if memory runs out, also where the call would be refused for that.
    fn said(
        &self,
        alloc: Global,
        policy: &Policy,
        moment: UnixTime,
    ) -> Result<Option<Advance>, AllocError>
        ensures { IfOk result (λ made.
            (name : List ℕ) (calls : List AnyCall) (entries : List Entry) →
            IsAfter name calls entries self.now.calls → HasHighest self.now.noted →
            Makes name calls entries policy.now moment self.now made) }
    {
        let todo = self.next(alloc, policy, moment)?;
        match todo.call(moment) {
            None => Ok(None),
            Some(call) => Ok(Some(self.made(alloc, call)?)),
        }
    }

    /// A copy of the zone's calls with this one more, and the reply to it, which may refuse the
    /// call. The zone itself stays as it is. It fails only if memory runs out, also where the call
    /// would be refused for that.
    fn made(&self, alloc: Global, call: Call<'_>) -> Result<Advance, AllocError>
        ensures { IfOk result (λ made.
            (name : List ℕ) (calls : List AnyCall) (entries : List Entry) →
            IsAfter name calls entries self.now.calls →
            GoesOn name calls entries call.entry made.calls made.reply) }
    {
        let mut calls = self.calls.try_clone(alloc)?;
        let reply = calls.make(alloc, call)?;
        check_memory(&reply)?;
        Ok(Advance { calls, reply })
    }

    /// Makes a call that adds a key, also another signer's, and answers the reply to it. `is_add`
    /// says which calls do. A refused call adds no key, but counts as a call. The notes stay.
    ///
    /// # Errors
    ///
    /// If there is no memory, also where the call would be refused for that. The zone is then as it
    /// was.
    pub fn add(&mut self, alloc: Global, call: Call<'_>) -> Result<Reply, AllocError>
        requires { is_add call ≡ true }
        ensures ok { IfOk result (λ reply.
            (name : List ℕ) (calls : List AnyCall) (entries : List Entry) (asked : List ℕ) →
            IsAutomaticAfter name calls entries asked self.old →
            Adds name calls entries asked call.entry self.old self.new reply) }
        ensures kept { IfErr result (λ _. self.new ≡ self.old) }
    {
        let made = self.made(alloc, call)?;
        self.moments.add(made.calls.session.latest())?;
        self.calls = made.calls;
        Ok(made.reply)
    }

    /// Notes one more fact of this kind of sets: that a version is published, or that all servers
    /// gave the one that was noted last. The calls stay as they are.
    ///
    /// # Errors
    ///
    /// - `CallNotMade`, `PublishedBeforeCall`, `SeenBeforePublished` or `MomentFalls` if the fact
    ///   can't follow the calls or the facts before it.
    /// - `OutOfMemory` if memory runs out.
    ///
    /// Nothing is then noted.
    pub fn note(&mut self, kind: SetKind, news: News) -> Result<(), NoteFault>
        ensures noted { OnOk result (self.new.noted.notes ≡ record (self.old.noted.notes) {
          facts = self.old.noted.notes.facts ++ record { kind = kind; news = news } ∷ [];
        }) }
        ensures ok { OnOk result ((name : List ℕ) (calls : List AnyCall) (entries : List Entry)
            (asked : List ℕ) → IsAutomaticAfter name calls entries asked self.old →
            IsAutomaticAfter name calls entries asked self.new) }
        ensures kept { IfErr result (λ _. self.new ≡ self.old) }
    {
        self.noted.note(&self.moments, kind, news)
    }

    /// How many calls were made so far, also refused ones. That is the position to `note` for a
    /// version that is published with the sets due now.
    pub fn calls(&self) -> usize
        ensures { (name : List ℕ) (calls : List AnyCall) (entries : List Entry) →
            IsAfter name calls entries self.now.calls → result ≡ length entries }
    {
        self.calls.session.calls()
    }

    /// The session of the calls so far, to read from it the key set, what is published and the
    /// verdict.
    pub fn session(&self) -> &Session
        ensures { result.now ≡ self.now.calls.session }
    {
        &self.calls.session
    }

    /// The first lifetime of the policy that is shorter than its roll takes, by the highest TTLs
    /// noted so far. `None` if none is. The zone stays as it is.
    pub fn too_short(&self, policy: &Policy) -> Option<TooShort>
        ensures { HasHighest self.now.noted → result ≡ too_short policy.now policy.now.scheme
            (highest_of self.now.noted.notes.before self.now.noted.notes.facts) }
    {
        too_short(policy, self.noted.highest())
    }

    /// States a law about this zone, if its calls were made by `advance` and `add`, and does
    /// nothing. Resolvers find a chain of trust at all times, by each algorithm too, if the notes
    /// are true, each call was made no earlier than the moment that was said with it, servers give
    /// what was published, and none goes back to sets older than those that a roll's start or the
    /// end of its first wait left.
    pub fn reaches_resolvers(&self)
        ensures { ReachesResolvers self.now }
    {
        automatic_runs_reach_resolvers();
    }
}

impl Calls {
    /// The calls of a new zone of this name: none yet. It fails only if memory runs out.
    fn new(alloc: Global, name: Name<Vec<u8>>) -> Result<Self, AllocError>
        ensures { IfOk result (λ calls. IsAfter name [] [] calls) }
    {
        Ok(Calls {
            session: Session::new(alloc, name)?,
            last_waits: LastWaits::new(),
            by_hand: FirstByHand::new(),
        })
    }

    /// A copy after the same calls, to try a call on it: what is done to one doesn't change the
    /// other. It fails only if memory runs out.
    fn try_clone(&self, alloc: Global) -> Result<Self, AllocError>
        ensures { IfOk result (λ copy. (name : List ℕ) (calls : List AnyCall)
            (entries : List Entry) → IsAfter name calls entries self.now →
            IsAfter name calls entries copy) }
    {
        Ok(Calls {
            session: self.session.try_clone(alloc)?,
            last_waits: self.last_waits,
            by_hand: self.by_hand,
        })
    }

    /// Makes one more call in `self`, keeps what a policy has to know of it (a second wait, or the
    /// first call by hand), and answers the reply to it. A refused call counts too, also one that
    /// is refused for lack of memory. If there is no memory to note the call, it fails, and `self`
    /// is of no more use.
    fn make(&mut self, alloc: Global, call: Call<'_>) -> Result<Reply, AllocError>
        ensures { IfOk result (λ reply. (name : List ℕ) (calls : List AnyCall)
            (entries : List Entry) → IsAfter name calls entries self.old →
            GoesOn name calls entries call.entry self.new reply) }
    {
        let wait = LastWaits::second_wait(&call);
        let is_by_hand = FirstByHand::is_by_hand(self.session.keyset(), &call);
        let reply = self.session.make(alloc, call)?;
        let at = self.session.calls();
        self.last_waits = self.last_waits.after(wait, &reply, at);
        self.by_hand = self.by_hand.after(is_by_hand, &reply, at);
        Ok(reply)
    }

    /// Makes in `self` the call that a line of a script says, and answers the reply to it. A
    /// refused call counts too, also one that is refused for lack of memory. If there is no memory
    /// to note the call, it fails, and `self` is of no more use.
    fn take(&mut self, alloc: Global, statement: Statement<'_>) -> Result<Reply, AllocError>
        ensures { IfOk result (Takes statement.entry self.old self.new) }
    {
        match statement {
            Statement::Call(call) => self.make(alloc, call),
            Statement::Start(start) => self.make(alloc, start.call()),
        }
    }

    /// The calls that the lines of a script say, each made again, also those that are refused, with
    /// their moments. It fails with the fault of the script, or with `OutOfMemory`, also if a call
    /// is refused for lack of memory. So no call is left out.
    fn resume(alloc: Global, script: &[u8]) -> Result<(Self, Moments), ScriptFault>
        ensures { IfOk result (λ resumed. Resumes script.now resumed.0 resumed.1) }
    {
        let (name, mut lines) = Lines::begin(alloc, script)?;
        let mut calls = Calls::new(alloc, name)?;
        let mut moments = Moments::new(alloc);
        while let Some(statement) = lines.next(alloc)? {
            let reply = calls.take(alloc, statement)?;
            moments.add(calls.session.latest())?;
            check_memory(&reply)?;
        }
        Ok((calls, moments))
    }
}

/// An error if a call was refused for lack of memory, and only then. So such a call can be given up
/// rather than count as a refused one.
fn check_memory(reply: &Reply) -> Result<(), AllocError>
    ensures ok { IfOk result (λ _. reply.now ≢ Refused OutOfMemory) }
    ensures err { IfErr result (λ _. reply.now ≡ Refused OutOfMemory) }
{
    match reply {
        Reply::Refused(Error::OutOfMemory) => Err(AllocError),
        _ => Ok(()),
    }
}
