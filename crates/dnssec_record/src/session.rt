//! A zone's calls as they come: one at a time, each answered at once.
ghost use Rattle.std.specs.Prelude.{◌≡◌, ◌∷◌, ℕ, List, [], length, map, IfOk, IfErr};
ghost use Rattle.std.specs.Prelude.{string_bytes, ◌≢◌, IsSome};
ghost use Rattle.dnssec_script.specs.Script.{says};
ghost use Rattle.dnssec_base.specs.declared.error.Error.TheVariants.{OutOfMemory};
ghost use Rattle.dnssec_judge.specs.Verdict.{IsVerdict};
ghost use Rattle.dnssec_record.specs.Answer.{AnswerFault};
ghost use Rattle.dnssec_record.specs.Courses.{as_listed, ended_by, listed_by};
ghost use Rattle.dnssec_record.specs.Session.{Advances, Closes, FaultOfZone, IsTrial, Resumes};
ghost use Rattle.dnssec_record.specs.Session.{ResumesWith, Stands, StandsAfter, Takes, Tries};
ghost use Rattle.dnssec_run.specs.{Moments.latest_of, Recorder.AreShown};
ghost use Rattle.dnssec_run.specs.Steps.{AreStepsOf};
ghost use Rattle.dnssec_run.specs.declared.call.Call.{Call};
ghost use Rattle.dnssec_run.specs.declared.record.Entry.{Entry};
ghost use Rattle.dnssec_run.specs.declared.record.Reply.TheVariants.{Refused};

use crate::courses::Listing;
use crate::fault::{CallFault, ScriptFault};
use crate::zone::{ZoneState, is_accepted, push_answer};
use dnssec_base::Name;
use dnssec_judge::Broken;
use dnssec_keyset::{Error, KeySet, RollType, UnixTime};
use dnssec_run::{Call, Moments, Published, Reply, Steps};
use dnssec_script::{Lines, read_line, read_zone};
use std::alloc::{AllocError, Global};

/// Room for the line of most answers, so that few grow.
const ANSWER: usize = 64;

/// What came of a line that was handed to a session.
#[derive(Drop)]
pub enum Response {
    /// Its call was made: the line of its answer with its line feed.
    Answered(String),
    /// It makes no call. The session is as it was.
    Malformed,
}

/// What came of a line whose call is made only if it is accepted. A text is the line of the answer
/// with its line feed.
#[derive(Drop)]
pub enum Attempt {
    /// The call is made, and this is its number: how many calls the session has made.
    Accepted { number: usize, answer: String },
    /// The call is refused. The session is as it was, so the call has no number.
    Refused(String),
    /// The line makes no call. The session is as it was.
    Malformed,
}

/// What `accept` would make of a line. A text is the line of the answer with its line feed.
#[derive(Drop)]
pub enum Trial {
    /// The call is accepted: a session that has made it too, and the answer.
    Accepted { next: Session, answer: String },
    /// The call is refused.
    Refused(String),
    /// The line makes no call.
    Malformed,
}

/// A zone whose calls come one at a time, as a daemon makes them. It keeps the key set, what is
/// published, and what the judge needs, but no call. If reports retire what is old, it is as small
/// and as quick after many calls as after few.
///
/// The lines so far are a script. The answers to the lines, and after them `closing`, are together
/// what `run_script` writes for that script.
///
/// ```rust
/// let mut session = Session::open(alloc, b"zone example.com")?;
/// match session.call(alloc, b"start zsk-roll Z1 Z2 1700000000") {
///     Ok(Response::Answered(answer)) => perform(&answer),
///     Ok(Response::Malformed) => {}
///     // It may be made again.
///     Err(CallFault::OutOfMemory) => {}
///     // The session is of no more use.
///     Err(CallFault::Lost) => return Ok(()),
/// }
/// ```
#[derive(Drop)]
pub struct Session {
    zone: ZoneState,
}

impl Session {
    /// A session with a new key set for the zone that `line` names, as the first line of a script
    /// does: `zone example.com`, without a line feed.
    ///
    /// # Errors
    ///
    /// - `Malformed(1)` if the line names no zone.
    /// - `OutOfMemory` if the line names a zone, and there is no memory.
    #[tactic(auto, using(crate::proofs::Sessions::names))]
    pub fn open(alloc: Global, line: &[u8]) -> Result<Self, ScriptFault>
        ensures ok { IfOk result (λ session. Stands (line.now ∷ []) [] session) }
        ensures err { IfErr result (FaultOfZone line.now) }
    {
        let Some(name) = read_zone(alloc, line)? else {
            return Err(ScriptFault::Malformed(1));
        };
        Ok(Session::new(alloc, name)?)
    }

    /// A new session for the zone that the first line of `script` names, after the calls of its
    /// further lines. A refused call counts as if `call` had made it, but one that is refused for
    /// lack of memory is an error: so none is left out.
    ///
    /// # Errors
    ///
    /// - `Malformed` with the number of the first malformed line, counted from 1.
    /// - `OutOfMemory` if there is no memory, also if a call is refused for lack of it. The script
    ///   then begins with a zone.
    pub fn resume(alloc: Global, script: &[u8]) -> Result<Self, ScriptFault>
        ensures ok { IfOk result (Resumes script.now) }
        ensures err { IfErr result (AnswerFault script.now) }
    {
        let (session, _) = Session::resume_with_moments(alloc, script)?;
        Ok(session)
    }

    /// What `resume` answers, and for notes the moments of the script's calls: 16 bytes a call.
    ///
    /// # Errors
    ///
    /// Those of `resume`.
    ///
    /// ```rust
    /// let (session, moments) = Session::resume_with_moments(alloc, script.as_bytes())?;
    /// let noted = read_notes(alloc, &moments, notes.as_bytes())?;
    /// ```
    pub fn resume_with_moments(alloc: Global, script: &[u8]) -> Result<(Self, Moments), ScriptFault>
        ensures ok { IfOk result (λ resumed. ResumesWith script.now resumed.0 resumed.1) }
        ensures err { IfErr result (AnswerFault script.now) }
    {
        let (name, mut lines) = Lines::begin(alloc, script)?;
        let mut session = Session::new(alloc, name)?;
        let mut moments = Moments::new(alloc);
        while let Some(statement) = lines.next(alloc)? {
            let reply = session.zone.take(alloc, statement)?;
            session.zone.fit(alloc);
            moments.add(session.latest())?;
            check_memory(reply)?;
        }
        Ok((session, moments))
    }

    /// A session with a new key set for the zone called `name`. No call is made yet.
    ///
    /// # Errors
    ///
    /// If there is no memory.
    pub fn new(alloc: Global, name: Name<Vec<u8>>) -> Result<Self, AllocError>
        ensures { IfOk result (λ session. StandsAfter name [] [] session) }
    {
        let zone = ZoneState::new(alloc, name)?;
        Ok(Session { zone })
    }

    /// A copy after the same calls, to try a call without committing to it. It takes its memory
    /// from `alloc`.
    ///
    /// # Errors
    ///
    /// If there is no memory.
    pub fn try_clone(&self, alloc: Global) -> Result<Self, AllocError>
        ensures { IfOk result (λ copy. (name : List ℕ) (calls : List Call) (entries : List Entry) →
            StandsAfter name calls entries self.now → StandsAfter name calls entries copy) }
    {
        let zone = self.zone.try_clone(alloc)?;
        Ok(Session { zone })
    }

    /// Makes the call that `line` says, without its line feed, and answers with the line to write.
    /// A refused call, also one that the key set refuses for lack of memory, is answered too: it
    /// counts in the record, and leaves the key set and the published sets as they were. A
    /// malformed line makes no call, and changes nothing.
    ///
    /// # Errors
    ///
    /// Only of a line that makes a call:
    ///
    /// - `OutOfMemory` if there is no memory for the line or for its answer. The session is as it
    ///   was.
    /// - `Lost` if there is then no memory to note the call or for more of its answer. The session
    ///   is then of no more use.
    #[tactic(auto, using(crate::proofs::Sessions::speaks))]
    pub fn call(&mut self, alloc: Global, line: &[u8]) -> Result<Response, CallFault>
        ensures ok { IfOk result (Takes self.old line.now self.new) }
        ensures kept { IfErr result (λ fault. fault ≡ CallFault.OutOfMemory →
            self.new ≡ self.old) }
        ensures memory { IfErr result (λ _. IsSome (says line.now)) }
        ensures spoken { IfOk result (λ response. response ≢ Response.Malformed →
            IsSome (says line.now)) }
    {
        let Ok(read) = read_line(alloc, line) else {
            return Err(CallFault::OutOfMemory);
        };
        let Some(statement) = read else {
            return Ok(Response::Malformed);
        };
        let Ok(mut answer) = String::with_capacity(alloc, ANSWER) else {
            return Err(CallFault::OutOfMemory);
        };
        let Ok(reply) = self.zone.take(alloc, statement) else {
            return Err(CallFault::Lost);
        };
        self.zone.fit(alloc);
        let Ok(()) = push_answer(&mut answer, &reply) else {
            return Err(CallFault::Lost);
        };
        Ok(Response::Answered(answer))
    }

    /// Makes the call that `line` says, without its line feed, but only if it is accepted, and
    /// answers with the line to write. After a refusal or a malformed line the session is as it
    /// was, and nothing counts. So if each call is made this way, the accepted lines are a script
    /// of the session, in which the calls have the same numbers.
    ///
    /// It tries the call on a copy of the session. So it takes as long as the call and that copy.
    ///
    /// # Errors
    ///
    /// `AllocError` if there is no memory, also if the call is refused for lack of it. The session
    /// is then as it was, and the line is one that makes a call.
    pub fn accept(&mut self, alloc: Global, line: &[u8]) -> Result<Attempt, AllocError>
        ensures ok { IfOk result (Tries self.old line.now self.new) }
        ensures kept { IfErr result (λ _. self.new ≡ self.old) }
        ensures memory { IfErr result (λ _. IsSome (says line.now)) }
    {
        match self.attempt(alloc, line)? {
            Trial::Accepted { next, answer } => {
                *self = next;
                Ok(Attempt::Accepted {
                    number: self.calls(),
                    answer,
                })
            }
            Trial::Refused(answer) => Ok(Attempt::Refused(answer)),
            Trial::Malformed => Ok(Attempt::Malformed),
        }
    }

    /// Says what `accept` would do with `line`, and leaves the session as it is: for a caller who
    /// keeps more than a session, and goes on with both or with neither.
    ///
    /// # Errors
    ///
    /// `AllocError` if there is no memory, also if the call is refused for lack of it. The line is
    /// then one that makes a call.
    #[tactic(auto, using(crate::proofs::Sessions::speaks))]
    pub fn attempt(&self, alloc: Global, line: &[u8]) -> Result<Trial, AllocError>
        ensures ok { IfOk result (IsTrial self.now line.now) }
        ensures memory { IfErr result (λ _. IsSome (says line.now)) }
        ensures spoken { IfOk result (λ trial. trial ≢ Trial.Malformed → IsSome (says line.now)) }
    {
        let Some(statement) = read_line(alloc, line)? else {
            return Ok(Trial::Malformed);
        };
        let mut zone = self.zone.try_clone(alloc)?;
        let (reply, answer) = zone.answer(alloc, statement)?;
        if !is_accepted(&reply) {
            return Ok(Trial::Refused(answer));
        }
        zone.fit(alloc);
        let next = Session { zone };
        Ok(Trial::Accepted { next, answer })
    }

    /// Makes `call` on the key set of the session, and answers its reply. A refused call changes
    /// neither the key set nor what is published. It still counts in the record, also if it was
    /// refused because memory ran out.
    ///
    /// # Errors
    ///
    /// If there is no memory to note the call. The session is then of no more use.
    pub fn make(&mut self, alloc: Global, call: Call<'_>) -> Result<Reply, AllocError>
        ensures { IfOk result (λ reply.
            (name : List ℕ) (calls : List Call) (entries : List Entry) →
            StandsAfter name calls entries self.old →
            Advances name calls entries call.entry self.new reply) }
    {
        let reply = self.zone.make(alloc, call)?;
        self.zone.fit(alloc);
        Ok(reply)
    }

    /// The two lines that end the answers of `run_script`: the sets that are published after the
    /// last call, and the verdict on all calls so far. That is `chain safe` if any sets that caches
    /// may hold have a chain of trust or no DS, else `chain broken` with the calls after which the
    /// first three without one were published. The session stays as it is.
    ///
    /// # Errors
    ///
    /// If there is no memory.
    pub fn closing(&self, alloc: Global) -> Result<String, AllocError>
        ensures { IfOk result (λ text.
            (name : List ℕ) (calls : List Call) (entries : List Entry) →
            StandsAfter name calls entries self.now → Closes entries (string_bytes text)) }
    {
        let mut text = String::new(alloc);
        self.zone.push_closing(alloc, &mut text)?;
        Ok(text)
    }

    /// The key set after the calls so far.
    pub fn keyset(&self) -> &KeySet
        ensures { result.now ≡ self.now.zone.recorder.keyset }
    {
        self.zone.keyset()
    }

    /// What is to be published after the calls so far: which keys have a DS, are in the DNSKEY set,
    /// sign it, and sign the zone. The lists take their memory from `alloc`.
    ///
    /// # Errors
    ///
    /// Only `OutOfMemory`, if there is no memory for the lists.
    pub fn published(&self, alloc: Global) -> Result<Published, Error>
        ensures ok { IfOk result (λ sets. AreShown sets self.now.zone.recorder) }
        ensures err { IfErr result (λ e. e ≡ OutOfMemory) }
    {
        self.zone.recorder.published(alloc)
    }

    /// The keys that the starts of the rolls in progress listed, in the order of the starts: for
    /// each roll the old ones, then the new ones. A key that was deleted since is left out.
    #[tactic(auto, using(std::proofs::lemmas::Grind::common_steps))]
    pub fn listed(&self) -> &[Listing]
        ensures { (name : List ℕ) (calls : List Call) (entries : List Entry) →
            StandsAfter name calls entries self.now →
            map as_listed result.now ≡ listed_by calls entries }
    {
        self.zone.courses.listed()
    }

    /// The rolls that were ended early, in the order of these ends. No call reports that what such
    /// an end asked for was done. So a roll stays here until it starts again, or until one starts
    /// that may not be in progress at the same time: callers start that only once it is done.
    #[tactic(auto, using(std::proofs::lemmas::Grind::common_steps))]
    pub fn ended_early(&self) -> &[RollType]
        ensures { (name : List ℕ) (calls : List Call) (entries : List Entry) →
            StandsAfter name calls entries self.now → result.now ≡ ended_by calls entries }
    {
        self.zone.courses.ended()
    }

    /// How many calls the record has, refused ones included: its length. A call that `accept`
    /// refused isn't in it.
    #[tactic(auto, using(std::proofs::lemmas::Grind::common_steps))]
    pub fn calls(&self) -> usize
        ensures { (name : List ℕ) (calls : List Call) (entries : List Entry) →
            StandsAfter name calls entries self.now → result ≡ length entries }
    {
        self.zone.judge.taken()
    }

    /// The last step of each roll so far: its last accepted start or end of its first wait. A roll
    /// that never started has none, and one that ended keeps its last. If the roll's next report is
    /// true, and its TTL is over, no cache holds a set of the reported kinds that was replaced by
    /// that step or earlier.
    #[tactic(auto, using(std::proofs::lemmas::Grind::common_steps))]
    pub fn steps(&self) -> Steps
        ensures { (name : List ℕ) (calls : List Call) (entries : List Entry) →
            StandsAfter name calls entries self.now → AreStepsOf entries result }
    {
        self.zone.judge.steps()
    }

    /// The greatest moment that a call so far, refused ones included, was given as `now`: the start
    /// of 1970 if none was. By the callers' clocks the last call was made at that moment or later.
    #[tactic(auto, using(std::proofs::lemmas::Grind::common_steps))]
    pub fn latest(&self) -> UnixTime
        ensures { (name : List ℕ) (calls : List Call) (entries : List Entry) →
            StandsAfter name calls entries self.now → result ≡ latest_of entries }
    {
        self.zone.judge.latest()
    }

    /// The verdict on all calls so far: `None` if there was always a chain of trust or no DS,
    /// whatever sets caches may have held. Else it names the first three sets without a chain.
    #[tactic(auto, using(std::proofs::lemmas::Grind::common_steps))]
    pub fn verdict(&self) -> Option<Broken>
        ensures { (name : List ℕ) (calls : List Call) (entries : List Entry) →
            StandsAfter name calls entries self.now → IsVerdict entries result }
    {
        self.zone.judge.verdict()
    }
}

/// Fails if `reply` says that the call was refused for lack of memory, and only then. So `resume`
/// leaves no call out.
fn check_memory(reply: Reply) -> Result<(), AllocError>
    ensures ok { IfOk result (λ _. reply ≢ Refused OutOfMemory) }
    ensures err { IfErr result (λ _. reply ≡ Refused OutOfMemory) }
{
    match reply {
        Reply::Refused(Error::OutOfMemory) => Err(AllocError),
        _ => Ok(()),
    }
}
