//! The zone of a session or of a script, as the calls so far have left it, and the answers to them
//! as text.
ghost use Rattle.std.specs.Prelude.{◌≡◌, ◌++◌, ℕ, List, [], IfOk, OnOk};
ghost use Rattle.std.specs.Prelude.{codes, decimal, string_bytes};
ghost use Rattle.dnssec_base.specs.ErrorTexts.{error_text};
ghost use Rattle.dnssec_run.specs.Record.{is_accepted};
ghost use Rattle.dnssec_record.specs.Inner.Zone.{Comes, IsZoneAfter, TakesOn};
ghost use Rattle.dnssec_record.specs.Output.{action_name, broken_text, chain_line};
ghost use Rattle.dnssec_record.specs.Output.{published_text, reply_text, set_text};
ghost use Rattle.dnssec_record.specs.Session.{Closes, Follows};
ghost use Rattle.dnssec_run.specs.declared.call.Call.{Call};
ghost use Rattle.dnssec_run.specs.declared.record.Entry.{Entry};

use crate::courses::{Courses, Turn};
use dnssec_base::Name;
use dnssec_judge::{Broken, Judge};
use dnssec_keyset::{Action, Error, KeySet};
use dnssec_run::{Call, Published, PublishedKey, Recorder, Reply};
use dnssec_script::Statement;
use std::alloc::{AllocError, Global};

/// A zone of at most this many keys is fitted to them. So no call costs more for that than another.
const FITTED_KEYS: usize = 4;

/// What the calls so far have made of a zone: the key set with what is published, what the judge
/// needs, and the rolls. Its size follows the keys and what is open, and not how many calls there
/// were. So a call may be tried on a copy.
#[derive(Drop)]
pub(crate) struct ZoneState {
    pub(crate) recorder: Recorder,
    pub(crate) judge: Judge,
    pub(crate) courses: Courses,
}

impl ZoneState {
    /// The state before any call: a new key set for the zone called `name`, and nothing published.
    /// It fails only if there is no memory.
    pub(crate) fn new(alloc: Global, name: Name<Vec<u8>>) -> Result<Self, AllocError>
        ensures { IfOk result (λ zone. IsZoneAfter name [] [] zone) }
    {
        let Ok(judge) = Judge::new(alloc) else {
            return Err(AllocError);
        };
        let recorder = Recorder::new(alloc, name);
        let courses = Courses::new(alloc);
        Ok(ZoneState {
            recorder,
            judge,
            courses,
        })
    }

    /// A copy, on which a call may be tried while this state stays as it is. It takes its memory
    /// from `alloc`, and fails only if there is none.
    pub(crate) fn try_clone(&self, alloc: Global) -> Result<Self, AllocError>
        ensures { IfOk result (λ copy. (name : List ℕ) (calls : List Call) (entries : List Entry) →
            IsZoneAfter name calls entries self.now → IsZoneAfter name calls entries copy) }
    {
        let Ok(recorder) = self.recorder.try_clone(alloc) else {
            return Err(AllocError);
        };
        let Ok(judge) = self.judge.try_clone(alloc) else {
            return Err(AllocError);
        };
        let courses = self.courses.try_clone(alloc)?;
        Ok(ZoneState {
            recorder,
            judge,
            courses,
        })
    }

    /// Makes the call of `statement`, a line of a script, and answers its reply. It updates the
    /// whole state, also which keys the rolls listed. A refused call, also one that ran out of
    /// memory, counts in the record, and changes neither keys nor what is published. If there is no
    /// memory to note the call, it fails, and this state is of no more use.
    pub(crate) fn take(
        &mut self,
        alloc: Global,
        statement: Statement<'_>,
    ) -> Result<Reply, AllocError>
        ensures { IfOk result (TakesOn IsZoneAfter statement.entry self.old self.new) }
    {
        match statement {
            Statement::Call(call) => self.make(alloc, call),
            Statement::Start(start) => self.make(alloc, start.call()),
        }
    }

    /// Makes the call of `statement`, a line of a script, and answers its reply. It updates the key
    /// set, what is published and the judge, but not `courses`: it is for a caller who doesn't ask
    /// which keys the rolls listed. A refused call only counts in the record. If there is no memory
    /// to note the call, it fails, and this state is of no more use.
    pub(crate) fn run(
        &mut self,
        alloc: Global,
        statement: Statement<'_>,
    ) -> Result<Reply, AllocError>
        ensures { IfOk result (TakesOn Follows statement.entry self.old self.new) }
    {
        match statement {
            Statement::Call(call) => self.advance(alloc, call),
            Statement::Start(start) => self.advance(alloc, start.call()),
        }
    }

    /// Makes `call` on the key set, and answers its reply. It also updates what is published, the
    /// judge, and which keys the rolls listed. A refused call counts in the record too, also one
    /// that ran out of memory, but changes neither keys nor what is published.
    ///
    /// # Errors
    ///
    /// If there is no memory to note the call. This state is then of no more use.
    pub(crate) fn make(&mut self, alloc: Global, call: Call<'_>) -> Result<Reply, AllocError>
        ensures { IfOk result (λ reply.
            (name : List ℕ) (calls : List Call) (entries : List Entry) →
            IsZoneAfter name calls entries self.old →
            Comes IsZoneAfter name calls entries call.entry self.new reply) }
    {
        let turn = Turn::of(&call);
        let reply = self.advance(alloc, call)?;
        self.courses.take(alloc, turn.after(&reply))?;
        Ok(reply)
    }

    /// Makes `call` on the key set, tells the judge what it changes, and answers the reply. A
    /// refused call only counts in the record. Only `recorder` and `judge` change. If there is no
    /// memory to note the call, it fails, and this state is of no more use.
    // Inline, so that no line's call passes through memory.
    #[inline(always)]
    fn advance(&mut self, alloc: Global, call: Call<'_>) -> Result<Reply, AllocError>
        ensures known { IfOk result (λ reply.
            (name : List ℕ) (calls : List Call) (entries : List Entry) →
            Follows name calls entries self.old →
            Comes Follows name calls entries call.entry self.new reply) }
        ensures courses { IfOk result (λ _. self.new.courses ≡ self.old.courses) }
    {
        let Ok(outcome) = self.recorder.advance(alloc, call) else {
            return Err(AllocError);
        };
        let changes = self.recorder.changes();
        let noted = self
            .judge
            .note(alloc, outcome.mark, outcome.moment, changes);
        let Ok(()) = noted else {
            return Err(AllocError);
        };
        Ok(outcome.reply)
    }

    /// Makes the call of `statement`, a line of a script, and updates the whole state. It answers
    /// the reply, and the line to write for it, with its line feed.
    ///
    /// # Errors
    ///
    /// If there is no memory, also if the call was refused for lack of it. This state is then of no
    /// more use.
    pub(crate) fn answer(
        &mut self,
        alloc: Global,
        statement: Statement<'_>,
    ) -> Result<(Reply, String), AllocError>
        ensures { IfOk result (λ came. TakesOn IsZoneAfter statement.entry self.old self.new came.0
            × (string_bytes came.1 ≡ reply_text came.0 ++ codes "\n")) }
    {
        let reply = self.take(alloc, statement)?;
        if let Reply::Refused(Error::OutOfMemory) = &reply {
            return Err(AllocError);
        }
        let mut answer = String::new(alloc);
        push_answer(&mut answer, &reply)?;
        Ok((reply, answer))
    }

    /// Gives memory to spare back if no roll is in progress, and the zone has at most `FITTED_KEYS`
    /// keys, as most zones have most of the time. A map takes its first room for nine keys, and a
    /// roll leaves room. No later answer changes by it.
    pub(crate) fn fit(&mut self, alloc: Global)
        ensures { (name : List ℕ) (calls : List Call) (entries : List Entry) →
            IsZoneAfter name calls entries self.old → IsZoneAfter name calls entries self.new }
    {
        let keyset = self.keyset();
        if keyset.rollstates().is_empty() && keyset.keys().len() <= FITTED_KEYS {
            self.judge.fit();
            self.recorder.fit(alloc);
        }
    }

    /// The key set after the calls so far.
    pub(crate) fn keyset(&self) -> &KeySet
        ensures { result.now ≡ self.now.recorder.keyset }
    {
        self.recorder.keyset()
    }

    /// Appends to `text` the two lines that end the answers: the sets that are published after the
    /// last call, and the verdict on all calls so far. If memory runs out, it fails, and `text` may
    /// end in a part of this.
    pub(crate) fn push_closing(&self, alloc: Global, text: &mut String) -> Result<(), AllocError>
        ensures { OnOk result ((name : List ℕ) (calls : List Call) (entries : List Entry) →
            Follows name calls entries self.now → (closing : List ℕ)
            × Closes entries closing × (string_bytes text.new ≡ string_bytes text.old ++ closing)) }
    {
        let Ok(published) = self.recorder.published(alloc) else {
            return Err(AllocError);
        };
        push_published(text, &published)?;
        push_chain_line(text, self.judge.verdict())?;
        Ok(())
    }
}

/// Appends to `text` the line that answers a call with this `reply`: `ok` with the actions that are
/// due, if any, or `refused: ` with the cause. If memory runs out, it fails, and `text` may end in
/// a part of this.
pub(crate) fn push_answer(text: &mut String, reply: &Reply) -> Result<(), AllocError>
    ensures { OnOk result (string_bytes text.new
        ≡ string_bytes text.old ++ reply_text reply.now ++ codes "\n") }
{
    match reply {
        Reply::Done => text.push_str("ok\n"),
        Reply::Actions(actions) => {
            text.push_str("ok")?;
            for action in actions {
                text.push_str(" ")?;
                text.push_str(action_name(*action))?;
            }
            text.push_str("\n")
        }
        Reply::Refused(error) => push_refusal(text, error),
    }
}

/// Appends to `text` the line that answers a refused call, with the words for its `error`. It isn't
/// inlined, so that an accepted call needs no room for it. If memory runs out, it fails, and `text`
/// may end in a part of this.
#[inline(never)]
fn push_refusal(text: &mut String, error: &Error) -> Result<(), AllocError>
    ensures { OnOk result (string_bytes text.new
        ≡ string_bytes text.old ++ codes "refused: " ++ error_text error.now ++ codes "\n") }
{
    write!(text, "refused: {error}\n")
}

/// Whether the call that got this `reply` was accepted, and so not refused.
pub(crate) fn is_accepted(reply: &Reply) -> bool
    ensures { result ≡ is_accepted reply.now }
{
    match reply {
        Reply::Done | Reply::Actions(_) => true,
        Reply::Refused(_) => false,
    }
}

/// The name of an action, as the answers to calls spell it.
#[tactic(auto, using(std::proofs::lemmas::Grind::common_steps))]
pub fn action_name(action: Action) -> &'static str
    ensures { result.now ≡ action_name action }
{
    match action {
        Action::UpdateDnskeyRrset => "UpdateDnskeyRrset",
        Action::CreateCdsRrset => "CreateCdsRrset",
        Action::RemoveCdsRrset => "RemoveCdsRrset",
        Action::UpdateDsRrset => "UpdateDsRrset",
        Action::UpdateRrsig => "UpdateRrsig",
        Action::ReportDnskeyPropagated => "ReportDnskeyPropagated",
        Action::WaitDnskeyPropagated => "WaitDnskeyPropagated",
        Action::ReportDsPropagated => "ReportDsPropagated",
        Action::WaitDsPropagated => "WaitDsPropagated",
        Action::ReportRrsigPropagated => "ReportRrsigPropagated",
        Action::WaitRrsigPropagated => "WaitRrsigPropagated",
    }
}

/// Appends to `text` the line with the references of the keys that have a DS, are in the DNSKEY
/// set, sign it, and sign the zone, as `ds=K dnskey=K,Z signers=K zone=Z`. If memory runs out, it
/// fails, and `text` may end in a part of this.
#[tactic(auto, using(std::proofs::lemmas::Grind::common_steps))]
fn push_published(text: &mut String, published: &Published) -> Result<(), AllocError>
    ensures { OnOk result (string_bytes text.new
        ≡ string_bytes text.old ++ published_text published.now) }
{
    text.push_str("ds=")?;
    push_set(text, &published.ds)?;
    text.push_str(" dnskey=")?;
    push_set(text, &published.dnskey)?;
    text.push_str(" signers=")?;
    push_set(text, &published.dnskey_signers)?;
    text.push_str(" zone=")?;
    push_set(text, &published.zone_signers)?;
    text.push_str("\n")
}

/// Appends to `text` the references of `keys` with commas between them, or `-` if there is no key.
/// If memory runs out, it fails, and `text` may end in a part of this.
fn push_set(text: &mut String, keys: &[PublishedKey]) -> Result<(), AllocError>
    ensures { OnOk result (string_bytes text.new ≡ string_bytes text.old ++ set_text keys.now) }
{
    let Some((first, others)) = keys.split_first() else {
        return text.push_str("-");
    };
    text.push_str(first.reference.as_str())?;
    for key in others {
        text.push_str(",")?;
        text.push_str(key.reference.as_str())?;
    }
    Ok(())
}

/// Appends to `text` the line with the `verdict` on all calls: `chain safe` if it is `None`, or
/// else `chain broken` with the first three sets without a chain. If memory runs out, it fails, and
/// `text` may end in a part of this.
fn push_chain_line(text: &mut String, verdict: Option<Broken>) -> Result<(), AllocError>
    ensures { OnOk result (string_bytes text.new ≡ string_bytes text.old ++ chain_line verdict) }
{
    match verdict {
        None => text.push_str("chain safe\n"),
        Some(broken) => {
            text.push_str("chain broken ")?;
            push_broken(text, broken)?;
            text.push_str("\n")
        }
    }
}

/// Appends to `text` where the chain of trust breaks first, as `at=7 ds=2 dnskey=5 zone=5`: after
/// call `at` caches may hold the DS set of call `ds`, the DNSKEY set of call `dnskey` and the zone
/// signers of call `zone`. Calls count from 1, and 0 is the new key set. If memory runs out, it
/// fails, and `text` may end in a part of this.
fn push_broken(text: &mut String, broken: Broken) -> Result<(), AllocError>
    ensures { OnOk result (string_bytes text.new ≡ string_bytes text.old ++ broken_text broken) }
{
    text.push_str("at=")?;
    push_number(text, broken.at)?;
    text.push_str(" ds=")?;
    push_number(text, broken.ds)?;
    text.push_str(" dnskey=")?;
    push_number(text, broken.dnskey)?;
    text.push_str(" zone=")?;
    push_number(text, broken.zone)
}

/// Appends `number` in decimal digits to `text`. If memory runs out, it fails, and `text` may end
/// in a part of this.
fn push_number(text: &mut String, number: usize) -> Result<(), AllocError>
    ensures { OnOk result (string_bytes text.new ≡ string_bytes text.old ++ decimal number) }
{
    write!(text, "{number}")
}
