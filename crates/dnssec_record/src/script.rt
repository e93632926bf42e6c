//! Scripts: calls in a text, and the answers to them.
ghost use Rattle.std.specs.Prelude.{◌≡◌, ◌≢◌, ◌⊎◌, ◌↔◌, ℕ, ◌<◌, List, IfOk, IfErr, IfSome};
ghost use Rattle.std.specs.Prelude.{OnOk, OnErr, Err, string_bytes};
ghost use Rattle.std.specs.Io.KnownBytes.{Appends, IsAtEnd, Keeps};
ghost use Rattle.dnssec_record.specs.Answer.{IsAnswerOf, AnswerFault, EndsSafe, IsRunOf};
ghost use Rattle.dnssec_record.specs.Answer.{IsSafeAnswer, TakesAnswer, TakesAtMost};
ghost use Rattle.dnssec_record.specs.Device.{Counts};
ghost use Rattle.dnssec_record.specs.Inner.Devices.{FaultOfInput, TakesFront};
ghost use Rattle.dnssec_script.specs.Script.{IsFirstMalformed, IsScript};
ghost use Rattle.dnssec_run.specs.declared.call.Call.{Call};
ghost use Rattle.dnssec_record.specs.declared.fault.ScriptFault.TheVariants.{Device, OutOfMemory};

use crate::device::{DeviceFault, Sink, Source};
use crate::fault::ScriptFault;
use crate::zone::{ZoneState, push_answer};
use dnssec_run::{Recorder, Run};
use dnssec_script::Lines;
use std::alloc::Global;

/// How many bytes the input is asked for at once.
const PIECE: usize = 4096;

/// Runs the script that `input` gives, and writes its answers to `output`.
///
/// Each call has a line with its answer: `ok` and the actions that are due, or `refused: ` and the
/// reason. A refused call doesn't stop the script. After the answers comes a line with the sets
/// that are published at the end. The last line is the verdict on the record: `chain safe`, or
/// `chain broken at=N ds=I dnskey=J zone=L` with the first sets without a chain. Nothing is written
/// before the whole input is read and the verdict is known.
///
/// `alloc` gives the memory for the script, its calls and the answers. The caller makes sure that
/// the counts of faults of both devices have room for one more.
///
/// # Errors
///
/// - `Malformed` with the number of the first malformed line. Nothing was written.
/// - `Device` if `input` or `output` fails. What was written is a beginning of the answers.
/// - `OutOfMemory` if memory runs out. Nothing was written. If only the key set lacks memory for a
///   call, it refuses that call instead.
///
/// ```rust
/// let mut input = Std::new(rt.stdin());
/// let mut output = Std::new(rt.stdout());
/// if let Err(fault) = run_script(rt.alloc(), &mut input, &mut output) {
///     eprintln!(rt; "{fault}")?;
/// }
/// ```
#[tactic(auto, using(std::proofs::lemmas::Grind::common_steps))]
pub fn run_script<R: Source, W: Sink>(
    alloc: Global,
    input: &mut R,
    output: &mut W,
) -> Result<(), ScriptFault>
    requires input_counts { R.faults input.old < u64.MAX }
    requires output_counts { W.faults output.old < u64.MAX }

    // An accepted input is a script, and the output took what a run of its calls says.
    ensures ok { OnOk result (IfSome (R.left input.old)
        (λ script. TakesAnswer script (W.taken output.old) (W.taken output.new))) }
    ensures ok_end { OnOk result (IsAtEnd (R.left input.new)) }

    // If the list of its calls is plain, the run is safe, and the last line says so.
    ensures safe { OnOk result (IfSome (R.left input.old)
        (λ script. IsSafeAnswer script (W.taken output.old) (W.taken output.new))) }
    ensures chain { OnOk result (IfSome (R.left input.old)
        (λ script. EndsSafe script (W.taken output.old) (W.taken output.new))) }

    // Of a malformed input the first malformed line is named, and nothing is written.
    ensures malformed { (n : ℕ) → result ≡ Err (ScriptFault.Malformed n) →
        IfSome (R.left input.old) (λ script. IsFirstMalformed script n) }
    ensures malformed_end { (n : ℕ) → result ≡ Err (ScriptFault.Malformed n) →
        IsAtEnd (R.left input.new) }
    ensures malformed_silent { (n : ℕ) → result ≡ Err (ScriptFault.Malformed n) →
        Keeps (W.taken output.old) (W.taken output.new) }

    // If memory runs out, nothing is written.
    ensures memory_silent { result ≡ Err OutOfMemory →
        Keeps (W.taken output.old) (W.taken output.new) }

    // A script is never called malformed.
    ensures well_formed { IfSome (R.left input.old)
        (λ script. (name : List ℕ) (calls : List Call) → IsScript script name calls →
        (n : ℕ) → result ≢ Err (ScriptFault.Malformed n)) }

    // A device is blamed if and only if one has failed.
    ensures device { (result ≡ Err ScriptFault.Device)
        ↔ (R.faults input.old < R.faults input.new ⊎ W.faults output.old < W.faults output.new) }

    // After a fault the output has taken at most a beginning of the answers.
    ensures begun { OnErr result
        (TakesAtMost (R.left input.old) (W.taken output.old) (W.taken output.new)) }
{
    let script = read_to_end(alloc, input)?;
    let text = answer_to(alloc, &script)?;
    write_all(output, text.as_str().as_bytes())?;
    Ok(())
}

/// Reads `input` to its end, and answers all bytes that it had left. It fails with `Device` if a
/// read fails, which `input` counts, or with `OutOfMemory`. What was read is then lost.
#[tactic(auto, using(std::proofs::lemmas::Grind::common_steps))]
fn read_to_end<R: Source>(alloc: Global, input: &mut R) -> Result<Vec<u8>, ScriptFault>
    requires { R.faults input.old < u64.MAX }
    ensures whole { IfOk result (λ script.
        IfSome (R.left input.old) (λ text. script.items ≡ text)) }
    ensures end { OnOk result (IsAtEnd (R.left input.new)) }
    ensures counted { OnOk result (R.faults input.new ≡ R.faults input.old) }
    ensures err { IfErr result (FaultOfInput (R.faults input.old) (R.faults input.new)) }
{
    let mut script = Vec::new(alloc);
    let mut piece = [0; PIECE];
    loop {
        let count = input.read(&mut piece)?;
        if count == 0 {
            return Ok(script);
        }
        script.extend_from_slice(&piece[..count])?;
    }
}

/// The whole text that answers `script`: a line for each call, then the sets that are published
/// after the last one, and last the verdict on all calls. It runs the calls on a new key set, and
/// keeps one call at a time and no record of them. It fails with `Malformed` at the first malformed
/// line, or with `OutOfMemory`, and then answers no text. A call that is refused for lack of memory
/// is no fault.
fn answer_to(alloc: Global, script: &[u8]) -> Result<String, ScriptFault>
    ensures ok { IfOk result (λ text. IsAnswerOf script.now (string_bytes text)) }
    ensures err { IfErr result (AnswerFault script.now) }
{
    let (name, mut lines) = Lines::begin(alloc, script)?;
    let mut zone = ZoneState::new(alloc, name)?;
    let mut text = String::new(alloc);
    while let Some(statement) = lines.next(alloc)? {
        let Ok(reply) = zone.run(alloc, statement) else {
            return Err(ScriptFault::OutOfMemory);
        };
        push_answer(&mut text, &reply)?;
    }
    zone.push_closing(alloc, &mut text)?;
    Ok(text)
}

/// Runs the calls of a script on a new key set, and answers that key set with the record: an entry
/// for each call in its order, also for a refused one. It is for a caller who looks at what was
/// published after single calls.
///
/// # Errors
///
/// - `Malformed` with the number of the first malformed line. What was run is gone.
/// - `OutOfMemory` if there is no memory for the script or its record.
///
/// ```rust
/// let run = record_script(alloc, script.as_bytes())?;
/// if let Some(broken) = audit_window(alloc, &run.entries)? {
///     // What was published after call number `broken.at`.
///     let published = &run.entries[broken.at - 1].published;
/// }
/// ```
pub fn record_script(alloc: Global, script: &[u8]) -> Result<Run, ScriptFault>
    ensures ok { IfOk result (λ run. IsRunOf script.now run.keyset run.entries.items) }
    ensures err { IfErr result (AnswerFault script.now) }
{
    let (name, mut lines) = Lines::begin(alloc, script)?;
    let mut recorder = Recorder::new(alloc, name);
    let mut entries = Vec::new(alloc);
    while let Some(statement) = lines.next(alloc)? {
        let Ok(entry) = statement.make(alloc, &mut recorder) else {
            return Err(ScriptFault::OutOfMemory);
        };
        entries.push(entry)?;
    }
    Ok(Run {
        keyset: recorder.into_keyset(),
        entries,
    })
}

/// Writes all of `bytes` to `output`, in as many writes as it takes. If one fails, so does this:
/// `output` has counted that, and has taken a front part of the bytes.
fn write_all<W: Sink>(output: &mut W, bytes: &[u8]) -> Result<(), DeviceFault>
    requires { W.faults output.old < u64.MAX }
    ensures ok { OnOk result (Appends (W.taken output.old) (W.taken output.new) bytes.now) }
    ensures err { OnErr result (TakesFront (W.taken output.old) (W.taken output.new) bytes.now) }
    ensures counted { Counts result (W.faults output.old) (W.faults output.new) }
{
    let mut rest = bytes;
    while !rest.is_empty() {
        let count = output.write(rest)?;
        rest = &rest[count..];
    }
    Ok(())
}
