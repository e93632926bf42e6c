//! The program `keyset`: answers a script, or does what its word asks for.
//!
//! Its help says what it reads and writes, and with which status it ends: that of its fault, whose
//! text goes to standard error. Before a fault of `status`, `notes` or `next` it writes nothing,
//! unless the output fails.
#![tactic(auto)]

mod fault;
mod words;

use crate::fault::Fault;
use crate::words::{Task, task_of};
use dnssec_network::answer_scripts;
use dnssec_policy::{NextFault, answer_text};
use dnssec_record::{ScriptFault, Session, Std, run_script};
use dnssec_status::status;
use std::alloc::Global;
use std::io::{self, ErrorKind, Read, Write};
use std::process::ExitCode;

/// The name and the release, which the file VERSION has too.
const VERSION: &str = "keyset 1.1.0\n";

const HELP: &str = "\
usage: keyset [WORD]

Reads a script of a DNSSEC key set from standard input, and writes

  without a word  the answer to each call, the published sets and the verdict
  status          the status of the zone after the script, as JSON
  notes           the reports that are due, by notes: after the script come an
                  empty line, the notes and questions
  next            what a policy says to do next: first comes the policy, then the
                  script, then the notes and `next` with a second since 1970, with
                  empty lines between these three
  --version       its name and version; it reads nothing
  --help          this text; it reads nothing

Called as keyset_status or keyset_notes, it does as with that word. It ends with

  0   if all was answered
  1   if the policy, the script or the notes are malformed or refused
  2   if the input or the output fails
  3   if there is no memory
  64  if there is no such word, or more than one

and unless that is 0, standard error says why.
";

/// Runs the program, and answers the status that it ends with: 0 if all was answered, and else that
/// of the fault, whose text goes to standard error.
fn main(rt: HostRuntime) -> ExitCode {
    match run(&rt) {
        Ok(()) => ExitCode::SUCCESS,
        Err(fault) => {
            // The status says the fault too, so its text may be lost.
            let _ = eprintln!(rt; "{fault}");
            ExitCode::from(fault.status())
        }
    }
}

/// Does what the arguments ask for: reads standard input if the task needs it, and writes the
/// answer to standard output. It answers the fault if it can't. `main` then writes that to standard
/// error, and ends with its status.
fn run(rt: &HostRuntime) -> Result<(), Fault> {
    let alloc = rt.alloc();
    match task_of(rt).map_err(Fault::Misuse)? {
        Task::Script => {
            let mut input = Std::new(rt.stdin());
            let mut output = Std::new(rt.stdout());
            Ok(run_script(alloc, &mut input, &mut output)?)
        }
        Task::Status => {
            let script = read_all(alloc, rt.stdin())?;
            write(rt.stdout(), &status_after(alloc, &script)?)
        }
        Task::Notes => {
            let scripts = read_all(alloc, rt.stdin())?;
            let answers = answer_scripts(alloc, &scripts).map_err(Fault::Due)?;
            write(rt.stdout(), answers.as_str().as_bytes())
        }
        Task::Next => {
            let texts = read_all(alloc, rt.stdin())?;
            let mut line = answer_text(alloc, &texts).map_err(Fault::Next)?;
            match line.push_str("\n") {
                Ok(()) => write(rt.stdout(), line.as_str().as_bytes()),
                Err(_) => Err(Fault::Next(NextFault::OutOfMemory)),
            }
        }
        Task::Version => write(rt.stdout(), VERSION.as_bytes()),
        Task::Help => write(rt.stdout(), HELP.as_bytes()),
    }
}

/// All bytes of the input, up to its end. They take memory from `alloc`. The fault is `OutOfMemory`
/// if there is none, and `Device` if reading fails.
fn read_all<R: Read + Drop>(alloc: Global, mut input: R) -> Result<Vec<u8>, ScriptFault> {
    let mut all = Vec::new(alloc);
    match input.read_to_end(&mut all) {
        Ok(_) => Ok(all),
        Err(error) => Err(fault_of_input(&error)),
    }
}

/// The fault after reading the input ended with this error: `OutOfMemory` if memory ran out, and
/// `Device` for any other error.
fn fault_of_input(error: &io::Error) -> ScriptFault {
    match error.kind() {
        ErrorKind::OutOfMemory => ScriptFault::OutOfMemory,
        _ => ScriptFault::Device,
    }
}

/// The status of the zone after all calls of a script, as a line of JSON. The fault is `Malformed`
/// with the number of the first malformed line, counted from 1, or `OutOfMemory`, also if a call is
/// refused for lack of memory.
fn status_after(alloc: Global, script: &[u8]) -> Result<Vec<u8>, ScriptFault> {
    let session = Session::resume(alloc, script)?;
    Ok(status(alloc, &session)?)
}

/// Writes the whole text to the output. If that fails, the fault is `Fault::Script` with
/// `ScriptFault::Device`, and a beginning of the text may be written.
fn write<W: Write + Drop>(mut output: W, text: &[u8]) -> Result<(), Fault> {
    match output.write_all(text) {
        Ok(()) => Ok(()),
        Err(_) => Err(Fault::Script(ScriptFault::Device)),
    }
}
