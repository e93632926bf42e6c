//! The words that the program takes, and the names that it is called by.
ghost use Rattle.std.specs.Prelude.{◌≤◌, IfSome, length};

use std::env::{Env, FillError};

/// What the program is asked to do.
#[derive(Clone, Copy)]
pub enum Task {
    /// To answer a script.
    Script,
    /// To say where the keys and rolls of a zone are after a script.
    Status,
    /// To say which reports are due, by scripts and their notes.
    Notes,
    /// To say what a policy wants to be done next, by a script and its notes.
    Next,
    Version,
    Help,
}

/// Each word with what it asks for. A link of the name `keyset_status` asks for what `status` does.
const WORDS: [(&str, Task); 3] = [
    ("status", Task::Status),
    ("notes", Task::Notes),
    ("next", Task::Next),
];

/// What may be asked under each name.
const OPTIONS: [(&str, Task); 2] = [("--version", Task::Version), ("--help", Task::Help)];

/// How the name of a link begins, before its word.
const LINK: &str = "keyset_";

/// The longest argument that is read. Only the name of a program may be so long, as a path.
const LONGEST: usize = 4096;

/// Why the arguments ask for nothing.
#[derive(Clone, Copy)]
pub enum Misuse {
    NoSuchWord,
    MoreThanOneWord,
}

/// The task that the arguments ask for. Argument 0 is the name that the program is called by, and
/// may be missing. If it is the name of a link, as `keyset_status`, it asks for a task, and only an
/// option as `--help` may follow. After another name one word asks, and without a word the task is
/// `Task::Script`.
///
/// The error is `MoreThanOneWord` if two arguments follow the name, whatever they are, or if a
/// known word follows the name of a link, which is a word already. It is `NoSuchWord` for an
/// unknown word.
pub fn task_of<E: Env>(env: &E) -> Result<Task, Misuse> {
    let mut name = [0; LONGEST];
    let mut word = [0; LONGEST];
    let linked = match argument(env, 0, &mut name) {
        None => None,
        Some(length) => task_of_link(&name[..length]),
    };
    let Some(length) = argument(env, 1, &mut word) else {
        return match linked {
            None => Ok(Task::Script),
            Some(task) => Ok(task),
        };
    };
    if argument(env, 2, &mut name).is_some() {
        return Err(Misuse::MoreThanOneWord);
    }
    task_of_word(&word[..length], linked.is_some())
}

/// Puts the argument of this number into the front of `room`, and answers its length in bytes, or
/// `None` if there is no such argument. Number 0 is the program's name. An argument longer than
/// `room` counts as empty, since no word is so long. What stands after that length means nothing.
fn argument<E: Env>(env: &E, number: usize, room: &mut [u8]) -> Option<usize>
    ensures { IfSome result (λ length_of. length_of ≤ length room.new) }
{
    match env.arg(number, room) {
        Ok(length) => Some(length),
        Err(FillError::TooLong) => Some(0),
        Err(FillError::NotPresent) => None,
    }
}

/// The task that a word asks for. `is_linked` is whether the program is called by the name of a
/// link, which is a word already: after it the error for a known word is `MoreThanOneWord`, but an
/// option as `--help` is taken. The error for an unknown word is `NoSuchWord`.
fn task_of_word(word: &[u8], is_linked: bool) -> Result<Task, Misuse> {
    if let Some(task) = find(&OPTIONS, word) {
        return Ok(task);
    }
    match find(&WORDS, word) {
        None => Err(Misuse::NoSuchWord),
        Some(task) => {
            if is_linked {
                Err(Misuse::MoreThanOneWord)
            } else {
                Ok(task)
            }
        }
    }
}

/// The task that the program's name asks for if it is that of a link, as `keyset_status`, or else
/// `None`. `path` is what the program is called by; only what follows its last `/` counts.
fn task_of_link(path: &[u8]) -> Option<Task> {
    let mut name = path;
    for (index, byte) in path.iter().enumerate() {
        if *byte == b'/' {
            name = &path[index + 1..];
        }
    }
    find(&WORDS, name.strip_prefix(LINK.as_bytes())?)
}

/// The task of this word in a `table` of words with their tasks, or `None` if the word isn't there.
fn find(table: &[(&str, Task)], word: &[u8]) -> Option<Task> {
    for (name, task) in table {
        if name.as_bytes() == word {
            return Some(*task);
        }
    }
    None
}
