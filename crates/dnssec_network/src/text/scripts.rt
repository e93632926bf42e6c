//! Several scripts with their notes in one text, and the answers to all of their questions.
ghost use Rattle.std.specs.Prelude.{◌≡◌, ◌&&◌, ◌||◌, ◌==◌, IfOk, IfErr, length, map, not};
ghost use Rattle.std.specs.Prelude.{string_bytes};
ghost use Rattle.dnssec_network.specs.Text.Scripts.{AnswersEach, AnswersText, IsFaultOfAll};
ghost use Rattle.dnssec_network.specs.Text.Scripts.{IsFaultAmong};
ghost use Rattle.dnssec_network.specs.Text.Scripts.{as_noted, parts_of, scripts_among};
ghost use denote.Bor.{now};

use super::fault::DueFault;
use super::questions::answer_questions;
use std::alloc::{AllocError, Global};

/// A script, and the notes beside it.
#[derive(Clone, Copy)]
struct ScriptWithNotes<'a> {
    script: &'a [u8],
    notes: &'a [u8],
}

/// Answers the questions among the notes of several scripts. A question is a line `due` with a
/// second since 1970: it asks which reports are due then, by the notes above it. Each answer has a
/// line for each roll that waits for a report, as `report1 ksk-roll 3600 130`.
///
/// The text has a script, an empty line, its notes, an empty line, the next script, and so on. One
/// more empty line may stand at its end. Between two answers stands an empty line.
///
/// # Errors
///
/// - `Script` or `Notes` with the fault of the first script that isn't answered, or of its notes.
///   If no notes follow a script, or nothing is asked in them, that is a fault of notes. An empty
///   text is an empty script.
/// - `Notes` with `OutOfMemory` if memory runs out.
///
/// ```rust
/// let text = "zone example.com\n\nbefore 3600 3600 3600\ndue 120\n";
/// let answers = answer_scripts(alloc, text.as_bytes())?;
/// ```
pub fn answer_scripts(alloc: Global, text: &[u8]) -> Result<String, DueFault>
    ensures ok { IfOk result (λ answers. AnswersText text.now (string_bytes answers)) }
    ensures err { IfErr result (IsFaultOfAll text.now) }
{
    let parts = cut(alloc, text)?;
    let scripts = pair(alloc, &parts)?;
    let answers = answer_each(alloc, &scripts)?;
    let all = answers.join(alloc, "\n")?;
    Ok(all)
}

/// Cuts a text at its empty lines, and answers the parts between them in order. Each part but the
/// last is empty or ends with a line feed. A text without an empty line is one part.
///
/// # Errors
///
/// `AllocError` if memory runs out for the list.
pub fn cut(alloc: Global, text: &[u8]) -> Result<Vec<&[u8]>, AllocError>
    ensures { IfOk result (λ parts. map now parts.items ≡ parts_of text.now) }
{
    let mut parts = Vec::new(alloc);
    let mut begin = 0;
    let mut line_begins = true;
    for (index, byte) in text.iter().enumerate() {
        let is_end = *byte == b'\n';
        let ends = ends_part(line_begins, is_end);
        line_begins = is_end;
        if ends {
            parts.push(&text[begin..index])?;
            begin = index + 1;
        }
    }
    parts.push(&text[begin..])?;
    Ok(parts)
}

/// Whether an empty line stands here, at which a part of a text ends: a line begins at this byte,
/// and the byte is a line feed (`is_end`).
fn ends_part(line_begins: bool, is_end: bool) -> bool
    ensures { result ≡ (line_begins && is_end) }
{
    line_begins && is_end
}

/// Makes pairs of the parts of a text: each script with the notes that follow it. A last script
/// without notes gets empty ones. An empty last part without notes is left out, unless it is the
/// only part. An error if memory runs out.
fn pair<'a>(alloc: Global, parts: &[&'a [u8]]) -> Result<Vec<ScriptWithNotes<'a>>, AllocError>
    ensures { IfOk result (λ scripts.
        map as_noted scripts.items ≡ scripts_among (map now parts.now)) }
{
    let mut scripts = Vec::new(alloc);
    let mut at = 0;
    while at + 1 < parts.len() {
        scripts.push(ScriptWithNotes {
            script: parts[at],
            notes: parts[at + 1],
        })?;
        at += 2;
    }
    if at == parts.len() {
        return Ok(scripts);
    }
    let last = parts[at];
    if !is_script(at == 0, last) {
        return Ok(scripts);
    }
    scripts.push(ScriptWithNotes {
        script: last,
        notes: b"",
    })?;
    Ok(scripts)
}

/// Whether the last part of a text is a script if no notes follow it. It is if it isn't empty, or
/// is the first part too.
fn is_script(is_first: bool, part: &[u8]) -> bool
    ensures { result ≡ (is_first || not (length part.now == 0)) }
{
    is_first || !part.is_empty()
}

/// Answers the questions among the notes of each script: the lines `due` with a second since 1970.
/// The list has one text for each question, in the order of the scripts, and of the questions
/// beside each. If the notes of a script ask nothing, that is a fault of them. The error is
/// `Script` or `Notes` with the fault of the first script that isn't answered, or of its notes. If
/// memory runs out, it may also be `Notes` with `OutOfMemory`.
fn answer_each(alloc: Global, scripts: &[ScriptWithNotes<'_>]) -> Result<Vec<String>, DueFault>
    ensures ok { IfOk result (λ answers.
        AnswersEach (map as_noted scripts.now) (map string_bytes answers.items)) }
    ensures err { IfErr result (IsFaultAmong (map as_noted scripts.now)) }
{
    let mut answers = Vec::new(alloc);
    for noted in scripts {
        let mut more = answer_questions(alloc, noted.script, noted.notes)?;
        answers.append(&mut more)?;
    }
    Ok(answers)
}
