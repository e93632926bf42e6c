//! The lines of a script.
ghost use Rattle.std.specs.Prelude.{◌≡◌, ℕ, List, [], map, IfOk, IfErr, IfSome, IfNone};
ghost use denote.Bor.{now};
ghost use Rattle.dnssec_base.specs.NameText as names;
ghost use Rattle.dnssec_script.specs.Script.{BeginsWithZone, IsZoneLine, NamesZone};
ghost use Rattle.dnssec_script.specs.Script.{lines_of, without_end};
ghost use Rattle.dnssec_script.specs.Inner.Reading.{HasRead, IsReadFault};
ghost use Rattle.dnssec_script.specs.declared.lines.ReadFault.TheVariants.{OutOfMemory};

use crate::fields::split_once;
use dnssec_base::{Name, NameError};
use std::alloc::{AllocError, Global};

/// Why a script isn't read on.
#[derive(Clone, Copy, Debug, PartialEq)]
pub enum ReadFault {
    /// The line of this number, counted from 1, is the first that doesn't have its form.
    Malformed(usize),
    /// Memory has run out.
    OutOfMemory,
}

impl From<AllocError> for ReadFault {
    ghost from_gives = { λ _ fault. fault ≡ OutOfMemory };

    /// The fault `OutOfMemory`, for a request for memory that failed.
    fn from(_: AllocError) -> Self {
        ReadFault::OutOfMemory
    }
}

/// The lines of a text, without their line feeds, for a caller who reads other lines than those of
/// a script. A line feed at the very end only ends the last line. An empty text has one line, which
/// is empty. Only the list takes memory.
///
/// # Errors
///
/// `AllocError` if memory runs out.
pub fn all_lines(alloc: Global, text: &[u8]) -> Result<Vec<&[u8]>, AllocError>
    ensures { IfOk result (λ lines. map now lines.items ≡ lines_of text.now) }
{
    without_end(text)
        .split(|byte| *byte == b'\n')
        .collect(alloc)
}

/// The script without the line feed at its very end. A script that doesn't end with one is answered
/// as it is.
#[tactic(auto, using(crate::proofs::Judging::ends))]
fn without_end(script: &[u8]) -> &[u8]
    ensures { result.now ≡ without_end script.now }
{
    match script.split_last() {
        Some((last, text)) => { if *last == b'\n' { text } else { script } }
        None => script,
    }
}

/// The name of the zone that the first line of a script names: `zone `, and then a domain name,
/// without a line feed. `None` if the line doesn't have this form.
///
/// # Errors
///
/// `AllocError` if there is no memory for the name. A line that names no zone takes none.
pub fn read_zone(alloc: Global, line: &[u8]) -> Result<Option<Name<Vec<u8>>>, AllocError>
    ensures found { IfOk result (λ found. IfSome found (IsZoneLine line.now)) }
    ensures none { IfOk result (λ found.
        IfNone found ((name : List ℕ) → ¬ IsZoneLine line.now name)) }
    ensures memory { IfErr result (λ _. NamesZone line.now) }
{
    match line.strip_prefix(b"zone ".as_slice()) {
        Some(text) => zone_name(alloc, text),
        None => Ok(None),
    }
}

/// The domain name that the text spells, or `None` if it spells none. The only error is that there
/// is no memory for the name.
fn zone_name(alloc: Global, text: &[u8]) -> Result<Option<Name<Vec<u8>>>, AllocError>
    ensures found { IfOk result (λ found. IfSome found (names.Spells text.now)) }
    ensures none { IfOk result (λ found.
        IfNone found ((name : List ℕ) → ¬ names.Spells text.now name)) }
    ensures memory { IfErr result (λ _. (name : List ℕ) × names.Spells text.now name) }
{
    let Ok(text) = str::from_utf8(text) else {
        return Ok(None);
    };
    match Name::from_str(alloc, text) {
        Ok(name) => Ok(Some(name)),
        Err(NameError::OutOfMemory) => Err(AllocError),
        Err(_) => Ok(None),
    }
}

/// The lines of a script that are not read yet. Each is read when its turn comes, so no list of
/// them takes memory.
#[derive(Drop)]
pub struct Lines<'a> {
    /// What comes after the lines that were read; none after the last one.
    pub(crate) rest: Option<&'a [u8]>,
    /// How many lines were read.
    pub(crate) count: usize,
}

impl<'a> Lines<'a> {
    /// Begins to read a script. Answers the name of the zone that the first line names, and the
    /// lines after that one. None of them is read yet.
    ///
    /// # Errors
    ///
    /// - `Malformed(1)` if the first line names no zone.
    /// - `OutOfMemory` if there is no memory for the name.
    pub fn begin(alloc: Global, script: &'a [u8]) -> Result<(Name<Vec<u8>>, Lines<'a>), ReadFault>
        ensures ok { IfOk result (λ begun. HasRead script.now begun.0 [] begun.1) }
        ensures zone { IfOk result (λ _. BeginsWithZone script.now) }
        ensures err { IfErr result (IsReadFault script.now) }
    {
        let (first, rest) = split_once(without_end(script), b'\n');
        match read_zone(alloc, first)? {
            Some(name) => Ok((name, Lines { rest, count: 1 })),
            None => Err(ReadFault::Malformed(1)),
        }
    }
}
