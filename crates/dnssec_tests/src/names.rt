//! Texts of names against their wire bytes, as RFC 1035 and the rules of this crate give them.
use dnssec_base::{Name, NameError};
use std::alloc::{AllocError, Global};
use std::test::Fail;

/// Texts that spell a name, its wire bytes, and what it prints.
const SPELLED: &[(&str, &[u8], &str)] = &[
    (".", &[0], "."),
    ("example.com", b"\x07example\x03com\x00", "example.com"),
    ("example.com.", b"\x07example\x03com\x00", "example.com"),
    ("eXample.COM", b"\x07eXample\x03COM\x00", "eXample.COM"),
    ("a\\.b", b"\x03a.b\x00", "a\\.b"),
    ("a\\ b", b"\x03a b\x00", "a\\032b"),
    ("a\\032b", b"\x03a b\x00", "a\\032b"),
    ("\\.", b"\x01.\x00", "\\."),
    ("\\\\", b"\x01\\\x00", "\\\\"),
    ("a\\\"b", b"\x03a\"b\x00", "a\"b"),
    ("\\025", b"\x01\x19\x00", "\\025"),
    ("\\255", b"\x01\xFF\x00", "\\255"),
    (
        "0/25.2.0.192.in-addr.arpa",
        b"\x040/25\x012\x010\x03192\x07in-addr\x04arpa\x00",
        "0/25.2.0.192.in-addr.arpa",
    ),
];

/// Texts, and a letter for the answer to each of their beginnings, from the empty one to the whole
/// text, as `letter` gives it; `-` if the beginning cuts a character.
const BEGINNINGS: &[(&str, &str)] = &[
    (".", "eo"),
    ("example.com.", "eoooooooooooo"),
    ("eXample.COM", "eooooooooooo"),
    ("a\\.b", "eosoo"),
    ("a\\ b", "eosoo"),
    ("a\\032b", "eosssoo"),
    ("\\.", "eso"),
    ("\\\\", "eso"),
    ("a\\\"b", "eosoo"),
    ("\\025", "essso"),
    ("\\255", "essso"),
    ("0/25.2.0.192.in-addr.arpa", "eooooooooooooooooooooooooo"),
    ("..", "eoe"),
    (".a", "eoe"),
    ("a..b", "eooee"),
    ("a.. ", "eooee"),
    ("a b", "eobb"),
    (" ", "eb"),
    ("a\x7F", "eob"),
    ("ü", "e-b"),
    ("a b..", "eobbbb"),
    ("\\300", "essss"),
    ("\\256", "essss"),
    ("\\25", "esss"),
    ("\\2a5", "essss"),
    ("\\2", "ess"),
    ("a\\", "eos"),
    ("\\\x7F", "ess"),
    ("\\\x1F", "ess"),
    ("\\ü", "es-s"),
    ("\\300 ", "esssss"),
    ("a.\\25.b", "eoosssss"),
    ("a\\032.b..", "eosssooooe"),
    ("", "e"),
];

/// Labels of 61 to 64 letters. The longest that a name may have are of 63.
const L61: &str = "aaaaaaaaaaaaaaaaaaaaaaaaaaaaaaaaaaaaaaaaaaaaaaaaaaaaaaaaaaaaa";

const L62: &str = "aaaaaaaaaaaaaaaaaaaaaaaaaaaaaaaaaaaaaaaaaaaaaaaaaaaaaaaaaaaaaa";

const L63: &str = "aaaaaaaaaaaaaaaaaaaaaaaaaaaaaaaaaaaaaaaaaaaaaaaaaaaaaaaaaaaaaaa";

const L64: &str = "aaaaaaaaaaaaaaaaaaaaaaaaaaaaaaaaaaaaaaaaaaaaaaaaaaaaaaaaaaaaaaaa";

/// Labels with dots between them, and a text after them; how many bytes of all this are still a
/// name, and the letters of the longer beginnings; and how many wire bytes the name of the whole
/// text has, or 0 if it has a fault.
const LONGEST: &[(&[&str], &str, usize, &str, usize)] = &[
    (&[L63], "", 63, "", 65),
    (&[L62], "\\255", 62, "ssso", 65),
    (&[L63], "\\255", 63, "sssl", 0),
    (&[L63], "\\300", 63, "ssss", 0),
    (&[L63], " ", 63, "b", 0),
    (&[L64], "", 63, "l", 0),
    (&[L64], "..", 63, "lll", 0),
    (&[L63, L63, L63, L61], "", 253, "", 255),
    (&[L63, L63, L61, L63], "", 253, "", 255),
    (&[L63, L63, L63, L61], ".", 254, "", 255),
    (&[L63, L63, L63, L61], ".a", 254, "n", 0),
    (&[L63, L63, L63, L61], "..", 254, "e", 0),
    (&[L63, L63, L63, L61], "\\", 253, "s", 0),
    (&[L63, L63, L63, L62], "", 253, "n", 0),
    (&[L63, L63, L61, L64], "", 253, "l", 0),
];

/// Bytes, and whether they are the wire bytes of a name.
const WIRE: &[(&[u8], bool)] = &[
    (&[0], true),
    (&[], false),
    (b"\x01a", false),
    (b"\x03abc\x00\x00", false),
    (b"\x03ab\x00", false),
    (b"\x00\x00", false),
    (b"\xC0\x0C", false),
];

/// The name that a text spells, and what it prints.
fn read(alloc: Global, text: &str) -> Result<(Name<Vec<u8>>, String), NameError> {
    let name = Name::from_str(alloc, text)?;
    let printed = name.to_string(alloc)?;
    Ok((name, printed))
}

/// Whether a text spells a name with these wire bytes, which prints this.
fn spells(alloc: Global, text: &str, wire: &[u8], print: &str) -> bool {
    match read(alloc, text) {
        Ok((name, printed)) => name.as_slice() == wire && printed.as_str() == print,
        Err(_) => false,
    }
}

/// A letter for what a text is answered: `o` for a name, which has to be read back from what it
/// prints, and one for each fault.
fn letter(alloc: Global, text: &str) -> char {
    match read(alloc, text) {
        Ok((name, printed)) => {
            let is_read_back = spells(alloc, &printed, name.as_slice(), &printed);
            if is_read_back { 'o' } else { '?' }
        }
        Err(NameError::EmptyLabel) => 'e',
        Err(NameError::LongLabel) => 'l',
        Err(NameError::LongName) => 'n',
        Err(NameError::BadEscape) => 's',
        Err(NameError::BadByte) => 'b',
        Err(NameError::OutOfMemory) => 'm',
    }
}

/// The letters of all beginnings of a text.
fn letters(alloc: Global, text: &str) -> Result<String, AllocError> {
    let mut letters = String::new(alloc);
    for end in 0..=text.len() {
        letters.push(text.get(..end).map_or('-', |front| letter(alloc, front)))?;
    }
    Ok(letters)
}

/// Labels with dots between them, and then the end.
fn long_text(alloc: Global, labels: &[&str], end: &str) -> Result<String, AllocError> {
    let front = labels.join(alloc, ".")?;
    [front.as_str(), end].concat(alloc)
}

/// How many wire bytes the name has that a text spells, or 0 if it has a fault.
fn wire_length(alloc: Global, text: &str) -> usize {
    match Name::from_str(alloc, text) {
        Ok(name) => name.as_slice().len(),
        Err(_) => 0,
    }
}

/// Whether this many bytes of a text are a name, and its longer beginnings are answered by these
/// letters.
fn is_name_up_to(alloc: Global, text: &str, named: usize, rest: &str) -> Result<bool, AllocError> {
    let names = "o".repeat(alloc, named)?;
    let wanted = ["e", names.as_str(), rest].concat(alloc)?;
    Ok(letters(alloc, text)? == wanted)
}

/// Whether bytes are taken as a name. They are found in it, or come back.
fn is_taken(alloc: Global, bytes: &[u8]) -> Result<bool, AllocError> {
    match Name::from_octets(Vec::from_slice(alloc, bytes)?) {
        Ok(name) => Ok(name.as_slice() == bytes),
        Err(back) => Ok(back.as_slice() != bytes),
    }
}

#[test]
fn reads_and_prints(rt: HostRuntime) {
    for (text, wire, print) in SPELLED {
        assert!(rt; spells(rt.alloc(), text, wire, print), "{text}");
    }
}

#[test]
fn answers_each_beginning(rt: HostRuntime) -> Result<(), Fail> {
    for (text, wanted) in BEGINNINGS {
        let given = letters(rt.alloc(), text)?;
        assert_eq!(rt; given.as_str(), *wanted, "the beginnings of {text}");
    }
    Ok(())
}

#[test]
fn keeps_the_limits(rt: HostRuntime) -> Result<(), Fail> {
    for (labels, end, named, rest, wire) in LONGEST {
        let text = long_text(rt.alloc(), labels, end)?;
        let is_so = is_name_up_to(rt.alloc(), &text, *named, rest) == Ok(true)
            && wire_length(rt.alloc(), &text) == *wire;
        assert!(rt; is_so, "{text}");
    }
    let texts = BEGINNINGS.len() + LONGEST.len();
    println!(rt; "dnssec_tests: all beginnings of {texts} texts of names")?;
    Ok(())
}

#[test]
fn takes_wire_names_alone(rt: HostRuntime) {
    for (bytes, is_name) in WIRE {
        assert_eq!(rt; is_taken(rt.alloc(), bytes), Ok(*is_name), "{bytes:?}");
    }
}
