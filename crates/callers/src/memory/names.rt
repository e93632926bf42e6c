//! Names of zones: their texts, their wire bytes, and copies of them.
use super::failure::Failure;
use super::requests::Memory;
use dnssec_base::{Name, NameError};
use std::alloc::Global;

/// The root, and a name that isn't: text and wire bytes.
const NAMES: [(&str, &[u8]); 2] = [(".", &[0]), ("a\\.b.c\\032", b"\x03a.b\x02c \x00")];

/// Whichever request for memory is refused, the call that made it answers so, and the same call
/// then gives the name, its copy or its text.
pub(crate) fn read_copy_and_print(alloc: Global, memory: &mut Memory) -> Result<(), Failure> {
    for (text, wire) in NAMES {
        if !is_read(alloc, text, wire, memory) {
            return Err(Failure::Name(text));
        }
    }
    Ok(())
}

fn is_read(alloc: Global, text: &str, wire: &[u8], memory: &mut Memory) -> bool {
    let mut answer = Name::<Vec<u8>>::from_str(alloc, text);
    if matches!(answer, Err(NameError::OutOfMemory)) && memory.fails() {
        answer = Name::from_str(alloc, text);
    }
    match answer {
        Ok(name) => {
            name.as_slice() == wire
                && is_copied(&name, wire, memory)
                && is_printed(alloc, &name, text, memory)
        }
        Err(_) => false,
    }
}

fn is_copied(name: &Name<Vec<u8>>, wire: &[u8], memory: &mut Memory) -> bool {
    let mut answer = name.try_clone();
    if matches!(answer, Err(NameError::OutOfMemory)) && memory.fails() {
        answer = name.try_clone();
    }
    match answer {
        Ok(copy) => copy.as_slice() == wire,
        Err(_) => false,
    }
}

fn is_printed(alloc: Global, name: &Name<Vec<u8>>, text: &str, memory: &mut Memory) -> bool {
    let mut answer = name.to_string(alloc);
    if answer.is_err() && memory.fails() {
        answer = name.to_string(alloc);
    }
    match answer {
        Ok(printed) => printed.as_str() == text,
        Err(_) => false,
    }
}
