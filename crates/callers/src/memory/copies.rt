//! Copies of keys and of key sets. If memory runs out there is no copy, and asking again gives one.
//! (What a copy says, `whole_sets` writes.)
use super::failure::Failure;
use super::requests::Memory;
use dnssec_keyset::{Error, KeySet};

/// A copy of each key.
pub(crate) fn copy_keys(set: &KeySet, memory: &mut Memory) -> Result<(), Failure> {
    for (_, key) in set.keys() {
        let mut answer = key.try_clone();
        if matches!(answer, Err(Error::OutOfMemory)) && memory.fails() {
            answer = key.try_clone();
        }
        if answer.is_err() {
            return Err(Failure::Copy);
        }
    }
    Ok(())
}

/// A copy of a key set.
pub(crate) fn copy_set(set: &KeySet, memory: &mut Memory) -> Result<(), Failure> {
    let mut answer = set.try_clone();
    if matches!(answer, Err(Error::OutOfMemory)) && memory.fails() {
        answer = set.try_clone();
    }
    match answer {
        Ok(_) => Ok(()),
        Err(_) => Err(Failure::Copy),
    }
}
