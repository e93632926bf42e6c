//! Calls, one of which may get no memory. `tests/scripts/test_memory.py` lets each request for
//! memory fail.
mod copies;
mod failure;
mod names;
mod requests;
mod verdicts;

use anyhow::Result;
use failure::Failure;
use requests::Memory;
use std::alloc::Global;

/// Makes the calls of a letter, after those of a script. It writes `refused` if a call was refused
/// for lack of memory: that call was accepted when it was made again, or stands as refused in its
/// record. It writes `ample` if no call was. If something went otherwise, the error says what.
pub fn write_outcome(rt: &HostRuntime, letter: u8, script: &[u8]) -> Result<()> {
    let mut memory = Memory::MayFail;
    make_calls(rt.alloc(), letter, script, &mut memory)?;
    println!(rt; "{}", word(memory))?;
    Ok(())
}

fn make_calls(
    alloc: Global,
    letter: u8,
    script: &[u8],
    memory: &mut Memory,
) -> Result<(), Failure> {
    match letter {
        b'i' => Ok(()),
        b'n' => names::read_copy_and_print(alloc, memory),
        _ => {
            let run = verdicts::record(alloc, script, memory)?;
            match letter {
                b'v' => Ok(()),
                b'k' => copies::copy_keys(&run.keyset, memory),
                b's' => copies::copy_set(&run.keyset, memory),
                b'd' => verdicts::judge_by_definition(&run.entries),
                b'w' => verdicts::judge_by_window(alloc, &run.entries, memory),
                _ => Err(Failure::Letter),
            }
        }
    }
}

fn word(memory: Memory) -> &'static str {
    match memory {
        Memory::Failed => "refused",
        Memory::MayFail => "ample",
    }
}
