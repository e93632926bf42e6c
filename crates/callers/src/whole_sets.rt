//! Writes what scripts are answered, what their records say, whether `audit` and `audit_window`
//! agree on these, and the whole key set after each call: what the getters of a copy give, the
//! texts of its states, and for each roll the actions that are due, when its wait is over, and
//! whether waits are answered so. `tests/scripts/test_sets.py` compares all that with the tables
//! and with stored answers.
ghost use Rattle.std.specs.Prelude.{IfOk, string_bytes};
ghost use Rattle.dnssec_record.specs.Answer.{IsAnswerOf};

use crate::wait_ends::{is_end_true, over_from};
use anyhow::Result;
use dnssec_keyset::{Key, KeySet, KeyState, KeyType, RollType, UnixTime};
use dnssec_record::{Std, audit, audit_window, record_script, run_script};
use std::alloc::Global;
use std::str::FromStr;
use std::time::Duration;

/// The flags of a role: old, signer, present, at parent.
type Flags = [bool; 4];

/// The names of the rolls.
const ROLLS: &str =
    "ksk-roll ksk-double-ds-roll zsk-roll zsk-double-signature-roll csk-roll algorithm-roll";

/// An empty line stands between two scripts, and between two parts of what is written.
pub fn write(rt: &HostRuntime, scripts: &str) -> Result<()> {
    for script in scripts.split("\n\n") {
        println!(rt; "{}", answers_to(rt.alloc(), script)?)?;
        write_record(rt, script)?;
        write_sets(rt, script)?;
    }
    Ok(())
}

/// The set after each line.
fn write_sets(rt: &HostRuntime, script: &str) -> Result<()> {
    for (end, byte) in script.bytes().enumerate() {
        if byte == b'\n' {
            write_set_after(rt, script.get(..end).unwrap_or_default())?;
        }
    }
    write_set_after(rt, script)
}

fn answers_to(alloc: Global, script: &str) -> Result<String>
    ensures { IfOk result (λ answers. IsAnswerOf script.now (string_bytes answers)) }
{
    let mut input = Std::new(script.as_bytes());
    let mut output = Std::new(Vec::new(alloc));
    run_script(alloc, &mut input, &mut output)?;
    Ok(String::from_utf8(output.into_inner())?)
}

fn write_record(rt: &HostRuntime, script: &str) -> Result<()> {
    let entries = record_script(rt.alloc(), script.as_bytes())?.entries;
    let is_one = audit_window(rt.alloc(), &entries) == Ok(audit(&entries));
    println!(rt; "{} entries, one verdict: {is_one}", entries.len())?;
    for entry in &entries {
        let moment = seconds(entry.moment);
        println!(rt; "{moment:?} {:?} {:?}", entry.mark, entry.published)?;
    }
    println!(rt)?;
    Ok(())
}

fn write_set_after(rt: &HostRuntime, script: &str) -> Result<()> {
    let run = record_script(rt.alloc(), script.as_bytes())?;
    let set = run.keyset.try_clone()?;
    println!(rt;
        "{} keys, {} rolls",
        set.keys().len(),
        set.rollstates().len()
    )?;
    write_keys(rt, &set)?;
    write_rolls(rt, &set)
}

fn write_keys(rt: &HostRuntime, set: &KeySet) -> Result<()> {
    for (reference, key) in set.keys() {
        let copy = key.try_clone()?;
        write_key(rt, reference.as_str(), &copy)?;
        write_states(rt, reference.as_str(), copy.keytype())?;
    }
    Ok(())
}

fn write_key(rt: &HostRuntime, reference: &str, key: &Key) -> Result<()> {
    let (kind, first, second) = roles(key.keytype());
    println!(rt;
        "{reference} {:?} {kind} {first:?} {second:?} {} {} {} {:?}",
        key.privref(),
        key.algorithm().to_int(),
        key.key_tag(),
        key.decoupled(),
        stamps(key)
    )?;
    Ok(())
}

/// The kind of a key, and the flags of its roles.
fn roles(keytype: KeyType) -> (&'static str, Flags, Option<Flags>) {
    match keytype {
        KeyType::Ksk(state) => ("ksk", flags(state), None),
        KeyType::Zsk(state) => ("zsk", flags(state), None),
        KeyType::Csk(ksk, zsk) => ("csk", flags(ksk), Some(flags(zsk))),
        KeyType::Include(state) => ("include", flags(state), None),
    }
}

fn write_states(rt: &HostRuntime, reference: &str, keytype: KeyType) -> Result<()> {
    match keytype {
        KeyType::Ksk(state) | KeyType::Zsk(state) | KeyType::Include(state) => {
            write_state(rt, reference, state)
        }
        KeyType::Csk(ksk, zsk) => {
            write_state(rt, reference, ksk)?;
            write_state(rt, reference, zsk)
        }
    }
}

fn write_state(rt: &HostRuntime, reference: &str, state: KeyState) -> Result<()> {
    println!(rt; "{reference}: {state}")?;
    Ok(())
}

fn write_rolls(rt: &HostRuntime, set: &KeySet) -> Result<()> {
    for name in ROLLS.split(' ') {
        write_roll(rt, set, RollType::from_str(name)?)?;
    }
    println!(rt)?;
    Ok(())
}

fn write_roll(rt: &HostRuntime, set: &KeySet, roll: RollType) -> Result<()> {
    println!(rt;
        "{roll:?} {:?} {:?} {:?} {}",
        set.rollstates().get(&roll),
        set.actions(roll)?,
        over_from(set, roll),
        is_end_true(set, roll)
    )?;
    Ok(())
}

fn flags(state: KeyState) -> Flags {
    [
        state.old(),
        state.signer(),
        state.present(),
        state.at_parent(),
    ]
}

/// The stamps of a key: when it was made, published, visible, visible as DS, by its signatures, and
/// withdrawn.
fn stamps(key: &Key) -> [Option<u64>; 6] {
    let stamps = key.timestamps();
    [
        stamps.creation(),
        stamps.published(),
        stamps.visible(),
        stamps.ds_visible(),
        stamps.rrsig_visible(),
        stamps.withdrawn(),
    ]
    .map(seconds)
}

fn seconds(moment: Option<UnixTime>) -> Option<u64> {
    moment.map(|moment| Duration::from(moment).as_secs())
}
