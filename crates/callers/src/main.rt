//! The callers that the READMEs show: one for each crate that a user names, and one for
//! `dnssec_run`. If standard input has scripts, which begin with `zone`, the program writes the
//! whole sets after their calls instead. If it has another letter and then a script, the program
//! makes the calls of that letter, one of which may get no memory.
#![tactic(auto)]

mod first_keys;
mod memory;
mod names;
mod notes;
mod replies;
mod runs;
mod verdicts;
mod wait_ends;
mod whole_sets;

use anyhow::Result;
use std::io::Read;

/// A KSK roll before the first keys have come in.
const TOO_SOON: &str = "zone example.com
add-ksk F - 13 0 0 yes
add-ksk K - 13 1 0 yes
start ksk-roll F K 0
report1 ksk-roll 60 10
wait1 ksk-roll 70
";

fn main(rt: HostRuntime) -> Result<()> {
    let mut input = String::new(rt.alloc());
    rt.stdin().read_to_string(&mut input)?;
    match input.as_bytes() {
        [] => write_callers(&rt),
        [b'z', ..] => whole_sets::write(&rt, input.as_str()),
        [letter, script @ ..] => memory::write_outcome(&rt, *letter, script),
    }
}

fn write_callers(rt: &HostRuntime) -> Result<()> {
    println!(rt; "{}", names::describe(rt.alloc(), "a\\.b.example.com.")?)?;
    println!(rt; "{}", names::describe(rt.alloc(), "a..b")?)?;
    println!(rt; "{:?}", first_keys::bring_in(rt.alloc())?)?;
    println!(rt; "{}", verdicts::judge(rt.alloc(), TOO_SOON)?)?;
    println!(rt; "{}", runs::publish(rt.alloc())?)?;
    println!(rt; "{}", notes::first_report(rt.alloc())?)?;
    println!(rt; "{:?}", replies::without_keys(rt.alloc())?)?;
    Ok(())
}
