//! The reports that are due, as lines.
ghost use Rattle.std.specs.Prelude.{◌≡◌, ◌++◌, ◌*◌, ℕ, IfOk, OnOk, codes, decimal, string_bytes};
ghost use Rattle.std.specs.List.{flat_map};
ghost use Rattle.dnssec_key.specs.RollTable.{is_second};
ghost use Rattle.dnssec_run.specs.Steps.{step_of};
ghost use Rattle.dnssec_network.specs.Text.Due.{due_line, due_text, line_for, report_of};
ghost use Rattle.dnssec_network.specs.Text.Due.{report_word, first_second, ttl_line, why_text};

use super::line::kind_name;
use crate::due::{DueReport, NotYet};
use crate::notes::Notes;
use dnssec_key::roll_name;
use dnssec_keyset::{Half, KeySet, RollType, UnixTime};
use dnssec_run::{Moments, Steps};
use dnssec_zone::all_rolls;
use std::alloc::{AllocError, Global};
use std::time::Duration;

/// Makes a text with a line for each roll that waits for a report, as this would be made at
/// `seconds` since 1970. If the report is due, that is its line of a script, as
/// `report1 ksk-roll 3600 130`. If not, the line says which sets it waits for, as
/// `not yet: report1 ksk-roll waits for dnskey`, or up to which second, as
/// `not yet: report1 ksk-roll waits until 100`. The text is empty if no roll waits for a report.
///
/// `steps` are the last steps in the record of `keyset`: of each roll its last accepted start or
/// end of its first wait. `moments` has the greatest moment up to each call of the record.
///
/// # Errors
///
/// `AllocError` if memory runs out.
///
/// ```rust
/// let steps = Steps::of_record(&run.entries);
/// let moments = Moments::of_record(alloc, &run.entries)?;
/// let lines = due_lines(alloc, &run.keyset, steps, &moments, &notes, seconds)?;
/// ```
pub fn due_lines(
    alloc: Global,
    keyset: &KeySet,
    steps: Steps,
    moments: &Moments,
    notes: &Notes,
    seconds: u64,
) -> Result<String, AllocError>
    ensures { IfOk result (λ text. string_bytes text ≡ due_text keyset.now.rolls (step_of steps)
        moments.now notes.now.before notes.now.facts seconds) }
{
    let mut text = String::new(alloc);
    push_lines(
        &mut text,
        all_rolls(),
        keyset,
        steps,
        moments,
        notes,
        seconds,
    )?;
    Ok(text)
}

/// Appends to `text` a line for each of these `rolls` that waits for a report, as it would be made
/// at `seconds` since 1970: `report1 ksk-roll 3600 130` if it is due, and if not, `not yet: ` and
/// what it waits for. `steps` has each roll's last accepted start or end of its first wait, and
/// `moments` the greatest moment up to each call. If memory runs out, `text` may have got a part of
/// them.
fn push_lines(
    text: &mut String,
    rolls: &[RollType],
    keyset: &KeySet,
    steps: Steps,
    moments: &Moments,
    notes: &Notes,
    seconds: u64,
) -> Result<(), AllocError>
    ensures { OnOk result (string_bytes text.new ≡ string_bytes text.old
        ++ flat_map (line_for keyset.now.rolls (step_of steps) moments.now notes.now.before
        notes.now.facts seconds) rolls.now) }
{
    for roll in rolls {
        let now = UnixTime::from(Duration::from_secs(seconds));
        let report = notes.due_report(keyset, steps, moments, *roll, now);
        push_line(text, &report, seconds)?;
    }
    Ok(())
}

/// Appends to `text` the line of the report that a roll waits for, and nothing if it waits for
/// none. It is the script's line that makes the report at `seconds` since 1970, or a line that
/// begins with `not yet:` if the report isn't due. If memory runs out, `text` may have got a part
/// of the line.
fn push_line(text: &mut String, report: &Option<DueReport>, seconds: u64) -> Result<(), AllocError>
    ensures { OnOk result (string_bytes text.new
        ≡ string_bytes text.old ++ due_line report.now seconds) }
{
    match report {
        None => Ok(()),
        Some(report) => push_report(text, report, seconds),
    }
}

/// Appends a line to `text`. If the report is due, it is the script's line that makes it at
/// `seconds` since 1970, as `report1 ksk-roll 3600 130`. Otherwise it is `not yet: `, the report
/// and what it waits for. If memory runs out, `text` may have got a part of it.
fn push_report(text: &mut String, report: &DueReport, seconds: u64) -> Result<(), AllocError>
    ensures { OnOk result (string_bytes text.new ≡ string_bytes text.old
        ++ ttl_line (is_second report.now.half) report.now.roll report.now.ttl seconds) }
{
    match report.ttl {
        Ok(ttl) => {
            push_call(text, report.half, report.roll)?;
            text.push_str(" ")?;
            push_number(text, u64::from(ttl))?;
            text.push_str(" ")?;
            push_number(text, seconds)?;
            text.push_str("\n")
        }
        Err(why) => {
            text.push_str("not yet: ")?;
            push_call(text, report.half, report.roll)?;
            push_why(text, why)?;
            text.push_str("\n")
        }
    }
}

/// Appends to `text` what a report waits for that isn't due: ` waits for ` and a kind of sets, or
/// ` waits until ` and a second since 1970. If memory runs out, `text` may have got a part of it.
fn push_why(text: &mut String, why: NotYet) -> Result<(), AllocError>
    ensures { OnOk result (string_bytes text.new ≡ string_bytes text.old ++ why_text why) }
{
    match why {
        NotYet::WaitsFor(kind) => {
            text.push_str(" waits for ")?;
            text.push_str(kind_name(kind))
        }
        NotYet::WaitsUntil(moment) => {
            text.push_str(" waits until ")?;
            let second = first_second(moment);
            write!(text, "{second}")
        }
    }
}

/// The first second since 1970 that isn't before `moment`.
fn first_second(moment: UnixTime) -> u128
    ensures { result ≡ first_second moment }
{
    (Duration::from(moment).as_nanos() + 999_999_999) / 1_000_000_000
}

/// Appends to `text` the word of a report and the name of its roll, as `report1 ksk-roll`. If
/// memory runs out, `text` may have got a part of it.
fn push_call(text: &mut String, half: Half, roll: RollType) -> Result<(), AllocError>
    ensures { OnOk result (string_bytes text.new
        ≡ string_bytes text.old ++ report_of (is_second half) roll) }
{
    text.push_str(report_word(half))?;
    text.push_str(" ")?;
    text.push_str(roll_name(roll))
}

/// Appends a number to `text`, in decimal. If memory runs out, `text` may have got a part of it.
fn push_number(text: &mut String, number: u64) -> Result<(), AllocError>
    ensures { OnOk result (string_bytes text.new ≡ string_bytes text.old ++ decimal number) }
{
    write!(text, "{number}")
}

/// The word of a script's line that makes the report on this half of a roll: `report1` or
/// `report2`.
fn report_word(half: Half) -> &'static str
    ensures { result.now ≡ report_word (is_second half) }
{
    match half {
        Half::First => "report1",
        Half::Second => "report2",
    }
}
