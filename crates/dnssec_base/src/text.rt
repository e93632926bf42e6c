//! The text of a duration.
ghost use Rattle.std.specs.Prelude.{◌≡◌, ◌<◌, Some};
ghost use Rattle.std.specs.Duration.{as_nanos};
ghost use Rattle.std.specs.Fmt.{WritesOnOk};
ghost use Rattle.dnssec_base.specs.ErrorTexts.{duration_text, decimals_text, unit_of, in_table};

use std::fmt;
use std::time::Duration;

/// A duration that prints in its largest unit, as `1.5s`, `999ms` or `2.569µs`.
#[derive(Clone, Copy)]
pub(crate) struct DurationText(pub Duration);

impl fmt::Display for DurationText {
    ghost output = { λ d. Some (duration_text (as_nanos d.0)) };

    /// Writes the duration to `f` in its largest unit, with decimals up to the last that isn't
    /// zero, as `1.5s`, `999ms` or `2.569µs`. It fails only if a write to `f` fails.
    fn fmt<W: fmt::Write>(&self, f: &mut fmt::Formatter<W>) -> fmt::Result {
        let nanos = self.0.as_nanos();
        let unit = TimeUnit::of(nanos);
        let whole = nanos / unit.nanos();
        write!(f, "{whole}")?;
        write_decimals(f, nanos % unit.nanos(), unit)?;
        f.write_str(unit.name())
    }
}

/// The units in which a duration prints.
#[derive(Clone, Copy)]
enum TimeUnit {
    Second,
    Millisecond,
    Microsecond,
    Nanosecond,
}

impl TimeUnit {
    /// The unit in which a duration of so many nanoseconds prints: the largest that is no longer
    /// than the duration, or the nanosecond for zero.
    fn of(nanos: u128) -> TimeUnit
        ensures { result ≡ unit_of nanos }
    {
        match nanos {
            1_000_000_000.. => TimeUnit::Second,
            1_000_000.. => TimeUnit::Millisecond,
            1_000.. => TimeUnit::Microsecond,
            _ => TimeUnit::Nanosecond,
        }
    }

    /// How many nanoseconds the unit has.
    fn nanos(self) -> u128
        ensures { result ≡ (in_table self).nanos }
    {
        match self {
            TimeUnit::Second => 1_000_000_000,
            TimeUnit::Millisecond => 1_000_000,
            TimeUnit::Microsecond => 1_000,
            TimeUnit::Nanosecond => 1,
        }
    }

    /// The symbol of the unit, as it prints: `s`, `ms`, `µs` or `ns`.
    fn name(self) -> &'static str
        ensures { result.now ≡ (in_table self).name }
    {
        match self {
            TimeUnit::Second => "s",
            TimeUnit::Millisecond => "ms",
            TimeUnit::Microsecond => "µs",
            TimeUnit::Nanosecond => "ns",
        }
    }
}

/// Writes to `f` what a duration has beyond its whole units: a dot and `rest` nanoseconds as
/// decimals of the `unit`, up to the last that isn't zero. It writes nothing if `rest` is zero, and
/// fails only if a write to `f` fails.
fn write_decimals<W: fmt::Write>(
    f: &mut fmt::Formatter<W>,
    mut rest: u128,
    unit: TimeUnit,
) -> fmt::Result
    requires { rest < (in_table unit).nanos }
    ensures { WritesOnOk W.write_str_gives f.old result (decimals_text (in_table unit) rest) f.new }
{
    if rest == 0 {
        return Ok(());
    }
    f.write_str(".")?;
    let mut place = unit.nanos();
    'decimals: while rest > 0 {
        place /= 10;
        let digit = rest / place;
        write!(f, "{digit}")?;
        rest %= place;
    }
    Ok(())
}
