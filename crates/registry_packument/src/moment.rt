//! Moments as texts.

ghost use Rattle.std.specs.Prelude.{◌≡◌, ◌≤◌, string_bytes, IfOk, IfErr};
ghost use Rattle.registry_packument.specs.Calendar.{utc_text};
ghost use Rattle.registry_packument.specs.Dates.{IsDateOn, IsTimeAt, last_day};

use jiff::ToSpan;
use jiff::civil::{Date, Time, date, time};
use jiff::fmt::temporal::DateTimePrinter;
use registry_names::{Fault, Moment, Text};
use std::alloc::{AllocError, Global};

const SECONDS_OF_A_DAY: u64 = 86_400;

/// How many bytes the text of a moment has.
const TEXT_LEN: usize = 24;

/// A moment in UTC, as `1970-01-01T00:00:00.000Z`: its date in the Gregorian calendar, and its time
/// of day.
///
/// `Memory` is returned when no memory is left, and no other fault is returned.
pub fn moment_text(alloc: Global, moment: Moment) -> Result<Text, Fault>
    ensures ok { IfOk result (λ text. text ≡ utc_text moment) }
    ensures err { IfErr result (λ fault. fault ≡ Fault.Memory) }
{
    let text = moment_string(alloc, moment)?;
    Ok(Text::from(text))
}

/// The same, as a string.
pub(crate) fn moment_string(alloc: Global, moment: Moment) -> Result<String, AllocError>
    ensures { IfOk result (λ text. string_bytes text ≡ utc_text moment) }
{
    let seconds = moment.seconds() as u64;
    let date = date_on(seconds / SECONDS_OF_A_DAY);
    let time = time_at(seconds % SECONDS_OF_A_DAY);
    let printer = DateTimePrinter::new().precision(Some(3));
    let text = printer.datetime_text(date.to_datetime(time).to_plain());
    let mut out = String::with_capacity(alloc, TEXT_LEN)?;
    out.push_str(text.as_str())?;
    out.push_str("Z")?;
    Ok(out)
}

// The date this many days after 1 January 1970.
fn date_on(days: u64) -> Date
    requires { days ≤ last_day }
    ensures { IsDateOn days result }
{
    match date(1970, 1, 1).checked_add((days as i64).days()) {
        Ok(date) => date,
        Err(_) => unreachable!(),
    }
}

// The time this many seconds after midnight.
fn time_at(seconds: u64) -> Time
    requires { seconds ≤ 86_399 }
    ensures { IsTimeAt seconds result }
{
    time(
        (seconds / 3600) as i8,
        (seconds / 60 % 60) as i8,
        (seconds % 60) as i8,
        0,
    )
}
