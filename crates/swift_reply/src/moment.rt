//! Moments as the rows of listings show them.
ghost use Rattle.std.specs.Prelude.{◌≡◌, ◌++◌, ◌<◌, ◌≤◌, ◌+◌, ◌/◌, ◌%◌, codes, pos};
ghost use Rattle.std.specs.Str.{IsAscii};
ghost use Rattle.jiff_core.specs.Date.{epoch_day};
ghost use Rattle.jiff_fmt.specs.Text.{pad2, pad4};
ghost use Rattle.swift_reply.specs.Moments.{clock_text, moment_text};

use date_words::LATEST_MOMENT;
use jiff_core::civil::Date;

const MICROS_PER_DAY: u64 = 86_400_000_000;

/// The first of two digits.
#[inline(always)]
fn high(n: u32) -> u8
    requires { n < 100 }
    ensures digit { result ≡ 48 + n / 10 }
    ensures bound { result < 128 }
{
    b'0' + (n / 10) as u8
}

/// The second of two digits.
#[inline(always)]
fn low(n: u32) -> u8
    requires { n < 100 }
    ensures digit { result ≡ 48 + n % 10 }
    ensures bound { result < 128 }
{
    b'0' + (n % 10) as u8
}

/// A date and the microseconds since midnight, as `2023-11-14T22:13:20.000000`.
#[inline(always)]
fn digits(year: u32, month: u32, day: u32, micros: u64) -> [u8; 26]
    requires { (year < 10000) × (month < 100) × (day < 100) × (micros < 86_400_000_000) }
    ensures text { result ≡ (pad4 year ++ codes "-" ++ pad2 month ++ codes "-" ++ pad2 day)
        ++ codes "T" ++ clock_text micros }
    ensures ascii { IsAscii result }
{
    let seconds = (micros / 1_000_000) as u32;
    let part = (micros % 1_000_000) as u32;
    [
        high(year / 100),
        low(year / 100),
        high(year % 100),
        low(year % 100),
        b'-',
        high(month),
        low(month),
        b'-',
        high(day),
        low(day),
        b'T',
        high(seconds / 3600),
        low(seconds / 3600),
        b':',
        high(seconds % 3600 / 60),
        low(seconds % 3600 / 60),
        b':',
        high(seconds % 60),
        low(seconds % 60),
        b'.',
        high(part / 10_000),
        low(part / 10_000),
        high(part % 10_000 / 100),
        low(part % 10_000 / 100),
        high(part % 10_000 % 100),
        low(part % 10_000 % 100),
    ]
}

/// The date that is so many whole days after the first of January 1970, up to the year 9999.
#[inline]
fn date_of(days: u32) -> Date
    requires { days ≤ 2_932_896 }
    ensures { epoch_day result ≡ pos days }
{
    Date::from_days_since_min(days + 4_371_587)
}

/// The date and the time of day of a moment in microseconds since 1970.
#[inline]
pub(crate) fn moment_digits(micros: u64) -> [u8; 26]
    ensures text { result ≡ moment_text micros }
    ensures ascii { IsAscii result }
{
    let moment = micros.min(LATEST_MOMENT);
    let date = date_of((moment / MICROS_PER_DAY) as u32);
    digits(
        u32::from(date.year.unsigned_abs()),
        u32::from(date.month),
        u32::from(date.day),
        moment % MICROS_PER_DAY,
    )
}
