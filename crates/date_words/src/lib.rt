//! Dates of HTTP as texts (RFC 9110, section 5.6.7): of a second, of a moment, and back.
#![tactic(auto)]

ghost use Rattle.std.specs.Prelude.{◌≡◌, ℕ, ◌<◌, ◌↔◌, List, IsSome, IfSome};
ghost use Rattle.httpdate.specs.Date.{parse_secs};
ghost use Rattle.date_words.specs.Civil.{Civil, IsCivilOf, civil_of};
ghost use Rattle.date_words.specs.HttpDate.{IsDateOfSecond, http_date, date_of_micros};

use httpdate::HttpDate;

/// The latest moment that counts, in microseconds since 1970: the last microsecond of the year 9999.
pub const LATEST_MOMENT: u64 = 253_402_300_799_999_999;

const MICROS_PER_SECOND: u64 = 1_000_000;

/// The date of a second since 1970, as `Sun, 06 Nov 1994 08:49:37 GMT`. `None` from the year
/// 10000 on.
#[tactic(auto, using(crate::proofs::TextLemmas::date_text_is))]
pub fn http_date_text(seconds: u64) -> Option<[u8; 29]>
    ensures succeeds { IsSome result ↔ (seconds < 253_402_300_800) }
    ensures text { IfSome result (λ text. text ≡ http_date seconds) }
{
    match HttpDate::from_unix_secs(seconds) {
        Ok(date) => Some(date.to_bytes()),
        Err(_) => None,
    }
}

/// The date of a moment in microseconds since 1970. A moment after the year 9999 has the date of
/// that year's last second.
pub fn date_text_of_micros(micros: u64) -> [u8; 29]
    ensures { result ≡ date_of_micros micros }
{
    let moment = micros.min(LATEST_MOMENT);
    http_date_text(moment / MICROS_PER_SECOND).unwrap()
}

/// The second since 1970 that a date shows, in any of the three forms that RFC 9110 has. `None`
/// for any other text.
pub fn second_of_date(text: &[u8]) -> Option<u64>
    ensures { result ≡ parse_secs text.now }
{
    let date = HttpDate::parse_ascii(text).ok()?;
    Some(date.unix_secs())
}

/// A second up to the year 9999 has one text, and that text is read as this second. A later one
/// has none.
pub fn one_text_per_second()
    ensures text { (seconds : ℕ) (text : List ℕ) → IsDateOfSecond seconds text
        ↔ ((seconds < 253_402_300_800) × (text ≡ http_date seconds)) }
    ensures read { (seconds : ℕ) → seconds < 253_402_300_800
        → parse_secs (http_date seconds) ≡ Some seconds }
{}

/// A second up to the year 9999 has one date and time of day. A later one has none.
pub fn one_civil_time_per_second()
    ensures { (seconds : ℕ) (c : Civil) → IsCivilOf seconds c
        ↔ ((seconds < 253_402_300_800) × (c ≡ civil_of seconds)) }
{}
