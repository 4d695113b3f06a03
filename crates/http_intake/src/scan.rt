// Where the text of a head ends.
ghost use Rattle.std.specs.Prelude.{◌≡◌, ◌≤◌, length, take, drop};
ghost use Rattle.http_chunks.specs.Scans.{scan_from};
ghost use Rattle.http_intake.specs.Scan.{Scanned, FindsEnd};

use http_chunks::{Place, TextEnd};
use memchr::memchr;

/// Where the scan goes on. Within a line only its LF changes the place, so the bytes up to it are
/// passed over at once.
fn skip_line(place: Place, bytes: &[u8], at: usize) -> usize
    requires { at ≤ length bytes.now }
    ensures ordered { at ≤ result }
    ensures within { result ≤ length bytes.now }
    ensures same { scan_from place at (drop at bytes.now) ≡ scan_from place result (drop result bytes.now) }
{
    match place {
        Place::Inside => match memchr(b'\n', &bytes[at..]) {
            Some(count) => at + count,
            None => bytes.len(),
        },
        Place::Before | Place::Fresh | Place::Return | Place::Behind | Place::Line => at,
    }
}

/// The scan of `http_chunks`, line by line.
fn scan_lines(place: Place, bytes: &[u8], seen: usize) -> TextEnd
    requires { seen ≤ length bytes.now }
    ensures { result ≡ scan_from place seen (drop seen bytes.now) }
{
    let mut place = place;
    let mut at = skip_line(place, bytes, seen);
    while at < bytes.len() {
        match place.step(bytes[at]) {
            None => return TextEnd::Here(at + 1),
            Some(next) => place = next,
        }
        at = skip_line(place, bytes, at + 1);
    }
    TextEnd::Later(place)
}

/// Looks for the end of a head in the bytes of a connection so far, of which the first were seen
/// before: the place is the one behind them.
pub(crate) fn scan_head(place: Place, bytes: &[u8], seen: usize) -> TextEnd
    requires within { seen ≤ length bytes.now }
    requires scanned { Scanned (take seen bytes.now) place }
    ensures { FindsEnd bytes.now result }
{
    scan_lines(place, bytes, seen)
}
