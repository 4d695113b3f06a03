// The search for the end of a text in bytes that come in pieces.
ghost use Rattle.std.specs.Prelude.{◌≡◌, ◌≤◌, length, drop};
ghost use Rattle.http_chunks.specs.Scans.{scan_from};

use crate::{Place, TextEnd};

/// Looks for the end of the text in bytes of which the first were seen before: the place is the one
/// behind them.
pub fn scan(place: Place, bytes: &[u8], seen: usize) -> TextEnd
    requires { seen ≤ length bytes.now }
    ensures { result ≡ scan_from place seen (drop seen bytes.now) }
{
    let mut at = place;
    for (i, &byte) in bytes[seen..].iter().enumerate() {
        match at.step(byte) {
            None => return TextEnd::Here(seen + i + 1),
            Some(next) => at = next,
        }
    }
    TextEnd::Later(at)
}
