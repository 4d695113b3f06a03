// The next bytes of a body, from those that wait in the buffer or from the source.
ghost use Rattle.std.specs.Prelude.{◌<◌, length};
ghost use Rattle.http_intake.specs.Faults.{CountsFaults};
ghost use Rattle.http_intake.specs.Reading.{TakesBytes};

use crate::IntakeFault;
use crate::buffer::Buffer;
use gw_io::Source;

/// Moves the next bytes to the front of `out`, and answers their number: those that wait in the
/// buffer, and where none does, those that one read gives.
pub(crate) fn take_bytes<S: Source>(
    buffer: &mut Buffer,
    source: &mut S,
    out: &mut [u8],
) -> Result<usize, IntakeFault>
    requires { 0 < length out.old }
    ensures bytes { TakesBytes (S.left source.old) (S.left source.new) buffer.old buffer.new out.new result }
    ensures cause { CountsFaults (S.faults source.old) (S.faults source.new) result }
{
    if !buffer.is_empty() {
        return Ok(buffer.move_to(out));
    }
    match source.read(out)? {
        0 => Err(IntakeFault::Cut),
        count => Ok(count),
    }
}
