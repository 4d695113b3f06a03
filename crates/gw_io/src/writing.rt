// Whole pieces to a sink.
ghost use Rattle.std.specs.Prelude.{OnOk, OnErr};
ghost use Rattle.std.specs.Io.KnownBytes.{Appends};
ghost use Rattle.gw_io.specs.Outside.{HasCause, AppendsProperPrefix};

use crate::{Failed, Sink};

/// Writes all of `bytes`, in as many pieces as the sink makes of them. Where it fails, the sink has
/// taken some first bytes, and not all. A write that fails is not made again: at `Ok` none has failed.
pub fn write_all<K: Sink>(sink: &mut K, bytes: &[u8]) -> Result<(), Failed>
    ensures ok { OnOk result (Appends (K.taken sink.old) (K.taken sink.new) bytes.now) }
    ensures err { OnErr result
        (AppendsProperPrefix (K.taken sink.old) (K.taken sink.new) bytes.now) }
    ensures cause { HasCause (K.faults sink.old) (K.faults sink.new) result }
{
    let mut done = 0;
    while done < bytes.len() {
        done += sink.write(&bytes[done..])?;
    }
    Ok(())
}
