//! Taking the connections of a port, for the workers.
ghost use Rattle.std.specs.Prelude.{◌≡◌};
ghost use Rattle.net_io.specs.Ports.{opened};
ghost use Rattle.rgw_server.specs.Ends.{EndsSo};

use crate::working::Job;
use crossbeam_channel::Sender;
use net_io::{AcceptFault, Port};
use std::alloc::Global;
use std::sync::Wait;

/// Why no more connections are taken.
#[derive(Clone, Copy, Debug, PartialEq, Eq)]
pub enum ServeEnd {
    /// The port gave as many connections as were wanted, or is shut.
    Ended,
    OutOfMemory,
    /// The port, or the net, failed.
    Failed,
}

/// Takes connections and sends them to the workers, up to so many, or with no end. Gives the port back.
pub(crate) fn accept_all<R: Wait, P: Port>(
    rt: &R,
    alloc: Global,
    number: u16,
    mut port: P,
    accepts: Option<u64>,
    jobs: Sender<Job<P::In, P::Out>>,
) -> (P, ServeEnd)
    requires { P.port port ≡ opened number }
    ensures { EndsSo number accepts (P.port result.0) result.1 }
{
    let mut given: u64 = 0;
    for _ in rt.forever() {
        if accepts == Some(given) {
            return (port, ServeEnd::Ended);
        }
        match port.accept(alloc) {
            Ok(Some((source, sink))) => {
                given = given.saturating_add(1);
                let job = Job {
                    number: given,
                    source,
                    sink,
                };
                if jobs.send(rt, job).is_err() {
                    return (port, ServeEnd::OutOfMemory);
                }
            }
            Ok(None) => return (port, ServeEnd::Ended),
            Err(AcceptFault::OutOfMemory) => return (port, ServeEnd::OutOfMemory),
            Err(AcceptFault::Failed) => return (port, ServeEnd::Failed),
        }
    }
    unreachable!()
}
