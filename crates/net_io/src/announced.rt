//! A net that says where it listens.
ghost use Rattle.std.specs.Prelude.{◌≡◌};

use crate::Net;
use gw_io::Failed;

/// Says in one line on standard error where it listens; else the net that it is over.
#[derive(Drop)]
pub struct AnnouncedNet<N, R> {
    rt: R,
    net: N,
}

impl<N, R> AnnouncedNet<N, R> {
    pub fn new(rt: R, net: N) -> Self
        ensures { result.net ≡ net }
    {
        AnnouncedNet { rt, net }
    }
}

impl<N: Net, R: Eprint> Net for AnnouncedNet<N, R> {
    type Socket = N::Socket;

    ghost faults = { λ n. N.faults n.net };

    ghost closed = { λ n. N.closed n.net };

    fn listen(&mut self, port: u16) -> Result<N::Socket, Failed> {
        let socket = self.net.listen(port)?;
        // Where standard error is closed, it listens all the same.
        let _ = eprintln!(self.rt; "rgw: listening on 127.0.0.1:{}", port);
        Ok(socket)
    }

    fn close(&mut self, socket: N::Socket) {
        self.net.close(socket);
    }
}
