//! The adapters over the system's TCP. They are trusted to be what they are over.
ghost use Rattle.std.specs.Prelude.{Some};

use crate::tcp_halves::{TcpReader, TcpWriter, halves};
use crate::{AcceptFault, Net, Port};
use gw_io::{Failed, ReaderSource, WriterSink};
use rgw_types::Trace;
use std::alloc::Global;
use std::io::ErrorKind;
use std::net::{Ipv4Addr, SocketAddr, SocketAddrV4, TcpListener, TcpStream};
use std::rt::Clock;
use std::time::Duration;
use std::{io, net, thread};

/// After so long a port tries again that could give no connection for want of descriptors.
const PAUSE_MILLIS: u64 = 10;

/// What the system answers where the process, or all of them, have as many descriptors as they may.
const TOO_MANY_HERE: i32 = 24;

const TOO_MANY_IN_ALL: i32 = 23;

/// A port of the system.
#[derive(Drop)]
pub struct TcpPort<R> {
    rt: R,
    listener: TcpListener,
    wait: Option<Duration>,
    number: u16,
    given: u64,
    faults: u64,
}

impl<R: Clock> TcpPort<R> {
    /// The number that the system gave, where it was asked for any.
    pub fn local_port(&self) -> io::Result<u16> {
        Ok(self.listener.local_addr()?.port())
    }

    /// The next connection. One that was given up before it came here is passed over, and for want of
    /// descriptors the port waits until there are some.
    fn next_stream(&self) -> io::Result<TcpStream> {
        for _ in 0..u64::MAX {
            match self.listener.accept() {
                Ok((stream, _)) => return Ok(stream),
                Err(error) => {
                    if is_full(&error) {
                        thread::sleep(&self.rt, Duration::from_millis(PAUSE_MILLIS));
                    } else if error.kind() != ErrorKind::ConnectionAborted {
                        return Err(error);
                    }
                }
            }
        }
        Err(io::Error::from(ErrorKind::Other))
    }
}

fn is_full(error: &io::Error) -> bool {
    matches!(error.raw_os_error(), Some(TOO_MANY_HERE | TOO_MANY_IN_ALL))
}

/// A reply goes out at once, also where it is written in two pieces; and a read or a write that waits
/// longer than so long fails.
fn set_up(stream: &TcpStream, wait: Option<Duration>) -> io::Result<()> {
    stream.set_nodelay(true)?;
    if wait.is_some() {
        stream.set_read_timeout(wait)?;
        stream.set_write_timeout(wait)?;
    }
    Ok(())
}

impl<R: Clock + Copy + Send> Port for TcpPort<R> {
    type In = ReaderSource<TcpReader<R>>;

    type Out = WriterSink<TcpWriter>;

    ghost use Rattle.std.specs.Prelude.{false};

    ghost port = { λ p. record { number = p.number; given = p.given; is_shut = false; faults = p.faults } };

    fn accept(&mut self, alloc: Global) -> Result<Option<(Self::In, Self::Out)>, AcceptFault> {
        let Ok(stream) = self.next_stream() else {
            self.faults = self.faults.saturating_add(1);
            return Err(AcceptFault::Failed);
        };
        // A socket that takes no option is told at the first read.
        let _ = set_up(&stream, self.wait);
        match halves(self.rt, alloc, stream) {
            Ok((reader, writer)) => {
                self.given = self.given.saturating_add(1);
                Ok(Some((ReaderSource::new(reader), WriterSink::new(writer))))
            }
            Err(_) => Err(AcceptFault::OutOfMemory),
        }
    }
}

/// The system's TCP on the loopback address.
#[derive(Drop)]
pub struct TcpNet<R> {
    rt: R,
    wait: Option<Duration>,
    faults: u64,
    told: Trace,
}

impl<R: net::Net<Listener = TcpListener, Stream = TcpStream>> TcpNet<R> {
    /// Each read and each write of its connections waits at most so long; with none, for ever.
    pub fn new(rt: R, wait: Option<Duration>) -> Self {
        TcpNet {
            rt,
            wait,
            faults: 0,
            told: Trace::new(),
        }
    }
}

impl<R> Net for TcpNet<R>
where
    R: net::Net<Listener = TcpListener, Stream = TcpStream> + Clock + Copy + Send,
{
    type Socket = TcpPort<R>;

    ghost faults = { λ n. n.faults };

    ghost closed = { λ n. Some n.told.numbers };

    fn listen(&mut self, port: u16) -> Result<TcpPort<R>, Failed> {
        let here = SocketAddr::V4(SocketAddrV4::new(Ipv4Addr::new(127, 0, 0, 1), port));
        match self.rt.bind(here) {
            Ok(listener) => Ok(TcpPort {
                rt: self.rt,
                listener,
                wait: self.wait,
                number: port,
                given: 0,
                faults: 0,
            }),
            Err(_) => {
                self.faults = self.faults.saturating_add(1);
                Err(Failed)
            }
        }
    }

    fn close(&mut self, socket: TcpPort<R>) {
        if socket.faults > 0 {
            self.faults = self.faults.saturating_add(1);
        }
        let number = u64::from(socket.number);
        self.told = self
            .told
            .with_moments(&[number, socket.given, 0, socket.faults]);
    }
}
