//! The halves of a TCP connection. They are trusted to be what they are over: no contract says what a
//! socket gives or takes.

use std::alloc::{AllocError, Global};
use std::io;
use std::io::{Read, Write};
use std::net::{Shutdown, TcpStream};
use std::rt::Clock;
use std::sync::Arc;
use std::time::{Duration, Instant};

/// A connection that the client did not end is read on for so long behind the last reply, in pieces of
/// so many bytes, each of which is waited for so long.
const DRAIN_SECONDS: u64 = 10;

const DRAIN_WAIT_SECONDS: u64 = 2;

const DRAIN_PIECE: usize = 65_536;

/// The half of a TCP connection that is read from. Where the client did not end its half, the
/// connection is closed in stages (RFC 9112, section 9.6), so that the last reply is not lost: the
/// writing half is shut, and what the client still sends is read and dropped, for a while.
pub struct TcpReader<R: Clock + Copy> {
    rt: R,
    stream: Arc<TcpStream>,
    has_ended: bool,
}

/// The half that is written to.
#[derive(Drop)]
pub struct TcpWriter {
    stream: Arc<TcpStream>,
}

/// The halves of a stream, which share it.
pub(crate) fn halves<R: Clock + Copy>(
    rt: R,
    alloc: Global,
    stream: TcpStream,
) -> Result<(TcpReader<R>, TcpWriter), AllocError> {
    let stream = Arc::new(alloc, stream)?;
    let shared = Arc::try_clone(&stream)?;
    let reader = TcpReader {
        rt,
        stream,
        has_ended: false,
    };
    Ok((reader, TcpWriter { stream: shared }))
}

impl<R: Clock + Copy> Read for TcpReader<R> {
    fn read(&mut self, buf: &mut [u8]) -> io::Result<usize> {
        let mut stream: &TcpStream = &self.stream;
        let read = stream.read(buf);
        if !matches!(read, Ok(1..)) {
            self.has_ended = true;
        }
        read
    }
}

impl<R: Clock + Copy> Drop for TcpReader<R> {
    fn drop(self) {
        if !self.has_ended {
            drain(&self.rt, &self.stream);
        }
        let TcpReader {
            rt: _,
            stream: _,
            has_ended: _,
        } = self;
    }
}

/// Says that no more will be written, and reads on until the client ends its half too, goes away, sends
/// nothing for a while, or had its time.
#[inline(never)]
fn drain<R: Clock>(rt: &R, stream: &TcpStream) {
    let Ok(start) = Instant::now(rt) else {
        return;
    };
    let wait = Some(Duration::from_secs(DRAIN_WAIT_SECONDS));
    if stream.shutdown(Shutdown::Write).is_err() || stream.set_read_timeout(wait).is_err() {
        return;
    }
    let mut dropped = [0; DRAIN_PIECE];
    let mut from = stream;
    for _ in 0..u64::MAX {
        if is_past(rt, start) || !matches!(from.read(&mut dropped), Ok(1..)) {
            return;
        }
    }
}

fn is_past<R: Clock>(rt: &R, start: Instant) -> bool {
    match start.elapsed(rt) {
        Ok(passed) => passed >= Duration::from_secs(DRAIN_SECONDS),
        Err(_) => true,
    }
}

impl Write for TcpWriter {
    // Behind a write that fails nothing is read either, so the connection is not drained.
    fn write(&mut self, buf: &[u8]) -> io::Result<usize> {
        let mut stream: &TcpStream = &self.stream;
        let written = stream.write(buf);
        if written.is_err() {
            let _ = stream.shutdown(Shutdown::Both);
        }
        written
    }

    fn flush(&mut self) -> io::Result<()> {
        Ok(())
    }
}
