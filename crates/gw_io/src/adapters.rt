// The adapters over std's readers, writers and clock. They are trusted to be what they are over:
// no contract says what a terminal, a pipe or the system's clock does.
ghost use Rattle.std.specs.Prelude.{◌≡◌, ◌-◌, ◌/◌, ◌^◌, MatchResult, [], ◌∷◌, is_err, if◌then◌else◌, min};
ghost use Rattle.std.specs.Duration.{as_nanos};
ghost use Rattle.std.specs.Io.{ReadsAtMost, WritesAtMost};
ghost use Rattle.std.specs.Io.KnownBytes.{Appends, ReadConsumes, WriteAppends};
ghost use Rattle.gw_io.specs.Outside.{IsAsPlanned, Reads, Writes, raised};
ghost use Rattle.gw_io.specs.Adapters.{source_reader, source_faults, sink_writer, sink_faults, last_told, moments_told, no_plan};

use crate::{Clock, Failed, Sink, Source};
use std::io::{ErrorKind, Printer, Read, Write};
use std::time::Duration;
use std::{io, rt};

/// One read, made again where a signal interrupts it.
fn read_retrying<R: Read>(reader: &mut R, buf: &mut [u8]) -> io::Result<usize>
    ensures bound { ReadsAtMost result buf.new }
    ensures bytes { ReadConsumes (R.remaining reader.old) (R.remaining reader.new) result buf.new }
{
    for _ in 0..u64::MAX {
        match reader.read(buf) {
            Ok(count) => return Ok(count),
            Err(error) => {
                if error.kind() != ErrorKind::Interrupted {
                    return Err(error);
                }
            }
        }
    }
    Err(io::Error::from(ErrorKind::Interrupted))
}

/// One write, made again where a signal interrupts it.
fn write_retrying<W: Write>(writer: &mut W, bytes: &[u8]) -> io::Result<usize>
    ensures bound { WritesAtMost result bytes.now }
    ensures bytes { WriteAppends (W.contents writer.old) (W.contents writer.new) result bytes.now }
{
    for _ in 0..u64::MAX {
        match writer.write(bytes) {
            Ok(count) => return Ok(count),
            Err(error) => {
                if error.kind() != ErrorKind::Interrupted {
                    return Err(error);
                }
            }
        }
    }
    Err(io::Error::from(ErrorKind::Interrupted))
}

/// The bytes of a reader. It tells those that are left where the reader does, and a read that fails
/// is a fault; a read that a signal interrupts is made again.
#[derive(Debug, Drop)]
pub struct ReaderSource<R> {
    inner: R,
    faults: u64,
}

impl<R> ReaderSource<R> {
    pub fn new(inner: R) -> Self
        ensures reader { source_reader result ≡ inner }
        ensures faults { source_faults result ≡ 0 }
    {
        ReaderSource { inner, faults: 0 }
    }

    pub fn into_inner(self) -> R
        ensures { result ≡ source_reader self }
    {
        self.inner
    }
}

impl<R: Read> Source for ReaderSource<R> {
    ghost left = { λ s. R.remaining (source_reader s) };

    ghost faults = { source_faults };

    fn read(&mut self, buf: &mut [u8]) -> Result<usize, Failed>
        ensures read { Reads (R.remaining (source_reader self.old)) (R.remaining (source_reader self.new))
            (source_faults self.old) (source_faults self.new) result buf.new }

        ensures counted { source_faults self.new ≡
            (if is_err result then raised (source_faults self.old) else source_faults self.old) }
    {
        match read_retrying(&mut self.inner, buf) {
            Ok(count) => Ok(count),
            Err(_) => {
                self.faults = self.faults.saturating_add(1);
                Err(Failed)
            }
        }
    }
}

/// Puts bytes into a writer. It tells those that were taken where the writer does. A write that
/// fails is a fault, and so is one that takes nothing of a piece that is not empty; a write that a
/// signal interrupts is made again.
#[derive(Debug, Drop)]
pub struct WriterSink<W> {
    inner: W,
    faults: u64,
}

impl<W> WriterSink<W> {
    pub fn new(inner: W) -> Self
        ensures writer { sink_writer result ≡ inner }
        ensures faults { sink_faults result ≡ 0 }
    {
        WriterSink { inner, faults: 0 }
    }

    pub fn into_inner(self) -> W
        ensures { result ≡ sink_writer self }
    {
        self.inner
    }
}

impl<W: Write> Sink for WriterSink<W> {
    ghost taken = { λ s. W.contents (sink_writer s) };

    ghost faults = { sink_faults };

    fn write(&mut self, bytes: &[u8]) -> Result<usize, Failed>
        ensures written { Writes (W.contents (sink_writer self.old)) (W.contents (sink_writer self.new))
            (sink_faults self.old) (sink_faults self.new) result bytes.now }

        ensures counted { sink_faults self.new ≡
            (if is_err result then raised (sink_faults self.old) else sink_faults self.old) }
    {
        match write_retrying(&mut self.inner, bytes) {
            Ok(count) if count > 0 || bytes.is_empty() => Ok(count),
            _ => {
                self.faults = self.faults.saturating_add(1);
                Err(Failed)
            }
        }
    }
}

/// Standard input.
pub fn standard_input<I: Input>(rt: &I) -> ReaderSource<I::Reader>
    ensures { source_faults result ≡ 0 }
{
    ReaderSource::new(rt.reader())
}

/// Standard output.
pub fn standard_output<P: Print>(rt: &P) -> WriterSink<Printer<'_, P>>
    ensures { sink_faults result ≡ 0 }
{
    WriterSink::new(io::writer(rt))
}

/// The system's clock. Where it cannot be read, or stands before 1970, it tells the last moment
/// again, 0 before the first.
#[derive(Debug, Drop)]
pub struct SystemClock<R> {
    rt: R,
    last: u64,
}

impl<R: rt::Clock + Copy + Send> SystemClock<R> {
    pub fn new(rt: R) -> Self
        ensures { last_told result ≡ 0 }
    {
        SystemClock { rt, last: 0 }
    }
}

/// What to tell: whole microseconds, up to the greatest `u64`, or the last moment again.
fn moment_of(since_1970: io::Result<Duration>, last: u64) -> u64
    ensures { MatchResult since_1970
        (λ time. result ≡ min (as_nanos time / 1_000) (2 ^ 64 - 1)) (λ _. result ≡ last) }
{
    match since_1970 {
        Ok(time) => u64::try_from(time.as_micros()).unwrap_or(u64::MAX),
        Err(_) => last,
    }
}

impl<R: rt::Clock + Copy + Send> Clock for SystemClock<R> {
    ghost told = { moments_told };

    ghost plan = { no_plan };

    fn now(&mut self) -> u64
        ensures told { Appends (moments_told self.old) (moments_told self.new) (result ∷ []) }
        ensures plan { no_plan self.new ≡ no_plan self.old }
        ensures as_planned { IsAsPlanned (no_plan self.new) (moments_told self.new) }

        ensures last { last_told self.new ≡ result }
    {
        self.last = moment_of(self.rt.since_1970(), self.last);
        self.last
    }

    fn twin(&self) -> Self
        ensures told { moments_told result ≡ moments_told self.now }
        ensures plan { no_plan result ≡ no_plan self.now }

        ensures last { last_told result ≡ last_told self.now }
    {
        SystemClock {
            rt: self.rt,
            last: self.last,
        }
    }
}
