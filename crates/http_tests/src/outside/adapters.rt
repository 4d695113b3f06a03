// The adapters over std's readers and writers.
ghost use Rattle.std.specs.Prelude.{◌≤◌, IfOk};

use super::{read_one, sent};
use gw_io::{Failed, ReaderSource, Sink, WriterSink, standard_input, standard_output, write_all};
use std::io;
use std::io::{ErrorKind, Read, Write};

// Standard input of a test is empty.
#[test]
fn standard_input_ends(rt: HostRuntime) {
    let mut source = standard_input(&rt);
    assert_eq!(rt; read_one(&mut source, &mut [0; 4]), Ok(0));
}

#[test]
fn standard_output_takes_bytes(rt: HostRuntime) {
    let mut sink = standard_output(&rt);
    assert_eq!(rt; write_all(&mut sink, b"standard output\n"), Ok(()));
}

// Interrupted, then a byte, then broken, then at its end. As a writer it takes nothing at its end.
#[derive(Drop)]
struct Uneven {
    calls: u64,
}

impl Uneven {
    fn step(&mut self) -> io::Result<usize>
        ensures { IfOk result (λ n. n ≤ 1) }
    {
        self.calls = self.calls.saturating_add(1);
        match self.calls {
            1 => Err(io::Error::from(ErrorKind::Interrupted)),
            2 => Ok(1),
            3 => Err(io::Error::from(ErrorKind::Other)),
            _ => Ok(0),
        }
    }
}

impl Read for Uneven {
    fn read(&mut self, buf: &mut [u8]) -> io::Result<usize> {
        Ok(self.step()?.min(buf.len()))
    }
}

impl Write for Uneven {
    fn write(&mut self, buf: &[u8]) -> io::Result<usize> {
        Ok(self.step()?.min(buf.len()))
    }

    fn flush(&mut self) -> io::Result<()> {
        Ok(())
    }
}

#[test]
fn adapters_go_on_after_interrupts_and_tell_of_faults(rt: HostRuntime) {
    let mut source = sent(ReaderSource::new(Uneven { calls: 0 }));
    let mut sink = sent(WriterSink::new(Uneven { calls: 0 }));
    for (read, written) in [
        (Ok(1), Ok(1)),
        (Err(Failed), Err(Failed)),
        (Ok(0), Err(Failed)),
    ] {
        assert_eq!(rt; read_one(&mut source, &mut [0; 2]), read);
        assert_eq!(rt; sink.write(b"ab"), written);
    }
    assert_eq!(rt; source.into_inner().calls, 4);
    assert_eq!(rt; sink.into_inner().calls, 4);
}
