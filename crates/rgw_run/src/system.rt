// A run over the standard streams, the system's clock and its TCP.
ghost use Rattle.std.specs.Prelude.{◌≡◌, ◌≢◌};
ghost use Rattle.std.specs.IoError.{error_kind};

use crate::program::run;
use crate::status::Status;
use gw_io::{SystemClock, standard_input, standard_output};
use net_io::{AnnouncedNet, SystemPause, TcpNet};
use std::io::ErrorKind;
use std::net::{Net, TcpListener, TcpStream};
use std::process::ExitCode;
use std::rt::{Clock, Env};
use std::sync::Wait;
use std::thread::Threads;
use std::time::Duration;
use std::{env, io};

/// A read or a write of a connection that waits so long fails, so a client that stops gives its worker back.
const WAIT_SECONDS: u64 = 60;

/// How long the jobs pause between two rounds.
const PAUSE_MILLIS: u64 = 20;

/// The words behind the program's name.
fn arguments<R: Env + AllocGlobal>(rt: &R) -> io::Result<Vec<String>> {
    Ok(env::args(rt)?.skip(1).collect(rt.alloc())?)
}

/// The status where the words could not be had: those that are no text are refused.
fn status_without_words(error: &io::Error) -> Status
    ensures memory { error_kind error.now ≡ ErrorKind.OutOfMemory → result.number ≡ 4 }
    ensures refused { error_kind error.now ≢ ErrorKind.OutOfMemory → result.number ≡ 1 }
{
    match error.kind() {
        ErrorKind::OutOfMemory => Status { number: 4 },
        _ => Status { number: 1 },
    }
}

/// A run over the real ends. No stream is buffered here, so nothing is left to flush.
fn run_with_system<R>(rt: R) -> Status
where
    R: Env + AllocGlobal + Input + Print + Eprint + Clock + Wait + Threads + Copy + Send + Sync,
    R: Net<Listener = TcpListener, Stream = TcpStream>,
{
    let words = match arguments(&rt) {
        Ok(words) => words,
        Err(error) => return status_without_words(&error),
    };
    let mut input = standard_input(&rt);
    let mut output = standard_output(&rt);
    let mut clock = SystemClock::new(rt);
    let wait = Some(Duration::from_secs(WAIT_SECONDS));
    let mut net = AnnouncedNet::new(rt, TcpNet::new(rt, wait));
    let pause = SystemPause::new(rt, PAUSE_MILLIS);
    let mut realm = None;
    run(
        &rt,
        rt.alloc(),
        &words,
        &mut input,
        &mut output,
        &mut clock,
        &mut net,
        &pause,
        &mut realm,
    )
}

/// Does what the program's words ask, from standard input to standard output. A status that is not
/// 0 is told on standard error, in the line `rgw: status N`.
pub fn run_on_system<R>(rt: R) -> ExitCode
where
    R: Env + AllocGlobal + Input + Print + Eprint + Clock + Wait + Threads + Copy + Send + Sync,
    R: Net<Listener = TcpListener, Stream = TcpStream>,
{
    let status = run_with_system(rt);
    if status.number != 0 {
        // Where standard error is closed, the status still tells.
        let _ = eprintln!(rt; "rgw: status {}", status.number);
    }
    status.exit_code()
}
