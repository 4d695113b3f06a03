//! A run of a server.
ghost use Rattle.std.specs.Prelude.{◌≡◌, IsSome};
ghost use Rattle.rgw_run.specs.Served.{HasServed, net_of, serve_status};

use crate::status::Status;
use gw_io::{Clock, StepClock};
use net_io::{Net, OpenGate, Pause};
use rgw_server::{ServeEnd, ServePlan, serve};
use rgw_words::{RunWords, ServeWords, Serving};
use std::alloc::Global;
use std::sync::Wait;
use std::thread::Threads;

/// Serves the connections of the port that the words say to a new realm, while jobs run over it.
pub(crate) fn run_server<R: Wait + Threads + Sync, C: Clock, N: Net, T: Pause + Sync>(
    rt: &R,
    alloc: Global,
    words: ServeWords,
    clock: &mut C,
    net: &mut N,
    pause: &T,
) -> Status
    ensures served { HasServed words.serving (net_of (N.faults net.old) (N.closed net.old)) (net_of (N.faults net.new) (N.closed net.new)) result.number }
    ensures unasked { IsSome words.run.now → clock.new ≡ clock.old }
{
    let ServeWords { run, serving } = words;
    let RunWords {
        bucket,
        settings,
        now,
        users,
    } = run;
    let Serving {
        port,
        workers,
        accepts,
    } = serving;
    let plan = ServePlan {
        port,
        workers,
        accepts,
        bucket,
    };
    let end = match now {
        None => serve(
            rt, alloc, &settings, &users, &plan, clock, net, &OpenGate, pause,
        ),
        Some(moment) => {
            let mut still = StepClock::new(moment, 0);
            serve(
                rt, alloc, &settings, &users, &plan, &mut still, net, &OpenGate, pause,
            )
        }
    };
    Status {
        number: serve_status(end),
    }
}

fn serve_status(end: ServeEnd) -> u8
    ensures { result ≡ serve_status end }
{
    match end {
        ServeEnd::Ended => 0,
        ServeEnd::OutOfMemory => 4,
        ServeEnd::Failed => 6,
    }
}
