//! A run of the program, over any input, output, clock and net.
ghost use Rattle.std.specs.Prelude.{◌≡◌, IfSome, IsSome, None, map, string_bytes};
ghost use Rattle.rgw_words.specs.Words.{once_of, script_of, may_ask, serve_of};
ghost use Rattle.rgw_run.specs.Exact.{RunsExactlyIf};
ghost use Rattle.rgw_run.specs.Served.{Runs, net_of};

use crate::running::run_alone;
use crate::served::run_server;
use crate::status::Status;
use gw_io::{Clock, Ends, Sink, Source};
use net_io::{Net, Pause};
use realm_core::Realm;
use rgw_words::{WordsFault, read_serve};
use std::alloc::Global;
use std::sync::Wait;
use std::thread::Threads;

/// Does what the words ask, from the input to the output, or of the connections of a port; leaves the realm
/// that it made for one connection or for a script; and answers the status of the program:
///
/// | Status | Comes where |
/// |---|---|
/// | 0 | the requests of the input ended with it, or with one that closes the connection; all lines of the script were played; the port gave its connections, or is shut |
/// | 1 | the words are refused |
/// | 2, 3 | the input, the output failed |
/// | 4 | memory was wanting |
/// | 5 | the requests end inside of one, with a refusal, or with a form that is not taken yet; a line of the script is bad |
/// | 6 | the net failed |
/// | 7 | the realm has all the events that it may have |
pub fn run<R: Wait + Threads + Sync, S: Source, K: Sink, C: Clock, N: Net, T: Pause + Sync>(
    rt: &R,
    alloc: Global,
    words: &[String],
    input: &mut S,
    output: &mut K,
    clock: &mut C,
    net: &mut N,
    pause: &T,
    realm: &mut Option<Realm>,
) -> Status
    requires { realm.old ≡ None }
    ensures runs { Runs (once_of (map string_bytes words.now)) (script_of (map string_bytes words.now)) (may_ask (map string_bytes words.now)) (serve_of (map string_bytes words.now))
        (⟦<(S, K, C) as Ends>⟧.ends (input.old, output.old, clock.old))
        (⟦<(S, K, C) as Ends>⟧.ends (input.new, output.new, clock.new))
        (net_of (N.faults net.old) (N.closed net.old)) (net_of (N.faults net.new) (N.closed net.new)) realm.new result.number }

    // At one moment the replies of one connection are those of one bucket map, folded over the requests from the
    // empty container.
    ensures exact { RunsExactlyIf (once_of (map string_bytes words.now))
        (⟦<(S, K, C) as Ends>⟧.ends (input.old, output.old, clock.old))
        (⟦<(S, K, C) as Ends>⟧.ends (input.new, output.new, clock.new)) realm.new result.number }

    // Where the words are refused, nothing else happens.
    ensures untouched { result.number ≡ 1
        → (input.new ≡ input.old) × (output.new ≡ output.old) × (clock.new ≡ clock.old) × (net.new ≡ net.old) }

    // A server neither reads nor writes the streams; nothing else opens a port.
    ensures unread { IsSome (serve_of (map string_bytes words.now))
        → (input.new ≡ input.old) × (output.new ≡ output.old) }
    ensures unopened { serve_of (map string_bytes words.now) ≡ None → net.new ≡ net.old }

    // The clock is not asked where the words say the moment, and by no script.
    ensures unasked { IfSome (once_of (map string_bytes words.now)) (λ once.
        IsSome once.now → clock.new ≡ clock.old) }
    ensures unasked_server { IfSome (serve_of (map string_bytes words.now)) (λ serve.
        IsSome serve.run.now → clock.new ≡ clock.old) }
    ensures by_lines { IsSome (script_of (map string_bytes words.now)) → clock.new ≡ clock.old }
{
    match read_serve(alloc, words) {
        Ok(serve) => run_server(rt, alloc, serve, clock, net, pause),
        Err(WordsFault::Refused) => run_alone(alloc, words, input, output, clock, realm),
        Err(WordsFault::OutOfMemory) => Status { number: 4 },
    }
}
