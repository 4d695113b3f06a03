// Words and runs whose answers come from the manual and from examples worked by hand.
ghost use Rattle.std.specs.Prelude.{◌≤◌};

use gw_io::{SliceSource, StepClock, VecSink};
use net_io::{ListConnection, ListNet, NoPause};
use rgw_run::run;
use std::alloc::{AllocError, Global};
use std::collections::VecDeque;
use std::sync::{Arc, Mutex, Wait};
use std::test::Fail;
use std::thread::Threads;

/// A PUT of `hello` and a GET of it.
const PUT_THEN_GET: &[u8] =
    b"PUT /swift/v1/AUTH_acme/box/k HTTP/1.1\r\nHost: h\r\nX-Auth-Token: AUTH_tk1\r\nContent-Type: text/plain\r\nContent-Length: 5\r\n\r\nhelloGET /swift/v1/AUTH_acme/box/k HTTP/1.1\r\nHost: h\r\nX-Auth-Token: AUTH_tk1\r\n\r\n";

/// What they are replied on the 14th of November 2023.
const STORED_AND_SHOWN: &[u8] =
    b"HTTP/1.1 201 Created\r\nContent-Length: 0\r\nETag: 5d41402abc4b2a76b9719d911017c592\r\nLast-Modified: Tue, 14 Nov 2023 22:13:20 GMT\r\n\r\nHTTP/1.1 200 OK\r\nContent-Length: 5\r\nContent-Type: text/plain\r\nETag: 5d41402abc4b2a76b9719d911017c592\r\nLast-Modified: Tue, 14 Nov 2023 22:13:20 GMT\r\nAccept-Ranges: bytes\r\n\r\nhello";

/// The same by a clock in steps of a second: the container is made first, and the change of the head is the fourth
/// event of the PUT.
const STORED_AND_SHOWN_BY_THE_CLOCK: &[u8] =
    b"HTTP/1.1 201 Created\r\nContent-Length: 0\r\nETag: 5d41402abc4b2a76b9719d911017c592\r\nLast-Modified: Tue, 14 Nov 2023 22:13:24 GMT\r\n\r\nHTTP/1.1 200 OK\r\nContent-Length: 5\r\nContent-Type: text/plain\r\nETag: 5d41402abc4b2a76b9719d911017c592\r\nLast-Modified: Tue, 14 Nov 2023 22:13:24 GMT\r\nAccept-Ranges: bytes\r\n\r\nhello";

/// A PUT whose body is cut.
const CUT_PUT: &[u8] =
    b"PUT /swift/v1/AUTH_acme/box/k HTTP/1.1\r\nHost: h\r\nX-Auth-Token: AUTH_tk1\r\nContent-Type: text/plain\r\nContent-Length: 5\r\n\r\nhel";

const GET_WITHOUT_TOKEN: &[u8] = b"GET /swift/v1/AUTH_acme/box/k HTTP/1.1\r\nHost: h\r\n\r\n";

const UNAUTHORIZED: &[u8] =
    b"HTTP/1.1 401 Unauthorized\r\nContent-Length: 13\r\nContent-Type: text/plain; charset=utf-8\r\nWWW-Authenticate: Swift realm=\"rgw\"\r\n\r\nUnauthorized\n";

const GET_OF_NOTHING: &[u8] =
    b"GET /swift/v1/AUTH_acme/box/k HTTP/1.1\r\nHost: h\r\nX-Auth-Token: AUTH_tk1\r\n\r\n";

const NO_OBJECT: &[u8] =
    b"HTTP/1.1 404 Not Found\r\nContent-Length: 15\r\nContent-Type: text/plain; charset=utf-8\r\n\r\nNo such object\n";

const NO_CONTAINER: &[u8] =
    b"HTTP/1.1 404 Not Found\r\nContent-Length: 18\r\nContent-Type: text/plain; charset=utf-8\r\n\r\nNo such container\n";

/// A PUT of 17 bytes, where a frame has 16 and there is one.
const PUT_OF_SEVENTEEN: &[u8] =
    b"PUT /swift/v1/AUTH_acme/box/k HTTP/1.1\r\nHost: h\r\nX-Auth-Token: AUTH_tk1\r\nContent-Length: 17\r\n\r\nabcdefghijklmnopq";

const NO_SPACE: &[u8] =
    b"HTTP/1.1 507 Insufficient Storage\r\nContent-Length: 17\r\nContent-Type: text/plain; charset=utf-8\r\n\r\nNo space: 0 of 1\n";

const BAD_HEAD: &[u8] =
    b"HTTP/1.1 400 Bad Request\r\nContent-Length: 18\r\nContent-Type: text/plain; charset=utf-8\r\nConnection: close\r\n\r\nBad request: head\n";

const AT_ONE_MOMENT: &[&str] = &["once", "--bucket", "box", "--now", "1700000000000000"];

const BY_THE_CLOCK: &[&str] = &["once", "--bucket", "box"];

const WITHOUT_CONTAINER: &[&str] = &["once", "--now", "1700000000000000"];

const ONE_FRAME: &[&str] = &[
    "once",
    "--frames",
    "1",
    "--frame",
    "16",
    "--stripe",
    "16",
    "--now",
    "1700000000000000",
    "--bucket",
    "box",
];

fn strings(alloc: Global, words: &[&str]) -> Result<Vec<String>, AllocError> {
    let mut all = Vec::new(alloc);
    for word in words {
        all.push(String::from_str(alloc, word)?)?;
    }
    Ok(all)
}

/// One connection of a server, at one moment.
const SERVED_AT_ONE_MOMENT: &[&str] = &[
    "serve",
    "--accepts",
    "1",
    "--bucket",
    "box",
    "--now",
    "1700000000000000",
];

/// How input and output behave: the greatest piece, and the calls that fail.
#[derive(Drop)]
struct Streams<'a> {
    piece: usize,
    failing_reads: &'a [u64],
    failing_writes: &'a [u64],
    ghost some: { 1 ≤ piece },
}

/// The status of a run, and what it wrote. The clock begins on the 14th of November 2023 and goes in
/// steps of a second.
fn outcome<R: Wait + Threads + Copy + Send + Sync>(
    rt: R,
    alloc: Global,
    words: &[&str],
    bytes: &[u8],
    streams: &Streams<'_>,
) -> Result<(u8, Vec<u8>), AllocError> {
    let words = strings(alloc, words)?;
    let mut input = SliceSource::new(bytes, streams.piece, streams.failing_reads);
    let mut output = VecSink::new(alloc, streams.piece, streams.failing_writes);
    let mut clock = StepClock::new(1_700_000_000_000_000, 1_000_000);
    let mut net = ListNet::new(rt, alloc, VecDeque::new(alloc));
    let mut realm = None;
    let status = run(
        &rt,
        alloc,
        &words,
        &mut input,
        &mut output,
        &mut clock,
        &mut net,
        &NoPause,
        &mut realm,
    );
    Ok((status.number, output.into_bytes()))
}

#[test]
fn connections_are_replied_so_in_any_pieces(rt: HostRuntime) -> Result<(), Fail> {
    let table: [(&[&str], &[u8], &[u8], u8); 9] = [
        (AT_ONE_MOMENT, PUT_THEN_GET, STORED_AND_SHOWN, 0),
        (BY_THE_CLOCK, PUT_THEN_GET, STORED_AND_SHOWN_BY_THE_CLOCK, 0),
        (AT_ONE_MOMENT, b"", b"", 0),
        (AT_ONE_MOMENT, GET_WITHOUT_TOKEN, UNAUTHORIZED, 0),
        (AT_ONE_MOMENT, GET_OF_NOTHING, NO_OBJECT, 0),
        (WITHOUT_CONTAINER, GET_OF_NOTHING, NO_CONTAINER, 0),
        (ONE_FRAME, PUT_OF_SEVENTEEN, NO_SPACE, 0),
        (AT_ONE_MOMENT, b"GET\r\n\r\n", BAD_HEAD, 5),
        (AT_ONE_MOMENT, CUT_PUT, b"", 5),
    ];
    for (row, (words, bytes, replies, status)) in table.into_iter().enumerate() {
        for piece in [1, 7, 4096] {
            let streams = Streams {
                piece,
                failing_reads: &[],
                failing_writes: &[],
            };
            let (number, written) = outcome(rt, rt.alloc(), words, bytes, &streams)?;
            assert_eq!(rt; number, status, "row {row} in pieces of {piece}");
            assert_eq!(rt;
                written.as_slice(),
                replies,
                "row {row} in pieces of {piece}"
            );
        }
    }
    Ok(())
}

/// A script of two users, whose first has an account of its own.
const SCRIPT_OF_TWO_USERS: &[&str] = &[
    "script",
    "--bucket",
    "box",
    "--users",
    "[{\"user\":\"beta:bob\",\"key\":\"k\",\"token\":\"t\"},{\"user\":\"acme:ann\",\"key\":\"secret\",\"token\":\"AUTH_tk1\"}]",
];

#[test]
fn the_first_user_makes_the_requests_of_a_script(rt: HostRuntime) -> Result<(), Fail> {
    let streams = Streams {
        piece: 7,
        failing_reads: &[],
        failing_writes: &[],
    };
    let lines = b"do 1 put box/k hello\ndo 1 stat box\n";
    let prints = b"201 5d41402abc4b2a76b9719d911017c592\n200 objects=1 bytes=5\n";
    let (number, written) = outcome(rt, rt.alloc(), SCRIPT_OF_TWO_USERS, lines, &streams)?;
    assert_eq!(rt; number, 0);
    assert!(rt; written.as_slice() == prints.as_slice());
    Ok(())
}

#[test]
fn a_failure_gives_its_status_and_a_front(rt: HostRuntime) -> Result<(), Fail> {
    // In pieces of 7 bytes there are at least so many reads, the one at the end among them, and so
    // many writes.
    for (reads, writes, status) in [(30, 0, 2), (0, 44, 3)] {
        for call in 0..reads + writes {
            let calls = [call];
            let streams = Streams {
                piece: 7,
                failing_reads: if reads > 0 { &calls } else { &[] },
                failing_writes: if writes > 0 { &calls } else { &[] },
            };
            let (number, written) = outcome(rt, rt.alloc(), AT_ONE_MOMENT, PUT_THEN_GET, &streams)?;
            assert_eq!(rt; number, status, "at call {call}");
            assert!(rt; STORED_AND_SHOWN.starts_with(&written), "at call {call}");
        }
    }
    Ok(())
}

#[test]
fn a_server_replies_over_a_list_net(rt: HostRuntime) -> Result<(), Fail> {
    let alloc = rt.alloc();
    let words = strings(alloc, SERVED_AT_ONE_MOMENT)?;
    let output = Arc::new(alloc, Mutex::new(Vec::new(alloc)))?;
    let mut connections = VecDeque::new(alloc);
    connections.push_back(ListConnection {
        input: PUT_THEN_GET,
        output: Arc::try_clone(&output)?,
    })?;
    let mut net = ListNet::new(rt, alloc, connections);
    let mut input = SliceSource::new(b"", 1, &[]);
    let mut nothing = VecSink::new(alloc, 1, &[]);
    let mut clock = StepClock::new(0, 1);
    let mut realm = None;
    let status = run(
        &rt,
        alloc,
        &words,
        &mut input,
        &mut nothing,
        &mut clock,
        &mut net,
        &NoPause,
        &mut realm,
    );
    assert_eq!(rt; status.number, 0);
    assert!(rt; realm.is_none() && nothing.into_bytes().is_empty());
    assert!(rt; output.lock(&rt).as_slice() == STORED_AND_SHOWN);
    Ok(())
}
