// Sources and sinks in memory, by few bytes.
use super::{read_one, sent};
use gw_io::{CountingSink, Failed, SliceSource, VecSink, WholeSource, write_all};
use std::alloc::Global;
use std::test::Fail;

/// What each call answers, and what the buffer holds then.
const READS: &[(Result<usize, Failed>, &[u8; 3])] = &[
    (Ok(2), b"he\0"),
    (Err(Failed), b"\0\0\0"),
    (Ok(2), b"ll\0"),
    (Ok(1), b"o\0\0"),
    (Ok(0), b"\0\0\0"),
];

#[test]
fn a_slice_source_gives_pieces_and_fails_as_told(rt: HostRuntime) {
    let mut source = sent(SliceSource::new(b"hello", 2, &[1]));
    for (answer, bytes) in READS {
        let mut buf = [0; 3];
        assert_eq!(rt; read_one(&mut source, &mut buf), *answer);
        assert_eq!(rt; buf, **bytes);
    }
    assert_eq!(rt; source.left().len(), 0);
}

/// What a sink answers that fails at its call 2, the third.
fn answers_of(sink: &mut VecSink<'_>) -> [Result<(), Failed>; 3] {
    [
        write_all(sink, b"hello"),
        write_all(sink, b", you"),
        write_all(sink, b"!"),
    ]
}

#[test]
fn a_vec_sink_takes_pieces_and_fails_as_told(rt: HostRuntime) {
    let mut sink = sent(VecSink::new(rt.alloc(), 3, &[2]));
    let answers = answers_of(&mut sink);
    let right = sink.bytes() == b"hello!".as_slice();
    drop(sink);
    assert_eq!(rt; answers, [Ok(()), Err(Failed), Ok(())]);
    assert!(rt; right);
}

fn taken(alloc: Global, bytes: &[u8]) -> Result<Vec<u8>, Fail> {
    let mut sink = VecSink::with_capacity(alloc, 2, 9, &[])?;
    write_all(&mut sink, bytes)?;
    Ok(sink.into_bytes())
}

#[test]
fn a_sink_with_room_takes_bytes(rt: HostRuntime) -> Result<(), Fail> {
    let bytes = taken(rt.alloc(), b"ok")?;
    assert_eq!(rt; bytes.as_slice(), b"ok".as_slice());
    Ok(())
}

#[test]
fn nothing_fails_without_a_list(rt: HostRuntime) {
    let mut source = sent(WholeSource::new(b"abcd"));
    let mut sink = sent(CountingSink::default());
    for (answer, left) in [(3, 1), (1, 0), (0, 0)] {
        let mut buf = [0; 3];
        assert_eq!(rt; read_one(&mut source, &mut buf), Ok(answer));
        assert_eq!(rt; source.left().len(), left);
        assert_eq!(rt; write_all(&mut sink, &buf), Ok(()));
    }
    assert_eq!(rt; sink.count(), 9);
}
