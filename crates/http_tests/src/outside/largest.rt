// Pieces that go whole, of more bytes than any call of a gateway moves at once.
use super::read_one;
use gw_io::{CountingSink, SliceSource, VecSink, WholeSource, copy_front, write_all};
use std::alloc::{AllocError, Global};
use std::test::Fail;

const LARGE: usize = 16 << 20;

fn filled(alloc: Global, byte: u8, len: usize) -> Result<Vec<u8>, AllocError> {
    vec![in alloc; byte; len]
}

/// Whether all is copied, and nothing behind it.
fn is_copied(bytes: &[u8], buf: &mut [u8]) -> bool {
    let count = copy_front(bytes, buf);
    count == LARGE && buf.get(LARGE - 1) == Some(&7) && buf.last() == Some(&0)
}

fn is_given(bytes: &[u8], buf: &mut [u8]) -> bool {
    let mut source = WholeSource::new(bytes);
    read_one(&mut source, buf) == Ok(LARGE)
}

fn is_given_in_a_piece(bytes: &[u8], buf: &mut [u8]) -> bool {
    let mut source = SliceSource::new(bytes, usize::MAX, &[]);
    read_one(&mut source, buf) == Ok(LARGE) && source.left().is_empty()
}

#[test]
fn the_largest_piece_is_given(rt: HostRuntime) -> Result<(), Fail> {
    let bytes = filled(rt.alloc(), 7, LARGE)?;
    let mut buf = filled(rt.alloc(), 0, LARGE + 1)?;
    let is_copied = is_copied(&bytes, &mut buf);
    let is_given = is_given(&bytes, &mut buf);
    let is_given_in_a_piece = is_given_in_a_piece(&bytes, &mut buf);
    drop(buf);
    drop(bytes);
    assert!(rt; is_copied);
    assert!(rt; is_given);
    assert!(rt; is_given_in_a_piece);
    Ok(())
}

fn is_taken(mut sink: VecSink<'_>, bytes: &[u8]) -> bool {
    let answer = write_all(&mut sink, bytes);
    let right = answer == Ok(()) && sink.bytes() == bytes;
    drop(sink);
    right
}

#[test]
fn the_largest_piece_is_taken_at_once(rt: HostRuntime) -> Result<(), Fail> {
    let bytes = filled(rt.alloc(), 7, LARGE)?;
    let sink = VecSink::with_capacity(rt.alloc(), LARGE, usize::MAX, &[])?;
    let is_taken = is_taken(sink, &bytes);
    drop(bytes);
    assert!(rt; is_taken);
    Ok(())
}

#[test]
fn the_largest_piece_is_taken_in_pieces(rt: HostRuntime) -> Result<(), Fail> {
    let bytes = filled(rt.alloc(), 7, LARGE)?;
    let is_taken = is_taken(VecSink::new(rt.alloc(), 1_000, &[]), &bytes);
    drop(bytes);
    assert!(rt; is_taken);
    Ok(())
}

fn is_counted(bytes: &[u8]) -> bool {
    let mut sink = CountingSink::new();
    write_all(&mut sink, bytes) == Ok(()) && sink.count() == 16_777_216
}

#[test]
fn the_largest_piece_is_counted(rt: HostRuntime) -> Result<(), Fail> {
    let bytes = filled(rt.alloc(), 7, LARGE)?;
    let is_counted = is_counted(&bytes);
    drop(bytes);
    assert!(rt; is_counted);
    Ok(())
}
