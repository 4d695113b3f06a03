//! Bodies that an intake gives.
use crate::timing::Timed;
use anyhow::Context;
use gw_io::SliceSource;
use http_intake::Intake;
use std::alloc::Global;
use std::io::Write;
use std::rt::Clock;

// How often each is measured. The fastest round counts.
const ROUNDS: u64 = 20;

const CHUNK: usize = 65536;

// So many bytes a source gives at once, and so many a body is asked for at once.
const PIECE: usize = 65536;

/// A body of four bytes in each framing.
pub fn show<R: Print>(rt: &R, alloc: Global) -> anyhow::Result<()> {
    let mut piece = [0; 3];
    for input in [in_chunks(alloc, 2, 2)?, by_length(alloc, 2, 2)?] {
        let total = read_body(alloc, input.as_slice(), &mut piece)?;
        println!(rt; "{total} bytes")?;
    }
    Ok(())
}

/// Bodies of so many times 64 KiB.
pub fn measure<R: Clock + Print>(rt: &R, alloc: Global, count: u32) -> anyhow::Result<()> {
    let count = u64::from(count);
    let chunks = in_chunks(alloc, count, CHUNK)?;
    measure_one(rt, alloc, "in chunks of 64 KiB", chunks.as_slice())?;
    let small = in_chunks(alloc, count.saturating_mul(16), CHUNK / 16)?;
    measure_one(rt, alloc, "in chunks of 4 KiB", small.as_slice())?;
    let length = by_length(alloc, count, CHUNK)?;
    measure_one(rt, alloc, "by length", length.as_slice())
}

fn measure_one<R: Clock + Print>(
    rt: &R,
    alloc: Global,
    name: &str,
    input: &[u8],
) -> anyhow::Result<()> {
    let mut piece = vec![in alloc; 0; PIECE]?;
    let mut fastest = Timed::never();
    for _ in 0..ROUNDS {
        fastest.round(rt, || read_body(alloc, input, piece.as_mut_slice()))?;
    }
    let speed = fastest.mebibytes_a_second();
    println!(rt; "{speed:>8} MiB/s {name}")?;
    Ok(())
}

// A PUT whose body is so many chunks of as many bytes.
fn in_chunks(alloc: Global, count: u64, size: usize) -> anyhow::Result<Vec<u8>> {
    let chunk = vec![in alloc; b'x'; size]?;
    let mut input = Vec::from_slice(
        alloc,
        b"PUT /a HTTP/1.1\r\nTransfer-Encoding: chunked\r\n\r\n",
    )?;
    for _ in 0..count {
        write!(input, "{size:x}\r\n")?;
        input.extend_from_slice(chunk.as_slice())?;
        input.extend_from_slice(b"\r\n")?;
    }
    input.extend_from_slice(b"0\r\n\r\n")?;
    Ok(input)
}

// A PUT whose body has so many times as many bytes, by its length.
fn by_length(alloc: Global, count: u64, size: usize) -> anyhow::Result<Vec<u8>> {
    let chunk = vec![in alloc; b'x'; size]?;
    let length = count.saturating_mul(size as u64);
    let mut input = Vec::new(alloc);
    write!(input, "PUT /a HTTP/1.1\r\nContent-Length: {length}\r\n\r\n")?;
    for _ in 0..count {
        input.extend_from_slice(chunk.as_slice())?;
    }
    Ok(input)
}

// Reads a request, and answers how many bytes its body has.
fn read_body(alloc: Global, input: &[u8], piece: &mut [u8]) -> anyhow::Result<u64> {
    let mut source = SliceSource::new(input, PIECE, &[]);
    let mut intake = Intake::new(alloc, u64::MAX)?;
    intake.next(alloc, &mut source)?.context("no head")?;
    let mut total: u64 = 0;
    for _ in 0..u64::MAX {
        match intake.body(&mut source, piece)? {
            0 => break,
            count => total = total.saturating_add(count as u64),
        }
    }
    Ok(total)
}
