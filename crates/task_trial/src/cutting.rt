//! A body alone, cut into stripes.
use std::alloc::Global;
use std::str;
use task_put::{PutBody, has_other_etag};
use task_words::BodyEnd;

const LETTERS: &[u8] = b"abcdefghijklmnopqrstuvwxyz";

/// The letters a to z in stripes of 16.
pub fn letters_are_cut<R: Print>(rt: &R, alloc: Global) -> anyhow::Result<()> {
    println!(rt; "the letters a to z in stripes of 16")?;
    let mut body = PutBody::new(alloc, 16);
    let told = tell_stripes(rt, alloc, &mut body);
    drop(body);
    told
}

fn tell_stripes<R: Print>(rt: &R, alloc: Global, body: &mut PutBody) -> anyhow::Result<()> {
    let head = body.feed(LETTERS)?;
    let tail = body.feed(&LETTERS[16..])?;
    body.finish(BodyEnd::Whole);
    println!(rt; "{head} bytes are taken, then {tail}")?;
    if body.has_tail() {
        let part = body.next_part().get();
        let bytes = body.take_tail(alloc);
        let text = str::from_utf8(bytes.as_slice())?;
        println!(rt; "tail {part}: {text}")?;
    }
    if let Some(etag) = body.etag() {
        let other = has_other_etag(None, &etag);
        let digest = u128::from_be_bytes(etag);
        println!(rt; "digest {digest:032x}, other than was sent: {other}")?;
    }
    let tails = body.manifest(4).tails();
    println!(rt; "tails {tails}")?;
    Ok(())
}
