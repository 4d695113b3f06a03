// What no public call shows: which keys are kept, and where objects are guessed to be.
use super::{OutOfMemory, Pool};
use crate::guesses::Guesses;
use rgw_types::{Bytes, Key, PartNumber};
use std::alloc::Global;
use std::test::Fail;

fn tail(write: u64) -> Key {
    Key::Tail {
        write,
        part: PartNumber::new(1),
    }
}

// Whether an object that comes and goes leaves hardly a key behind.
fn is_forgotten(alloc: Global, pool: &mut Pool, key: &Key) -> Result<bool, OutOfMemory> {
    let mut place = pool.place(alloc, key)?;
    let is_put = place.put_bytes(b"bytes").is_ok();
    place.drop_object();
    drop(place);
    Ok(is_put && pool.kept() <= 40)
}

// Whether a thousand of them are.
fn are_forgotten(alloc: Global, pool: &mut Pool) -> Result<bool, OutOfMemory> {
    for write in 0..1000 {
        if !is_forgotten(alloc, pool, &tail(write))? {
            return Ok(false);
        }
    }
    Ok(true)
}

// Whether a thousand objects are forgotten, and one is not that is there before them.
fn one_is_left(alloc: Global, pool: &mut Pool) -> Result<bool, OutOfMemory> {
    let here = Bytes::from_slice(alloc, b"here")?;
    pool.place(alloc, &Key::Root)?.set_attrs(here);
    let are_forgotten = are_forgotten(alloc, pool)?;
    let is_there = pool
        .find(&Key::Root)
        .is_some_and(|place| place.attrs() == b"here".as_slice());
    Ok(are_forgotten && is_there)
}

#[test]
fn emptied_objects_are_forgotten(rt: HostRuntime) -> Result<(), Fail> {
    let mut pool = Pool::new(rt.alloc(), 2, 16)?;
    let is_left = one_is_left(rt.alloc(), &mut pool);
    drop(pool);
    assert!(rt; is_left?);
    Ok(())
}

// A guess gives way only where six keys meet in one group. There are as many groups as keys, so by chance one or two of a
// thousand do.
#[test]
fn most_numbers_are_guessed(rt: HostRuntime) {
    let mut guesses = Guesses::new(rt.alloc());
    for number in 0..1_000 {
        guesses.note(rt.alloc(), number, &tail(number as u64), number);
    }
    let right = (0..1_000).filter(|number| guesses.spot_of(&tail(*number as u64)).number as usize
        == *number);
    assert!(rt; right.count() >= 990);
}
