//! The head of an object and its tails.
ghost use Rattle.std.specs.Prelude.{◌≡◌, ◌<◌, ◌≤◌, ◌^◌, [], IfOk, length};
ghost use Rattle.object_pool.specs.Places.{object_of};
ghost use Rattle.object_words.specs.Heads.{Head};
ghost use Rattle.cls_head.specs.Heads.{IsHead};

use crate::words::media_type;
use cls_head::{make_tail, read, read_tail, write};
use object_pool::{Key, OutOfMemory, PartNumber, Place, Pool};
use object_words::{
    Changed, ClassFault, Conditions, EtagRule, Guard, HeadSeen, NewHead, SeenSlot, Texts, Why,
};
use rgw_types::{Bytes, Manifest, Pairs, Stamp, Text};
use std::alloc::Global;
use std::test::Fail;

/// The digest of no bytes at all, and its text.
const ETAG: [u8; 16] = [
    0xd4, 0x1d, 0x8c, 0xd9, 0x8f, 0x00, 0xb2, 0x04, 0xe9, 0x80, 0x09, 0x98, 0xec, 0xf8, 0x42, 0x7e,
];

const ETAG_TEXT: &str = "d41d8cd98f00b204e9800998ecf8427e";

/// A live head, written by another program: by event 9, at moment 50 in zone 2, with the ETag of no
/// bytes, 20 bytes in stripes of 16 by write 5, the type `a/b`, and `v` under `k`.
const WRITTEN: [u8; 94] = [
    0xeb, 1, 1, 0, 0, 0, 0, 0, 0, 0, 9, 0, 0, 0, 0, 0, 0, 0, 50, 2, 0xd4, 0x1d, 0x8c, 0xd9, 0x8f,
    0x00, 0xb2, 0x04, 0xe9, 0x80, 0x09, 0x98, 0xec, 0xf8, 0x42, 0x7e, 1, 0, 0, 0, 0, 0, 0, 0, 5, 0,
    0, 0, 16, 0, 0, 0, 0, 0, 0, 0, 20, 0, 0, 0, 0, 0, 0, 0, 3, b'a', b'/', b'b', 0, 0, 0, 0, 0, 0,
    0, 1, 0, 0, 0, 0, 0, 0, 0, 1, b'k', 0, 0, 0, 0, 0, 0, 0, 1, b'v',
];

/// What a call on a head answered.
type Answer = Result<Changed, ClassFault>;

fn head_key(alloc: Global) -> Result<Key, OutOfMemory> {
    Ok(Key::Head {
        container: 7,
        name: Text::from_str(alloc, "dog")?,
    })
}

fn pairs(alloc: Global) -> Result<Pairs, Fail> {
    let mut pairs = Vec::new(alloc);
    let name = Text::from_str(alloc, "k")?;
    let value = Text::from_str(alloc, "v")?;
    pairs.push((name, value))?;
    Ok(Pairs::from_vec(pairs).ok().ok_or("no pairs")?)
}

/// Content of so many bytes in stripes of 16, of which these are the first.
fn content(alloc: Global, size: u64, first: &[u8]) -> Result<NewHead, Fail>
    ensures { IfOk result (λ new. new.first ≡ first.now) }
{
    let manifest = Manifest::new(5, 16, size).ok_or("no manifest")?;
    let first = Bytes::from_slice(alloc, first)?;
    let kind = media_type(alloc, "a/b")?;
    let meta = pairs(alloc)?;
    Ok(NewHead {
        manifest,
        first,
        kind,
        meta,
        etag: ETAG,
    })
}

/// If-Match and If-None-Match with these rules.
fn conditions(matches: Option<EtagRule>, none: Option<EtagRule>) -> Conditions {
    Conditions {
        matches,
        none,
        modified: None,
        unmodified: None,
    }
}

/// If-Match with one ETag.
fn if_match(alloc: Global, etag: &str) -> Result<Conditions, Fail> {
    let mut etags = Texts::new(alloc);
    etags.push(Text::from_str(alloc, etag)?)?;
    Ok(conditions(Some(EtagRule::OneOf(etags)), None))
}

/// A change in zone 2, by event 9, under a guard that ends at moment 100.
fn change(
    alloc: Global,
    head: &mut Place<'_>,
    new: &NewHead,
    when: &Conditions,
    clock: u64,
) -> Answer
    requires head { (h : Head) × IsHead (object_of head.old) h }
    ensures { (h : Head) × IsHead (object_of head.new) h }
{
    let guard = Guard {
        tag: 1,
        deadline: 100,
    };
    write(alloc, head, guard, new, when, 2, 9, clock)
}

/// The same with no condition.
fn plain_change(alloc: Global, head: &mut Place<'_>, new: &NewHead, clock: u64) -> Answer
    requires head { (h : Head) × IsHead (object_of head.old) h }
    ensures { (h : Head) × IsHead (object_of head.new) h }
{
    let when = conditions(None, None);
    let answer = change(alloc, head, new, &when, clock);
    drop(when);
    answer
}

fn is_made(answer: Answer) -> bool {
    let made = answer.is_ok();
    drop(answer);
    made
}

fn is_expired(answer: Answer) -> bool {
    let expired = matches!(
        &answer,
        Err(ClassFault::No(Why::Expired {
            deadline: 100,
            clock: 100
        }))
    );
    drop(answer);
    expired
}

fn is_not_met(answer: Answer, stamp: Option<Stamp>) -> bool {
    let unmet = match &answer {
        Err(ClassFault::No(Why::NotMet { stamp: told })) => *told == stamp,
        _ => false,
    };
    drop(answer);
    unmet
}

fn is_full(answer: Answer) -> bool {
    let full = matches!(
        &answer,
        Err(ClassFault::No(Why::NoSpace { free: 2, needed: 3 }))
    );
    drop(answer);
    full
}

fn is_new(changed: &Changed) -> bool {
    let stamp = Stamp {
        micros: 50,
        zone: 2,
    };
    let row = &changed.row;
    changed.version == 9
        && changed.stamp == stamp
        && changed.old.is_none()
        && row.exists
        && row.size == 20
        && row.stamp == stamp
        && row.etag == ETAG
        && row.kind.as_text().is("a/b")
}

fn is_kept(seen: &HeadSeen) -> bool {
    match &seen.slot {
        SeenSlot::Live(new, stamp) => {
            seen.version == 9
                && stamp.micros == 50
                && stamp.zone == 2
                && new.manifest.write == 5
                && new.first.as_slice() == b"0123456789abcdef".as_slice()
                && new.kind.as_text().is("a/b")
                && new.meta.len() == 1
                && new.meta.get("k").is_some_and(|value| value.is("v"))
                && new.etag == ETAG
        }
        _ => false,
    }
}

/// What is tried of a head.
#[derive(Clone, Copy, Debug)]
enum Scene {
    Written,
    WrittenAgain,
    NoTails,
    FirstReason,
    Etags,
}

/// Whether it went as it is known to, in a pool of so many frames of 16 bytes, and how many are free then.
fn played(alloc: Global, frames: u32, scene: Scene) -> Result<(bool, u32), Fail>
    requires some { 1 ≤ frames }
    requires few { frames ≤ 8 }
{
    let mut pool = Pool::new(alloc, frames, 16)?;
    let right = play_at_key(alloc, &mut pool, scene);
    let free = pool.free();
    drop(pool);
    Ok((right?, free))
}

fn play_at_key(alloc: Global, pool: &mut Pool, scene: Scene) -> Result<bool, Fail>
    requires { pool.old.slots ≡ [] }
{
    let key = head_key(alloc)?;
    let mut head = pool.place(alloc, &key)?;
    let right = play(alloc, &mut head, scene);
    drop(head);
    drop(key);
    right
}

fn play(alloc: Global, head: &mut Place<'_>, scene: Scene) -> Result<bool, Fail>
    requires { (h : Head) × IsHead (object_of head.old) h }
{
    match scene {
        Scene::Written => play_written(alloc, head),
        Scene::WrittenAgain => {
            let new = content(alloc, 20, b"0123456789abcdefg")?;
            let right = is_written_again(alloc, head, &new);
            drop(new);
            Ok(right)
        }
        Scene::NoTails => {
            let new = content(alloc, 5, b"hello")?;
            let right = has_no_old_tails(alloc, head, &new);
            drop(new);
            Ok(right)
        }
        Scene::FirstReason => {
            let new = content(alloc, 20, b"0123456789abcdef0123456789abcdefg")?;
            let right = tells_the_first_reason(alloc, head, &new);
            drop(new);
            Ok(right)
        }
        Scene::Etags => {
            let new = content(alloc, 20, b"dog")?;
            let right = compares_texts(alloc, head, &new);
            drop(new);
            right
        }
    }
}

/// The version that a read of the head tells, by the event of this number.
fn version_at(alloc: Global, head: &Place<'_>, number: u64) -> Result<u64, OutOfMemory>
    requires { (h : Head) × IsHead (object_of head.now) h }
{
    let seen = read(alloc, head, number)?;
    let version = seen.version;
    drop(seen);
    Ok(version)
}

fn keeps(alloc: Global, head: &Place<'_>) -> Result<bool, OutOfMemory>
    requires { (h : Head) × IsHead (object_of head.now) h }
{
    let seen = read(alloc, head, 12)?;
    let kept = is_kept(&seen);
    drop(seen);
    Ok(kept)
}

fn play_written(alloc: Global, head: &mut Place<'_>) -> Result<bool, Fail>
    requires { (h : Head) × IsHead (object_of head.old) h }
{
    let absent = version_at(alloc, head, 7)?;
    let new = content(alloc, 20, b"0123456789abcdef")?;
    let changed = plain_change(alloc, head, &new, 50);
    drop(new);
    let right = absent == 7
        && changed.is_ok_and(|changed| is_new(&changed))
        && head.attrs() == WRITTEN.as_slice();
    Ok(right && keeps(alloc, head)?)
}

/// At an earlier moment: the stamp is above the one before, and the old manifest has a tail.
fn is_written_again(alloc: Global, head: &mut Place<'_>, new: &NewHead) -> bool
    requires { (h : Head) × IsHead (object_of head.old) h }
{
    let first = is_made(plain_change(alloc, head, new, 50));
    let again = plain_change(alloc, head, new, 10);
    let right = match &again {
        Ok(changed) => {
            changed.stamp.micros == 51 && changed.old.map(|manifest| manifest.write) == Some(5)
        }
        Err(_) => false,
    };
    drop(again);
    first && right
}

/// At a later moment: the stamp is that moment, and the old manifest, which has no tail, is not answered.
fn has_no_old_tails(alloc: Global, head: &mut Place<'_>, new: &NewHead) -> bool
    requires { (h : Head) × IsHead (object_of head.old) h }
{
    let first = is_made(plain_change(alloc, head, new, 50));
    let again = plain_change(alloc, head, new, 60);
    let right = match &again {
        Ok(changed) => changed.stamp.micros == 60 && changed.old.is_none(),
        Err(_) => false,
    };
    drop(again);
    first && right
}

/// 33 bytes need 3 frames of 16, and there are 2.
fn tells_the_first_reason(alloc: Global, head: &mut Place<'_>, new: &NewHead) -> bool
    requires { (h : Head) × IsHead (object_of head.old) h }
{
    let any = conditions(Some(EtagRule::Any), None);
    let none = conditions(None, Some(EtagRule::Any));
    let expired = is_expired(change(alloc, head, new, &any, 100));
    let unmet = is_not_met(change(alloc, head, new, &any, 99), None);
    let full = is_full(change(alloc, head, new, &none, 99));
    drop(any);
    drop(none);
    expired && unmet && full && !head.exists()
}

fn compares_texts(alloc: Global, head: &mut Place<'_>, new: &NewHead) -> Result<bool, Fail>
    requires { (h : Head) × IsHead (object_of head.old) h }
{
    let same = if_match(alloc, ETAG_TEXT)?;
    let right = compares_cases(alloc, head, new, &same);
    drop(same);
    right
}

fn compares_cases(
    alloc: Global,
    head: &mut Place<'_>,
    new: &NewHead,
    same: &Conditions,
) -> Result<bool, Fail>
    requires { (h : Head) × IsHead (object_of head.old) h }
{
    let upper = if_match(alloc, "D41D8CD98F00B204E9800998ECF8427E")?;
    let none = conditions(None, Some(EtagRule::Any));
    let made = is_made(change(alloc, head, new, &none, 40));
    let stamp = Stamp {
        micros: 40,
        zone: 2,
    };
    let unmet = is_not_met(change(alloc, head, new, &upper, 50), Some(stamp));
    let again = is_made(change(alloc, head, new, same, 60));
    drop(none);
    drop(upper);
    Ok(made && unmet && again)
}

#[test]
fn a_head_is_written_and_read(rt: HostRuntime) -> Result<(), Fail> {
    assert_eq!(rt; played(rt.alloc(), 8, Scene::Written)?, (true, 7));
    Ok(())
}

#[test]
fn a_head_is_written_again(rt: HostRuntime) -> Result<(), Fail> {
    assert_eq!(rt; played(rt.alloc(), 8, Scene::WrittenAgain)?, (true, 6));
    Ok(())
}

#[test]
fn a_head_without_tails_is_written_again(rt: HostRuntime) -> Result<(), Fail> {
    assert_eq!(rt; played(rt.alloc(), 2, Scene::NoTails)?, (true, 1));
    Ok(())
}

#[test]
fn the_first_reason_is_told(rt: HostRuntime) -> Result<(), Fail> {
    assert_eq!(rt; played(rt.alloc(), 2, Scene::FirstReason)?, (true, 2));
    Ok(())
}

#[test]
fn etags_are_compared_as_texts(rt: HostRuntime) -> Result<(), Fail> {
    assert_eq!(rt; played(rt.alloc(), 2, Scene::Etags)?, (true, 1));
    Ok(())
}

fn is_text(answer: Result<Bytes, ClassFault>, text: &[u8]) -> bool {
    let right = match &answer {
        Ok(bytes) => bytes.as_slice() == text,
        Err(_) => false,
    };
    drop(answer);
    right
}

fn is_gone(answer: Result<Bytes, ClassFault>) -> bool {
    let gone = matches!(&answer, Err(ClassFault::No(Why::Gone { clock: 70 })));
    drop(answer);
    gone
}

/// In a pool of three frames of 16 bytes.
fn is_tail(alloc: Global, tail: &mut Place<'_>) -> bool {
    let gone = is_gone(read_tail(alloc, tail, 0, 4, 70));
    let full = make_tail(tail, &[b't'; 49]);
    let full = matches!(full, Err(Why::NoSpace { free: 3, needed: 4 }));
    let made = make_tail(tail, b"0123456789abcdefg").is_ok();
    let end = is_text(read_tail(alloc, tail, 15, 10, 70), b"fg");
    let none = is_text(read_tail(alloc, tail, 3, 0, 70), b"");
    gone && full && made && end && none
}

fn tail_at_key(alloc: Global, pool: &mut Pool) -> Result<bool, Fail> {
    let key = Key::Tail {
        write: 3,
        part: PartNumber::new(1),
    };
    let mut tail = pool.place(alloc, &key)?;
    Ok(is_tail(alloc, &mut tail))
}

#[test]
fn a_tail_is_made_and_read(rt: HostRuntime) -> Result<(), Fail> {
    let mut pool = Pool::new(rt.alloc(), 3, 16)?;
    let right = tail_at_key(rt.alloc(), &mut pool);
    let free = pool.free();
    drop(pool);
    assert!(rt; right?);
    assert_eq!(rt; free, 1);
    Ok(())
}
