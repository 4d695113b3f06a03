ghost use Rattle.std.specs.Prelude.{◌≡◌, ◌≤◌, IfOk};
ghost use Rattle.rgw_types.specs.Stripes.{ManifestView};
ghost use Rattle.object_pool.specs.Places.{object_of, pool_of};
ghost use Rattle.object_words.specs.Answers.{Answers};
ghost use Rattle.object_words.specs.Heads.{Head, with_tails};
ghost use Rattle.object_words.specs.HeadCalls.{change_of, seen, write_refusal, written};
ghost use Rattle.class_words.specs.Works.{WorksWith};
ghost use Rattle.cls_head.specs.Heads.{IsHead, LeavesHead};

use crate::conditions::fails;
use crate::content::{encode, read_texts};
use crate::front::read_front;
use object_pool::{NoSpace, OutOfMemory, Place};
use object_words::{
    Changed, ClassFault, Conditions, EntryRow, Guard, HeadSeen, NewHead, SeenSlot, Why,
};
use rgw_types::{Manifest, Stamp};
use std::alloc::Global;

/// What an event of this number sees of a head. A head that was never changed is shown with the number
/// of the event.
pub fn read(alloc: Global, head: &Place<'_>, number: u64) -> Result<HeadSeen, OutOfMemory>
    requires { (h : Head) × IsHead (object_of head.now) h }
    ensures { (h : Head) → IsHead (object_of head.now) h → IfOk result (λ found. found ≡ seen h number) }
{
    let seen = read_stored(alloc, head)?;
    let version = if seen.version == 0 {
        number
    } else {
        seen.version
    };
    Ok(HeadSeen {
        version,
        slot: seen.slot,
    })
}

/// A head as it is kept, with the number 0 where it was never changed.
fn read_stored(alloc: Global, head: &Place<'_>) -> Result<HeadSeen, OutOfMemory>
    requires { (h : Head) × IsHead (object_of head.now) h }
    ensures { (h : Head) → IsHead (object_of head.now) h → IfOk result (λ found. found ≡ record { version = h.version; slot = h.slot }) }
{
    let front = read_front(head.attrs());
    let version = front.version;
    let Some(stamp) = front.stamp else {
        return Ok(HeadSeen {
            version,
            slot: SeenSlot::Nothing,
        });
    };
    let Some(etag) = front.etag else {
        return Ok(HeadSeen {
            version,
            slot: SeenSlot::Mark(stamp),
        });
    };
    let manifest = front.manifest.unwrap();
    let first = head.bytes(alloc, 0, head.size())?;
    let (kind, meta) = read_texts(alloc, front.texts)?;
    let new = NewHead {
        manifest,
        first,
        kind,
        meta,
        etag,
    };
    Ok(HeadSeen {
        version,
        slot: SeenSlot::Live(new, stamp),
    })
}

/// Puts new content into a head, in the zone of 1 to 8, by the event of this number and at the clock.
///
/// It is refused, and nothing changes, where the clock is not below the guard's deadline; else where
/// If-Match or If-None-Match fails; else where too few frames are free for the first bytes. Memory is
/// taken before anything changes.
pub fn write(
    alloc: Global,
    head: &mut Place<'_>,
    guard: Guard,
    new: &NewHead,
    when: &Conditions,
    zone: u8,
    number: u64,
    clock: u64,
) -> Result<Changed, ClassFault>
    requires head { (h : Head) × IsHead (object_of head.old) h }
    requires zone_low { 1 ≤ zone }
    requires zone_high { zone ≤ 8 }
    ensures works { WorksWith head.old head.new (pool_of head.new).free }
    ensures answers { (h : Head) → IsHead (object_of head.old) h
        → let after = written h guard new.now when.now zone number clock (pool_of head.old).free (pool_of head.old).frame in
        Answers result (write_refusal h guard new.now when.now clock (pool_of head.old).free (pool_of head.old).frame)
        (λ changed. changed ≡ change_of h after) (LeavesHead head.old head.new h) h after }
{
    let front = read_front(head.attrs());
    if clock >= guard.deadline {
        return Err(ClassFault::No(Why::Expired {
            deadline: guard.deadline,
            clock,
        }));
    }
    let before = front.stamp;
    if fails(when, front.etag) {
        return Err(ClassFault::No(Why::NotMet { stamp: before }));
    }
    let old = with_tails(front.manifest);
    let stamp = Stamp::above(before, clock, zone);
    let attrs = encode(alloc, number, stamp, new)?;
    let kind = new.kind.clone()?;
    if let Err(NoSpace { free, needed }) = head.put_bytes(new.first.as_slice()) {
        return Err(ClassFault::No(Why::NoSpace { free, needed }));
    }
    head.set_attrs(attrs);
    Ok(Changed {
        version: number,
        stamp,
        row: EntryRow {
            exists: true,
            size: new.manifest.size,
            stamp,
            etag: new.etag,
            kind,
        },
        old,
    })
}

/// The manifest, where it has tails.
fn with_tails(manifest: Option<Manifest>) -> Option<Manifest>
    ensures { result ≡ with_tails manifest }
{
    match manifest {
        Some(manifest) if manifest.tails() > 0 => Some(manifest),
        _ => None,
    }
}
