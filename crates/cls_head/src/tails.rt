ghost use Rattle.std.specs.Prelude.{◌≡◌};
ghost use Rattle.object_pool.specs.Places.{object_of, pool_of};
ghost use Rattle.object_words.specs.Answers.{Answers, Replies};
ghost use Rattle.object_words.specs.Tails.{Tail, bytes_at, read_refusal, tail_made, tail_refusal};
ghost use Rattle.class_words.specs.Works.{WorksWith};
ghost use Rattle.cls_head.specs.Tails.{IsTail, LeavesTail};

use object_pool::{NoSpace, Place};
use object_words::{ClassFault, Why};
use rgw_types::Bytes;
use std::alloc::Global;

/// Makes a tail of these bytes, or refuses where too few frames are free for them. Takes no memory.
pub fn make_tail(tail: &mut Place<'_>, bytes: &[u8]) -> Result<(), Why>
    ensures works { WorksWith tail.old tail.new (pool_of tail.new).free }
    ensures answers { (t : Tail) → IsTail (object_of tail.old) t
        → Replies result (tail_refusal bytes.now (pool_of tail.old).free (pool_of tail.old).frame) (λ _. Unit {0})
        (LeavesTail tail.old tail.new t) (tail_made t bytes.now (pool_of tail.old).free (pool_of tail.old).frame) }
{
    match tail.put_bytes(bytes) {
        Ok(()) => Ok(()),
        Err(NoSpace { free, needed }) => Err(Why::NoSpace { free, needed }),
    }
}

/// A copy of `count` bytes of a tail from `start` on, or of as many of them as there are; refused where
/// the tail is not there.
pub fn read_tail(
    alloc: Global,
    tail: &Place<'_>,
    start: u64,
    count: u64,
    clock: u64,
) -> Result<Bytes, ClassFault>
    ensures { (t : Tail) → IsTail (object_of tail.now) t
        → Answers result (read_refusal t clock) (λ bytes. bytes ≡ bytes_at t start count) (IsTail (object_of tail.now)) t t }
{
    if tail.size() == 0 {
        return Err(ClassFault::No(Why::Gone { clock }));
    }
    let Ok(bytes) = tail.bytes(alloc, start, count) else {
        return Err(ClassFault::OutOfMemory);
    };
    Ok(bytes)
}
