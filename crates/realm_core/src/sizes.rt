//! The sizes that operations bring are numbers of 64 bits. These functions do nothing: they tell it to the
//! proofs of their callers.
ghost use Rattle.std.specs.Prelude.{◌<◌, ◌^◌};
ghost use Rattle.zone_core.specs.Bounds.{FitsOp};

use object_words::EntryRow;
use realm_model::Op;

pub(crate) fn sizes_fit(op: &Op)
    ensures { FitsOp op.now }
{
    match op {
        Op::Complete { row, .. } => row_fits(row),
        Op::Suggest { row, .. } => row_fits(row),
        Op::BucketRead { .. }
        | Op::BucketSwap { .. }
        | Op::AccountPage { .. }
        | Op::BucketPage { .. }
        | Op::ShardMake { .. }
        | Op::Prepare { .. }
        | Op::Cancel { .. }
        | Op::Page { .. }
        | Op::Stats { .. }
        | Op::CloseShard { .. }
        | Op::Release { .. }
        | Op::Shut { .. }
        | Op::HeadRead { .. }
        | Op::HeadWrite { .. }
        | Op::TailMake { .. }
        | Op::TailRead { .. }
        | Op::Announce { .. } => {}
    }
}

fn row_fits(row: &EntryRow)
    ensures { row.now.size < 2 ^ 64 }
{
    fits(row.size);
}

fn fits(size: u64)
    ensures { size < 2 ^ 64 }
{}
