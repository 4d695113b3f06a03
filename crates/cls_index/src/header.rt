//! Whether a shard takes changes.
ghost use Rattle.std.specs.Prelude.{◌≡◌, IfErr, OnOk, None, Some};
ghost use Rattle.object_words.specs.Refusals.{fate_refusal, first_refusal, hold_refusal};

use class_words::check_serves;
use index_entry::ShardHeader;
use object_words::{Hold, Why};

/// Whether the shard takes changes: it serves, and then nothing holds it.
pub(crate) fn check_changes(header: &ShardHeader) -> Result<(), Why>
    ensures ok { OnOk result (first_refusal (fate_refusal header.now.fate) (hold_refusal header.now.hold) ≡ None) }
    ensures err { IfErr result (λ why. first_refusal (fate_refusal header.now.fate) (hold_refusal header.now.hold) ≡ Some why) }
{
    check_serves(header)?;
    match header.hold {
        Hold::Free => Ok(()),
        Hold::Reshard(id) | Hold::Closing(id) => Err(Why::Held { id }),
    }
}
