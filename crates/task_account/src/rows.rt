//! One row more, or one container more.
ghost use Rattle.std.specs.Prelude.{◌≡◌, OnOk};
ghost use Rattle.task_account.specs.Asking.{with_container, with_subdir, is_of_subdir, has_subdir};

use crate::AccountReply;
use list_words::AccountRow;
use object_words::BucketName;
use rgw_types::Text;
use std::alloc::AllocError;

/// Adds a container with its sums.
pub fn add_container(
    reply: &mut AccountReply,
    name: &BucketName,
    objects: u64,
    bytes: u64,
) -> Result<(), AllocError>
    ensures { OnOk result (reply.new ≡ with_container reply.old name.now objects bytes) }
{
    match reply {
        AccountReply::Counted {
            containers,
            objects: all_objects,
            bytes: all_bytes,
        } => {
            *containers = containers.saturating_add(1);
            *all_objects = all_objects.saturating_add(objects);
            *all_bytes = all_bytes.saturating_add(bytes);
            Ok(())
        }
        AccountReply::Listed(rows) => rows.push(AccountRow {
            name: name.as_text().clone()?,
            count: objects,
            bytes,
            subdir: false,
        }),
    }
}

/// Adds a row for the names below a subdir.
pub fn add_subdir(reply: &mut AccountReply, subdir: Text) -> Result<(), AllocError>
    ensures { OnOk result (reply.new ≡ with_subdir reply.old subdir) }
{
    match reply {
        AccountReply::Counted { .. } => Ok(()),
        AccountReply::Listed(rows) => rows.push(AccountRow {
            name: subdir,
            count: 0,
            bytes: 0,
            subdir: true,
        }),
    }
}

/// Whether the last row is of this subdir.
pub fn has_subdir(reply: &AccountReply, subdir: &str) -> bool
    ensures { result ≡ has_subdir reply.now subdir.now }
{
    match reply {
        AccountReply::Counted { .. } => false,
        AccountReply::Listed(rows) => match rows.as_slice().last() {
            Some(row) => is_of_subdir(row, subdir),
            None => false,
        },
    }
}

fn is_of_subdir(row: &AccountRow, subdir: &str) -> bool
    ensures { result ≡ is_of_subdir subdir.now row.now }
{
    row.subdir && subdir.as_bytes() == row.name.as_bytes()
}
