//! The reply that counts what a container has, at the end of a buffer.
ghost use Rattle.std.specs.Prelude.{◌≡◌, ◌++◌, [], OnOk, None, if◌then◌else◌, flat_map};
ghost use Rattle.http_model.specs.Replies.{field_line};
ghost use Rattle.swift_reply.specs.declared.reply.SwiftReply.TheVariants.{Counted};
ghost use Rattle.swift_reply.specs.Fields.{field_for, text_field};
ghost use Rattle.swift_reply.specs.Replies.{filled, counts_of, reply_text};

use crate::fields::{push_closing, push_meta, push_number_field};
use crate::head::{push_field, push_status};
use http::StatusCode;
use http_model::ReplyForm;
use object_words::Bucket;
use rgw_types::Text;
use std::alloc::AllocError;

/// Adds a list of a container as the field of this name, where it is shown and not empty.
fn push_list(out: &mut Vec<u8>, name: &str, list: &Text, shown: bool) -> Result<(), AllocError>
    ensures { OnOk result (out.new.items ≡ out.old.items
        ++ flat_map field_line (field_for (text_field name.now) (if shown then filled list.now else None))) }
{
    if shown && !list.is_empty() {
        return push_field(out, name, list.as_bytes());
    }
    Ok(())
}

/// Adds the reply that counts a container's objects and their bytes and shows its metadata, and its
/// lists where the request comes from a user of its account.
pub fn push_counted(
    out: &mut Vec<u8>,
    row: &Bucket,
    objects: u64,
    bytes: u64,
    own: bool,
    form: ReplyForm,
) -> Result<(), AllocError>
    ensures { OnOk result (out.new.items ≡ out.old.items
        ++ reply_text form (Counted (counts_of row.now objects bytes own)) []) }
{
    push_status(out, StatusCode::NO_CONTENT)?;
    push_number_field(out, "X-Container-Object-Count", objects)?;
    push_number_field(out, "X-Container-Bytes-Used", bytes)?;
    push_meta(out, "X-Container-Meta-", &row.meta)?;
    push_list(out, "X-Container-Read", &row.readers, own)?;
    push_list(out, "X-Container-Write", &row.writers, own)?;
    push_closing(out, form)?;
    out.extend_from_slice(b"\r\n")?;
    Ok(())
}
