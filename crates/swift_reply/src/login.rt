//! The reply to a user who is let in, at the end of a buffer.
ghost use Rattle.std.specs.Prelude.{◌≡◌, ◌++◌, [], OnOk};
ghost use Rattle.http_model.specs.Replies.{field_line};
ghost use Rattle.swift_reply.specs.declared.reply.SwiftReply.TheVariants.{LetIn};
ghost use Rattle.swift_reply.specs.Fields.{storage_url_field};
ghost use Rattle.swift_reply.specs.Replies.{reply_text};

use crate::fields::push_closing;
use crate::head::{push_field, push_status};
use http::StatusCode;
use http_model::ReplyForm;
use rgw_types::{Bytes, Text};
use std::alloc::AllocError;

/// Adds `X-Storage-Url`: where an account is, at this host.
fn push_storage_url(out: &mut Vec<u8>, host: &Bytes, account: &Text) -> Result<(), AllocError>
    ensures { OnOk result (out.new.items
        ≡ out.old.items ++ field_line (storage_url_field host.now account.now)) }
{
    out.extend_from_slice(b"X-Storage-Url: http://")?;
    out.extend_from_slice(host.as_slice())?;
    out.extend_from_slice(b"/swift/v1/AUTH_")?;
    out.extend_from_slice(account.as_bytes())?;
    out.extend_from_slice(b"\r\n")?;
    Ok(())
}

/// Adds the reply that lets a user in: where the account is, at the host that the request names, and
/// the token of the user.
pub fn push_let_in(
    out: &mut Vec<u8>,
    host: &Bytes,
    account: &Text,
    token: &Text,
    form: ReplyForm,
) -> Result<(), AllocError>
    ensures { OnOk result (out.new.items
        ≡ out.old.items ++ reply_text form (LetIn host.now account.now token.now) []) }
{
    push_status(out, StatusCode::NO_CONTENT)?;
    push_storage_url(out, host, account)?;
    push_field(out, "X-Auth-Token", token.as_bytes())?;
    push_closing(out, form)?;
    out.extend_from_slice(b"\r\n")?;
    Ok(())
}
