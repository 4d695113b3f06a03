//! Replies that show nothing, at the end of a buffer.
ghost use Rattle.std.specs.Prelude.{◌≡◌, ◌∷◌, ◌++◌, [], OnOk};
ghost use Rattle.http_model.specs.Replies.{closing_fields, content_length_field, text_of};
ghost use Rattle.swift_reply.specs.declared.reply.SwiftReply.TheVariants.{Created, Accepted, Done};
ghost use Rattle.swift_reply.specs.Replies.{reply_text};

use crate::fields::{push_closing, push_length};
use crate::head::push_status;
use http::StatusCode;
use http_model::ReplyForm;
use std::alloc::AllocError;

/// Adds a reply that says only that its body is empty.
fn push_empty(out: &mut Vec<u8>, status: StatusCode, form: ReplyForm) -> Result<(), AllocError>
    ensures { OnOk result (out.new.items ≡ out.old.items
        ++ text_of form (record { code = status; fields = content_length_field 0 ∷ closing_fields form }) []) }
{
    push_status(out, status)?;
    push_length(out, 0)?;
    push_closing(out, form)?;
    out.extend_from_slice(b"\r\n")?;
    Ok(())
}

/// Adds the reply that a container was made.
#[tactic(auto, unfolding(crate::specs::Replies::reply_text))]
pub fn push_created(out: &mut Vec<u8>, form: ReplyForm) -> Result<(), AllocError>
    ensures { OnOk result (out.new.items ≡ out.old.items ++ reply_text form Created []) }
{
    push_empty(out, StatusCode::CREATED, form)
}

/// Adds the reply that what was there is changed.
#[tactic(auto, unfolding(crate::specs::Replies::reply_text))]
pub fn push_accepted(out: &mut Vec<u8>, form: ReplyForm) -> Result<(), AllocError>
    ensures { OnOk result (out.new.items ≡ out.old.items ++ reply_text form Accepted []) }
{
    push_empty(out, StatusCode::ACCEPTED, form)
}

/// Adds the reply that something was done which leaves nothing to show.
pub fn push_done(out: &mut Vec<u8>, form: ReplyForm) -> Result<(), AllocError>
    ensures { OnOk result (out.new.items ≡ out.old.items ++ reply_text form Done []) }
{
    push_status(out, StatusCode::NO_CONTENT)?;
    push_closing(out, form)?;
    out.extend_from_slice(b"\r\n")?;
    Ok(())
}
