//! What becomes of the bytes behind a head.
ghost use Rattle.std.specs.Prelude.{◌≡◌, ◌&&◌};
ghost use Rattle.http_model.specs.Forms.{wants_close, waits};
ghost use Rattle.swift_requests.specs.Bodies.{is_within, unwanted, body_use, is_unread, is_awaited, closes};

use crate::Asked;
use http_model::{Framing, Head, REQUEST_LIMIT, waits_for_continue};
use swift_reply::SwiftRefusal;

/// What becomes of the bytes behind a head.
#[derive(Clone, Copy, Debug, PartialEq, Eq)]
pub enum BodyUse {
    /// It is the content that a PUT stores.
    Fed,
    /// It is that, and is read behind a 100; it is left unread where no 100 is written, and the reply then closes
    /// the connection.
    Awaited,
    /// It is read and dropped.
    Dropped,
    /// Nothing more is read, and the reply closes the connection.
    Unread,
}

/// Whether no length above that is told. What chunks hold shows when they are read.
fn is_within(largest: u64, framing: Framing) -> bool
    ensures { result ≡ is_within largest framing }
{
    match framing {
        Framing::Length(length) => length <= largest,
        Framing::Empty | Framing::Chunked => true,
    }
}

/// Whether some Expect field waits for a 100 (RFC 9110, section 10.1.1).
#[tactic(auto, unfolding(http_model::specs::Forms::waits))]
fn waits(head: &Head) -> bool
    ensures { result ≡ waits head.now }
{
    waits_for_continue(&head.fields)
}

/// Whether some Connection field lists `close`.
#[tactic(auto, unfolding(http_model::specs::Forms::wants_close))]
fn wants_close(head: &Head) -> bool
    ensures { result ≡ wants_close head.now }
{
    http_model::wants_close(&head.fields)
}

/// What becomes of a body that nobody wants: it is read and dropped, unless its length is above the largest or
/// the client waits for a 100.
pub fn unwanted(largest: u64, head: &Head) -> BodyUse
    ensures { result ≡ unwanted largest head.now }
{
    if is_within(largest, head.framing) && !waits(head) {
        BodyUse::Dropped
    } else {
        BodyUse::Unread
    }
}

/// What becomes of the body of a request that asks this, where the largest object has so many bytes
/// (RFC 9112, section 6.3). A PUT of an object is fed its content, behind a 100 where the client waits for one. The body of
/// any other request is read and dropped, unless its length is above the largest, the client waits for a 100, or
/// the refusal is `NotBuilt` or `TooLarge`.
pub fn body_use(largest: u64, head: &Head, asked: &Asked) -> BodyUse
    ensures { result ≡ body_use largest head.now asked.now }
{
    match asked {
        Asked::Put { .. } if waits(head) => BodyUse::Awaited,
        Asked::Put { .. } => BodyUse::Fed,
        Asked::Refused(SwiftRefusal::NotBuilt | SwiftRefusal::TooLarge) => BodyUse::Unread,
        Asked::BadHost | Asked::Refused(_) | Asked::Login { .. } | Asked::Unfed { .. } => {
            unwanted(largest, head)
        }
    }
}

impl BodyUse {
    /// Whether nothing of the body is read.
    pub fn is_unread(self) -> bool
        ensures { result ≡ is_unread self }
    {
        matches!(self, BodyUse::Unread)
    }

    /// Whether it is read behind a 100, or left.
    pub fn is_awaited(self) -> bool
        ensures { result ≡ is_awaited self }
    {
        matches!(self, BodyUse::Awaited)
    }
}

/// Whether the reply to this request, the `k`th of its connection, counted from 1, says that the connection
/// is closed (RFC 9112, section 9.6): its body is `left`, unread or in part, the request is of HTTP/1.0 or
/// asks for it, or it is the last that a connection may have.
#[tactic(auto, unfolding(crate::specs::Bodies::closes))]
pub fn closes(k: u64, head: &Head, left: bool) -> bool
    ensures { result ≡ closes k head.now left }
{
    left || head.minor == 0 || wants_close(head) || REQUEST_LIMIT <= k
}
