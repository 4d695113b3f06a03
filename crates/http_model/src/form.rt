ghost use Rattle.std.specs.Prelude.{◌≡◌, ◌&&◌, codes};
ghost use Rattle.std.specs.List.{list_any};
ghost use Rattle.http1.specs.Text.{eq_ignore_case};
ghost use Rattle.http_model.specs.Framings.{values_of};
ghost use Rattle.http_model.specs.Forms.{lists_close, is_continue};

use crate::{Field, Fields};
use http1::Header;
use http1::fields::KnownFields;
use http1::text::eq_ignore_case;

/// Whether the value is a list by commas with `close` in it, in any case (RFC 9110, section
/// 7.6.1).
fn lists_close(value: &[u8]) -> bool
    ensures { result ≡ lists_close value.now }
{
    let connection = [Header {
        name: b"connection",
        value,
    }];
    KnownFields::from_headers(&connection).close
}

fn is_closing(field: &Field) -> bool
    ensures { result ≡ (eq_ignore_case field.now.name (codes "connection") && lists_close field.now.value) }
{
    eq_ignore_case(field.name.as_bytes(), b"connection") && lists_close(field.value.as_slice())
}

/// Whether some Connection field lists `close` (RFC 9110, section 7.6.1).
pub fn wants_close(fields: &Fields) -> bool
    ensures { result ≡ list_any lists_close (values_of (codes "connection") fields.now) }
{
    fields.as_slice().iter().any(|field| is_closing(field))
}

fn is_waiting(field: &Field) -> bool
    ensures { result ≡ (eq_ignore_case field.now.name (codes "expect") && is_continue field.now.value) }
{
    eq_ignore_case(field.name.as_bytes(), b"expect")
        && eq_ignore_case(field.value.as_slice(), b"100-continue")
}

/// Whether some Expect field waits for a 100 (RFC 9110, section 10.1.1).
pub fn waits_for_continue(fields: &Fields) -> bool
    ensures { result ≡ list_any is_continue (values_of (codes "expect") fields.now) }
{
    fields.as_slice().iter().any(|field| is_waiting(field))
}
