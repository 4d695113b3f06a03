//! The methods that targets take.
ghost use Rattle.std.specs.Prelude.{◌≡◌};
ghost use Rattle.swift_requests.specs.Methods.{is_look, is_post, is_delete, is_copy, is_change, has_container_method, has_object_method};

use http_model::Head;

/// Whether the method is GET or HEAD.
pub(crate) fn is_look(head: &Head) -> bool
    ensures { result ≡ is_look head.now }
{
    head.is_get() || head.is_bodiless()
}

fn is_post(head: &Head) -> bool
    ensures { result ≡ is_post head.now }
{
    head.method.as_bytes() == b"POST".as_slice()
}

pub(crate) fn is_delete(head: &Head) -> bool
    ensures { result ≡ is_delete head.now }
{
    head.method.as_bytes() == b"DELETE".as_slice()
}

fn is_copy(head: &Head) -> bool
    ensures { result ≡ is_copy head.now }
{
    head.method.as_bytes() == b"COPY".as_slice()
}

/// Whether the method is PUT or POST.
fn is_change(head: &Head) -> bool
    ensures { result ≡ is_change head.now }
{
    head.is_put() || is_post(head)
}

/// Whether a container takes the method.
pub(crate) fn has_container_method(head: &Head) -> bool
    ensures { result ≡ has_container_method head.now }
{
    is_look(head) || is_change(head) || is_delete(head)
}

/// Whether an object takes the method.
pub(crate) fn has_object_method(head: &Head) -> bool
    ensures { result ≡ has_object_method head.now }
{
    has_container_method(head) || is_copy(head)
}
