ghost use Rattle.std.specs.Prelude.{◌≡◌, length, option_copied};
ghost use Rattle.http_model.specs.Framings.{values_of, value_of};

use http1::text::eq_ignore_case;
use rgw_types::{Bytes, Items, Text};

/// A field of a head (RFC 9110, section 5): a name, whose case does not count, and a value without
/// the blanks around it.
#[derive(Debug, Drop)]
pub struct Field {
    pub name: Text,
    pub value: Bytes,
}

/// The fields of a head in the order in which they stand there.
pub type Fields = Items<Field>;

/// The value of the last field with this name, whose case does not count (RFC 9110, section 5.1).
#[tactic(auto, using(crate::proofs::FieldLemmas::value_steps))]
pub fn field_value<'a>(fields: &'a [Field], name: &[u8]) -> Option<&'a [u8]>
    ensures { option_copied result ≡ value_of name.now fields.now }
{
    let mut last = None;
    for field in fields {
        if eq_ignore_case(field.name.as_bytes(), name) {
            last = Some(field.value.as_slice());
        }
    }
    last
}

/// How many fields have this name, whose case does not count.
pub fn field_count(fields: &[Field], name: &[u8]) -> usize
    ensures { result ≡ length (values_of name.now fields.now) }
{
    let mut count = 0;
    for field in fields {
        if eq_ignore_case(field.name.as_bytes(), name) {
            count += 1;
        }
    }
    count
}
