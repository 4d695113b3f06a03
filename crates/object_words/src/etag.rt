//! ETags as texts, and the rules on them (RFC 9110, sections 8.8.3 and 13.1).
ghost use Rattle.std.specs.Prelude.{◌≡◌, ℕ, List, Some};
ghost use Rattle.hex.specs.Hex.{encode_lower};
ghost use Rattle.object_words.specs.Conditions.{meets};

use crate::EtagRule;

/// The text of an ETag: its bytes in lower-case hexadecimal digits.
pub fn etag_digits(etag: &[u8; 16]) -> [u8; 32]
    ensures { result ≡ encode_lower etag.now }
{
    let mut digits = [0; 32];
    if hex::encode_to_slice(etag.as_slice(), &mut digits).is_err() {
        unreachable!();
    }
    digits
}

/// Whether an object whose ETag has these digits meets the rule.
pub fn meets(rule: &EtagRule, digits: &[u8; 32]) -> bool
    ensures { (etag : List ℕ) → digits.now ≡ encode_lower etag → result ≡ meets rule.now (Some etag) }
{
    match rule {
        EtagRule::Any => true,
        EtagRule::OneOf(etags) => etags
            .as_slice()
            .iter()
            .any(|etag| digits.as_slice() == etag.as_bytes()),
    }
}
