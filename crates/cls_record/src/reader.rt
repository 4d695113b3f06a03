//! Numbers and texts that stand one after another in bytes.
ghost use Rattle.std.specs.Prelude.{◌≡◌, ◌^◌, ◌<◌, ◌++◌, ℕ, List, Some, IfSome, OnOk, length};
ghost use Rattle.std.specs.Option.{IsSomeAnd};
ghost use Rattle.index_entry.specs.Numbers.{number_bytes};
ghost use Rattle.cls_record.specs.BucketRows.{IsText, text_bytes};

use rgw_types::Bytes;
use std::alloc::AllocError;

/// What of some bytes was not read yet.
#[derive(Drop)]
pub(crate) struct Reader<'a> {
    pub(crate) rest: &'a [u8],
}

impl<'a> Reader<'a> {
    /// The next so many bytes.
    pub(crate) fn bytes(&mut self, count: usize) -> Option<&'a [u8]>
        ensures found { IfSome result (λ piece. (length piece.now ≡ count) × (self.old.rest.now ≡ piece.now ++ self.new.rest.now)) }
        ensures exact { (piece rest : List ℕ) → length piece ≡ count → self.old.rest.now ≡ piece ++ rest
            → IsSomeAnd result (λ r. r.now ≡ piece) × (self.new.rest.now ≡ rest) }
    {
        if self.rest.len() < count {
            return None;
        }
        let (piece, rest) = self.rest.split_at(count);
        self.rest = rest;
        Some(piece)
    }

    /// The next number.
    pub(crate) fn number(&mut self) -> Option<u64>
        ensures found { IfSome result (λ n. self.old.rest.now ≡ number_bytes n ++ self.new.rest.now) }
        ensures exact { (n : ℕ) (rest : List ℕ) → n < 2 ^ 64 → self.old.rest.now ≡ number_bytes n ++ rest
            → (result ≡ Some n) × (self.new.rest.now ≡ rest) }
    {
        let piece = self.bytes(8)?;
        Some(number_in(piece))
    }

    /// The next text.
    pub(crate) fn text(&mut self) -> Option<&'a str>
        ensures found { IfSome result (λ text. IsText text.now × (self.old.rest.now ≡ text_bytes text.now ++ self.new.rest.now)) }
        ensures exact { (text rest : List ℕ) → IsText text → self.old.rest.now ≡ text_bytes text ++ rest
            → IsSomeAnd result (λ r. r.now ≡ text) × (self.new.rest.now ≡ rest) }
    {
        let count = self.number()?;
        let piece = self.bytes(count as usize)?;
        str::from_utf8(piece).ok()
    }
}

/// The number that eight bytes are.
pub(crate) fn number_in(bytes: &[u8]) -> u64
    requires { length bytes.now ≡ 8 }
    ensures read { bytes.now ≡ number_bytes result }
    ensures once { (n : ℕ) → n < 2 ^ 64 → bytes.now ≡ number_bytes n → result ≡ n }
{
    u64::from_be_bytes([
        bytes[0], bytes[1], bytes[2], bytes[3], bytes[4], bytes[5], bytes[6], bytes[7],
    ])
}

/// Writes a number behind the bytes.
#[tactic(auto, unfolding(index_entry::specs::Numbers::number_bytes))]
pub(crate) fn put_number(out: &mut Bytes, number: u64) -> Result<(), AllocError>
    ensures ok { OnOk result (out.new ≡ out.old ++ number_bytes number) }
{
    out.extend(&number.to_be_bytes())
}

/// Writes a text behind the bytes, after its length.
pub(crate) fn put_text(out: &mut Bytes, text: &str) -> Result<(), AllocError>
    ensures ok { OnOk result (out.new ≡ out.old ++ text_bytes text.now) }
    ensures fits { IsText text.now }
{
    put_number(out, text.len() as u64)?;
    out.extend(text.as_bytes())
}
