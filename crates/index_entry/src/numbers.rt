//! Numbers in bytes, and pieces of bytes in arrays.
ghost use Rattle.std.specs.Prelude.{◌≡◌, ◌+◌, ◌^◌, ◌<◌, ◌≤◌, ◌↔◌, ◌++◌, ℕ, List, IsTrue, length, drop};
ghost use Rattle.std.specs.Str.{IsUtf8};
ghost use Rattle.std.specs.List.{AllByRecursion};
ghost use Rattle.index_entry.specs.Numbers.{number_bytes, short_bytes, word_bytes};

/// The number in the eight bytes from a place on, the high one first.
pub fn u64_at(bytes: &[u8], at: usize) -> u64
    requires { at + 8 ≤ length bytes.now }
    ensures read { drop at bytes.now ≡ number_bytes result ++ drop (at + 8) bytes.now }
    ensures once { (x : ℕ) (rest : List ℕ) → x < 2 ^ 64 → drop at bytes.now ≡ number_bytes x ++ rest → result ≡ x }
{
    u64::from_be_bytes(*bytes[at..at + 8].as_array::<8>().unwrap())
}

/// The number in the four bytes from a place on.
pub(crate) fn u32_at(bytes: &[u8], at: usize) -> u32
    requires { at + 4 ≤ length bytes.now }
    ensures read { drop at bytes.now ≡ word_bytes result ++ drop (at + 4) bytes.now }
    ensures once { (x : ℕ) (rest : List ℕ) → x < 2 ^ 32 → drop at bytes.now ≡ word_bytes x ++ rest → result ≡ x }
{
    u32::from_be_bytes(*bytes[at..at + 4].as_array::<4>().unwrap())
}

/// The number in the two bytes from a place on.
pub(crate) fn u16_at(bytes: &[u8], at: usize) -> u16
    requires { at + 2 ≤ length bytes.now }
    ensures read { drop at bytes.now ≡ short_bytes result ++ drop (at + 2) bytes.now }
    ensures once { (x : ℕ) (rest : List ℕ) → x < 2 ^ 16 → drop at bytes.now ≡ short_bytes x ++ rest → result ≡ x }
{
    u16::from_be_bytes(*bytes[at..at + 2].as_array::<2>().unwrap())
}

/// Whether the bytes are UTF-8.
pub(crate) fn is_text(bytes: &[u8]) -> bool
    ensures { IsTrue result ↔ IsUtf8 bytes.now }
{
    str::from_utf8(bytes).is_ok()
}

/// Writes a piece at a place, and gives the place behind it.
pub(crate) fn put(out: &mut [u8], at: usize, piece: &[u8]) -> usize
    requires { at + length piece.now ≤ length out.old }
    ensures end { result ≡ at + length piece.now }
    ensures fits { AllByRecursion (λ b. b < 256) piece.now }
    ensures written { (p q : List ℕ) → length p ≡ at → out.old ≡ p ++ q → out.new ≡ (p ++ piece.now) ++ drop (length piece.now) q }
{
    let end = at + piece.len();
    out[at..end].copy_from_slice(piece);
    end
}
