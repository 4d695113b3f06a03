//! Numbers, texts and pairs in bytes: each is read from the front, and given with the bytes behind it.
ghost use Rattle.std.specs.Prelude.{◌≡◌, ◌++◌, ◌<◌, ◌≤◌, ◌^◌, ℕ, List, IfOk, OnOk, length, true};
ghost use Rattle.std.specs.List.{AllByRecursion};
ghost use Rattle.rgw_types.specs.Pairs.{is_risen};
ghost use Rattle.index_entry.specs.Numbers.{number_bytes};
ghost use Rattle.cls_head.specs.Layouts.{IsPair, IsText, pairs_bytes, text_bytes};

use rgw_types::{Bytes, Pairs, Text};
use std::alloc::{AllocError, Global};

/// The number in the first eight bytes.
pub(crate) fn number(bytes: &[u8]) -> (u64, &[u8])
    requires { 8 ≤ length bytes.now }
    ensures value { (x : ℕ) (rest : List ℕ) → x < 2 ^ 64 → bytes.now ≡ number_bytes x ++ rest → result.0 ≡ x }
    ensures rest { (x : ℕ) (rest : List ℕ) → bytes.now ≡ number_bytes x ++ rest → result.1.now ≡ rest }
{
    let (front, rest) = bytes.split_at(8);
    let number = u64::from_be_bytes([
        front[0], front[1], front[2], front[3], front[4], front[5], front[6], front[7],
    ]);
    (number, rest)
}

/// The text at the front, after its length.
pub(crate) fn text(alloc: Global, bytes: &[u8]) -> Result<(Text, &[u8]), AllocError>
    requires { (text : List ℕ) × (rest : List ℕ) × IsText text × (bytes.now ≡ text_bytes text ++ rest) }
    ensures { IfOk result (λ read. (text rest : List ℕ) → IsText text → bytes.now ≡ text_bytes text ++ rest → (read.0 ≡ text) × (read.1.now ≡ rest)) }
{
    let (len, bytes) = number(bytes);
    let (text, rest) = bytes.split_at(len as usize);
    Ok((Text::from_utf8(alloc, text)?, rest))
}

/// So many pairs.
pub(crate) fn pairs(alloc: Global, bytes: &[u8], count: u64) -> Result<Pairs, AllocError>
    requires { (pairs : List (List ℕ × List ℕ)) × AllByRecursion IsPair pairs × (is_risen pairs ≡ true) × (length pairs ≡ count) × (bytes.now ≡ pairs_bytes pairs) }
    ensures { IfOk result (λ read. (pairs : List (List ℕ × List ℕ)) → AllByRecursion IsPair pairs → length pairs ≡ count → bytes.now ≡ pairs_bytes pairs → read ≡ pairs) }
{
    let mut items = Vec::new(alloc);
    let mut rest = bytes;
    for _place in 0..count {
        let (name, behind) = text(alloc, rest)?;
        let (value, behind) = text(alloc, behind)?;
        items.push((name, value))?;
        rest = behind;
    }
    Ok(Pairs::from_vec(items).unwrap())
}

/// Adds a text after its length. After an error nothing is said of the bytes.
pub(crate) fn push_text(bytes: &mut Bytes, text: &Text) -> Result<(), AllocError>
    ensures ok { OnOk result (bytes.new ≡ bytes.old ++ text_bytes text.now) }
    ensures bounds { IsText text.now }
{
    let text = text.as_str();
    bytes.extend(&(text.len() as u64).to_be_bytes())?;
    bytes.extend(text.as_bytes())
}

/// Adds pairs. After an error nothing is said of the bytes.
pub(crate) fn push_pairs(bytes: &mut Bytes, pairs: &[(Text, Text)]) -> Result<(), AllocError>
    ensures ok { OnOk result (bytes.new ≡ bytes.old ++ pairs_bytes pairs.now) }
    ensures bounds { OnOk result (AllByRecursion IsPair pairs.now) }
{
    for (name, value) in pairs {
        push_text(bytes, name)?;
        push_text(bytes, value)?;
    }
    Ok(())
}
