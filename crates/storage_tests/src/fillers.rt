// Bytes and texts of a given size.
ghost use Rattle.std.specs.Prelude.{◌≡◌, IfOk, length};

use std::alloc::{AllocError, Global};
use std::test::Fail;

/// The same byte so many times.
pub(crate) fn repeated(alloc: Global, byte: u8, count: usize) -> Result<Vec<u8>, AllocError>
    ensures { IfOk result (λ bytes. length bytes.items ≡ count) }
{
    vec![in alloc; byte; count]
}

/// A text of so many letters.
pub(crate) fn letters(alloc: Global, count: usize) -> Result<String, Fail> {
    Ok(String::from_utf8(repeated(alloc, b'a', count)?)?)
}

/// A key of 1024 bytes that differs from others at its end.
pub(crate) fn long_key(alloc: Global, number: u16) -> Result<Vec<u8>, AllocError> {
    let mut key = repeated(alloc, b'k', 1_022)?;
    key.extend_from_slice(&number.to_be_bytes())?;
    Ok(key)
}
