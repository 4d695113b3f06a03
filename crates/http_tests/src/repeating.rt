// Bytes of which a part comes again and again.
use std::alloc::{AllocError, Global};

/// Adds the text so many times.
pub(crate) fn add(bytes: &mut Vec<u8>, text: &[u8], count: usize) -> Result<(), AllocError> {
    for _ in 0..count {
        bytes.extend_from_slice(text)?;
    }
    Ok(())
}

/// The text so many times behind the front.
pub(crate) fn repeated(
    alloc: Global,
    front: &[u8],
    text: &[u8],
    count: usize,
) -> Result<Vec<u8>, AllocError> {
    let mut bytes = Vec::from_slice(alloc, front)?;
    add(&mut bytes, text, count)?;
    Ok(bytes)
}

/// The text so many times between the front and the end.
pub(crate) fn between(
    alloc: Global,
    front: &[u8],
    text: &[u8],
    count: usize,
    end: &[u8],
) -> Result<Vec<u8>, AllocError> {
    let mut bytes = repeated(alloc, front, text, count)?;
    bytes.extend_from_slice(end)?;
    Ok(bytes)
}
