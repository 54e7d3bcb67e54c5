//! Long texts.
use std::alloc::{AllocError, Global};

/// A text with `times` of another in the place of its star.
pub(crate) fn filled(
    alloc: Global,
    text: &str,
    again: &str,
    times: usize,
) -> Result<Vec<u8>, AllocError> {
    let (first, last) = text.split_once('*').unwrap_or((text, ""));
    let mut out = Vec::with_capacity(alloc, 1024)?;
    out.extend_from_slice(first.as_bytes())?;
    for _ in 0..times {
        out.extend_from_slice(again.as_bytes())?;
    }
    out.extend_from_slice(last.as_bytes())?;
    Ok(out)
}
