//! Damages of an image.
use hex::FromHexError;
use std::alloc::{AllocError, Global};

/// The bytes that a text spells in base 16, or `None` if it spells none.
pub(crate) fn bytes_of(alloc: Global, text: &str) -> Result<Option<Vec<u8>>, AllocError> {
    match hex::decode(alloc, text.as_bytes()) {
        Ok(bytes) => Ok(Some(bytes)),
        Err(FromHexError::OutOfMemory) => Err(AllocError),
        Err(_) => Ok(None),
    }
}

/// An image with the damage that a line tells, or `None` if it tells none.
pub(crate) fn damaged(
    alloc: Global,
    image: &[u8],
    line: &str,
) -> Result<Option<Vec<u8>>, AllocError> {
    let (word, rest) = word_of(line);
    let (place, rest) = word_of(rest);
    let Ok(place) = place.parse::<usize>() else {
        return Ok(None);
    };
    match word {
        "put" => put(alloc, image, place, rest),
        "add" => added(alloc, image, place, rest),
        "drop" => dropped(alloc, image, place, rest),
        "cut" => Ok(Some(joined(alloc, &[front(image, place)])?)),
        _ => Ok(None),
    }
}

/// The first word of a text, and the rest.
fn word_of(text: &str) -> (&str, &str) {
    match text.split_once(' ') {
        Some((word, rest)) => (word, rest),
        None => (text, ""),
    }
}

/// An image with other bytes at a place.
fn put(
    alloc: Global,
    image: &[u8],
    place: usize,
    text: &str,
) -> Result<Option<Vec<u8>>, AllocError> {
    let Some(bytes) = bytes_of(alloc, text)? else {
        return Ok(None);
    };
    let end = place.saturating_add(bytes.len());
    Ok(Some(joined(alloc, &[front(image, place), &bytes, back(image, end)])?))
}

/// An image with more bytes before a place.
fn added(
    alloc: Global,
    image: &[u8],
    place: usize,
    text: &str,
) -> Result<Option<Vec<u8>>, AllocError> {
    let Some(bytes) = bytes_of(alloc, text)? else {
        return Ok(None);
    };
    Ok(Some(joined(alloc, &[front(image, place), &bytes, back(image, place)])?))
}

/// An image without some of its bytes from a place on.
fn dropped(
    alloc: Global,
    image: &[u8],
    place: usize,
    text: &str,
) -> Result<Option<Vec<u8>>, AllocError> {
    let Ok(count) = text.parse::<usize>() else {
        return Ok(None);
    };
    let end = place.saturating_add(count);
    Ok(Some(joined(alloc, &[front(image, place), back(image, end)])?))
}

/// The bytes before a place.
fn front(image: &[u8], place: usize) -> &[u8] {
    &image[..place.min(image.len())]
}

/// The bytes from a place on.
fn back(image: &[u8], place: usize) -> &[u8] {
    &image[place.min(image.len())..]
}

/// These bytes in a row.
fn joined(alloc: Global, parts: &[&[u8]]) -> Result<Vec<u8>, AllocError> {
    let mut bytes = Vec::new(alloc);
    for part in parts {
        bytes.extend_from_slice(part)?;
    }
    Ok(bytes)
}
