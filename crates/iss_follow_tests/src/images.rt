//! What a stop leaves of a device, by the actions up to then.
use iss_edge::{Action, Edge, MemoryEdge};
use iss_store::Store;
use std::alloc::{AllocError, Global};

/// How the places look that were written since the last sync.
#[derive(Clone, Copy)]
pub(crate) enum Unsettled {
    AsBefore,
    AsWritten,
    Sevens,
}

/// Each of them.
pub(crate) const LOOKS: [Unsettled; 3] = [
    Unsettled::AsBefore,
    Unsettled::AsWritten,
    Unsettled::Sevens,
];

/// The device that a stop leaves after the first `count` of these actions.
fn left_of(
    alloc: Global,
    device: &[u8],
    actions: &[Action],
    count: usize,
    looks: Unsettled,
) -> Result<Vec<u8>, AllocError> {
    let mut written = device.to_vec(alloc)?;
    let mut left = device.to_vec(alloc)?;
    for action in actions.iter().take(count) {
        match action {
            Action::Write { at, bytes, .. } => {
                let at = *at as usize;
                put(&mut written, at, bytes.as_slice());
                match looks {
                    Unsettled::AsBefore => {}
                    Unsettled::AsWritten => put(&mut left, at, bytes.as_slice()),
                    Unsettled::Sevens => put_sevens(&mut left, at, bytes.len()),
                }
            }
            Action::Sync { ok: true } => {
                left.clear();
                left.extend_from_slice(written.as_slice())?;
            }
            _ => {}
        }
    }
    Ok(left)
}

fn put(device: &mut [u8], at: usize, bytes: &[u8]) {
    for (i, byte) in bytes.iter().enumerate() {
        if let Some(place) = device.get_mut(at.saturating_add(i)) {
            *place = *byte;
        }
    }
}

fn put_sevens(device: &mut [u8], at: usize, count: usize) {
    for i in 0..count {
        if let Some(place) = device.get_mut(at.saturating_add(i)) {
            *place = 7;
        }
    }
}

/// How many records stand on a device, as a digit; a dot if it can't be opened.
fn letter_of(alloc: Global, device: Vec<u8>) -> Result<u8, AllocError> {
    let script = Vec::new(alloc);
    let mut edge = MemoryEdge::new(alloc, device, Vec::new(alloc), script, Vec::new(alloc))?;
    Ok(records_on(alloc, &mut edge))
}

fn records_on<E: Edge>(alloc: Global, edge: &mut E) -> u8 {
    match Store::open(alloc, edge) {
        Ok(store) => b'0'.saturating_add(store.core().count().min(9) as u8),
        Err(_) => b'.',
    }
}

/// The letters of what a stop leaves after none of these actions, one, two and so on.
pub(crate) fn letters_of(
    alloc: Global,
    device: &[u8],
    actions: &[Action],
    looks: Unsettled,
) -> Result<Vec<u8>, AllocError> {
    let mut letters = Vec::new(alloc);
    for count in 0..=actions.len() {
        let left = left_of(alloc, device, actions, count, looks)?;
        letters.push(letter_of(alloc, left)?)?;
    }
    Ok(letters)
}
