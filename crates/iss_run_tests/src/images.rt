//! What a stop may leave of a device, and the records there.
use iss_edge::Action;
use std::alloc::{AllocError, Global};

/// What unfinished writes left.
#[derive(Clone, Copy)]
pub(crate) enum Left {
    Nothing,
    All,
    /// A byte in the place of each: 1 is that of an open gate, 7 that of a torn one.
    Only(u8),
}

/// Each way in which unfinished writes may stand here.
pub(crate) const WAYS: [Left; 4] = [Left::Nothing, Left::All, Left::Only(1), Left::Only(7)];

/// Writes these bytes there, or what is left of them.
fn overwrite(image: &mut [u8], at: u64, bytes: &[u8], left: Left) {
    for (i, byte) in bytes.iter().enumerate() {
        if let Some(place) = image.get_mut((at as usize).saturating_add(i)) {
            match left {
                Left::Nothing => {}
                Left::All => *place = *byte,
                Left::Only(one) => *place = one,
            }
        }
    }
}

/// What a stop after these actions leaves of a device.
pub(crate) fn image_of(
    alloc: Global,
    start: &[u8],
    actions: &[Action],
    left: Left,
) -> Result<Vec<u8>, AllocError> {
    let mut written = start.to_vec(alloc)?;
    let mut image = start.to_vec(alloc)?;
    for action in actions {
        match action {
            Action::Write { at, bytes, .. } => {
                overwrite(&mut written, *at, bytes.as_slice(), Left::All);
                overwrite(&mut image, *at, bytes.as_slice(), left);
            }
            Action::Sync { ok: true } => {
                image.clear();
                image.extend_from_slice(written.as_slice())?;
            }
            _ => {}
        }
    }
    Ok(image)
}

/// Four bytes at a place as a number, the highest first. Past the end it is 0.
fn number_at(device: &[u8], at: usize) -> usize {
    match device.get(at..) {
        Some([a, b, c, d, ..]) => u32::from_be_bytes([*a, *b, *c, *d]) as usize,
        _ => 0,
    }
}

/// The place of the current half of a device in halves, right after the byte that names it.
fn half_start(device: &[u8]) -> usize {
    let half = device.len().saturating_sub(17) / 2;
    if device.get(16) == Some(&1) {
        half.saturating_add(17)
    } else {
        17
    }
}

/// Whether a device is in halves, by the version in its header.
fn is_halved(device: &[u8]) -> bool {
    device.get(5) == Some(&2)
}

/// How many bytes the image of the current half has.
pub(crate) fn image_length(device: &[u8]) -> usize {
    number_at(device, half_start(device))
}

/// How many records are in the image of the current half: an image begins with that number. One journal has no image.
pub(crate) fn point_on(device: &[u8]) -> usize {
    let start = half_start(device);
    if !is_halved(device) || number_at(device, start) == 0 {
        return 0;
    }
    number_at(device, start.saturating_add(4))
}

/// The place of the first gate: right after the header, or after the image of the current half.
fn first_gate(device: &[u8]) -> usize {
    if !is_halved(device) {
        return 16;
    }
    let start = half_start(device);
    start
        .saturating_add(4)
        .saturating_add(number_at(device, start))
}

/// How many records stand on a device, those of an image among them, and the place of the gate after them.
pub(crate) fn records_on(device: &[u8]) -> (usize, usize) {
    let point = point_on(device);
    let mut gate = first_gate(device);
    for count in 0..device.len() {
        if device.get(gate) != Some(&1) {
            return (point.saturating_add(count), gate);
        }
        let length = number_at(device, gate.saturating_add(1));
        gate = gate.saturating_add(5).saturating_add(length);
    }
    (0, gate)
}

/// Whether the records of a device are the first ones of another in the same half, and the gate after them is 0. The byte that names the
/// half may be any but 1 for the first.
pub(crate) fn is_front(device: &[u8], whole: &[u8]) -> bool {
    let (_, gate) = records_on(device);
    let start = if is_halved(device) {
        half_start(device)
    } else {
        16
    };
    device.get(..16) == whole.get(..16)
        && device.get(start..gate) == whole.get(start..gate)
        && device.get(gate) == Some(&0)
}
