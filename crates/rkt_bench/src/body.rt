//! Bodies that tell each byte's place.
use rkt_data::Gate;
use std::alloc::{AllocError, Global};

pub const GATE: Gate = Gate {
    moment: 0,
    tripped: None,
    grace: 0,
    mercy: 0,
};

fn byte_at(place: usize) -> u8 {
    (place % 251) as u8
}

/// A body of this length.
pub fn body(alloc: Global, length: usize) -> Result<Vec<u8>, AllocError> {
    let mut bytes = vec![in alloc; 0; length]?;
    for (place, byte) in bytes.iter_mut().enumerate() {
        *byte = byte_at(place);
    }
    Ok(bytes)
}

/// Where the body goes on behind a chunk that stands at a place.
pub fn place_behind(mut place: usize, chunk: &[u8]) -> Option<usize> {
    for byte in chunk {
        if *byte != byte_at(place) {
            return None;
        }
        place = place.checked_add(1)?;
    }
    Some(place)
}

/// Whether these are the body of this length.
pub fn is_body(bytes: &[u8], length: usize) -> bool {
    place_behind(0, bytes) == Some(length)
}
