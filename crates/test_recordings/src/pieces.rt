//! Pieces of bytes: put together, and compared at their place.
use std::alloc::{AllocError as OutOfMemory, Global};

/// The pieces, one after the other.
pub fn joined(alloc: Global, pieces: &[&[u8]]) -> Result<Vec<u8>, OutOfMemory> {
    let mut bytes = Vec::new(alloc);
    for piece in pieces {
        bytes.extend_from_slice(piece)?;
    }
    Ok(bytes)
}

/// Whether these bytes stand at a place of others.
pub fn is_piece(bytes: &[u8], place: usize, piece: &[u8]) -> bool {
    match bytes.get(place..) {
        Some(rest) => rest.starts_with(piece),
        None => false,
    }
}

/// So many of one byte.
pub fn filled(alloc: Global, byte: u8, count: usize) -> Result<Vec<u8>, OutOfMemory> {
    vec![in alloc; byte; count]
}
