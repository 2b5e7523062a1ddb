//! A stream of records, and what happens to it -> the recording that is left.
use std::alloc::{AllocError as OutOfMemory, Global};

/// What happens to the records of these numbers, from the first to the last.
#[derive(Clone, Copy)]
pub enum Harm {
    /// They are lost.
    Drop {
        first: usize,
        last: usize,
    },
    /// Each comes so many times at once.
    Repeat {
        first: usize,
        last: usize,
        times: usize,
    },
    /// These bits of the byte at a place are flipped in one record.
    Flip {
        record: usize,
        place: usize,
        bits: u8,
    },
    /// The bytes from a place of one record on are lost.
    Cut {
        record: usize,
        place: usize,
    },
}

/// What is left of one record: how often it comes, and its bytes.
fn put_record(
    alloc: Global,
    into: &mut Vec<u8>,
    number: usize,
    record: &[u8],
    harms: &[Harm],
) -> Result<(), OutOfMemory> {
    let mut bytes = Vec::from_slice(alloc, record)?;
    let mut count = 1;
    for harm in harms {
        match *harm {
            Harm::Drop { first, last } if first <= number && number <= last => count = 0,
            Harm::Repeat { first, last, times } if first <= number && number <= last => {
                count = times;
            }
            Harm::Flip {
                record,
                place,
                bits,
            } if record == number => flip(&mut bytes, place, bits),
            Harm::Cut { record, place } if record == number => bytes.truncate(place),
            _ => {}
        }
    }
    for _ in 0..count {
        into.extend_from_slice(&bytes)?;
    }
    Ok(())
}

/// Flips bits of the byte at a place.
fn flip(bytes: &mut [u8], place: usize, bits: u8) {
    if place < bytes.len() {
        bytes[place] ^= bits;
    }
}

/// What is left of a stream of records of this size.
pub fn damaged(
    alloc: Global,
    stream: &[u8],
    size: usize,
    harms: &[Harm],
) -> Result<Vec<u8>, OutOfMemory> {
    let mut recording = Vec::new(alloc);
    for (number, record) in stream.chunks(size.max(1)).enumerate() {
        put_record(alloc, &mut recording, number, record, harms)?;
    }
    Ok(recording)
}
