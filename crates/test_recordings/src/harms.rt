//! What happens to a stream, as words -> what is left of it. Records count from 0.
//!
//! | Words | What |
//! |---|---|
//! | `100-116 270` | records 100 to 116 are lost, and record 270 |
//! | `0-636*3` | each of these records comes three times |
//! | `400@100` | record 400 is cut before byte 100 |
//! | `6@1^80` | of byte 1 of record 6 the bits 80, a hexadecimal number, are flipped |
use crate::damage::Harm::{self, Cut, Drop, Flip, Repeat};
use crate::damage::damaged;
use crate::numbers::range_of;
use std::alloc::Global;
use std::test::Fail;

/// What happens in one record at a place.
fn harm_in(record: usize, place: &str) -> Result<Harm, Fail> {
    match place.split_once('^') {
        Some((place, bits)) => Ok(Flip {
            record,
            place: place.parse()?,
            bits: u8::from_str_radix(bits, 16)?,
        }),
        None => Ok(Cut {
            record,
            place: place.parse()?,
        }),
    }
}

/// What happens by a word.
fn harm_of(word: &str) -> Result<Harm, Fail> {
    if let Some((record, place)) = word.split_once('@') {
        return harm_in(record.parse()?, place);
    }
    let Some((records, times)) = word.split_once('*') else {
        let (first, last) = range_of(word)?;
        return Ok(Drop { first, last });
    };
    let (first, last) = range_of(records)?;
    let times = times.parse::<usize>()?;
    Ok(Repeat { first, last, times })
}

/// What happens by words.
fn harms_of(alloc: Global, words: &str) -> Result<Vec<Harm>, Fail> {
    let mut harms = Vec::new(alloc);
    for word in words.split_whitespace() {
        harms.push(harm_of(word)?)?;
    }
    Ok(harms)
}

/// What is left of a stream of records of this size.
pub fn left_of(alloc: Global, stream: &[u8], size: usize, words: &str) -> Result<Vec<u8>, Fail> {
    let harms = harms_of(alloc, words)?;
    Ok(damaged(alloc, stream, size, &harms)?)
}
