//! An outlet that counts Ethernet frames, and the texts of frames.
use crate::counting_outlet::Noted;
use std::alloc::{AllocError as OutOfMemory, Global};
use std::test::Fail;
use test_recordings::bytes_of;

/// An Ethernet frame of 60 bytes to all stations: two addresses, EtherType 0x88B5 (IEEE Std 802, for local experiments), zeros.
const FRAME: [u8; 60] = [
    0xFF, 0xFF, 0xFF, 0xFF, 0xFF, 0xFF, 2, 0, 0, 0, 0, 1, 0x88, 0xB5, 0, 0, 0, 0, 0, 0, 0, 0, 0, 0,
    0, 0, 0, 0, 0, 0, 0, 0, 0, 0, 0, 0, 0, 0, 0, 0, 0, 0, 0, 0, 0, 0, 0, 0, 0, 0, 0, 0, 0, 0, 0, 0,
    0, 0, 0, 0,
];

/// The same as text.
const FRAME_TEXT: &str = "FF*6 020000000001 88B5 00*46";

/// Appends the bytes of a text, in which FRAME is this frame.
pub(crate) fn put_text(alloc: Global, into: &mut Vec<u8>, text: &str) -> Result<(), Fail> {
    for piece in text.split(' ') {
        let piece = if piece == "FRAME" { FRAME_TEXT } else { piece };
        into.extend_from_slice(&bytes_of(alloc, piece)?)?;
    }
    Ok(())
}

/// An outlet for this frame that takes so many.
pub(crate) fn outlet_of(room: u64) -> Noted {
    Noted::new(&FRAME, 0, room)
}

/// What is written of an outlet: frames, others, refused.
pub(crate) fn text_of(alloc: Global, outlet: &Noted) -> Result<String, OutOfMemory> {
    let mut text = String::new(alloc);
    let Noted {
        delivered,
        others,
        refused,
        ..
    } = outlet;
    write!(text, "{delivered} {others} {refused}")?;
    Ok(text)
}
