//! Bytes as hexadecimal text.
use std::alloc::Global;
use std::test::Fail;

/// The bytes of hexadecimal digits, in pieces separated by white space; `*` and a number after a piece say how often it stands.
pub fn bytes_of(alloc: Global, text: &str) -> Result<Vec<u8>, Fail> {
    let mut bytes = Vec::new(alloc);
    for piece in text.split_whitespace() {
        let (digits, times) = piece.split_once('*').unwrap_or((piece, "1"));
        let piece = hex::decode(alloc, digits)?;
        for _ in 0..times.parse::<u16>()? {
            bytes.extend_from_slice(&piece)?;
        }
    }
    Ok(bytes)
}
