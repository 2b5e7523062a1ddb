//! A size and a destination -> the bytes of a datagram.
ghost use Rattle.std.specs.Prelude.{IfOk};
ghost use Rattle.wire_spec.specs.Datagram.{IsDatagram};

use ip_datagram::front;
use std::alloc::Global;
use std::test::Fail;

/// An IPv4 datagram from 10.0.0.1 (RFC 791 section 3.1), without a header checksum.
#[derive(Clone, Copy)]
pub struct Datagram {
    /// Total Length, 20 to 65,535 bytes. The bytes after the header count up from the last byte of the destination.
    pub size: u16,
    /// The destination.
    pub to: [u8; 4],
}

/// Appends a datagram.
pub fn put_datagram(into: &mut Vec<u8>, datagram: &Datagram) -> Result<(), Fail> {
    let [high, low] = datagram.size.to_be_bytes();
    into.extend_from_slice(&[0x45, 0, high, low, 0, 0, 0, 0, 64, 17, 0, 0, 10, 0, 0, 1])?;
    into.extend_from_slice(&datagram.to)?;
    let mut byte = datagram.to[3];
    for _ in 20..datagram.size {
        into.push(byte)?;
        byte = byte.wrapping_add(1);
    }
    Ok(())
}

/// The bytes of a datagram.
pub fn datagram_of(alloc: Global, datagram: &Datagram) -> Result<Vec<u8>, Fail>
    ensures { IfOk result (λ bytes. IsDatagram bytes.items) }
{
    let mut bytes = Vec::new(alloc);
    put_datagram(&mut bytes, datagram)?;
    match front(&bytes) {
        Ok(length) => {
            if length != bytes.len() {
                return Err(Fail::new("a datagram of another length"));
            }
            Ok(bytes)
        }
        Err(_) => Err(Fail::new("no datagram")),
    }
}
