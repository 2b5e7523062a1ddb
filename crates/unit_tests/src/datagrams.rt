//! Datagrams of a size.
ghost use Rattle.std.specs.Prelude.{IfOk};
ghost use Rattle.gse_pack.specs.Offered.{IsShortDatagram};

use ip_datagram::front;
use std::alloc::Global;
use std::test::Fail;

/// An IPv4 datagram of this many bytes to an address of a group 239.x.0.0/16 (RFC 791 section 3.1).
pub(crate) fn datagram(alloc: Global, size: u16, group: u8) -> Result<Vec<u8>, Fail>
    ensures { IfOk result (λ bytes. IsShortDatagram bytes.items) }
{
    let [high, low] = size.to_be_bytes();
    let header = [
        0x45, 0, high, low, 0, 0, 0, 0, 64, 17, 0, 0, 10, 0, 0, 1, 239, group, 2, 3,
    ];
    let mut bytes = Vec::from_slice(alloc, &header)?;
    for _ in bytes.len()..usize::from(size) {
        bytes.push(0)?;
    }
    match front(&bytes) {
        Ok(length) if length == bytes.len() && length <= 65_527 => Ok(bytes),
        _ => Err(Fail::new("no datagram of this length")),
    }
}
