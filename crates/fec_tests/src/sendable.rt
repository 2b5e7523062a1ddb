//! Lists of datagrams for frames.
ghost use Rattle.std.specs.Prelude.{◌<◌, ◌^◌, length, IfOk};
ghost use Rattle.fec_sent_law.specs.Frames.{AreSendable, IsSendable};

use ip_datagram::{DatagramList, front};
use std::alloc::Global;
use std::test::Fail;

/// The address of a service's own receivers.
pub(crate) const UNICAST: [u8; 6] = [2, 0, 0, 0, 0, 9];

/// A destination that is no group's.
pub(crate) const HOST: [u8; 4] = [10, 0, 0, 7];

/// An IPv4 datagram of this many bytes (RFC 791 section 3.1), zeros after its header.
fn datagram(alloc: Global, size: u16, to: [u8; 4]) -> Result<Vec<u8>, Fail>
    ensures { IfOk result (λ bytes. IsSendable bytes.items) }
{
    let length = size.to_be_bytes();
    let mut bytes = Vec::from_slice(alloc, &[0x45, 0, length[0], length[1]])?;
    bytes.extend_from_slice(&[0, 0, 0, 0, 64, 17, 0, 0, 10, 0, 0, 1])?;
    bytes.extend_from_slice(&to)?;
    for _ in bytes.len()..usize::from(size) {
        bytes.push(0)?;
    }
    match front(&bytes) {
        Ok(length) => {
            if length != bytes.len() || length > 4080 {
                return Err(Fail::new("a datagram of another length"));
            }
            Ok(bytes)
        }
        Err(_) => Err(Fail::new("no datagram")),
    }
}

/// So many of them.
pub(crate) fn list_of(
    alloc: Global,
    count: u8,
    size: u16,
    to: [u8; 4],
) -> Result<DatagramList, Fail>
    ensures sendable { IfOk result (λ list. AreSendable list) }
    ensures few { IfOk result (λ list. length list < 2 ^ 32) }
{
    let mut list = DatagramList::new(alloc);
    for number in 0..count {
        list.push(&datagram(alloc, size, to)?)?;
    }
    Ok(list)
}
