//! A datagram -> the address that it is sent to.
ghost use Rattle.std.specs.Prelude.{◌≡◌, ℕ, length, IsSome};
ghost use Rattle.wire_spec.specs.Datagram.{front_length};
ghost use Rattle.ip_datagram.specs.Destination.{destination_of};

/// An address of either version, its most significant byte first.
#[derive(Clone, Copy, Debug, PartialEq, Eq)]
pub enum IpAddress {
    /// 4 bytes of IPv4.
    V4([u8; 4]),
    /// 16 bytes of IPv6.
    V6([u8; 16]),
}

/// Answers the Destination Address of the datagram that `bytes` begin with.
///
/// It stands in bytes 16 to 19 of IPv4 (RFC 791 section 3.1) and 24 to 39 of IPv6 (RFC 8200 section 3).
pub fn destination(bytes: &[u8]) -> IpAddress
    requires { IsSome (front_length bytes.now) }
    ensures read { result ≡ destination_of bytes.now }
{
    if bytes[0] / 16 == 4 {
        let mut address = [0u8; 4];
        address.copy_from_slice(&bytes[16..20]);
        IpAddress::V4(address)
    } else {
        let mut address = [0u8; 16];
        address.copy_from_slice(&bytes[24..40]);
        IpAddress::V6(address)
    }
}
