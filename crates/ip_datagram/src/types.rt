//! The EtherType that announces a datagram in an Ethernet frame, an SNDU or a GSE packet.
ghost use Rattle.std.specs.Prelude.{◌≡◌, ◌<◌, length};
ghost use Rattle.wire_spec.specs.Datagram.{ether_type_of};

/// EtherType of IPv4 (RFC 894, RFC 4326 section 4.7.1).
pub const ETHER_TYPE_IPV4: u16 = 0x0800;

/// EtherType of IPv6 (RFC 2464 section 3, RFC 4326 section 4.7.2).
pub const ETHER_TYPE_IPV6: u16 = 0x86DD;

/// Version stands above four bits of a datagram's first byte (RFC 791 section 3.1).
const VERSION_UNIT: u8 = 16;

/// The EtherType of a datagram's IP version.
pub fn ether_type(datagram: &[u8]) -> u16
    requires { 0 < length datagram.now }
    ensures read { result ≡ ether_type_of datagram.now }
{
    if datagram[0] / VERSION_UNIT == 4 {
        ETHER_TYPE_IPV4
    } else {
        ETHER_TYPE_IPV6
    }
}
