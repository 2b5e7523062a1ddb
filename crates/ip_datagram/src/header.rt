//! Bytes -> the length of the datagram that they begin with, or why there is none.
ghost use Rattle.std.specs.Prelude.{◌≡◌, ℕ, ◌+◌, ◌*◌, ◌/◌, ◌<◌, ◌≤◌, length, slice_index, IfOk};
ghost use Rattle.std.specs.Result.{result_err, result_ok};
ghost use Rattle.wire_spec.specs.Datagram.{front_length, version};
ghost use Rattle.ip_datagram.specs.Refusal.{refusal};

/// Why bytes begin with no datagram, in the order of the tests.
#[derive(Clone, Copy, Debug, PartialEq, Eq)]
pub enum IpFault {
    /// No byte, or fewer than the least header of the version has: 20 bytes of IPv4, 40 of IPv6.
    Short = 1,
    /// Version is neither 4 nor 6.
    Version = 2,
    /// IPv4: IHL is below 5 words of 4 bytes.
    HeaderLength = 3,
    /// IPv4: Total Length is below the header's or passes the bytes. IPv6: 40 + Payload Length passes them.
    Length = 4,
    /// IPv6: Payload Length and Next Header are 0, as a jumbogram has them (RFC 2675 section 3).
    Jumbo = 5,
}

/// The least header of IPv4, in bytes (RFC 791 section 3.1).
pub(crate) const LEAST_IPV4: usize = 20;

/// The header of IPv6, in bytes (RFC 8200 section 3).
pub(crate) const IPV6_HEADER: usize = 40;

/// Answers the whole length in bytes of the datagram that `bytes` begin with.
///
/// Bytes after the datagram are free, and no header checksum is tested.
pub fn front(bytes: &[u8]) -> Result<usize, IpFault>
    ensures read { front_length bytes.now ≡ result_ok result }
    ensures refused { refusal bytes.now ≡ result_err result }
    ensures within { IfOk result (λ n. n ≤ length bytes.now) }
{
    if bytes.is_empty() {
        return Err(IpFault::Short);
    }
    match bytes[0] / 16 {
        4 => ipv4_front(bytes),
        6 => ipv6_front(bytes),
        _ => Err(IpFault::Version),
    }
}

/// The same for bytes whose Version is 4.
fn ipv4_front(bytes: &[u8]) -> Result<usize, IpFault>
    requires some { 0 < length bytes.now }
    requires is_ipv4 { slice_index bytes.now 0 / 16 ≡ 4 }
    ensures read { front_length bytes.now ≡ result_ok result }
    ensures refused { refusal bytes.now ≡ result_err result }
    ensures within { IfOk result (λ n. n ≤ length bytes.now) }
{
    if bytes.len() < LEAST_IPV4 {
        return Err(IpFault::Short);
    }
    let header = 4 * usize::from(bytes[0] % 16);
    let total = usize::from(bytes[2]) * 256 + usize::from(bytes[3]);
    if header < LEAST_IPV4 {
        Err(IpFault::HeaderLength)
    } else if total < header || bytes.len() < total {
        Err(IpFault::Length)
    } else {
        Ok(total)
    }
}

/// The same for bytes whose Version is 6.
fn ipv6_front(bytes: &[u8]) -> Result<usize, IpFault>
    requires some { 0 < length bytes.now }
    requires is_ipv6 { slice_index bytes.now 0 / 16 ≡ 6 }
    ensures read { front_length bytes.now ≡ result_ok result }
    ensures refused { refusal bytes.now ≡ result_err result }
    ensures within { IfOk result (λ n. n ≤ length bytes.now) }
{
    if bytes.len() < IPV6_HEADER {
        return Err(IpFault::Short);
    }
    let payload = usize::from(bytes[4]) * 256 + usize::from(bytes[5]);
    if bytes.len() < IPV6_HEADER + payload {
        Err(IpFault::Length)
    } else if payload == 0 && bytes[6] == 0 {
        Err(IpFault::Jumbo)
    } else {
        Ok(IPV6_HEADER + payload)
    }
}
