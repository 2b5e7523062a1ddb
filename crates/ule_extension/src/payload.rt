//! What stands after a chain of extension headers: a datagram, or a bridged Ethernet frame.
//!
//! A first Type and the bytes after it come in; the datagram or the frame goes out, lent.

ghost use Rattle.std.specs.Prelude.{◌≡◌, ◌≤◌, Some, None, length, IfOk, MatchOption, MatchResult};
ghost use Rattle.std.specs.Result.{result_err};
ghost use Rattle.ts_spec.specs.Chain.{chain_end};
ghost use Rattle.ule_extension.specs.Faults.{ip_refusal, payload_refusal};
ghost use Rattle.ts_spec.specs.Chain.{datagram_at, frame_at};
ghost use Rattle.wire_spec.specs.Datagram.{datagram_of_type};

use crate::chain::{BRIDGED, ExtFault, follow, walk};
use ip_datagram::{ETHER_TYPE_IPV4, ETHER_TYPE_IPV6, IpFault, front};

/// Why no datagram stands after a chain, in the order of the tests.
#[derive(Clone, Copy, Debug, PartialEq, Eq)]
pub enum PayloadFault {
    /// The chain leads to no EtherType.
    Extension(ExtFault),
    /// The EtherType is neither 0x0800 nor 0x86DD.
    NotIp,
    /// The bytes after it begin with no datagram, or with one of the other version.
    Datagram(IpFault),
}

/// The least Ethernet frame: two addresses of 6 bytes and a Type or Length (RFC 4326 section 5.2).
const LEAST_FRAME: usize = 14;

/// Lends the datagram after the chain that `first_type` begins; `bytes` are all after that Type.
///
/// Profile: bytes after the datagram are free.
#[inline(always)]
pub fn datagram(first_type: u16, bytes: &[u8]) -> Result<&[u8], PayloadFault>
    ensures read { MatchResult result (λ d. datagram_at (chain_end first_type bytes.now) ≡ Some d.now) (λ _. datagram_at (chain_end first_type bytes.now) ≡ None) }
    ensures refused { payload_refusal (chain_end first_type bytes.now) ≡ result_err result }
    ensures within { IfOk result (λ d. length d.now ≤ length bytes.now) }
{
    match walk(first_type, bytes) {
        Err(fault) => Err(PayloadFault::Extension(fault)),
        Ok(payload) => datagram_of(payload.ether_type, payload.bytes),
    }
}

/// The datagram at the front of what an EtherType announces.
fn datagram_of(ether_type: u16, bytes: &[u8]) -> Result<&[u8], PayloadFault>
    ensures read { MatchResult result (λ d. datagram_of_type ether_type bytes.now ≡ Some d.now) (λ _. datagram_of_type ether_type bytes.now ≡ None) }
    ensures refused { ip_refusal ether_type bytes.now ≡ result_err result }
    ensures within { IfOk result (λ d. length d.now ≤ length bytes.now) }
{
    let version = match ether_type {
        ETHER_TYPE_IPV4 => 4,
        ETHER_TYPE_IPV6 => 6,
        _ => return Err(PayloadFault::NotIp),
    };
    match front(bytes) {
        Err(fault) => Err(PayloadFault::Datagram(fault)),
        Ok(length) => {
            if bytes[0] / 16 == version {
                Ok(&bytes[..length])
            } else {
                Err(PayloadFault::Datagram(IpFault::Version))
            }
        }
    }
}

/// Lends the bridged Ethernet frame after the optional headers (RFC 4326 section 5.2).
///
/// None: the chain does not end in Type 0x0001, or fewer than 14 bytes follow that.
pub fn bridged(first_type: u16, bytes: &[u8]) -> Option<&[u8]>
    ensures read { MatchOption result (frame_at (chain_end first_type bytes.now) ≡ None) (λ frame. frame_at (chain_end first_type bytes.now) ≡ Some frame.now) }
{
    match follow(first_type, bytes) {
        Some(end) => {
            if end.last_type == BRIDGED && end.bytes.len() >= LEAST_FRAME {
                Some(end.bytes)
            } else {
                None
            }
        }
        None => None,
    }
}
