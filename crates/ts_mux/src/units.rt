//! A datagram of a service whose datagrams have units of their own -> its unit.
ghost use Rattle.std.specs.Prelude.{◌≡◌, ◌+◌, ◌*◌, ◌<◌, ◌≤◌, ◌^◌, true, length, map, vec_len, vec_capacity, IfOk};
ghost use Rattle.stream_law.specs.Words.{is_single};
ghost use Rattle.plan.specs.Parts.{kind_seen};
ghost use Rattle.ts_mux.specs.Units.{unit_bytes, unit_with, ends_from, IsFor, AreFor};
ghost use Rattle.stream_spec.specs.Units.{unit_of};

use addr_rules::mac_of;
use byte_slices::array_bytes;
use ip_datagram::{DatagramList, destination, ether_type};
use mpe_section::{mpe_size, write_mpe_around};
use plan::{Kind, Service};
use std::alloc::{AllocError as OutOfMemory, Global};

/// Most bytes that a unit has beside its datagram: those of a datagram_section, 12 before it and the CRC_32 (EN 301 192 clause 7.1).
pub(crate) const MOST_AROUND: usize = 16;

/// Writes the unit of a datagram without this to the front of `into`: what stands before it and, right after that, the CRC-32;
/// answers how many bytes stand before it.
pub(crate) fn write_around(service: &Service, datagram: &[u8], into: &mut [u8]) -> usize
    requires single { is_single (kind_seen service.now.kind) ≡ true }
    requires datagram { IsFor (kind_seen service.now.kind) datagram.now }
    requires room { 16 ≤ length into.old }
    ensures most { result ≤ 12 }
    ensures written { unit_of (kind_seen service.now.kind) service.now.unicast datagram.now ≡ unit_with result into.new datagram.now }
{
    let mac = mac_of(&destination(datagram), service.unicast);
    match service.kind {
        Kind::Ule { address, .. } => {
            let npa = if address { Some(mac) } else { None };
            ule_unit::write_around(npa, ether_type(datagram), datagram, into)
        }
        Kind::Mpe { .. } => write_mpe_around(mac, datagram, into),
        Kind::Fec { .. } | Kind::Gse { .. } => unreachable!(),
    }
}

/// Bytes of the unit of a datagram.
fn unit_size(service: &Service, datagram: &[u8]) -> usize
    requires single { is_single (kind_seen service.now.kind) ≡ true }
    requires datagram { IsFor (kind_seen service.now.kind) datagram.now }
    ensures size { result ≡ length (unit_of (kind_seen service.now.kind) service.now.unicast datagram.now) }
    ensures most { result ≤ 32773 }
{
    let _ = array_bytes(&service.unicast);
    match service.kind {
        Kind::Ule { address, .. } => ule_unit::size(address, datagram.len()),
        Kind::Mpe { .. } => mpe_size(datagram.len()),
        Kind::Fec { .. } | Kind::Gse { .. } => unreachable!(),
    }
}

/// Where the units end, one after another, of datagrams that the service takes. The answer has room for no more ends.
pub(crate) fn ends_of(
    alloc: Global,
    service: &Service,
    datagrams: &DatagramList,
) -> Result<Vec<usize>, OutOfMemory>
    requires single { is_single (kind_seen service.now.kind) ≡ true }
    requires datagrams { AreFor (kind_seen service.now.kind) datagrams.now }
    requires few { length datagrams.now < 2 ^ 32 }
    ensures written { IfOk result (λ ends. ends.items ≡ ends_from 0 (map (unit_of (kind_seen service.now.kind) service.now.unicast) datagrams.now)) }
    ensures most { IfOk result (λ _. length (unit_bytes (kind_seen service.now.kind) service.now.unicast datagrams.now) ≤ 32773 * length datagrams.now) }
    ensures exact { IfOk result (λ ends. vec_capacity ends ≡ vec_len ends) }
{
    let mut ends = Vec::with_capacity(alloc, datagrams.len())?;
    let mut end = 0;
    for place in 0..datagrams.len() {
        end += unit_size(service, datagrams.at(place));
        ends.push_reserved(end);
    }
    Ok(ends)
}
