//! datagram_section (EN 301 192 clause 7): the address, the real_time_parameters and the datagram of one.
//!
//! Reading: a section comes in, and its fields go out, or why it carries no datagram.
//! Writing: an address, parameters and a datagram come in, and the section goes into the caller's bytes.

ghost use Rattle.std.specs.Prelude.{◌≡◌, ◌≤◌, ◌+◌, ◌++◌, ℕ, List, Option, Some, None, length, take, drop, IfOk, IfSome, OnErr};
ghost use Rattle.std.specs.Result.{result_err};
ghost use Rattle.section_codec.specs.Views.{fields_in};
ghost use Rattle.section_spec.specs.Mpe.{IsRealTime, RealTimeFields, mac_in, mac_with, mpe_body, mpe_bytes, mpe_of, mpe_to_write};
ghost use Rattle.mpe_section.specs.Views.{real_time_in, given, mpe_in};
ghost use Rattle.mpe_section.specs.Refusals.{mpe_refusal};

use crate::body::{
    FLAGS, HEAD, LAST, MAC, NUMBER, TOP, behind_head, byte_at, current_next_indicator,
};
use crate::real_time::{RealTime, number_of, parameters_of};
use ip_datagram::{IpFault, front};
use section_codec::{SectionRef, size, write_around, write_in_two};

/// A datagram_section.
#[derive(Clone, Copy, Debug, PartialEq, Eq)]
pub struct Mpe<'a> {
    /// The destination's address, MAC_address_1 first. Its first four bytes are those of `real_time` read otherwise.
    pub mac: [u8; 6],
    /// real_time_parameters, which stand in the place of MAC_address_4 to _1.
    pub real_time: RealTime,
    /// The datagram, without the stuffing after it.
    pub datagram: &'a [u8],
}

/// Why a section carries no datagram that is read, in the order of the tests.
#[derive(Clone, Copy, Debug, PartialEq, Eq)]
pub enum MpeFault {
    /// table_id is not 0x3E.
    Table,
    /// current_next_indicator is 0.
    Next,
    /// payload_scrambling_control or address_scrambling_control is not 0.
    Scrambled,
    /// LLC_SNAP_flag is 1.
    LlcSnap,
    /// section_number or last_section_number is not 0.
    Numbers,
    /// The bytes from byte 12 on begin with no datagram; where there is none, it is `Short`.
    Datagram(IpFault),
}

/// table_id of a datagram_section.
const TABLE_ID: u8 = 0x3E;

/// Both scrambling controls stand above LLC_SNAP_flag and current_next_indicator (EN 301 192 clause 7.1).
const SCRAMBLING_UNIT: u8 = 4;

/// They, 4 bits, have so many values.
const SCRAMBLINGS: u8 = 16;

/// LLC_SNAP_flag stands above current_next_indicator.
const LLC_SNAP_UNIT: u8 = 2;

/// Byte 2 of a written body: two reserved bits, both scrambling controls 0, LLC_SNAP_flag 0, current_next_indicator 1.
const WRITTEN_FLAGS: u8 = 0xC1;

/// Reads a datagram_section.
///
/// `datagram` is lent out of the section, from its byte 12 on. Reserved bits and what stands after the datagram are not tested.
pub fn read_mpe<'a>(section: &SectionRef<'a>) -> Result<Mpe<'a>, MpeFault>
    ensures read { IfOk result (λ m. mpe_of (fields_in section.now) ≡ Some (mpe_in m)) }
    ensures only { OnErr result (mpe_of (fields_in section.now) ≡ None) }
    ensures refused { mpe_refusal (fields_in section.now) ≡ result_err result }
    ensures within { IfOk result (λ m. length m.datagram.now ≤ length section.now.body.now) }
{
    let body = section.body;
    let flags = byte_at(body, FLAGS);
    if section.table_id != TABLE_ID {
        return Err(MpeFault::Table);
    }
    if !current_next_indicator(body) {
        return Err(MpeFault::Next);
    }
    if flags / SCRAMBLING_UNIT % SCRAMBLINGS != 0 {
        return Err(MpeFault::Scrambled);
    }
    if flags / LLC_SNAP_UNIT % 2 != 0 {
        return Err(MpeFault::LlcSnap);
    }
    if byte_at(body, NUMBER) != 0 || byte_at(body, LAST) != 0 {
        return Err(MpeFault::Numbers);
    }
    let rest = behind_head(body);
    match front(rest) {
        Err(fault) => Err(MpeFault::Datagram(fault)),
        Ok(size) => Ok(Mpe {
            mac: mac_of(body),
            real_time: parameters_of(body),
            datagram: &rest[..size],
        }),
    }
}

/// The address in a body.
fn mac_of(body: &[u8]) -> [u8; 6]
    ensures { result ≡ mac_in body.now }
{
    [
        byte_at(body, MAC[0]),
        byte_at(body, MAC[1]),
        byte_at(body, MAC[2]),
        byte_at(body, MAC[3]),
        byte_at(body, MAC[4]),
        byte_at(body, MAC[5]),
    ]
}

/// Writes the datagram_section of these fields to the front of `into`; answers its length.
///
/// With real_time_parameters these stand in the place of the first four bytes of `mac`. A datagram has at most 4,080 bytes.
/// What stands after in `into` stays.
pub fn write_mpe(
    mac: [u8; 6],
    real_time: Option<RealTime>,
    datagram: &[u8],
    into: &mut [u8],
) -> usize
    requires parameters { IfSome real_time (λ t. IsRealTime (real_time_in t)) }
    requires size { length datagram.now ≤ 4080 }
    requires room { length datagram.now + 16 ≤ length into.old }
    ensures size { result ≡ length (mpe_bytes (mpe_to_write mac (given real_time) datagram.now)) }
    ensures written { into.new ≡ mpe_bytes (mpe_to_write mac (given real_time) datagram.now) ++ drop result into.old }
{
    match real_time {
        None => write_to(mac, datagram, into),
        Some(parameters) => write_to(with_parameters(parameters, mac), datagram, into),
    }
}

/// Writes the datagram_section to an address as `write_mpe` does, but without its datagram: the 12 bytes before it and, right after
/// these, the four of the CRC_32; answers how many bytes stand before the datagram.
pub fn write_mpe_around(mac: [u8; 6], datagram: &[u8], into: &mut [u8]) -> usize
    requires size { length datagram.now ≤ 4080 }
    requires room { 16 ≤ length into.old }
    ensures size { result ≡ 12 }
    ensures written { mpe_bytes (mpe_to_write mac None datagram.now) ≡ take result into.new ++ (datagram.now ++ take 4 (drop result into.new)) }
{
    write_around(TABLE_ID, TOP, &head_with(mac), datagram, into)
}

/// Bytes of the datagram_section of so many bytes of a datagram, 4,080 at most: those that `write_mpe` writes.
pub fn mpe_size(datagram: usize) -> usize
    requires { datagram ≤ 4080 }
    ensures size { (mac : List ℕ) (real_time : Option RealTimeFields) (bytes : List ℕ) → length bytes ≡ datagram
        → result ≡ length (mpe_bytes (mpe_to_write mac real_time bytes)) }
    ensures sum { result ≡ datagram + 16 }
{
    size(HEAD + datagram)
}

/// The address whose first four bytes are these parameters.
fn with_parameters(parameters: RealTime, mac: [u8; 6]) -> [u8; 6]
    requires { IsRealTime (real_time_in parameters) }
    ensures { result ≡ mac_with (real_time_in parameters) mac }
{
    let number = number_of(parameters).to_be_bytes();
    [number[3], number[2], number[1], number[0], mac[4], mac[5]]
}

/// Writes the datagram_section to an address.
fn write_to(mac: [u8; 6], datagram: &[u8], into: &mut [u8]) -> usize
    requires size { length datagram.now ≤ 4080 }
    requires room { length datagram.now + 16 ≤ length into.old }
    ensures size { result ≡ length (mpe_bytes (mpe_to_write mac None datagram.now)) }
    ensures written { into.new ≡ mpe_bytes (mpe_to_write mac None datagram.now) ++ drop result into.old }
{
    write_in_two(TABLE_ID, TOP, &head_with(mac), datagram, into)
}

/// The bytes of a body before its datagram.
fn head_with(mac: [u8; 6]) -> [u8; 9]
    ensures written { (datagram : List ℕ) → mpe_body (mpe_to_write mac None datagram) ≡ result ++ datagram }
{
    [
        mac[5],
        mac[4],
        WRITTEN_FLAGS,
        0,
        0,
        mac[3],
        mac[2],
        mac[1],
        mac[0],
    ]
}
