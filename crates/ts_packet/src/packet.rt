//! Packets of 188 bytes: fields are read, or the first test that fails is named; packets are written.
ghost use Rattle.std.specs.Prelude.{◌≡◌, ℕ, ◌≤◌, length, drop, Some, None, MatchResult, IfOk, is_ok};
ghost use Rattle.ts_spec.specs.Packet.{fields_of, is_packet, packet_bytes, null_packet};
ghost use Rattle.ts_packet.specs.Fields.{fields_in, refusal};

/// A packet that can be read, its payload lent out of its bytes.
#[derive(Clone, Copy, Debug)]
pub struct Packet<'a> {
    /// 0 to 8191.
    pub pid: u16,
    /// payload_unit_start_indicator.
    pub starts: bool,
    /// continuity_counter, 0 to 15.
    pub counter: u8,
    /// discontinuity_indicator of the adaptation field; false where that field is absent or empty.
    pub broken: bool,
    /// What stands after the header and the adaptation field: 1 to 184 bytes.
    pub payload: &'a [u8],
}

/// Why 188 bytes are no packet that can be read, in the order of the tests.
#[derive(Clone, Copy, Debug, PartialEq, Eq)]
pub enum PacketFault {
    /// sync_byte, byte 0, is not 0x47.
    NoSync,
    /// transport_error_indicator is set.
    Marked,
    /// adaptation_field_control is the reserved 00, or adaptation_field_length leaves no byte of payload.
    Adaptation,
    /// adaptation_field_control is 10: no payload. Profile: whatever the field's length.
    NoPayload,
    /// transport_scrambling_control is not 00.
    Scrambled,
}

/// sync_byte (clause 2.4.3.3).
const SYNC: u8 = 0x47;

/// transport_error_indicator, in byte 1.
const ERROR: u8 = 0x80;

/// payload_unit_start_indicator, in byte 1.
const START: u8 = 0x40;

/// The upper five bits of the PID, in byte 1.
const PID_UPPER: u8 = 0x1F;

/// transport_scrambling_control, in byte 3.
const SCRAMBLING: u8 = 0xC0;

/// adaptation_field_control, in byte 3.
const CONTROL: u8 = 0x30;

/// A payload and no adaptation field.
const PAYLOAD_ALONE: u8 = 0x10;

/// An adaptation field and no payload.
const FIELD_ALONE: u8 = 0x20;

/// An adaptation field and a payload.
const FIELD_AND_PAYLOAD: u8 = 0x30;

/// continuity_counter, in byte 3.
pub(crate) const COUNTER: u8 = 0x0F;

/// The longest adaptation field with a payload after it, its length byte not counted (clause 2.4.3.5).
const LONGEST_FIELD: u8 = 182;

/// discontinuity_indicator, in the byte after adaptation_field_length.
const DISCONTINUITY: u8 = 0x80;

/// The PID of null packets (clause 2.4.3.3, table 2-3).
const NULL_PID: u16 = 0x1FFF;

/// The bytes of a null packet's payload. Profile: they may have any value (clause 2.4.3.3).
const FILL: u8 = 0xFF;

/// Reads the fields of a packet (clauses 2.4.3.2 to 2.4.3.5), or names the first test that it fails.
#[tactic(auto, unfolding(ts_spec::specs::Packet::is_packet, ts_spec::specs::Packet::fields_of))]
pub fn parse(bytes: &[u8; 188]) -> Result<Packet<'_>, PacketFault>
    ensures readable { is_ok result ≡ is_packet bytes.now }
    ensures read { MatchResult result
        (λ packet. (refusal bytes.now ≡ None) × (fields_in packet ≡ fields_of bytes.now))
        (λ fault. refusal bytes.now ≡ Some fault) }
    ensures payload { IfOk result (λ packet.
        (1 ≤ length packet.payload.now) × (length packet.payload.now ≤ 184)) }
    ensures ranges { IfOk result (λ packet. (packet.pid ≤ 8191) × (packet.counter ≤ 15)) }
{
    if bytes[0] != SYNC {
        return Err(PacketFault::NoSync);
    }
    if bytes[1] & ERROR != 0 {
        return Err(PacketFault::Marked);
    }
    let control = bytes[3] & CONTROL;
    let has_field = control == FIELD_AND_PAYLOAD;
    if control == 0 || (has_field && bytes[4] > LONGEST_FIELD) {
        return Err(PacketFault::Adaptation);
    }
    if control == FIELD_ALONE {
        return Err(PacketFault::NoPayload);
    }
    if bytes[3] & SCRAMBLING != 0 {
        return Err(PacketFault::Scrambled);
    }
    let start = if has_field {
        5 + usize::from(bytes[4])
    } else {
        4
    };
    Ok(Packet {
        pid: u16::from(bytes[1] & PID_UPPER) * 256 + u16::from(bytes[2]),
        starts: bytes[1] & START != 0,
        counter: bytes[3] & COUNTER,
        broken: has_field && bytes[4] >= 1 && bytes[5] & DISCONTINUITY != 0,
        payload: &bytes[start..],
    })
}

/// Writes the packet with these fields and this payload, without an adaptation field.
pub fn write_packet(into: &mut [u8; 188], pid: u16, starts: bool, counter: u8, payload: &[u8; 184])
    requires pid { pid ≤ 8191 }
    requires counter { counter ≤ 15 }
    ensures written { into.new ≡ packet_bytes pid starts counter payload.now }
{
    write_header(into, pid, starts, counter);
    into[4..].copy_from_slice(payload);
}

/// Writes bytes 0 to 3 of the packet with these fields, without an adaptation field; the 184 bytes after them stay.
///
/// For a caller that writes the payload to its place itself.
pub fn write_header(into: &mut [u8; 188], pid: u16, starts: bool, counter: u8)
    requires pid { pid ≤ 8191 }
    requires counter { counter ≤ 15 }
    ensures written { into.new ≡ packet_bytes pid starts counter (drop 4 into.old) }
{
    let start = if starts { START } else { 0 };
    into[0] = SYNC;
    into[1] = start + (pid / 256) as u8;
    into[2] = (pid % 256) as u8;
    into[3] = PAYLOAD_ALONE + counter;
}

/// Writes the null packet (clause 2.4.3.3): PID 0x1FFF, counter 0, a payload of bytes FF.
pub fn write_null(into: &mut [u8; 188])
    ensures written { into.new ≡ null_packet }
{
    write_packet(into, NULL_PID, false, 0, &[FILL; 184]);
}
