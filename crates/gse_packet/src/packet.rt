//! The packet at the front of some bytes: its kind and fields, or why it is refused.
ghost use Rattle.std.specs.Prelude.{◌≡◌, ◌≤◌, length, false};
ghost use Rattle.gse_spec.specs.Packet.{is_cut, is_short, packet_at_front, reading_at_front};
ghost use Rattle.gse_packet.specs.Views.{packet_in, reading_in, HoldsPacket};

use crate::fields::{
    CRC, FRAG_ID, HEAD, PROTOCOL_TYPE, REUSED, TOTAL_LENGTH, crc_at, has_end, has_start,
    label_type, length_of, number_at, read_label, size_of_fields, size_of_label,
};
use addr_rules::Label;

/// The place of the label of a whole PDU, after Protocol Type.
const COMPLETE_LABEL: usize = HEAD + PROTOCOL_TYPE;

/// The place after a Frag ID: of Total Length in a first fragment, of the PDU's bytes in the others.
const AFTER_ID: usize = HEAD + FRAG_ID;

/// The place of Protocol Type in a first fragment.
const FIRST_PROTOCOL: usize = AFTER_ID + TOTAL_LENGTH;

/// The place of the label in a first fragment.
const FIRST_LABEL: usize = FIRST_PROTOCOL + PROTOCOL_TYPE;

/// A packet, its bytes of a PDU lent out of the data field.
#[derive(Clone, Copy, Debug, PartialEq, Eq)]
pub enum Gse<'a> {
    /// S = E = 1: a whole PDU.
    Complete {
        /// Protocol Type: an EtherType from 1536 on, below it an extension header's.
        protocol: u16,
        /// The PDU's address, also where it is re-used.
        label: Label,
        /// Extension headers and PDU.
        pdu: &'a [u8],
    },
    /// S = 1, E = 0: the first fragment of a PDU.
    Start {
        /// Frag ID.
        id: u8,
        /// Total Length: the bytes of Protocol Type, of the label that stands here, and of all fragments.
        total: u16,
        /// Protocol Type.
        protocol: u16,
        /// The PDU's address, also where it is re-used.
        label: Label,
        /// How many label bytes stand here: 6, 3 or 0.
        written: u8,
        /// The first bytes of extension headers and PDU.
        pdu: &'a [u8],
    },
    /// S = E = 0: a fragment between the first and the last.
    Middle {
        /// Frag ID.
        id: u8,
        /// The next bytes.
        pdu: &'a [u8],
    },
    /// S = 0, E = 1: the last fragment.
    End {
        /// Frag ID.
        id: u8,
        /// The last bytes.
        pdu: &'a [u8],
        /// The CRC-32 of the PDU in fragments.
        crc: u32,
    },
}

/// Why a packet is refused, in the order of the tests.
#[derive(Clone, Copy, Debug, PartialEq, Eq)]
pub enum GseFault {
    /// GSE Length passes the data field, or a single byte of it is left.
    Cut = 1,
    /// LT = 3 and S = 1, where no packet with S = 1 was read in this data field before.
    ReuseFirst = 2,
    /// GSE Length does not hold the fields.
    Short = 3,
}

/// Reads the packet at the front of some bytes; `before` is the label that it may re-use.
#[tactic(auto, unfolding(gse_spec::specs::Packet::reading_at_front))]
pub(crate) fn read_front(before: Option<Label>, bytes: &[u8]) -> Result<Gse<'_>, GseFault>
    requires { 1 ≤ length bytes.now }
    ensures read { reading_in result ≡ reading_at_front before bytes.now }
    ensures whole { HoldsPacket result bytes.now }
{
    if bytes.len() < HEAD || bytes.len() < HEAD + length_of(bytes) {
        return Err(GseFault::Cut);
    }
    if has_start(bytes) && label_type(bytes) == REUSED && before.is_none() {
        return Err(GseFault::ReuseFirst);
    }
    if length_of(bytes) < size_of_fields(bytes) {
        return Err(GseFault::Short);
    }
    Ok(fields_of(before, bytes))
}

/// The fields of a packet that holds them.
fn fields_of(before: Option<Label>, bytes: &[u8]) -> Gse<'_>
    requires whole { is_cut bytes.now ≡ false }
    requires fields { is_short bytes.now ≡ false }
    ensures read { packet_in result ≡ packet_at_front before bytes.now }
{
    let end = HEAD + length_of(bytes);
    match (has_start(bytes), has_end(bytes)) {
        (true, true) => Gse::Complete {
            protocol: number_at(bytes, HEAD),
            label: read_label(before, bytes, COMPLETE_LABEL),
            pdu: &bytes[COMPLETE_LABEL + usize::from(size_of_label(bytes))..end],
        },
        (true, false) => Gse::Start {
            id: bytes[HEAD],
            total: number_at(bytes, AFTER_ID),
            protocol: number_at(bytes, FIRST_PROTOCOL),
            label: read_label(before, bytes, FIRST_LABEL),
            written: size_of_label(bytes),
            pdu: &bytes[FIRST_LABEL + usize::from(size_of_label(bytes))..end],
        },
        (false, true) => Gse::End {
            id: bytes[HEAD],
            pdu: &bytes[AFTER_ID..end - CRC],
            crc: crc_at(bytes, end - CRC),
        },
        (false, false) => Gse::Middle {
            id: bytes[HEAD],
            pdu: &bytes[AFTER_ID..end],
        },
    }
}
