//! What is open on each Frag ID: fragments come in, their bytes are kept, and the last one gives the PDU.
ghost use Rattle.std.specs.Prelude.{◌≡◌, ◌+◌, ◌≤◌, length, take, drop};

use addr_rules::Label;
use byte_slices::put;
use gse_packet::check_sum;
use std::alloc::Allocator;
use std::marker::Model;

/// The bytes of the buffer that each Frag ID has: Total Length counts at most 65,535.
const SIZE: usize = 65_540;

/// How many Frag IDs there are, and so slots (TS 102 606-1 clause 4.2.1).
pub const FRAG_IDS: usize = 256;

/// The bytes of the buffer: 65,540 for each Frag ID.
pub const PDU_BUFFER_SIZE: usize = 16_778_240;

/// The bytes of Protocol Type, which Total Length counts.
const PROTOCOL: usize = 2;

/// Profile: the first fragment of a PDU is at most so many received frames back.
const MOST_FRAMES: u64 = 256;

/// The first fragment of a PDU, and how many bytes came.
#[derive(Clone, Copy)]
pub(crate) struct Open {
    /// The number of the received frame of the first fragment.
    pub(crate) frame_number: u64,
    /// Total Length.
    pub(crate) total: u16,
    /// Protocol Type.
    pub(crate) protocol: u16,
    /// The PDU's address.
    pub(crate) label: Label,
    /// The label bytes that stand in the first fragment.
    pub(crate) written: u8,
    /// How many bytes of the PDU came.
    pub(crate) fill: usize,
}

/// A PDU in fragments that is open on one Frag ID, or none.
#[derive(Clone, Copy)]
pub struct Slot {
    pub(crate) held: Option<Open>,
}

impl Slot {
    ghost use Rattle.std.specs.Prelude.{◌≡◌};
    ghost use Rattle.gse_reassembly.specs.Slots.{closed};

    /// An empty slot.
    pub fn new() -> Slot
        ensures empty { result ≡ closed }
    {
        Slot { held: None }
    }
}

/// What became of a fragment that is not the last.
#[derive(Clone, Copy, Debug, PartialEq, Eq)]
pub enum Part {
    /// Its bytes are kept.
    Kept,
    /// Its Frag ID is not open.
    NoStart,
    /// More bytes came than Total Length counts; the Frag ID is closed.
    TooLong,
}

/// What became of a last fragment, in the order of the tests.
#[derive(Drop)]
pub enum Outcome<'u> {
    /// The PDU, its bytes lent out of the buffer.
    Pdu {
        /// Protocol Type.
        protocol: u16,
        /// The PDU's address.
        label: Label,
        /// Extension headers and PDU.
        bytes: &'u [u8],
    },
    /// Its Frag ID is not open.
    NoStart,
    /// The first fragment came more than 256 received frames before.
    Late,
    /// The bytes are not as many as Total Length counts.
    Length,
    /// The CRC-32 differs.
    Crc,
}

/// Reassembly of the PDUs of one input stream, by their Frag IDs; contracts see what is open on each.
#[derive(Drop)]
pub struct Slots<A: Allocator> {
    buffer: Vec<u8, A>,
    slots: Vec<Slot, A>,
    frame_number: u64,
}

impl<A: Allocator> Model for Slots<A> {
    ghost use Rattle.std.specs.Prelude.{◌≡◌, ◌≤◌, vec_len, All};
    ghost use Rattle.gse_reassembly.specs.Slots.{SlotsState, FitsSlot};

    ghost Value = { SlotsState };

    ghost view = { λ s. record { frame_number = s.frame_number; slots = s.slots.items; buffer = s.buffer.items } };

    ghost invariant = { λ s. (vec_len s.buffer ≡ 16778240) × (vec_len s.slots ≡ 256) × All FitsSlot s.slots.items };
}

/// The bytes from a place on.
fn piece_at(buffer: &[u8], from: usize, size: usize) -> &[u8]
    requires room { from + size ≤ length buffer.now }
    ensures part { result.now ≡ take size (drop from buffer.now) }
{
    &buffer[from..from + size]
}

impl<A: Allocator> Slots<A> {
    ghost use Rattle.std.specs.Prelude.{◌≡◌, ℕ, ◌+◌, ◌<◌, length, vec_len, None, []};
    ghost use Rattle.gse_spec.specs.Packet.{start_packet, middle_packet, end_packet};
    ghost use Rattle.std.specs.Borrow.{sem};
    ghost use Rattle.std.specs.Io.BufRead.{Rests};
    ghost use Rattle.gse_reassembly.specs.contracts.slots.Slots.{the_row};
    ghost use Rattle.gse_spec.specs.Reassembly.{outcome_after};
    ghost use Rattle.gse_reassembly.specs.Outcomes.{Tells};
    ghost use Rattle.gse_spec.specs.Slots.{open_after};
    ghost use Rattle.gse_reassembly.specs.Slots.{SlotsState, open_on, start_answer, middle_answer, Stands};

    /// Slots with nothing open and no frame counted, over a buffer of 65,540 bytes and a slot for each of 256 Frag IDs.
    ///
    /// What stood in the slots is dropped.
    pub fn over(buffer: Vec<u8, A>, slots: Vec<Slot, A>) -> Slots<A>
        requires room { vec_len buffer ≡ 16778240 }
        requires slots { vec_len slots ≡ 256 }
        ensures stands { Stands result [] }
        ensures counts { result.frame_number ≡ 0 }
    {
        let mut slots = slots;
        slots.fill(Slot::new());
        Slots {
            buffer,
            slots,
            frame_number: 0,
        }
    }

    /// Counts one received frame of the input stream, of fewer than 2^32 + 1.
    pub fn frame(&mut self)
        requires { self.old.frame_number < 4294967296 }
        ensures counts { self.new.frame_number ≡ self.old.frame_number + 1 }
        ensures unchanged { (other : ℕ) → open_on self.new other ≡ open_on self.old other }
    {
        self.frame_number += 1;
    }

    /// Opens a Frag ID with the first fragment of a PDU; what was open there is dropped.
    ///
    /// `written` is how many bytes of the label stand in the packet. `NoStart` is never answered.
    pub fn start(
        &mut self,
        id: u8,
        total: u16,
        protocol: u16,
        label: Label,
        written: u8,
        pdu: &[u8],
    ) -> Part
        ensures counts { self.new.frame_number ≡ self.old.frame_number }
        ensures opens { (other : ℕ) → open_on self.new other
            ≡ open_after other self.old.frame_number (start_packet id total protocol label written pdu.now) (open_on self.old other) }
        ensures answer { result ≡ start_answer (open_on self.new id) }
    {
        let at = usize::from(id);
        if PROTOCOL + usize::from(written) + pdu.len() > usize::from(total) {
            self.slots[at] = Slot { held: None };
            return Part::TooLong;
        }
        put(&mut self.buffer, at * SIZE, pdu);
        let frame_number = self.frame_number;
        let fill = pdu.len();
        self.slots[at] = Slot {
            held: Some(Open {
                frame_number,
                total,
                protocol,
                label,
                written,
                fill,
            }),
        };
        Part::Kept
    }

    /// Goes on with a Frag ID by a fragment that is neither the first nor the last.
    pub fn middle(&mut self, id: u8, pdu: &[u8]) -> Part
        ensures counts { self.new.frame_number ≡ self.old.frame_number }
        ensures opens { (other : ℕ) → open_on self.new other
            ≡ open_after other self.old.frame_number (middle_packet id pdu.now) (open_on self.old other) }
        ensures answer { result ≡ middle_answer (open_on self.old id) (open_on self.new id) }
    {
        let at = usize::from(id);
        let open = match self.slots[at].held {
            None => return Part::NoStart,
            Some(open) => open,
        };
        if PROTOCOL + usize::from(open.written) + open.fill + pdu.len() > usize::from(open.total) {
            self.slots[at] = Slot { held: None };
            return Part::TooLong;
        }
        put(&mut self.buffer, at * SIZE + open.fill, pdu);
        let fill = open.fill + pdu.len();
        self.slots[at] = Slot {
            held: Some(Open { fill, ..open }),
        };
        Part::Kept
    }

    /// Ends a Frag ID by the last fragment of a PDU and its CRC-32; it is closed in each case.
    ///
    /// The CRC-32 covers Total Length, Protocol Type, the label bytes that stood in the first fragment, and all bytes.
    pub fn end(&mut self, id: u8, pdu: &[u8], crc: u32) -> Outcome<'_>
        ensures told { Tells result (outcome_after (open_on self.old id) self.old.frame_number pdu.now crc) }
        ensures* rests { sem 𝓛 (Rests (the_row A.row A.Allocator) self.entry (λ slots. (slots.frame_number ≡ self.old.frame_number)
            × ((other : ℕ) → open_on slots other ≡ open_after other self.old.frame_number (end_packet id pdu.now crc) (open_on self.old other)))) }
    {
        let at = usize::from(id);
        let open = match self.slots[at].held {
            None => return Outcome::NoStart,
            Some(open) => open,
        };
        self.slots[at].held = None;
        if self.frame_number.saturating_sub(open.frame_number) > MOST_FRAMES {
            return Outcome::Late;
        }
        let fill = open.fill + pdu.len();
        if PROTOCOL + usize::from(open.written) + fill != usize::from(open.total) {
            return Outcome::Length;
        }
        put(&mut self.buffer, at * SIZE + open.fill, pdu);
        let sum = check_sum(
            open.total,
            open.protocol,
            &open.label,
            open.written,
            piece_at(&self.buffer, at * SIZE, fill),
        );
        if sum != crc {
            return Outcome::Crc;
        }
        Outcome::Pdu {
            protocol: open.protocol,
            label: open.label,
            bytes: piece_at(&self.buffer, at * SIZE, fill),
        }
    }
}
