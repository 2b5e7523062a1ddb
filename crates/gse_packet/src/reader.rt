//! The packets of a data field, one after another.
ghost use Rattle.std.specs.Prelude.{◌≡◌, ◌+◌, ◌≤◌, ◌∷◌, length, drop, false};
ghost use Rattle.gse_spec.specs.Packet.{is_over, gse_length, label_after_packet};
ghost use Rattle.gse_law.specs.Streams.{readings_from};
ghost use Rattle.gse_packet.specs.Views.{packet_in, reading_in};

use crate::fields::{HEAD, length_of};
use crate::packet::{Gse, GseFault, read_front};
use addr_rules::Label;
use std::marker::Model;

/// The least first byte of a packet: below it S, E and LT are 0, which is padding.
const LEAST_FIRST: u8 = 0x10;

/// Whether no packet stands at the front of some bytes: none is left, or padding begins.
fn is_at_end(bytes: &[u8]) -> bool
    ensures read { result ≡ is_over bytes.now }
{
    match bytes.first() {
        None => true,
        Some(first) => *first < LEAST_FIRST,
    }
}

/// What stands after the packet at the front.
fn after_front(bytes: &[u8]) -> &[u8]
    requires some { 2 ≤ length bytes.now }
    requires whole { 2 + gse_length bytes.now ≤ length bytes.now }
    ensures read { result.now ≡ drop (2 + gse_length bytes.now) bytes.now }
{
    &bytes[HEAD + length_of(bytes)..]
}

/// The label that a packet after this one may re-use.
fn label_after(before: Option<Label>, packet: &Gse<'_>) -> Option<Label>
    ensures read { result ≡ label_after_packet before (packet_in packet.now) }
{
    match packet {
        Gse::Complete { label, .. } => Some(*label),
        Gse::Start { label, .. } => Some(*label),
        Gse::Middle { .. } => before,
        Gse::End { .. } => before,
    }
}

/// The reading at the front of some bytes, and what is to be read after it.
#[derive(Clone, Copy)]
struct Front<'a> {
    reading: Result<Gse<'a>, GseFault>,
    rest: &'a [u8],
    before: Option<Label>,
}

/// Reads at the front of some bytes: ReuseFirst alone is a refusal after which reading goes on.
fn read_one<'a>(before: Option<Label>, bytes: &'a [u8]) -> Front<'a>
    requires { is_over bytes.now ≡ false }
    ensures read { readings_from bytes.now before ≡ reading_in result.reading ∷ readings_from result.rest.now result.before }
{
    match read_front(before, bytes) {
        Ok(packet) => Front {
            reading: Ok(packet),
            rest: after_front(bytes),
            before: label_after(before, &packet),
        },
        Err(GseFault::ReuseFirst) => Front {
            reading: Err(GseFault::ReuseFirst),
            rest: after_front(bytes),
            before,
        },
        Err(GseFault::Cut) => Front {
            reading: Err(GseFault::Cut),
            rest: &[],
            before,
        },
        Err(GseFault::Short) => Front {
            reading: Err(GseFault::Short),
            rest: &[],
            before,
        },
    }
}

/// What is still to be read of a data field; contracts see it as the list of readings to come.
#[derive(Drop)]
pub struct GseReader<'a> {
    /// The bytes from the next packet on.
    bytes: &'a [u8],
    /// The label of the packet with S = 1 that was read last.
    before: Option<Label>,
}

impl<'a> Model for GseReader<'a> {
    ghost use Rattle.std.specs.Prelude.{List, ⊤};
    ghost use Rattle.gse_spec.specs.Packet.{Reading};
    ghost use Rattle.gse_law.specs.Streams.{readings_from};

    ghost Value = { List Reading };

    ghost view = { λ reader. readings_from reader.bytes.now reader.before };

    ghost invariant = { λ reader. ⊤ };
}

impl<'a> GseReader<'a> {
    ghost use Rattle.std.specs.Prelude.{◌≡◌};
    ghost use Rattle.gse_spec.specs.Packet.{readings_of};
    ghost use Rattle.gse_packet.specs.Views.{Gives};

    /// A reader of one data field, which has no label to re-use at its start.
    #[tactic(auto, unfolding(gse_spec::specs::Packet::readings_of))]
    pub fn over(field: &'a [u8]) -> GseReader<'a>
        ensures read { result ≡ readings_of field.now }
    {
        GseReader {
            bytes: field,
            before: None,
        }
    }

    /// The next packet, or the refusal of one; None at the end of the data field or at padding.
    ///
    /// After `ReuseFirst` it goes on after the refused packet. After `Cut` and `Short` nothing is left to read.
    pub fn next(&mut self) -> Result<Option<Gse<'a>>, GseFault>
        ensures read { Gives self.old result self.new }
    {
        if is_at_end(self.bytes) {
            return Ok(None);
        }
        let front = read_one(self.before, self.bytes);
        self.bytes = front.rest;
        self.before = front.before;
        Ok(Some(front.reading?))
    }
}
