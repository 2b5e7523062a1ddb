//! The section of the INT of a part -> its packets, once in each cycle of slots (EN 301 192 clause 8.4).

use plan::Plan;
use section_codec::SectionForm;
use std::marker::Model;
use unit_stream::{Packer, count_packets};

/// A section of the INT may begin in the packet in which the one before ends (ISO/IEC 13818-1 clause 2.4.4).
const PACKING: bool = true;

/// A section on its way into the packets of its PID, as often as it is asked for.
#[derive(Drop)]
pub(crate) struct SectionPackets<'a> {
    section: &'a [u8],
    /// Where the section ends.
    ends: [usize; 1],
    packer: Packer<SectionForm>,
}

impl<'a> Model for SectionPackets<'a> {
    ghost use Rattle.ts_mux.specs.SectionPackets.{OnWay, on_way, IsPacking};

    ghost Value = { OnWay };

    ghost view = { λ p. on_way p.packer p.section.now p.ends };

    ghost invariant = { λ p. IsPacking p.packer p.section.now p.ends };
}

impl<'a> SectionPackets<'a> {
    ghost use Rattle.std.specs.Prelude.{◌≡◌, ℕ, ◌+◌, ◌<◌, ◌≤◌, ◌%◌, [], ◌∷◌, true, length};
    ghost use Rattle.ts_spec.specs.Packet.{PacketFields};
    ghost use Rattle.section_spec.specs.Section.{section_form};
    ghost use Rattle.stream_spec.specs.Parts.{written};
    ghost use Rattle.unit_stream.specs.Packing.{packetized};

    /// The packets of a section; the PID is 0 to 8191, the counter of the first packet 0 to 15.
    fn new(section: &'a [u8], pid: u16, counter: u8) -> SectionPackets<'a>
        requires pid { pid ≤ 8191 }
        requires counter { counter ≤ 15 }
        requires some { 0 < length section.now }
        ensures written { result ≡ record {
          pid = pid;
          packing = true;
          counter = counter;
          units = section.now ∷ [];
          packets = packetized section_form true pid counter (section.now ∷ []);
        } }
    {
        SectionPackets {
            section,
            ends: [section.len()],
            packer: Packer::with_counter(pid, PACKING, counter),
        }
    }

    /// The counter of the next one.
    fn counter(&self) -> u8
        ensures read { result ≡ self.now.counter }
        ensures below { result ≤ 15 }
    {
        self.packer.counter()
    }

    /// Writes the next one.
    fn next(&mut self, into: &mut [u8; 188])
        requires { 0 < length self.old.packets }
        ensures next { (packet : PacketFields) × (self.old.packets ≡ packet ∷ self.new.packets) × (into.new ≡ written packet) }
        ensures kept { (self.new.pid ≡ self.old.pid) × (self.new.packing ≡ self.old.packing) × (self.new.units ≡ self.old.units) }
        ensures counter { self.new.counter ≡ (self.old.counter + 1) % 16 }
    {
        if !self.packer.next(self.section, &self.ends, into) {
            unreachable!();
        }
    }

    /// Begins the section anew. The counter goes on.
    fn again(&mut self)
        ensures written { self.new ≡ record self.old { packets = packetized section_form self.old.packing self.old.pid self.old.counter self.old.units } }
    {
        self.packer.again();
    }
}

/// The packets of the INT in a part, none without one.
#[derive(Drop)]
pub(crate) struct IntPackets<'a> {
    packets: Option<SectionPackets<'a>>,
    /// How many there are in each cycle.
    count: u64,
}

impl<'a> IntPackets<'a> {
    ghost use Rattle.std.specs.Prelude.{◌≡◌, ◌≤◌, ◌<◌, ◌/◌, ◌%◌, ◌+◌, ◌*◌, min, ℕ, length, true, Some};
    ghost use Rattle.int_spec.specs.Table.{table_bytes};
    ghost use Rattle.plan_spec.specs.Plan.{IntFields};
    ghost use Rattle.plan_spec.specs.Signalling.{table_of, table_packets};
    ghost use Rattle.plan.specs.PlanView.{plan_fields};
    ghost use Rattle.stream_spec.specs.Parts.{PartFields};
    ghost use Rattle.ts_mux.specs.Slots.{is_early, IsPartOf};
    ghost use Rattle.ts_mux.specs.IntPackets.{IsTableAt, packet_of_table};

    /// The packets of the INT with this section, before the first slot of its part; its counter there is 0 to 15. Without an INT neither
    /// is read.
    pub(crate) fn new(plan: &Plan, section: &'a [u8], counter: u8) -> IntPackets<'a>
        requires counter { counter ≤ 15 }
        requires section { (int : IntFields) → (plan_fields plan.now).table ≡ Some int → 0 < length section.now }
        ensures at { (part : PartFields) → IsPartOf (plan_fields plan.now) part
            → ((int : IntFields) → part.plan.table ≡ Some int → counter ≡ part.table_before % 16)
            → ((int : IntFields) → part.plan.table ≡ Some int → section.now ≡ table_bytes (table_of part.plan int)) → IsTableAt part 0 result }
    {
        let Some(int) = &plan.table else {
            return IntPackets {
                packets: None,
                count: 0,
            };
        };
        IntPackets {
            packets: Some(SectionPackets::new(section, int.pid, counter)),
            count: count_packets::<SectionForm>(&[section.len()], PACKING),
        }
    }

    /// How many there are in each cycle.
    pub(crate) fn count(&self) -> u64
        ensures read { result ≡ self.now.count }
    {
        self.count
    }

    /// The counter of the next one; 0 without an INT.
    pub(crate) fn counter(&self) -> u8
        ensures read { (part : PartFields) (place : ℕ) (int : IntFields) → part.plan.table ≡ Some int → IsTableAt part place self.now
            → result ≡ (part.table_before + (place / part.plan.cycle * table_packets part.plan + min (place % part.plan.cycle) (table_packets part.plan))) % 16 }
        ensures below { result ≤ 15 }
    {
        match &self.packets {
            Some(packets) => packets.counter(),
            None => 0,
        }
    }

    /// Writes the one of this slot of the stream, in the first slots of its cycle.
    pub(crate) fn next(&mut self, plan: &Plan, slot: u64, into: &mut [u8; 188])
        requires at { (part : PartFields) × (place : ℕ) × IsPartOf (plan_fields plan.now) part × (slot ≡ part.slots_before + place) × IsTableAt part place self.old }
        requires early { is_early plan.now.cycle self.old.count slot ≡ true }
        ensures at { (part : PartFields) (place : ℕ) → IsPartOf (plan_fields plan.now) part → slot ≡ part.slots_before + place
            → IsTableAt part place self.old → IsTableAt part (place + 1) self.new × (into.new ≡ packet_of_table part place) }
        ensures count { self.new.count ≡ self.old.count }
    {
        let Some(packets) = &mut self.packets else {
            unreachable!();
        };
        if slot % u64::from(plan.cycle) == 0 {
            packets.again();
            packets.next(into);
        } else {
            packets.next(into);
        }
    }
}
