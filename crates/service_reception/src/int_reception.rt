//! The packets of the INT's PID -> how many sections came, which version of the plan is in force, and the section that is shown.

use crate::kept::Kept;
use section_codec::SectionForm;
use std::alloc::Allocator;
use std::marker::Model;
use ts_packet::{Continuity, Packet};
use unit_stream::Joiner;

/// The reception of the INT's PID.
#[derive(Drop)]
pub struct IntReception<A: Allocator> {
    continuity: Continuity,
    joiner: Joiner<SectionForm, A>,
    kept: Kept<A>,
}

impl<A: Allocator> Model for IntReception<A> {
    ghost use Rattle.service_reception.specs.Table.{TableState};

    ghost Value = { TableState };

    ghost view = { λ reception. record { last = reception.continuity; joiner = reception.joiner; kept = reception.kept } };
}

impl<A: Allocator> IntReception<A> {
    ghost use Rattle.std.specs.Prelude.{◌≡◌, ◌<◌, ◌≤◌, ◌^◌, ℕ, true, List, [], ◌∷◌, ◌++◌, length, vec_len, Some, option_copied};
    ghost use Rattle.ts_spec.specs.Packet.{fields_of, is_packet};
    ghost use Rattle.ts_spec.specs.Recording.{Record};
    ghost use Rattle.plan_spec.specs.Plan.{IntFields, PlanFields};
    ghost use Rattle.ts_packet.specs.Fields.{fields_in};
    ghost use Rattle.service_reception.specs.Reception.{packet_record};
    ghost use Rattle.service_reception.specs.Table.{HasReceivedTable};

    /// A reception of nothing, over two buffers of 4,096 bytes, for a section under way and for the one that is kept.
    /// It takes no memory afterwards. The INT's tables are those of this platform, and say versions of the plan up to the last.
    pub fn over(
        buffer: Vec<u8, A>,
        kept: Vec<u8, A>,
        platform_id: u32,
        last_version: u8,
    ) -> IntReception<A>
        requires buffer { vec_len buffer ≡ 4096 }
        requires kept { vec_len kept ≡ 4096 }
        ensures received { (plan : PlanFields) (int : IntFields) (pid : ℕ) → plan.table ≡ Some int → int.platform_id ≡ platform_id
            → length plan.changes ≡ last_version → HasReceivedTable plan int pid result [] }
        ensures last { result.kept.last_version ≡ last_version }
    {
        IntReception {
            continuity: Continuity::new(),
            joiner: Joiner::over(buffer),
            kept: Kept::over(kept, platform_id, last_version),
        }
    }

    /// Takes one packet of the INT's PID, which `parse` read from `bytes`, and the moment of its record.
    pub fn take(&mut self, bytes: &[u8; 188], packet: &Packet<'_>, moment: u64)
        requires readable { is_packet bytes.now ≡ true }
        requires read { fields_in packet.now ≡ fields_of bytes.now }
        ensures received { (plan : PlanFields) (int : IntFields) (records : List Record) → length records < 2 ^ 32
            → HasReceivedTable plan int packet.now.pid self.old records
            → HasReceivedTable plan int packet.now.pid self.new (records ++ packet_record moment bytes.now ∷ []) }
        ensures last { self.new.kept.last_version ≡ self.old.kept.last_version }
    {
        let link = self.continuity.see(bytes, packet);
        self.joiner.take(link, packet, moment, &mut self.kept);
    }

    /// How many sections were accepted.
    pub fn units(&self) -> u64
        ensures read { result ≡ self.now.kept.units }
    {
        self.kept.units()
    }

    /// The version of the plan that is in force: the greatest that an accepted section of the platform's INT said, at first 0.
    pub fn version(&self) -> u8
        ensures read { result ≡ self.now.kept.version }
        ensures most { result ≤ self.now.kept.last_version }
    {
        self.kept.version()
    }

    /// Lends the section that put the version in force; at version 0 the first accepted one with the table_id of an INT.
    pub fn section(&self) -> Option<&[u8]>
        ensures read { option_copied result ≡ self.now.kept.shown }
    {
        self.kept.shown()
    }
}
