//! The INT in the stream.
ghost use Rattle.std.specs.Prelude.{◌≡◌, ℕ, List, [], ◌∷◌, map, flat_map, true, All, Option, Some};
ghost use Rattle.ts_spec.specs.Recording.{records_of};
ghost use Rattle.ts_spec.specs.Packetized.{Packetizes};
ghost use Rattle.section_spec.specs.Section.{section_form};
ghost use Rattle.channel_spec.specs.Carried.{packets_sent};
ghost use Rattle.plan_spec.specs.Plan.{PlanFields, IntFields, rule_lists};
ghost use Rattle.plan_spec.specs.Valid.{is_plan};
ghost use Rattle.plan_spec.specs.Signalling.{table_of};
ghost use Rattle.int_spec.specs.Table.{EntryFields, table_bytes, IsWritable};
ghost use Rattle.int_spec.specs.Reading.{IsInt};
ghost use Rattle.plan_spec.specs.Changes.{versions};
ghost use Rattle.plan_spec.specs.Wholes.{is_whole_plan};
ghost use Rattle.plan_spec.specs.Offered.{datagrams as datagrams_of, offered_in};
ghost use Rattle.stream_spec.specs.Parts.{PartFields, int_packets};
ghost use Rattle.stream_spec.specs.Stream.{IsStream};
ghost use Rattle.plan_spec.specs.Bytes.{IsOfBytes, AreOfBytes};
ghost use Rattle.stream_law.specs.Words.{HaveMoments, packets_of_int, sections_of_int, IsByteDatagram, IsWithinLimits};

use crate::stream::records_have_moments;
use int_table::a_written_table_reads_back;
use section_codec::{a_written_section_reads_back, sections_are_lawful};
use ts_packet::{null_packet_is_read, written_packets_are_read};
use unit_stream::packetized_units_are_carried;

/// The INT of a plan can be written, and fits one section.
pub fn the_table_of_a_plan_can_be_written()
    ensures writable { (plan : PlanFields) (int : IntFields) → is_plan plan ≡ true → IsOfBytes plan → plan.table ≡ Some int
        → IsWritable (table_of plan int) }
{}

/// The packets of each cycle carry its section, and no other.
pub fn a_cycle_carries_the_table()
    ensures carried { (part : PartFields) (int : IntFields) → is_plan part.plan ≡ true → IsOfBytes part.plan → (cycle : ℕ)
        → (begin : ℕ → ℕ) × Packetizes section_form (table_bytes (table_of part.plan int) ∷ []) (int_packets part (Some int) cycle) begin }
{
    packetized_units_are_carried();
    sections_are_lawful();
    a_written_section_reads_back();
}

/// The readable packets of the INT's PID are those of each version's section, packetized in each cycle that its part begins.
pub fn a_table_goes_out_in_each_cycle()
    ensures sent { (plan : PlanFields) (int : IntFields) (datagrams : ℕ → ℕ → List (List ℕ)) (records : List (List ℕ)) → is_whole_plan plan ≡ true
        → plan.table ≡ Some int → (stream : IsStream plan datagrams records) → HaveMoments plan stream.slots
        → packets_sent int.pid (records_of plan.recording records) ≡ flat_map (packets_of_int plan datagrams stream.slots int) (versions plan) }
{
    written_packets_are_read();
    null_packet_is_read();
}

/// The stream carries the INT of each version, once in each cycle that its part begins.
pub fn a_stream_carries_the_table()
    ensures carries { (plan : PlanFields) (int : IntFields) → is_whole_plan plan ≡ true → AreOfBytes plan → plan.table ≡ Some int
        → (gives : List (Option (List ℕ))) → All IsByteDatagram (datagrams_of gives) → IsWithinLimits (datagrams_of gives)
        → (records : List (List ℕ)) (stream : IsStream plan (offered_in plan gives) records)
        → (begin : ℕ → ℕ) × Packetizes section_form (flat_map (sections_of_int plan stream.slots int) (versions plan))
        (packets_sent int.pid (records_of plan.recording records)) begin }
{
    records_have_moments();
    a_table_goes_out_in_each_cycle();
    a_cycle_carries_the_table();
    sections_are_lawful();
}

/// The section of the INT reads back to the table of the plan, whose entries have the rules by which datagrams are routed.
pub fn the_table_reads_back_to_the_rules()
    ensures read { (plan : PlanFields) (int : IntFields) → is_plan plan ≡ true → IsOfBytes plan → plan.table ≡ Some int
        → IsInt (table_bytes (table_of plan int)) (table_of plan int) }
    ensures rules { (plan : PlanFields) (int : IntFields) → map (λ (entry : EntryFields). entry.rules) (table_of plan int).entries ≡ rule_lists plan }
{
    the_table_of_a_plan_can_be_written();
    a_written_table_reads_back();
}
