//! Parts: the packets of a stream stand in the parts of their versions.
ghost use Rattle.std.specs.Prelude.{◌≡◌, ℕ, List, Option, true, All};
ghost use Rattle.ts_spec.specs.Recording.{records_of};
ghost use Rattle.plan_spec.specs.Plan.{PlanFields};
ghost use Rattle.plan_spec.specs.Wholes.{is_whole_plan};
ghost use Rattle.plan_spec.specs.Offered.{datagrams as datagrams_of, offered_in};
ghost use Rattle.stream_spec.specs.Stream.{IsStream};
ghost use Rattle.stream_spec.specs.Standing.{StandInParts};
ghost use Rattle.plan_spec.specs.Bytes.{AreOfBytes};
ghost use Rattle.stream_law.specs.Words.{records_before, IsByteDatagram, IsWithinLimits};

use crate::stream::{records_have_moments, the_packets_of_a_service_are_on_its_pid};
use crate::table::{a_cycle_carries_the_table, the_table_reads_back_to_the_rules};
use int_table::a_table_is_told_by_its_bytes;
use section_codec::sections_are_lawful;
use ts_packet::{null_packet_is_read, written_packets_are_read};

/// All packets of the stream stand in the part of a version that has their PID, and each INT in that of its version.
pub fn a_stream_stands_in_parts()
    ensures stands { (plan : PlanFields) → is_whole_plan plan ≡ true → AreOfBytes plan
        → (gives : List (Option (List ℕ))) → All IsByteDatagram (datagrams_of gives) → IsWithinLimits (datagrams_of gives)
        → (records : List (List ℕ)) (stream : IsStream plan (offered_in plan gives) records)
        → StandInParts plan (records_of plan.recording records) (records_before stream.slots) }
{
    records_have_moments();
    written_packets_are_read();
    null_packet_is_read();
    a_cycle_carries_the_table();
    sections_are_lawful();
    the_table_reads_back_to_the_rules();
    a_table_is_told_by_its_bytes();
}
