//! Streams: what is sent on the PID of each service.
ghost use Rattle.std.specs.Prelude.{◌≡◌, ℕ, List, [], ◌∷◌, flat_map, true, All, Option, length};
ghost use Rattle.wire_spec.specs.Lists.{joined, IsCut};
ghost use Rattle.ts_spec.specs.Recording.{record_size, records_of};
ghost use Rattle.channel_spec.specs.Carried.{packets_sent};
ghost use Rattle.plan_spec.specs.Plan.{PlanFields};
ghost use Rattle.plan_spec.specs.Changes.{versions};
ghost use Rattle.plan_spec.specs.Wholes.{is_whole_plan};
ghost use Rattle.plan_spec.specs.Offered.{datagrams as datagrams_of, offered_in};
ghost use Rattle.stream_spec.specs.Slots.{IsSlotCount};
ghost use Rattle.stream_spec.specs.Parts.{slot_in, records_of_slots};
ghost use Rattle.stream_spec.specs.Services.{IsPidOf};
ghost use Rattle.stream_spec.specs.Stream.{are_on_pids, IsStream};
ghost use Rattle.plan_spec.specs.Bytes.{AreOfBytes};
ghost use Rattle.stream_law.specs.Words.{HaveMoments, FitsWindow, packets_on, only_part, IsByteDatagram, IsWithinLimits};

use ts_packet::{null_packet_is_read, written_packets_are_read};

/// Of services on PIDs there is a stream, and one alone.
pub fn there_is_one_stream()
    ensures is { (plan : PlanFields) (datagrams : ℕ → ℕ → List (List ℕ)) → is_whole_plan plan ≡ true → are_on_pids plan ≡ true
        → (records : List (List ℕ)) × IsStream plan datagrams records }
    ensures one { (plan : PlanFields) (datagrams : ℕ → ℕ → List (List ℕ)) (a b : List (List ℕ))
        → IsStream plan datagrams a → IsStream plan datagrams b → a ≡ b }
{}

/// Without changes a stream is one part, which ends with its last packet of a service.
pub fn without_changes_a_stream_has_one_part()
    ensures count { (plan : PlanFields) (datagrams : ℕ → ℕ → List (List ℕ)) (records : List (List ℕ)) → plan.version ≡ 0 → plan.changes ≡ []
        → (stream : IsStream plan datagrams records) → IsSlotCount (slot_in (only_part plan (datagrams 0))) (stream.slots 0) }
    ensures records { (plan : PlanFields) (datagrams : ℕ → ℕ → List (List ℕ)) (records : List (List ℕ)) → plan.version ≡ 0 → plan.changes ≡ []
        → (stream : IsStream plan datagrams records) → records ≡ records_of_slots (only_part plan (datagrams 0)) (stream.slots 0) }
{}

/// Each record of the stream of a capture has a moment.
pub fn records_have_moments()
    ensures moments { (plan : PlanFields) → is_whole_plan plan ≡ true → AreOfBytes plan
        → (gives : List (Option (List ℕ))) → All IsByteDatagram (datagrams_of gives) → IsWithinLimits (datagrams_of gives)
        → (records : List (List ℕ)) (stream : IsStream plan (offered_in plan gives) records) → HaveMoments plan stream.slots }
{}

/// The readable packets of a service's PID are the packets of the service in the versions that give it this PID, all of them in order,
/// where no burst of it is longer than its window.
pub fn the_packets_of_a_service_are_on_its_pid()
    ensures sent { (plan : PlanFields) (datagrams : ℕ → ℕ → List (List ℕ)) (records : List (List ℕ)) → is_whole_plan plan ≡ true
        → (stream : IsStream plan datagrams records) → HaveMoments plan stream.slots → (k pid : ℕ) → IsPidOf plan k pid → FitsWindow plan datagrams k
        → packets_sent pid (records_of plan.recording records) ≡ flat_map (packets_on plan datagrams stream.slots k pid) (versions plan) }
{
    written_packets_are_read();
    null_packet_is_read();
}

/// The bytes of a stream are cut into its records, and nothing is left after them.
pub fn a_stream_is_cut_into_its_records()
    ensures cut { (plan : PlanFields) (datagrams : ℕ → ℕ → List (List ℕ)) (records : List (List ℕ)) → IsStream plan datagrams records
        → IsCut (record_size plan.recording) (joined records) records [] }
{}
