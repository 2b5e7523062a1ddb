//! Datagrams: the stream carries what was offered.
ghost use Rattle.std.specs.Prelude.{◌≡◌, ℕ, ◌<◌, List, length, flat_map, Option, Some, true, All};
ghost use Rattle.ts_spec.specs.Recording.{records_of};
ghost use Rattle.plan_spec.specs.Plan.{PlanFields, pid_of};
ghost use Rattle.plan_spec.specs.Changes.{pids_in, versions};
ghost use Rattle.plan_spec.specs.Wholes.{is_whole_plan};
ghost use Rattle.plan_spec.specs.Offered.{datagrams as datagrams_of, offered_in};
ghost use Rattle.stream_spec.specs.Stream.{IsStream};
ghost use Rattle.stream_spec.specs.Services.{kind_at, datagrams_on, Carries};
ghost use Rattle.plan_spec.specs.Bytes.{AreOfBytes};
ghost use Rattle.stream_law.specs.Words.{IsByteDatagram, IsWithinLimits};
ghost use Rattle.stream_law.specs.Times.{AreTimedOverPids};

use crate::stream::{records_have_moments, the_packets_of_a_service_are_on_its_pid};
use fec_sent_law::{
    a_frame_of_datagrams_is_one, a_unit_reads_as_its_section, frames_carry_their_datagrams,
};
use mpe_section::{a_written_datagram_section_reads_back, an_address_or_parameters_can_be_written};
use section_codec::sections_are_lawful;
use ts_packet::{null_packet_is_read, written_packets_are_read};
use ule_unit::{a_written_sndu_reads_back, sndus_are_lawful, sndus_are_units};
use unit_stream::packetized_units_are_carried;

/// The stream of a plan carries what was offered, by service and PID: in SNDUs, in datagram_sections, or in MPE-FEC frames. Over all PIDs of a
/// service its frames are numbered from 0 on; or with time slicing delta_t says when the next burst begins, on whatever PID, and is 0 in the
/// last one alone.
///
/// For all settings that are accepted, without GSE packets, all that a capture can give, and each form of recording.
pub fn a_stream_carries_what_was_offered()
    ensures carries { (plan : PlanFields) → is_whole_plan plan ≡ true → AreOfBytes plan
        → (gives : List (Option (List ℕ))) → All IsByteDatagram (datagrams_of gives) → IsWithinLimits (datagrams_of gives)
        → (records : List (List ℕ)) → IsStream plan (offered_in plan gives) records
        → (carries : Carries plan (records_of plan.recording records) (datagrams_on plan (offered_in plan gives)))
        × AreTimedOverPids plan (records_of plan.recording records) (datagrams_on plan (offered_in plan gives)) carries }
{
    records_have_moments();
    the_packets_of_a_service_are_on_its_pid();
    packetized_units_are_carried();
    sndus_are_lawful();
    sndus_are_units();
    a_written_sndu_reads_back();
    sections_are_lawful();
    a_written_datagram_section_reads_back();
    an_address_or_parameters_can_be_written();
    frames_carry_their_datagrams();
    a_frame_of_datagrams_is_one();
    a_unit_reads_as_its_section();
    written_packets_are_read();
    null_packet_is_read();
}

/// The datagrams on the PIDs of a service, one PID after another, are those of all versions.
pub fn the_pids_of_a_service_have_all_datagrams()
    ensures all { (plan : PlanFields) (datagrams : ℕ → ℕ → List (List ℕ)) (k pid : ℕ) → is_whole_plan plan ≡ true → k < length plan.services
        → pid_of (kind_at plan k) ≡ Some pid
        → flat_map (datagrams_on plan datagrams k) (pids_in plan k) ≡ flat_map (λ version. datagrams version k) (versions plan) }
{}
