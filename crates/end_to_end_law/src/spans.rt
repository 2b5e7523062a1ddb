//! From a capture to what each service delivers of it over its spans, of which it has one on each of its PIDs.
ghost use Rattle.std.specs.Prelude.{◌≡◌, ℕ, ◌<◌, ◌≤◌, List, [], length, filter, Contains, true, Some};
ghost use Rattle.ts_spec.specs.Recording.{Record};
ghost use Rattle.ts_spec.specs.Received.{Arrival, arrivals};
ghost use Rattle.plan_spec.specs.Plan.{PlanFields, pid_of};
ghost use Rattle.plan_spec.specs.Offered.{offered_in_all};
ghost use Rattle.stream_spec.specs.Services.{kind_at, IsPidOf, Carries};
ghost use Rattle.stream_spec.specs.Standing.{IsInPart};
ghost use Rattle.stream_law.specs.Words.{records_before};
ghost use Rattle.stream_law.specs.Captures.{given_by};
ghost use Rattle.reception_spec.specs.Spans.{version_at_place, is_heard_on};
ghost use Rattle.reception_spec.specs.Delivered.{delivered_of};
ghost use Rattle.loss_law.specs.Loss.{service_at, CarriesFor, carries_for};
ghost use Rattle.loss_law.specs.Spans.{IsRecordedFor};
ghost use Rattle.end_to_end_law.specs.Units.{wants_datagram};
ghost use Rattle.end_to_end_law.specs.Sent.{offered_on, IsSent, sent_records, SendsOneUnitEach, DeliversOffered};
ghost use Rattle.end_to_end_law.specs.Spans.{DeliversOfSpans};

use crate::datagrams::{a_unit_gives_its_datagram, each_datagram_is_sent_in_a_unit};
use int_table::a_table_is_told_by_its_bytes;
use loss_law::where_each_packet_is_heard_all_is_delivered;
use stream_law::{
    a_capture_gives_datagrams, a_cycle_carries_the_table, a_stream_stands_in_parts,
    records_have_moments, the_pids_of_a_service_have_all_datagrams,
    the_table_reads_back_to_the_rules,
};
use ts_packet::{null_packet_is_read, written_packets_are_read};

/// However records of the stream of a capture are dropped, repeated or damaged, those of others inserted, and their stamps changed, if no
/// damaged or spliced unit of a service passes its check in the span of its PID:
/// the service delivers over its spans wanted datagrams that were offered to it in all versions, unchanged, in order and each once,
/// with each whose unit arrived intact in a span.
///
/// A service of MPE-FEC frames delivers frame by frame what is recovered, if without time slicing sections are accepted often, and with it
/// accepted sections come at times that separate the frames: at least the datagrams that came in sections of their own, and all where each
/// row has at most 64 bytes that the sections that arrived intact do not tell.
pub fn what_arrives_of_a_capture()
    ensures arrives { (plan : PlanFields) (capture : List ℕ) (told records : List (List ℕ)) → IsSent plan capture told records
        → (carries : Carries plan (sent_records plan records) (offered_on plan capture told))
        × SendsOneUnitEach plan (sent_records plan records) (offered_on plan capture told) carries
        × ((k : ℕ) → k < length plan.services → (recorded : List Record)
        (is_recorded : IsRecordedFor plan k (sent_records plan records) (offered_on plan capture told k) (carries_for carries k) recorded)
        → DeliversOfSpans plan k (sent_records plan records) (offered_on plan capture told k) (carries_for carries k) recorded is_recorded
        (offered_in_all plan (given_by capture told) k) (delivered_of plan k recorded)) }
{
    each_datagram_is_sent_in_a_unit();
    a_capture_gives_datagrams();
    a_unit_gives_its_datagram();
    the_pids_of_a_service_have_all_datagrams();
}

/// Of a stream that was recorded as it was sent the version in force at each packet of a service is that of the part in which the packet stands;
/// so the packet stands in the span of its PID.
pub fn where_nothing_is_lost_each_packet_is_heard()
    ensures version { (plan : PlanFields) (capture : List ℕ) (told records : List (List ℕ)) (sent : IsSent plan capture told records)
        → (k pid : ℕ) (a : Arrival) → IsPidOf plan k pid → Contains (arrivals pid (sent_records plan records)) a
        → (version : ℕ) → version ≤ length plan.changes → IsInPart (records_before sent.stream.slots) version a.place
        → version_at_place plan (sent_records plan records) a.place ≡ version }
    ensures heard { (plan : PlanFields) (capture : List ℕ) (told records : List (List ℕ)) → IsSent plan capture told records
        → (k pid : ℕ) (a : Arrival) → IsPidOf plan k pid → Contains (arrivals pid (sent_records plan records)) a
        → is_heard_on plan (sent_records plan records) k pid a.place ≡ true }
{
    a_capture_gives_datagrams();
    records_have_moments();
    a_stream_stands_in_parts();
    written_packets_are_read();
    null_packet_is_read();
    a_cycle_carries_the_table();
    the_table_reads_back_to_the_rules();
    a_table_is_told_by_its_bytes();
}

/// A stream that was recorded as it was sent is a recording of what was sent in spans: it came through a channel without undetected errors,
/// sections of frames without time slicing are accepted often, and with it moments are as they were. So it meets all that is asked of a recording.
pub fn where_nothing_is_lost_a_stream_is_a_recording_of_itself()
    ensures recorded { (plan : PlanFields) (capture : List ℕ) (told records : List (List ℕ)) → IsSent plan capture told records
        → (carries : Carries plan (sent_records plan records) (offered_on plan capture told)) (k : ℕ)
        → IsRecordedFor plan k (sent_records plan records) (offered_on plan capture told k) (carries_for carries k) (sent_records plan records) }
{
    where_each_packet_is_heard_all_is_delivered();
    where_nothing_is_lost_each_packet_is_heard();
}

/// Of a stream that was recorded as it was sent each service delivers over its spans all wanted datagrams that were offered to it in all
/// versions, in order and each once.
pub fn all_of_a_capture_arrives_where_nothing_is_lost()
    ensures wanted { (plan : PlanFields) (capture : List ℕ) (told records : List (List ℕ)) → IsSent plan capture told records
        → (k : ℕ) → k < length plan.services → delivered_of plan k (sent_records plan records)
        ≡ filter (wants_datagram (service_at plan k)) (offered_in_all plan (given_by capture told) k) }
{
    each_datagram_is_sent_in_a_unit();
    a_capture_gives_datagrams();
    a_unit_gives_its_datagram();
    the_pids_of_a_service_have_all_datagrams();
    where_nothing_is_lost_each_packet_is_heard();
}

/// Under a plan that nothing changes a service delivers so on its one PID, of the whole recording.
pub fn without_changes_a_service_delivers_of_the_whole_recording()
    ensures delivers { (plan : PlanFields) (k : ℕ) (sent : List Record) (datagrams : ℕ → List (List ℕ)) (carries : CarriesFor plan k sent datagrams)
        → (recorded : List Record) (is_recorded : IsRecordedFor plan k sent datagrams carries recorded) → plan.changes ≡ []
        → (pid : ℕ) (own : IsPidOf plan k pid) → pid_of (kind_at plan k) ≡ Some pid → (offered delivered : List (List ℕ))
        → DeliversOfSpans plan k sent datagrams carries recorded is_recorded offered delivered
        → DeliversOffered (kind_at plan k) plan.recording (carries.before pid) (carries.units pid) (carries.moments pid) (datagrams pid) (carries.carried pid own)
        is_recorded.channel recorded (service_at plan k) pid (carries.begin pid) delivered }
{}
