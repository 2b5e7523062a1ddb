//! Captures: what they give is carried.
ghost use Rattle.std.specs.Prelude.{◌≡◌, ℕ, List, Option, true, All};
ghost use Rattle.wire_spec.specs.Bytes.{AreBytes};
ghost use Rattle.ts_spec.specs.Recording.{records_of};
ghost use Rattle.pcap_file.specs.Told.{Tells};
ghost use Rattle.pcap_file.specs.declared.faults.CaptureFault.{CaptureFault};
ghost use Rattle.plan_spec.specs.Plan.{PlanFields};
ghost use Rattle.plan_spec.specs.Wholes.{is_whole_plan};
ghost use Rattle.plan_spec.specs.Offered.{datagrams as datagrams_of, offered_in};
ghost use Rattle.stream_spec.specs.Stream.{IsStream};
ghost use Rattle.stream_spec.specs.Services.{datagrams_on, Carries};
ghost use Rattle.plan_spec.specs.Bytes.{AreOfBytes};
ghost use Rattle.stream_law.specs.Words.{IsByteDatagram, IsWithinLimits};
ghost use Rattle.stream_law.specs.Times.{AreTimedOverPids};
ghost use Rattle.stream_law.specs.Captures.{given_by};

use crate::carried::a_stream_carries_what_was_offered;
use ip_datagram::a_front_is_one_datagram;

/// A capture of bytes has records of bytes.
pub fn a_capture_of_bytes_has_records_of_bytes()
    ensures bytes { (capture : List ℕ) (told : List (List ℕ)) (fault : Option CaptureFault) → AreBytes capture → Tells capture told fault → All AreBytes told }
{}

/// A capture whose records are bytes gives datagrams of bytes, no more than its limits.
pub fn a_capture_gives_datagrams()
    ensures are { (capture : List ℕ) (told : List (List ℕ)) (fault : Option CaptureFault) → All AreBytes told → Tells capture told fault
        → All IsByteDatagram (datagrams_of (given_by capture told)) }
    ensures limits { (capture : List ℕ) (told : List (List ℕ)) (fault : Option CaptureFault) → All AreBytes told → Tells capture told fault
        → IsWithinLimits (datagrams_of (given_by capture told)) }
{
    a_front_is_one_datagram();
}

/// For all settings that are accepted, without GSE packets, and all captures whose records are bytes:
/// the stream carries what was offered, by service and PID, and frames are timed over all PIDs of a service.
pub fn a_capture_is_carried()
    ensures carries { (plan : PlanFields) → is_whole_plan plan ≡ true → AreOfBytes plan
        → (capture : List ℕ) (told : List (List ℕ)) (fault : Option CaptureFault) → All AreBytes told → Tells capture told fault
        → (records : List (List ℕ)) → IsStream plan (offered_in plan (given_by capture told)) records
        → (carries : Carries plan (records_of plan.recording records) (datagrams_on plan (offered_in plan (given_by capture told))))
        × AreTimedOverPids plan (records_of plan.recording records) (datagrams_on plan (offered_in plan (given_by capture told))) carries }
{
    a_capture_gives_datagrams();
    a_stream_carries_what_was_offered();
}
