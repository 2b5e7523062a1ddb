//! Settings and captures: of each there is a stream, in transport packets or in baseband frames.
ghost use Rattle.std.specs.Prelude.{◌≡◌, ℕ, List, Option, true};
ghost use Rattle.wire_spec.specs.Bytes.{AreBytes};
ghost use Rattle.pcap_file.specs.Told.{Tells};
ghost use Rattle.pcap_file.specs.declared.faults.CaptureFault.{CaptureFault};
ghost use Rattle.plan_spec.specs.Plan.{PlanFields, is_baseband};
ghost use Rattle.plan_spec.specs.Offered.{offered_in_all};
ghost use Rattle.stream_law.specs.Captures.{given_by};
ghost use Rattle.settings_spec.specs.Refusal.{IsAccepted};
ghost use Rattle.carrier_spec.specs.Stream.{IsSentStream};
ghost use Rattle.end_to_end_law.specs.Sent.{offered_by};
ghost use Rattle.end_to_end_law.specs.BbSent.{IsSentInFrames, offered_to};

use crate::settings::each_capture_tells_records;
use bb_stream_law::there_is_one_baseband_stream;
use carrier_law::there_is_one_sent_stream;
use pcap_file::a_capture_tells_one_thing;
use settings_law::{accepted_settings_give_a_plan, accepted_settings_give_bytes};
use stream_law::a_capture_of_bytes_has_records_of_bytes;

/// For all settings that are accepted and all captures there is a stream, in transport packets or in baseband frames as the settings say,
/// of the records that the capture tells.
pub fn each_capture_has_a_stream()
    ensures is { (settings : List ℕ) (plan : PlanFields) → IsAccepted settings plan → (capture : List ℕ) → (told : List (List ℕ)) × (fault : Option CaptureFault)
        × Tells capture told fault × ((pieces : List (List ℕ)) × IsSentStream plan (offered_by plan capture told) pieces) }
{
    each_capture_tells_records();
    accepted_settings_give_a_plan();
    there_is_one_sent_stream();
}

/// For all settings with baseband frames that are accepted, and all captures there is a stream of frames, and one alone.
pub fn each_capture_is_sent_in_frames()
    ensures is { (settings : List ℕ) (plan : PlanFields) → IsAccepted settings plan → is_baseband plan ≡ true
        → (capture : List ℕ) → AreBytes capture → (told frames : List (List ℕ)) × IsSentInFrames plan capture told frames }
    ensures one { (plan : PlanFields) (capture : List ℕ) (told others a b : List (List ℕ)) → IsSentInFrames plan capture told a
        → IsSentInFrames plan capture others b → (told ≡ others) × (a ≡ b) }
    ensures all { (plan : PlanFields) (capture : List ℕ) (told frames : List (List ℕ)) → IsSentInFrames plan capture told frames
        → (k : ℕ) → offered_to plan capture told k ≡ offered_in_all plan (given_by capture told) k }
{
    each_capture_tells_records();
    a_capture_of_bytes_has_records_of_bytes();
    a_capture_tells_one_thing();
    accepted_settings_give_a_plan();
    accepted_settings_give_bytes();
    there_is_one_baseband_stream();
}
