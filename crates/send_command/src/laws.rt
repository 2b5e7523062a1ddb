//! Laws of what is sent.
ghost use Rattle.std.specs.Prelude.{◌≡◌, ℕ, true, List, Option, None};
ghost use Rattle.pcap_file.specs.Told.{Tells};
ghost use Rattle.pcap_file.specs.declared.faults.CaptureFault.{CaptureFault};
ghost use Rattle.plan_spec.specs.Plan.{PlanFields};
ghost use Rattle.capture_intake.specs.Ends.{is_done, is_whole};
ghost use Rattle.capture_intake.specs.declared.ends.CaptureEnd.{CaptureEnd};
ghost use Rattle.send_command.specs.Sending.{IsSendOf, Sends};
ghost use Rattle.send_command.specs.declared.ends.Tally.{Tally};

use carrier_law::there_is_one_sent_stream;
use pcap_file::a_capture_tells_one_thing;

/// There is one send of a capture, and that of a capture without fault ends Done where its whole stream was written.
pub fn a_capture_is_sent_in_one_way()
    ensures one { (plan : PlanFields) (bytes : List ℕ) (captured others : List (List ℕ)) (fault other : Option CaptureFault) (stream another : List (List ℕ))
        → IsSendOf plan bytes captured fault stream → IsSendOf plan bytes others other another → (captured ≡ others) × (fault ≡ other) × (stream ≡ another) }
    ensures done { (plan : PlanFields) (bytes : List ℕ) (captured : List (List ℕ)) (end : CaptureEnd Tally) (old new : Option (List ℕ))
        → Sends plan bytes end old new → Tells bytes captured None → is_whole end ≡ true → is_done end ≡ true }
{
    a_capture_tells_one_thing();
    there_is_one_sent_stream();
}
