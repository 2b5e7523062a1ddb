//! A run of `send` and a run of `receive`.
ghost use Rattle.std.specs.Prelude.{◌≡◌, ℕ, true, false, List};
ghost use Rattle.wire_spec.specs.Content.{File};
ghost use Rattle.plan_spec.specs.Plan.{PlanFields, is_baseband};
ghost use Rattle.settings_load.specs.Settings.{IsAcceptedFile};
ghost use Rattle.end_to_end_law.specs.Bytes.{DeliversOfBytes};
ghost use Rattle.end_to_end_law.specs.BbBytes.{DeliversOfFrames};
ghost use Rattle.two_runs_law.specs.Sent.{AreSentBytes, AreSentBytesOfFrames};
ghost use Rattle.two_runs_law.specs.Runs.{IsSendRun, IsReceiveRun, AreCapturesOf};
ghost use Rattle.two_runs_law.specs.Arrives.{ArrivesInPackets, ArrivesInFrames, ArrivesOfSend};

use crate::sent::what_is_delivered_of_sent_bytes;
use settings_law::{accepted_settings_give_a_plan, accepted_settings_give_bytes};

/// The settings of a `send` that ended Done or Capture give a plan, and under it the bytes that it put out are those of what is sent of its
/// capture.
pub fn what_a_send_puts_out()
    ensures gives { (settings capture bytes : List ℕ) → IsSendRun settings capture bytes → (plan : PlanFields) × IsAcceptedFile settings plan }
    ensures packets { (settings capture bytes : List ℕ) → IsSendRun settings capture bytes → (plan : PlanFields) → IsAcceptedFile settings plan
        → is_baseband plan ≡ false → (told : List (List ℕ)) × AreSentBytes plan capture told bytes }
    ensures frames { (settings capture bytes : List ℕ) → IsSendRun settings capture bytes → (plan : PlanFields) → IsAcceptedFile settings plan
        → is_baseband plan ≡ true → (told : List (List ℕ)) × AreSentBytesOfFrames plan capture told bytes }
{
    accepted_settings_give_a_plan();
    accepted_settings_give_bytes();
}

/// The settings of a `receive` that ended Done give a plan, and the files that it added are the captures of what each service delivers of its
/// recording.
pub fn what_a_receive_adds()
    ensures gives { (settings recording : List ℕ) (files : List File) → IsReceiveRun settings recording files → (plan : PlanFields) × IsAcceptedFile settings plan }
    ensures packets { (settings recording : List ℕ) (files : List File) → IsReceiveRun settings recording files → (plan : PlanFields) → IsAcceptedFile settings plan
        → is_baseband plan ≡ false → (delivered : ℕ → List (List ℕ)) × DeliversOfBytes plan recording delivered × AreCapturesOf plan delivered files }
    ensures frames { (settings recording : List ℕ) (files : List File) → IsReceiveRun settings recording files → (plan : PlanFields) → IsAcceptedFile settings plan
        → is_baseband plan ≡ true → (delivered : ℕ → List (List ℕ)) × DeliversOfFrames plan recording delivered × AreCapturesOf plan delivered files }
{}

/// What the files of a `receive` have of bytes that were sent of a capture under its settings, whoever sent them.
pub fn what_arrives_of_sent_bytes()
    ensures packets { (settings recording : List ℕ) (files : List File) → IsReceiveRun settings recording files → (plan : PlanFields) → IsAcceptedFile settings plan
        → is_baseband plan ≡ false → (capture : List ℕ) (told : List (List ℕ)) (bytes : List ℕ) (is : AreSentBytes plan capture told bytes)
        → ArrivesInPackets plan capture told bytes is recording files }
    ensures frames { (settings recording : List ℕ) (files : List File) → IsReceiveRun settings recording files → (plan : PlanFields) → IsAcceptedFile settings plan
        → is_baseband plan ≡ true → (capture : List ℕ) (told : List (List ℕ)) (bytes : List ℕ) (is : AreSentBytesOfFrames plan capture told bytes)
        → ArrivesInFrames plan capture told bytes is recording files }
{
    what_a_receive_adds();
    what_is_delivered_of_sent_bytes();
}

/// What the files of a `receive` have of the capture of a `send` with the same settings.
///
/// Whatever became of the records or frames on their way, they have what the loss law and the law on intact units say of the datagrams of the
/// capture; where nothing became of them, all that the capture offers and the services want. Input, output, rack and settings must be known:
/// over a pipe, which tells nothing, no run is one of these.
pub fn what_arrives_of_a_send()
    ensures arrives { (settings capture bytes recording : List ℕ) (files : List File) → IsSendRun settings capture bytes → IsReceiveRun settings recording files
        → ArrivesOfSend settings capture bytes recording files }
{
    what_a_send_puts_out();
    what_arrives_of_sent_bytes();
}
