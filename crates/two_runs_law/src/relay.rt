//! A run of `relay` between two others.
ghost use Rattle.std.specs.Prelude.{◌≡◌, ℕ, true, false, List};
ghost use Rattle.wire_spec.specs.Lists.{joined, IsCut};
ghost use Rattle.wire_spec.specs.Content.{File};
ghost use Rattle.plan_spec.specs.Plan.{PlanFields, is_baseband};
ghost use Rattle.carrier_spec.specs.Stream.{piece_size};
ghost use Rattle.pcap_file.specs.Capture.{capture_text};
ghost use Rattle.recording_spec.specs.Relayed.{relayed};
ghost use Rattle.settings_load.specs.Settings.{IsAcceptedFile};
ghost use Rattle.two_runs_law.specs.Sent.{AreSentBytes, AreSentBytesOfFrames};
ghost use Rattle.two_runs_law.specs.Runs.{IsSendRun, IsRelayRun, IsReceiveRun};
ghost use Rattle.two_runs_law.specs.Arrives.{ArrivesOverRelay};

use crate::runs::{what_a_send_puts_out, what_arrives_of_sent_bytes};
use crate::sent::what_is_delivered_of_sent_bytes;
use recording_law::a_recording_delivers_its_services_merged;
use relay_law::{a_relayed_stream_is_that_of_a_capture, accepted_settings_make_a_relay};
use settings_law::accepted_settings_give_a_plan;
use ts_record::cuts_are_unique;

/// Both settings of a `relay` that ended Done give plans, and under them the bytes that it put out are those of what is sent of a capture of
/// all datagrams that its recording delivers. The recording is cut into these pieces.
pub fn what_a_relay_puts_out()
    ensures gives { (inner_settings outer_settings recording bytes : List ℕ) → IsRelayRun inner_settings outer_settings recording bytes
        → ((plan : PlanFields) × IsAcceptedFile inner_settings plan) × ((plan : PlanFields) × IsAcceptedFile outer_settings plan) }
    ensures packets { (inner_settings outer_settings recording bytes : List ℕ) → IsRelayRun inner_settings outer_settings recording bytes
        → (inner outer : PlanFields) → IsAcceptedFile inner_settings inner → IsAcceptedFile outer_settings outer
        → (pieces : List (List ℕ)) (tail : List ℕ) → IsCut (piece_size inner) recording pieces tail → is_baseband outer ≡ false
        → AreSentBytes outer (capture_text (relayed inner pieces)) (relayed inner pieces) bytes }
    ensures frames { (inner_settings outer_settings recording bytes : List ℕ) → IsRelayRun inner_settings outer_settings recording bytes
        → (inner outer : PlanFields) → IsAcceptedFile inner_settings inner → IsAcceptedFile outer_settings outer
        → (pieces : List (List ℕ)) (tail : List ℕ) → IsCut (piece_size inner) recording pieces tail → is_baseband outer ≡ true
        → AreSentBytesOfFrames outer (capture_text (relayed inner pieces)) (relayed inner pieces) bytes }
{
    a_relayed_stream_is_that_of_a_capture();
    accepted_settings_make_a_relay();
    cuts_are_unique();
}

/// What the files of a `receive` have of the capture of a `send`, with a `relay` between: its inner settings are those of the first, and its
/// outer ones those of the last.
///
/// The relayed datagrams are those of each inner service in order, merged, and of each the loss law and the law on intact units hold; of the
/// relayed datagrams they hold again.
pub fn what_arrives_over_a_relay()
    ensures arrives { (inner_settings outer_settings capture bytes recording onward again : List ℕ) (files : List File) → IsSendRun inner_settings capture bytes
        → IsRelayRun inner_settings outer_settings recording onward → IsReceiveRun outer_settings again files
        → ArrivesOverRelay inner_settings outer_settings capture bytes recording onward again files }
{
    what_a_send_puts_out();
    what_a_relay_puts_out();
    what_is_delivered_of_sent_bytes();
    what_arrives_of_sent_bytes();
    a_recording_delivers_its_services_merged();
    accepted_settings_give_a_plan();
}
