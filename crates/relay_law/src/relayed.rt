//! From a relay's stream to what a second receiver delivers of it, on either carrier.
ghost use Rattle.std.specs.Prelude.{◌≡◌, ℕ, ◌<◌, List, length, true, false};
ghost use Rattle.wire_spec.specs.Lists.{IsSubsequence};
ghost use Rattle.pcap_file.specs.Capture.{capture_text};
ghost use Rattle.plan_spec.specs.Plan.{PlanFields, is_baseband};
ghost use Rattle.plan_spec.specs.Wholes.{is_whole_plan};
ghost use Rattle.stream_law.specs.Captures.{given_by};
ghost use Rattle.gse_spec.specs.Classes.{Class, datagrams_of_class};
ghost use Rattle.bb_reception_spec.specs.Delivered.{service_at};
ghost use Rattle.end_to_end_law.specs.Sent.{IsSent};
ghost use Rattle.end_to_end_law.specs.BbSent.{IsSentInFrames};
ghost use Rattle.recording_spec.specs.Pieces.{delivered_of};
ghost use Rattle.recording_spec.specs.Relayed.{relayed, as_records};
ghost use Rattle.recording_law.specs.Hop.{CarriesInPieces, IsRecordedInPieces, wanted_in};
ghost use Rattle.relay_law.specs.Relay.{IsRelay, reordered, KeepsOrder, ArrivesAgain, ArrivesMerged};

use bb_loss_law::{
    a_frame_stream_is_a_recording_of_itself, each_gse_service_delivers_what_arrived_intact,
};
use end_to_end_law::{
    all_of_a_capture_arrives_where_no_frame_is_lost,
    all_of_a_capture_arrives_where_nothing_is_lost, each_capture_is_sent_in_frames,
    each_class_of_a_capture_arrives_in_order, each_datagram_is_sent_in_a_pdu,
    what_arrives_of_a_capture, what_arrives_of_a_capture_in_frames,
    where_nothing_is_lost_a_stream_is_a_recording_of_itself,
};
use recording_law::{
    a_recording_delivers_its_services_merged, delivered_datagrams_are_datagrams,
    relayed_datagrams_are_a_capture, what_a_service_delivers_after_one_hop,
    what_is_offered_of_datagrams_are_some_of_them, what_one_service_delivers_is_relayed,
};
use stream_law::the_pids_of_a_service_have_all_datagrams;

/// A relay's stream is what is sent of the capture of all relayed datagrams. So all laws on what arrives of a capture hold of it.
pub fn a_relayed_stream_is_that_of_a_capture()
    ensures in_packets { (inner outer : PlanFields) (pieces stream : List (List ℕ)) → IsRelay inner outer pieces stream → is_baseband outer ≡ false
        → IsSent outer (capture_text (relayed inner pieces)) (relayed inner pieces) stream }
    ensures in_frames { (inner outer : PlanFields) (pieces stream : List (List ℕ)) → IsRelay inner outer pieces stream → is_baseband outer ≡ true
        → IsSentInFrames outer (capture_text (relayed inner pieces)) (relayed inner pieces) stream }
    ensures gives { (plan : PlanFields) (pieces : List (List ℕ)) → given_by (capture_text (relayed plan pieces)) (relayed plan pieces) ≡ as_records (relayed plan pieces) }
{
    delivered_datagrams_are_datagrams();
    relayed_datagrams_are_a_capture();
}

/// A stream is sent under one plan and recorded; what the recording delivers is sent under another plan, and this is recorded again.
///
/// Whatever became of the records or frames of the second stream on their way, what a service delivers of it is a subsequence of what its
/// filter wants of what was offered to it, in the order in which the stream carries it; so of each class it is a subsequence of that class of
/// all that the first recording delivered, and in packets or without urgent rules of all of it. Where nothing is lost it is all that was
/// offered and is wanted. Nothing is asked of the second stream but its channel, as that service has it. All that the first recording
/// delivered is merged of what each service of the first plan delivers, a subsequence of what its filter wants of what was sent to it. Where
/// the first plan has one service, what arrives in the end is a subsequence of that; of a service of the second plan with urgent rules, each
/// class of it.
pub fn what_arrives_of_a_relayed_stream()
    ensures second { (inner outer : PlanFields) (pieces stream : List (List ℕ)) → IsRelay inner outer pieces stream
        → (j : ℕ) → j < length outer.services → ArrivesAgain inner outer pieces stream j }
    ensures first { (inner : PlanFields) (sent pieces : List (List ℕ)) → is_whole_plan inner ≡ true → ArrivesMerged inner sent pieces }
    ensures alone { (inner outer : PlanFields) (sent carried : List (List ℕ)) (carries : CarriesInPieces inner 0 sent carried) (pieces stream again : List (List ℕ))
        → is_whole_plan inner ≡ true → length inner.services ≡ 1 → IsRecordedInPieces inner 0 sent carried carries pieces
        → (j : ℕ) → j < length outer.services → (onward : CarriesInPieces outer j stream (reordered inner outer pieces j))
        → IsRecordedInPieces outer j stream (reordered inner outer pieces j) onward again → KeepsOrder outer j
        → IsSubsequence (delivered_of outer j again) (wanted_in inner 0 sent carried carries) × IsSubsequence (delivered_of outer j again) carried }
    ensures alone_by_class { (inner outer : PlanFields) (sent carried : List (List ℕ)) (carries : CarriesInPieces inner 0 sent carried) (pieces stream again : List (List ℕ))
        → is_whole_plan inner ≡ true → length inner.services ≡ 1 → IsRecordedInPieces inner 0 sent carried carries pieces
        → IsRelay inner outer pieces stream → (j : ℕ) → j < length outer.services → (onward : CarriesInPieces outer j stream (reordered inner outer pieces j))
        → IsRecordedInPieces outer j stream (reordered inner outer pieces j) onward again → (class : Class)
        → IsSubsequence (datagrams_of_class (service_at outer j).urgent class (delivered_of outer j again))
        (datagrams_of_class (service_at outer j).urgent class (wanted_in inner 0 sent carried carries))
        × IsSubsequence (datagrams_of_class (service_at outer j).urgent class (delivered_of outer j again)) (datagrams_of_class (service_at outer j).urgent class carried) }
{
    a_relayed_stream_is_that_of_a_capture();
    what_arrives_of_a_capture();
    the_pids_of_a_service_have_all_datagrams();
    where_nothing_is_lost_a_stream_is_a_recording_of_itself();
    all_of_a_capture_arrives_where_nothing_is_lost();
    each_datagram_is_sent_in_a_pdu();
    each_class_of_a_capture_arrives_in_order();
    each_gse_service_delivers_what_arrived_intact();
    what_arrives_of_a_capture_in_frames();
    all_of_a_capture_arrives_where_no_frame_is_lost();
    each_capture_is_sent_in_frames();
    a_frame_stream_is_a_recording_of_itself();
    a_recording_delivers_its_services_merged();
    what_a_service_delivers_after_one_hop();
    what_is_offered_of_datagrams_are_some_of_them();
    what_one_service_delivers_is_relayed();
}
