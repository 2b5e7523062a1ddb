//! What a bridge's own pieces carry.
ghost use Rattle.std.specs.Prelude.{◌≡◌, ℕ, ◌≤◌, List, [], map, flat_map};
ghost use Rattle.wire_spec.specs.Lists.{joined, IsCut};
ghost use Rattle.ts_spec.specs.Recording.{plain, records_of};
ghost use Rattle.bridge_spec.specs.Frames.{BridgeCarrier, on_pid, on_isi, frame_of_sndu, frame_of_pdu, size_of_piece, received_ethernet_frames};
ghost use Rattle.bridge_spec.specs.Sending.{frames_to_carry, sndu_with_frame, pdu_with_frame, bridged_pieces};
ghost use Rattle.bridge_spec.specs.Carried.{CarriesOnPid, CarriesOnIsi};
ghost use Rattle.bridge_law.specs.Rooms.{HaveRoom};

use gse_law::{
    packed_frames_carry_the_datagrams, packed_frames_give_the_pdus, the_pdus_say_what_is_delivered,
};
use loss_law::a_recorded_stream_gives_its_units;
use ts_packet::written_packets_are_read;
use ule_unit::{a_written_sndu_reads_back, sndus_are_lawful, sndus_are_units};
use unit_stream::packetized_units_are_carried;

/// There is room for each frame that is carried.
pub fn frames_to_carry_have_room()
    ensures room { (carrier : BridgeCarrier) (captured : List (List ℕ)) → HaveRoom carrier (frames_to_carry carrier captured) }
{}

/// The packets that a bridge writes carry its frames, and a receiver of all of them has these back: the premise of the law on SNDUs is met by
/// what is sent.
pub fn bridged_frames_are_carried_in_sndus()
    ensures each { (pid : ℕ) (frames : List (List ℕ)) → HaveRoom (on_pid pid) frames → flat_map frame_of_sndu (map sndu_with_frame frames) ≡ frames }
    ensures carried { (pid : ℕ) (frames : List (List ℕ)) → pid ≤ 8191 → HaveRoom (on_pid pid) frames
        → CarriesOnPid pid (records_of plain (bridged_pieces (on_pid pid) frames)) frames }
    ensures back { (pid : ℕ) (frames : List (List ℕ)) → pid ≤ 8191 → HaveRoom (on_pid pid) frames
        → received_ethernet_frames (on_pid pid) (bridged_pieces (on_pid pid) frames) ≡ frames }
{
    a_recorded_stream_gives_its_units();
    a_written_sndu_reads_back();
    sndus_are_units();
    sndus_are_lawful();
    packetized_units_are_carried();
    written_packets_are_read();
}

/// The baseband frames that a bridge writes carry its frames, and a receiver of all of them has these back.
pub fn bridged_frames_are_carried_in_pdus()
    ensures each { (isi : ℕ) (frames : List (List ℕ)) → HaveRoom (on_isi isi) frames → flat_map frame_of_pdu (map pdu_with_frame frames) ≡ frames }
    ensures carried { (isi : ℕ) (frames : List (List ℕ)) → HaveRoom (on_isi isi) frames → CarriesOnIsi isi (bridged_pieces (on_isi isi) frames) frames }
    ensures back { (isi : ℕ) (frames : List (List ℕ)) → HaveRoom (on_isi isi) frames
        → received_ethernet_frames (on_isi isi) (bridged_pieces (on_isi isi) frames) ≡ frames }
{
    packed_frames_carry_the_datagrams();
    packed_frames_give_the_pdus();
    the_pdus_say_what_is_delivered();
}

/// The bytes that a bridge writes are cut into its pieces again, packets of 188 bytes or baseband frames of 2,000, and nothing is left: so who
/// receives all of them has the pieces that carry its frames.
pub fn a_bridged_stream_is_cut_into_its_pieces()
    ensures cut { (carrier : BridgeCarrier) (frames : List (List ℕ)) → HaveRoom carrier frames
        → IsCut (size_of_piece carrier) (joined (bridged_pieces carrier frames)) (bridged_pieces carrier frames) [] }
{}
