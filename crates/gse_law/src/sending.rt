//! What is written is read, and the sender's frames carry the datagrams of its services.

ghost use Rattle.std.specs.Prelude.{◌≡◌, ℕ, ◌+◌, ◌-◌, ◌≤◌, Bool, true, false, List, [], length, map, flat_map, All, AllPairs, Contains, None};
ghost use Rattle.wire_spec.specs.Crc.{crc32_remainder};
ghost use Rattle.wire_spec.specs.Datagram.{IsDatagram};
ghost use Rattle.wire_spec.specs.Lists.{joined, IsCut, IsSubsequence};
ghost use Rattle.gse_spec.specs.Received.{carried_by_pdu};
ghost use Rattle.gse_spec.specs.Packet.{packet, readings_of};
ghost use Rattle.gse_spec.specs.Written.{Writing, field_of};
ghost use Rattle.gse_spec.specs.Reassembly.{Pdu, pdu_of, pdus_after};
ghost use Rattle.gse_spec.specs.Carried.{CarriesPdus};
ghost use Rattle.gse_spec.specs.Numbers.{pdus_of};
ghost use Rattle.addr_rules.specs.declared.rules.Rule.{Rule};
ghost use Rattle.gse_spec.specs.Packing.{Choice, packed_within, ClassIds, packed};
ghost use Rattle.gse_spec.specs.Classes.{placed_frames, Class, datagrams_of_class, ended_pdus};
ghost use Rattle.gse_spec.specs.Sending.{pdu_for, frames_with, packets_for, frames_for, class_order, GseService, sent_frames};
ghost use Rattle.gse_law.specs.Classes.{EndsInClasses, KeepsClasses, first_packets, BeginInOrder};
ghost use Rattle.gse_law.specs.Packed.{last_packets, AreShortPdus, AreSendable, PacksOneByOne, AllFramesFit, ChoosesSendable};
ghost use Rattle.gse_law.specs.Services.{CanBeWritten, HaveOtherIsis};
ghost use Rattle.gse_law.specs.Streams.{frames_of};
ghost use Rattle.gse_law.specs.Writable.{AreWritable, IsFrameRead};

/// The packets of a written data field are read as they were written.
pub fn written_packets_are_read()
    ensures read { (writings : List Writing) → AreWritable None writings → readings_of (field_of writings) ≡ map (λ (w : Writing). packet w.packet) writings }
{}

/// A written frame is read, with its ISI and its data field.
pub fn written_frames_are_read()
    ensures read { (isi : ℕ) (field : List ℕ) (size : ℕ) → length field ≤ 7264 → 10 + length field ≤ size → IsFrameRead isi field size }
{}

/// A receiver of all packed frames reassembles the PDUs that were packed, each once: the urgent ones in order, and the ordinary ones in
/// order; one of each class may be under way at once. Where no PDU is urgent all are in order, whatever Frag IDs they have.
pub fn packed_pdus_are_reassembled()
    ensures classes { (rules : List Rule) (size : ℕ) (pdus : List Pdu) → 300 ≤ size → AreShortPdus pdus → EndsInClasses rules (packets_for rules size pdus) pdus }
    ensures in_order { (ids : ClassIds) (room : ℕ) → 290 ≤ room → (pdus : List Pdu) → AreShortPdus pdus
        → ended_pdus (packed (λ pdu. false) ids (crc32_remainder 0xFFFFFFFF) room pdus) ≡ pdus }
{}

/// PDUs begin one after another: the packets of the frames that begin one, in order, are those of the list, in order. So an urgent PDU begins
/// before each ordinary one after it.
pub fn pdus_begin_in_order()
    ensures begin { (rules : List Rule) (size : ℕ) (pdus : List Pdu) → 300 ≤ size → AreShortPdus pdus → BeginInOrder pdus (first_packets (packets_for rules size pdus)) }
{}

/// The packets of the frames follow one after another from what is left of the frame and of the PDUs.
pub fn frames_are_packed_packet_by_packet()
    ensures one { (urgent : Pdu → Bool) (ids : ClassIds) (sum : List ℕ → ℕ) (room : ℕ) → 290 ≤ room → PacksOneByOne urgent ids sum room }
{}

/// A receiver of frames that can be written has the PDUs of the packets that were written.
pub fn written_frames_give_their_packets()
    ensures given { (isi size : ℕ) (frames : List (List Writing)) → 10 ≤ size → size ≤ 7274 → AllFramesFit (size - 10) frames
        → pdus_of isi (frames_with isi size frames) ≡ map pdu_of (pdus_after [] (placed_frames 0 1 0 frames)) }
{}

/// They carry what these PDUs carry, where the PDUs are as many as the packets that end one.
pub fn written_frames_carry_their_pdus()
    ensures carried { (carried : Pdu → List (List ℕ)) (isi size : ℕ) (frames : List (List Writing)) → 10 ≤ size → size ≤ 7274 → AllFramesFit (size - 10) frames
        → length (pdus_after [] (placed_frames 0 1 0 frames)) ≡ length (last_packets frames)
        → CarriesPdus carried isi (frames_with isi size frames) (flat_map carried (map pdu_of (pdus_after [] (placed_frames 0 1 0 frames)))) }
{}

/// Packing by any choice that begins PDUs which can be sent gives frames that can be written.
pub fn chosen_frames_can_be_written<State>()
    ensures fit { (choice : Choice State) (s : State) → ChoosesSendable choice s → (room most : ℕ)
        → AllFramesFit room (packed_within choice (crc32_remainder 0xFFFFFFFF) room most room None s) }
{}

/// So does packing of a list of PDUs in classes.
pub fn packed_frames_can_be_written()
    ensures fit { (rules : List Rule) (size : ℕ) (pdus : List Pdu) → AreSendable pdus → AllFramesFit (size - 10) (packets_for rules size pdus) }
{}

/// The frames of packed PDUs give a receiver the PDUs that they end, in the order of the ends; without urgent rules these PDUs in order.
pub fn packed_frames_give_the_pdus()
    ensures given { (rules : List Rule) (isi size : ℕ) (pdus : List Pdu) → 300 ≤ size → size ≤ 7274 → AreSendable pdus
        → pdus_of isi (frames_for rules isi size pdus) ≡ ended_pdus (packets_for rules size pdus) }
    ensures in_order { (isi size : ℕ) (pdus : List Pdu) → 300 ≤ size → size ≤ 7274 → AreSendable pdus → pdus_of isi (frames_for [] isi size pdus) ≡ pdus }
{}

/// The frames of packed PDUs carry what the PDUs carry, in the order of their ends: the premise of the loss law is met by what is sent.
pub fn packed_frames_carry_the_datagrams()
    ensures carried { (carried : Pdu → List (List ℕ)) (rules : List Rule) (isi size : ℕ) (pdus : List Pdu) → 300 ≤ size → size ≤ 7274 → AreSendable pdus
        → CarriesPdus carried isi (frames_for rules isi size pdus) (flat_map carried (ended_pdus (packets_for rules size pdus))) }
    ensures datagrams { (rules : List Rule) (isi size : ℕ) (address : Bool) (unicast : List ℕ) (datagrams : List (List ℕ)) → 300 ≤ size → size ≤ 7274
        → (address ≡ true → length unicast ≡ 6) → All (λ datagram. length datagram ≤ 65527) datagrams → All IsDatagram datagrams
        → CarriesPdus carried_by_pdu isi (frames_for rules isi size (map (pdu_for address unicast) datagrams)) (class_order rules size address unicast datagrams) }
{}

/// The order in which the frames of a service end its datagrams keeps the order of each class; without urgent rules it is that of the list.
/// So what is delivered of one class is a subsequence of that class as it was offered.
pub fn each_class_keeps_its_order()
    ensures classes { (rules : List Rule) (size : ℕ) (address : Bool) (unicast : List ℕ) (datagrams : List (List ℕ)) → 300 ≤ size
        → (address ≡ true → length unicast ≡ 6) → All (λ datagram. length datagram ≤ 65527) datagrams
        → KeepsClasses rules datagrams (class_order rules size address unicast datagrams) }
    ensures pdus { (rules : List Rule) (size : ℕ) (address : Bool) (unicast : List ℕ) (datagrams : List (List ℕ)) → 300 ≤ size
        → (address ≡ true → length unicast ≡ 6) → All (λ datagram. length datagram ≤ 65527) datagrams
        → ended_pdus (packets_for rules size (map (pdu_for address unicast) datagrams)) ≡ map (pdu_for address unicast) (class_order rules size address unicast datagrams) }
    ensures arrives { (rules : List Rule) (datagrams order delivered : List (List ℕ)) → KeepsClasses rules datagrams order → IsSubsequence delivered order
        → (class : Class) → IsSubsequence (datagrams_of_class rules class delivered) (datagrams_of_class rules class datagrams) }
    ensures one { (size : ℕ) (address : Bool) (unicast : List ℕ) (datagrams : List (List ℕ)) → 300 ≤ size
        → (address ≡ true → length unicast ≡ 6) → All (λ datagram. length datagram ≤ 65527) datagrams → class_order [] size address unicast datagrams ≡ datagrams }
{}

/// Datagrams of at most 65,527 bytes can be sent as PDUs, where a service that has addresses has one of 6 bytes.
pub fn offered_datagrams_can_be_sent()
    ensures sendable { (address : Bool) (unicast : List ℕ) (datagrams : List (List ℕ)) → (address ≡ true → length unicast ≡ 6)
        → All (λ datagram. length datagram ≤ 65527) datagrams → AreSendable (map (pdu_for address unicast) datagrams) }
{}

/// What those PDUs carry are the datagrams.
pub fn offered_datagrams_are_carried()
    ensures carried { (address : Bool) (unicast : List ℕ) (datagrams : List (List ℕ)) → All IsDatagram datagrams
        → flat_map carried_by_pdu (map (pdu_for address unicast) datagrams) ≡ datagrams }
{}

/// In the frames of several services, each on its own ISI, those of one service are its own, in order, whatever made them.
pub fn frames_are_sent_in_rotation()
    ensures own { (size : ℕ) (services : List GseService) (service : GseService) → 10 ≤ size → size ≤ 7274 → All (CanBeWritten size) services
        → AllPairs HaveOtherIsis services → Contains services service
        → frames_of service.isi (sent_frames size services) ≡ frames_with service.isi size service.frames }
{}

/// So they carry what each service's own frames carry; of a service with a list of PDUs, what these PDUs carry, in the order of their ends.
pub fn the_frames_of_services_carry_their_datagrams()
    ensures carried { (carried : Pdu → List (List ℕ)) (size : ℕ) (services : List GseService) (service : GseService) → 10 ≤ size → size ≤ 7274
        → All (CanBeWritten size) services → AllPairs HaveOtherIsis services → Contains services service → (datagrams : List (List ℕ))
        → CarriesPdus carried service.isi (frames_with service.isi size service.frames) datagrams
        → CarriesPdus carried service.isi (sent_frames size services) datagrams }
    ensures of_pdus { (carried : Pdu → List (List ℕ)) (rules : List Rule) (size : ℕ) (services : List GseService) (service : GseService) → 300 ≤ size → size ≤ 7274
        → All (CanBeWritten size) services → AllPairs HaveOtherIsis services → Contains services service → (pdus : List Pdu) → AreSendable pdus
        → service.frames ≡ packets_for rules size pdus
        → CarriesPdus carried service.isi (sent_frames size services) (flat_map carried (ended_pdus (packets_for rules size pdus))) }
{}

/// Each frame has the size of the frames, so that their bytes are cut into them again, and nothing is left.
pub fn sent_frames_are_the_pieces_of_their_bytes()
    ensures each { (isi size : ℕ) (frames : List (List Writing)) → 10 ≤ size → AllFramesFit (size - 10) frames
        → All (λ frame. length frame ≡ size) (frames_with isi size frames) }
    ensures cut { (size : ℕ) (services : List GseService) → 10 ≤ size → All (CanBeWritten size) services
        → IsCut size (joined (sent_frames size services)) (sent_frames size services) [] }
{}
