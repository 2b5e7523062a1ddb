//! Laws of `unbridge`: what more pieces give, and what its file has at any end.
//!
//! Statements over definitions, and no code.
ghost use Rattle.std.specs.Prelude.{◌≡◌, ℕ, List, ◌++◌, Option, Some, Result, ⊤};
ghost use Rattle.wire_spec.specs.Lists.{IsCut};
ghost use Rattle.ipe_io.specs.Told.{InputTold, RackTold};
ghost use Rattle.bridge_spec.specs.Frames.{BridgeCarrier, size_of_piece, received_ethernet_frames};
ghost use Rattle.capture_files.specs.declared.faults.ReceiveFault.{ReceiveFault};
ghost use Rattle.unbridge_command.specs.Unbridging.{Unbridges, bridge_capture};
ghost use Rattle.unbridge_command.specs.Parts.{HasBridgePart};

/// The Ethernet frames that some pieces give stand before those that more pieces add.
pub fn more_pieces_give_more_frames()
    ensures frames { (carrier : BridgeCarrier) (front rest : List (List ℕ)) → (more : List (List ℕ))
        × (received_ethernet_frames carrier (front ++ rest) ≡ received_ethernet_frames carrier front ++ more) }
{}

/// However `unbridge` ends: no file was added, or bridge.pcap with a prefix of the capture of what the whole input gives, where it tells that.
pub fn a_bridge_file_is_a_prefix()
    ensures part { (result : Result ⊤ ReceiveFault) (carrier : BridgeCarrier) (input now : InputTold) (rack now_rack : RackTold)
        (bytes : List ℕ) (pieces : List (List ℕ)) (tail : List ℕ) → Unbridges result carrier input now rack now_rack (now ≡ input)
        → input.left ≡ Some bytes → IsCut (size_of_piece carrier) bytes pieces tail → HasBridgePart (bridge_capture carrier pieces) rack.files now_rack.files }
{}
