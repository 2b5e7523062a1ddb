//! A captured frame -> whether there is room for it, counted.
ghost use Rattle.std.specs.Prelude.{◌≡◌, ◌<◌, ◌≤◌, ◌∷◌, [], ◌++◌, ℕ, List, length};
ghost use Rattle.pcap_file.specs.Reading.{most_records};
ghost use Rattle.bridge_spec.specs.Frames.{BridgeCarrier};
ghost use Rattle.bridge_spec.specs.Sending.{has_room, longest_frame};
ghost use Rattle.bridge_command.specs.Tally.{IsBridgeTally};

use crate::ends::BridgeTally;

/// The bytes of an Ethernet header: two addresses of 6 and the Type or Length (IEEE 802.3 clause 3.1.1).
const ETHERNET_HEADER: usize = 14;

/// Counts a frame, and answers whether there is room for it on a carrier whose longest frame has so many bytes.
#[tactic(auto, using(crate::proofs::Sorted::tally_short, crate::proofs::Sorted::tally_long, crate::proofs::Sorted::tally_kept, crate::proofs::Sorted::room_is, crate::proofs::Sorted::room_short, crate::proofs::Sorted::room_long))]
pub(crate) fn sort(tally: &mut BridgeTally, frame: &[u8], longest: usize) -> bool
    requires longest { 14 ≤ longest }
    requires few { (carrier : BridgeCarrier) × (captured : List (List ℕ)) × IsBridgeTally carrier captured tally.old × (length captured < most_records) }
    ensures room { (carrier : BridgeCarrier) → longest_frame carrier ≡ longest → result ≡ has_room carrier frame.now }
    ensures counted { (carrier : BridgeCarrier) (captured : List (List ℕ)) → longest_frame carrier ≡ longest → IsBridgeTally carrier captured tally.old
        → IsBridgeTally carrier (captured ++ frame.now ∷ []) tally.new }
{
    if frame.len() < ETHERNET_HEADER {
        tally.too_short += 1;
        return false;
    }
    if frame.len() > longest {
        tally.too_long += 1;
        return false;
    }
    tally.offered += 1;
    true
}
