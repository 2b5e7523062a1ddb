//! Laws of bridges: what was received stays, and what a recording in pieces gives.
//!
//! Statements over definitions, and no code.
ghost use Rattle.std.specs.Prelude.{◌≡◌, ℕ, List, [], ◌∷◌, ◌++◌};
ghost use Rattle.ts_spec.specs.Recording.{Record, plain, records_of};
ghost use Rattle.bridge_spec.specs.Frames.{BridgeCarrier, frames_on_pid, frames_on_isi, received_ethernet_frames};
ghost use Rattle.bridge_frame.specs.Sndus.{added_on_pid};
ghost use Rattle.bridge_frame.specs.Bridge.{added_on_isi};
ghost use Rattle.bridge_frame.specs.Taking.{frames_of_records};

/// The Ethernet frames that some items give stand before those that one item more adds.
pub fn what_was_received_stays()
    ensures records { (pid : ℕ) (records : List Record) (r : Record) → frames_on_pid pid (records ++ r ∷ []) ≡ frames_on_pid pid records ++ added_on_pid pid records r }
    ensures frames { (isi : ℕ) (frames : List (List ℕ)) (b : List ℕ) → frames_on_isi isi (frames ++ b ∷ []) ≡ frames_on_isi isi frames ++ added_on_isi isi frames b }
{}

/// A recording in pieces gives the Ethernet frames of its records.
pub fn pieces_give_the_frames_of_their_records()
    ensures frames { (carrier : BridgeCarrier) (pieces : List (List ℕ)) → frames_of_records carrier (records_of plain pieces) ≡ received_ethernet_frames carrier pieces }
{}
