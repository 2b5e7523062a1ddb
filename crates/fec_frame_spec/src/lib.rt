//! Definitions of MPE-FEC frames: sent frames and their sections, received frames, known and corrected bytes, datagrams found.
//!
//! Words for contracts, and no code but examples of them. They stand on wire_spec, ts_spec, section_spec, fec_spec, slice_spec
//! and ip_datagram.
//! Standard: EN 301 192 clause 9.
#![tactic(auto)]

ghost use Rattle.std.specs.Prelude.{◌≡◌, [], ◌∷◌, ◌++◌, false, true, None, Some};
ghost use Rattle.slice_spec.specs.Sections.{indexed, sliced};
ghost use Rattle.fec_frame_spec.specs.Examples.{at_moment, cut_frames, small_data, small_frame, small_timed};
ghost use Rattle.fec_frame_spec.specs.Groups.{closed_frames, received_frames};
ghost use Rattle.fec_frame_spec.specs.Known.{known_byte};
ghost use Rattle.fec_frame_spec.specs.Sender.{datagrams_in_frames, fits_table, padding_of};

/// Where small frames are cut: after frame_boundary, by their number, or by the moment that a section announced.
///
/// A section at the moment that the one before announced begins the next burst, though its address is above.
pub fn small_frames_are_cut()
    ensures boundary { received_frames indexed 256 (small_timed ++ small_timed) ≡ small_timed ∷ small_timed ∷ [] }
    ensures numbers { received_frames indexed 256 (cut_frames 3 4 0) ≡ (at_moment 0 (small_data 3 0 false) ∷ []) ∷ (at_moment 0 (small_data 4 2 true) ∷ []) ∷ [] }
    ensures last_number { received_frames indexed 256 (cut_frames 4095 0 0) ≡ (at_moment 0 (small_data 4095 0 false) ∷ []) ∷ (at_moment 0 (small_data 0 2 true) ∷ []) ∷ [] }
    ensures one { received_frames indexed 256 (cut_frames 3 3 0) ≡ cut_frames 3 3 0 ∷ [] }
    ensures announced { received_frames (sliced 10000) 256 (cut_frames 1 1 10000) ≡ (at_moment 0 (small_data 1 0 false) ∷ []) ∷ (at_moment 10000 (small_data 1 2 true) ∷ []) ∷ [] }
    ensures before { received_frames (sliced 10000) 256 (cut_frames 1 1 9999) ≡ cut_frames 1 1 9999 ∷ [] }
{}

/// Which frames are closed: one with frame_boundary, one before another, and the last one when no more sections can come.
pub fn small_frames_are_closed()
    ensures boundary { closed_frames false (small_timed ∷ []) ≡ small_timed ∷ [] }
    ensures open { closed_frames false (small_timed ∷ cut_frames 3 3 0 ∷ []) ≡ small_timed ∷ [] }
    ensures ended { closed_frames true (small_timed ∷ cut_frames 3 3 0 ∷ []) ≡ small_timed ∷ cut_frames 3 3 0 ∷ [] }
{}

/// What the sections of a small frame tell: bytes of a datagram, zeros after table_boundary and in padding columns, a column.
///
/// A first datagram alone tells nothing after it.
pub fn small_frames_tell_bytes()
    ensures datagram { known_byte 256 small_frame 3 ≡ Some 8 }
    ensures zeros { known_byte 256 small_frame 4 ≡ Some 0 }
    ensures column { known_byte 256 small_frame 48896 ≡ Some 9 }
    ensures punctured { known_byte 256 small_frame 49152 ≡ None }
    ensures lost { known_byte 256 (small_data 3 0 false ∷ []) 2 ≡ None }
{}

/// Which datagrams share a frame of one row, and the padding columns of some frames.
pub fn small_datagrams_share_frames()
    ensures both { datagrams_in_frames (fits_table 1) ((1 ∷ 2 ∷ []) ∷ (3 ∷ []) ∷ []) ≡ ((1 ∷ 2 ∷ []) ∷ (3 ∷ []) ∷ []) ∷ [] }
    ensures none { datagrams_in_frames (fits_table 0) ((1 ∷ 2 ∷ []) ∷ (3 ∷ []) ∷ []) ≡ ((1 ∷ 2 ∷ []) ∷ []) ∷ ((3 ∷ []) ∷ []) ∷ [] }
    ensures least { padding_of 256 1 ≡ 190 }
    ensures next { padding_of 256 257 ≡ 189 }
    ensures full { padding_of 256 48896 ≡ 0 }
{}
