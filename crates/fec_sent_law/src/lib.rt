//! Laws of a sender's MPE-FEC frames (EN 301 192 clause 9): they are frames, their units read back, and they carry what was offered.
//!
//! Laws over definitions alone: each is a function that does nothing, whose contract is the law.
//! They stand on fec_frame_spec and stream_spec; what makes frames, and the laws of the sender's stream, stand on them.
//! Begin with `a_frame_of_datagrams_is_one` and `frames_carry_their_datagrams`.
#![tactic(auto)]

ghost use Rattle.std.specs.Prelude.{◌≡◌, ℕ, ◌+◌, ◌*◌, ◌^◌, ◌<◌, ◌≤◌, List, [], ◌∷◌, length, flat_map, All};
ghost use Rattle.wire_spec.specs.Bytes.{AreBytes};
ghost use Rattle.wire_spec.specs.Datagram.{IsDatagram};
ghost use Rattle.wire_spec.specs.Lists.{joined};
ghost use Rattle.ts_spec.specs.Form.{IsUnit};
ghost use Rattle.section_spec.specs.Section.{section_form};
ghost use Rattle.slice_spec.specs.Sections.{indexed};
ghost use Rattle.fec_frame_spec.specs.Sections.{FrameSection, frame_sections_in, sections_in};
ghost use Rattle.fec_frame_spec.specs.Frame.{IsSentFrame};
ghost use Rattle.fec_frame_spec.specs.Sender.{frame_of, section_unit};
ghost use Rattle.fec_frame_spec.specs.Carried.{CarriesInFrames};
ghost use Rattle.stream_spec.specs.Units.{datagrams_by_frame, units_of_frames};
ghost use Rattle.fec_sent_law.specs.Frames.{CanSend, sections_of_frame};

use mpe_section::{
    a_written_datagram_section_reads_back, a_written_fec_section_reads_back,
    an_address_or_parameters_can_be_written,
};

/// Datagrams that fit make a frame: no padding column has one of their bytes, each row is a codeword, and the sections are those of the
/// frame, whatever their delta_t.
pub fn a_frame_of_datagrams_is_one()
    ensures sent { (rows columns : ℕ) (unicast : List ℕ) (delta : ℕ → ℕ) (datagrams : List (List ℕ)) → 0 < rows → 1 ≤ columns → columns ≤ 64
        → 0 < length datagrams → All IsDatagram datagrams → All AreBytes datagrams → length (joined datagrams) ≤ 191 * rows
        → IsSentFrame rows (frame_of rows columns datagrams) (sections_of_frame rows columns unicast delta datagrams) }
{}

/// Each unit of such a frame is one, and reads as its section.
pub fn a_unit_reads_as_its_section()
    ensures unit { (rows columns : ℕ) (unicast : List ℕ) (delta : ℕ → ℕ) (datagrams : List (List ℕ)) → CanSend rows columns unicast datagrams
        → 0 < length datagrams → length (joined datagrams) ≤ 191 * rows → ((i : ℕ) → delta i < 2 ^ 12)
        → All (λ (s : FrameSection). IsUnit section_form (section_unit s)) (sections_of_frame rows columns unicast delta datagrams) }
    ensures read { (rows columns : ℕ) (unicast : List ℕ) (delta : ℕ → ℕ) (datagrams : List (List ℕ)) → CanSend rows columns unicast datagrams
        → 0 < length datagrams → length (joined datagrams) ≤ 191 * rows → ((i : ℕ) → delta i < 2 ^ 12)
        → All (λ (s : FrameSection). sections_in rows (section_unit s) ≡ s ∷ []) (sections_of_frame rows columns unicast delta datagrams) }
    ensures within { (rows columns : ℕ) (unicast : List ℕ) (delta : ℕ → ℕ) (datagrams : List (List ℕ)) → CanSend rows columns unicast datagrams
        → 0 < length datagrams → length (joined datagrams) ≤ 191 * rows → ((i : ℕ) → delta i < 2 ^ 12)
        → All (λ (s : FrameSection). frame_sections_in rows (section_unit s) ≡ s ∷ []) (sections_of_frame rows columns unicast delta datagrams) }
{
    a_written_datagram_section_reads_back();
    a_written_fec_section_reads_back();
    an_address_or_parameters_can_be_written();
}

/// The sender's sections carry what was offered: the units of a service without time slicing carry its datagrams in frames, whenever they
/// are sent, and each is a section.
pub fn units_carry_what_was_offered()
    ensures carried { (rows columns first : ℕ) (unicast : List ℕ) (datagrams : List (List ℕ)) (moments : ℕ → ℕ) → CanSend rows columns unicast datagrams
        → CarriesInFrames indexed rows first (units_of_frames rows columns unicast first (datagrams_by_frame rows datagrams)) moments datagrams }
    ensures units { (rows columns first : ℕ) (unicast : List ℕ) (datagrams : List (List ℕ)) → CanSend rows columns unicast datagrams
        → All (IsUnit section_form) (units_of_frames rows columns unicast first (datagrams_by_frame rows datagrams)) }
{
    a_written_datagram_section_reads_back();
    a_written_fec_section_reads_back();
    an_address_or_parameters_can_be_written();
}

/// Frames with numbers that go on carry their datagrams: all frames of a service on one PID, of several parts of a stream, too.
pub fn frames_carry_their_datagrams()
    ensures carried { (rows columns first : ℕ) (unicast : List ℕ) (frames : List (List (List ℕ))) (moments : ℕ → ℕ)
        → CanSend rows columns unicast (flat_map (λ (frame : List (List ℕ)). frame) frames) → All (λ (frame : List (List ℕ)). 0 < length frame) frames
        → All (λ (frame : List (List ℕ)). length (joined frame) ≤ 191 * rows) frames
        → CarriesInFrames indexed rows first (units_of_frames rows columns unicast first frames) moments (flat_map (λ (frame : List (List ℕ)). frame) frames) }
    ensures units { (rows columns first : ℕ) (unicast : List ℕ) (frames : List (List (List ℕ)))
        → CanSend rows columns unicast (flat_map (λ (frame : List (List ℕ)). frame) frames) → All (λ (frame : List (List ℕ)). 0 < length frame) frames
        → All (λ (frame : List (List ℕ)). length (joined frame) ≤ 191 * rows) frames
        → All (IsUnit section_form) (units_of_frames rows columns unicast first frames) }
{
    a_written_datagram_section_reads_back();
    a_written_fec_section_reads_back();
    an_address_or_parameters_can_be_written();
}
