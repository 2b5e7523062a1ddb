//! Laws of MPE-FEC frames that lost sections: frames stay apart, what is known was sent, and 64 erasures a row are corrected.
//!
//! Laws over definitions alone: each is a function that does nothing, whose contract is the law.
//! They stand on the definitions of fec_frame_spec; what delivers the datagrams of frames stands on them.
//! Begin with `frames_stay_apart` and `datagrams_of_frames_are_recovered`.
#![tactic(auto)]

ghost use Rattle.std.specs.Prelude.{◌≡◌, ◌↔◌, ℕ, ◌+◌, ◌*◌, ◌<◌, ◌≤◌, Bool, List, [], ◌∷◌, ◌++◌, false, true, length, map, flat_map, slice_index, if◌then◌else◌, Contains, Option, None, Some};
ghost use Rattle.std.specs.List.{list_any};
ghost use Rattle.wire_spec.specs.Bytes.{AreBytes};
ghost use Rattle.wire_spec.specs.Lists.{IsSubsequence};
ghost use Rattle.ts_spec.specs.Packetized.{unit_at};
ghost use Rattle.ts_spec.specs.Reassembly.{PlacedUnit, accepted_units};
ghost use Rattle.ts_spec.specs.Recording.{Record, RecordingForm, records_of};
ghost use Rattle.section_spec.specs.Section.{section_form};
ghost use Rattle.channel_spec.specs.Channel.{Channel};
ghost use Rattle.channel_spec.specs.Spans.{IsSpanOf};
ghost use Rattle.channel_spec.specs.Carried.{ArrivedIntact, IncludesIntact, IsAccepted, IsCarried, IsRising, IsSentUnit, NoUndetectedError};
ghost use Rattle.fec_spec.specs.Codeword.{IsCodeword};
ghost use Rattle.fec_spec.specs.Row.{Agrees, IsCorrectable};
ghost use Rattle.section_spec.specs.Mpe.{MpeFields};
ghost use Rattle.slice_spec.specs.Sections.{Timing, indexed, sliced};
ghost use Rattle.slice_spec.specs.Frames.{HasTiming};
ghost use Rattle.fec_frame_spec.specs.Sections.{FrameSection, TimedSection, ends_frame, frame_sections, sections_of, sections_of_unit, times_of};
ghost use Rattle.fec_frame_spec.specs.Groups.{AreReceivedFrames, all_sections, closed_frames, frame_at, is_cut_by_table, received_frames};
ghost use Rattle.fec_frame_spec.specs.Known.{IsErasure, first_told, known_byte, told_byte};
ghost use Rattle.fec_frame_spec.specs.Frame.{FrameFields, table_of, IsSentFrame, AreSentFrames};
ghost use Rattle.fec_frame_spec.specs.Corrected.{IsCorrection, IsRecoverable, byte_of_row, corrected_byte, corrected_row, lacks_data, unknown_columns};
ghost use Rattle.fec_frame_spec.specs.Sender.{row_parity};
ghost use Rattle.fec_frame_spec.specs.Starts.{IsDatagramStart, IsSectionEdge, IsTold, starts_below};
ghost use Rattle.fec_frame_spec.specs.Delivered.{delivered_by_frames, frame_datagrams};
ghost use Rattle.fec_frame_spec.specs.Carried.{AreFramesOf};
ghost use Rattle.fec_frame_law.specs.Kept.{AreAcceptedOften, AreKept, AreKeptOften, AreTimed, HasNumber, accepted_frames};
ghost use Rattle.fec_frame_law.specs.Recovered.{AreRecovered, HasFewErasures, IsRecovered, all_datagrams, own_datagrams};
ghost use Rattle.fec_frame_law.specs.Summary.{IsSummaryOf, Summary, is_cut_by_summary, no_summary, summary_more};

/// The received frames are the sent ones of which a section was accepted.
///
/// None holds sections of two frames, and no frame is cut. Only the accepted sections need be timed: when the others were sent, or would have
/// been received, is free. Without time slicing this requires that of any 4,095 frames
/// in a row between two of which a section was accepted, a section of one was accepted.
pub fn frames_stay_apart()
    ensures apart { (timing : Timing) (rows first : ℕ) (sent : List FrameFields) (frames kept : List (List TimedSection))
        → AreSentFrames rows sent frames → AreKept kept frames → HasTiming timing first (map times_of kept) → (timing ≡ indexed → AreKeptOften kept)
        → received_frames timing rows (all_sections kept) ≡ accepted_frames kept }
{}

/// Sections are partitioned into their received frames, and in no other way: none is cut within, each is cut from the next.
pub fn received_frames_part_the_sections()
    ensures parted { (timing : Timing) (rows : ℕ) (sections : List TimedSection) → AreReceivedFrames timing rows sections (received_frames timing rows sections) }
    ensures only { (timing : Timing) (rows : ℕ) (sections : List TimedSection) (frames : List (List TimedSection)) → AreReceivedFrames timing rows sections frames
        → received_frames timing rows sections ≡ frames }
{}

/// When no more sections can come all received frames are closed; until then all but the last, and it too where it has frame_boundary.
/// Frames that are closed stay so when a section comes.
pub fn closed_frames_stay_closed()
    ensures ended { (frames : List (List TimedSection)) → closed_frames true frames ≡ frames }
    ensures under_way { (frames : List (List TimedSection)) (last : List TimedSection)
        → closed_frames false (frames ++ last ∷ []) ≡ (if list_any ends_frame (sections_of last) then frames ++ last ∷ [] else frames) }
    ensures more { (timing : Timing) (rows : ℕ) (section : TimedSection) (sections : List TimedSection) → (others : List (List TimedSection))
        × (closed_frames false (received_frames timing rows (sections ++ section ∷ [])) ≡ closed_frames false (received_frames timing rows sections) ++ others) }
{}

/// Two sections of one received frame never tell a place differently: so it doesn't matter which of them a table believes, whatever was sent.
pub fn sections_of_a_frame_tell_alike()
    ensures alike { (timing : Timing) (rows : ℕ) (sections : List TimedSection) (frames : List (List TimedSection)) → AreReceivedFrames timing rows sections frames
        → (n : ℕ) → n < length frames → (one other : FrameSection) → Contains (sections_of (frame_at frames n)) one → Contains (sections_of (frame_at frames n)) other
        → (place a b : ℕ) → told_byte rows one place ≡ Some a → told_byte rows other place ≡ Some b → a ≡ b }
{}

/// A byte that accepted sections of a frame tell is that of the sent table.
pub fn known_bytes_were_sent()
    ensures sent { (rows : ℕ) (frame : FrameFields) (sections group : List FrameSection) → IsSentFrame rows frame sections → IsSubsequence group sections
        → (place byte : ℕ) → known_byte rows group place ≡ Some byte → slice_index (table_of rows frame) place ≡ byte }
{}

/// A row is corrected exactly where a codeword agrees with its known bytes and at most 64 are unknown, and is that codeword then.
pub fn a_corrected_row_is_the_codeword_that_agrees()
    ensures agrees { (rows : ℕ) (known : ℕ → Option ℕ) (r : ℕ) (code : List ℕ) → corrected_row rows known r ≡ Some code ↔ IsCorrection rows known r code }
    ensures bytes { (rows : ℕ) (known : ℕ → Option ℕ) (r j : ℕ) → r < rows
        → corrected_byte rows known (j * rows + r) ≡ byte_of_row (corrected_row rows known r) j (known (j * rows + r)) }
{}

/// Parity is found for any 191 bytes: with it they are a codeword, and with nothing else.
pub fn rows_have_parity()
    ensures codeword { (row : List ℕ) → length row ≡ 191 → AreBytes row → IsCodeword (row ++ row_parity row) }
    ensures only { (row parity : List ℕ) → length row ≡ 191 → IsCodeword (row ++ parity) → parity ≡ row_parity row }
{}

/// Each byte of the corrected rows is that of the sent table too; where no row has more than 64 unknown bytes, all bytes are known.
pub fn corrected_rows_were_sent()
    ensures sent { (rows : ℕ) (frame : FrameFields) (sections group : List FrameSection) → IsSentFrame rows frame sections → IsSubsequence group sections
        → (place byte : ℕ) → place < 255 * rows → corrected_byte rows (known_byte rows group) place ≡ Some byte → slice_index (table_of rows frame) place ≡ byte }
    ensures whole { (rows : ℕ) (frame : FrameFields) (sections group : List FrameSection) → IsSentFrame rows frame sections → IsSubsequence group sections
        → IsRecoverable rows group → (place : ℕ) → place < 255 * rows → corrected_byte rows (known_byte rows group) place ≡ Some (slice_index (table_of rows frame) place) }
{}

/// A row that a decoder filled with the codeword that agrees, or left where there is none, is corrected; of a row that lacks no byte of
/// the application data table nothing is to do.
pub fn decoded_rows_are_corrected()
    ensures done { (rows : ℕ) (known : ℕ → Option ℕ) (r : ℕ) (row : List ℕ)
        → ((j byte : ℕ) → j < 255 → known (j * rows + r) ≡ Some byte → slice_index row j ≡ byte)
        → (code : List ℕ) → length (unknown_columns rows known r) ≤ 64 → IsCodeword code → Agrees (unknown_columns rows known r) row code
        → corrected_row rows known r ≡ Some code }
    ensures left { (rows : ℕ) (known : ℕ → Option ℕ) (r : ℕ) (row : List ℕ)
        → ((j byte : ℕ) → j < 255 → known (j * rows + r) ≡ Some byte → slice_index row j ≡ byte)
        → (IsCorrectable (unknown_columns rows known r) row → ⊥) → corrected_row rows known r ≡ None }
    ensures has_data { (rows : ℕ) (known : ℕ → Option ℕ) (r j : ℕ) → r < rows → j < 191 → lacks_data rows known r ≡ false
        → corrected_byte rows known (j * rows + r) ≡ known (j * rows + r) }
{}

/// The places where datagrams can start are the least set: it has 0 and the edges of sections, and where datagrams end that start in
/// it. The list has those below a place, rising.
pub fn starts_are_the_least_set()
    ensures first { (rows : ℕ) (bytes : ℕ → Option ℕ) (sections : List MpeFields) → IsDatagramStart rows bytes sections 0 }
    ensures edge { (rows : ℕ) (bytes : ℕ → Option ℕ) (sections : List MpeFields) (place : ℕ) → IsSectionEdge sections place → IsDatagramStart rows bytes sections place }
    ensures next { (rows : ℕ) (bytes : ℕ → Option ℕ) (sections : List MpeFields) (place n : ℕ) → IsDatagramStart rows bytes sections place → IsTold rows bytes place n
        → IsDatagramStart rows bytes sections (place + n) }
    ensures least { (rows : ℕ) (bytes : ℕ → Option ℕ) (sections : List MpeFields) (set : ℕ → Bool) → set 0 ≡ true
        → ((place : ℕ) → IsSectionEdge sections place → set place ≡ true)
        → ((place n : ℕ) → set place ≡ true → IsTold rows bytes place n → set (place + n) ≡ true)
        → (place : ℕ) → IsDatagramStart rows bytes sections place → set place ≡ true }
    ensures rising { (rows : ℕ) (bytes : ℕ → Option ℕ) (sections : List MpeFields) (n : ℕ) → IsRising 0 (starts_below rows bytes sections n) }
    ensures are { (rows : ℕ) (bytes : ℕ → Option ℕ) (sections : List MpeFields) (n place : ℕ)
        → Contains (starts_below rows bytes sections n) place ↔ ((place < n) × IsDatagramStart rows bytes sections place) }
{}

/// The datagrams found in a received frame are a subsequence of those sent in it. Those that came in a section of their own are
/// among them, and all are where the frame is recoverable.
pub fn datagrams_of_a_frame_were_sent()
    ensures sent { (rows : ℕ) (frame : FrameFields) (sections group : List FrameSection) → IsSentFrame rows frame sections → IsSubsequence group sections
        → IsSubsequence (frame_datagrams rows group) frame.datagrams }
    ensures own { (rows : ℕ) (frame : FrameFields) (sections group : List FrameSection) → IsSentFrame rows frame sections → IsSubsequence group sections
        → IsSubsequence (own_datagrams group) (frame_datagrams rows group) }
    ensures all { (rows : ℕ) (frame : FrameFields) (sections group : List FrameSection) → IsSentFrame rows frame sections → IsSubsequence group sections
        → IsRecoverable rows group → frame_datagrams rows group ≡ frame.datagrams }
{}

/// The datagrams delivered from all received frames are, frame by frame, some of those sent in it, in order: those that came in
/// sections of their own at least, and all of them where it is recoverable from its accepted sections.
pub fn datagrams_of_frames_are_recovered()
    ensures recovered { (timing : Timing) (rows first : ℕ) (sent : List FrameFields) (frames kept : List (List TimedSection))
        → AreSentFrames rows sent frames → AreKept kept frames → HasTiming timing first (map times_of kept) → (timing ≡ indexed → AreKeptOften kept)
        → (parts : List (List (List ℕ))) × AreRecovered rows sent kept parts × (delivered_by_frames timing rows (all_sections kept) ≡ all_datagrams parts) }
{}

/// The datagrams of the accepted units of a service, by the numbers of these units.
///
/// Frame by frame they are some of those sent in it, in order: those that came in sections of their own at least, and all of them where
/// it is recoverable from its sections among these numbers. With time slicing the accepted sections must be timed as they were received. Units that read as no section of a frame may stand between them.
pub fn datagrams_of_accepted_units_are_recovered()
    ensures recovered { (timing : Timing) (rows first : ℕ) (units : List (List ℕ)) (moments : ℕ → ℕ) (fields : List FrameFields) (frames : List (List TimedSection))
        → AreFramesOf timing rows first units moments fields frames → (accepted : List PlacedUnit) (numbers : List ℕ)
        → IsRising 0 numbers → ((n : ℕ) → Contains numbers n → n < length units)
        → map (λ (a : PlacedUnit). a.unit) accepted ≡ map (unit_at units) numbers
        → ((ten : ℕ) → timing ≡ sliced ten → AreTimed ten rows units frames (HasNumber accepted numbers))
        → (timing ≡ indexed → AreAcceptedOften rows units frames (λ n. Contains numbers n))
        → IsRecovered rows units fields frames numbers (λ n. Contains numbers n) (delivered_by_frames timing rows (flat_map (sections_of_unit rows) accepted)) }
{}

/// The datagrams of a service through a channel: from the accepted sections of its PID in a span to the frames that were sent on it.
///
/// The numbers are those of the accepted sections, each once and no others.
/// Frame by frame they are some of those sent in it, in order: those that came in sections of their own at least, and all of them where
/// it is recoverable from sections that arrived intact. Moments count with time slicing alone: then the accepted sections must be timed
/// as they were received.
pub fn datagrams_of_a_service_are_recovered()
    ensures recovered { (recording : RecordingForm) (pids : List ℕ) (sent : List Record) (pieces : List (List ℕ)) (channel : Channel pids sent (records_of recording pieces))
        → (span : List Record) → IsSpanOf span (records_of recording pieces)
        → (pid : ℕ) → Contains pids pid → (units : List (List ℕ)) (begin : ℕ → ℕ) → IsCarried section_form pid sent units begin
        → NoUndetectedError channel span section_form pid units begin
        → (timing : Timing) (rows first : ℕ) (fields : List FrameFields) (frames : List (List TimedSection)) (moments : ℕ → ℕ)
        → AreFramesOf timing rows first units moments fields frames
        → ((ten : ℕ) → timing ≡ sliced ten
        → AreTimed ten rows units frames (λ (a : PlacedUnit) n. Contains (accepted_units section_form pid span) a × IsSentUnit channel pid units begin n a))
        → (timing ≡ indexed → AreAcceptedOften rows units frames (IsAccepted channel span section_form pid units begin))
        → (numbers : List ℕ) × ((n : ℕ) → Contains numbers n ↔ IsAccepted channel span section_form pid units begin n)
        × IncludesIntact channel span pid units begin numbers
        × IsRecovered rows units fields frames numbers (ArrivedIntact channel span pid units begin) (delivered_by_frames timing rows (frame_sections rows pid span)) }
{}

/// A frame that is recoverable from some of its sections is so from more of them.
pub fn more_sections_recover_more()
    ensures recoverable { (rows : ℕ) (group more : List FrameSection) → ((s : FrameSection) → Contains group s → Contains more s)
        → IsRecoverable rows group → IsRecoverable rows more }
{}

/// The erasures of a row are its unknown columns, each once. So a frame is recoverable exactly where each row has at most 64 erasures,
/// and all its datagrams are found then, whatever else was accepted of it.
pub fn erasures_are_the_unknown_columns()
    ensures are { (rows : ℕ) (intact : List FrameSection) (r j : ℕ) → r < rows
        → Contains (unknown_columns rows (known_byte rows intact) r) j ↔ IsErasure rows intact r j }
    ensures rising { (rows : ℕ) (known : ℕ → Option ℕ) (r : ℕ) → IsRising 0 (unknown_columns rows known r) }
    ensures few { (rows : ℕ) (intact : List FrameSection) → IsRecoverable rows intact ↔ ((r : ℕ) → r < rows → HasFewErasures rows intact r) }
    ensures all { (rows : ℕ) (frame : FrameFields) (sections group intact : List FrameSection) → IsSentFrame rows frame sections → IsSubsequence group sections
        → ((s : FrameSection) → Contains intact s → Contains group s) → ((r : ℕ) → r < rows → HasFewErasures rows intact r)
        → frame_datagrams rows group ≡ frame.datagrams }
{}

/// What a table keeps of the sections of the frame under way: a summary tells whether the next one is cut, and each section
/// adds its bytes.
pub fn a_section_more()
    ensures cut { (rows : ℕ) (group : List FrameSection) (s : Summary) → IsSummaryOf group s → (section : FrameSection)
        → is_cut_by_table rows group section ≡ is_cut_by_summary rows s section }
    ensures none { IsSummaryOf [] no_summary }
    ensures more { (rows : ℕ) (group : List FrameSection) (s : Summary) (section : FrameSection) → IsSummaryOf group s
        → is_cut_by_table rows group section ≡ false → IsSummaryOf (group ++ section ∷ []) (summary_more s section) }
    ensures known { (rows : ℕ) (group : List FrameSection) (section : FrameSection) (place : ℕ)
        → known_byte rows (group ++ section ∷ []) place ≡ first_told (told_byte rows section place) (known_byte rows group place) }
{}
