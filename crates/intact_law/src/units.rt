//! Units and PDUs that arrived intact are accepted, in order; and sections of frames that are accepted give their datagrams.
ghost use Rattle.std.specs.Prelude.{◌≡◌, ℕ, ◌<◌, List, length, map, flat_map, Contains};
ghost use Rattle.wire_spec.specs.Lists.{IsSubsequence};
ghost use Rattle.ts_spec.specs.Form.{UnitForm};
ghost use Rattle.ts_spec.specs.Recording.{Record};
ghost use Rattle.ts_spec.specs.Reassembly.{accepted_units, PlacedUnit};
ghost use Rattle.ts_spec.specs.Packetized.{unit_at};
ghost use Rattle.section_spec.specs.Section.{section_form};
ghost use Rattle.channel_spec.specs.Channel.{Channel};
ghost use Rattle.channel_spec.specs.Spans.{IsSpanOf};
ghost use Rattle.channel_spec.specs.Carried.{IsCarried, IsRising};
ghost use Rattle.slice_spec.specs.Sections.{Timing};
ghost use Rattle.fec_frame_spec.specs.Sections.{frame_sections};
ghost use Rattle.fec_frame_spec.specs.Delivered.{delivered_by_frames};
ghost use Rattle.loss_law.specs.Frames.{own_of_unit};
ghost use Rattle.gse_spec.specs.Reassembly.{Pdu};
ghost use Rattle.gse_spec.specs.Received.{received_pdus, delivered_by_pdu, delivered_by_gse};
ghost use Rattle.gse_spec.specs.Channel.{FrameChannel};
ghost use Rattle.gse_spec.specs.Carried.{ArrivedIntact, sent_pdu};
ghost use Rattle.intact_law.specs.Intact.{AreIntact, AreIntactPdus};

/// Units that arrived intact are a subsequence of the accepted ones, whatever errors go undetected.
pub fn intact_units_are_accepted_in_order()
    ensures accepted { (pids : List ℕ) (sent recorded : List Record) (channel : Channel pids sent recorded) (span : List Record) → IsSpanOf span recorded
        → (form : UnitForm) (pid : ℕ) → Contains pids pid → (units : List (List ℕ)) (begin : ℕ → ℕ) → IsCarried form pid sent units begin
        → (intact : List ℕ) → AreIntact channel span pid units begin intact
        → IsSubsequence (map (unit_at units) intact) (map (λ (accepted : PlacedUnit). accepted.unit) (accepted_units form pid span)) }
{}

/// Of all sections that a receiver accepts on a PID, whatever was sent: the datagrams of those that are datagram_sections of frames are a
/// subsequence of what the frames deliver, with time slicing or without, and whatever moments the records have. A section whose datagram
/// passes the end of the application data table belongs to no frame.
pub fn accepted_datagram_sections_are_delivered()
    ensures delivered { (timing : Timing) (rows pid : ℕ) (records : List Record)
        → IsSubsequence (flat_map (own_of_unit rows) (map (λ (accepted : PlacedUnit). accepted.unit) (accepted_units section_form pid records)))
        (delivered_by_frames timing rows (frame_sections rows pid records)) }
{}

/// The wanted datagrams of PDUs that arrived intact are a subsequence of those delivered, whatever errors go undetected.
pub fn intact_pdus_are_delivered_in_order()
    ensures delivered { (isis : List ℕ) (sent recorded : List (List ℕ)) (channel : FrameChannel isis sent recorded) (isi : ℕ) → Contains isis isi
        → (carried : Pdu → List (List ℕ)) (filter : List (List ℕ)) (intact : List ℕ) → AreIntactPdus channel isi intact
        → IsSubsequence (flat_map (λ n. delivered_by_pdu carried filter (sent_pdu isi sent n)) intact) (delivered_by_gse carried filter isi recorded) }
{}
