//! Laws of a reception of frames: which records change it, and that what was delivered stays.
//!
//! Statements over definitions, and no code.
ghost use Rattle.std.specs.Prelude.{◌≡◌, ℕ, Bool, true, false, List, [], ◌∷◌, ◌++◌, Option, is_some};
ghost use Rattle.ts_spec.specs.Recording.{RecordingForm, Record};
ghost use Rattle.section_spec.specs.Section.{section_form};
ghost use Rattle.slice_spec.specs.Sections.{Timing};
ghost use Rattle.fec_frame_spec.specs.Groups.{timing_in};
ghost use Rattle.plan_spec.specs.Plan.{fec, WindowFields, ServiceFields};
ghost use Rattle.reception_spec.specs.Packets.{is_on};
ghost use Rattle.reception_spec.specs.Numbers.{pid_numbers, service_pid_numbers, units_of, unit_numbers};
ghost use Rattle.reception_spec.specs.Frames.{told_frames, rows_of};
ghost use Rattle.reception_spec.specs.Delivered.{told_by};
ghost use Rattle.fec_reception.specs.Frames.{closed_in, unread_in, told_in};
ghost use Rattle.fec_reception.specs.Reception.{FecReceptionState, HasTaken, added_by, added_by_end};

/// The datagrams of the frames that some records close stand before those that one record more adds, and before those that the end does.
pub fn what_frames_delivered_stays()
    ensures stays { (timing : Timing) (rows pid : ℕ) (records : List Record) (r : Record)
        → told_in false timing rows pid (records ++ r ∷ []) ≡ told_in false timing rows pid records ++ added_by timing rows pid records r }
    ensures ended { (timing : Timing) (rows pid : ℕ) (records : List Record)
        → told_in true timing rows pid records ≡ told_in false timing rows pid records ++ added_by_end timing rows pid records }
{}

/// A record without a moment, one that is no packet to be read, and a packet of another PID change nothing.
pub fn a_record_of_another_pid_closes_no_frame()
    ensures received { (timing : Timing) (rows pid : ℕ) (state : FecReceptionState) (records : List Record) (r : Record) → is_on pid r ≡ false
        → HasTaken timing rows pid state records → HasTaken timing rows pid state (records ++ r ∷ []) }
    ensures delivered { (timing : Timing) (rows pid : ℕ) (records : List Record) (r : Record) → is_on pid r ≡ false
        → added_by timing rows pid records r ≡ [] }
{}

/// A service of a plan with frames is received by the words of its PID: it tells what its closed frames give, and its numbers are those of
/// the PID, of the units of which no section of a frame is read, and of the frames. Its filter leaves out none.
pub fn a_service_with_frames_is_received_on_its_pid()
    ensures frames { (ended : Bool) (form : RecordingForm) (it : ServiceFields) (pid rows parity : ℕ) (window : Option WindowFields) (records : List Record)
        → it.kind ≡ fec pid rows parity window → told_frames ended form it.kind records ≡ closed_in ended (timing_in form (is_some window)) rows pid records }
    ensures rows { (it : ServiceFields) (pid rows parity : ℕ) (window : Option WindowFields) → it.kind ≡ fec pid rows parity window → rows_of it.kind ≡ rows }
    ensures told { (ended : Bool) (form : RecordingForm) (it : ServiceFields) (pid rows parity : ℕ) (window : Option WindowFields) (records : List Record)
        → it.kind ≡ fec pid rows parity window → told_by ended form it records ≡ told_in ended (timing_in form (is_some window)) rows pid records }
    ensures units { (it : ServiceFields) (pid rows parity : ℕ) (window : Option WindowFields) (records : List Record)
        → it.kind ≡ fec pid rows parity window → unit_numbers it (units_of it records) ≡ record { unread = unread_in rows pid records; filtered = 0; datagrams = 0 } }
    ensures numbers { (it : ServiceFields) (pid rows parity : ℕ) (window : Option WindowFields) (records : List Record)
        → it.kind ≡ fec pid rows parity window → service_pid_numbers it records ≡ pid_numbers section_form pid records }
{}
