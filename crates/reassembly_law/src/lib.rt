//! Laws of reassembly packet by packet, over definitions alone.
//!
//! A receiver that keeps the unit under way and the packet received last gives the events of the whole recording.
//! They stand on ts_spec; unit_stream is proved by them. Begin with `one_packet_more`.
#![tactic(auto)]

ghost use Rattle.std.specs.Prelude.{List, ℕ};
ghost use Rattle.ts_spec.specs.Form.{UnitForm, IsLawful};
ghost use Rattle.ts_spec.specs.Recording.{Record};
ghost use Rattle.ts_spec.specs.Received.{Arrival};
ghost use Rattle.reassembly_law.specs.UnderWay.{OnePacketMore, AreUnderWay};
ghost use Rattle.reassembly_law.specs.Records.{OneRecordMore};
ghost use Rattle.reassembly_law.specs.Starts.{StartsOneByOne};
ghost use Rattle.reassembly_law.specs.Examples.{SmallExamples, SmallStream};

/// What one packet more adds to the events of those before it.
pub fn one_packet_more()
    ensures { (form : UnitForm) (packets : List Arrival) (next : Arrival) → IsLawful form → OnePacketMore form packets next }
{}

/// A buffer of the longest unit's size holds each unit under way.
pub fn units_under_way_fit()
    ensures { (form : UnitForm) (packets : List Arrival) → IsLawful form → AreUnderWay form packets }
{}

/// What one record more adds to the received packets of a PID.
pub fn one_record_more()
    ensures { (pid : ℕ) (records : List Record) (r : Record) → OneRecordMore pid records r }
{}

/// The starts of a packet follow one from another.
pub fn starts_come_one_by_one()
    ensures { (form : UnitForm) (payload : List ℕ) (place : ℕ) → IsLawful form → StartsOneByOne form payload place }
{}

/// Small recordings and their events.
pub fn small_examples()
    ensures { SmallExamples }
{}

/// There are lawful kinds of unit, and packetized units.
pub fn a_small_stream_is_packetized()
    ensures { SmallStream }
{}
