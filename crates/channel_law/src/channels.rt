//! What a channel leaves: moments, spans, and one PID by itself; and channels that there are, so that the premises can hold.
ghost use Rattle.std.specs.Prelude.{◌≡◌, ℕ, ◌+◌, ◌<◌, List, [], ◌∷◌, ◌++◌, length, drop, map, slice_index_or, Contains, Some};
ghost use Rattle.ts_spec.specs.Form.{UnitForm};
ghost use Rattle.ts_spec.specs.Recording.{Record, RecordingForm, m2ts, m2ts_stamp, records_of};
ghost use Rattle.ts_spec.specs.Received.{record_at, Arrival, arrival_at, arrivals, received_packets};
ghost use Rattle.ts_spec.specs.Reassembly.{accepted_units, PlacedUnit};
ghost use Rattle.ts_spec.specs.Events.{events_of};
ghost use Rattle.channel_spec.specs.Channel.{IsForeign, Channel};
ghost use Rattle.channel_spec.specs.Stamps.{stamp_of, KeepsStamps};
ghost use Rattle.channel_spec.specs.Spans.{IsSpanOf, HasNoLoneCopies};
ghost use Rattle.channel_spec.specs.Carried.{IsCarried, IsSentUnit, IsAccepted};
ghost use Rattle.channel_spec.specs.Delivered.{delivered_by_ule};
ghost use Rattle.channel_law.specs.Examples.{SmallLoss};
ghost use Rattle.channel_law.specs.Words.{timed_packet, timed_unit, IsShift};

// Moments.

/// Accepted units that were sent have the moments of their records in what was sent: in m2ts recordings but for one constant.
///
/// The constant is a multiple of 2^30, since moments are counted on from the stamp of the first record that was recorded.
/// It is one for all spans of a recording.
pub fn accepted_units_have_their_moments()
    ensures moments { (recording : RecordingForm) (pids : List ℕ) (sent : List Record) (pieces : List (List ℕ)) (channel : Channel pids sent (records_of recording pieces))
        → KeepsStamps recording channel
        → (shift : ℕ) × IsShift recording shift
        × ((span : List Record) → IsSpanOf span (records_of recording pieces) → (form : UnitForm) (pid : ℕ) → Contains pids pid → HasNoLoneCopies channel span pid
        → (units : List (List ℕ)) (begin : ℕ → ℕ) → IsCarried form pid sent units begin
        → (accepted : PlacedUnit) → Contains (accepted_units form pid span) accepted
        → (n : ℕ) (is : IsSentUnit channel pid units begin n accepted)
        → accepted.moment + shift ≡ (arrival_at (arrivals pid sent) is.packet).moment) }
{}

/// The stamp that the channel's rule names is that of the piece of which an m2ts record was read.
pub fn m2ts_records_have_their_stamps()
    ensures stamps { (pieces : List (List ℕ)) (j : ℕ) → j < length pieces
        → stamp_of (record_at (records_of m2ts pieces) j) ≡ Some (m2ts_stamp (slice_index_or pieces j [])) }
{}

// Spans.

/// A recording is a span of itself, and no copy in it lacks the record that it is a copy of.
pub fn a_recording_is_a_span_of_itself()
    ensures span { (recorded : List Record) → IsSpanOf recorded recorded }
    ensures no_lone_copies { (pids : List ℕ) (sent recorded : List Record) (channel : Channel pids sent recorded) (pid : ℕ) → HasNoLoneCopies channel recorded pid }
{}

/// Where stamps survive, and each copy in a span has the record that it is a copy of, a packet that is received there is no copy.
pub fn received_packets_of_a_span_are_no_copies()
    ensures no_copy { (recording : RecordingForm) (pids : List ℕ) (sent recorded : List Record) (channel : Channel pids sent recorded) → KeepsStamps recording channel
        → (span : List Record) → IsSpanOf span recorded → (pid : ℕ) → Contains pids pid → HasNoLoneCopies channel span pid
        → (packet : Arrival) (n time : ℕ) → Contains (received_packets pid span) packet
        → channel.place packet.place ≡ Some n → (record_at sent n).moment ≡ Some time → channel.first packet.place ≡ packet.place }
{}

// One PID by itself.

/// What is received on a PID depends on the readable packets of the PID alone.
///
/// Two recordings that have the same ones, with moments, in the same order, give the same units with their moments,
/// the same events, and the same datagrams.
pub fn a_pid_is_received_by_itself()
    ensures units { (form : UnitForm) (pid : ℕ) (one other : List Record) → map timed_packet (arrivals pid one) ≡ map timed_packet (arrivals pid other)
        → map timed_unit (accepted_units form pid one) ≡ map timed_unit (accepted_units form pid other) }
    ensures events { (form : UnitForm) (pid : ℕ) (one other : List Record) → map timed_packet (arrivals pid one) ≡ map timed_packet (arrivals pid other)
        → events_of form (received_packets pid one) ≡ events_of form (received_packets pid other) }
    ensures datagrams { (pid : ℕ) (one other : List Record) → map timed_packet (arrivals pid one) ≡ map timed_packet (arrivals pid other)
        → delivered_by_ule pid one ≡ delivered_by_ule pid other }
{}

// Premises that hold.

/// Records came through a channel that changes nothing, and of a stream so recorded each unit is accepted.
pub fn a_stream_without_loss_is_accepted()
    ensures accepted { (pids : List ℕ) (records : List Record) → (channel : Channel pids records records)
        × ((recording : RecordingForm) (pieces : List (List ℕ)) → records ≡ records_of recording pieces → KeepsStamps recording channel)
        × ((form : UnitForm) (pid : ℕ) → Contains pids pid → (units : List (List ℕ)) (begin : ℕ → ℕ) → IsCarried form pid records units begin
        → (n : ℕ) → n < length units → IsAccepted channel records form pid units begin n) }
{}

/// A recording that lacks its first records came through a channel, and its stamps survived, whatever moments it then has.
pub fn a_recording_may_begin_late()
    ensures late { (pids : List ℕ) (recording : RecordingForm) (pieces : List (List ℕ)) (n : ℕ)
        → (channel : Channel pids (records_of recording pieces) (records_of recording (drop n pieces))) × KeepsStamps recording channel }
{}

/// Anywhere in a recording that came through a channel a record may be inserted in which a receiver of its PIDs reads nothing.
pub fn records_of_others_may_be_inserted()
    ensures inserted { (pids : List ℕ) (sent front behind : List Record) (r : Record) → Channel pids sent (front ++ behind) → IsForeign pids r
        → Channel pids sent (front ++ r ∷ behind) }
{}

/// In a small recording that lost records, has a copy of one, a damaged one and one of others, all premises hold: what is left is delivered.
pub fn a_small_recording_gives_what_is_left()
    ensures small { SmallLoss }
{}
