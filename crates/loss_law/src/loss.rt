//! What a service delivers of what was sent.
ghost use Rattle.std.specs.Prelude.{◌≡◌, ℕ, ◌+◌, ◌*◌, ◌^◌, ◌<◌, List, [], length, slice_index_or, map, flat_map, Contains, true, Some};
ghost use Rattle.wire_spec.specs.Lists.{IsSubsequence};
ghost use Rattle.ts_spec.specs.Form.{IsLawful};
ghost use Rattle.ts_spec.specs.Recording.{RecordingForm, Record, m2ts, m2ts_stamp, records_of};
ghost use Rattle.ts_spec.specs.Received.{record_at, arrival_at, arrivals};
ghost use Rattle.ts_spec.specs.Reassembly.{PlacedUnit, accepted_units};
ghost use Rattle.ts_spec.specs.Packetized.{unit_at, IsIn};
ghost use Rattle.section_spec.specs.Section.{section_form};
ghost use Rattle.channel_spec.specs.Channel.{Channel};
ghost use Rattle.channel_spec.specs.Stamps.{KeepsStampsOf};
ghost use Rattle.channel_spec.specs.Spans.{IsSpanOf, HasNoLoneCopies};
ghost use Rattle.channel_spec.specs.Carried.{packets_sent, NoUndetectedError, ArrivedIntact, IsRising, IsAccepted, IsSentUnit};
ghost use Rattle.plan_spec.specs.Plan.{ServiceFields, pid_of};
ghost use Rattle.stream_spec.specs.Services.{form_of_kind, AreCarried};
ghost use Rattle.reception_spec.specs.Units.{delivered_by_unit};
ghost use Rattle.reception_spec.specs.Delivered.{told_by};
ghost use Rattle.fec_frame_spec.specs.Sections.{TimedSection};
ghost use Rattle.fec_frame_spec.specs.Frame.{FrameFields};
ghost use Rattle.fec_frame_spec.specs.Carried.{AreFramesOf};
ghost use Rattle.slice_spec.specs.Sections.{sliced};
ghost use Rattle.fec_frame_law.specs.Recovered.{no_frame, IsRecoverableFrom};
ghost use Rattle.loss_law.specs.Stamps.{falls};
ghost use Rattle.loss_law.specs.Frames.{HasMoments, HasMomentsFor, IsHeardOften, own_of_unit, DeliversFrames, DeliversOn, wanted_by};
ghost use Rattle.loss_law.specs.Loss.{CarriesOn, DeliversIntact};

/// Whatever is dropped, repeated, damaged or inserted: a service delivers of what its PID carries what arrived intact, by its kind.
///
/// Of SNDUs and datagram_sections wanted datagrams, unchanged and in order, with each whose unit arrived intact: they are read off the numbers
/// of the units, which rise, so nothing is delivered twice. Time stamps may be any. Of MPE-FEC frames, frame by frame, what is recovered of it.
/// In the whole recording, and in each span of it in which the service has the PID.
pub fn a_service_delivers_what_arrived_intact()
    ensures delivers { (pids : List ℕ) (sent recorded : List Record) (channel : Channel pids sent recorded) (span : List Record) → IsSpanOf span recorded
        → (form : RecordingForm) (service : ServiceFields) (pid : ℕ) → Contains pids pid → pid_of service.kind ≡ Some pid
        → (datagrams : List (List ℕ)) (carries : CarriesOn form service.kind pid sent datagrams)
        → NoUndetectedError channel span (form_of_kind service.kind) pid carries.units carries.begin
        → IsHeardOften service.kind form carries.before carries.units carries.moments datagrams carries.carried
        (IsAccepted channel span section_form pid carries.units carries.begin)
        → HasMomentsFor service.kind form carries.before carries.units carries.moments datagrams carries.carried channel span pid carries.begin
        → DeliversOn service.kind form carries.before carries.units carries.moments datagrams carries.carried channel span service pid carries.begin
        (told_by true form service span) }
{}

/// The wanted datagrams of SNDUs and datagram_sections that arrived intact are a subsequence of those delivered: each as often as such units
/// carry it. What is delivered is as `a_service_delivers_what_arrived_intact` says of these kinds.
pub fn datagrams_that_arrived_intact_are_delivered()
    ensures delivered { (pids : List ℕ) (sent recorded : List Record) (channel : Channel pids sent recorded) (span : List Record)
        → (service : ServiceFields) (pid : ℕ) (units : List (List ℕ)) (begin : ℕ → ℕ) (datagrams delivered : List (List ℕ))
        → DeliversIntact channel span service pid units begin datagrams delivered
        → (intact : List ℕ) → IsRising 0 intact → ((n : ℕ) → Contains intact n → (n < length units) × ArrivedIntact channel span pid units begin n)
        → IsSubsequence (flat_map (λ n. delivered_by_unit service (unit_at units n)) intact) delivered }
{}

/// Of MPE-FEC frames the datagrams whose own sections arrived intact are a subsequence of those delivered, whatever became of the other
/// sections of their frames; and so are all datagrams of a frame in which no row has more than 64 bytes that the sections that arrived intact
/// do not tell.
pub fn datagrams_of_sections_that_arrived_intact_are_delivered()
    ensures own { (pids : List ℕ) (sent recorded : List Record) (channel : Channel pids sent recorded) (span : List Record)
        → (pid rows : ℕ) (units : List (List ℕ)) (begin : ℕ → ℕ)
        → (fields : List FrameFields) (frames : List (List TimedSection)) (datagrams delivered : List (List ℕ))
        → DeliversFrames channel span pid rows units begin fields frames datagrams delivered
        → (intact : List ℕ) → IsRising 0 intact → ((n : ℕ) → Contains intact n → (n < length units) × ArrivedIntact channel span pid units begin n)
        → IsSubsequence (flat_map (λ n. own_of_unit rows (unit_at units n)) intact) delivered }
    ensures frame { (pids : List ℕ) (sent recorded : List Record) (channel : Channel pids sent recorded) (span : List Record)
        → (pid rows : ℕ) (units : List (List ℕ)) (begin : ℕ → ℕ)
        → (fields : List FrameFields) (frames : List (List TimedSection)) (datagrams delivered : List (List ℕ))
        → DeliversFrames channel span pid rows units begin fields frames datagrams delivered
        → (i : ℕ) → i < length fields → IsRecoverableFrom rows units frames (ArrivedIntact channel span pid units begin) i
        → IsSubsequence (slice_index_or fields i no_frame).datagrams delivered }
{}

/// Where the stamps of a PID survive, and no copy stands in a span without the packet that it is a copy of, accepted sections have their moments:
/// stamps of other PIDs and of copies are free, but in m2ts recordings, whose moments are counted over all records, no stamp may fall that
/// does not begin a new round of 2^30, and none be 2^30 or more above the one before.
///
/// So much is a moment there: the stamp, and 2^30 for each time that the stamps fell up to it. And by a clock that is ahead or
/// behind, moments are as good.
pub fn where_stamps_survive_sections_have_their_moments()
    ensures moments { (form : RecordingForm) (pids : List ℕ) (sent : List Record) (pieces : List (List ℕ)) (channel : Channel pids sent (records_of form pieces)) (pid : ℕ)
        → Contains pids pid → KeepsStampsOf form channel pid → (span : List Record) → IsSpanOf span (records_of form pieces) → HasNoLoneCopies channel span pid
        → (units : List (List ℕ)) (begin moments : ℕ → ℕ)
        → ((n m : ℕ) → n < length units → IsIn (packets_sent pid sent) m (begin n) → (arrival_at (arrivals pid sent) m).moment ≡ moments n)
        → (ten rows first : ℕ) (fields : List FrameFields) (frames : List (List TimedSection)) → AreFramesOf (sliced ten) rows first units moments fields frames
        → HasMoments channel span pid units begin ten rows frames }
    ensures ahead { (pids : List ℕ) (sent recorded : List Record) (channel : Channel pids sent recorded) (span : List Record) (pid : ℕ)
        (units : List (List ℕ)) (begin moments : ℕ → ℕ) (ten rows first : ℕ) (fields : List FrameFields) (frames : List (List TimedSection))
        → AreFramesOf (sliced ten) rows first units moments fields frames → (ahead behind : ℕ)
        → ((accepted : PlacedUnit) (n : ℕ) → Contains (accepted_units section_form pid span) accepted → IsSentUnit channel pid units begin n accepted
        → accepted.moment + behind ≡ moments n + ahead)
        → HasMoments channel span pid units begin ten rows frames }
    ensures falls { (pieces : List (List ℕ)) (j : ℕ) → j < length pieces
        → (record_at (records_of m2ts pieces) j).moment ≡ Some (m2ts_stamp (slice_index_or pieces j []) + 2 ^ 30 * falls 0 pieces j) }
{}

/// Without a filter all datagrams are wanted that a PID carries, by units or in MPE-FEC frames.
pub fn a_service_without_filter_wants_all()
    ensures all { (form : RecordingForm) (service : ServiceFields) (pid : ℕ) → pid_of service.kind ≡ Some pid
        → (before : ℕ) (units : List (List ℕ)) (moments : ℕ → ℕ) (datagrams : List (List ℕ))
        → AreCarried form service.kind before units moments datagrams → service.filter ≡ [] → wanted_by service.kind service units datagrams ≡ datagrams }
{}

/// Sections are a lawful kind of unit.
pub fn sections_are_a_lawful_kind_of_unit()
    ensures lawful { IsLawful section_form }
{}
