//! What arrives of units, and of the datagrams of a ULE stream, in a span of a recording.
ghost use Rattle.std.specs.Prelude.{◌≡◌, ℕ, ◌<◌, List, length, map, flat_map, Contains};
ghost use Rattle.wire_spec.specs.Lists.{IsSubsequence};
ghost use Rattle.ts_spec.specs.Form.{UnitForm, IsLawful};
ghost use Rattle.ts_spec.specs.Recording.{Record};
ghost use Rattle.ts_spec.specs.Reassembly.{accepted_units, PlacedUnit};
ghost use Rattle.ts_spec.specs.Packetized.{unit_at, Packetizes};
ghost use Rattle.ts_spec.specs.Sndu.{sndu_form};
ghost use Rattle.channel_spec.specs.Channel.{Channel};
ghost use Rattle.channel_spec.specs.Spans.{IsSpanOf};
ghost use Rattle.channel_spec.specs.Carried.{packets_sent, IsCarried, NoUndetectedError, ArrivedIntact, IsAccepted, IsRising, IncludesIntact};
ghost use Rattle.channel_spec.specs.Delivered.{carried_by_sndu, delivered_by_ule};

// Units.

/// The accepted units are sent ones, in order and each once, and each that arrived intact is among them.
///
/// Read off their numbers: the accepted units are a subsequence of those sent, and nothing that arrived intact is missing.
pub fn accepted_units_are_numbered()
    ensures numbered { (pids : List ℕ) (sent recorded : List Record) (channel : Channel pids sent recorded) (span : List Record) → IsSpanOf span recorded
        → (form : UnitForm) (pid : ℕ) → Contains pids pid → (units : List (List ℕ)) (begin : ℕ → ℕ) → IsCarried form pid sent units begin
        → NoUndetectedError channel span form pid units begin
        → (numbers : List ℕ) × IncludesIntact channel span pid units begin numbers
        × (map (λ (accepted : PlacedUnit). accepted.unit) (accepted_units form pid span) ≡ map (unit_at units) numbers) }
{}

/// The accepted units are a subsequence of those sent.
pub fn accepted_units_were_sent()
    ensures sent { (pids : List ℕ) (sent recorded : List Record) (channel : Channel pids sent recorded) (span : List Record) → IsSpanOf span recorded
        → (form : UnitForm) (pid : ℕ) → Contains pids pid → (units : List (List ℕ)) (begin : ℕ → ℕ) → IsCarried form pid sent units begin
        → NoUndetectedError channel span form pid units begin
        → IsSubsequence (map (λ (accepted : PlacedUnit). accepted.unit) (accepted_units form pid span)) units }
{}

/// Each unit that arrived intact is accepted, from its own record and place, whatever errors are not detected.
pub fn intact_units_are_accepted()
    ensures accepted { (pids : List ℕ) (sent recorded : List Record) (channel : Channel pids sent recorded) (span : List Record) → IsSpanOf span recorded
        → (form : UnitForm) (pid : ℕ) → Contains pids pid → (units : List (List ℕ)) (begin : ℕ → ℕ) → IsCarried form pid sent units begin
        → (n : ℕ) → n < length units → ArrivedIntact channel span pid units begin n → IsAccepted channel span form pid units begin n }
{}

/// Units that arrived intact are a subsequence of the accepted ones.
pub fn intact_units_are_among_the_accepted()
    ensures among { (pids : List ℕ) (sent recorded : List Record) (channel : Channel pids sent recorded) (span : List Record) → IsSpanOf span recorded
        → (form : UnitForm) (pid : ℕ) → Contains pids pid → (units : List (List ℕ)) (begin : ℕ → ℕ) → IsCarried form pid sent units begin
        → NoUndetectedError channel span form pid units begin
        → (intact : List ℕ) → IsRising 0 intact
        → ((n : ℕ) → Contains intact n → (n < length units) × ArrivedIntact channel span pid units begin n)
        → IsSubsequence (map (unit_at units) intact) (map (λ (accepted : PlacedUnit). accepted.unit) (accepted_units form pid span)) }
{}

// Datagrams of ULE.

/// SNDUs are a lawful kind of unit.
pub fn sndus_are_a_lawful_kind_of_unit()
    ensures lawful { IsLawful sndu_form }
{}

/// The delivered datagrams are those that sent SNDUs carry, in order and each once, with every one that arrived intact.
pub fn delivered_datagrams_are_numbered()
    ensures numbered { (pids : List ℕ) (sent recorded : List Record) (channel : Channel pids sent recorded) (span : List Record) → IsSpanOf span recorded
        → (pid : ℕ) → Contains pids pid → (units : List (List ℕ)) (begin : ℕ → ℕ) → Packetizes sndu_form units (packets_sent pid sent) begin
        → NoUndetectedError channel span sndu_form pid units begin
        → (numbers : List ℕ) × IncludesIntact channel span pid units begin numbers
        × (delivered_by_ule pid span ≡ flat_map (λ n. carried_by_sndu (unit_at units n)) numbers) }
{}

/// The delivered datagrams are a subsequence of those that were sent.
pub fn delivered_datagrams_were_sent()
    ensures sent { (pids : List ℕ) (sent recorded : List Record) (channel : Channel pids sent recorded) (span : List Record) → IsSpanOf span recorded
        → (pid : ℕ) → Contains pids pid → (units : List (List ℕ)) (begin : ℕ → ℕ) → Packetizes sndu_form units (packets_sent pid sent) begin
        → NoUndetectedError channel span sndu_form pid units begin
        → IsSubsequence (delivered_by_ule pid span) (flat_map carried_by_sndu units) }
{}

/// The datagrams of SNDUs that arrived intact are a subsequence of those delivered: each as often as such SNDUs carry it.
pub fn intact_datagrams_are_delivered()
    ensures delivered { (pids : List ℕ) (sent recorded : List Record) (channel : Channel pids sent recorded) (span : List Record) → IsSpanOf span recorded
        → (pid : ℕ) → Contains pids pid → (units : List (List ℕ)) (begin : ℕ → ℕ) → Packetizes sndu_form units (packets_sent pid sent) begin
        → NoUndetectedError channel span sndu_form pid units begin
        → (intact : List ℕ) → IsRising 0 intact
        → ((n : ℕ) → Contains intact n → (n < length units) × ArrivedIntact channel span pid units begin n)
        → IsSubsequence (flat_map (λ n. carried_by_sndu (unit_at units n)) intact) (delivered_by_ule pid span) }
{}
