//! Packetizations, one after another.
ghost use Rattle.std.specs.Prelude.{◌≡◌, ℕ, ◌-◌, ◌≤◌, List, ◌++◌, length, true};
ghost use Rattle.ts_spec.specs.Form.{UnitForm, IsLawful};
ghost use Rattle.ts_spec.specs.Packet.{PacketFields, continues};
ghost use Rattle.ts_spec.specs.Packetized.{packet_at, Packetizes};

/// Units packetized by themselves, after others whose counters they go on with, are packetized with these.
pub fn packetizations_go_on()
    ensures together { (form : UnitForm) → IsLawful form → (units more : List (List ℕ)) (packets behind : List PacketFields) (begin at : ℕ → ℕ)
        → Packetizes form units packets begin → Packetizes form more behind at
        → (1 ≤ length packets → 1 ≤ length behind → continues (packet_at packets (length packets - 1)) (packet_at behind 0) ≡ true)
        → (begins : ℕ → ℕ) × Packetizes form (units ++ more) (packets ++ behind) begins }
{}
