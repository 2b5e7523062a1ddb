//! Laws of the definitions: the sender's one packetization carries the units.
ghost use Rattle.std.specs.Prelude.{ℕ, ◌<◌, Bool, List, length};
ghost use Rattle.ts_spec.specs.Form.{UnitForm as Form, IsLawful, IsUnit};
ghost use Rattle.ts_spec.specs.Packetized.{unit_at, Packetizes};
ghost use Rattle.unit_stream.specs.Packing.{packetized};

/// The packets that a packer writes carry the units, each at one place, with right pointers and counters.
pub fn packetized_units_are_carried()
    ensures { (form : Form) (packing : Bool) (pid counter : ℕ) (units : List (List ℕ))
        → IsLawful form → ((n : ℕ) → n < length units → IsUnit form (unit_at units n))
        → (begin : ℕ → ℕ) × Packetizes form units (packetized form packing pid counter units) begin }
{}
