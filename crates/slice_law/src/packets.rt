//! Packets of sections: how many a burst takes.
ghost use Rattle.std.specs.Prelude.{◌≡◌, ℕ, ◌+◌, ◌*◌, ◌≤◌, true, List, length, Some};
ghost use Rattle.section_spec.specs.Section.{section_form};
ghost use Rattle.unit_stream.specs.Packing.{byte_count, packetized};
ghost use Rattle.plan_spec.specs.Plan.{PlanFields, SlicedFields, sliced_of};
ghost use Rattle.plan_spec.specs.Valid.{is_plan};
ghost use Rattle.stream_spec.specs.Services.{kind_at};
ghost use Rattle.slice_law.specs.Packets.{AreSome};

/// Sections take at most one packet for each 183 of their bytes, a begun 183 counted.
pub fn packets_of_sections_are_full()
    ensures full { (pid counter : ℕ) (units : List (List ℕ)) → AreSome units
        → length (packetized section_form true pid counter units) * 183 ≤ byte_count units + 182 }
{}

/// Accepted settings: sections that have no more bytes than one of 4,096 and all MPE-FEC sections of a frame go out in one window.
pub fn a_burst_of_one_datagram_fits()
    ensures fits { (plan : PlanFields) → is_plan plan ≡ true → (k : ℕ) (fields : SlicedFields) → sliced_of (kind_at plan k) ≡ Some fields
        → (pid counter : ℕ) (units : List (List ℕ)) → AreSome units → byte_count units ≤ 4096 + fields.parity * (fields.rows + 16)
        → length (packetized section_form true pid counter units) ≤ fields.length }
{}
