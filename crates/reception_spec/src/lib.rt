//! Definitions of a reception: what a recording delivers of each service of a plan, and every number that is counted of it.
//!
//! Words for contracts, and no code but examples of them. They stand on stream_spec, fec_frame_spec and plan_spec.
//! Standards: ISO/IEC 13818-1 clause 2.4, RFC 4326, EN 301 192 clauses 7 and 8.
#![tactic(auto)]

ghost use Rattle.std.specs.Prelude.{◌≡◌, ℕ, [], List};
ghost use Rattle.plan_spec.specs.Plan.{PlanFields, ServiceFields};
ghost use Rattle.reception_spec.specs.Sums.{stream_numbers};
ghost use Rattle.reception_spec.specs.Delivered.{delivered_datagrams, delivered_pairs};
ghost use Rattle.reception_spec.specs.Examples.{small_plan, small_records};

/// An empty recording delivers nothing.
pub fn nothing_is_received_of_nothing()
    ensures pairs { (plan : PlanFields) → delivered_pairs plan [] ≡ [] }
{}

/// Four records: each is counted once. A packet without a moment counts as unreadable, whatever it is.
pub fn each_record_is_counted_once()
    ensures numbers { stream_numbers small_plan small_records ≡ record { records = 4; unreadable = 2; without_payload = 1; other = 1 } }
{}
