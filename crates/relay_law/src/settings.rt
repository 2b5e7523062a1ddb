//! From accepted settings to a relay.
ghost use Rattle.std.specs.Prelude.{ℕ, List, All};
ghost use Rattle.wire_spec.specs.Bytes.{AreBytes};
ghost use Rattle.plan_spec.specs.Plan.{PlanFields};
ghost use Rattle.settings_spec.specs.Refusal.{IsAccepted};
ghost use Rattle.recording_spec.specs.Relayed.{relayed, IsRelayed};
ghost use Rattle.relay_core.specs.Gathering.{FitsCapture};
ghost use Rattle.relay_law.specs.Relay.{IsRelay};

use settings_law::{accepted_settings_give_a_plan, accepted_settings_give_bytes};

/// Where the outer settings are accepted, and what the pieces deliver are bytes, no more than a capture has, their stream is a relay's: so what
/// the command promises at Done is what the laws on two hops ask.
pub fn accepted_settings_make_a_relay()
    ensures relay { (text : List ℕ) (inner outer : PlanFields) (pieces stream : List (List ℕ)) → IsAccepted text outer → FitsCapture (relayed inner pieces)
        → All AreBytes (relayed inner pieces) → IsRelayed inner outer pieces stream → IsRelay inner outer pieces stream }
{
    accepted_settings_give_a_plan();
    accepted_settings_give_bytes();
}
