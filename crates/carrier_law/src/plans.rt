//! Plans of transport packets: what the checks of settings say of them.
ghost use Rattle.std.specs.Prelude.{◌≡◌, true, false};
ghost use Rattle.plan_spec.specs.Plan.{PlanFields, is_baseband};
ghost use Rattle.plan_spec.specs.Wholes.{is_whole_plan};
ghost use Rattle.stream_spec.specs.Stream.{are_on_pids};

/// All services have PIDs: those of GSE packets need baseband frames.
pub fn a_plan_of_transport_packets_has_pids()
    ensures pids { (plan : PlanFields) → is_whole_plan plan ≡ true → is_baseband plan ≡ false → are_on_pids plan ≡ true }
{}
