//! What follows of every run: with accepted settings, an input without a fault and objects that do not fail, it ends Done, or memory ran out.
//!
//! Laws over definitions alone: each is a function that does nothing, whose contract is the law.
//! They stand on `Runs` of ipencap_engine, which `run` ensures. Begin with `an_accepted_run_is_done`.
#![tactic(auto)]

ghost use Rattle.std.specs.Prelude.{◌≡◌, ◌<◌, List, ◌∷◌, ◌++◌, ℕ, false, Option, Some, ⊤};
ghost use Rattle.std.specs.List.{list_any};
ghost use Rattle.plan_spec.specs.Plan.{ServiceFields, IntFields, PlanFields, pid_of};
ghost use Rattle.plan_spec.specs.Signalling.{entry_of};
ghost use Rattle.psi_law.specs.Programs.{has_names};
ghost use Rattle.psi_law.specs.Printed.{PrintsEntry};
ghost use Rattle.ipe_io.specs.Told.{ShelfTold};
ghost use Rattle.ipencap_engine.specs.World.{World};
ghost use Rattle.ipencap_engine.specs.Jobs.{Job, to_tables, to_find, HasOuter, IsPlanOf};
ghost use Rattle.ipencap_engine.specs.Made.{Made, Makes};
ghost use Rattle.ipencap_engine.specs.Runs.{Runs};
ghost use Rattle.ipencap_engine.specs.Complete.{NoneRose};
ghost use Rattle.ipencap_engine.specs.declared.status.Status.{Status as End};
ghost use Rattle.run_law.specs.Accepted.{HasInput, IsDone};

use carrier_law::there_is_one_sent_stream;
use psi_law::what_tables_writes_is_found;
use stream_law::there_is_one_stream;

/// A run in which no count of faults rose ends Done, or memory ran out, where the command's settings, if it has any, are known and accepted, and its capture is
/// known and has no fault, or its recording has fewer than 2^32 pieces, by the bytes that were taken or as it is known. Done, all that it makes of a known input
/// stands. Of `relay` the recording is known, and what it delivers keeps the limits of a capture.
pub fn an_accepted_run_is_done()
    ensures { (job : Job) (end : End) (line : List ℕ) (before after : World) (plan : PlanFields) → Runs job end line before after (λ object. ⊤)
        → IsPlanOf job after.shelf plan → HasOuter job after.shelf → HasInput job plan before after → NoneRose before after
        → IsDone job plan end line before after }
{}

/// What a job makes of known bytes is one thing: its files, its output, its line and its status; of `relay` where the second settings file is known and gives a plan.
pub fn a_job_makes_one_thing()
    ensures one { (job : Job) (shelf : ShelfTold) (plan : PlanFields) (bytes : List ℕ) (now : Option (List ℕ)) (made other : Made) → HasOuter job shelf
        → Makes job shelf plan bytes now made → Makes job shelf plan bytes now other → made ≡ other }
{
    there_is_one_stream();
    there_is_one_sent_stream();
}

/// What `tables` makes of settings with an INT, `find` prints, with the INT on its PID: a line with its PID for each rule of each service with a service_id above 0,
/// whose pair of service_id and component_tag no service before it has.
pub fn what_tables_makes_is_printed_by_find()
    ensures printed { (name : List ℕ) (shelf other : ShelfTold) (plan search : PlanFields) (bytes : List ℕ) (left now : Option (List ℕ)) (tables found : Made)
        → IsPlanOf (to_tables name) shelf plan → Makes (to_tables name) shelf plan bytes left tables
        → (int : IntFields) (service : ServiceFields) (pid : ℕ) (earlier later : List ServiceFields) → plan.table ≡ Some int → plan.services ≡ earlier ++ service ∷ later
        → 0 < service.service_id → pid_of service.kind ≡ Some pid → list_any (has_names service.service_id service.component_tag) earlier ≡ false
        → IsPlanOf (to_find int.pid) other search → Makes (to_find int.pid) other search tables.output now found
        → PrintsEntry (entry_of plan.packet_rate service) pid found.output }
{
    what_tables_writes_is_found();
}
