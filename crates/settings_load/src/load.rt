//! The name of a settings file -> the plan that the file gives.
ghost use Rattle.std.specs.Prelude.{◌≡◌, ◌≢◌, ◌⊎◌, ℕ, ◌≤◌, List, IfOk, IfErr, IfSome, IsErrOf, MatchResult, None, Some};
ghost use Rattle.wire_spec.specs.Causes.{Rose};
ghost use Rattle.wire_spec.specs.Content.{Stays};
ghost use Rattle.plan_spec.specs.Plan.{PlanFields};
ghost use Rattle.plan.specs.PlanView.{plan_fields};
ghost use Rattle.settings_load.specs.Settings.{Refusal, IsKnown, IsAcceptedFile, IsRefusedFile, IsRefusedAs};
ghost use Rattle.settings_load.specs.Faults.{refusal_of};

use crate::fault::{FileFault, SettingsError};
use ipe_io::{LoadFault, Shelf};
use service_plan::{Plan, PlanError, read_plan};
use std::alloc::Global;

/// Loads a settings file, and reads the plan that it gives.
pub fn load_plan<S: Shelf>(alloc: Global, name: &str, shelf: &mut S) -> Result<Plan, SettingsError>
    ensures read { IfOk result (λ plan. IsKnown ((S.told shelf.new).file name.now) (λ bytes. IsAcceptedFile bytes (plan_fields plan))) }
    ensures refused { IfErr result (λ e. IfSome (refusal_of e) (λ refusal. IsRefusedAs ((S.told shelf.new).file name.now) refusal)) }
    ensures only { (bytes : List ℕ) (plan : PlanFields) → (S.told shelf.new).file name.now ≡ Some bytes → IsAcceptedFile bytes plan → IfErr result (λ e. refusal_of e ≡ None) }
    ensures fails { (bytes : List ℕ) (refusal : Refusal) → (S.told shelf.new).file name.now ≡ Some bytes → IsRefusedFile bytes refusal
        → MatchResult result (λ _. ⊥) (λ e. (refusal_of e ≡ Some refusal) ⊎ (refusal_of e ≡ None)) }
    ensures cause { IsErrOf result SettingsError.ShelfFault → Rose ((S.told shelf.old).faults name.now) ((S.told shelf.new).faults name.now) }
    ensures unchanged { (other : List ℕ) → Stays ((S.told shelf.old).file other) ((S.told shelf.new).file other) }
    ensures others { (other : List ℕ) → other ≢ name.now → (S.told shelf.new).file other ≡ (S.told shelf.old).file other }
    ensures later { (other : List ℕ) → (S.told shelf.old).faults other ≤ (S.told shelf.new).faults other }
    ensures kept { ¬ IsErrOf result SettingsError.ShelfFault → (other : List ℕ) → (S.told shelf.new).faults other ≡ (S.told shelf.old).faults other }
{
    let bytes = match shelf.load(alloc, name) {
        Ok(bytes) => bytes,
        Err(LoadFault::Failed) => return Err(SettingsError::ShelfFault),
        Err(LoadFault::TooLong) => return Err(SettingsError::File(FileFault::TooLong)),
        Err(LoadFault::OutOfMemory) => return Err(SettingsError::OutOfMemory),
    };
    match read_plan(alloc, &bytes) {
        Ok(plan) => Ok(plan),
        Err(PlanError::Fault(fault)) => Err(SettingsError::File(FileFault::Plan(fault))),
        Err(PlanError::OutOfMemory) => Err(SettingsError::OutOfMemory),
    }
}
