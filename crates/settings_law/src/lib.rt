//! Settings that are accepted give what the laws of a stream ask of a plan.
//!
//! Laws over definitions alone: each is a function that does nothing, whose contract is the law.
//! They stand on settings_spec and plan_spec; service_plan and end_to_end_law stand on them.
#![tactic(auto)]

ghost use Rattle.std.specs.Prelude.{◌≡◌, List, ℕ, true};
ghost use Rattle.addr_rules.specs.Texts.{IsRuleText};
ghost use Rattle.addr_rules.specs.declared.rules.Rule.{Rule};
ghost use Rattle.plan_spec.specs.Plan.{PlanFields};
ghost use Rattle.settings_spec.specs.Refusal.{IsAccepted};
ghost use Rattle.plan_spec.specs.Changes.{plan_in};
ghost use Rattle.plan_spec.specs.Valid.{is_plan_of_settings, is_plan};
ghost use Rattle.plan_spec.specs.Wholes.{is_whole_plan};
ghost use Rattle.plan_spec.specs.Bytes.{IsOfBytes};

/// Accepted settings give a plan: each value is in its range, and no check over the whole fails, in each of its versions.
pub fn accepted_settings_give_a_plan()
    ensures settings { (bytes : List ℕ) (plan : PlanFields) → IsAccepted bytes plan → is_plan_of_settings plan ≡ true }
    ensures plan { (bytes : List ℕ) (plan : PlanFields) → IsAccepted bytes plan → is_plan plan ≡ true }
    ensures whole { (bytes : List ℕ) (plan : PlanFields) → IsAccepted bytes plan → is_whole_plan plan ≡ true }
{}

/// Its addresses are bytes, as many as each has.
pub fn accepted_settings_give_bytes()
    ensures bytes { (bytes : List ℕ) (plan : PlanFields) → IsAccepted bytes plan → IsOfBytes plan }
    ensures versions { (bytes : List ℕ) (plan : PlanFields) (version : ℕ) → IsAccepted bytes plan → IsOfBytes (plan_in plan version) }
{}

/// A settings file gives one plan: its document is read in one way, and a text spells one rule at most.
pub fn accepted_settings_give_one_plan()
    ensures plan { (bytes : List ℕ) (p q : PlanFields) → IsAccepted bytes p → IsAccepted bytes q → p ≡ q }
    ensures rule { (text : List ℕ) (r s : Rule) → IsRuleText text r → IsRuleText text s → r ≡ s }
{}
