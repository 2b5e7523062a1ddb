//! Definitions of settings: the keys of their tables, which settings are refused and for what, the plan that the others give.
//!
//! Words for contracts, and no code but examples of them. They stand on plan_spec and the documents of `toml`. Standard: TOML 1.1.
#![tactic(auto)]

ghost use Rattle.std.specs.Prelude.{◌≡◌, ℕ, List, map, codes, negsuc, [], ◌∷◌, Some, None};
ghost use Rattle.toml.specs.Data.{integer, string, no_members};
ghost use Rattle.plan_spec.specs.Plan.{PlanFields, service_rules, with_rules};
ghost use Rattle.plan_spec.specs.Given.{sample_plan};
ghost use Rattle.plan_spec.specs.Examples.{plan_that_changes};
ghost use Rattle.settings_spec.specs.Refusal.{IsRefused, IsAccepted};
ghost use Rattle.settings_spec.specs.Keys.{SettingsFault, missing, wrong_type, out_of_range, unknown_key, key_fault, tables_at};
ghost use Rattle.settings_spec.specs.Settings.{int_key, change_key, changes_fault, tables_fault, changes_at, plan_of};
ghost use Rattle.settings_spec.specs.Changes.{without_rules, with_changes};
ghost use Rattle.settings_spec.specs.Examples.{both, number, with_speed, moving, moving_unsignalled};

/// Settings are refused for one fault, or accepted: never both.
pub fn settings_have_one_answer()
    ensures fault { (bytes : List ℕ) (one other : SettingsFault) → IsRefused bytes one → IsRefused bytes other → one ≡ other }
    ensures either { (bytes : List ℕ) (plan : PlanFields) (fault : SettingsFault) → IsAccepted bytes plan → ¬ IsRefused bytes fault }
{}

/// What is wrong with the tables of settings, and with those that differ by a value.
pub fn tables_of_settings()
    ensures right { tables_fault (both (codes "stamped") 1500 20000 (number 513)) ≡ None }
    ensures text { tables_fault (both (codes "stamped") 1500 20000 (string (codes "513"))) ≡ Some (wrong_type (codes "pid")) }
    ensures low { tables_fault (both (codes "stamped") 1500 20000 (number 31)) ≡ Some (out_of_range (codes "pid")) }
    ensures least { tables_fault (both (codes "stamped") 1500 20000 (number 32)) ≡ None }
    ensures negative { tables_fault (both (codes "stamped") 1500 20000 (integer (negsuc 0))) ≡ Some (out_of_range (codes "pid")) }
    ensures word { tables_fault (both (codes "stumped") 1500 20000 (number 513)) ≡ Some (out_of_range (codes "recording")) }
    ensures unknown { tables_fault (with_speed (both (codes "stamped") 1500 20000 (number 513))) ≡ Some unknown_key }
    ensures nothing { tables_fault no_members ≡ Some (missing (codes "service")) }
    ensures change { tables_fault (moving (number 514)) ≡ None }
    ensures moved { tables_fault (moving (number 31)) ≡ Some (out_of_range (codes "pid")) }
    ensures unsignalled { tables_fault moving_unsignalled ≡ Some (missing (codes "int")) }
{}

/// What is wrong with changes by themselves, and that they need an INT.
pub fn changes_of_settings()
    ensures right { changes_fault (tables_at (codes "change") (moving (number 514))) ≡ None }
    ensures low { changes_fault (tables_at (codes "change") (moving (number 31))) ≡ Some (out_of_range (codes "pid")) }
    ensures list { key_fault change_key (moving (number 31)) ≡ None }
    ensures signalled { key_fault (int_key (moving (number 514))) (moving (number 514)) ≡ None }
    ensures unsignalled { key_fault (int_key moving_unsignalled) moving_unsignalled ≡ Some (missing (codes "int")) }
{}

/// The values of the sample job's settings are those of its plan, whose rules their texts spell.
pub fn settings_of_the_sample()
    ensures plan { with_rules (plan_of (both (codes "stamped") 1500 4000 (number 513))) (service_rules sample_plan) ≡ sample_plan }
{}

/// Settings of files that move give the plan, whose rules stay where the change names none.
pub fn settings_that_change()
    ensures plan { with_changes (with_rules (plan_of (moving (number 514))) (service_rules plan_that_changes)) (map without_rules (changes_at (moving (number 514)))) ≡ plan_that_changes }
{}
