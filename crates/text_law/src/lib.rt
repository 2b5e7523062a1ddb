//! The texts that are printed are determined: what `find` writes of records, and the report of a reception.
//!
//! Laws over definitions alone: each is a function that does nothing, whose contract is the law.
//! They stand on psi_tables and receive_command. Begin with `a_report_has_one_text`.
#![tactic(auto)]

ghost use Rattle.std.specs.Prelude.{◌≡◌, ℕ, List};
ghost use Rattle.ts_spec.specs.Recording.{Record};
ghost use Rattle.int_spec.specs.Reading.{Reading, IsReading};
ghost use Rattle.plan_spec.specs.Plan.{PlanFields};
ghost use Rattle.psi_tables.specs.Text.{IsFindText};
ghost use Rattle.receive_command.specs.Report.{IsReport};
ghost use Rattle.settings_spec.specs.Keys.{SettingsFault};
ghost use Rattle.settings_spec.specs.Refusal.{IsAccepted, IsRefused};

/// Records have a text of what they name, and no other.
pub fn a_find_has_one_text()
    ensures one { (pid : ℕ) (records : List Record) (t u : List ℕ) → IsFindText pid records t → IsFindText pid records u → t ≡ u }
    ensures some { (pid : ℕ) (records : List Record) → (t : List ℕ) × IsFindText pid records t }
{}

/// Bytes have a reading as an IP/MAC notification table, and no other: no two of its cases hold at once.
pub fn a_section_has_one_reading()
    ensures one { (b : List ℕ) (r s : Reading) → IsReading b r → IsReading b s → r ≡ s }
    ensures some { (b : List ℕ) → (r : Reading) × IsReading b r }
{}

/// A recording in pieces, with bytes after the last, has a report, and no other.
pub fn a_report_has_one_text()
    ensures one { (plan : PlanFields) (pieces : List (List ℕ)) (tail : ℕ) (t u : List ℕ) → IsReport plan pieces tail t → IsReport plan pieces tail u → t ≡ u }
    ensures some { (plan : PlanFields) (pieces : List (List ℕ)) (tail : ℕ) → (t : List ℕ) × IsReport plan pieces tail t }
{}

/// Settings are refused for one fault, and those that are accepted for none.
pub fn refused_settings_have_one_fault()
    ensures one { (bytes : List ℕ) (f g : SettingsFault) → IsRefused bytes f → IsRefused bytes g → f ≡ g }
    ensures apart { (bytes : List ℕ) (plan : PlanFields) (fault : SettingsFault) → IsAccepted bytes plan → ¬ IsRefused bytes fault }
{}
