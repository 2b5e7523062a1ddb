//! A PAT and a PMT that are written read back, and by the tables of a plan each of its services is found.
//!
//! Laws over definitions alone: each is a function that does nothing, whose contract is the law.
//! They stand on psi_spec and psi_tables. Begin with `each_service_is_found`.
#![tactic(auto)]

ghost use Rattle.std.specs.Prelude.{◌≡◌, ℕ, ◌<◌, ◌≤◌, true, false, ◌&&◌, ◌==◌, nat_lt, List, [], ◌∷◌, ◌++◌, map, flat_map, All, Some};
ghost use Rattle.std.specs.List.{list_any};
ghost use Rattle.wire_spec.specs.Lists.{joined, IsCut};
ghost use Rattle.ipe_io.specs.Told.{InputTold};
ghost use Rattle.ts_spec.specs.Form.{IsUnit};
ghost use Rattle.ts_spec.specs.Recording.{plain, records_of};
ghost use Rattle.section_spec.specs.Section.{section_form};
ghost use Rattle.plan_spec.specs.Plan.{ServiceFields, IntFields, PlanFields, pid_of, table_pids, service_pids};
ghost use Rattle.plan_spec.specs.Changes.{plan_in};
ghost use Rattle.plan_spec.specs.Bytes.{IsOfBytes};
ghost use Rattle.plan_spec.specs.Signalling.{table_of, entry_of};
ghost use Rattle.plan_spec.specs.Wholes.{is_whole_plan};
ghost use Rattle.psi_spec.specs.Pat.{ProgramFields, PatFields, IsWritablePat, is_pat, pat_bytes, pat_fields};
ghost use Rattle.psi_spec.specs.Pmt.{PmtFields, IsWritablePmt, is_pmt, is_pmt_of, pmt_bytes, pmt_fields};
ghost use Rattle.psi_spec.specs.Named.{NamedRule, sections_on, int_on, pid_named, rules_of_entry, ReadsAs, AreNamed};
ghost use Rattle.psi_spec.specs.Tables.{laid, numbers_of, is_among, programs_of, table_packets_of};
ghost use Rattle.settings_spec.specs.Refusal.{IsAccepted};
ghost use Rattle.psi_tables.specs.Text.{IsFindText};
ghost use Rattle.tables_command.specs.Writing.{bytes_of_tables};
ghost use Rattle.find_command.specs.Finding.{IsFoundIn};
ghost use Rattle.psi_law.specs.OnPid.{HasNone};
ghost use Rattle.psi_law.specs.Order.{Rise, Fall};
ghost use Rattle.psi_law.specs.Programs.{IsApart, has_names};
ghost use Rattle.psi_law.specs.Printed.{PrintsEntry};

use int_table::{a_section_carries_one_table, a_table_is_told_by_its_bytes};
use plan_law::each_version_is_a_plan;
use settings_law::{accepted_settings_give_a_plan, accepted_settings_give_bytes};
use stream_law::the_table_reads_back_to_the_rules;
use ts_packet::{null_packet_is_read, written_packets_are_read};
use ts_record::cuts_are_unique;

/// A PAT that is written is one, and says what was written.
pub fn a_pat_reads_back()
    ensures is { (pat : PatFields) → IsWritablePat pat → is_pat (pat_bytes pat) ≡ true }
    ensures read { (pat : PatFields) → IsWritablePat pat → pat_fields (pat_bytes pat) ≡ pat }
{}

/// A PMT that is written is one, says what was written, and is that of its own number alone.
pub fn a_pmt_reads_back()
    ensures is { (pmt : PmtFields) → IsWritablePmt pmt → is_pmt (pmt_bytes pmt) ≡ true }
    ensures read { (pmt : PmtFields) → IsWritablePmt pmt → pmt_fields (pmt_bytes pmt) ≡ pmt }
    ensures own { (number : ℕ) (pmt : PmtFields) → IsWritablePmt pmt → is_pmt_of number (pmt_bytes pmt) ≡ (pmt.number == number) }
{}

/// Between packets of other PIDs, a section that is laid by itself is the one that is accepted on its PID.
pub fn a_laid_section_is_accepted()
    ensures accepted { (pid : ℕ) (front behind : List (List ℕ)) (section : List ℕ) → pid ≤ 8191 → IsUnit section_form section → HasNone pid front → HasNone pid behind
        → sections_on pid (records_of plain (front ++ (laid pid section ++ behind))) ≡ section ∷ [] }
{
    written_packets_are_read();
    null_packet_is_read();
}

/// The programs of a plan have its service_ids above 0, rising, each once; the PIDs of their PMTs fall, so that no two have one,
/// stand from 32 to 8190, and are no other PID that the plan has in any version.
pub fn programs_rise()
    ensures numbers { (plan : PlanFields) → is_whole_plan plan ≡ true → map (λ (p : ProgramFields). p.number) (programs_of plan) ≡ numbers_of plan.services }
    ensures rise { (plan : PlanFields) → Rise 0 (numbers_of plan.services) }
    ensures are { (plan : PlanFields) (n : ℕ) → is_among (numbers_of plan.services) n ≡ (nat_lt 0 n && is_among (map (λ (s : ServiceFields). s.service_id) plan.services) n) }
    ensures fall { (plan : PlanFields) → is_whole_plan plan ≡ true → Fall 8191 (map (λ (p : ProgramFields). p.pid) (programs_of plan)) }
    ensures apart { (plan : PlanFields) → is_whole_plan plan ≡ true → All (IsApart plan) (programs_of plan) }
    ensures versions { (plan : PlanFields) (version : ℕ) → is_whole_plan plan ≡ true
        → All (λ (p : ProgramFields). is_among (table_pids plan.table ++ service_pids (plan_in plan version)) p.pid ≡ false) (programs_of plan) }
{
    each_version_is_a_plan();
}

/// Of a plan with an INT, in the packets of its tables each service with a service_id above 0, whose service_id and component_tag no service
/// before it has both, is found on its PID, which each has; and the INT there is that of the plan.
pub fn each_service_is_found()
    ensures pid { (plan : PlanFields) (int : IntFields) (service : ServiceFields) (earlier later : List ServiceFields) → is_whole_plan plan ≡ true
        → plan.table ≡ Some int → plan.services ≡ earlier ++ service ∷ later → (pid : ℕ) × (pid_of service.kind ≡ Some pid) }
    ensures found { (plan : PlanFields) (int : IntFields) (service : ServiceFields) (pid : ℕ) (earlier later : List ServiceFields) → is_whole_plan plan ≡ true
        → plan.table ≡ Some int → plan.services ≡ earlier ++ service ∷ later → 0 < service.service_id → pid_of service.kind ≡ Some pid
        → list_any (has_names service.service_id service.component_tag) earlier ≡ false
        → pid_named (records_of plain (table_packets_of plan)) int.transport_stream_id service.service_id service.component_tag ≡ Some pid }
    ensures table { (plan : PlanFields) (int : IntFields) → is_whole_plan plan ≡ true → plan.table ≡ Some int → IsOfBytes plan
        → ReadsAs (int_on int.pid (records_of plain (table_packets_of plan))) (Some (table_of plan int)) }
    ensures named { (plan : PlanFields) (int : IntFields) (rules : List NamedRule) → is_whole_plan plan ≡ true → plan.table ≡ Some int → IsOfBytes plan
        → AreNamed int.pid (records_of plain (table_packets_of plan)) rules
        → rules ≡ flat_map (rules_of_entry (records_of plain (table_packets_of plan)) int.transport_stream_id) (table_of plan int).entries }
{
    written_packets_are_read();
    null_packet_is_read();
    each_version_is_a_plan();
    the_table_reads_back_to_the_rules();
    a_table_is_told_by_its_bytes();
    a_section_carries_one_table();
}

/// The text that is printed of the packets of these tables has a line with its PID for each rule of such a service.
pub fn each_service_is_printed()
    ensures printed { (plan : PlanFields) (int : IntFields) (service : ServiceFields) (pid : ℕ) (earlier later : List ServiceFields) (text : List ℕ) → is_whole_plan plan ≡ true
        → plan.table ≡ Some int → IsOfBytes plan → plan.services ≡ earlier ++ service ∷ later → 0 < service.service_id → pid_of service.kind ≡ Some pid
        → list_any (has_names service.service_id service.component_tag) earlier ≡ false
        → IsFindText int.pid (records_of plain (table_packets_of plan)) text → PrintsEntry (entry_of plan.packet_rate service) pid text }
{
    each_service_is_found();
}

/// The bytes that `tables` writes are cut into the packets of the tables again, and in no other way; and nothing is left.
pub fn written_tables_are_cut_into_their_packets()
    ensures cut { (plan : PlanFields) → IsCut 188 (bytes_of_tables plan) (table_packets_of plan) [] }
    ensures one { (plan : PlanFields) (pieces : List (List ℕ)) (tail : List ℕ) → IsCut 188 (bytes_of_tables plan) pieces tail → (pieces ≡ table_packets_of plan) × (tail ≡ []) }
{
    cuts_are_unique();
}

/// Of accepted settings with an INT: in the text of the records of what `tables` writes, and so in what `find` prints where it reads these bytes,
/// there is a line with its PID for each rule of each service with a service_id above 0, whose pair of service_id and component_tag no service before it has.
pub fn what_tables_writes_is_found()
    ensures pid { (settings : List ℕ) (plan : PlanFields) (int : IntFields) (service : ServiceFields) (earlier later : List ServiceFields) → IsAccepted settings plan
        → plan.table ≡ Some int → plan.services ≡ earlier ++ service ∷ later → (pid : ℕ) × (pid_of service.kind ≡ Some pid) }
    ensures text { (settings : List ℕ) (plan : PlanFields) (int : IntFields) (service : ServiceFields) (pid : ℕ) (earlier later : List ServiceFields) → IsAccepted settings plan
        → plan.table ≡ Some int → plan.services ≡ earlier ++ service ∷ later → 0 < service.service_id → pid_of service.kind ≡ Some pid
        → list_any (has_names service.service_id service.component_tag) earlier ≡ false
        → (pieces : List (List ℕ)) (tail text : List ℕ) → IsCut 188 (bytes_of_tables plan) pieces tail → IsFindText int.pid (records_of plain pieces) text
        → PrintsEntry (entry_of plan.packet_rate service) pid text }
    ensures found { (settings : List ℕ) (plan : PlanFields) (int : IntFields) (service : ServiceFields) (pid : ℕ) (earlier later : List ServiceFields) → IsAccepted settings plan
        → plan.table ≡ Some int → plan.services ≡ earlier ++ service ∷ later → 0 < service.service_id → pid_of service.kind ≡ Some pid
        → list_any (has_names service.service_id service.component_tag) earlier ≡ false
        → (input now : InputTold) (text : List ℕ) → input.left ≡ Some (bytes_of_tables plan) → IsFoundIn int.pid input now text
        → PrintsEntry (entry_of plan.packet_rate service) pid text }
{
    written_tables_are_cut_into_their_packets();
    accepted_settings_give_a_plan();
    accepted_settings_give_bytes();
    each_service_is_found();
    each_service_is_printed();
}
