//! Definitions of the tables that name services: PAT and PMT, what they and an INT name together, and the tables of a plan.
//!
//! Words for contracts, and no code but examples of them. They stand on section_spec, int_spec and plan_spec.
//! Standard: ISO/IEC 13818-1 clauses 2.4.4.3 and 2.4.4.8. Begin with `AreNamed` and `table_packets_of`.
#![tactic(auto)]

ghost use Rattle.std.specs.Prelude.{◌≡◌, ◌∷◌, [], true, false, Some, None};
ghost use Rattle.section_spec.specs.Section.{section_front};
ghost use Rattle.psi_spec.specs.Pat.{pat_body, pat_in_body, has_whole_programs};
ghost use Rattle.psi_spec.specs.Pmt.{pmt_body, pmt_in_body, has_loops, has_descriptors, is_right};
ghost use Rattle.psi_spec.specs.Named.{program_in, has_own_pid, pid_by_tag};
ghost use Rattle.psi_spec.specs.Tables.{numbers_of, programs_of, pmt_of, unused_below};
ghost use Rattle.psi_spec.specs.Examples.{small_pat, small_pat_body, small_pmt, small_pmt_body, other_pmt_body, double_pat, double_pmt, small_plan};

/// A PAT and a PMT as they are written: section_length is 13, and 29.
pub fn small_tables_are_written()
    ensures pat { pat_body small_pat ≡ small_pat_body }
    ensures pat_section { section_front 0x00 0xB0 (pat_body small_pat) ≡ 0x00 ∷ 0xB0 ∷ 0x0D ∷ small_pat_body }
    ensures pmt { pmt_body small_pmt ≡ small_pmt_body }
    ensures pmt_section { section_front 0x02 0xB0 (pmt_body small_pmt) ≡ 0x02 ∷ 0xB0 ∷ 0x1D ∷ small_pmt_body }
{}

/// And as they are read.
pub fn small_tables_are_read()
    ensures programs { has_whole_programs small_pat_body ≡ true }
    ensures pat { pat_in_body small_pat_body ≡ small_pat }
    ensures loops { has_loops small_pmt_body ≡ true }
    ensures descriptors { has_descriptors small_pmt_body ≡ true }
    ensures pmt { pmt_in_body small_pmt_body ≡ small_pmt }
{}

/// Descriptors of other tags are passed over, and a stream need have none.
pub fn another_table_is_read()
    ensures loops { has_loops other_pmt_body ≡ true }
    ensures descriptors { has_descriptors other_pmt_body ≡ true }
    ensures pmt { pmt_in_body other_pmt_body ≡ record { number = 10; streams = record { pid = 512; tag = Some 1 } ∷ record { pid = 513; tag = None } ∷ [] } }
    ensures tag { pid_by_tag 1 (pmt_in_body other_pmt_body) ≡ Some 512 }
    ensures none { pid_by_tag 2 (pmt_in_body other_pmt_body) ≡ None }
    ensures long { is_right (0x52 ∷ 2 ∷ 1 ∷ 1 ∷ []) ≡ false }
    ensures cut { is_right (0x09 ∷ 2 ∷ 1 ∷ []) ≡ false }
{}

/// Programs rise by number, and their PIDs go down past those of the INT and of the services, before a change and after it.
pub fn a_small_plan_has_tables()
    ensures numbers { numbers_of small_plan.services ≡ 10 ∷ 20 ∷ [] }
    ensures programs { programs_of small_plan ≡ record { number = 10; pid = 8188 } ∷ record { number = 20; pid = 8186 } ∷ [] }
    ensures pmt { pmt_of small_plan 20 ≡ record { number = 20; streams = record { pid = 512; tag = Some 1 } ∷ record { pid = 8187; tag = Some 2 } ∷ [] } }
{}

/// The first program of a number and the first stream of a component_tag count. A PMT is looked for on PIDs 32 to 8190, and none for program 0.
pub fn the_first_is_taken()
    ensures none { program_in 0 double_pat ≡ None }
    ensures first { program_in 10 double_pat ≡ Some (record { number = 10; pid = 100 }) }
    ensures stream { pid_by_tag 1 double_pmt ≡ Some 512 }
    ensures below { has_own_pid (record { number = 1; pid = 31 }) ≡ false }
    ensures least { has_own_pid (record { number = 1; pid = 32 }) ≡ true }
    ensures most { has_own_pid (record { number = 1; pid = 8190 }) ≡ true }
    ensures above { has_own_pid (record { number = 1; pid = 8191 }) ≡ false }
{}
