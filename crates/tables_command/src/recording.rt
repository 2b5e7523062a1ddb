//! A plan -> the packets of its tables.
ghost use Rattle.std.specs.Prelude.{◌≡◌, ◌≤◌, ◌++◌, length, All, IfOk, OnOk, flat_map, Some};
ghost use Rattle.wire_spec.specs.Lists.{joined};
ghost use Rattle.plan.specs.PlanView.{plan_fields};
ghost use Rattle.plan.specs.Parts.{int_seen};
ghost use Rattle.int_spec.specs.Table.{table_bytes};
ghost use Rattle.plan_spec.specs.Signalling.{table_of};
ghost use Rattle.psi_spec.specs.Pat.{ProgramFields, pat_bytes};
ghost use Rattle.psi_spec.specs.Tables.{laid, laid_pmt, table_packets_of, tables_with};
ghost use Rattle.psi_tables.specs.Views.{program_seen};

use crate::packets::lay;
use crate::programs::{pat_of, pmt_of};
use plan::{IntPlan, Plan};
use psi_tables::{Pat, Program, write_pat, write_pmt};
use section_codec::SectionForm;
use std::alloc::{AllocError as OutOfMemory, Global};
use ts_mux::int_section;
use unit_stream::UnitForm;

/// Puts the packets of the PMT of a program after the others.
fn lay_pmt(
    alloc: Global,
    packets: &mut Vec<u8>,
    plan: &Plan,
    program: &Program,
) -> Result<(), OutOfMemory>
    requires pid { program.now.pid ≤ 8191 }
    ensures { OnOk result (packets.new.items ≡ packets.old.items ++ joined (laid_pmt (plan_fields plan.now) (program_seen program.now))) }
{
    let mut section = [0u8; SectionForm::LONGEST];
    let pmt = match pmt_of(alloc, plan.services.items(), program.number) {
        Ok(pmt) => pmt,
        Err(_) => return Err(OutOfMemory),
    };
    let size = write_pmt(&pmt, &mut section);
    lay(packets, program.pid, &section[..size])
}

/// Puts those of all PMTs.
fn lay_pmts(alloc: Global, packets: &mut Vec<u8>, plan: &Plan, pat: &Pat) -> Result<(), OutOfMemory>
    requires pids { All (λ (program : ProgramFields). program.pid ≤ 8191) pat.now.programs }
    ensures { OnOk result (packets.new.items ≡ packets.old.items ++ joined (flat_map (laid_pmt (plan_fields plan.now)) pat.now.programs)) }
{
    for place in 0..pat.len() {
        match lay_pmt(alloc, packets, plan, pat.at(place)) {
            Ok(()) => {}
            Err(_) => return Err(OutOfMemory),
        }
    }
    Ok(())
}

/// Puts those of the PAT.
fn lay_pat(packets: &mut Vec<u8>, pat: &Pat) -> Result<(), OutOfMemory>
    requires most { length pat.now.programs ≤ 253 }
    requires pids { All (λ (program : ProgramFields). program.pid ≤ 8191) pat.now.programs }
    ensures { OnOk result (packets.new.items ≡ packets.old.items ++ joined (laid 0 (pat_bytes pat.now))) }
{
    let mut section = [0u8; SectionForm::LONGEST];
    let size = write_pat(pat, &mut section);
    lay(packets, 0, &section[..size])
}

/// Puts those of the INT.
fn lay_int(
    alloc: Global,
    packets: &mut Vec<u8>,
    plan: &Plan,
    int: &IntPlan,
) -> Result<(), OutOfMemory>
    requires { (plan_fields plan.now).table ≡ Some (int_seen int.now) }
    ensures { OnOk result (packets.new.items ≡ packets.old.items ++ joined (laid int.now.pid (table_bytes (table_of (plan_fields plan.now) (int_seen int.now))))) }
{
    let section = match int_section(alloc, plan, 0, int) {
        Ok(section) => section,
        Err(_) => return Err(OutOfMemory),
    };
    lay(packets, int.pid, &section)
}

/// The packets of all tables of a plan with an INT.
fn tables_of(alloc: Global, plan: &Plan, int: &IntPlan) -> Result<Vec<u8>, OutOfMemory>
    requires { (plan_fields plan.now).table ≡ Some (int_seen int.now) }
    ensures { IfOk result (λ packets. packets.items ≡ joined (tables_with (plan_fields plan.now) (Some (int_seen int.now)))) }
{
    let mut packets = Vec::new(alloc);
    let pat = match pat_of(alloc, plan, int) {
        Ok(pat) => pat,
        Err(_) => return Err(OutOfMemory),
    };
    match lay_pat(&mut packets, &pat) {
        Ok(()) => {}
        Err(_) => return Err(OutOfMemory),
    }
    match lay_pmts(alloc, &mut packets, plan, &pat) {
        Ok(()) => {}
        Err(_) => return Err(OutOfMemory),
    }
    match lay_int(alloc, &mut packets, plan, int) {
        Ok(()) => Ok(packets),
        Err(_) => Err(OutOfMemory),
    }
}

/// The packets of the PAT, of each PMT and of the INT, as the plan is at first; none without an INT.
pub(crate) fn recording_of(alloc: Global, plan: &Plan) -> Result<Vec<u8>, OutOfMemory>
    ensures { IfOk result (λ packets. packets.items ≡ joined (table_packets_of (plan_fields plan.now))) }
{
    match &plan.table {
        Some(int) => match tables_of(alloc, plan, int) {
            Ok(packets) => Ok(packets),
            Err(_) => Err(OutOfMemory),
        },
        None => Ok(Vec::new(alloc)),
    }
}
