//! A plan -> its PAT, and the PMT of each program.
ghost use Rattle.std.specs.Prelude.{◌≡◌, ◌≤◌, length, All, IfOk, option_map};
ghost use Rattle.std.specs.List.{filter_map};
ghost use Rattle.plan.specs.PlanView.{plan_fields};
ghost use Rattle.plan.specs.Parts.{int_seen, service_seen, services_seen};
ghost use Rattle.psi_spec.specs.Pat.{ProgramFields};
ghost use Rattle.psi_spec.specs.Tables.{pat_of_plan, stream_in as stream_in_program};
ghost use Rattle.psi_tables.specs.Views.{stream_seen};

use crate::numbers::numbers_of;
use crate::pids::{is_used, pid_of};
use plan::{IntPlan, Plan, Service};
use psi_tables::{Pat, Pmt, Program, Stream};
use std::alloc::{AllocError as OutOfMemory, Global};

/// The PIDs of PMTs are below this, from the largest down. Profile.
const ABOVE_PIDS: u16 = 8191;

/// The PAT of a plan: as many programs as services, or fewer.
pub(crate) fn pat_of(alloc: Global, plan: &Plan, int: &IntPlan) -> Result<Pat, OutOfMemory>
    ensures pat { IfOk result (λ pat. pat ≡ pat_of_plan (plan_fields plan.now) (int_seen int.now)) }
    ensures few { IfOk result (λ pat. length pat.programs ≤ length plan.now.services) }
    ensures pids { IfOk result (λ pat. All (λ (program : ProgramFields). program.pid ≤ 8191) pat.programs) }
{
    let numbers = match numbers_of(alloc, plan.services.items()) {
        Ok(numbers) => numbers,
        Err(_) => return Err(OutOfMemory),
    };
    let mut pat = Pat::new(alloc, int.transport_stream_id);
    let mut pid = ABOVE_PIDS;
    let mut place = 0;
    while pid > 0 {
        if place == numbers.len() {
            return Ok(pat);
        }
        pid -= 1;
        if !is_used(plan, pid) {
            let number = numbers[place];
            match pat.push(Program { number, pid }) {
                Ok(()) => {}
                Err(_) => return Err(OutOfMemory),
            }
            place += 1;
        }
    }
    Ok(pat)
}

/// The PMT of the program of this number.
pub(crate) fn pmt_of(alloc: Global, services: &[Service], number: u16) -> Result<Pmt, OutOfMemory>
    ensures number { IfOk result (λ pmt. pmt.number ≡ number) }
    ensures streams { IfOk result (λ pmt. pmt.streams ≡ filter_map (stream_in_program number) (services_seen services.now)) }
{
    let mut pmt = Pmt::new(alloc, number);
    for service in services {
        if let Some(stream) = stream_in(service, number) {
            match pmt.push(stream) {
                Ok(()) => {}
                Err(_) => return Err(OutOfMemory),
            }
        }
    }
    Ok(pmt)
}

/// The stream of a service in the program of this number.
fn stream_in(service: &Service, number: u16) -> Option<Stream>
    ensures { option_map stream_seen result ≡ stream_in_program number (service_seen service.now) }
{
    if service.service_id != number {
        return None;
    }
    match pid_of(&service.kind) {
        Some(pid) => Some(Stream {
            pid,
            tag: Some(service.component_tag),
        }),
        None => None,
    }
}
