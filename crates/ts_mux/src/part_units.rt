//! What a part is sent from: the units of each service, and the section of its INT.
//!
//! It is made for all parts before the first packet goes out, so that no memory is wanted later.
ghost use Rattle.std.specs.Prelude.{◌≡◌, ◌≤◌, length, Some, IfOk};
ghost use Rattle.int_spec.specs.Table.{table_bytes};
ghost use Rattle.plan_spec.specs.Plan.{IntFields};
ghost use Rattle.plan_spec.specs.Changes.{plan_in};
ghost use Rattle.plan_spec.specs.Signalling.{table_of};
ghost use Rattle.plan.specs.PlanView.{plan_fields};

use crate::plan_int::int_section;
use crate::service_units::{ServiceUnits, units_of_service};
use datagram_routing::Lists;
use plan::Plan;
use std::alloc::{AllocError as OutOfMemory, Global};
use std::marker::Model;

/// What one part is sent from.
#[derive(Drop)]
pub(crate) struct PartUnits {
    /// The units of each service.
    units: Vec<ServiceUnits>,
    /// The section of the INT, of no bytes without one.
    section: Vec<u8>,
}

impl Model for PartUnits {
    ghost use Rattle.ts_mux.specs.PartUnits.{MadeUnits};

    ghost Value = { MadeUnits };

    ghost view = { λ p. record { units = p.units.items; section = p.section.items } };
}

/// The section of the INT of a version, of no bytes without one.
fn section_in(alloc: Global, plan: &Plan, version: u8) -> Result<Vec<u8>, OutOfMemory>
    requires version { version ≤ length plan.now.changes }
    ensures written { IfOk result (λ section. (int : IntFields) → (plan_fields plan.now).table ≡ Some int → section.items ≡ table_bytes (table_of (plan_in (plan_fields plan.now) version) int)) }
    ensures most { IfOk result (λ section. length section.items ≤ 4096) }
{
    match &plan.table {
        Some(int) => int_section(alloc, plan, version, int),
        None => Ok(Vec::new(alloc)),
    }
}

impl PartUnits {
    ghost use Rattle.std.specs.Prelude.{◌≡◌, ◌≤◌, ◌<◌, ◌+◌, [], length, get_or, slice_get, Some, IfOk, OnOk};
    ghost use Rattle.plan.specs.PlanView.{plan_fields};
    ghost use Rattle.ts_mux.specs.Services.{AreTaken, frames_before};
    ghost use Rattle.ts_mux.specs.PartUnits.{AreUnitsOf, AreNumbers, FewFrames};

    /// That of the part of a version. `numbers` has that of the first frame of each service; they go on to those of the next part.
    pub(crate) fn new(
        alloc: Global,
        plan: &Plan,
        version: u8,
        lists: &Lists,
        numbers: &mut [u32],
    ) -> Result<PartUnits, OutOfMemory>
        requires version { version ≤ length plan.now.changes }
        requires versions { length lists.now ≡ length plan.now.changes + 1 }
        requires lists { AreTaken (plan_fields plan.now) (get_or lists.now version []) }
        requires few { FewFrames (plan_fields plan.now) lists.now (version + 1) }
        requires numbers { AreNumbers (plan_fields plan.now) lists.now version numbers.old }
        ensures made { IfOk result (AreUnitsOf (plan_fields plan.now) version (frames_before (plan_fields plan.now) lists.now version) (get_or lists.now version [])) }
        ensures numbers { OnOk result (AreNumbers (plan_fields plan.now) lists.now (version + 1) numbers.new) }
    {
        let section = section_in(alloc, plan, version)?;
        let mut units = Vec::new(alloc);
        for k in 0..plan.services.len() {
            let list = lists.at(version, k as u32);
            let of_service = units_of_service(alloc, plan.services.at(k), list, numbers[k])?;
            numbers[k] += of_service.frames();
            units.push(of_service)?;
        }
        Ok(PartUnits { units, section })
    }

    /// Lends the units of a service.
    pub(crate) fn units_at(&self, k: usize) -> &ServiceUnits
        requires { k < length self.now.units }
        ensures read { slice_get self.now.units k ≡ Some result.now }
    {
        &self.units[k]
    }

    /// Lends the section of the INT.
    pub(crate) fn section(&self) -> &[u8]
        ensures read { result.now ≡ self.now.section }
    {
        self.section.as_slice()
    }
}
