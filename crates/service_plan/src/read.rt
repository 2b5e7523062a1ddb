//! Settings -> the plan that they give.
ghost use Rattle.std.specs.Prelude.{◌≡◌, ℕ, List, IfOk, IfErr, MatchResult, IsUtf8, Some, None};
ghost use Rattle.toml.specs.Errors.{IsMemory};
ghost use Rattle.toml.specs.Parse.{parse_document};
ghost use Rattle.toml.specs.View.{table_view};
ghost use Rattle.settings_spec.specs.Keys.{no_document};
ghost use Rattle.plan_spec.specs.Plan.{PlanFields};
ghost use Rattle.settings_spec.specs.Refusal.{IsDocument, IsNoDocument, IsAccepted, IsRefused, IsRefusedTable};
ghost use Rattle.service_plan.specs.Keys.{OnFault};
ghost use Rattle.plan.specs.PlanView.{plan_fields};
ghost use Rattle.service_plan.specs.Accepted.{IsAcceptedTable};

use crate::fault::{PlanError, PlanFault};
use crate::plan_checks::check_whole;
use crate::settings_draft::{Draft, read_tables};
use plan::Plan;
use std::alloc::Global;
use toml::Table;

/// Reads the document.
fn document(alloc: Global, text: &[u8]) -> Result<Table, PlanError>
    ensures read { IfOk result (λ top. IsDocument text.now (table_view top)) }
    ensures refused { IfErr result (λ e. OnFault e (λ f. (f ≡ no_document) × IsNoDocument text.now)) }
{
    match toml::table_from_slice(alloc, text) {
        Ok(top) => Ok(top),
        Err(error) => Err(error_of(&error)),
    }
}

/// Why a text gives no document: memory ran out, or it is none.
fn error_of(error: &toml::de::Error) -> PlanError
    ensures memory { IsMemory error.now → result ≡ PlanError.OutOfMemory }
    ensures text { ¬ IsMemory error.now → result ≡ PlanError.Fault PlanFault.Text }
{
    if error.is_memory() {
        PlanError::OutOfMemory
    } else {
        PlanError::Fault(PlanFault::Text)
    }
}

/// Reads the tables of a document, and checks the whole.
fn plan_of_table(alloc: Global, top: &Table) -> Result<Plan, PlanError>
    ensures read { IfOk result (λ plan. IsAcceptedTable (table_view top.now) (plan_fields plan)) }
    ensures refused { IfErr result (λ e. OnFault e (IsRefusedTable (table_view top.now))) }
{
    let draft = read_tables(alloc, top)?;
    check_whole(alloc, &draft)?;
    let Draft {
        recording,
        packet_rate,
        cycle,
        frame_bytes,
        table,
        services,
        changes,
        spelled: _,
    } = draft;
    Ok(Plan {
        recording,
        packet_rate,
        cycle,
        frame_bytes,
        table,
        services,
        changes,
    })
}

/// Reads a plan from settings, a TOML document.
///
/// The error names the first check that fails: the document; then the top table, that of the INT, each service and each change in
/// order, in each an unknown key first and then key by key; then the checks over the whole.
pub fn read_plan(alloc: Global, text: &[u8]) -> Result<Plan, PlanError>
    ensures read { IfOk result (λ plan. IsAccepted text.now (plan_fields plan)) }
    ensures refused { IfErr result (λ e. OnFault e (IsRefused text.now)) }
    ensures only { (plan : PlanFields) → IsAccepted text.now plan → IfErr result (λ e. e ≡ PlanError.OutOfMemory) }
{
    let top = document(alloc, text)?;
    plan_of_table(alloc, &top)
}
