//! The end of a service's table: its rules, and the values that every kind has.
ghost use Rattle.std.specs.Prelude.{◌≡◌, ◌≤◌, Bool, true, false, codes};
ghost use Rattle.toml.specs.View.{table_view};
ghost use Rattle.settings_spec.specs.Keys.{keys_fault, key_fault};
ghost use Rattle.settings_spec.specs.Settings.{last_keys, filter_key};
ghost use Rattle.settings_spec.specs.Keys.{items_at};
ghost use Rattle.settings_keys.specs.Lists.{views, macs_of};
ghost use Rattle.service_plan.specs.Reading.{AnswersOrWants};
ghost use Rattle.service_plan.specs.Services.{IsEnded};

use crate::fault::{PlanError, PlanFault};
use addr_rules::MacList;
use plan::{Kind, Name, Service};
use settings_keys::{Key, addresses, filter_items, number, rules, unicast};
use std::alloc::Global;
use toml::{Table, Value};

/// A service, and whether each text of its rules is one.
#[derive(Drop)]
pub(crate) struct ServiceDraft {
    pub(crate) service: Service,
    pub(crate) spelled: bool,
}

/// Reads the filter.
pub(crate) fn filter(alloc: Global, table: &Table) -> Result<MacList, PlanError>
    ensures read { AnswersOrWants result (key_fault filter_key (table_view table.now)) (λ list. list ≡ macs_of (items_at (codes "filter") (table_view table.now))) }
{
    let items = match filter_items(table) {
        Ok(Some(items)) => items,
        Ok(None) => return Ok(MacList::new(alloc)),
        Err(fault) => return Err(PlanError::Fault(fault)),
    };
    match addresses(alloc, items)? {
        Some(list) => Ok(list),
        None => Err(PlanError::Fault(PlanFault::Range(Key::Filter))),
    }
}

/// Reads the last values, and makes the service.
#[tactic(auto, using(settings_keys::proofs::KeyLemmas::first_here, settings_keys::proofs::KeyLemmas::first_later))]
pub(crate) fn finish(
    alloc: Global,
    place: u8,
    table: &Table,
    name: &str,
    kind: Kind,
    items: &[Value],
    filter: MacList,
) -> Result<ServiceDraft, PlanError>
    ensures read { AnswersOrWants result (keys_fault last_keys (table_view table.now)) (IsEnded (table_view table.now) place name.now kind (views items.now) filter) }
{
    let unicast = unicast(table)?;
    let service_id = number(table, Key::ServiceId, 0, 0xFFFF, Some(1))?;
    let component_tag = number(table, Key::ComponentTag, 0, 0xFF, Some(u32::from(place)))?;
    let name = Name::new(alloc, name)?;
    let (rules, spelled) = rules(alloc, items)?;
    let service = Service {
        name,
        kind,
        rules,
        filter,
        unicast,
        service_id: service_id as u16,
        component_tag: component_tag as u8,
    };
    Ok(ServiceDraft { service, spelled })
}
