//! The list of services in settings.
ghost use Rattle.std.specs.Prelude.{◌≤◌, length};
ghost use Rattle.settings_spec.specs.Settings.{services_fault};
ghost use Rattle.settings_keys.specs.Lists.{views, tables_of};
ghost use Rattle.service_plan.specs.Reading.{AnswersOrWants};
ghost use Rattle.service_plan.specs.Drafts.{AreServicesOf};

use crate::fault::PlanError;
use crate::kinds::read_service;
use plan::ServiceList;
use std::alloc::Global;
use toml::Value;

/// Services, and whether each text of their rules is one.
#[derive(Drop)]
pub(crate) struct ServicesDraft {
    pub(crate) services: ServiceList,
    pub(crate) spelled: bool,
}

/// Reads the services, of which there are 64 at most.
pub(crate) fn read_services(alloc: Global, items: &[Value]) -> Result<ServicesDraft, PlanError>
    requires { length items.now ≤ 64 }
    ensures read { AnswersOrWants result (services_fault (tables_of (views items.now))) (AreServicesOf (tables_of (views items.now))) }
{
    let mut list = ServiceList::new(alloc);
    let mut spelled = true;
    for item in items {
        let table = match item.as_table() {
            Some(table) => table,
            None => continue,
        };
        let place = list.len() as u8;
        let draft = read_service(alloc, place, table)?;
        spelled &= draft.spelled;
        list.push(draft.service)?;
    }
    Ok(ServicesDraft {
        services: list,
        spelled,
    })
}
