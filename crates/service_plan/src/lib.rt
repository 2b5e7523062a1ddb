//! Settings in TOML -> the plan that they give, or the first check that they fail.
//!
//! Settings -> [service_plan] -> plan. TOML 1.1, EN 301 192 clause 8.4 (the INT's packets).
//! Begin with `read_plan`. The types and calls of `plan` are passed on.
#![tactic(auto)]

mod change_checks;
mod changes;
mod fault;
mod int;
mod int_packets;
mod kinds;
mod plan_checks;
mod read;
mod service_draft;
mod services;
mod settings_draft;
mod top;
mod unique_checks;
mod window_checks;

pub use fault::{PlanError, PlanFault};
pub use plan::{
    Change, ChangeList, IntPlan, Kind, Moved, MovedList, Name, Plan, Service, ServiceList, longest,
    pid_in, route, route_in, sample_plan, ule_plan, version_at,
};
pub use read::read_plan;
pub use settings_keys::Key;
