//! Settings files: loaded and read as a plan; what is wrong with one, and the services of a plan, as lines of text.
//!
//! Shelf -> [settings_load] -> plan. Plan -> [settings_load] -> output. Fault -> [settings_load] -> complaints.
//! Begin with `load_plan`, `list_services` and `put_fault`.
#![tactic(auto)]

mod fault;
mod line;
mod list;
mod load;
mod pieces;

pub use fault::{FileFault, SettingsError};
pub use line::put_fault;
pub use list::list_services;
pub use load::load_plan;
