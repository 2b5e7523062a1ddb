//! The reception of one PID: its packets come in one after another, and the datagrams of its service go out.
//!
//! Receiving: ts_packet -> unit_stream -> ule_unit or section_codec -> [service_reception] -> Outlet.
//! Begin with `Reception::take`, and with `IntReception::take` on the PID of the INT.
#![tactic(auto)]

mod carried;
mod counts;
mod events;
mod handling;
mod int_reception;
mod kept;
mod laws;
mod reception;

pub use carried::{Carried, UnitReader};
pub use counts::{count_event, count_link};
pub use int_reception::IntReception;
pub use laws::{a_record_of_another_pid_changes_nothing, what_was_delivered_stays};
pub use reception::Reception;
