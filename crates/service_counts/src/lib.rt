//! The numbers of one service: what a reception counts, and what a report prints.
//!
//! Receiving: service_reception, fec_reception, gse_reception -> [service_counts] -> loss_report.
//! Begin with `ServiceCounts::default`, and add with `sum`.
#![tactic(auto)]

mod counts;

pub use counts::ServiceCounts;
