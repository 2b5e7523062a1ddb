//! The report of a reception: what was counted of the stream, of each service and of the address table, as lines of text.
//!
//! Receiving: counts -> [loss_report] -> output.
//! Begin with `Report::new`, add services, the table and its rules, and end with `text`.
#![tactic(auto)]

mod address_text;
mod counts;
mod lines;
mod parts;
mod report;
mod service_part;

pub use address_text::text_of_rule;
pub use counts::StreamCounts;
pub use report::Report;
pub use service_counts::ServiceCounts;
