//! The receiver of a plan: records or baseband frames in, the datagrams of all its services out to an outlet, and everything
//! counted. It follows the plan where its INT puts another version in force.
//!
//! Receiving: ts_record -> ts_packet -> service_reception, fec_reception -> [demux_core] -> outlet, loss_report.
//! Begin with `Receiver::open`, then `read_to_end` of recording_reader, or `step` for each record or `step_frame` for each frame, and
//! `finish`.
#![tactic(auto)]

mod content;
mod int_receiver;
mod packet;
mod packet_receiver;
mod places;
mod receiver;
mod service;
mod services;
mod switch;
mod taking;

pub use packet_receiver::PacketReceiver;
pub use receiver::Receiver;
