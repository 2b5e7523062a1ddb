//! The reception of one PID that carries MPE-FEC frames (EN 301 192 clause 9): its packets come in one after another, and the
//! datagrams of its frames go out.
//!
//! Receiving: ts_packet -> unit_stream -> section_codec and mpe_section -> fec_frame and frame_walk -> [fec_reception] -> Outlet.
//! Begin with `FecReception::over` and `take`; `close` closes the frame that is open at the end.
#![tactic(auto)]

mod counts;
mod delivery;
mod events;
mod frames;
mod laws;
mod placing;
mod reception;
mod sections;

pub use laws::{
    a_record_of_another_pid_closes_no_frame, a_service_with_frames_is_received_on_its_pid,
    what_frames_delivered_stays,
};
pub use reception::FecReception;
