//! The bytes of a stream on their way to the sink, many in one piece.
//!
//! Sending: capture -> pcap_file -> datagram_routing -> ts_mux, bb_mux -> [stream_batch] -> Sink.
//! Begin with `Batch::new` and `Batch::put_full`.
#![tactic(auto)]

mod batch;

pub use batch::Batch;
