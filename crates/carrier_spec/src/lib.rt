//! Definitions of the sender's stream, whichever carrier the plan has: transport packets, or baseband frames.
//!
//! Words for contracts, and no code but examples of them. They stand on stream_spec and bb_stream_spec.
//! Profile: the order of packets and of frames is our own.
#![tactic(auto)]

ghost use Rattle.std.specs.Prelude.{◌≡◌};
ghost use Rattle.bb_stream_spec.specs.Examples.{small_plan, small_datagrams, small_stream};
ghost use Rattle.carrier_spec.specs.Stream.{IsSentStream, piece_size};

/// The stream of a small plan of baseband frames: the frames, of 300 bytes each.
pub fn a_small_stream_is_in_frames()
    ensures size { piece_size small_plan ≡ 300 }
    ensures stream { IsSentStream small_plan (λ version. small_datagrams) small_stream }
{}
