//! Streams: there is one of each plan, and its bytes are cut into its pieces.
ghost use Rattle.std.specs.Prelude.{◌≡◌, ℕ, List, [], true};
ghost use Rattle.wire_spec.specs.Lists.{joined, IsCut};
ghost use Rattle.plan_spec.specs.Plan.{PlanFields};
ghost use Rattle.plan_spec.specs.Bytes.{AreOfBytes};
ghost use Rattle.plan_spec.specs.Wholes.{is_whole_plan};
ghost use Rattle.plan_spec.specs.Offered.{Records, offered_in};
ghost use Rattle.carrier_spec.specs.Stream.{IsSentStream, piece_size};

use bb_stream_law::{a_baseband_stream_is_cut_into_its_frames, there_is_one_baseband_stream};
use stream_law::{a_stream_is_cut_into_its_records, there_is_one_stream};

/// Of all settings that are accepted there is a stream, and one alone.
pub fn there_is_one_sent_stream()
    ensures is { (plan : PlanFields) (datagrams : ℕ → ℕ → List (List ℕ)) → is_whole_plan plan ≡ true
        → (pieces : List (List ℕ)) × IsSentStream plan datagrams pieces }
    ensures one { (plan : PlanFields) (datagrams : ℕ → ℕ → List (List ℕ)) (a b : List (List ℕ))
        → IsSentStream plan datagrams a → IsSentStream plan datagrams b → a ≡ b }
{
    there_is_one_stream();
    there_is_one_baseband_stream();
}

/// The bytes of a stream are cut into its pieces, and nothing is left after them.
pub fn a_sent_stream_is_cut_into_its_pieces()
    ensures cut { (plan : PlanFields) → is_whole_plan plan ≡ true → AreOfBytes plan → (gives : Records) → (pieces : List (List ℕ))
        → IsSentStream plan (offered_in plan gives) pieces → IsCut (piece_size plan) (joined pieces) pieces [] }
{
    a_stream_is_cut_into_its_records();
    a_baseband_stream_is_cut_into_its_frames();
}
