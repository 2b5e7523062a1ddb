//! What arrives at a service after one hop.
ghost use Rattle.std.specs.Prelude.{◌≡◌, ℕ, ◌<◌, List, length, false};
ghost use Rattle.wire_spec.specs.Lists.{IsSubsequence};
ghost use Rattle.plan_spec.specs.Plan.{PlanFields};
ghost use Rattle.plan_spec.specs.Changes.{has_wrong_change};
ghost use Rattle.plan_spec.specs.Offered.{offered_in_all};
ghost use Rattle.recording_spec.specs.Pieces.{delivered_of};
ghost use Rattle.recording_spec.specs.Relayed.{relayed, as_records};
ghost use Rattle.recording_law.specs.Hop.{CarriesInPieces, IsRecordedInPieces, wanted_in, DeliversWanted};

use bb_loss_law::each_gse_service_delivers_what_arrived_intact;
use loss_law::each_service_delivers_over_its_spans;

/// Whatever became of the records or frames of a stream on their way: a service delivers a subsequence of what its filter wants of what
/// was sent to it. So where the datagrams that were sent to it are some of a list, in order, those that it delivers are too.
pub fn what_a_service_delivers_after_one_hop()
    ensures delivers { (plan : PlanFields) (k : ℕ) → k < length plan.services → (sent carried : List (List ℕ)) (carries : CarriesInPieces plan k sent carried)
        (recorded : List (List ℕ)) → IsRecordedInPieces plan k sent carried carries recorded
        → DeliversWanted carried (wanted_in plan k sent carried carries) (delivered_of plan k recorded) }
    ensures within { (plan : PlanFields) (k : ℕ) → k < length plan.services → (sent carried : List (List ℕ)) (carries : CarriesInPieces plan k sent carried)
        (recorded : List (List ℕ)) → IsRecordedInPieces plan k sent carried carries recorded
        → (all : List (List ℕ)) → IsSubsequence carried all → IsSubsequence (delivered_of plan k recorded) all }
{
    each_service_delivers_over_its_spans();
    each_gse_service_delivers_what_arrived_intact();
}

/// What is offered of datagrams to a service, in all versions, are some of them, in order.
pub fn what_is_offered_of_datagrams_are_some_of_them()
    ensures offered { (plan : PlanFields) (datagrams : List (List ℕ)) (k : ℕ) → IsSubsequence (offered_in_all plan (as_records datagrams) k) datagrams }
{}

/// What one service alone delivers is all that is relayed.
pub fn what_one_service_delivers_is_relayed()
    ensures all { (plan : PlanFields) (pieces : List (List ℕ)) → has_wrong_change plan ≡ false → length plan.services ≡ 1
        → delivered_of plan 0 pieces ≡ relayed plan pieces }
{}
