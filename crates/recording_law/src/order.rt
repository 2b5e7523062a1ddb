//! One order of all that a recording delivers.
ghost use Rattle.std.specs.Prelude.{◌≡◌, ℕ, ◌<◌, List, length, false};
ghost use Rattle.wire_spec.specs.Lists.{IsSubsequence};
ghost use Rattle.plan_spec.specs.Plan.{PlanFields};
ghost use Rattle.plan_spec.specs.Changes.{has_wrong_change};
ghost use Rattle.recording_spec.specs.Interleaving.{IsInterleaving};
ghost use Rattle.recording_spec.specs.Pieces.{delivered_of};
ghost use Rattle.recording_spec.specs.Relayed.{relayed};

/// The datagrams that a recording delivers, in the order of the records or frames that give them, are the lists of its services merged.
pub fn a_recording_delivers_its_services_merged()
    ensures merged { (plan : PlanFields) (pieces : List (List ℕ)) → has_wrong_change plan ≡ false
        → IsInterleaving (length plan.services) (λ k. delivered_of plan k pieces) (relayed plan pieces) }
{}

/// Each of merged lists is a subsequence of the list that they are merged to; a list of one alone is that one.
pub fn a_list_has_the_lists_that_it_merges()
    ensures each { (count : ℕ) (lists : ℕ → List (List ℕ)) (xs : List (List ℕ)) → IsInterleaving count lists xs → (k : ℕ) → k < count → IsSubsequence (lists k) xs }
    ensures one { (lists : ℕ → List (List ℕ)) (xs : List (List ℕ)) → IsInterleaving 1 lists xs → lists 0 ≡ xs }
{}
