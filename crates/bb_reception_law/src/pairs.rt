//! The pairs of service and datagram that a recording of frames gives.
ghost use Rattle.std.specs.Prelude.{◌≡◌, ℕ, ◌<◌, ◌≤◌, ◌==◌, true, false, List, [], ◌∷◌, ◌++◌, length, map, Some};
ghost use Rattle.plan_spec.specs.Plan.{PlanFields, isi_of, isis};
ghost use Rattle.plan_spec.specs.Checks.{has_pair};
ghost use Rattle.gse_spec.specs.Received.{is_frame_of, is_foreign};
ghost use Rattle.outlet_spec.specs.Pairs.{datagrams_of};
ghost use Rattle.bb_reception_spec.specs.Delivered.{service_at, delivered_of, added_by, given_by_frame, pairs_of_frame, delivered_pairs};

/// The pairs of a recording come frame by frame.
pub fn pairs_come_frame_by_frame()
    ensures none { (plan : PlanFields) → delivered_pairs plan [] ≡ [] }
    ensures more { (plan : PlanFields) (frames : List (List ℕ)) (b : List ℕ)
        → delivered_pairs plan (frames ++ b ∷ []) ≡ delivered_pairs plan frames ++ pairs_of_frame plan (frames ++ b ∷ []) (length frames) }
{}

/// A readable frame gives pairs of the service that has its ISI, where no two have one; a frame that is refused or of no service's ISI
/// gives none.
pub fn a_frame_gives_pairs_of_its_service()
    ensures one { (plan : PlanFields) (k isi : ℕ) (frames : List (List ℕ)) (b : List ℕ) → has_pair (λ a b. a == b) (isis plan) ≡ false
        → k < length plan.services → isi_of (service_at plan k).kind ≡ Some isi → is_frame_of isi b ≡ true
        → pairs_of_frame plan (frames ++ b ∷ []) (length frames) ≡ map (λ (datagram : List ℕ). (k, datagram)) (added_by (service_at plan k) frames b) }
    ensures none { (plan : PlanFields) (frames : List (List ℕ)) (b : List ℕ) → is_foreign (isis plan) b ≡ true
        → pairs_of_frame plan (frames ++ b ∷ []) (length frames) ≡ [] }
{}

/// The part of each service in the delivered pairs are its delivered datagrams; no other number has a part.
pub fn the_pairs_of_a_service_are_its_datagrams()
    ensures each { (plan : PlanFields) (frames : List (List ℕ)) (k : ℕ) → k < length plan.services
        → datagrams_of k (delivered_pairs plan frames) ≡ delivered_of plan k frames }
    ensures by_frame { (plan : PlanFields) (frames : List (List ℕ)) (place k : ℕ) → k < length plan.services
        → datagrams_of k (pairs_of_frame plan frames place) ≡ given_by_frame plan k frames place }
    ensures others { (plan : PlanFields) (frames : List (List ℕ)) (k : ℕ) → length plan.services ≤ k → datagrams_of k (delivered_pairs plan frames) ≡ [] }
{}
