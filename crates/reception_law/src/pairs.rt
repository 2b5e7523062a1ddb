//! The pairs of service and datagram that a recording gives.
ghost use Rattle.std.specs.Prelude.{◌≡◌, ◌≢◌, ℕ, ◌<◌, ◌≤◌, true, false, List, [], ◌∷◌, ◌++◌, length, map, Some};
ghost use Rattle.ts_spec.specs.Recording.{Record};
ghost use Rattle.plan_spec.specs.Plan.{IntFields, PlanFields};
ghost use Rattle.plan_spec.specs.Changes.{has_wrong_change};
ghost use Rattle.reception_spec.specs.Packets.{is_on};
ghost use Rattle.reception_spec.specs.Delivered.{told_of, delivered_of, given_by_record, given_by_end, pairs_of_record, pairs_of_end, told_pairs, delivered_pairs};
ghost use Rattle.outlet_spec.specs.Pairs.{pairs_of_all, datagrams_of};
ghost use Rattle.reception_law.specs.Words.{added_on};
ghost use Rattle.reception_law.specs.InForce.{pid_in_force, closed_by_record, closed_at_end};

// Record by record.

/// The pairs of a recording come record by record, and after them those of the end: of each service what the frame under way gives.
pub fn pairs_come_record_by_record()
    ensures none { (plan : PlanFields) → told_pairs plan [] ≡ [] }
    ensures more { (plan : PlanFields) (records : List Record) (r : Record)
        → told_pairs plan (records ++ r ∷ []) ≡ told_pairs plan records ++ pairs_of_record plan (records ++ r ∷ []) (length records) }
    ensures end { (plan : PlanFields) (records : List Record) → has_wrong_change plan ≡ false
        → pairs_of_end plan records ≡ pairs_of_all (length plan.services) (λ k. closed_at_end plan k records) }
    ensures all { (plan : PlanFields) (records : List Record) → delivered_pairs plan records ≡ told_pairs plan records ++ pairs_of_end plan records }
{}

/// A packet gives pairs of the service that has its PID in the version in force; no other record gives any that leaves each service on its PID.
pub fn a_packet_gives_pairs_of_its_service()
    ensures one { (plan : PlanFields) (k pid : ℕ) (records : List Record) (r : Record) → has_wrong_change plan ≡ false → k < length plan.services
        → pid_in_force plan k records ≡ Some pid → is_on pid r ≡ true
        → pairs_of_record plan (records ++ r ∷ []) (length records) ≡ map (λ (datagram : List ℕ). (k, datagram)) (added_on plan k pid records r) }
    ensures none { (plan : PlanFields) (records : List Record) (r : Record)
        → ((k pid : ℕ) → k < length plan.services → pid_in_force plan k records ≡ Some pid → is_on pid r ≡ false)
        → ((k : ℕ) → k < length plan.services → pid_in_force plan k (records ++ r ∷ []) ≡ pid_in_force plan k records)
        → pairs_of_record plan (records ++ r ∷ []) (length records) ≡ [] }
    ensures alone { (plan : PlanFields) (k : ℕ) (records : List Record) (place : ℕ) (given : List (List ℕ)) → k < length plan.services
        → given_by_record plan k records place ≡ given
        → ((other : ℕ) → other < length plan.services → other ≢ k → given_by_record plan other records place ≡ [])
        → pairs_of_record plan records place ≡ map (λ (datagram : List ℕ). (k, datagram)) given }
{}

/// A packet of the INT gives, of each service that it moves to another PID, what the frame under way on the PID that it leaves does.
pub fn a_packet_of_the_int_gives_what_it_closes()
    ensures closed { (plan : PlanFields) (int : IntFields) (records : List Record) (r : Record) → has_wrong_change plan ≡ false → plan.table ≡ Some int → is_on int.pid r ≡ true
        → pairs_of_record plan (records ++ r ∷ []) (length records) ≡ pairs_of_all (length plan.services) (λ k. closed_by_record plan k records r) }
{}

// Service by service.

/// The part of each service in the delivered pairs are its delivered datagrams; no other number has a part.
pub fn the_pairs_of_a_service_are_its_datagrams()
    ensures each { (plan : PlanFields) (records : List Record) (k : ℕ) → has_wrong_change plan ≡ false → k < length plan.services
        → datagrams_of k (delivered_pairs plan records) ≡ delivered_of plan k records }
    ensures told { (plan : PlanFields) (records : List Record) (k : ℕ) → has_wrong_change plan ≡ false → k < length plan.services
        → datagrams_of k (told_pairs plan records) ≡ told_of plan k records }
    ensures by_record { (plan : PlanFields) (records : List Record) (place k : ℕ) → k < length plan.services
        → datagrams_of k (pairs_of_record plan records place) ≡ given_by_record plan k records place }
    ensures by_end { (plan : PlanFields) (records : List Record) (k : ℕ) → k < length plan.services
        → datagrams_of k (pairs_of_end plan records) ≡ given_by_end plan k records }
    ensures others { (plan : PlanFields) (records : List Record) (k : ℕ) → length plan.services ≤ k → datagrams_of k (delivered_pairs plan records) ≡ [] }
{}
