//! The frames of a plan's stream, as a receiver of one input stream reads them.

ghost use Rattle.std.specs.Prelude.{◌≡◌, ℕ, Bool, true, List, ◌∷◌, map, slice_get, Some};
ghost use Rattle.addr_rules.specs.declared.rules.Rule.{Rule};
ghost use Rattle.plan_spec.specs.Plan.{gse, ServiceFields, PlanFields};
ghost use Rattle.plan_spec.specs.Bytes.{AreOfBytes};
ghost use Rattle.plan_spec.specs.Wholes.{is_whole_plan};
ghost use Rattle.plan_spec.specs.Offered.{Records, offered_in};
ghost use Rattle.gse_spec.specs.Classes.{is_urgent_pdu};
ghost use Rattle.gse_spec.specs.Sending.{pdu_for};
ghost use Rattle.gse_law.specs.Classes.{BeginInOrder};
ghost use Rattle.bb_stream_spec.specs.Stream.{IsBasebandStream};
ghost use Rattle.class_law.specs.Yielding.{packets_and_ends, begun, YieldsToUrgent};

/// The datagrams of a GSE service begin one after another, as they were offered, whatever their class: the packets that begin one, in order, are those of the
/// list, in order. So an urgent datagram begins before each ordinary one after it in the list.
pub fn datagrams_of_a_stream_begin_in_order()
    ensures begin { (plan : PlanFields) → is_whole_plan plan ≡ true → AreOfBytes plan → (gives : Records) → (frames : List (List ℕ))
        → IsBasebandStream plan (offered_in plan gives) frames → (k isi : ℕ) (address : Bool) (service : ServiceFields)
        → slice_get plan.services k ≡ Some service → service.kind ≡ gse isi address
        → BeginInOrder (map (pdu_for address service.unicast) (offered_in plan gives 0 k)) (begun (packets_and_ends isi frames)) }
{}

/// Of a service with urgent rules, what begins between the start and the end of an ordinary datagram is urgent, and begins fewer than 8 frames of the service
/// after the start; in these frames the rest of the ordinary one waits while an urgent one is next. An urgent one goes on at once, up to its end.
pub fn ordinary_datagrams_yield_to_urgent_ones()
    ensures yields { (plan : PlanFields) → is_whole_plan plan ≡ true → AreOfBytes plan → (gives : Records) → (frames : List (List ℕ))
        → IsBasebandStream plan (offered_in plan gives) frames → (k isi : ℕ) (address : Bool) (service : ServiceFields)
        → slice_get plan.services k ≡ Some service → service.kind ≡ gse isi address → (rule : Rule) (others : List Rule) → service.urgent ≡ rule ∷ others
        → YieldsToUrgent (is_urgent_pdu service.urgent) (map (pdu_for address service.unicast) (offered_in plan gives 0 k)) (packets_and_ends isi frames) }
{}
