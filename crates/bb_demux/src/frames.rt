//! One frame -> the receiver of its ISI.
ghost use Rattle.std.specs.Prelude.{◌≡◌, ◌≤◌, ◌^◌, ◌<◌, ℕ, not, true, false, List, [], ◌∷◌, ◌++◌, length, IfOk, IfErr, OnOk, OnErr};
ghost use Rattle.wire_spec.specs.Causes.{HasCause};
ghost use Rattle.plan_spec.specs.Plan.{isis, is_baseband};
ghost use Rattle.gse_spec.specs.Frame.{is_frame};
ghost use Rattle.gse_spec.specs.Received.{is_foreign};
ghost use Rattle.plan.specs.PlanView.{plan_fields};
ghost use Rattle.bb_reception_spec.specs.Delivered.{pairs_of_frame};
ghost use Rattle.gse_reception.specs.Reception.{IsRead};
ghost use Rattle.outlet_spec.specs.Pairs.{Delivers, DeliversFront};
ghost use Rattle.bb_demux.specs.Receiving.{AreOn};

use crate::services::{IsiReceiver, place_of};
use bb_frame::{Frame, FrameFault, parse};
use ipe_io::{Failed, Outlet};
use plan::Plan;

/// Reads a frame. DFL has 16 bits and counts bits, so that its data field has at most 8,191 bytes.
pub(crate) fn read_frame(bytes: &[u8]) -> Result<Frame<'_>, FrameFault>
    requires header { 10 ≤ length bytes.now }
    ensures read { IfOk result (λ frame. IsRead frame bytes.now) }
    ensures refused { IfErr result (λ _. is_frame bytes.now ≡ false) }
    ensures short { IfOk result (λ frame. length frame.field.now ≤ 8191) }
{
    parse(bytes)
}

/// Takes a readable frame, delivers the datagrams of the PDUs that end in it, and says whether its ISI is one of the plan.
pub(crate) fn receive_frame<T: Outlet>(
    plan: &Plan,
    receivers: &mut [IsiReceiver<'_>],
    frame: &Frame<'_>,
    outlet: &mut T,
) -> Result<bool, Failed>
    requires baseband { is_baseband (plan_fields plan.now) ≡ true }
    requires short { length frame.now.field.now ≤ 8191 }
    requires count { length receivers.old ≡ length plan.now.services }
    requires served { length plan.now.services ≤ T.services outlet.old }
    ensures received { (frames : List (List ℕ)) (b : List ℕ) → IsRead frame.now b → length frames < 2 ^ 32
        → AreOn (plan_fields plan.now) receivers.old frames → AreOn (plan_fields plan.now) receivers.new (frames ++ b ∷ []) }
    ensures other { (frames : List (List ℕ)) (b : List ℕ) → IsRead frame.now b → AreOn (plan_fields plan.now) receivers.old frames
        → IfOk result (λ known. is_foreign (isis (plan_fields plan.now)) b ≡ not known) }
    ensures of_plan { (frames : List (List ℕ)) (b : List ℕ) → IsRead frame.now b → AreOn (plan_fields plan.now) receivers.old frames
        → OnErr result (is_foreign (isis (plan_fields plan.now)) b ≡ false) }
    ensures written { (frames : List (List ℕ)) (b : List ℕ) → IsRead frame.now b → length frames < 2 ^ 32 → AreOn (plan_fields plan.now) receivers.old frames
        → OnOk result (Delivers (T.StandsFor outlet.old) (T.StandsFor outlet.new) (pairs_of_frame (plan_fields plan.now) (frames ++ b ∷ []) (length frames))) }
    ensures failed { (frames : List (List ℕ)) (b : List ℕ) → IsRead frame.now b → length frames < 2 ^ 32 → AreOn (plan_fields plan.now) receivers.old frames
        → OnErr result (DeliversFront (T.StandsFor outlet.old) (T.StandsFor outlet.new) (T.Refused outlet.new) (pairs_of_frame (plan_fields plan.now) (frames ++ b ∷ []) (length frames))) }
    ensures count { length receivers.new ≡ length receivers.old }
    ensures services { T.services outlet.new ≡ T.services outlet.old }
    ensures cause { HasCause (T.faults outlet.old) (T.faults outlet.new) result }
{
    let at = match place_of(receivers, frame.isi) {
        Some(at) => at,
        None => return Ok(false),
    };
    let filter = &plan.services.at(at).filter;
    receivers[at]
        .reception
        .take(frame, filter, at as u32, outlet)?;
    Ok(true)
}
