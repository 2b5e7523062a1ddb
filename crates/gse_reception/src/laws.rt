//! Laws of a reception: which frames change it, and that what was delivered stays.
//!
//! Statements over definitions, and no code.
ghost use Rattle.std.specs.Prelude.{◌≡◌, ℕ, false, List, [], ◌∷◌, ◌++◌, Some};
ghost use Rattle.plan_spec.specs.Plan.{ServiceFields, isi_of};
ghost use Rattle.gse_spec.specs.Received.{is_frame_of};
ghost use Rattle.bb_reception_spec.specs.Delivered.{delivered_by_service, added_by};
ghost use Rattle.gse_reception.specs.Reception.{GseReceptionState, HasTaken};

/// The datagrams that some frames deliver stand before those that one frame more adds.
pub fn what_frames_delivered_stays()
    ensures stays { (it : ServiceFields) (frames : List (List ℕ)) (b : List ℕ)
        → delivered_by_service it (frames ++ b ∷ []) ≡ delivered_by_service it frames ++ added_by it frames b }
{}

/// A frame that is refused and one of another ISI change nothing.
pub fn a_frame_of_another_isi_changes_nothing()
    ensures service { (it : ServiceFields) (isi : ℕ) (state : GseReceptionState) (frames : List (List ℕ)) (b : List ℕ) → isi_of it.kind ≡ Some isi → is_frame_of isi b ≡ false
        → HasTaken it state frames → HasTaken it state (frames ++ b ∷ []) }
    ensures delivered { (it : ServiceFields) (isi : ℕ) (frames : List (List ℕ)) (b : List ℕ) → isi_of it.kind ≡ Some isi → is_frame_of isi b ≡ false
        → added_by it frames b ≡ [] }
{}
