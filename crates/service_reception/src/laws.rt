//! Laws of a reception: which records change it, and that what was delivered stays.
//!
//! Statements over definitions, and no code.
ghost use Rattle.std.specs.Prelude.{◌≡◌, ℕ, false, List, [], ◌∷◌, ◌++◌, Some};
ghost use Rattle.ts_spec.specs.Recording.{Record};
ghost use Rattle.plan_spec.specs.Plan.{ServiceFields, IntFields, PlanFields, pid_of};
ghost use Rattle.reception_spec.specs.Delivered.{delivered_datagrams};
ghost use Rattle.service_reception.specs.Reception.{ReceptionState, HasTaken, added_by};
ghost use Rattle.reception_spec.specs.Packets.{is_on};
ghost use Rattle.service_reception.specs.Table.{TableState, HasReceivedTable};

/// The datagrams that some records deliver stand before those that one record more adds.
pub fn what_was_delivered_stays()
    ensures stays { (it : ServiceFields) (records : List Record) (r : Record)
        → delivered_datagrams it (records ++ r ∷ []) ≡ delivered_datagrams it records ++ added_by it records r }
{}

/// A record without a moment, one that is no packet to be read, and a packet of another PID change nothing.
pub fn a_record_of_another_pid_changes_nothing()
    ensures service { (it : ServiceFields) (pid : ℕ) (state : ReceptionState) (records : List Record) (r : Record) → pid_of it.kind ≡ Some pid → is_on pid r ≡ false
        → HasTaken it state records → HasTaken it state (records ++ r ∷ []) }
    ensures delivered { (it : ServiceFields) (pid : ℕ) (records : List Record) (r : Record) → pid_of it.kind ≡ Some pid → is_on pid r ≡ false
        → added_by it records r ≡ [] }
    ensures table { (plan : PlanFields) (int : IntFields) (pid : ℕ) (state : TableState) (records : List Record) (r : Record) → is_on pid r ≡ false
        → HasReceivedTable plan int pid state records → HasReceivedTable plan int pid state (records ++ r ∷ []) }
{}
