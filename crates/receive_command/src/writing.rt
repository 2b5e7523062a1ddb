//! A recording of either carrier -> the datagrams of all services, its end included, written to their files by one outlet.
ghost use Rattle.std.specs.Prelude.{◌≡◌, ◌+◌, ◌^◌, ◌≤◌, length};
ghost use Rattle.plan.specs.PlanView.{plan_fields};
ghost use Rattle.recording_reception.specs.Reception.{HasBegun};
ghost use Rattle.receive_command.specs.Writing.{WritesPieces};

use capture_files::{Began, Progress, RackOutlet};
use ipe_io::{Rack, Source};
use plan::Plan;
use recording_reader::ReadFault;
use recording_reception::Reception;
use std::marker::PhantomData;

/// Writes the datagrams that a recording delivers, its end included, to the files of the services, the first of them at a place.
///
/// Answers how many bytes stood after the last piece. The reception has begun. No memory is taken. The outlet begins with what
/// `B` has.
pub(crate) fn write_pieces<I: Source, R: Rack, B: Began>(
    plan: &Plan,
    reception: &mut Reception<'_>,
    input: &mut I,
    rack: &mut R,
    first: u32,
) -> Result<u32, ReadFault>
    requires begun { HasBegun (plan_fields plan.now) reception.old.receiver reception.old.pieces }
    requires there { first + length plan.now.services ≤ (R.told rack.old).count }
    requires places { first + length plan.now.services ≤ 2 ^ 32 }
    requires few { length plan.now.services ≤ 64 }
    requires began_place { B.first ≡ first }
    requires began_rack { (B.count ≡ (R.told rack.old).count) × (B.faults ≡ (R.told rack.old).faults) × (B.files ≡ (R.told rack.old).files) }
    ensures writes { WritesPieces result (plan_fields plan.now) first (I.told input.old) (I.told input.new) (R.told rack.old) (R.told rack.new) reception.new.receiver }
{
    let services = plan.services.len() as u32;
    let mut outlet: RackOutlet<'_, R, B> = RackOutlet {
        rack,
        first,
        services,
        progress: Progress::Whole,
        began: PhantomData,
    };
    reception.receive(plan, input, &mut outlet)
}
