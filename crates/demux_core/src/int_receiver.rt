//! The receiver of the INT's PID (EN 301 192 clause 8.4).
ghost use Rattle.std.specs.Prelude.{◌≡◌, ◌^◌, ◌<◌, ◌≤◌, true, false, List, [], ◌∷◌, ◌++◌, length, option_map, IfOk};
ghost use Rattle.ts_spec.specs.Recording.{Record};
ghost use Rattle.plan_spec.specs.Plan.{PlanFields};
ghost use Rattle.plan.specs.Parts.{int_seen};
ghost use Rattle.service_reception.specs.Reception.{packet_record};
ghost use Rattle.demux_core.specs.Contents.{IsRead};
ghost use Rattle.demux_core.specs.Services.{HasReceivedInt, is_table_pid, version_of_table, IsUpToLast};

use bumpalo::Bump;
use byte_slices::zeros;
use ipe_io::OutOfMemory;
use plan::IntPlan;
use section_codec::SectionForm;
use service_reception::IntReception;
use ts_packet::Packet;
use unit_stream::UnitForm;

/// The receiver of the INT's PID.
#[derive(Drop)]
pub(crate) struct IntReceiver<'a> {
    pub(crate) pid: u16,
    pub(crate) reception: IntReception<&'a Bump>,
}

/// The receiver of an INT, where there is one, that was given nothing. It follows the plan up to its last version.
pub(crate) fn open_int<'a>(
    arena: &'a Bump,
    table: &Option<IntPlan>,
    last_version: u8,
) -> Result<Option<IntReceiver<'a>>, OutOfMemory>
    ensures received { IfOk result (λ receiver. (plan : PlanFields) → plan.table ≡ option_map int_seen table.now → length plan.changes ≡ last_version
        → HasReceivedInt plan receiver []) }
    ensures last { IfOk result (λ receiver. (plan : PlanFields) → length plan.changes ≡ last_version → IsUpToLast plan receiver) }
{
    let int = match table {
        Some(int) => int,
        None => return Ok(None),
    };
    let buffer = zeros(arena, SectionForm::LONGEST)?;
    let kept = zeros(arena, SectionForm::LONGEST)?;
    let reception = IntReception::over(buffer, kept, int.platform_id, last_version);
    Ok(Some(IntReceiver {
        pid: int.pid,
        reception,
    }))
}

/// Takes a packet where it is one of the INT's PID, and says whether it is.
#[inline(always)]
pub(crate) fn take_for_int(
    table: &mut Option<IntReceiver<'_>>,
    bytes: &[u8; 188],
    packet: &Packet<'_>,
    moment: u64,
) -> bool
    requires { IsRead packet.now bytes.now }
    ensures taken { result ≡ is_table_pid table.old packet.now.pid }
    ensures received { (plan : PlanFields) (records : List Record) → length records < 2 ^ 32 → HasReceivedInt plan table.old records
        → result ≡ true → HasReceivedInt plan table.new (records ++ packet_record moment bytes.now ∷ []) }
    ensures last { (plan : PlanFields) → IsUpToLast plan table.old → IsUpToLast plan table.new }
    ensures unchanged { result ≡ false → table.new ≡ table.old }
{
    match table {
        Some(receiver) => {
            if receiver.pid != packet.pid {
                return false;
            }
            receiver.reception.take(bytes, packet, moment);
            true
        }
        None => false,
    }
}

/// The version of the plan that is in force: without an INT the first.
pub(crate) fn version_in_force(table: &Option<IntReceiver<'_>>) -> u8
    ensures read { result ≡ version_of_table table.now }
    ensures most { (plan : PlanFields) → IsUpToLast plan table.now → result ≤ length plan.changes }
{
    match table {
        Some(receiver) => receiver.reception.version(),
        None => 0,
    }
}
