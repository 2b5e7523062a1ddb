//! The receivers of all services of a plan, in its order, each on its ISI.
ghost use Rattle.std.specs.Prelude.{◌≡◌, true, [], map, IfOk, vec_len, Some};
ghost use Rattle.std.specs.List.{list_all, position};
ghost use Rattle.plan.specs.Parts.{kind_seen, service_seen};
ghost use Rattle.plan.specs.declared.service.Service.{Service};
ghost use Rattle.plan_spec.specs.Plan.{ServiceFields, isi_of};
ghost use Rattle.plan_spec.specs.Checks.{is_gse};
ghost use Rattle.bb_demux.specs.Receiving.{IsOn};
ghost use Rattle.bb_demux.specs.Finding.{AreFresh, is_on_isi};

use bumpalo::Bump;
use gse_reassembly::{FRAG_IDS, PDU_BUFFER_SIZE, Slot};
use gse_reception::GseReception;
use ipe_io::OutOfMemory;
use plan::{Kind, ServiceList};

/// The receiver of one service. Its buffers lie in the arena.
#[derive(Drop)]
pub(crate) struct IsiReceiver<'a> {
    /// The ISI of its frames.
    pub(crate) isi: u8,
    /// What is received in them.
    pub(crate) reception: GseReception<&'a Bump>,
}

/// A buffer of so many bytes.
fn empty_buffer(arena: &Bump, count: usize) -> Result<Vec<u8, &Bump>, OutOfMemory>
    ensures size { IfOk result (λ buffer. vec_len buffer ≡ count) }
{
    vec![in arena; 0u8; count]
}

/// Empty slots for so many Frag IDs.
fn empty_slots(arena: &Bump, count: usize) -> Result<Vec<Slot, &Bump>, OutOfMemory>
    ensures size { IfOk result (λ slots. vec_len slots ≡ count) }
{
    vec![in arena; Slot::new(); count]
}

/// The receiver of a service on this ISI, that was given nothing.
fn open_receiver(arena: &Bump, isi: u8) -> Result<IsiReceiver<'_>, OutOfMemory>
    ensures opened { IfOk result (λ receiver. (it : ServiceFields) → isi_of it.kind ≡ Some isi → IsOn it receiver []) }
{
    let buffer = empty_buffer(arena, PDU_BUFFER_SIZE)?;
    let slots = empty_slots(arena, FRAG_IDS)?;
    Ok(IsiReceiver {
        isi,
        reception: GseReception::over(buffer, slots),
    })
}

/// The ISI of a service of GSE packets.
fn isi_in(kind: &Kind) -> u8
    requires { is_gse (kind_seen kind.now) ≡ true }
    ensures { isi_of (kind_seen kind.now) ≡ Some result }
{
    match kind {
        Kind::Gse { isi, .. } => *isi,
        Kind::Ule { .. } | Kind::Mpe { .. } | Kind::Fec { .. } => 0,
    }
}

/// The receivers of all services, that were given nothing.
pub(crate) fn open_receivers<'a>(
    arena: &'a Bump,
    list: &ServiceList,
) -> Result<Vec<IsiReceiver<'a>, &'a Bump>, OutOfMemory>
    requires gse { list_all (λ (it : Service). is_gse (kind_seen it.kind)) list.now ≡ true }
    ensures opened { IfOk result (λ receivers. AreFresh (map service_seen list.now) receivers.items) }
{
    let mut receivers = Vec::with_capacity(arena, list.len())?;
    for at in 0..list.len() {
        let receiver = open_receiver(arena, isi_in(&list.at(at).kind))?;
        receivers.push(receiver)?;
    }
    Ok(receivers)
}

/// The place of the first receiver on an ISI.
pub(crate) fn place_of(receivers: &[IsiReceiver<'_>], isi: u8) -> Option<usize>
    ensures found { result ≡ position (is_on_isi isi) receivers.now }
{
    receivers.iter().position(|receiver| receiver.isi == isi)
}
