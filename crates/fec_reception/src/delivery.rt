//! The datagrams of a solved table -> an outlet, up to the first that it refuses.
ghost use Rattle.std.specs.Prelude.{◌≡◌, ◌<◌, [], ◌∷◌, List, length};
ghost use Rattle.wire_spec.specs.Causes.{raised};
ghost use Rattle.fec_frame_spec.specs.Sections.{FrameSection};
ghost use Rattle.fec_frame_spec.specs.Delivered.{frame_datagrams};
ghost use Rattle.fec_frame.specs.Stands.{IsSolved};
ghost use Rattle.outlet_spec.specs.Going.{DeliversAfter, GoesOn};

use fec_frame::Table;
use frame_walk::Walk;
use ipe_io::{Failed, Outlet};
use std::alloc::Allocator;

/// Delivers one datagram, where none was refused before.
pub(crate) fn deliver_one<T: Outlet>(
    datagram: &[u8],
    service: u32,
    went: Result<(), Failed>,
    outlet: &mut T,
) -> Result<(), Failed>
    requires served { service < T.services outlet.old }
    ensures goes { GoesOn T.services T.faults (record { outlet = outlet.old; went = went }) (record { outlet = outlet.new; went = result }) }
    ensures delivered { DeliversAfter T.StandsFor T.Refused service (datagram.now ∷ []) (record { outlet = outlet.old; went = went }) (record { outlet = outlet.new; went = result }) }
{
    match went {
        Ok(()) => outlet.deliver(service, datagram),
        Err(failed) => Err(failed),
    }
}

/// Delivers the datagrams of a table that was solved, and answers how many it has. After a refused one they are counted alone.
pub(crate) fn deliver_frame<A: Allocator, T: Outlet>(
    table: &Table<A>,
    service: u32,
    went: Result<(), Failed>,
    outlet: &mut T,
) -> (u64, Result<(), Failed>)
    requires served { service < T.services outlet.old }
    ensures counted { (sections : List FrameSection) → IsSolved table.now sections → result.0 ≡ raised 0 (length (frame_datagrams table.now.rows sections)) }
    ensures goes { GoesOn T.services T.faults (record { outlet = outlet.old; went = went }) (record { outlet = outlet.new; went = result.1 }) }
    ensures delivered { (sections : List FrameSection) → IsSolved table.now sections
        → DeliversAfter T.StandsFor T.Refused service (frame_datagrams table.now.rows sections) (record { outlet = outlet.old; went = went }) (record { outlet = outlet.new; went = result.1 }) }
{
    let mut count: u64 = 0;
    let mut went = went;
    for datagram in Walk::over(table) {
        count = count.saturating_add(1);
        went = deliver_one(datagram, service, went, outlet);
    }
    (count, went)
}
