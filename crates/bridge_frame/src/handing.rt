//! An Ethernet frame -> an outlet's service 0, where all deliveries before went well.
ghost use Rattle.std.specs.Prelude.{◌≡◌, ◌<◌, OnOk, OnErr};
ghost use Rattle.wire_spec.specs.Causes.{HasCause};
ghost use Rattle.outlet_spec.specs.Pairs.{pairs_of, Delivers, DeliversFront};
ghost use Rattle.gse_reception.specs.Outlets.{HandsOut};
ghost use Rattle.bridge_frame.specs.Handing.{frames_in};

use ipe_io::{Failed, Outlet};

/// The service of an outlet that gets the frames.
const SERVICE: u32 = 0;

/// Delivers a frame, where there is one.
fn deliver<T: Outlet>(frame: Option<&[u8]>, outlet: &mut T) -> Result<(), Failed>
    requires { 0 < T.services outlet.old }
    ensures told { OnOk result (Delivers (T.StandsFor outlet.old) (T.StandsFor outlet.new) (pairs_of 0 (frames_in frame.entry))) }
    ensures failed { OnErr result (DeliversFront (T.StandsFor outlet.old) (T.StandsFor outlet.new) (T.Refused outlet.new) (pairs_of 0 (frames_in frame.entry))) }
    ensures services { T.services outlet.new ≡ T.services outlet.old }
    ensures cause { HasCause (T.faults outlet.old) (T.faults outlet.new) result }
{
    match frame {
        Some(bytes) => outlet.deliver(SERVICE, bytes),
        None => Ok(()),
    }
}

/// Delivers a frame, where there is one and all deliveries before went well.
#[tactic(auto, using(gse_reception::proofs::Outlets::hands_ok, gse_reception::proofs::Outlets::hands_err))]
pub(crate) fn hand_out<T: Outlet>(
    frame: Option<&[u8]>,
    outlet: &mut T,
    went: Result<(), Failed>,
) -> Result<(), Failed>
    requires served { 0 < T.services outlet.old }
    ensures hands { HandsOut T.StandsFor T.Refused T.services T.faults 0 (frames_in frame.entry)
        (record { outlet = outlet.old; went = went }) (record { outlet = outlet.new; went = result }) }
{
    went?;
    deliver(frame, outlet)
}
