//! Definitions of what is handed to an outlet: pairs of service and datagram, and calls up to the first that is refused.
//!
//! Words for contracts, and no code but examples of them.
//! Below what receives: service_reception, fec_reception, gse_reception and the receivers over them.
#![tactic(auto)]

ghost use Rattle.std.specs.Prelude.{◌≡◌, [], ◌∷◌};
ghost use Rattle.outlet_spec.specs.Pairs.{pairs_of};

/// Two datagrams of service 3, in order.
pub fn pairs_of_two_datagrams()
    ensures pairs { pairs_of 3 ((69 ∷ []) ∷ (96 ∷ []) ∷ []) ≡ (3, 69 ∷ []) ∷ (3, 96 ∷ []) ∷ [] }
{}
