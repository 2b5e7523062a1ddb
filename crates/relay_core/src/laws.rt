//! Laws of what gathers.
ghost use Rattle.std.specs.Prelude.{◌≡◌, List, ℕ, All, map, Some};
ghost use Rattle.wire_spec.specs.Datagram.{IsDatagram};
ghost use Rattle.relay_core.specs.Gathering.{delivered_records};

/// Where all that was delivered are datagrams, each record has one.
pub fn datagrams_are_offered_as_they_are()
    ensures are { (datagrams : List (List ℕ)) → All IsDatagram datagrams → delivered_records datagrams ≡ map (λ (datagram : List ℕ). Some datagram) datagrams }
{}
