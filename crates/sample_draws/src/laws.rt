//! Laws of what a sample offers.
ghost use Rattle.std.specs.Prelude.{ℕ, ◌<◌, ◌^◌, length};
ghost use Rattle.datagram_routing.specs.Offering.{HoldDatagrams};
ghost use Rattle.sample_spec.specs.Datagrams.{sample_records};

/// Each record of a sample has a datagram, and there are fewer than 2^32.
pub fn a_sample_offers_datagrams()
    ensures datagrams { (number : ℕ) → number < 2 ^ 32 → HoldDatagrams (sample_records number) }
    ensures few { (number : ℕ) → length (sample_records number) < 2 ^ 32 }
{}
