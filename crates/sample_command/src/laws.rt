//! Laws of samples.
ghost use Rattle.std.specs.Prelude.{◌≡◌, ℕ, List};
ghost use Rattle.sample_spec.specs.Summary.{IsSummary};

use stream_law::there_is_one_stream;

/// A sample has one summary.
pub fn a_sample_has_one_summary()
    ensures { (number : ℕ) (one other : List ℕ) → IsSummary number one → IsSummary number other → one ≡ other }
{
    there_is_one_stream();
}
