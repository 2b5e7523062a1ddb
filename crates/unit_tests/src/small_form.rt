//! A small kind of unit for tests: its first byte is its length, 2 to 254; FF is stuffing.
ghost use Rattle.std.proofs.Common.{refl};
ghost use Rattle.reassembly_law.specs.Examples.{small_form};
ghost use Rattle.reassembly_law.proofs.Small.{small_stream};

use unit_stream::{Span, UnitForm};

/// A unit whose second byte is 9 fails its check.
pub(crate) struct SmallForm;

impl UnitForm for SmallForm {
    ghost form = { small_form };

    ghost START = { 1 };

    ghost LONGEST = { 254 };

    const START: usize = 1;

    const LONGEST: usize = 254;

    fn span(prefix: &[u8]) -> Span {
        match prefix {
            [] => Span::More,
            [first, ..] => {
                if *first == 255 {
                    Span::Stuffing
                } else if *first < 2 {
                    Span::Bad
                } else {
                    Span::Whole(usize::from(*first))
                }
            }
        }
    }

    fn check(unit: &[u8]) -> bool {
        unit.len() < 2 || unit[1] != 9
    }

    ghost lawful = { small_stream.lawful };

    ghost start_is = { refl };

    ghost longest_is = { refl };
}
