//! A kind of unit that transport packets carry, as the code sees it.
ghost use Rattle.std.specs.Prelude.{◌≡◌, ℕ};
ghost use Rattle.ts_spec.specs.Form.{UnitForm as Form, IsLawful};
ghost use Rattle.unit_stream.specs.Form.{span_told};

/// What some bytes tell of the unit at their front.
#[derive(Clone, Copy, Debug, PartialEq, Eq)]
pub enum Span {
    /// Not its length yet: more bytes tell.
    More,
    /// No unit begins there, up to the end of the packet.
    Stuffing,
    /// A unit of so many bytes, its check sum among them.
    Whole(usize),
    /// A length that no unit has.
    Bad,
}

/// A kind of unit: sections (ISO/IEC 13818-1 clause 2.4.4), SNDUs (RFC 4326 section 4).
///
/// Its laws are those of `IsLawful`: what is told stays, whatever follows; four bytes tell; a length
/// is START to LONGEST; START bytes, 1 to 183, tell stuffing.
pub trait UnitForm {
    ghost form: { Form };

    ghost START: { ℕ };

    ghost LONGEST: { ℕ };

    /// The bytes of a unit that stand in its first packet at least.
    const START: usize;

    /// The bytes of the longest unit.
    const LONGEST: usize;

    /// What `prefix` tells of the unit at its front.
    fn span(prefix: &[u8]) -> Span
        ensures told { span_told result ≡ form.span prefix.now };

    /// Whether the check sum of a whole unit holds.
    fn check(unit: &[u8]) -> bool
        ensures checked { result ≡ form.check unit.now };

    ghost lawful: { IsLawful form };

    ghost start_is: { form.start ≡ START };

    ghost longest_is: { form.longest ≡ LONGEST };
}
