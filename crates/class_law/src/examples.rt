//! Examples in frames of 300 bytes, and orders that no sender with two classes writes.

ghost use Rattle.std.specs.Prelude.{◌≡◌, List, [], ◌∷◌, map};
ghost use Rattle.class_law.specs.Yielding.{YieldsToUrgent};
ghost use Rattle.class_law.specs.Examples.{is_short, written_with, Step, whole, first, later, last, ends, step_of, short_after_long, nine_after_long, middle_after_long, urgent_last, nine_before_the_rest, fragments_mixed};

/// 40 urgent bytes go before the rest of 800. Of nine urgent datagrams of 270 bytes after 600 ordinary ones seven go before the rest; then eight frames have ended.
/// 300 urgent bytes go to their end before the rest of 800.
pub fn small_frames_yield()
    ensures short { map step_of (written_with 100 short_after_long) ≡ first 0 ∷ ends ∷ whole ∷ later 0 ∷ ends ∷ later 0 ∷ ends ∷ last 0 ∷ ends ∷ [] }
    ensures short_yields { YieldsToUrgent (is_short 100) short_after_long (written_with 100 short_after_long) }
    ensures nine { map step_of (written_with 270 nine_after_long)
        ≡ first 0 ∷ ends ∷ whole ∷ ends ∷ whole ∷ ends ∷ whole ∷ ends ∷ whole ∷ ends ∷ whole ∷ ends ∷ whole ∷ ends ∷ whole ∷ ends
        ∷ later 0 ∷ ends ∷ last 0 ∷ first 128 ∷ ends ∷ last 128 ∷ first 129 ∷ ends ∷ last 129 ∷ ends ∷ [] }
    ensures nine_yields { YieldsToUrgent (is_short 270) nine_after_long (written_with 270 nine_after_long) }
    ensures middle { map step_of (written_with 300 middle_after_long) ≡ first 0 ∷ ends ∷ first 128 ∷ ends ∷ last 128 ∷ later 0 ∷ ends ∷ last 0 ∷ ends ∷ [] }
    ensures middle_yields { YieldsToUrgent (is_short 300) middle_after_long (written_with 300 middle_after_long) }
{}

/// These do not: an ordinary datagram to its end before the urgent one; one that lets nine frames pass; a fragment of it among those of the urgent one.
pub fn other_orders_do_not_yield()
    ensures last_urgent { ¬ YieldsToUrgent (is_short 100) short_after_long urgent_last }
    ensures nine_frames { ¬ YieldsToUrgent (is_short 270) nine_after_long nine_before_the_rest }
    ensures mixed { ¬ YieldsToUrgent (is_short 300) middle_after_long fragments_mixed }
{}
