//! Texts -> the numbers that decimal digits write.
ghost use Rattle.std.specs.Prelude.{◌≡◌, ℕ, ◌≤◌, length, IfSome, IfNone};
ghost use Rattle.command_words.specs.Words.{IsNumber};

/// The last PID that packets of a service may have; 8191 is that of null packets (ISO/IEC 13818-1 clause 2.4.3.3).
const LAST_PID: u32 = 8190;

/// The first PID that an INT may have; those before it are kept for other tables (EN 300 468 clause 5.1.3).
const FIRST_TABLE_PID: u16 = 32;

/// The last ISI: it has 8 bits (EN 302 307-1 clause 5.1.6).
const LAST_ISI: u32 = 255;

/// The most digits of a PID.
const PID_DIGITS: usize = 4;

/// The most digits of an ISI.
const ISI_DIGITS: usize = 3;

/// The most digits of a number of 32 bits.
const NUMBER_DIGITS: usize = 10;

/// The number, of so many decimal digits at most and no larger than the largest.
fn number_up_to(text: &str, digits: usize, largest: u32) -> Option<u32>
    ensures read { IfSome result (λ number. IsNumber digits largest text.now number) }
    ensures refused { IfNone result ((number : ℕ) → IsNumber digits largest text.now number → ⊥) }
{
    if text.len() > digits || text.as_bytes().first() == Some(&b'+') {
        return None;
    }
    match text.parse::<u32>() {
        Ok(number) if number <= largest => Some(number),
        _ => None,
    }
}

/// The PID that one to four decimal digits write.
pub(crate) fn pid_in(text: &str) -> Option<u16>
    ensures read { IfSome result (λ pid. IsNumber 4 8190 text.now pid) }
    ensures refused { IfNone result ((pid : ℕ) → IsNumber 4 8190 text.now pid → ⊥) }
{
    match number_up_to(text, PID_DIGITS, LAST_PID) {
        Some(pid) => u16::try_from(pid).ok(),
        None => None,
    }
}

/// The PID of an INT that one to four decimal digits write: 32 to 8190.
pub(crate) fn table_pid_in(text: &str) -> Option<u16>
    ensures read { IfSome result (λ pid. IsNumber 4 8190 text.now pid × (32 ≤ pid)) }
    ensures refused { IfNone result ((pid : ℕ) → IsNumber 4 8190 text.now pid → 32 ≤ pid → ⊥) }
{
    match pid_in(text) {
        Some(pid) if pid >= FIRST_TABLE_PID => Some(pid),
        _ => None,
    }
}

/// The ISI that one to three decimal digits write.
pub(crate) fn isi_in(text: &str) -> Option<u8>
    ensures read { IfSome result (λ isi. IsNumber 3 255 text.now isi) }
    ensures refused { IfNone result ((isi : ℕ) → IsNumber 3 255 text.now isi → ⊥) }
{
    match number_up_to(text, ISI_DIGITS, LAST_ISI) {
        Some(isi) => u8::try_from(isi).ok(),
        None => None,
    }
}

/// The number of 32 bits that one to ten decimal digits write.
pub(crate) fn number_in(text: &str) -> Option<u32>
    ensures read { IfSome result (λ number. IsNumber 10 4294967295 text.now number) }
    ensures refused { IfNone result ((number : ℕ) → IsNumber 10 4294967295 text.now number → ⊥) }
{
    number_up_to(text, NUMBER_DIGITS, u32::MAX)
}
