//! What takes the records of a capture, one by one.
ghost use Rattle.std.specs.Prelude.{◌≡◌, ◌<◌, Bool, true, ℕ, List, ◌∷◌, [], ◌++◌, length, OnOk};
ghost use Rattle.pcap_file.specs.Reading.{most_records};
ghost use Rattle.pcap_file.specs.declared.captured.LinkType.{LinkType as Link};

use pcap_file::LinkType;
use std::alloc::AllocError as OutOfMemory;

/// What takes the records of a capture one by one.
pub trait CaptureTaker {
    /// The link types of the captures that it takes.
    ghost wants: { Link → Bool };

    /// From one state to another it has taken these records of a capture of this link type.
    ghost Took: { Self → Self → Link → List (List ℕ) → Type 0 };

    /// Whether it takes captures of a link type.
    fn wants(link: LinkType) -> bool
        ensures read { result ≡ wants link };

    /// Takes the next record, its captured bytes. When out of memory it may be given no more.
    fn take(&mut self, link: LinkType, captured: &[u8]) -> Result<(), OutOfMemory>
        requires wanted { wants link ≡ true }
        requires room { (start : Self) × (records : List (List ℕ)) × Took start self.old link records × (length records < most_records) }
        ensures took { (start : Self) (records : List (List ℕ)) → Took start self.old link records → length records < most_records
            → OnOk result (Took start self.new link (records ++ captured.now ∷ [])) };
}
