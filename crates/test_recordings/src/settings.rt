//! Parts of settings, and texts of them.
use std::alloc::{AllocError as OutOfMemory, Global};

/// An IP/MAC notification table on PID 600.
pub const INT: &str = "[int]
pid = 600
platform_id = 1
network_id = 2
original_network_id = 3
transport_stream_id = 4
";

/// A lecture in datagram_sections on PID 512, for 239.1.0.0/16.
pub const LECTURE: &str = "[[service]]
name = \"lecture\"
kind = \"mpe\"
pid = 512
rules = [\"239.1.0.0/16\"]
";

/// Files in SNDUs on PID 513, for 239.2.0.0/16.
pub const FILES: &str = "[[service]]
name = \"files\"
kind = \"ule\"
pid = 513
rules = [\"239.2.0.0/16\"]
";

/// Two services of SNDUs on PIDs 256 and 257, for 239.1.0.0/16 and 239.2.0.0/16.
pub const ONE_AND_TWO: &str = "[[service]]
name = \"one\"
kind = \"ule\"
pid = 256
rules = [\"239.1.0.0/16\"]
[[service]]
name = \"two\"
kind = \"ule\"
pid = 257
rules = [\"239.2.0.0/16\"]
";

/// A service of datagram_sections on PID 258, for 239.3.0.0/16.
pub const THREE: &str = "[[service]]
name = \"three\"
kind = \"mpe\"
pid = 258
rules = [\"239.3.0.0/16\"]
";

/// Settings of a service of MPE-FEC frames of 256 rows without time slicing.
pub const FRAMES: &str = "[[service]]
name = \"lecture\"
kind = \"fec\"
pid = 512
mode = \"indexed\"
rows = 256
rules = [\"239.1.0.0/16\"]
";

/// Settings of a service of MPE-FEC frames of 1,024 rows with time slicing.
pub const BURSTS: &str = "recording = \"stamped\"
[[service]]
name = \"lecture\"
kind = \"fec\"
pid = 512
mode = \"sliced\"
rows = 1024
window_start = 100
window_length = 1500
rules = [\"239.1.0.0/16\"]
";

/// A recording of time stamps and packets.
pub const STAMPED: &str = "recording = \"stamped\"\n";

/// Settings of these parts, one after the other.
pub fn settings_of(alloc: Global, parts: &[&str]) -> Result<String, OutOfMemory> {
    let mut text = String::new(alloc);
    for part in parts {
        text.push_str(part)?;
    }
    Ok(text)
}
