//! Laws of the numbers that are promised. No code needs them.

ghost use Rattle.std.specs.Prelude.{◌≡◌};

use crate::showing::{ROOM, TURNS};

/// The numbers that are promised: how many reads a command makes at most, 2^32, and how many bytes of text go to the output at once,
/// 16,384.
pub fn promised_numbers()
    ensures turns { TURNS ≡ 4294967296 }
    ensures room { ROOM ≡ 16384 }
{}
