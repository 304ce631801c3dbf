//! Laws of the numbers that are promised. No code needs them.

ghost use Rattle.std.specs.Prelude.{◌≡◌};

use crate::reading::ROOM;

/// The number that is promised: how many bytes of text go to the output at once, 65,536.
pub fn promised_numbers()
    ensures { ROOM ≡ 65536 }
{}
