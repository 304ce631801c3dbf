//! Where the bytes of a capture come from.

ghost use Rattle.std.specs.Prelude.{◌≡◌, IsSome, Ok, false};

use cqlp_note::{IoFault, OfStd, Source};
use std::io::Read;

/// Where the bytes of a capture come from: one file, or several that were captured one after the other.
pub trait CaptureInput: Source {
    /// Goes on to the next file, after a read that gave nothing; false where there is none. An input whose bytes are known is one file.
    ///
    /// # Errors
    ///
    /// A file that cannot be opened.
    fn next_file(&mut self) -> Result<bool, IoFault>
        ensures one { IsSome (Self.left self.old) → (result ≡ Ok false) × (self.new ≡ self.old) }
        ensures reads { Self.reads self.new ≡ Self.reads self.old }
        ensures failures { Self.failures self.new ≡ Self.failures self.old }
        ensures asked { Self.asked self.new ≡ Self.asked self.old }
    {
        Ok(false)
    }
}

/// One file.
impl<X: Read> CaptureInput for OfStd<X> {}
