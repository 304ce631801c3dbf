//! What texts are written with.

ghost use Rattle.std.specs.Prelude.{◌≡◌, true, false, decimal};
ghost use Rattle.cqlp_text.specs.CellText.{digits};
ghost use Rattle.cqlp_text.specs.PageText.{item_text};
ghost use Rattle.cqlp_text.specs.Text.{quoted};
ghost use Rattle.cqlp_text.specs.Written.{Receives, Writes};

use crate::gap::Gap;
use cqlp_grammar::SinkFault;

/// What takes short texts and numbers, one after the other, on their way to a target.
pub trait Pen {
    ghost use Rattle.std.specs.Prelude.{◌≤◌};
    ghost use Rattle.cqlp_text.specs.Written.{Written};

    /// What was passed on, and what waits and would be lost at a fault.
    ghost state: { Self → Written };

    /// Takes a text.
    fn put(&mut self, bytes: &[u8]) -> Result<(), SinkFault>
        ensures { Writes (state self.old) bytes.now result (state self.new) };

    /// Takes a number as decimal digits.
    fn put_number(&mut self, number: u64) -> Result<(), SinkFault>
        ensures { Writes (state self.old) (decimal number) result (state self.new) };

    /// Takes a number as decimal digits, behind a gap and, where a line ends, before its end. It may
    /// take nothing, and then answers false.
    fn takes_item(&mut self, gap: Gap, number: u64, ends_line: bool) -> bool
        ensures taken { result ≡ true → Receives (state self.old) (item_text gap (decimal number) ends_line) (state self.new) }
        ensures left { result ≡ false → state self.new ≡ state self.old };

    /// Takes a text in quotes in the same way.
    fn takes_text(&mut self, gap: Gap, text: &str, ends_line: bool) -> bool
        ensures taken { result ≡ true → Receives (state self.old) (item_text gap (quoted text.now) ends_line) (state self.new) }
        ensures left { result ≡ false → state self.new ≡ state self.old };

    /// Takes this many digits of a number, with leading zeros.
    fn put_digits(&mut self, count: usize, number: u64) -> Result<(), SinkFault>
        requires { count ≤ 128 }
        ensures { Writes (state self.old) (digits count number) result (state self.new) };
}
