//! Text on its way to a target.

ghost use Rattle.std.specs.Prelude.{◌≡◌, ◌≤◌, [], true, false, decimal};
ghost use Rattle.cqlp_text.specs.CellText.{digits};
ghost use Rattle.cqlp_text.specs.PageText.{item_text};
ghost use Rattle.cqlp_text.specs.Text.{quoted};
ghost use Rattle.cqlp_text.specs.Written.{Receives, Writes, unbuffered};

use crate::buffered::Buffered;
use crate::gap::Gap;
use crate::line_pen::LinePen;
use crate::pen::Pen;
use cqlp_grammar::SinkFault;
use cqlp_note::Target;
use std::alloc::Allocator;
use std::marker::Model;

/// Writes texts with a pen.
#[derive(Drop)]
pub struct TextWriter<P: Pen> {
    pen: P,
}

impl<P: Pen> Model for TextWriter<P> {
    ghost use Rattle.cqlp_text.specs.Written.{Written};

    ghost Value = { Written };

    ghost view = { λ w. P.state w.pen };
}

impl<P: Pen> TextWriter<P> {
    /// With this pen.
    pub fn new(pen: P) -> Self
        ensures { result ≡ P.state pen }
    {
        TextWriter { pen }
    }

    /// The pen.
    pub fn into_inner(self) -> P
        ensures { P.state result ≡ self }
    {
        let TextWriter { pen } = self;
        pen
    }

    /// Takes a text.
    #[inline(always)]
    pub fn put(&mut self, bytes: &[u8]) -> Result<(), SinkFault>
        ensures { Writes self.old bytes.now result self.new }
    {
        self.pen.put(bytes)
    }

    /// Takes a number as decimal digits.
    #[inline(always)]
    pub fn put_number(&mut self, number: u64) -> Result<(), SinkFault>
        ensures { Writes self.old (decimal number) result self.new }
    {
        self.pen.put_number(number)
    }

    /// Takes a number as decimal digits, behind a gap and, where a line ends, before its end. It may
    /// take nothing, and then answers false.
    #[inline(always)]
    pub(crate) fn takes_item(&mut self, gap: Gap, number: u64, ends_line: bool) -> bool
        ensures taken { result ≡ true → Receives self.old (item_text gap (decimal number) ends_line) self.new }
        ensures left { result ≡ false → self.new ≡ self.old }
    {
        self.pen.takes_item(gap, number, ends_line)
    }

    /// Takes a text in quotes in the same way.
    #[inline(always)]
    pub(crate) fn takes_text(&mut self, gap: Gap, text: &str, ends_line: bool) -> bool
        ensures taken { result ≡ true → Receives self.old (item_text gap (quoted text.now) ends_line) self.new }
        ensures left { result ≡ false → self.new ≡ self.old }
    {
        self.pen.takes_text(gap, text, ends_line)
    }

    /// Takes this many digits of a number, with leading zeros.
    #[inline(always)]
    pub fn put_digits(&mut self, count: usize, number: u64) -> Result<(), SinkFault>
        requires { count ≤ 128 }
        ensures { Writes self.old (digits count number) result self.new }
    {
        self.pen.put_digits(count, number)
    }
}

impl<'a, W: Target> TextWriter<LinePen<'a, W>> {
    /// In front of a target, with nothing that waits.
    pub fn over(target: &'a mut W) -> Self
        ensures { result ≡ record (unbuffered W.Target target.old) { lender = target.entry.ghost_name } }
    {
        TextWriter::new(LinePen::new(target))
    }

    /// The target, which did not get what waits.
    pub fn into_target(self) -> &'a mut W
        ensures lender { result.ghost_name ≡ self.entry.lender }
        ensures given { unbuffered W.Target result.now ≡ record self.entry { waiting = []; lender = 0 } }
    {
        self.into_inner().into_inner()
    }

    /// Passes on all that waits; after a fault nothing waits either.
    #[inline(always)]
    pub fn flush(&mut self) -> Result<(), SinkFault>
        ensures writes { Writes self.old [] result self.new }
        ensures empty { self.new.waiting ≡ [] }
    {
        self.pen.flush()
    }
}

impl<W: Target, A: Allocator> TextWriter<Buffered<W, A>> {
    /// Passes on all that waits in the buffer; after a fault nothing waits either.
    pub fn pass_on(&mut self) -> Result<(), SinkFault>
        ensures writes { Writes self.old [] result self.new }
        ensures empty { self.new.waiting ≡ [] }
    {
        self.pen.flush()
    }
}
