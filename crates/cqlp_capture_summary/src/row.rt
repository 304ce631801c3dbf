//! What is shown of a statement.

ghost use Rattle.std.specs.Prelude.{◌≡◌};
ghost use Rattle.cqlp_capture_summary.specs.Lines.{text_front};

use crate::lines::text_front;
use crate::tally::Figures;

/// What is shown of a statement in a summary.
#[derive(Clone, Copy)]
pub struct Row<'a> {
    /// The first 256 bytes of what it is called.
    pub name: &'a [u8],
    /// Whether these are all of it.
    pub is_whole_name: bool,
    /// The most nanoseconds that it may have taken before `figures` began to count: when it was not in the table.
    pub missing: u64,
    pub figures: Figures,
    /// How many of its times are in each of the 1,920 buckets, whose greatest times are `greatest_in`.
    pub buckets: &'a [u64],
}

impl<'a> Row<'a> {
    /// The longest front of the name that is UTF-8.
    pub fn text(&self) -> &'a str
        ensures { result.now ≡ text_front self.now.name.now }
    {
        text_front(self.name)
    }
}
