//! What comes in front of a value of a page.

ghost use Rattle.std.specs.Prelude.{◌≡◌, ◌++◌, ℕ, List, length, take};
ghost use Rattle.cqlp_text.specs.PageText.{gap_text};

/// What comes in front of a value of a page.
#[derive(Clone, Copy, Debug, PartialEq, Eq)]
pub enum Gap {
    /// Nothing: in front of a row's first cell, and of a value's first item.
    Nothing,
    /// Between two cells.
    Bar,
    /// Between a key and its value.
    Colon,
    /// Between two items.
    Comma,
}

impl Gap {
    /// Four bytes, the first of which are its text.
    #[inline(always)]
    pub(crate) fn padded(self) -> [u8; 4]
        ensures { (rest : List ℕ) → take (length (gap_text self)) (result ++ rest) ≡ gap_text self }
    {
        match self {
            Gap::Nothing => *b"    ",
            Gap::Bar => *b" |  ",
            Gap::Colon => *b":   ",
            Gap::Comma => *b",   ",
        }
    }

    /// How many bytes its text has.
    #[inline(always)]
    pub(crate) fn len(self) -> usize
        ensures { result ≡ length (gap_text self) }
    {
        match self {
            Gap::Nothing => 0,
            Gap::Bar => 3,
            Gap::Colon | Gap::Comma => 2,
        }
    }
}
