//! The limits that a caller sets. The greatest length of a body is none of them: it is `Header::LONGEST_BODY`.

ghost use Rattle.std.specs.Prelude.{◌≡◌};

use thiserror::Error;

/// What a reader of frames holds at most, and what it reads.
#[derive(Clone, Copy, Debug, PartialEq, Eq)]
pub struct Limits {
    /// The bytes of one \[string\] or \[long string\]: 32 to 16,777,216.
    pub text: u32,
    /// The bytes of one \[bytes\], \[short bytes\], \[value\] or scalar cell: 32 to 16,777,216.
    pub cell: u32,
    /// The type options of one metadata, nested ones counted: 1 to 65,536.
    pub entries: u32,
    /// The nesting of one type, a column's own option having depth 1: 1 to 64.
    pub depth: u32,
    /// Whether cells are read by the types of their columns. Without them, each cell is a raw scalar.
    pub types: bool,
    /// Whether a blob, custom or raw scalar longer than `cell` comes in parts of that size.
    pub parts: bool,
}

/// What a reader of frames is asked for: the limits, and how it reads.
#[derive(Clone, Copy)]
pub struct Asked {
    pub text: u32,
    pub cell: u32,
    pub entries: u32,
    pub depth: u32,
    pub types: bool,
    pub parts: bool,
    /// Whether what a type does not have is taken as raw bytes.
    pub lenient: bool,
}

impl Asked {
    ghost use Rattle.cqlp_note.specs.Limits.{asked_of};

    /// These limits, for a reading that is lenient or not.
    pub fn new(limits: &Limits, lenient: bool) -> Self
        ensures { result ≡ asked_of limits.now lenient }
    {
        Asked {
            text: limits.text,
            cell: limits.cell,
            entries: limits.entries,
            depth: limits.depth,
            types: limits.types,
            parts: limits.parts,
            lenient,
        }
    }
}

/// The numbers that a limit may be.
#[derive(Clone, Copy)]
pub struct LimitRange {
    /// The smallest number that the limit may be, itself allowed.
    pub least: u32,
    /// The greatest number that the limit may be, itself allowed.
    pub greatest: u32,
}

/// The first of the limits that is out of its range.
#[derive(Clone, Copy, Debug, PartialEq, Eq, Error)]
pub enum BadLimits {
    /// [`Limits::text`] is out of [`Limits::TEXT`], 32 to 16,777,216 bytes.
    #[error("the limit on a text is not from 32 to 16777216")]
    Text,
    /// [`Limits::cell`] is out of [`Limits::CELL`], 32 to 16,777,216 bytes.
    #[error("the limit on a cell is not from 32 to 16777216")]
    Cell,
    /// [`Limits::entries`] is out of [`Limits::ENTRIES`], 1 to 65,536 type options.
    #[error("the limit on type options is not from 1 to 65536")]
    Entries,
    /// [`Limits::depth`] is out of [`Limits::DEPTH`], 1 to 64 levels.
    #[error("the limit on nesting is not from 1 to 64")]
    Depth,
}

impl Limits {
    ghost use Rattle.cqlp_note.specs.Limits.{first_bad};

    /// The range of `text`.
    pub const TEXT: LimitRange = LimitRange {
        least: 32,
        greatest: 16_777_216,
    };

    /// The range of `cell`.
    pub const CELL: LimitRange = LimitRange {
        least: 32,
        greatest: 16_777_216,
    };

    /// The range of `entries`.
    pub const ENTRIES: LimitRange = LimitRange {
        least: 1,
        greatest: 65_536,
    };

    /// The range of `depth`.
    pub const DEPTH: LimitRange = LimitRange {
        least: 1,
        greatest: 64,
    };

    /// Those where none are given.
    pub const DEFAULT: Limits = Limits {
        text: 1_048_576,
        cell: 1_048_576,
        entries: 4_096,
        depth: 16,
        types: true,
        parts: false,
    };

    /// Whether the four numbers are in their ranges; else the first that is not, in the order of the fields.
    ///
    /// # Errors
    ///
    /// The first number that is out of its range, in the order of the fields.
    pub fn check(&self) -> Result<(), BadLimits>
        ensures { result ≡ first_bad self.now }
    {
        if !Limits::TEXT.contains(self.text) {
            Err(BadLimits::Text)
        } else if !Limits::CELL.contains(self.cell) {
            Err(BadLimits::Cell)
        } else if !Limits::ENTRIES.contains(self.entries) {
            Err(BadLimits::Entries)
        } else if !Limits::DEPTH.contains(self.depth) {
            Err(BadLimits::Depth)
        } else {
            Ok(())
        }
    }
}

impl LimitRange {
    ghost use Rattle.cqlp_note.specs.Limits.{is_in};

    /// Whether a limit may be this number.
    #[must_use]
    pub fn contains(self, number: u32) -> bool
        ensures { result ≡ is_in self number }
    {
        self.least <= number && number <= self.greatest
    }
}
