//! Why a text is no pattern.

/// What is wrong with a pattern.
#[derive(Clone, Copy, Debug, PartialEq, Eq)]
pub enum PatternFault {
    /// A `(` without its `)`.
    OpenGroup,
    /// A `)` without its `(`.
    NoGroup,
    /// A group that begins with `(?`, other than `(?:` and a `(?i)` that begins the pattern.
    SpecialGroup,
    /// More than 16 groups, each in the one before.
    Deep,
    /// A `[` without its `]`.
    OpenBrackets,
    /// A character between `[` and `]` that is not ASCII, or a class such as `[:alpha:]`.
    BracketsMember,
    /// A range such as `z-a`.
    BracketsRange,
    /// A `*`, `+`, `?` or `{` with nothing before it that it repeats.
    NothingToRepeat,
    /// Not `{N}`, `{N,}` or `{N,M}`, with numbers of 128 at most, the greater one last.
    Repeat,
    /// A `\` and what has no meaning behind it.
    Escape,
    /// A `^` or `$` that another one may follow at the same place.
    Anchors,
    /// More than 128 characters, those of repeated parts counted as often as they are there.
    Long,
}

impl PatternFault {
    /// What a mistake says of it.
    pub fn text(self) -> &'static str {
        match self {
            PatternFault::OpenGroup => "the group has no )",
            PatternFault::NoGroup => "the ) ends no group",
            PatternFault::SpecialGroup => "groups are (..) and (?:..), and (?i) begins the pattern",
            PatternFault::Deep => "more than 16 groups are open",
            PatternFault::OpenBrackets => "the brackets have no ]",
            PatternFault::BracketsMember => {
                "brackets have characters of ASCII, their ranges, and \\d, \\w and \\s"
            }
            PatternFault::BracketsRange => "the range has no first and last character in order",
            PatternFault::NothingToRepeat => "there is nothing to repeat",
            PatternFault::Repeat => {
                "a repetition is {N}, {N,} or {N,M}, with numbers in order, 128 at most"
            }
            PatternFault::Escape =>
                "behind \\ are a punctuation mark or d, w, s, D, W, S, t, n or r",
            PatternFault::Anchors => "a ^ or $ may follow another one at the same place",
            PatternFault::Long => "more than 128 characters, repeated ones counted each time",
        }
    }
}

/// Why a text is no pattern, and where.
#[derive(Clone, Copy, Debug, PartialEq, Eq)]
pub struct BadPattern {
    pub fault: PatternFault,
    /// How many bytes of the text are before what is wrong.
    pub at: usize,
}

impl BadPattern {
    pub(crate) fn new(fault: PatternFault, at: usize) -> BadPattern {
        BadPattern { fault, at }
    }

    /// Which character of the text is wrong; the first is 1.
    pub fn character(&self, text: &str) -> usize {
        let mut count: usize = 1;
        for byte in &text.as_bytes()[..self.at.min(text.len())] {
            if byte & 0xc0 != 0x80 {
                count = count.saturating_add(1);
            }
        }
        count
    }
}
