//! Parts of a pattern that is built.

/// Some positions of a pattern: where a match of this part may begin and where it may end.
#[derive(Clone, Copy)]
pub(crate) struct Fragment {
    /// A bit for each position that may come first.
    pub(crate) first: u128,
    /// A bit for each position that may come last.
    pub(crate) last: u128,
    /// Whether the empty text is one of its.
    pub(crate) is_empty: bool,
}

impl Fragment {
    /// The empty text alone.
    pub(crate) const EMPTY: Fragment = Fragment {
        first: 0,
        last: 0,
        is_empty: true,
    };

    /// Either.
    pub(crate) fn or(self, other: Fragment) -> Fragment {
        Fragment {
            first: self.first | other.first,
            last: self.last | other.last,
            is_empty: self.is_empty || other.is_empty,
        }
    }

    /// This and then the other, where the ends of this lead to the beginnings of the other.
    pub(crate) fn then(self, other: Fragment) -> Fragment {
        Fragment {
            first: self.first | if self.is_empty { other.first } else { 0 },
            last: other.last | if other.is_empty { self.last } else { 0 },
            is_empty: self.is_empty && other.is_empty,
        }
    }

    /// This, or the empty text.
    pub(crate) fn optional(self) -> Fragment {
        Fragment {
            is_empty: true,
            ..self
        }
    }
}
