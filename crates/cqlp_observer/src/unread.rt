//! What is still to be read of a piece.

ghost use Rattle.std.specs.Prelude.{◌≡◌, ◌≤◌, ◌&&◌, ◌==◌, ◌+◌, ◌*◌, ◌-◌, drop, length};

/// The bytes of a piece that are still to be read, step by step.
///
/// A step uses some of them, or ends a frame: so a piece of n bytes takes at most 2 n + 2 steps.
#[derive(Clone, Copy)]
pub struct Unread<'a> {
    pub bytes: &'a [u8],
    /// Whether the first of them begins a segment.
    pub begins: bool,
    /// How many steps are left at most.
    pub steps: u128,
}

impl<'a> Unread<'a> {
    /// All bytes of a piece, the first of which begins a segment or not.
    #[must_use]
    #[inline(always)]
    pub fn new(bytes: &'a [u8], begins: bool) -> Self
        ensures bytes { result.bytes.now ≡ bytes.now }
        ensures begins { result.begins ≡ begins }
        ensures steps { result.steps ≡ 2 * length bytes.now + 2 }
    {
        Unread {
            bytes,
            begins,
            steps: 2 * bytes.len() as u128 + 2,
        }
    }

    /// What is left after a step that used so many bytes. The first of them still begins a segment if none was used.
    #[must_use]
    #[inline(always)]
    pub fn after(self, used: usize) -> Self
        requires { used ≤ length self.bytes.now }
        ensures bytes { result.bytes.now ≡ drop used self.entry.bytes.now }
        ensures begins { result.begins ≡ (self.entry.begins && used == 0) }
        ensures steps { result.steps ≡ self.entry.steps - 1 }
    {
        Unread {
            bytes: &self.bytes[used..],
            begins: self.begins && used == 0,
            steps: self.steps.saturating_sub(1),
        }
    }
}
