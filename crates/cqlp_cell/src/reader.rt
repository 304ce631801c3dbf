//! A cell out of pieces of any size.

ghost use Rattle.std.specs.Prelude.{◌≡◌, ℕ, ◌+◌, ◌^◌, ◌<◌, ◌≤◌, List, None, true, false, length, IfOk};
ghost use Rattle.std.specs.Borrow.{sem};
ghost use Rattle.cqlp_note.specs.Limits.{rules_of, rules_asked};

use crate::advance::CellAdvance;
use crate::item::CellPush;
use crate::level::Level;
use crate::open_values::OpenValues;
use crate::progress::{Arrived, CellProgress, NextInCell};
use crate::whole::{BareItem, Entered};
use cqlp_note::{Asked, Limits, NoMemory, Partial};
use cqlp_type::TypeTable;
use std::alloc::{Allocator, Global};
use std::marker::Model;

/// Reads cells, one at a time, as events. Their contents are read in the caller's `Partial`, and their types are in
/// the caller's table. Section 6 of `native_protocol_v4.spec`.
#[derive(Drop)]
pub struct CellReader<A: Allocator = Global> {
    progress: CellProgress<A>,
}

impl<A: Allocator> Model for CellReader<A> {
    ghost use Rattle.cqlp_cell.specs.Progress.{CellState, IsLawful, state_of};

    ghost Value = { CellState };

    ghost view = { λ r. state_of r.progress };

    ghost invariant = { λ r. IsLawful r.progress };
}

impl<A: Allocator> CellReader<A> {
    ghost use Rattle.cqlp_note.specs.Lending.{LeavesField};
    ghost use Rattle.cqlp_cell.specs.Progress.{Conforms, ended, is_under_way};
    ghost use Rattle.cqlp_kind.specs.declared.node.Node.{Node};
    ghost use Rattle.cqlp_cell.specs.Reading.{Answers, Empties, HaveCome, Joined, Moves};
    ghost use Rattle.cqlp_cell.specs.Pushing.{Continues, Pushes, Uses, begun, is_done, new_reader};
    ghost use Rattle.cqlp_cell.specs.Levels.{IsInLevel, level_of, with_level};
    ghost use Rattle.cqlp_cell.specs.Whole.{Enters, EntersNext, TakesBare, next_begun};

    /// With room for the nesting that the limits allow. Parts have at least one byte.
    pub fn new(alloc: A, limits: &Limits) -> Result<Self, NoMemory>
        requires { limits.now.parts ≡ true → 1 ≤ limits.now.cell }
        ensures { IfOk result (λ reader. reader ≡ new_reader (rules_of limits.now)) }
    {
        Self::asked(alloc, &Asked::new(limits, false))
    }

    /// The same, where the caller may ask for a lenient reading.
    pub fn asked(alloc: A, limits: &Asked) -> Result<Self, NoMemory>
        requires { limits.now.parts ≡ true → 1 ≤ limits.now.cell }
        ensures { IfOk result (λ reader. reader ≡ new_reader (rules_asked limits.now)) }
    {
        Ok(CellReader {
            progress: CellProgress {
                limits: *limits,
                offset: 0,
                stop: 0,
                next: NextInCell::Nothing,
                arrived: Arrived::Nothing,
                open_values: OpenValues::new(alloc, limits.depth)?,
            },
        })
    }

    /// Begins a cell of the type at this node, or of none, at an offset in a container that ends at another.
    #[inline(always)]
    pub fn begin(&mut self, node: Option<u32>, at: u64, end: u64)
        requires idle { is_under_way self.old ≡ false }
        requires place { at ≤ end }
        ensures { self.new ≡ begun self.old node at end }
    {
        self.progress.offset = at;
        self.progress.stop = end;
        self.progress.next = NextInCell::Cell(node);
        self.progress.arrived = Arrived::Nothing;
        self.progress.open_values.clear();
    }

    /// Whether a cell is under way and whole, so that the next push says so.
    pub fn done(&self) -> bool
        ensures { result ≡ is_done self.now }
    {
        matches!(self.progress.next, NextInCell::Items) && self.progress.open_values.len() == 0
    }

    /// How many values are open.
    pub fn levels(&self) -> u32
        ensures is { result ≡ length self.now.open_values }
        ensures bound { result ≤ self.now.rules.depth }
    {
        self.progress.open_values.len()
    }

    /// How many open values its memory has places for: as many as the limits allow, for as long as it lives.
    pub fn capacity(&self) -> usize
        ensures { result ≡ self.now.rules.depth }
    {
        self.progress.open_values.capacity()
    }

    /// The offset of what is read next.
    #[inline(always)]
    pub fn offset(&self) -> u64
        ensures { result ≡ self.now.offset }
    {
        let progress = &self.progress;
        progress.offset
    }

    /// Ends the cell that is under way, whole or not, if there is one.
    #[inline(always)]
    pub fn stop(&mut self)
        ensures { self.new ≡ ended self.old }
    {
        self.progress.end();
    }

    /// How many bytes of the stream were used: those before what is read next, and those of it that have come.
    pub fn bytes_used(&self, partial: &Partial<A>) -> u64
        requires { (nodes : List Node) × Conforms nodes self.now × Joined nodes self.now partial.now }
        ensures { (b : List ℕ) → HaveCome b self.now.arrived partial.now.seen → result ≡ self.now.offset + length b }
    {
        match self.progress.arrived {
            Arrived::Nothing => self.progress.offset,
            Arrived::Length | Arrived::Later => self.progress.offset + partial.came(),
            Arrived::Scalar(_) | Arrived::Counted(_) | Arrived::First(_) => {
                self.progress.offset + 4 + partial.came()
            }
        }
    }

    /// Takes the next bytes of the cell that is under way, and says where the content of an item lies.
    pub fn advance(
        &mut self,
        partial: &mut Partial<A>,
        table: &TypeTable<A>,
        input: &[u8],
    ) -> CellAdvance
        requires under_way { is_under_way self.old ≡ true }
        requires conforms { Conforms table.now.nodes self.old }
        requires joined { Joined table.now.nodes self.old partial.old }
        ensures moves { Moves table.now.nodes self.old partial.old input.now result self.new partial.new }
        ensures answers { Answers self.old input.now result }
        ensures empties { Empties result partial.new }
    {
        self.progress.advance(partial, table, input)
    }

    /// A copy of the innermost value that is open, where what is read next is in it and nothing of that has come.
    #[inline(always)]
    pub fn level(&self) -> Option<Level>
        ensures { result ≡ level_of self.now }
    {
        self.progress.level()
    }

    /// Goes on where a level is: it is the innermost value from now on, if one is open.
    #[inline(always)]
    pub fn set_level(&mut self, level: Level)
        ensures { self.new ≡ with_level self.old level }
    {
        self.progress.set_level(level);
    }

    /// Takes what is next of the cell that is under way, where it has no content, `advance` would hand it out of the
    /// input alone, and all its bytes lie in it; else it does nothing.
    #[inline(always)]
    pub fn take_bare(&mut self, table: &TypeTable<A>, input: &[u8]) -> Option<BareItem>
        requires { Conforms table.now.nodes self.old }
        ensures { TakesBare table.now.nodes self.old input.now result self.new }
    {
        self.progress.take_bare(table, input)
    }

    /// Goes on inside the list, the set or the map that is next of the cell under way, where `advance` would do so out of
    /// the input alone, and its length and its count lie in it; else it does nothing.
    #[inline(always)]
    pub fn enter(&mut self, table: &TypeTable<A>, input: &[u8]) -> Option<Entered>
        requires { Conforms table.now.nodes self.old }
        ensures { Enters table.now.nodes self.old input.now result self.new }
    {
        self.progress.enter_value(table, input)
    }

    /// Looks into the cell after the one that is under way, of the type at this node, where a level is at the end of this
    /// one: the beginning of a list, a set or a map, if its length and its count are lawful and lie in the input. A reader
    /// that is set to the level that is answered has ended the one cell and entered the other.
    #[inline(always)]
    pub fn enter_next(
        &self,
        level: Level,
        node: u32,
        table: &TypeTable<A>,
        input: &[u8],
    ) -> Option<Entered>
        requires inside { IsInLevel self.now level }
        requires alone { level.level ≤ 1 }
        requires conforms { Conforms table.now.nodes (next_begun self.now level node) }
        ensures { EntersNext table.now.nodes self.now level node input.now result }
    {
        self.progress.enter_next(level, node, table, input)
    }

    /// Takes the next bytes of the cell that is under way. A content that lies whole in them is lent from them.
    ///
    /// The `Partial` comes first: what is lent may be its own, and a clause says what the first parameter is once that
    /// loan has ended.
    pub fn push<'a>(
        partial: &'a mut Partial<A>,
        reader: &mut Self,
        table: &TypeTable<A>,
        input: &'a [u8],
    ) -> CellPush<'a>
        requires under_way { is_under_way reader.old ≡ true }
        requires conforms { Conforms table.now.nodes reader.old }
        requires joined { Joined table.now.nodes reader.old partial.old }
        ensures uses { Uses reader.old input.now result }
        ensures reader { Continues table.now.nodes reader.old result reader.new }
        ensures* next { sem 𝓛 (LeavesField A.row A.Allocator partial.entry
            (λ after. Pushes table.now.nodes reader.old partial.old input.now result reader.new after)) }
    {
        match reader.advance(partial, table, input) {
            CellAdvance::More { used } => CellPush::More { used },
            CellAdvance::Item { at, used, item } => CellPush::Item {
                at,
                used,
                item: item.lend(partial, input),
            },
            CellAdvance::Done => CellPush::Done,
            CellAdvance::Refused(refusal) => CellPush::Refused(refusal),
        }
    }
}
