//! A type option out of pieces of any size.

ghost use Rattle.std.specs.Prelude.{◌≡◌, ◌+◌, ◌<◌, ◌≤◌, ◌++◌, ◌∷◌, [], true, false, length, IfOk, IsTrue, ◌↔◌};
ghost use Rattle.std.specs.Borrow.{sem};
ghost use Rattle.cqlp_note.specs.Limits.{rules_asked, rules_of};

use crate::advance::TypeAdvance;
use crate::item::TypePush;
use crate::open_options::OpenOptions;
use crate::remaining::{OptionStage, Remaining};
use crate::table::TypeTable;
use cqlp_note::{Asked, FieldAdvance, Limits, NoMemory, Notation, Partial, Refusal};
use std::alloc::{Allocator, Global};
use std::marker::Model;

/// Reads type options, one at a time. Its texts are read in the caller's `Partial`, and its types go into the caller's
/// table.
#[derive(Drop)]
pub struct TypeReader<A: Allocator = Global> {
    limits: Asked,
    /// The offset of the item that is read now.
    at: u64,
    /// The end of the frame.
    end: u64,
    /// Whether the item has been begun.
    begun: bool,
    /// How many of its bytes have come.
    taken: u64,
    remaining: Remaining<A>,
}

impl<A: Allocator> Model for TypeReader<A> {
    ghost use Rattle.std.specs.Prelude.{◌≤◌};
    ghost use Rattle.cqlp_type.specs.Progress.{TypeState, progress};
    ghost use Rattle.cqlp_type.specs.Remaining.{Fits};

    ghost Value = { TypeState };

    ghost view = { λ r. progress r.limits r.at r.end r.remaining.stage r.remaining.open_options r.begun r.taken };

    ghost invariant = { λ r. (r.at ≤ r.end) × Fits r.limits r.remaining };
}

impl<A: Allocator> TypeReader<A> {
    ghost use Rattle.cqlp_type.specs.Progress.{IsShared, Advances, IsFor, new_reader, pending, started, stopped};
    ghost use Rattle.cqlp_note.specs.Lending.{LeavesField};
    ghost use Rattle.cqlp_type.specs.Pushing.{Uses, Continues, Fills, Pushes, ReadsInto, AdvanceLeaves};
    ghost use Rattle.cqlp_type.specs.Table.{Table};
    ghost use Rattle.cqlp_kind.specs.Types.{IsPreorder};
    ghost use Rattle.cqlp_note.specs.Partial.{FieldState};

    /// With room for the nesting that the limits allow.
    pub fn new(alloc: A, limits: &Limits) -> Result<Self, NoMemory>
        ensures { IfOk result (λ reader. reader ≡ new_reader (rules_of limits.now)) }
    {
        Self::asked(alloc, &Asked::new(limits, false))
    }

    /// The same, where the caller may ask for a lenient reading.
    pub fn asked(alloc: A, limits: &Asked) -> Result<Self, NoMemory>
        ensures { IfOk result (λ reader. reader ≡ new_reader (rules_asked limits.now)) }
    {
        Ok(TypeReader {
            limits: *limits,
            at: 0,
            end: 0,
            begun: false,
            taken: 0,
            remaining: Remaining {
                stage: OptionStage::Idle,
                open_options: OpenOptions::new(alloc, limits.depth)?,
            },
        })
    }

    /// Begins an option at an offset, in a frame that ends at another. It may be read into any table of whole types.
    pub fn begin(&mut self, at: u64, end: u64)
        requires idle { self.old.under_way ≡ false }
        requires place { at ≤ end }
        ensures is { self.new ≡ started self.old at end }
        ensures reads { (p : FieldState) (t : Table) → IsPreorder t.nodes → ReadsInto self.new p t }
    {
        self.at = at;
        self.end = end;
        self.begun = false;
        self.taken = 0;
        self.remaining.open_options.clear();
        self.remaining.stage = OptionStage::Id;
    }

    /// Whether an option is under way and whole, so that the next push says so.
    pub fn done(&self) -> bool
        ensures { IsTrue result ↔ ((self.now.under_way ≡ true) × (self.now.symbols ≡ [])) }
    {
        matches!(self.remaining.stage, OptionStage::Done)
    }

    /// How many options are open around the one that is read.
    pub fn held(&self) -> u32
        ensures is { result ≡ self.now.height }
        ensures bound { result ≤ self.now.rules.depth }
    {
        self.remaining.open_options.len()
    }

    /// How many open options its memory has places for: as many as the limits allow, for as long as it lives.
    pub fn capacity(&self) -> usize
        ensures { result ≡ self.now.rules.depth }
    {
        self.remaining.open_options.capacity()
    }

    /// The offset of the first byte of what is read now.
    pub fn offset(&self) -> u64
        ensures is { result ≡ self.now.offset }
        ensures inside { result ≤ self.now.stop }
    {
        self.at
    }

    /// Takes the next bytes of the option that is under way, whose nodes are in the table.
    pub fn advance<B: Allocator, C: Allocator>(
        &mut self,
        partial: &mut Partial<B>,
        table: &mut TypeTable<C>,
        input: &[u8],
    ) -> TypeAdvance
        requires under_way { self.old.under_way ≡ true }
        requires shared { IsShared self.old partial.old }
        requires room { self.old.rules.entries ≤ table.old.room }
        requires table { ReadsInto self.old partial.old table.old }
        ensures is { Advances self.old partial.old table.old input.now result self.new partial.new table.new }
        ensures leaves { AdvanceLeaves result self.new partial.new table.new }
    {
        if let OptionStage::Done = self.remaining.stage {
            self.stop();
            return TypeAdvance::Done;
        }
        self.begin_item(partial);
        match partial.advance(input) {
            FieldAdvance::More { used } => {
                self.taken += used as u64;
                TypeAdvance::More { used }
            }
            FieldAdvance::Refused(refusal) => {
                self.stop();
                TypeAdvance::Refused(refusal)
            }
            FieldAdvance::Got { used, item } => {
                let at = self.at;
                match self.remaining.follow(&self.limits, item, table) {
                    Ok(item) => {
                        self.at += self.taken + used as u64;
                        self.begun = false;
                        self.taken = 0;
                        TypeAdvance::Item { at, used, item }
                    }
                    Err(why) => {
                        self.stop();
                        TypeAdvance::Refused(Refusal { at, why })
                    }
                }
            }
        }
    }

    /// Takes the next bytes of the option that is under way. A text that lies whole in them is lent from them.
    ///
    /// The `Partial` comes first: what is lent may be its own, and a clause says what the first parameter is once that
    /// loan has ended.
    pub fn push<'a, B: Allocator, C: Allocator>(
        partial: &'a mut Partial<B>,
        reader: &mut Self,
        table: &mut TypeTable<C>,
        input: &'a [u8],
    ) -> TypePush<'a>
        requires under_way { reader.old.under_way ≡ true }
        requires shared { IsShared reader.old partial.old }
        requires room { reader.old.rules.entries ≤ table.old.room }
        requires table { ReadsInto reader.old partial.old table.old }
        ensures uses { Uses reader.old input.now result }
        ensures reader { Continues reader.old result reader.new }
        ensures table { Fills reader.old table.old result table.new }
        ensures* next { sem 𝓛 (LeavesField B.row B.Allocator partial.entry
            (λ after. Pushes reader.old partial.old table.old input.now result reader.new after table.new)) }
    {
        match reader.advance(partial, table, input) {
            TypeAdvance::More { used } => TypePush::More { used },
            TypeAdvance::Item { at, used, item } => TypePush::Item {
                at,
                used,
                item: item.lend(partial, input),
            },
            TypeAdvance::Done => TypePush::Done,
            TypeAdvance::Refused(refusal) => TypePush::Refused(refusal),
        }
    }

    /// Begins the item, unless it has begun.
    fn begin_item<B: Allocator>(&mut self, partial: &mut Partial<B>)
        requires wanted { (self.old.symbols ≡ []) → ⊥ }
        requires shared { IsShared self.old partial.old }
        ensures reader { self.new ≡ record self.old { begun = true; taken = self.new.taken } }
        ensures shared { IsShared self.new partial.new }
        ensures pending { pending self.new partial.new ≡ pending self.old partial.old }
        ensures room { partial.new.room ≡ partial.old.room }
    {
        if self.begun {
            return;
        }
        let (notation, limit) = match self.remaining.stage {
            OptionStage::Id | OptionStage::Fields { .. } => (Notation::Short, 0),
            _ => (Notation::Text16, self.limits.text),
        };
        partial.begin(notation, limit, self.at, self.end);
        self.begun = true;
        self.taken = 0;
    }

    /// Ends the option, whole or not.
    pub fn stop(&mut self)
        ensures { self.new ≡ stopped self.old }
    {
        self.begun = false;
        self.taken = 0;
        self.remaining.open_options.clear();
        self.remaining.stage = OptionStage::Idle;
    }
}
