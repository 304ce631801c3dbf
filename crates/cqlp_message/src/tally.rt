//! What is found of the parts of a frame.

ghost use Rattle.std.specs.Prelude.{◌≡◌, ◌+◌, ◌-◌, ◌^◌, ◌&&◌, [], length, min, nat_lt, true};
ghost use Rattle.std.specs.Option.{option_map};
ghost use Rattle.std.specs.Str.{is_utf8};
ghost use Rattle.cqlp_type.specs.TypeTrees.{tree_of};
ghost use Rattle.cqlp_value.specs.Owned.{fits_type, value_of};
ghost use Rattle.cqlp_value.specs.Values.{AreInRange, values_size};
ghost use Rattle.cqlp_message.specs.Bodies.{bound};
ghost use Rattle.cqlp_message.specs.Owned.{bound_of};
ghost use Rattle.cqlp_message.specs.Parts.{Type_is};
ghost use Rattle.cqlp_message.specs.PartRefs.{part_of};
ghost use Rattle.cqlp_message.specs.Tallies.{IsTally, IsTallyOf};

use crate::part::{PartRef, TakesParts};
use crate::request::OwnedBound;
use cqlp_note::Address;
use cqlp_type::{TypeTree, check_type, type_size};
use cqlp_value::{Value, fitting_size, value_size};

/// What is found of parts.
#[derive(Clone, Copy)]
pub struct Tally {
    /// Each count is one that its notation has.
    pub counts: bool,
    /// Each text and content, but for those in cells, is no longer than its notation says.
    pub texts: bool,
    /// Each cell is a value of its type.
    pub cells: bool,
    /// How many bytes the parts have; 2^64 - 1 where there are more.
    pub size: u64,
}

impl Tally {
    /// That of no part.
    #[inline]
    pub fn new() -> Tally
        ensures { IsTally result [] }
    {
        Tally::fixed(0)
    }

    /// Counts those of these parts, too.
    #[inline(always)]
    fn add(&mut self, other: Tally)
        ensures counts { self.new.counts ≡ (self.old.counts && other.counts) }
        ensures texts { self.new.texts ≡ (self.old.texts && other.texts) }
        ensures cells { self.new.cells ≡ (self.old.cells && other.cells) }
        ensures size { self.new.size ≡ min (self.old.size + other.size) (2 ^ 64 - 1) }
    {
        if !other.is_fit() {
            self.note(other);
        }
        self.size = self.size.saturating_add(other.size);
    }

    /// Whether everything fits.
    #[inline(always)]
    fn is_fit(&self) -> bool
        ensures { result ≡ (self.now.counts && self.now.texts && self.now.cells) }
    {
        self.counts && self.texts && self.cells
    }

    /// Notes what does not fit of these.
    fn note(&mut self, other: Tally)
        ensures { self.new ≡ record self.old {
          counts = self.old.counts && other.counts;
          texts = self.old.texts && other.texts;
          cells = self.old.cells && other.cells;
        } }
    {
        self.counts = self.counts && other.counts;
        self.texts = self.texts && other.texts;
        self.cells = self.cells && other.cells;
    }

    /// That of a part.
    #[inline(always)]
    fn of(part: PartRef<'_>) -> Tally
        ensures { IsTallyOf result (part_of part.entry) }
    {
        match part {
            PartRef::Cell { tree, value, .. } => Tally::cell(value, tree),
            _ => Tally::of_any(part),
        }
    }

    /// That of a part that is mostly no cell.
    fn of_any(part: PartRef<'_>) -> Tally
        ensures { IsTallyOf result (part_of part.entry) }
    {
        match part {
            PartRef::Byte(_, _number) => Tally::fixed(1),
            PartRef::Short(_, _number) => Tally::fixed(2),
            PartRef::Int(_, _number) => Tally::fixed(4),
            PartRef::Long(_, _number) => Tally::fixed(8),
            PartRef::Uuid(_, id) => Tally::uuid(*id),
            PartRef::Count16(_, count) => Tally::counted(is_short(count), 2),
            PartRef::Count32(_, count) => Tally::counted(is_int(count), 4),
            PartRef::Text(_, text) => Tally::text(text),
            PartRef::LongText(_, text) => Tally::long_text(text),
            PartRef::ShortBytes(_, bytes) => Tally::content(2, bytes.len(), is_short(bytes.len())),
            PartRef::Bytes(_, None) => Tally::fixed(4),
            PartRef::Bytes(_, Some(bytes)) => Tally::content(4, bytes.len(), is_int(bytes.len())),
            PartRef::Bound(_, value) => Tally::bound(value),
            PartRef::Inet(_, Address::V4(bytes), _port) => Tally::fixed(bytes.len() as u64 + 5),
            PartRef::Inet(_, Address::V6(bytes), _port) => Tally::fixed(bytes.len() as u64 + 5),
            PartRef::Type(tree) => Tally::option(tree),
            PartRef::Cell { tree, value, .. } => Tally::cell(value, tree),
        }
    }

    /// That of a \[uuid\].
    fn uuid(id: [u8; 16]) -> Tally
        ensures is { result ≡ record { counts = true; texts = true; cells = true; size = 16 } }
        ensures range { length id ≡ 16 }
    {
        Tally::fixed(id.len() as u64)
    }

    /// That of a \[string\].
    fn text(text: &str) -> Tally
        ensures is { let size = min (2 + length text.now) (2 ^ 64 - 1) in
            result ≡ record { counts = true; texts = nat_lt (length text.now) (2 ^ 16); cells = true; size = size } }
        ensures range { is_utf8 text.now ≡ true }
    {
        Tally::content(2, text.len(), is_short(text.len()))
    }

    /// That of a \[long string\].
    fn long_text(text: &str) -> Tally
        ensures is { let size = min (4 + length text.now) (2 ^ 64 - 1) in
            result ≡ record { counts = true; texts = nat_lt (length text.now) (2 ^ 31); cells = true; size = size } }
        ensures range { is_utf8 text.now ≡ true }
    {
        Tally::content(4, text.len(), is_int(text.len()))
    }

    /// That of a \[value\].
    fn bound(value: &OwnedBound) -> Tally
        ensures { IsTallyOf result (bound (bound_of value.now)) }
    {
        match value {
            OwnedBound::Bytes(bytes) => Tally::content(4, bytes.len(), is_int(bytes.len())),
            OwnedBound::Null | OwnedBound::Unset => Tally::fixed(4),
        }
    }

    /// That of a type option.
    #[tactic(auto, using(crate::proofs::Ranges::tree_range))]
    fn option(tree: &TypeTree) -> Tally
        ensures { IsTallyOf result (Type_is (tree_of tree.now)) }
    {
        let check = check_type(tree);
        Tally {
            counts: check.counts,
            texts: check.texts,
            cells: true,
            size: type_size(tree),
        }
    }

    /// That of a cell.
    #[inline(always)]
    fn cell(value: &Value, tree: Option<&TypeTree>) -> Tally
        ensures counts { result.counts ≡ true }
        ensures texts { result.texts ≡ true }
        ensures cells { result.cells ≡ fits_type value.now (option_map (λ t. t.now) tree.entry) }
        ensures size { result.size ≡ min (values_size (value_of value.now)) (2 ^ 64 - 1) }
        ensures range { AreInRange (value_of value.now) }
    {
        match fitting_size(value, tree) {
            Some(size) => Tally::fixed(size),
            None => Tally {
                cells: false,
                ..Tally::fixed(value_size(value))
            },
        }
    }

    /// That of a part of this many bytes, in which everything fits.
    #[inline(always)]
    fn fixed(size: u64) -> Tally
        ensures { result ≡ record { counts = true; texts = true; cells = true; size = size } }
    {
        Tally {
            counts: true,
            texts: true,
            cells: true,
            size,
        }
    }

    /// That of a count.
    fn counted(counts: bool, size: u64) -> Tally
        ensures { result ≡ record { counts = counts; texts = true; cells = true; size = size } }
    {
        Tally {
            counts,
            ..Tally::fixed(size)
        }
    }

    /// That of a content after its length.
    fn content(length: u64, content: usize, texts: bool) -> Tally
        ensures { let size = min (length + content) (2 ^ 64 - 1) in
            result ≡ record { counts = true; texts = texts; cells = true; size = size } }
    {
        Tally {
            texts,
            ..Tally::fixed(length.saturating_add(content as u64))
        }
    }
}

/// Whether a \[short\] can count this many.
fn is_short(count: usize) -> bool
    ensures { result ≡ nat_lt count (2 ^ 16) }
{
    count < 1 << 16
}

/// Whether an \[int\] can count this many.
fn is_int(count: usize) -> bool
    ensures { result ≡ nat_lt count (2 ^ 31) }
{
    count < 1 << 31
}

impl TakesParts for Tally {
    ghost use Rattle.cqlp_message.specs.Tallies.{IsTally};

    ghost Before = { Unit {0} };

    ghost taken = { λ _ t parts. IsTally t parts };

    #[inline(always)]
    fn take(&mut self, part: PartRef<'_>) {
        self.add(Tally::of(part));
    }
}
