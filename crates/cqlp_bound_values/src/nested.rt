//! The items of a value, and whether its content conforms to its type option.

ghost use Rattle.std.specs.Prelude.{◌≡◌, ◌<◌, true};
ghost use Rattle.cqlp_kind.specs.Contents.{value_in};
ghost use Rattle.cqlp_kind.specs.Types.{has_no_items};
ghost use Rattle.cqlp_bound_values.specs.Bindings.{found_of};
ghost use Rattle.cqlp_bound_values.specs.Columns.{behind_option};
ghost use Rattle.cqlp_bound_values.specs.Nested.{all_conform, conforms, fields_of, has_fields, have_ended, inner_at, is_nested, is_read};
ghost use Rattle.cqlp_bound_values.specs.Nested.{is_udt, item_conforms, items_as, items_of, kind_conforms, next_option, other_items, scalar_conforms};

use crate::column_types::{DEEPEST, behind_option, behind_tables, field_option, kind_at};
use crate::field::{behind, int_at, is_end, short_at};
use crate::item::{Item, behind_item};
use cqlp_kind::{Kind, Scalar, scalar};
use cqlp_note::Reason;

/// The items of a content, one after the other.
#[derive(Clone, Copy)]
pub(crate) struct Items<'a> {
    /// That of the value around them.
    pub kind: Kind,
    /// How many there are to be.
    pub left: u64,
    /// The type option of the first one.
    pub option: &'a [u8],
    /// That of the second one, but in a tuple and a user-defined type.
    other: &'a [u8],
    pub bytes: &'a [u8],
}

impl<'a> Items<'a> {
    /// Those of a content of this kind, by what comes behind the id of its type option. Section 6 of `native_protocol_v4.spec`.
    pub(crate) fn of(depth: u32, kind: Kind, inner: &'a [u8], content: &'a [u8]) -> Items<'a>
        ensures { items_as result ≡ items_of (behind_option depth) kind inner.now content.now }
    {
        match kind {
            Kind::Map => Items {
                kind,
                left: 2 * u64::from(int_at(content)),
                option: inner,
                other: behind_option(depth, inner),
                bytes: behind(4, content),
            },
            Kind::Udt => Items::fields(kind, behind_tables(inner), content),
            Kind::Tuple => Items::fields(kind, inner, content),
            _ => Items {
                kind,
                left: u64::from(int_at(content)),
                option: inner,
                other: inner,
                bytes: behind(4, content),
            },
        }
    }

    fn fields(kind: Kind, fields: &'a [u8], content: &'a [u8]) -> Items<'a>
        ensures { items_as result ≡ fields_of kind fields.now content.now }
    {
        Items {
            kind,
            left: u64::from(short_at(fields)),
            option: field_option(is_udt(kind), behind(2, fields)),
            other: behind(fields.len(), fields),
            bytes: content,
        }
    }

    /// The first one.
    pub(crate) fn first(&self) -> Item<'a>
        ensures { found_of result ≡ inner_at self.now.bytes.now }
    {
        Item::inner_at(self.bytes)
    }

    /// The others.
    pub(crate) fn others(&self, depth: u32) -> Items<'a>
        requires some { 0 < self.now.left }
        ensures { items_as result ≡ other_items (behind_option depth) (items_as self.now) }
    {
        Items {
            kind: self.kind,
            left: self.left - 1,
            option: self.next_option(depth),
            other: self.option,
            bytes: behind_item(self.bytes),
        }
    }

    /// Whether there are no more, though no count says so.
    fn have_ended(&self) -> bool
        ensures { result ≡ have_ended (items_as self.now) }
    {
        has_fields(self.kind) && is_end(self.bytes)
    }

    fn next_option(&self, depth: u32) -> &'a [u8]
        ensures { result.now ≡ next_option (behind_option depth) (items_as self.now) }
    {
        if has_fields(self.kind) {
            field_option(is_udt(self.kind), behind_option(depth, self.option))
        } else {
            self.other
        }
    }
}

/// Whether a value of this kind ends where there are no more bytes, and not by a count.
fn has_fields(kind: Kind) -> bool
    ensures { result ≡ has_fields kind }
{
    matches!(kind, Kind::Udt | Kind::Tuple)
}

fn is_udt(kind: Kind) -> bool
    ensures { result ≡ is_udt kind }
{
    matches!(kind, Kind::Udt)
}

/// Whether a content has items, and conforms to its type option.
pub(crate) fn is_nested(option: &[u8], content: &[u8]) -> bool
    ensures { result ≡ is_nested option.now content.now }
{
    !kind_at(option).is_scalar() && conforms(DEEPEST, option, content)
}

/// Whether a content conforms to a type option in which so many are nested at most, itself counted.
#[cycle(conforms)]
fn conforms(depth: u32, option: &[u8], content: &[u8]) -> bool
    ensures { result ≡ conforms depth option.now content.now }
{
    if depth == 0 {
        return false;
    }
    kind_conforms(depth - 1, kind_at(option), behind(2, option), content)
}

#[cycle(conforms)]
fn kind_conforms(depth: u32, kind: Kind, inner: &[u8], content: &[u8]) -> bool
    ensures { result ≡ kind_conforms (conforms depth) (behind_option depth) kind inner.now content.now }
{
    if kind.is_scalar() {
        return scalar_conforms(kind, content);
    }
    if !has_fields(kind) && content.len() < 4 {
        return false;
    }
    items_conform(depth, &Items::of(depth, kind, inner, content))
}

/// Whether each item is there and conforms, and no byte is behind the last one.
#[cycle(conforms)]
fn items_conform(depth: u32, items: &Items<'_>) -> bool
    ensures { result ≡ all_conform (conforms depth) (behind_option depth) (items_as items.now) }
{
    let mut rest = *items;
    while rest.left > 0 {
        if rest.have_ended() {
            return true;
        }
        if !item_conforms(depth, rest.option, &rest.first()) {
            return false;
        }
        rest = rest.others(depth);
    }
    is_end(rest.bytes)
}

#[cycle(conforms)]
fn item_conforms(depth: u32, option: &[u8], item: &Item<'_>) -> bool
    ensures { result ≡ item_conforms (conforms depth) option.now (found_of item.now) }
{
    match *item {
        Item::Missing => false,
        Item::Null | Item::Unset => true,
        Item::Content {
            bytes: [],
            is_whole: true,
        } => true,
        Item::Content {
            bytes,
            is_whole: true,
        } => conforms(depth, option, bytes),
        Item::Content {
            bytes: _,
            is_whole: false,
        } => false,
    }
}

fn scalar_conforms(kind: Kind, bytes: &[u8]) -> bool
    requires scalar { has_no_items kind ≡ true }
    ensures { result ≡ scalar_conforms kind bytes.now }
{
    match kind {
        Kind::Raw => false,
        _ => is_read(scalar(kind, bytes)),
    }
}

fn is_read(read: Result<Scalar<'_>, Reason>) -> bool
    ensures { result ≡ is_read (value_in read.entry) }
{
    match read {
        Ok(_) => true,
        Err(_) => false,
    }
}
