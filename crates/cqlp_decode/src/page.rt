//! The cells of a page, in their order.

ghost use Rattle.std.specs.Prelude.{◌≡◌, ◌↔◌, ℕ, List, IsTrue, length};
ghost use Rattle.cqlp_note.specs.Head.{value_of};
ghost use Rattle.cqlp_kind.specs.declared.node.Node.{Node};
ghost use Rattle.cqlp_type.specs.Forests.{Forest};
ghost use Rattle.cqlp_kind.specs.Types.{NoMore};
ghost use Rattle.cqlp_type.specs.Table.{beginnings};
ghost use Rattle.cqlp_decode.specs.Reading.{serves_after};
ghost use Rattle.cqlp_decode.specs.Pages.{AreColumns, Begins, FindsColumn, FindsPage, HoldsForest, IsKind, IsPage, IsSomePage, IsSpan, Turns, TurnsTo};
ghost use Rattle.cqlp_decode.specs.Pages.{column_types, given_of, node_by, page_nodes};
ghost use Rattle.cqlp_decode.specs.declared.given.GivenUse.{GivenUse as Use};

use crate::given::GivenUse;
use cqlp_grammar::{Role, has, number};
use cqlp_kind::Kind;
use cqlp_note::{Asked, Prim};
use cqlp_type::TypeTable;
use std::alloc::Allocator;

/// The types of a page's columns.
#[derive(Clone, Copy, Debug, PartialEq, Eq)]
pub enum Columns {
    /// Those of the metadata.
    Typed,
    /// Those of the table that the caller gave.
    Given,
    /// This many columns, whose types are not known.
    Raw(u32),
}

/// A cell of a page, and how many rows there are after its own.
#[derive(Clone, Copy)]
pub struct CellCursor {
    pub columns: Columns,
    pub row: u32,
    pub column: u32,
    /// Where the type of the column is in the table, if that is known.
    pub index: u32,
    pub left: u32,
}

/// The head of a column's type: its kind, and how many nodes of the table the type takes.
#[derive(Clone, Copy)]
pub struct ColumnHead {
    pub kind: Kind,
    pub span: u32,
}

impl Columns {
    fn are_none<A: Allocator>(self, table: &TypeTable<A>) -> bool
        ensures { IsTrue result ↔ (column_types table.now.nodes self ≡ NoMore) }
    {
        match self {
            Columns::Typed | Columns::Given => table.is_empty(),
            Columns::Raw(columns) => columns == 0,
        }
    }
}

impl CellCursor {
    /// The first cell of this many rows, if there is one.
    pub fn first<A: Allocator>(columns: Columns, rows: u32, table: &TypeTable<A>) -> Option<Self>
        ensures { (depth : ℕ) → Forest table.now.nodes 0 depth → Begins table.now.nodes depth columns rows result }
    {
        if rows == 0 || columns.are_none(table) {
            return None;
        }
        Some(CellCursor {
            columns,
            row: 0,
            column: 0,
            index: 0,
            left: rows - 1,
        })
    }

    /// The node of the column's type, if that is known.
    pub fn node(&self) -> Option<u32>
        ensures { result ≡ node_by self.now.columns self.now.index }
    {
        match self.columns {
            Columns::Typed | Columns::Given => Some(self.index),
            Columns::Raw(_) => None,
        }
    }

    /// The kind of the column's type.
    pub fn kind<A: Allocator>(&self, table: &TypeTable<A>) -> Kind
        requires { IsSomePage table.now.nodes self.now }
        ensures { (depth : ℕ) → IsPage table.now.nodes depth self.now → IsKind table.now.nodes self.now result }
    {
        self.head(table).kind
    }

    /// The head of the column's type.
    #[inline(always)]
    pub fn head<A: Allocator>(&self, table: &TypeTable<A>) -> ColumnHead
        requires { IsSomePage table.now.nodes self.now }
        ensures kind { (depth : ℕ) → IsPage table.now.nodes depth self.now → IsKind table.now.nodes self.now result.kind }
        ensures span { IsSpan table.now.nodes self.now.columns self.now.index result.span }
    {
        match self.columns {
            Columns::Typed | Columns::Given => {
                let node = table.node(self.index).unwrap();
                ColumnHead {
                    kind: node.kind,
                    span: node.span,
                }
            }
            Columns::Raw(_) => ColumnHead {
                kind: Kind::Raw,
                span: 0,
            },
        }
    }

    /// The cell after this one, if there is one.
    pub fn next<A: Allocator>(self, table: &TypeTable<A>) -> Option<Self>
        requires { IsSomePage table.now.nodes self }
        ensures { (depth : ℕ) → IsPage table.now.nodes depth self → Turns table.now.nodes depth self result }
    {
        let head = self.head(table);
        let mut following = self;
        if following.advance(head.span, table) {
            return Some(following);
        }
        None
    }

    /// Goes on to the cell after this one, whose column's type takes this many nodes, if there is one.
    #[inline(always)]
    pub fn advance<A: Allocator>(&mut self, span: u32, table: &TypeTable<A>) -> bool
        requires page { IsSomePage table.now.nodes self.old }
        requires span { IsSpan table.now.nodes self.old.columns self.old.index span }
        ensures { (depth : ℕ) → IsPage table.now.nodes depth self.old
            → TurnsTo table.now.nodes depth self.old result self.new }
    {
        if let Some(index) = self.next_column(span, table) {
            self.column += 1;
            self.index = index;
            return true;
        }
        if self.left == 0 {
            return false;
        }
        self.row += 1;
        self.column = 0;
        self.index = 0;
        self.left -= 1;
        true
    }

    /// Where the type of the next column is, if this row has one; that of this one takes so many nodes.
    fn next_column<A: Allocator>(&self, span: u32, table: &TypeTable<A>) -> Option<u32>
        requires page { IsSomePage table.now.nodes self.now }
        requires span { IsSpan table.now.nodes self.now.columns self.now.index span }
        ensures { FindsColumn table.now.nodes self.now result }
    {
        match self.columns {
            Columns::Typed | Columns::Given => {
                let end = table.len();
                let index = self.index + span;
                (index < end).then_some(index)
            }
            Columns::Raw(columns) => (self.column + 1 < columns).then_some(0),
        }
    }
}

/// The table that types the columns of a page: that of the metadata, or the one that was given.
pub fn page_table<'a, A: Allocator>(
    columns: Columns,
    table: &'a TypeTable<A>,
    given: &'a Option<TypeTable<A>>,
) -> &'a TypeTable<A>
    ensures { result.now.nodes ≡ page_nodes columns table.now.nodes given.now }
{
    match (columns, given) {
        (Columns::Given, Some(given)) => given,
        _ => table,
    }
}

/// Whether a given table types the page that begins after a field of this role: it waits, the metadata has no types,
/// and as many types are in it as the page has columns.
pub fn serves<A: Allocator>(role: Role, given: &Option<TypeTable<A>>, given_use: GivenUse) -> bool
    ensures { (depth : ℕ) → HoldsForest depth given.now → result ≡ serves_after role (given_of given_use given.now) }
{
    match (role, given, given_use) {
        (Role::PageRows { flags, columns }, Some(table), GivenUse::Waiting) => {
            has(flags, 0x04) && has_types(table, columns)
        }
        _ => false,
    }
}

/// Whether this many types are side by side in a table.
fn has_types<A: Allocator>(table: &TypeTable<A>, count: u32) -> bool
    ensures { IsTrue result ↔ (length (beginnings 0 0 table.now.nodes) ≡ count) }
{
    table.roots() == count
}

/// The page that begins after a field of this role that has this value, if it has a cell. A given table types it where
/// it was found to serve.
pub fn find_page<A: Allocator>(
    limits: &Asked,
    role: Role,
    value: Prim<'_>,
    table: &TypeTable<A>,
    given: &Option<TypeTable<A>>,
    served: bool,
) -> Option<CellCursor>
    ensures { (u : Use) → served ≡ serves_after role (given_of u given.now)
        → FindsPage table.now.nodes given.now u limits.now.types role (value_of value.entry) result }
{
    let Role::PageRows { flags, columns } = role else {
        return None;
    };
    let columns = columns_of(limits, flags, columns, served);
    CellCursor::first(columns, number(value), page_table(columns, table, given))
}

/// The types of this many columns, whose metadata has these flags.
fn columns_of(limits: &Asked, flags: u32, columns: u32, served: bool) -> Columns
    ensures { AreColumns limits.now.types flags columns served result }
{
    match (limits.types, served, has(flags, 0x04)) {
        (true, true, _) => Columns::Given,
        (true, false, false) => Columns::Typed,
        (true, false, true) => Columns::Raw(columns),
        (false, _, _) => Columns::Raw(columns),
    }
}
