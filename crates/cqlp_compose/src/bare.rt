//! Pages that have no cells yet, and cells of one event.

ghost use Rattle.std.specs.Prelude.{◌≡◌, ◌++◌, ◌≤◌, ◌<◌, ◌+◌, ◌^◌, IfNone, IfSome, drop, length};
ghost use Rattle.cqlp_kind.specs.Contents.{value_of};
ghost use Rattle.cqlp_grammar.specs.Events.{event_of};
ghost use Rattle.cqlp_message.specs.Owned.{frame_of};
ghost use Rattle.cqlp_message.specs.Pages as pages;
ghost use Rattle.cqlp_note.specs.declared.header.TheConstants.Header.{LONGEST_BODY};
ghost use Rattle.cqlp_compose.specs.Bare.{AnswersKinds, AreKindsOf, IsKindAt, IsNoKindAt, IsSizeOf, bare_frame, event_bytes};
ghost use Rattle.cqlp_compose.specs.Single.{HasNoCell, cell_bytes};
ghost use Rattle.cqlp_compose.specs.Begun as model;
ghost use Rattle.cqlp_compose.specs.Begun.{BeginsBare, IsBare};
ghost use Rattle.cqlp_compose.specs.Composing.{composed};

use crate::column::described;
use crate::composer::Composer;
use crate::error::{BeginError, KindsError};
use crate::kinds::{kind_in, kinds_of};
use crate::page::{BegunPage, bare_page, begun, said_len};
use crate::put::is_at;
use crate::scalar::{Content, scalar_content};
use crate::single::{WholeCell, scalar_cell};
use cqlp_grammar::Event;
use cqlp_kind::{Kind, Scalar};
use cqlp_message::Frame;
use cqlp_note::Header;
use std::alloc::Global;

/// A page with its header, its metadata and the count of its rows, and without cells. Section 4.2.5.2 of `native_protocol_v4.spec`.
///
/// [`OpenPage::begin`](crate::OpenPage::begin) makes one and begins it at once. A caller that has all cells at hand looks at them in between: of
/// which kind each is to be, and how many bytes they have in all.
#[derive(Drop)]
pub struct BarePage {
    frame: Frame,
}

impl BarePage {
    /// The page of as many rows whose other events came to a composer.
    ///
    /// # Errors
    ///
    /// [`BeginError::Build`] and [`BeginError::NoPage`], as [`OpenPage::begin`](crate::OpenPage::begin) has them.
    pub fn new(composer: Composer, rows: u32) -> Result<BarePage, BeginError>
        ensures { IsBare (composed composer) rows (bare_frame result) }
    {
        match bare_page(composer, rows) {
            Ok(frame) => Ok(BarePage { frame }),
            Err(why) => Err(why),
        }
    }

    /// Begins the page, whose cells are to have `cells_len` bytes.
    ///
    /// # Errors
    ///
    /// [`BeginError::Unfit`] with what [`Frame::page_unfit`] says of a page of as many rows and bytes. Memory may be refused.
    pub fn begin(self, alloc: Global, cells_len: u64) -> Result<BegunPage, BeginError>
        ensures { BeginsBare (frame_of self.frame) (model.said_len cells_len) result }
    {
        let BarePage { frame } = self;
        begun(alloc, frame, said_len(cells_len))
    }

    /// How many cells it is to have.
    #[must_use]
    pub fn cells_wanted(&self) -> u64
        ensures { result ≡ pages.cells_wanted (frame_of self.now.frame).message }
    {
        self.frame.cells_wanted()
    }

    /// The kinds of the columns that it describes, in their order, for [`BarePage::kind_at`]: a byte for each.
    ///
    /// # Errors
    ///
    /// [`KindsError::Nested`] where values of a column have items. [`KindsError::NoMemory`] where memory was refused.
    pub fn kinds(&self, alloc: Global) -> Result<Vec<Kind>, KindsError>
        ensures { AnswersKinds self.now.frame result }
    {
        kinds_of(alloc, described(&self.frame))
    }

    /// The kind of the cell before which `cells` others come, if this is its row and its column, where `kinds` are those of its columns; else None.
    #[must_use]
    #[inline(always)]
    pub fn kind_at(&self, kinds: &[Kind], cells: u64, row: u32, column: u32) -> Option<Kind>
        ensures some { AreKindsOf self.now.frame kinds.now → IfSome result (λ kind. IsKindAt self.now.frame cells row column kind) }
        ensures none { IfNone result (IsNoKindAt self.now.frame cells row column) }
    {
        if cells >= self.frame.cells_wanted() {
            return None;
        }
        if !is_at(cells, self.frame.columns(), row, column) {
            return None;
        }
        Some(kind_in(kinds, column as usize))
    }
}

/// How many bytes the cell of this kind has that holds this scalar: 5 to 268,435,460. None where the scalar is of another kind, is no value of it,
/// or is longer than a body.
#[must_use]
#[inline(always)]
pub fn scalar_size(scalar: &Scalar<'_>, kind: Kind) -> Option<u64>
    ensures some { IfSome result (λ size. IsSizeOf kind (value_of scalar.now) size) }
    ensures none { IfNone result (HasNoCell LONGEST_BODY kind (value_of scalar.now)) }
{
    match scalar_cell(scalar, kind, Header::LONGEST_BODY) {
        Some(cell) => Some(cell.size() as u64),
        None => None,
    }
}

/// Puts the cell that has this one event, a leaf, a null or an empty value, at the front of a room, and answers how many bytes it has. It puts nothing of
/// another event.
#[inline(always)]
pub fn put_event(event: &Event<'_>, room: &mut [u8]) -> usize
    requires short { length (event_bytes (event_of event.now)) < 2 ^ 32 + 4 }
    requires room { length (event_bytes (event_of event.now)) ≤ length room.old }
    ensures len { result ≡ length (event_bytes (event_of event.now)) }
    ensures put { room.new ≡ event_bytes (event_of event.now) ++ drop result room.old }
{
    match event {
        Event::Leaf { scalar, .. } => put_cell(WholeCell::Of(scalar_content(scalar)), room),
        Event::Null { .. } => put_cell(WholeCell::Null, room),
        Event::Empty { .. } => put_cell(WholeCell::Of(Content::Lent(&[])), room),
        _ => 0,
    }
}

/// The same of a cell.
#[inline(always)]
fn put_cell(cell: WholeCell<'_>, room: &mut [u8]) -> usize
    requires short { length (cell_bytes cell) < 2 ^ 32 + 4 }
    requires room { length (cell_bytes cell) ≤ length room.old }
    ensures len { result ≡ length (cell_bytes cell.entry) }
    ensures put { room.new ≡ cell_bytes cell.entry ++ drop result room.old }
{
    let size = cell.size();
    cell.put(room);
    size
}
