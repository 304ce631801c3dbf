//! Where the reading of a stream is, and one step of it.

ghost use Rattle.std.specs.Prelude.{◌≡◌, ◌↔◌, ◌+◌, ◌-◌, ◌<◌, ◌≤◌, ◌^◌, ◌++◌};
ghost use Rattle.std.specs.Prelude.{[], IsFalse, IsTrue, None, Some, false, length, take, true};
ghost use Rattle.cqlp_note.specs.Limits.{limit_of, rules_asked};
ghost use Rattle.cqlp_note.specs.declared.refusal.Refusal.{Refusal as Refusing};
ghost use Rattle.cqlp_decode.specs.Progress.{came_of};
ghost use Rattle.cqlp_decode.specs.declared.page.CellCursor.{CellCursor as Cursor};

use crate::advance::{EventAdvance, EventOutline, ScalarCell};
use crate::given::GivenUse;
use crate::metadata::begin_metadata;
use crate::page::{CellCursor, find_page, page_table, serves};
use crate::parts::Parts;
use cqlp_cell::{CellAdvance, CellOutline, CellReader, front_scalar};
use cqlp_grammar::{Expected, Finish, Role, Upcoming, Want, fault_in};
use cqlp_kind::Scalar;
use cqlp_note::{
    self as note, Asked, Field, FieldOutline, Header, Notation, Partial, Prim, Reason, Refusal,
};
use cqlp_type::{TypeAdvance, TypeOutline, TypeReader, TypeTable};
use std::alloc::Allocator;

/// What is read now.
#[derive(Clone, Copy)]
pub enum StreamStage {
    Header,
    Field(Want),
    /// A type option that is not begun.
    BeforeType,
    /// A type option that is under way.
    InType,
    /// A cell that is not begun.
    BeforeCell(CellCursor),
    /// A cell that is under way.
    InCell(CellCursor),
    /// What is after the last field.
    Extra,
}

/// Where the reading of a stream is, but for the field, type option or cell that is under way.
#[derive(Drop)]
pub struct StreamProgress {
    pub limits: Asked,
    /// The start of the frame under way.
    pub frame: u64,
    /// The first byte of what is read now.
    pub offset: u64,
    /// The end of the frame under way.
    pub stop: u64,
    pub stage: StreamStage,
    pub upcoming: Upcoming,
    pub header: [u8; 9],
    /// How many bytes of the header, or after the last field, have come.
    pub came: u64,
    pub refusal: Option<Refusal>,
    /// What the table that the caller gave is for.
    pub given_use: GivenUse,
}

impl StreamProgress {
    ghost use Rattle.std.specs.Prelude.{max};
    ghost use Rattle.cqlp_note.specs.Head.{value_of};
    ghost use Rattle.cqlp_type.specs.Progress.{started};
    ghost use Rattle.cqlp_cell.specs.Progress.{ended, is_under_way};
    ghost use Rattle.cqlp_cell.specs.Progress as value;
    ghost use Rattle.cqlp_grammar.specs.Productions.{Extra, following, message};
    ghost use Rattle.cqlp_decode.specs.Reading.{given_after};
    ghost use Rattle.cqlp_decode.specs.Streams.{EndsAs, IsUnrefused};
    ghost use Rattle.cqlp_grammar.specs.Upcoming.{room_after};
    ghost use Rattle.cqlp_decode.specs.declared.progress.StreamStage.TheVariants as stage;
    ghost use Rattle.cqlp_decode.specs.Progress.{Advances, EndsPage, GoesOn, GoesOnAfter, HasCome, LeavesTypes, Moves, MovesIdle, Takes};
    ghost use Rattle.cqlp_decode.specs.Progress.{HasParts, HasRoom, HoldsGiven, IsConsistent, IsFresh, IsLawful, IsNoCellDue, IsNoPage, PartsState};
    ghost use Rattle.cqlp_decode.specs.Progress.{IsAsked, IsAt, IsBounded, IsWanted, asked};
    ghost use Rattle.cqlp_decode.specs.Progress.{first_state, refusal_in, rest_of, state_of, state_with, symbols_at};
    ghost use Rattle.cqlp_decode.specs.Pages.{IsPage, cells_after, ended_use, given_of, node_by};
    ghost use Rattle.cqlp_type.specs.Forests.{Forest};
    ghost use Rattle.cqlp_cell.specs.Pushing.{begun};

    /// At the start of a stream.
    pub fn new(limits: Asked) -> Self
        ensures limits { result.limits ≡ limits }
        ensures unrefused { result.refusal ≡ None }
        ensures lawful { (q : PartsState) → IsFresh q → HasParts result q → IsConsistent result q }
        ensures start { (q : PartsState) → IsFresh q → state_of result q ≡ first_state limits q }
    {
        StreamProgress {
            limits,
            frame: 0,
            offset: 0,
            stop: 0,
            stage: StreamStage::Header,
            upcoming: Upcoming::new(),
            header: [0; 9],
            came: 0,
            refusal: None,
            given_use: GivenUse::Waiting,
        }
    }

    /// Takes the next step, as far as the input goes.
    pub fn advance<A: Allocator>(&mut self, parts: &mut Parts<A>, input: &[u8]) -> EventAdvance
        requires { IsLawful self.old parts.old }
        ensures lawful { IsLawful self.new parts.new }
        ensures advances { Advances (state_with self.old parts.old) input.now result (state_with self.new parts.new) }
        ensures table { LeavesTypes result parts.old.table.nodes parts.new.table.nodes }
    {
        if let Some(refusal) = self.refusal {
            return EventAdvance::Refused(refusal);
        }
        let advance = self.step(parts, input);
        if let EventAdvance::Refused(refusal) = advance {
            self.refusal = Some(refusal);
            self.given_use = self.given_use.ended();
        }
        advance
    }

    /// How the stream ends, if it ends here.
    pub fn finish<A: Allocator>(&self, parts: &Parts<A>) -> Finish
        requires { IsLawful self.now parts.now }
        ensures refused { (r : Refusing) → self.now.refusal ≡ Some r → result ≡ Finish.Refused r }
        ensures unrefused { self.now.refusal ≡ None → IsUnrefused result }
        ensures ends { EndsAs (state_with self.now parts.now) result }
    {
        if let Some(refusal) = self.refusal {
            return Finish::Refused(refusal);
        }
        if self.is_between() {
            return Finish::Whole { bytes: self.offset };
        }
        Finish::Cut {
            frame_at: self.frame,
            bytes: self.bytes_used(parts),
        }
    }

    /// How many bytes of the stream have come.
    fn bytes_used<A: Allocator>(&self, parts: &Parts<A>) -> u64
        requires { IsLawful self.now parts.now }
        ensures { HasCome (state_with self.now parts.now) result }
    {
        match self.stage {
            StreamStage::Header | StreamStage::Extra => self.offset + self.came,
            StreamStage::BeforeType | StreamStage::BeforeCell(_) => self.offset,
            StreamStage::Field(_) => self.offset + count_field_bytes(&parts.partial),
            StreamStage::InType => parts.types.offset() + count_field_bytes(&parts.partial),
            StreamStage::InCell(_) => parts.cells.bytes_used(&parts.partial),
        }
    }

    /// Whether the last frame has ended, and nothing of the next has come.
    fn is_between(&self) -> bool
        ensures { IsTrue result ↔ ((self.now.stage ≡ stage.Header) × (self.now.came ≡ 0)) }
    {
        matches!(self.stage, StreamStage::Header) && self.came == 0
    }

    /// Whether a cell is due or under way.
    #[inline]
    pub fn is_in_page(&self) -> bool
        ensures { IsFalse result ↔ IsNoPage self.now.stage }
    {
        matches!(
            self.stage,
            StreamStage::BeforeCell(_) | StreamStage::InCell(_)
        )
    }

    /// Whether a cell is due that is not begun.
    #[inline(always)]
    pub fn is_cell_due(&self) -> bool
        ensures { IsFalse result ↔ IsNoCellDue self.now.stage }
    {
        matches!(self.stage, StreamStage::BeforeCell(_))
    }

    /// The cell that is due and not begun, if there is one.
    #[inline(always)]
    pub fn due_cell(&self) -> Option<CellCursor>
        ensures { (p : Cursor) → result ≡ Some p → self.now.stage ≡ stage.BeforeCell p }
    {
        match self.stage {
            StreamStage::BeforeCell(page) => Some(page),
            _ => None,
        }
    }

    /// Whether the cell under way is of the row and the column of this one.
    #[inline(always)]
    pub fn is_in(&self, cell: Option<CellCursor>) -> bool {
        match (cell, self.stage) {
            (Some(cell), StreamStage::InCell(page)) => {
                cell.row == page.row && cell.column == page.column
            }
            _ => false,
        }
    }

    /// The next step, where there was no refusal.
    fn step<A: Allocator>(&mut self, parts: &mut Parts<A>, input: &[u8]) -> EventAdvance
        requires lawful { IsLawful self.old parts.old }
        requires unrefused { self.old.refusal ≡ None }
        ensures lawful { IsLawful self.new parts.new }
        ensures moves { Moves (state_with self.old parts.old) input.now result (state_with self.new parts.new) }
        ensures limits { self.new.limits ≡ self.old.limits }
        ensures refusal { refusal_in result ≡ None → self.new.refusal ≡ None }
        ensures table { LeavesTypes result parts.old.table.nodes parts.new.table.nodes }
        ensures given { parts.new.given ≡ parts.old.given }
        ensures page { EndsPage result self.old self.new }
    {
        match self.stage {
            StreamStage::Header => self.advance_header(input),
            StreamStage::Field(want) => self.advance_field(parts, want, input),
            StreamStage::BeforeType => {
                self.begin_option(&mut parts.types);
                self.advance_option(parts, input)
            }
            StreamStage::InType => self.advance_option(parts, input),
            StreamStage::BeforeCell(page) => {
                self.begin_cell(page, &mut parts.cells);
                self.advance_cell(parts, page, input)
            }
            StreamStage::InCell(page) => self.advance_cell(parts, page, input),
            StreamStage::Extra => self.advance_extra(input),
        }
    }

    fn advance_header(&mut self, input: &[u8]) -> EventAdvance
        requires bounded { IsBounded self.old }
        requires here { self.old.stage ≡ stage.Header }
        requires came { self.old.came < 9 }
        requires unrefused { self.old.refusal ≡ None }
        ensures lawful { (q : PartsState) → IsConsistent self.old q → IsConsistent self.new q }
        ensures moves { MovesIdle self.old input.now result self.new }
        ensures rest { (self.new.refusal ≡ None) × (self.new.limits ≡ self.old.limits) }
        ensures page { EndsPage result self.old self.new }
    {
        if self.offset > 1 << 63 {
            return EventAdvance::Refused(Refusal {
                at: self.offset,
                why: Reason::StreamTooLong,
            });
        }
        let missing = 9 - self.came as usize;
        if input.len() < missing {
            self.keep_header(input);
            return EventAdvance::More { used: input.len() };
        }
        match Header::read(&self.complete_header(input), self.offset) {
            Err(refusal) => EventAdvance::Refused(refusal),
            Ok(header) => {
                let at = self.offset;
                self.enter(&header);
                EventAdvance::Event {
                    at,
                    used: missing,
                    what: EventOutline::Frame(header),
                }
            }
        }
    }

    /// Keeps bytes of a header of which more is to come.
    fn keep_header(&mut self, input: &[u8])
        requires came { self.old.came + length input.now < 9 }
        requires long { length self.old.header ≡ 9 }
        ensures header { take self.new.came self.new.header ≡ take self.old.came self.old.header ++ input.now }
        ensures came { self.new.came ≡ self.old.came + length input.now }
        ensures rest { self.new ≡ record self.old { header = self.new.header; came = self.new.came } }
        ensures long { length self.new.header ≡ 9 }
    {
        let came = self.came as usize;
        self.header[came..came + input.len()].copy_from_slice(input);
        self.came += input.len() as u64;
    }

    /// The nine bytes of a header, of which the input has the last.
    fn complete_header(&self, input: &[u8]) -> [u8; 9]
        requires came { self.now.came ≤ 9 }
        requires rest { 9 ≤ self.now.came + length input.now }
        requires long { length self.now.header ≡ 9 }
        ensures { result ≡ take self.now.came self.now.header ++ take (9 - self.now.came) input.now }
    {
        let came = self.came as usize;
        let mut header = self.header;
        header[came..].copy_from_slice(&input[..9 - came]);
        header
    }

    /// Goes on after a header.
    pub fn enter(&mut self, header: &Header)
        requires bounded { IsBounded self.old }
        requires here { self.old.stage ≡ stage.Header }
        requires early { self.old.offset ≤ 2 ^ 63 }
        requires length { header.now.length ≤ Header.LONGEST_BODY }
        requires unrefused { self.old.refusal ≡ None }
        ensures bounded { IsBounded self.new }
        ensures offset { self.new.offset ≡ self.old.offset + 9 }
        ensures stop { self.new.stop ≡ self.old.offset + 9 + header.now.length }
        ensures symbols { (q : PartsState) → symbols_at self.new.stage q self.new.upcoming ≡ message header.now }
        ensures room { HasRoom self.new.stage self.new.upcoming }
        ensures frame { (self.new.frame ≡ self.old.frame) × (self.new.came ≡ 0) }
        ensures rest { (self.new.refusal ≡ None) × (self.new.limits ≡ self.old.limits) }
        ensures given_use { self.new.given_use ≡ self.old.given_use }
    {
        self.offset += 9;
        self.stop = self.offset + u64::from(header.length);
        self.came = 0;
        self.upcoming.begin(header);
        self.expect_next();
    }

    /// Goes on to what is due next in the message.
    #[inline(always)]
    pub fn expect_next(&mut self)
        ensures symbols { (q : PartsState) → symbols_at self.new.stage q self.new.upcoming ≡ rest_of self.old.upcoming }
        ensures room { HasRoom self.new.stage self.new.upcoming }
        ensures rest { self.new ≡ record self.old { stage = self.new.stage; upcoming = self.new.upcoming } }
    {
        match self.upcoming.due() {
            Some(Expected::Field(want)) => self.stage = StreamStage::Field(*want),
            Some(Expected::Option) => self.stage = StreamStage::BeforeType,
            None => self.stage = StreamStage::Extra,
        }
        self.upcoming.pass();
    }

    fn advance_field<A: Allocator>(
        &mut self,
        parts: &mut Parts<A>,
        want: Want,
        input: &[u8],
    ) -> EventAdvance
        requires bounded { IsBounded self.old }
        requires here { self.old.stage ≡ stage.Field want }
        requires wanted { IsWanted self.old parts.old.partial want }
        requires room { parts.old.partial.room ≡ max self.old.limits.text self.old.limits.cell }
        requires forest { Forest parts.old.table.nodes 0 self.old.limits.depth }
        requires given { HoldsGiven self.old.limits parts.old.given }
        requires unrefused { self.old.refusal ≡ None }
        ensures lawful { IsLawful self.old parts.old → IsLawful self.new parts.new }
        ensures moves { Moves (state_with self.old parts.old) input.now result (state_with self.new parts.new) }
        ensures rest { (self.new.refusal ≡ None) × (self.new.limits ≡ self.old.limits) }
        ensures table { LeavesTypes result parts.old.table.nodes parts.new.table.nodes }
        ensures given { parts.new.given ≡ parts.old.given }
        ensures page { EndsPage result self.old self.new }
    {
        self.ask(&mut parts.partial, want);
        let came = parts.partial.came();
        match parts.partial.advance(input) {
            note::FieldAdvance::More { used } => EventAdvance::More { used },
            note::FieldAdvance::Refused(refusal) => EventAdvance::Refused(refusal),
            note::FieldAdvance::Got { used, item } => {
                let value = parts.partial.lend(input, item);
                if let Some(why) = fault_in(want.role, value) {
                    return EventAdvance::Refused(Refusal {
                        at: self.offset,
                        why,
                    });
                }
                let at = self.offset;
                self.offset += came + used as u64;
                begin_metadata(want.role, &mut parts.table);
                self.follow(want.role, value, &parts.table, &parts.given);
                EventAdvance::Event {
                    at,
                    used,
                    what: EventOutline::Holds(want.field, item),
                }
            }
        }
    }

    /// Sees that the field has begun.
    pub fn ask<A: Allocator>(&self, partial: &mut Partial<A>, want: Want)
        requires inside { self.now.offset ≤ self.now.stop }
        requires room { partial.old.room ≡ max self.now.limits.text self.now.limits.cell }
        requires field { partial.old.under_way ≡ true → partial.old.field ≡ asked self.now want }
        ensures { IsAsked self.now partial.old partial.new want }
    {
        if !partial.is_under_way() {
            let limit = limit_on(&self.limits, want.notation);
            partial.begin(want.notation, limit, self.offset, self.stop);
        }
    }

    /// Goes on after a field: with the cells of a page, which a given table may type, or with what is due next in the
    /// message.
    #[inline(always)]
    pub fn follow<A: Allocator>(
        &mut self,
        role: Role,
        value: Prim<'_>,
        table: &TypeTable<A>,
        given: &Option<TypeTable<A>>,
    )
        requires room { length self.old.upcoming + room_after role ≤ 16 }
        requires forest { Forest table.now.nodes 0 self.old.limits.depth }
        requires given { HoldsGiven self.old.limits given.now }
        ensures goes_on { GoesOnAfter self.old self.new table.now.nodes given.now role (value_of value.entry) }
        ensures rest { self.new ≡ record self.old {
          stage = self.new.stage;
          upcoming = self.new.upcoming;
          given_use = self.new.given_use;
        } }
        ensures given { given_of self.new.given_use given.now
            ≡ given_after role (given_of self.old.given_use given.now) }
    {
        let served = serves(role, given, self.given_use);
        self.given_use = self.given_use.with_page(served);
        if let Some(page) = find_page(&self.limits, role, value, table, given, served) {
            self.stage = StreamStage::BeforeCell(page);
            return;
        }
        self.upcoming.follow(role, value);
        self.expect_next();
    }

    /// Takes the cell that is due, where it is a scalar and all its bytes lie in the input.
    #[inline]
    pub fn take_scalar<'a, A: Allocator>(
        &mut self,
        parts: &Parts<A>,
        input: &'a [u8],
    ) -> Option<ScalarCell<'a>>
        requires lawful { IsLawful self.old parts.now }
        ensures lawful { IsLawful self.new parts.now }
        ensures takes { Takes (state_with self.old parts.now) input.now result (state_with self.new parts.now) }
    {
        let StreamStage::BeforeCell(page) = self.stage else {
            return None;
        };
        if parts.partial.held() > 0 {
            return None;
        }
        if let Some(_) = self.refusal {
            return None;
        }
        let table = page_table(page.columns, &parts.table, &parts.given);
        let kind = page.kind(table);
        let room = self.stop - self.offset;
        let Some(front) = front_scalar(&self.limits, kind, room, input) else {
            return None;
        };
        let taken = ScalarCell {
            at: self.offset,
            used: front.used,
            row: page.row,
            column: page.column,
            scalar: front.scalar,
        };
        self.offset += front.used as u64;
        self.after_cell(page, table);
        Some(taken)
    }

    /// Goes on after a cell: with the next cell of its page, or with what is due next in the message.
    #[inline(always)]
    pub fn after_cell<A: Allocator>(&mut self, page: CellCursor, table: &TypeTable<A>)
        requires page { IsPage table.now.nodes self.old.limits.depth page }
        ensures goes_on { GoesOn self.old self.new page table.now.nodes (cells_after table.now.nodes page) }
        ensures rest { self.new ≡ record self.old { stage = self.new.stage; upcoming = self.new.upcoming } }
    {
        match page.next(table) {
            Some(page) => self.stage = StreamStage::BeforeCell(page),
            None => self.expect_next(),
        }
    }

    /// Begins the cell of a page that is due.
    #[inline(always)]
    pub fn begin_cell<A: Allocator>(&mut self, page: CellCursor, cells: &mut CellReader<A>)
        requires idle { is_under_way cells.old ≡ false }
        requires inside { self.old.offset ≤ self.old.stop }
        ensures stage { self.new ≡ record self.old { stage = stage.InCell page } }
        ensures cells { cells.new ≡ begun cells.old (node_by page.columns page.index) self.old.offset self.old.stop }
    {
        cells.begin(page.node(), self.offset, self.stop);
        self.stage = StreamStage::InCell(page);
    }

    /// Begins the type option that is due.
    fn begin_option<A: Allocator>(&mut self, types: &mut TypeReader<A>)
        requires here { self.old.stage ≡ stage.BeforeType }
        requires idle { types.old.under_way ≡ false }
        requires inside { self.old.offset ≤ self.old.stop }
        ensures stage { self.new ≡ record self.old { stage = stage.InType } }
        ensures types { types.new ≡ started types.old self.old.offset self.old.stop }
    {
        types.begin(self.offset, self.stop);
        self.stage = StreamStage::InType;
    }

    fn advance_option<A: Allocator>(&mut self, parts: &mut Parts<A>, input: &[u8]) -> EventAdvance
        requires lawful { IsLawful self.old parts.old }
        requires here { self.old.stage ≡ stage.InType }
        requires unrefused { self.old.refusal ≡ None }
        ensures lawful { IsLawful self.new parts.new }
        ensures moves { Moves (state_with self.old parts.old) input.now result (state_with self.new parts.new) }
        ensures limits { self.new.limits ≡ self.old.limits }
        ensures refusal { refusal_in result ≡ None → self.new.refusal ≡ None }
        ensures table { LeavesTypes result parts.old.table.nodes parts.new.table.nodes }
        ensures given { parts.new.given ≡ parts.old.given }
        ensures page { EndsPage result self.old self.new }
    {
        match parts
            .types
            .advance(&mut parts.partial, &mut parts.table, input)
        {
            TypeAdvance::More { used } => EventAdvance::More { used },
            TypeAdvance::Refused(refusal) => {
                self.stage = StreamStage::Extra;
                self.refusal = Some(refusal);
                EventAdvance::Refused(refusal)
            }
            TypeAdvance::Done => unreachable!(),
            TypeAdvance::Item { at, used, item } => {
                let event = EventAdvance::Event {
                    at,
                    used,
                    what: EventOutline::Option(item),
                };
                let offset = parts.types.offset();
                if !parts.types.done() {
                    return event;
                }
                parts.types.stop();
                self.end_option(offset);
                event
            }
        }
    }

    /// Goes on after a type option that ends at an offset.
    fn end_option(&mut self, offset: u64)
        ensures symbols { (q : PartsState) → symbols_at self.new.stage q self.new.upcoming ≡ rest_of self.old.upcoming }
        ensures room { HasRoom self.new.stage self.new.upcoming }
        ensures rest { IsAt self.new offset self.old }
    {
        self.offset = offset;
        self.expect_next();
    }

    fn advance_cell<A: Allocator>(
        &mut self,
        parts: &mut Parts<A>,
        page: CellCursor,
        input: &[u8],
    ) -> EventAdvance
        requires lawful { IsLawful self.old parts.old }
        requires here { self.old.stage ≡ stage.InCell page }
        requires unrefused { self.old.refusal ≡ None }
        ensures lawful { IsLawful self.new parts.new }
        ensures moves { Moves (state_with self.old parts.old) input.now result (state_with self.new parts.new) }
        ensures table { (parts.new.table ≡ parts.old.table) × (parts.new.given ≡ parts.old.given) }
        ensures rest { (self.new.refusal ≡ None) × (self.new.limits ≡ self.old.limits) }
        ensures page { EndsPage result self.old self.new }
    {
        let table = page_table(page.columns, &parts.table, &parts.given);
        match parts.cells.advance(&mut parts.partial, table, input) {
            CellAdvance::More { used } => EventAdvance::More { used },
            CellAdvance::Refused(refusal) => {
                self.stage = StreamStage::Extra;
                EventAdvance::Refused(refusal)
            }
            CellAdvance::Done => unreachable!(),
            CellAdvance::Item { at, used, item } => {
                let event = EventAdvance::Event {
                    at,
                    used,
                    what: EventOutline::Cell(page.row, page.column, item),
                };
                if !parts.cells.done() {
                    return event;
                }
                self.end_cell(page, &mut parts.cells, table);
                event
            }
        }
    }

    /// Goes on after a cell that is whole.
    #[inline(always)]
    pub fn end_cell<A: Allocator>(
        &mut self,
        page: CellCursor,
        cells: &mut CellReader<A>,
        table: &TypeTable<A>,
    )
        requires page { IsPage table.now.nodes self.old.limits.depth page }
        ensures goes_on { GoesOn self.old self.new page table.now.nodes (cells_after table.now.nodes page) }
        ensures rest { IsAt self.new cells.old.offset self.old }
        ensures cells { cells.new ≡ ended cells.old }
    {
        self.offset = cells.offset();
        cells.stop();
        self.after_cell(page, table);
    }

    fn advance_extra(&mut self, input: &[u8]) -> EventAdvance
        requires bounded { IsBounded self.old }
        requires here { self.old.stage ≡ stage.Extra }
        requires came { self.old.came ≤ self.old.stop - self.old.offset }
        requires unrefused { self.old.refusal ≡ None }
        ensures lawful { (q : PartsState) → IsConsistent self.old q → IsConsistent self.new q }
        ensures moves { MovesIdle self.old input.now result self.new }
        ensures rest { (self.new.refusal ≡ None) × (self.new.limits ≡ self.old.limits) }
        ensures page { EndsPage result self.old self.new }
    {
        let extra = self.stop - self.offset;
        let used = (extra - self.came).min(input.len() as u64);
        if self.came + used < extra {
            self.came += used;
            return EventAdvance::More {
                used: used as usize,
            };
        }
        let at = self.stop;
        self.end_frame();
        EventAdvance::Event {
            at,
            used: used as usize,
            what: EventOutline::End(extra as u32),
        }
    }

    /// Ends the frame under way. A header is read next.
    #[inline(always)]
    pub(crate) fn end_frame(&mut self)
        ensures { self.new ≡ record self.old {
          frame = self.old.stop;
          offset = self.old.stop;
          came = 0;
          stage = stage.Header;
          given_use = ended_use self.old.given_use;
        } }
    {
        self.frame = self.stop;
        self.offset = self.stop;
        self.came = 0;
        self.stage = StreamStage::Header;
        self.given_use = self.given_use.ended();
    }
}

/// How many bytes of the field under way have come.
fn count_field_bytes<A: Allocator>(partial: &Partial<A>) -> u64
    ensures is { result ≡ length (came_of partial.now) }
    ensures small { result < 2 ^ 33 }
{
    if partial.is_under_way() {
        partial.came()
    } else {
        0
    }
}

/// The most bytes of a content in this notation.
#[inline(always)]
pub fn limit_on(limits: &Asked, notation: Notation) -> u32
    ensures { result ≡ limit_of (rules_asked limits.now) notation }
{
    match notation {
        Notation::Text16 | Notation::Text32 => limits.text,
        Notation::Bytes16 | Notation::Bytes32 | Notation::Bound | Notation::Content(_) => {
            limits.cell
        }
        Notation::Byte
        | Notation::Short
        | Notation::Int
        | Notation::Long
        | Notation::Uuid
        | Notation::Count16
        | Notation::Count32
        | Notation::Inet => 0,
    }
}
