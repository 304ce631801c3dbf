//! The text of the responses of a connection.

ghost use Rattle.std.specs.Prelude.{◌≡◌, true, IfErr, IfOk, IsSome, OnErr, OnOk, option_map};
ghost use Rattle.cqlp_text.specs.Written.{Writes};
ghost use Rattle.cqlp_capture_prepared.specs.Keeping.{answered, named_under, new_keeping};
ghost use Rattle.cqlp_capture_prepared.specs.Requests.{asked, step_asked};
ghost use Rattle.cqlp_capture_rows.specs.Pages.{cut_text, no_rows};
ghost use Rattle.cqlp_capture_frames.specs.Lines.{line_place};
ghost use Rattle.cqlp_capture_rows.specs.Spots.{spot};
ghost use Rattle.cqlp_capture_rows.specs.Frames.{is_result};
ghost use Rattle.cqlp_capture_rows.specs.Responses.{known_by, new_responses, page_types, types_known, used_in, with_known, with_others, with_page};
ghost use Rattle.cqlp_capture_rows.specs.OtherConnections.{overheard, overhears};

use crate::limits::{EXECUTES, STATEMENTS};
use crate::other_connections::OtherConnections;
use crate::other_types::OtherTypes;
use crate::page::Page;
use crate::spot::{FrameSpot, Spot};
use cqlp_capture_frames::{
    LinePlace, ReportFault, Transcript, put_compressed, put_gap, put_refused, put_unread,
};
use cqlp_capture_prepared::{NewPreparedError, PreparedTypes, Requests, StatementId};
use cqlp_grammar::{Event, SinkFault};
use cqlp_note::{Header, NoMemory, Opcode, Reason};
use cqlp_statement_types::StatementTypes;
use cqlp_tcp_reassembly::{GapCause, StreamStep};
use cqlp_text::{Pen, TextWriter};
use cqlp_type::TypeTable;
use std::alloc::{AllocError, Allocator, Global};
use std::marker::Model;

/// The header before that of the first frame.
const NO_HEADER: Header = Header {
    response: true,
    flags: 0,
    stream: 0,
    opcode: Opcode::Ready,
    length: 0,
};

/// What is known of the responses of a connection: of its statements, and of the page of the frame that is read.
#[derive(Drop)]
pub(crate) struct Responses<A: Allocator = Global> {
    /// The number of the connection.
    number: u64,
    known: PreparedTypes<A>,
    others: OtherTypes<A>,
    /// Where the frame that began last begins, and its header.
    begun: FrameSpot,
    /// What it said of a page.
    page: Page,
}

impl<A: Allocator> Model for Responses<A> {
    ghost use Rattle.cqlp_capture_rows.specs.Responses.{Responses, responses};

    ghost Value = { Responses };

    ghost view = { λ r. responses r.number r.known r.others r.begun r.page };
}

impl<A: Allocator + Clone> Responses<A> {
    /// Nothing came of the connection with this number, and these types of statements are given. All memory but that of types is taken here.
    pub(crate) fn new(alloc: A, number: u64, given: StatementTypes<A>) -> Result<Self, AllocError>
        ensures { IfOk result (λ r. r ≡ new_responses given number (new_keeping STATEMENTS EXECUTES)) }
    {
        let others = OtherTypes::new(alloc.clone()?, given)?;
        match PreparedTypes::new(alloc, STATEMENTS, EXECUTES) {
            Ok(known) => Ok(Responses {
                number,
                known,
                others,
                begun: FrameSpot {
                    spot: Spot { number, at: 0 },
                    header: NO_HEADER,
                },
                page: Page::new(),
            }),
            Err(NewPreparedError::NoMemory | NewPreparedError::BadLimit) => Err(AllocError),
        }
    }
}

impl<A: Allocator> Responses<A> {
    /// Takes what the direction of the requests delivers, with its bytes: what is known of statements changes by that.
    pub(crate) fn hear_requests(&mut self, step: StreamStep, bytes: &[u8], requests: &mut Requests)
        ensures known { asked requests.new self.new.known ≡ step_asked step bytes.now (asked requests.old self.old.known) }
        ensures others { self.new ≡ with_known self.new.known self.old }
    {
        requests.hear(step, bytes, &mut self.known);
    }

    /// A place in the responses.
    fn spot(&self, at: u64) -> Spot
        ensures { result ≡ spot self.now.number at }
    {
        Spot {
            number: self.number,
            at,
        }
    }

    /// The direction of its lines.
    fn place(&self) -> LinePlace
        ensures { result ≡ line_place self.now.number true }
    {
        LinePlace {
            number: self.number,
            responses: true,
        }
    }

    /// No more is read of the frame. Takes the end of its page, if that has not ended.
    fn cut<P: Pen>(&mut self, writer: &mut TextWriter<P>) -> Result<(), SinkFault>
        ensures text { Writes writer.old (cut_text self.old.page) result writer.new }
        ensures after { self.new ≡ with_page no_rows self.old }
    {
        let cut = self.page.put_cut(writer);
        self.page = Page::new();
        cut
    }

    /// Takes what the responses of another connection deliver, with its bytes: what is known of statements changes by that.
    pub(crate) fn hear_others(
        &mut self,
        number: u64,
        step: StreamStep,
        bytes: &[u8],
        connections: &mut OtherConnections<A>,
    ) -> Result<(), NoMemory>
    where
        A: Clone,
        ensures known { OnOk result
            (overheard connections.new self.new.others ≡ overhears number step bytes.now connections.old self.old.others) }
        ensures others { self.new ≡ with_others self.new.others self.old }
    {
        connections.hear(number, step, bytes, &mut self.others)
    }

    /// Says that a response came under this stream id, and copies the types of the statement that the EXECUTE names which waits under it. Memory is
    /// asked for only where there are types.
    fn types_for(&mut self, stream: i16) -> Result<Option<TypeTable<A>>, NoMemory>
    where
        A: Clone,
        ensures is { IfOk result (λ types. option_map (λ table. table.nodes) types ≡ page_types stream self.old) }
        ensures left { self.new ≡ with_others (used_in (named_under stream self.old.known) self.old.others)
            (with_known (answered stream self.old.known) self.old) }
        ensures asks { OnErr result (IsSome (page_types stream self.old)) }
    {
        match self.known.answered(stream) {
            Some(id) => {
                let types = self.copy_of(&id);
                self.others.note_use(&id);
                types
            }
            None => Ok(None),
        }
    }

    fn copy_of(&self, id: &StatementId) -> Result<Option<TypeTable<A>>, NoMemory>
    where
        A: Clone,
        ensures is { IfOk result (λ types. option_map (λ table. table.nodes) types ≡ types_known id.now self.now) }
        ensures asks { OnErr result (IsSome (types_known id.now self.now)) }
    {
        match self.types_of(id) {
            Some(types) => Ok(Some(types.clone_table()?)),
            None => Ok(None),
        }
    }

    /// The types of a statement, by its own connection first.
    fn types_of(&self, id: &StatementId) -> Option<&TypeTable<A>>
        ensures { option_map (λ table. table.now.nodes) result ≡ types_known id.now self.now }
    {
        match self.known.types_of(id) {
            Some(types) => Some(types),
            None => self.others.types_of(id),
        }
    }

    /// The frame came whole. A PREPARED says the types of its statement's result: it is the RESULT that names a statement. Memory is asked for
    /// only then.
    fn learn(&mut self, types: &TypeTable<A>) -> Result<(), NoMemory>
    where
        A: Clone,
        ensures known { OnOk result
            (self.new ≡ with_known (known_by self.old.begun.header self.old.page types.now.nodes self.old.known) self.old) }
        ensures asks { OnErr result ((is_result self.old.begun.header.opcode ≡ true) × IsSome self.old.page.id) }
    {
        if !is_result(&self.begun.header) {
            return Ok(());
        }
        match self.page.id() {
            Some(id) => self.known.prepared(id.as_slice(), types),
            None => Ok(()),
        }
    }
}

impl<A: Allocator + Clone> Transcript<A> for Responses<A> {
    ghost use Rattle.cqlp_capture_frames.specs.Faults.{Takes};
    ghost use Rattle.cqlp_capture_frames.specs.Happenings.{Begins, Ends, outcome};
    ghost use Rattle.cqlp_capture_frames.specs.Reportings.{is_memory};
    ghost use Rattle.cqlp_capture_rows.specs.Responses.{AsksFor, Responses, page_manner};

    type Fault = ReportFault;

    ghost refuses = { is_memory };

    ghost State = { Responses };

    ghost state = { λ r. r };

    ghost manner = { page_manner };

    fn no_memory() -> ReportFault {
        ReportFault::NoMemory
    }

    #[tactic(auto, using(cqlp_capture_frames::proofs::Reportings::asked_here, cqlp_capture_frames::proofs::Reportings::refused_here))]
    fn begin<P: Pen>(
        &mut self,
        at: u64,
        header: &Header,
        _writer: &mut TextWriter<P>,
    ) -> Result<Option<TypeTable<A>>, ReportFault>
        ensures text { Takes is_memory _writer.old (page_manner.text self.old (Begins at header.now)) (outcome result) _writer.new }
        ensures types { IfOk result (λ types. option_map (λ table. table.nodes) types ≡ page_manner.types self.old at header.now) }
        ensures after { OnOk result (self.new ≡ page_manner.after self.old (Begins at header.now)) }
        ensures asks { IfErr result (λ f. is_memory f ≡ true → AsksFor self.old (Begins at header.now)) }
    {
        let types = self.types_for(header.stream)?;
        self.begun = FrameSpot {
            spot: self.spot(at),
            header: *header,
        };
        self.page = Page::new();
        Ok(types)
    }

    #[tactic(auto, using(cqlp_capture_frames::proofs::Reportings::breaks_here))]
    fn event<P: Pen>(
        &mut self,
        _at: u64,
        event: &Event<'_>,
        writer: &mut TextWriter<P>,
    ) -> Result<(), ReportFault> {
        Ok(self.page.put_event(event, self.begun, writer)?)
    }

    #[tactic(auto, using(cqlp_capture_frames::proofs::Reportings::first_breaks, cqlp_capture_frames::proofs::Reportings::then_breaks))]
    fn refusal<P: Pen>(
        &mut self,
        at: u64,
        why: Reason,
        writer: &mut TextWriter<P>,
    ) -> Result<(), ReportFault> {
        self.cut(writer)?;
        Ok(put_refused(writer, self.place(), at, why)?)
    }

    #[tactic(auto, using(cqlp_capture_frames::proofs::Reportings::breaks_here))]
    fn compressed<P: Pen>(
        &mut self,
        at: u64,
        header: &Header,
        writer: &mut TextWriter<P>,
    ) -> Result<(), ReportFault> {
        self.known.forget(header.stream);
        Ok(put_compressed(writer, self.place(), at)?)
    }

    #[tactic(auto, using(cqlp_capture_frames::proofs::Reportings::breaks_here))]
    fn unread<P: Pen>(
        &mut self,
        at: u64,
        header: &Header,
        writer: &mut TextWriter<P>,
    ) -> Result<(), ReportFault> {
        self.known.forget(header.stream);
        Ok(put_unread(writer, self.place(), at)?)
    }

    #[tactic(auto, using(cqlp_capture_frames::proofs::Reportings::breaks_here))]
    fn gap<P: Pen>(
        &mut self,
        at: u64,
        length: u64,
        cause: GapCause,
        writer: &mut TextWriter<P>,
    ) -> Result<(), ReportFault> {
        Ok(put_gap(writer, self.place(), at, length, cause)?)
    }

    #[tactic(auto, using(cqlp_capture_frames::proofs::Reportings::early_ends))]
    fn end<P: Pen>(
        &mut self,
        types: &TypeTable<A>,
        writer: &mut TextWriter<P>,
    ) -> Result<(), ReportFault>
        ensures text { Takes is_memory writer.old (page_manner.text self.old (Ends types.now.nodes)) result writer.new }
        ensures after { OnOk result (self.new ≡ page_manner.after self.old (Ends types.now.nodes)) }
        ensures asks { IfErr result (λ f. is_memory f ≡ true → AsksFor self.old (Ends types.now.nodes)) }
    {
        self.learn(types)?;
        Ok(self.cut(writer)?)
    }

    #[tactic(auto, using(cqlp_capture_frames::proofs::Reportings::breaks_here))]
    fn close<P: Pen>(&mut self, writer: &mut TextWriter<P>) -> Result<(), ReportFault> {
        Ok(self.cut(writer)?)
    }
}

/// Whether it is that of a RESULT.
fn is_result(header: &Header) -> bool
    ensures { result ≡ is_result header.now.opcode }
{
    header.opcode == Opcode::Result
}
