//! What PREPAREDs on other connections say of statements.

ghost use Rattle.std.specs.Prelude.{◌≡◌, IfOk, OnOk, option_map};
ghost use Rattle.cqlp_statement_types.specs.Types.{table_given};
ghost use Rattle.cqlp_capture_rows.specs.Others.{learned, no_other_types, other_types_of, types_given, used_by};

use crate::other_limits::{OTHER_LIMITS, OTHER_STATEMENTS};
use crate::page::note_id;
use crate::silent::Silent;
use cqlp_capture_frames::{Direction, ReportFault, Transcript};
use cqlp_capture_prepared::{NewPreparedError, PreparedTypes, StatementId};
use cqlp_grammar::Event;
use cqlp_note::{Header, NoMemory, Reason};
use cqlp_statement_types::StatementTypes;
use cqlp_tcp_reassembly::{GapCause, StreamStep};
use cqlp_text::{Pen, TextWriter};
use cqlp_type::TypeTable;
use std::alloc::{AllocError, Allocator, Global};
use std::marker::Model;

/// The types of statements that were prepared on other connections, the latest of each: at most [`OTHER_STATEMENTS`], of which those go first that were
/// prepared, or used by a page, longest ago. And those of statements that were prepared before the capture, as they were given.
#[derive(Drop)]
pub(crate) struct OtherTypes<A: Allocator = Global> {
    alloc: A,
    known: PreparedTypes<A>,
    given: StatementTypes<A>,
    /// The id that the frame named which is read.
    id: Option<StatementId>,
}

impl<A: Allocator> Model for OtherTypes<A> {
    ghost use Rattle.cqlp_capture_rows.specs.Others.{OtherTypes, other_types};

    ghost Value = { OtherTypes };

    ghost view = { λ o. other_types o.known o.given o.id };
}

impl<A: Allocator> OtherTypes<A> {
    /// The types that the last PREPARED said which named this id, if they are still known, or else those that were given.
    pub(crate) fn types_of(&self, id: &StatementId) -> Option<&TypeTable<A>>
        ensures { option_map (λ table. table.now.nodes) result ≡ other_types_of id.now self.now }
    {
        match self.known.types_of(id) {
            Some(types) => Some(types),
            None => self.types_given(id),
        }
    }

    /// The types that were given for this id.
    #[tactic(auto, using(crate::proofs::Copied::copied_nodes))]
    fn types_given(&self, id: &StatementId) -> Option<&TypeTable<A>>
        ensures { option_map (λ table. table.now.nodes) result ≡ types_given id.now self.now.given }
    {
        self.given.get(id.as_slice())
    }

    /// Says that a page has the types of this statement, if it is known.
    pub(crate) fn note_use(&mut self, id: &StatementId)
        ensures { self.new ≡ used_by id.now self.old }
    {
        self.known.note_use(id);
    }
}

impl<A: Allocator + Clone> OtherTypes<A> {
    /// Nothing is known but the types that are given. Memory for the list is taken here.
    pub(crate) fn new(alloc: A, given: StatementTypes<A>) -> Result<Self, AllocError>
        ensures { IfOk result (λ o. o ≡ no_other_types given) }
    {
        match PreparedTypes::new(alloc.clone()?, OTHER_STATEMENTS, 1) {
            Ok(known) => Ok(OtherTypes {
                alloc,
                known,
                given,
                id: None,
            }),
            Err(NewPreparedError::NoMemory | NewPreparedError::BadLimit) => Err(AllocError),
        }
    }

    /// Reads a frame that came whole. If it is a PREPARED, the types of its statement's result are known.
    pub(crate) fn learn(&mut self, frame: &[u8]) -> Result<(), NoMemory>
        ensures { OnOk result (self.new ≡ learned frame.now self.old) }
    {
        let mut direction = Direction::new(self.alloc.clone()?, OTHER_LIMITS, true);
        direction.restart(true);
        let step = StreamStep::Payload {
            from: 0,
            count: frame.len(),
        };
        let mut silent = TextWriter::new(Silent);
        match direction.hear(true, step, 0, frame, self, &mut silent) {
            Ok(()) => Ok(()),
            Err(ReportFault::NoMemory | ReportFault::Write) => Err(NoMemory),
        }
    }
}

impl<A: Allocator + Clone> Transcript<A> for OtherTypes<A> {
    ghost use Rattle.cqlp_capture_frames.specs.Reportings.{is_memory};
    ghost use Rattle.cqlp_capture_rows.specs.Others.{OtherTypes, learning_manner};

    type Fault = ReportFault;

    ghost refuses = { is_memory };

    ghost State = { OtherTypes };

    ghost state = { λ o. o };

    ghost manner = { learning_manner };

    fn no_memory() -> ReportFault {
        ReportFault::NoMemory
    }

    fn begin<P: Pen>(
        &mut self,
        _at: u64,
        _header: &Header,
        _writer: &mut TextWriter<P>,
    ) -> Result<Option<TypeTable<A>>, ReportFault> {
        self.id = None;
        Ok(None)
    }

    fn event<P: Pen>(
        &mut self,
        _at: u64,
        event: &Event<'_>,
        _writer: &mut TextWriter<P>,
    ) -> Result<(), ReportFault> {
        note_id(&mut self.id, event);
        Ok(())
    }

    fn refusal<P: Pen>(
        &mut self,
        _at: u64,
        _why: Reason,
        _writer: &mut TextWriter<P>,
    ) -> Result<(), ReportFault> {
        Ok(())
    }

    fn compressed<P: Pen>(
        &mut self,
        _at: u64,
        _header: &Header,
        _writer: &mut TextWriter<P>,
    ) -> Result<(), ReportFault> {
        Ok(())
    }

    fn unread<P: Pen>(
        &mut self,
        _at: u64,
        _header: &Header,
        _writer: &mut TextWriter<P>,
    ) -> Result<(), ReportFault> {
        Ok(())
    }

    fn gap<P: Pen>(
        &mut self,
        _at: u64,
        _length: u64,
        _cause: GapCause,
        _writer: &mut TextWriter<P>,
    ) -> Result<(), ReportFault> {
        Ok(())
    }

    #[tactic(auto, using(cqlp_capture_frames::proofs::Reportings::early_ends))]
    fn end<P: Pen>(
        &mut self,
        types: &TypeTable<A>,
        _writer: &mut TextWriter<P>,
    ) -> Result<(), ReportFault> {
        if let Some(id) = &self.id {
            self.known.prepared(id.as_slice(), types)?;
        }
        Ok(())
    }

    fn close<P: Pen>(&mut self, _writer: &mut TextWriter<P>) -> Result<(), ReportFault> {
        Ok(())
    }
}
