//! A RESULT on another connection, as far as it may be a PREPARED.

ghost use Rattle.std.specs.Prelude.{◌≡◌, IfOk, OnErr, OnOk, true};
ghost use Rattle.cqlp_note.specs.Heading.{IsLawful};
ghost use Rattle.cqlp_observer_facts.specs.Reading.{read};
ghost use Rattle.cqlp_capture_rows.specs.Frames.{begun_frame, gathered, may_be_prepared, with_body};

use cqlp_note::Header;
use cqlp_observer_facts::FactsReader;
use std::alloc::{AllocError, Allocator, Global};
use std::marker::Model;

/// The kind of a result that is a PREPARED (section 4.2.5 of `native_protocol_v4.spec`).
const PREPARED: u32 = 4;

/// A RESULT whose kind is that of a PREPARED, or has not come whole, with its bytes.
#[derive(Drop)]
pub(crate) struct PreparedFrame<A: Allocator = Global> {
    head: [u8; 9],
    /// Reads the kind, behind what the header's flags announce.
    reader: FactsReader,
    /// The header and what came of the body; nothing, before some of the body came.
    bytes: Vec<u8, A>,
}

impl<A: Allocator> Model for PreparedFrame<A> {
    ghost use Rattle.cqlp_capture_rows.specs.Frames.{PreparedFrame, prepared_frame};

    ghost Value = { PreparedFrame };

    ghost view = { λ f. prepared_frame f.head f.reader f.bytes.items };
}

impl<A: Allocator> PreparedFrame<A> {
    /// Nothing came but its header. Takes no memory.
    pub(crate) fn new(alloc: A, header: &Header) -> Self
        requires { IsLawful header.now }
        ensures { result ≡ begun_frame header.now }
    {
        PreparedFrame {
            head: header.write(),
            reader: FactsReader::new(header),
            bytes: Vec::new(alloc),
        }
    }

    /// The frame with more bytes of its body; none, where they say that it is no PREPARED. Asks for memory only where it is kept.
    pub(crate) fn with(self, bytes: &[u8]) -> Result<Option<Self>, AllocError>
        ensures is { IfOk result (λ f. f ≡ gathered bytes.now self) }
        ensures asks { OnErr result (may_be_prepared (read bytes.now self.reader).facts.result ≡ true) }
    {
        let mut frame = self;
        let _ = frame.reader.read(bytes);
        if !may_be_prepared(frame.reader.facts().result) {
            return Ok(None);
        }
        frame.push(bytes)?;
        Ok(Some(frame))
    }

    fn push(&mut self, bytes: &[u8]) -> Result<(), AllocError>
        ensures { OnOk result (self.new ≡ with_body bytes.now self.old) }
    {
        if self.bytes.is_empty() {
            self.bytes.extend_from_slice(&self.head)?;
        }
        self.bytes.extend_from_slice(bytes)
    }

    /// Its bytes.
    pub(crate) fn bytes(&self) -> &[u8]
        ensures { result.now ≡ self.now.bytes }
    {
        &self.bytes
    }
}

/// Whether a RESULT is a PREPARED, or its kind has not come.
fn may_be_prepared(kind: Option<u32>) -> bool
    ensures { result ≡ may_be_prepared kind }
{
    match kind {
        Some(kind) => kind == PREPARED,
        None => true,
    }
}
