//! How what happens in a direction is written.

ghost use Rattle.std.specs.Prelude.{◌≡◌, IfOk, OnOk, option_map, Bool, true};
ghost use Rattle.cqlp_capture_frames.specs.Faults.{Takes};

use cqlp_grammar::Event;
use cqlp_note::{Header, Reason};
use cqlp_tcp_reassembly::GapCause;
use cqlp_text::{Pen, TextWriter};
use cqlp_type::TypeTable;
use std::alloc::Allocator;

/// What writes down what happens in one direction of a connection, one thing after the other. Each call takes the text of what is reported to it, and
/// offsets count from the start of the direction. After a fault nothing more is reported.
pub trait Transcript<A: Allocator> {
    ghost use Rattle.cqlp_grammar.specs.Events.{event_of};
    ghost use Rattle.cqlp_capture_frames.specs.Happenings.{Manner, Begins, Says, Fails, Compressed, Unread, Ends, Closes, outcome};
    ghost use Rattle.cqlp_capture_frames.specs.Happenings as happening;

    /// What ends the text early: a fault of the output, or that memory is refused.
    type Fault;

    /// Whether memory was refused, and the output did not fail.
    ghost refuses: { Self.Fault → Bool };

    /// What it knows of what happened.
    ghost State: { Type 0 };

    ghost state: { Self → State };

    /// How what happens is written.
    ghost manner: { Manner State };

    /// That memory is refused.
    fn no_memory() -> Self::Fault
        ensures { refuses result ≡ true };

    /// A frame with this header begins at an offset, and its bytes are read. Answers the types for its page, should that not describe its columns
    /// (flag No_metadata, section 4.2.5.2 of `native_protocol_v4.spec`).
    fn begin<P: Pen>(
        &mut self,
        at: u64,
        header: &Header,
        writer: &mut TextWriter<P>,
    ) -> Result<Option<TypeTable<A>>, Self::Fault>
        ensures text { Takes refuses writer.old (manner.text (state self.old) (Begins at header.now)) (outcome result) writer.new }
        ensures types { IfOk result (λ types. option_map (λ table. table.nodes) types ≡ manner.types (state self.old) at header.now) }
        ensures after { OnOk result (state self.new ≡ manner.after (state self.old) (Begins at header.now)) };

    /// The frame that began last says an event at an offset.
    fn event<P: Pen>(
        &mut self,
        at: u64,
        event: &Event<'_>,
        writer: &mut TextWriter<P>,
    ) -> Result<(), Self::Fault>
        ensures text { Takes refuses writer.old (manner.text (state self.old) (Says at (event_of event.now))) result writer.new }
        ensures after { OnOk result (state self.new ≡ manner.after (state self.old) (Says at (event_of event.now))) };

    /// The frame that began last is refused at an offset, and no more of it is read.
    fn refusal<P: Pen>(
        &mut self,
        at: u64,
        why: Reason,
        writer: &mut TextWriter<P>,
    ) -> Result<(), Self::Fault>
        ensures text { Takes refuses writer.old (manner.text (state self.old) (Fails at why)) result writer.new }
        ensures after { OnOk result (state self.new ≡ manner.after (state self.old) (Fails at why)) };

    /// A frame with this header begins at an offset that is compressed, so that its bytes are passed over.
    fn compressed<P: Pen>(
        &mut self,
        at: u64,
        header: &Header,
        writer: &mut TextWriter<P>,
    ) -> Result<(), Self::Fault>
        ensures text { Takes refuses writer.old (manner.text (state self.old) (Compressed at header.now)) result writer.new }
        ensures after { OnOk result (state self.new ≡ manner.after (state self.old) (Compressed at header.now)) };

    /// A frame with this header begins at an offset, and there is no room to read it, so that its bytes are passed over.
    fn unread<P: Pen>(
        &mut self,
        at: u64,
        header: &Header,
        writer: &mut TextWriter<P>,
    ) -> Result<(), Self::Fault>
        ensures text { Takes refuses writer.old (manner.text (state self.old) (Unread at header.now)) result writer.new }
        ensures after { OnOk result (state self.new ≡ manner.after (state self.old) (Unread at header.now)) };

    /// So many bytes are missing at an offset, for this cause.
    fn gap<P: Pen>(
        &mut self,
        at: u64,
        length: u64,
        cause: GapCause,
        writer: &mut TextWriter<P>,
    ) -> Result<(), Self::Fault>
        ensures text { Takes refuses writer.old (manner.text (state self.old) (happening.Gap at length cause)) result writer.new }
        ensures after { OnOk result (state self.new ≡ manner.after (state self.old) (happening.Gap at length cause)) };

    /// The frame that began last came whole. These are the types of the metadata that it described last: of a PREPARED those of its statement's
    /// result (section 4.2.5.4 of `native_protocol_v4.spec`).
    fn end<P: Pen>(
        &mut self,
        types: &TypeTable<A>,
        writer: &mut TextWriter<P>,
    ) -> Result<(), Self::Fault>
        ensures text { Takes refuses writer.old (manner.text (state self.old) (Ends types.now.nodes)) result writer.new }
        ensures after { OnOk result (state self.new ≡ manner.after (state self.old) (Ends types.now.nodes)) };

    /// No more is read of the frame that began last: its other bytes are missing or passed over.
    fn close<P: Pen>(&mut self, writer: &mut TextWriter<P>) -> Result<(), Self::Fault>
        ensures text { Takes refuses writer.old (manner.text (state self.old) Closes) result writer.new }
        ensures after { OnOk result (state self.new ≡ manner.after (state self.old) Closes) };
}
