//! The values that a request binds, where they are to be written.

ghost use Rattle.std.specs.Prelude.{◌≡◌};
ghost use Rattle.cqlp_bound_values.specs.Bindings.{bound_of};
ghost use Rattle.cqlp_bound_values.specs.Texts.{members_text, values_text};
ghost use Rattle.cqlp_text.specs.Written.{Writes};
ghost use Rattle.cqlp_capture_exchanges.specs.Bound.{bound_by, values_if, values_members_if};

use crate::form::ValuesShown;
use crate::prepared::Known;
use crate::statement::statement_of;
use cqlp_bound_values::{Binding, put_values, put_values_members, values_bound_by};
use cqlp_grammar::SinkFault;
use cqlp_observer::{Kept, Message};
use cqlp_text::{Pen, TextWriter};
use std::alloc::Allocator;

/// Takes what a line has of the values that a request binds, if they are to be written.
pub(crate) fn put_values_if<P: Pen, A: Allocator>(
    writer: &mut TextWriter<P>,
    known: &Known<A>,
    shown: ValuesShown,
    request: &Message<Kept<A>>,
) -> Result<(), SinkFault>
    ensures { Writes writer.old (values_if shown known.now request.now) result writer.new }
{
    match shown {
        ValuesShown::No => writer.put(b""),
        ValuesShown::Yes => put_values(writer, &bound_by(known, request)),
    }
}

/// Likewise the members of an object.
pub(crate) fn put_values_members_if<P: Pen, A: Allocator>(
    writer: &mut TextWriter<P>,
    known: &Known<A>,
    shown: ValuesShown,
    request: &Message<Kept<A>>,
) -> Result<(), SinkFault>
    ensures { Writes writer.old (values_members_if shown known.now request.now) result writer.new }
{
    match shown {
        ValuesShown::No => writer.put(b""),
        ValuesShown::Yes => put_values_members(writer, &bound_by(known, request)),
    }
}

/// What a request binds, with the types of its statement, if that is known.
fn bound_by<'a, A: Allocator>(known: &'a Known<A>, request: &'a Message<Kept<A>>) -> Binding<'a>
    ensures { bound_of result ≡ bound_by known.now request.now }
{
    let header = &request.frame.header;
    let front = request.kept.front();
    let prepared = known.prepared_front(statement_of(header, front));
    values_bound_by(header, front, prepared)
}
