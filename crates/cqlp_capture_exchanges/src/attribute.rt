//! What requests are counted under in a summary, other than the texts of their statements.

ghost use Rattle.std.specs.Prelude.{◌≡◌};
ghost use Rattle.cqlp_text.specs.Outputs.{AppendsText, written};
ghost use Rattle.cqlp_text.specs.Written.{Writes};
ghost use Rattle.cqlp_capture_exchanges.specs.Notings.{error_text, id_name, name_by, no_code_text, no_error_text, reply_error_text};

use crate::connection::Connection;
use crate::end::{put_end, put_ip};
use crate::filter::is_error;
use crate::lines::{put_id, put_name};
use crate::outcome::Outcome;
use crate::reply::{Reply, error_name};
use crate::summary_by::Attribute;
use cqlp_grammar::SinkFault;
use cqlp_note::{Opcode, Target};
use cqlp_observer::{Kept, Message};
use cqlp_text::{Pen, TextWriter, opcode_name};
use std::alloc::Allocator;

/// Appends an attribute of a request on this connection, of which this came. Takes no memory.
pub(crate) fn append_attribute<W: Target, A: Allocator>(
    attribute: Attribute,
    connection: &Connection,
    request: &Message<Kept<A>>,
    outcome: &Outcome,
    target: &mut W,
) -> Result<(), SinkFault>
    ensures { AppendsText (written W.Target target.old) (name_by attribute connection.now request.now outcome.now) result (written W.Target target.new) }
{
    let mut writer = TextWriter::over(target);
    let Ok(()) = put_attribute(&mut writer, attribute, connection, request, outcome) else {
        let _ = writer.into_target();
        return Err(SinkFault);
    };
    let passed_on = writer.flush();
    let _ = writer.into_target();
    passed_on
}

/// Appends the opcode of a request and the id of its statement, as the request's line has it. Takes no memory.
pub(crate) fn append_id<W: Target>(
    opcode: Opcode,
    id: &[u8],
    is_whole: bool,
    target: &mut W,
) -> Result<(), SinkFault>
    ensures { AppendsText (written W.Target target.old) (id_name opcode id.now is_whole) result (written W.Target target.new) }
{
    let mut writer = TextWriter::over(target);
    let Ok(()) = put_id_name(&mut writer, opcode, id, is_whole) else {
        let _ = writer.into_target();
        return Err(SinkFault);
    };
    let passed_on = writer.flush();
    let _ = writer.into_target();
    passed_on
}

fn put_id_name<P: Pen>(
    writer: &mut TextWriter<P>,
    opcode: Opcode,
    id: &[u8],
    is_whole: bool,
) -> Result<(), SinkFault>
    ensures { Writes writer.old (id_name opcode id.now is_whole) result writer.new }
{
    writer.put_str(opcode_name(opcode))?;
    put_id(writer, id, is_whole)
}

fn put_attribute<P: Pen, A: Allocator>(
    writer: &mut TextWriter<P>,
    attribute: Attribute,
    connection: &Connection,
    request: &Message<Kept<A>>,
    outcome: &Outcome,
) -> Result<(), SinkFault>
    ensures { Writes writer.old (name_by attribute connection.now request.now outcome.now) result writer.new }
{
    match attribute {
        Attribute::Client => put_ip(writer, connection.ends.client.address),
        Attribute::Node => put_end(writer, connection.ends.node),
        Attribute::Opcode => writer.put_str(opcode_name(request.frame.header.opcode)),
        Attribute::Error => put_error(writer, outcome.reply, outcome.is_error),
    }
}

/// Takes the error of a reply, or a word where there is none.
fn put_error<P: Pen>(
    writer: &mut TextWriter<P>,
    reply: Option<Reply>,
    is_failure: bool,
) -> Result<(), SinkFault>
    ensures { Writes writer.old (error_text reply is_failure) result writer.new }
{
    match reply {
        Some(reply) => put_reply_error(writer, reply, is_failure),
        None => writer.put(b"unanswered"),
    }
}

fn put_reply_error<P: Pen>(
    writer: &mut TextWriter<P>,
    reply: Reply,
    is_failure: bool,
) -> Result<(), SinkFault>
    ensures { Writes writer.old (reply_error_text reply is_failure) result writer.new }
{
    match reply {
        Reply::Error(code) => put_name(writer, error_name(code), code),
        Reply::Result(_) => writer.put_str(no_error_text(is_failure)),
        Reply::Other(opcode) => writer.put_str(no_code_text(opcode, is_failure)),
    }
}

/// What a reply is called that has no code of an error.
fn no_code_text(opcode: Opcode, is_failure: bool) -> &'static str
    ensures { result.now ≡ no_code_text opcode is_failure }
{
    if is_error(opcode) {
        "ERROR"
    } else {
        no_error_text(is_failure)
    }
}

/// What a reply is called that is no ERROR.
fn no_error_text(is_failure: bool) -> &'static str
    ensures { result.now ≡ no_error_text is_failure }
{
    if is_failure { "cut" } else { "none" }
}
