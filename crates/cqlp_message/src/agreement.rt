//! Whether flags, codes and names agree with the parts that they announce.

#![tactic(auto, using(crate::proofs::Announced::is_some_of, crate::proofs::Announced::length_wants))]

ghost use Rattle.std.specs.Prelude.{◌≡◌, ◌*◌, ◌==◌, is_some, length, map, string_bytes};
ghost use Rattle.std.specs.List.{list_all};
ghost use Rattle.cqlp_note.specs.Heading.{beside_number, same as same_as};
ghost use Rattle.cqlp_message.specs.Agreement as agreement;
ghost use Rattle.cqlp_message.specs.FrameValues as value;
ghost use Rattle.cqlp_message.specs.Owned.{change_of, event_of, extra_of, frame_of, message_of, metadata_of};
ghost use Rattle.cqlp_message.specs.Owned.{options_of, params_of, prepared_of, spec_of, table_of};
ghost use Rattle.cqlp_grammar.specs.Productions.{errors};

use crate::frame::Frame;
use crate::message::Message;
use crate::request::{OwnedBound, QueryParams};
use crate::response::{
    ErrorExtra, Metadata, Prepared, Rows, SchemaChange, SchemaOptions, ServerEvent, Spec,
};
use cqlp_grammar::{error_code, event_fields, has, target_fields};
use cqlp_note::Opcode;
use cqlp_type::check_type;

/// Whether both are so, or neither is.
fn same(announced: bool, there: bool) -> bool
    ensures { result ≡ same_as announced there }
{
    if announced { there } else { !there }
}

impl QueryParams {
    /// Whether the parts are those of the flags, and the values have names where they are to.
    fn agrees(&self) -> bool
        ensures { result ≡ agreement.params_agree (params_of self.now) }
    {
        let flags = u32::from(self.flags);
        same(has(flags, 0x01), self.values.is_some())
            && self.are_named(has(flags, 0x40))
            && same(has(flags, 0x04), self.page_size.is_some())
            && same(has(flags, 0x08), self.paging.is_some())
            && same(has(flags, 0x10), self.serial.is_some())
            && same(has(flags, 0x20), self.timestamp.is_some())
    }

    /// Whether the values have names, or none has.
    fn are_named(&self, named: bool) -> bool
        ensures { result ≡ agreement.are_named named (params_of self.now).values }
    {
        match &self.values {
            Some(values) => all_named(named, values),
            None => true,
        }
    }
}

/// Whether each value has a name, or none has.
fn all_named(named: bool, values: &[(Option<String>, OwnedBound)]) -> bool
    ensures { result ≡ list_all (λ v. same_as named (is_some v.0)) values.now }
{
    values.iter().all(|value| same(named, value.0.is_some()))
}

/// Whether the parts at a batch's end are those of its flags.
fn batch_agrees(flags: u8, serial: Option<u16>, timestamp: Option<i64>) -> bool
    ensures { result ≡ agreement.batch_agrees flags serial timestamp }
{
    let flags = u32::from(flags);
    !has(flags, 0x4F)
        && same(has(flags, 0x10), serial.is_some())
        && same(has(flags, 0x20), timestamp.is_some())
}

/// Whether an error of this code has more than its message.
fn has_extra(code: u32) -> bool
    ensures { result ≡ is_some (beside_number code errors) }
{
    match code {
        error_code::UNAVAILABLE
        | error_code::WRITE_TIMEOUT
        | error_code::READ_TIMEOUT
        | error_code::READ_FAILURE
        | error_code::FUNCTION_FAILURE
        | error_code::WRITE_FAILURE
        | error_code::ALREADY_EXISTS
        | error_code::UNPREPARED => true,
        _ => false,
    }
}

impl ErrorExtra {
    /// Whether it is what this code adds.
    fn agrees(&self, code: u32) -> bool
        ensures { result ≡ agreement.extra_agrees code (extra_of self.now) }
    {
        match self {
            ErrorExtra::Plain => !has_extra(code),
            ErrorExtra::Unavailable { .. } => code == error_code::UNAVAILABLE,
            ErrorExtra::WriteTimeout { .. } => code == error_code::WRITE_TIMEOUT,
            ErrorExtra::ReadTimeout { .. } => code == error_code::READ_TIMEOUT,
            ErrorExtra::ReadFailure { .. } => code == error_code::READ_FAILURE,
            ErrorExtra::FunctionFailure { .. } => code == error_code::FUNCTION_FAILURE,
            ErrorExtra::WriteFailure { .. } => code == error_code::WRITE_FAILURE,
            ErrorExtra::AlreadyExists { .. } => code == error_code::ALREADY_EXISTS,
            ErrorExtra::Unprepared { .. } => code == error_code::UNPREPARED,
        }
    }
}

impl SchemaOptions {
    /// Whether they are those of this target.
    fn agrees(&self, target: &str) -> bool
        ensures { result ≡ agreement.options_agree target.now (options_of self.now) }
    {
        match self {
            SchemaOptions::Keyspace(_) => target == "KEYSPACE",
            SchemaOptions::Named(_, _) => target == "TABLE" || target == "TYPE",
            SchemaOptions::Callable(_, _, _) => target == "FUNCTION" || target == "AGGREGATE",
            SchemaOptions::Unknown => target_fields(target).is_empty(),
        }
    }
}

impl SchemaChange {
    /// Whether the options are those of the target.
    fn agrees(&self) -> bool
        ensures { result ≡ agreement.change_agrees (change_of self.now) }
    {
        self.options.agrees(self.target.as_str())
    }
}

impl ServerEvent {
    /// Whether it is what an event of this type reports.
    fn agrees(&self, event: &str) -> bool
        ensures { result ≡ agreement.event_agrees event.now (event_of self.now) }
    {
        match self {
            ServerEvent::Node { .. } => event == "TOPOLOGY_CHANGE" || event == "STATUS_CHANGE",
            ServerEvent::Schema(change) => event == "SCHEMA_CHANGE" && change.agrees(),
            ServerEvent::Unknown => event_fields(event).is_empty(),
        }
    }
}

impl Spec {
    /// Whether it has a table where it is to have one of its own, and one type.
    fn agrees(&self, own: bool) -> bool
        ensures { result ≡ agreement.spec_agrees own (spec_of self.now) }
    {
        same(own, self.table.is_some()) && check_type(&self.tree).formed
    }
}

/// Whether there are as many specs as columns, and the tables are those of the flags.
fn specs_agree(flags: u32, columns: u32, table: &Option<(String, String)>, specs: &[Spec]) -> bool
    ensures { result ≡ agreement.specs_agree flags columns (table_of table.now) (map spec_of specs.now) }
{
    let one_table = has(flags, 0x01);
    specs.len() == columns as usize
        && same(one_table, table.is_some())
        && all_agree(!one_table, specs)
}

/// Whether each spec agrees.
fn all_agree(own: bool, specs: &[Spec]) -> bool
    ensures { result ≡ list_all (agreement.spec_agrees own) (map spec_of specs.now) }
{
    each_agrees(own, specs)
}

/// The same of the specs as they lie in memory.
fn each_agrees(own: bool, specs: &[Spec]) -> bool
    ensures { result ≡ list_all (λ c. agreement.spec_agrees own (spec_of c)) specs.now }
{
    specs.iter().all(|spec| spec.agrees(own))
}

impl Metadata {
    /// Whether the parts are those of the flags.
    fn agrees(&self) -> bool
        ensures { result ≡ agreement.metadata_agrees (metadata_of self.now) }
    {
        same(has(self.flags.cast_unsigned(), 0x02), self.paging.is_some()) && self.columns_agree()
    }

    /// Whether the columns are described where the flags say so.
    fn columns_agree(&self) -> bool
        ensures { let m = metadata_of self.now in
            result ≡ agreement.columns_agree (agreement.bits m.flags) m.columns m.table m.specs }
    {
        let flags = self.flags.cast_unsigned();
        match &self.specs {
            Some(specs) => {
                !has(flags, 0x04) && specs_agree(flags, self.columns, &self.table, specs)
            }
            None => has(flags, 0x04) && self.table.is_none(),
        }
    }
}

impl Prepared {
    /// Whether the parts are those of the flags, in its own metadata and in those of its pages.
    fn agrees(&self) -> bool
        ensures { result ≡ agreement.prepared_agrees (prepared_of self.now) }
    {
        let flags = self.flags.cast_unsigned();
        specs_agree(flags, self.columns, &self.table, &self.specs) && self.result.agrees()
    }
}

impl Message {
    /// Its opcode.
    #[must_use]
    pub fn opcode(&self) -> Opcode
        ensures { result ≡ agreement.opcode_of (message_of self.now) }
    {
        match self {
            Message::Startup(_) => Opcode::Startup,
            Message::Options => Opcode::Options,
            Message::Query { .. } => Opcode::Query,
            Message::Prepare(_) => Opcode::Prepare,
            Message::Execute { .. } => Opcode::Execute,
            Message::Batch { .. } => Opcode::Batch,
            Message::Register(_) => Opcode::Register,
            Message::AuthResponse(_) => Opcode::AuthResponse,
            Message::Error { .. } => Opcode::Error,
            Message::Ready => Opcode::Ready,
            Message::Authenticate(_) => Opcode::Authenticate,
            Message::Supported(_) => Opcode::Supported,
            Message::Void
            | Message::SetKeyspace(_)
            | Message::Rows(_)
            | Message::Prepared(_)
            | Message::Change(_)
            | Message::UnknownResult(_) => Opcode::Result,
            Message::Event { .. } => Opcode::Event,
            Message::AuthChallenge(_) => Opcode::AuthChallenge,
            Message::AuthSuccess(_) => Opcode::AuthSuccess,
        }
    }

    /// Whether it is a response.
    #[must_use]
    pub fn is_response(&self) -> bool
        ensures { result ≡ agreement.is_response (message_of self.now) }
    {
        self.opcode().is_response()
    }

    /// Whether its flags, codes and names agree with its parts.
    fn agrees(&self) -> bool
        ensures { result ≡ agreement.message_agrees (message_of self.now) }
    {
        match self {
            Message::Query { params, .. } => params.agrees(),
            Message::Execute { params, .. } => params.agrees(),
            Message::Batch {
                flags,
                serial,
                timestamp,
                ..
            } => batch_agrees(*flags, *serial, *timestamp),
            Message::Error { code, extra, .. } => extra.agrees(code.cast_unsigned()),
            Message::Rows(page) => page.meta.agrees(),
            Message::Prepared(statement) => statement.agrees(),
            Message::Change(change) => change.agrees(),
            Message::UnknownResult(kind) => is_no_result(kind.cast_unsigned()),
            Message::Event { event, detail } => detail.agrees(event.as_str()),
            _ => true,
        }
    }

    /// Whether a page has a cell of each row and each column.
    #[must_use]
    pub fn has_its_cells(&self) -> bool
        ensures { result ≡ agreement.has_its_cells (message_of self.now) }
    {
        match self {
            Message::Rows(page) => page.has_its_cells(),
            _ => true,
        }
    }
}

/// Whether no result is of this kind.
fn is_no_result(kind: u32) -> bool
    ensures { result ≡ agreement.is_no_result kind }
{
    kind == 0 || kind > 5
}

impl Rows {
    /// Whether it has a cell of each row and each column.
    fn has_its_cells(&self) -> bool
        ensures { result ≡ (length self.now.cells.items == self.now.rows * self.now.meta.columns) }
    {
        self.cells.len() as u64 == u64::from(self.rows) * u64::from(self.meta.columns)
    }
}

impl Frame {
    /// Whether a request has neither a tracing id nor warnings.
    #[must_use]
    pub fn is_directed(&self) -> bool
        ensures { result ≡ agreement.is_directed (frame_of self.now) }
    {
        self.message.is_response() || (self.tracing.is_none() && self.warnings.is_none())
    }

    /// Whether its flags, codes and names agree with its parts.
    #[must_use]
    pub fn agrees(&self) -> bool
        ensures { result ≡ agreement.frame_agrees (frame_of self.now) }
    {
        let flags = u32::from(self.flags);
        let response = self.message.is_response();
        !has(flags, 0x01)
            && same(response && has(flags, 0x02), self.tracing.is_some())
            && same(response && has(flags, 0x08), self.warnings.is_some())
            && same(has(flags, 0x04), self.payload.is_some())
            && self.message.agrees()
    }
}
