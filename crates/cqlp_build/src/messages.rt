//! Messages.

ghost use Rattle.cqlp_message.specs.Owned.{message_of};
ghost use Rattle.cqlp_build.specs.CellSizes.{IsSized};
ghost use Rattle.cqlp_build.specs.FrameEvents.{IsSound};
ghost use Rattle.cqlp_build.specs.Productions.{BuildsMessage};

use crate::held::{FrameEvents, has_flag};
use crate::lists::Wanted;
use cqlp_grammar::result_kind;
use cqlp_message::Message;
use cqlp_note::{Field, Opcode};

impl FrameEvents {
    /// Takes the message of a frame of this opcode.
    pub fn message(&mut self, opcode: Opcode) -> Message
        ensures is { BuildsMessage opcode (message_of result) self.old self.new }
        ensures sized { IsSound self.new → IsSized self.new.cells_size (message_of result) }
    {
        match opcode {
            Opcode::Startup => self.startup(),
            Opcode::Options => Message::Options,
            Opcode::Query => self.query(),
            Opcode::Prepare => self.prepare(),
            Opcode::Execute => self.execute(),
            Opcode::Batch => self.batch(),
            Opcode::Register => self.register(),
            Opcode::AuthResponse => self.auth_response(),
            Opcode::Error => self.error(),
            Opcode::Ready => Message::Ready,
            Opcode::Authenticate => self.authenticate(),
            Opcode::Supported => self.supported(),
            Opcode::Result => self.result(),
            Opcode::Event => self.event(),
            Opcode::AuthChallenge => self.auth_challenge(),
            Opcode::AuthSuccess => self.auth_success(),
        }
    }

    /// Takes the options of a connection.
    fn startup(&mut self) -> Message
        ensures { BuildsMessage Opcode.Startup (message_of result) self.old self.new }
    {
        Message::Startup(self.counted(Field::Options, Wanted::PLAIN))
    }

    /// Takes a query by its text.
    fn query(&mut self) -> Message
        ensures { BuildsMessage Opcode.Query (message_of result) self.old self.new }
    {
        let text = self.text(Field::Query);
        let params = self.params();
        Message::Query { text, params }
    }

    /// Takes the text of a query to be prepared.
    fn prepare(&mut self) -> Message
        ensures { BuildsMessage Opcode.Prepare (message_of result) self.old self.new }
    {
        Message::Prepare(self.text(Field::Query))
    }

    /// Takes a query by the id of its prepared statement.
    fn execute(&mut self) -> Message
        ensures { BuildsMessage Opcode.Execute (message_of result) self.old self.new }
    {
        let id = self.statement();
        let params = self.params();
        Message::Execute { id, params }
    }

    /// Takes statements that are done together.
    fn batch(&mut self) -> Message
        ensures { BuildsMessage Opcode.Batch (message_of result) self.old self.new }
    {
        let kind = self.byte(Field::BatchType);
        let entries = self.counted(Field::Entries, Wanted::PLAIN);
        let consistency = self.short(Field::Consistency);
        let flags = self.byte(Field::BatchFlags);
        self.check(!has_flag(flags, 0x4F));
        let serial = self.serial_if(has_flag(flags, 0x10));
        let timestamp = self.timestamp_if(has_flag(flags, 0x20));
        Message::Batch {
            kind,
            entries,
            consistency,
            flags,
            serial,
            timestamp,
        }
    }

    /// Takes the types of the events that are asked for.
    fn register(&mut self) -> Message
        ensures { BuildsMessage Opcode.Register (message_of result) self.old self.new }
    {
        Message::Register(self.texts(Field::EventTypes, Field::EventType))
    }

    /// Takes an answer to a challenge.
    fn auth_response(&mut self) -> Message
        ensures { BuildsMessage Opcode.AuthResponse (message_of result) self.old self.new }
    {
        Message::AuthResponse(self.bytes(Field::Token))
    }

    /// Takes an error.
    fn error(&mut self) -> Message
        ensures { BuildsMessage Opcode.Error (message_of result) self.old self.new }
    {
        let code = self.int(Field::ErrorCode);
        let message = self.text(Field::Message);
        let extra = self.extra(code.cast_unsigned());
        Message::Error {
            code,
            message,
            extra,
        }
    }

    /// Takes the class of an authenticator.
    fn authenticate(&mut self) -> Message
        ensures { BuildsMessage Opcode.Authenticate (message_of result) self.old self.new }
    {
        Message::Authenticate(self.text(Field::Class))
    }

    /// Takes the supported options.
    fn supported(&mut self) -> Message
        ensures { BuildsMessage Opcode.Supported (message_of result) self.old self.new }
    {
        Message::Supported(self.counted(Field::Options, Wanted::PLAIN))
    }

    /// Takes a result.
    fn result(&mut self) -> Message
        ensures is { BuildsMessage Opcode.Result (message_of result) self.old self.new }
        ensures sized { IsSized self.new.cells_size (message_of result) }
    {
        let kind = self.int(Field::ResultKind);
        match kind.cast_unsigned() {
            result_kind::VOID => Message::Void,
            result_kind::SET_KEYSPACE => Message::SetKeyspace(self.text(Field::Keyspace)),
            result_kind::SCHEMA_CHANGE => Message::Change(self.change()),
            result_kind::PREPARED => Message::Prepared(self.prepared()),
            result_kind::ROWS => Message::Rows(self.page()),
            _ => Message::UnknownResult(kind),
        }
    }

    /// Takes an event.
    fn event(&mut self) -> Message
        ensures { BuildsMessage Opcode.Event (message_of result) self.old self.new }
    {
        let event = self.text(Field::EventType);
        let detail = self.detail(&event);
        Message::Event { event, detail }
    }

    /// Takes a challenge.
    fn auth_challenge(&mut self) -> Message
        ensures { BuildsMessage Opcode.AuthChallenge (message_of result) self.old self.new }
    {
        Message::AuthChallenge(self.bytes(Field::Token))
    }

    /// Takes the end of an authentication.
    fn auth_success(&mut self) -> Message
        ensures { BuildsMessage Opcode.AuthSuccess (message_of result) self.old self.new }
    {
        Message::AuthSuccess(self.bytes(Field::Token))
    }
}
