//! Laws of events that C passes. No code needs them.

ghost use Rattle.std.specs.Prelude.{◌≡◌, length, true};
ghost use Rattle.std.specs.Str.{is_utf8};
ghost use Rattle.cqlp_note.specs.Spelling.{HasItsLength};
ghost use Rattle.cqlp_grammar.specs.Events.{event_of};
ghost use Rattle.cqlp_kind.specs.Contents.{value_of};
ghost use Rattle.cqlp_kind.specs.Scalars.{IsInRange};
ghost use Rattle.cqlp_c.specs.EncodeLaws.{AllAreReadBack, HandedBackIsRead};
ghost use Rattle.cqlp_c.specs.FromCLaws.{AreReadBack, EventIsInRange};

use cqlp_grammar::Event;
use cqlp_kind::Scalar;
use cqlp_note::Address;

/// What `cqlp_next` puts for an event, read back with its content, is that event, and leaves the contents of the others. A part alone cannot
/// be read back.
pub fn read_back()
    ensures { AreReadBack }
{}

/// What `cqlp_encode` makes of the events that `cqlp_next` put of a frame, with their contents one after the other, is what a `Composer` makes of
/// the events that the decoder said.
pub fn all_read_back()
    ensures { AllAreReadBack }
{}

/// A frame that was read, and whose events are handed back to `cqlp_encode` as they were put, is read again as the same header, but for its length,
/// and the same fields.
pub fn handed_back_is_read()
    ensures { HandedBackIsRead }
{}

/// What an event that is handed out holds is in the range of its types, so that `read_back` speaks of all of them.
pub fn events_are_in_range(event: &Event<'_>)
    ensures { EventIsInRange (event_of event.now) }
{
    match *event {
        Event::Frame(header) => {
            let _read = header.stream;
        }
        Event::Byte { value, .. } => {
            let _read = value;
        }
        Event::Short { value, .. } => {
            let _read = value;
        }
        Event::Int { value, .. } => {
            let _read = value;
        }
        Event::Uuid { value, .. } => sixteen_bytes(value),
        Event::Count { count, .. } => {
            let _read = count;
        }
        Event::Text { text, .. } => text_is_utf8(text),
        Event::Inet { address, .. } => address_has_its_length(address),
        Event::Leaf { scalar, .. } => scalar_is_in_range(&scalar),
        Event::Enter { items, .. } | Event::Leave { items, .. } => {
            let _read = items;
        }
        Event::Long { .. } | Event::Bytes { .. } | Event::Bound { .. } | Event::TypeNode(_) => {}
        Event::Null { .. } | Event::Empty { .. } | Event::Part { .. } | Event::End { .. } => {}
    }
}

/// The same of a scalar.
fn scalar_is_in_range(scalar: &Scalar<'_>)
    ensures { IsInRange (value_of scalar.now) }
{
    match *scalar {
        Scalar::Ascii(text) | Scalar::Varchar(text) => text_is_utf8(text),
        Scalar::Bigint(number)
        | Scalar::Counter(number)
        | Scalar::Timestamp(number)
        | Scalar::Time(number) => {
            let _read = number;
        }
        Scalar::Decimal { scale, .. } => {
            let _read = scale;
        }
        Scalar::Double(bytes) => eight_bytes(bytes),
        Scalar::Float(bytes) => four_bytes(bytes),
        Scalar::Int(number) => {
            let _read = number;
        }
        Scalar::Uuid(bytes) | Scalar::Timeuuid(bytes) => sixteen_bytes(bytes),
        Scalar::Inet(address) => address_has_its_length(address),
        Scalar::Date(number) => {
            let _read = number;
        }
        Scalar::Smallint(number) => {
            let _read = number;
        }
        Scalar::Tinyint(number) => {
            let _read = number;
        }
        Scalar::Custom(_) | Scalar::Blob(_) | Scalar::Boolean(_) | Scalar::Varint(_) => {}
        Scalar::Raw(_) => {}
    }
}

/// The same of an address.
fn address_has_its_length(address: Address)
    ensures { HasItsLength address }
{
    match address {
        Address::V4(bytes) => four_bytes(bytes),
        Address::V6(bytes) => sixteen_bytes(bytes),
    }
}

/// The same of arrays of these lengths.
fn four_bytes(bytes: [u8; 4])
    ensures { length bytes ≡ 4 }
{}

fn eight_bytes(bytes: [u8; 8])
    ensures { length bytes ≡ 8 }
{}

fn sixteen_bytes(bytes: [u8; 16])
    ensures { length bytes ≡ 16 }
{}

/// The same of a text.
fn text_is_utf8(text: &str)
    ensures { is_utf8 text.now ≡ true }
{
    let _read = text;
}
