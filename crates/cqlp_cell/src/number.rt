//! Lengths and counts out of pieces.

ghost use Rattle.std.specs.Prelude.{◌≡◌, ◌+◌, ◌-◌, ◌<◌, ◌≤◌, false, true, length};
ghost use Rattle.std.specs.Int.{w32, cast_unsigned};
ghost use Rattle.cqlp_note.specs.Partial.{item_value};
ghost use Rattle.cqlp_cell.specs.Numbers.{Counts, IsCounting, IsNumberAt, WantsNumber, int_in};

use cqlp_note::{FieldAdvance, FieldOutline, Notation, Partial, Prim};
use std::alloc::Allocator;

/// What a piece of input makes of an \[int\].
#[derive(Clone, Copy)]
pub(crate) enum Number {
    /// It goes on after the input.
    More,
    /// It is whole after this many bytes of the input; the number is what its bytes are without a sign.
    Got { used: usize, number: u32 },
    /// Its container ends before it does.
    Overrun,
}

/// Takes the next bytes of an \[int\] from `start` in the input on. It begins here, at offset `at` in a container that
/// ends at `end`, or was begun before.
#[inline]
pub(crate) fn take_number<A: Allocator>(
    partial: &mut Partial<A>,
    begun: bool,
    at: u64,
    end: u64,
    start: usize,
    input: &[u8],
) -> Number
    requires under_way { IsCounting begun at (end - at) start partial.old }
    requires place { at ≤ end }
    requires within { start ≤ length input.now }
    ensures { Counts begun at (end - at) start partial.old input.now result partial.new }
{
    if begun {
        resume(partial, input)
    } else if end - at < 4 {
        Number::Overrun
    } else if let Some(bytes) = input[start..].first_chunk() {
        Number::Got {
            used: start + 4,
            number: u32::from_be_bytes(*bytes),
        }
    } else {
        begin(partial, at, end, &input[start..]);
        Number::More
    }
}

/// Takes the next bytes of an \[int\] that was begun before.
fn resume<A: Allocator>(partial: &mut Partial<A>, input: &[u8]) -> Number
    requires { IsCounting true partial.old.field.at partial.old.field.room 0 partial.old }
    ensures { Counts true partial.old.field.at partial.old.field.room 0 partial.old input.now result partial.new }
{
    match partial.advance(input) {
        FieldAdvance::More { .. } => Number::More,
        FieldAdvance::Got { used, item } => Number::Got {
            used,
            number: number_in(partial, input, item),
        },
        FieldAdvance::Refused(_) => unreachable!(),
    }
}

/// Begins an \[int\] that goes on after the input.
fn begin<A: Allocator>(partial: &mut Partial<A>, at: u64, end: u64, input: &[u8])
    requires idle { partial.old.under_way ≡ false }
    requires place { at + 4 ≤ end }
    requires short { length input.now < 4 }
    ensures { WantsNumber at (end - at) input.now partial.old partial.new }
{
    partial.begin(Notation::Int, 0, at, end);
    match partial.advance(input) {
        FieldAdvance::More { .. } => {}
        FieldAdvance::Got { .. } => unreachable!(),
        FieldAdvance::Refused(_) => unreachable!(),
    }
}

/// The unsigned number that the bytes of an \[int\] are.
fn number_in<A: Allocator>(partial: &Partial<A>, input: &[u8], item: FieldOutline) -> u32
    requires { IsNumberAt item input.now partial.now.content }
    ensures { result ≡ cast_unsigned w32 (int_in (item_value item input.now partial.now.content)) }
{
    match partial.lend(input, item) {
        Prim::Int(number) => number.cast_unsigned(),
        _ => unreachable!(),
    }
}
