//! Contents out of pieces.

ghost use Rattle.std.specs.Prelude.{◌≡◌, ◌+◌, ◌<◌, ◌≤◌, ◌^◌, Some, [], false, true, length};
ghost use Rattle.cqlp_note.specs.Field.{Bytes};
ghost use Rattle.cqlp_note.specs.Partial.{item_value};
ghost use Rattle.cqlp_cell.specs.Items.{LieAt};
ghost use Rattle.cqlp_cell.specs.Gathering.{Gathers, IsGathering, Wants};

use cqlp_note::{ContentForm, ContentPlace, FieldAdvance, FieldOutline, Notation, Partial, Prim};
use std::alloc::Allocator;

/// A content that is whole after this many bytes of the input.
#[derive(Clone, Copy)]
pub(crate) struct Found {
    pub used: usize,
    pub content: FieldOutline,
}

/// Takes the next bytes of a content of `len` bytes from `start` in the input on. It begins here, at offset `at` in the
/// stream, or was begun before. A content that lies whole in the input is not copied.
#[inline]
pub(crate) fn gather<A: Allocator>(
    partial: &mut Partial<A>,
    begun: bool,
    len: u32,
    at: u64,
    start: usize,
    input: &[u8],
) -> Option<Found>
    requires under_way { IsGathering begun len at start partial.old }
    requires fits { len ≤ partial.old.room }
    requires place { at + len < 2 ^ 64 }
    requires within { start ≤ length input.now }
    ensures { Gathers begun len at start partial.old input.now result partial.new }
{
    if begun {
        resume(partial, len, input)
    } else if input.len() - start < len as usize {
        begin(partial, len, at, &input[start..]);
        None
    } else {
        empty(partial);
        Some(Found {
            used: start + len as usize,
            content: FieldOutline::Content {
                form: ContentForm::Bytes,
                lies: ContentPlace::InInput {
                    start,
                    len: len as usize,
                },
            },
        })
    }
}

/// Takes the next bytes of a content that was begun before.
#[tactic(auto, using(crate::proofs::Gathered::content_waits, crate::proofs::Gathered::content_got, crate::proofs::Gathered::content_never))]
fn resume<A: Allocator>(partial: &mut Partial<A>, len: u32, input: &[u8]) -> Option<Found>
    requires { IsGathering true len partial.old.field.at 0 partial.old }
    ensures { Gathers true len partial.old.field.at 0 partial.old input.now result partial.new }
{
    match partial.advance(input) {
        FieldAdvance::More { .. } => None,
        FieldAdvance::Got { used, item } => Some(Found {
            used,
            content: item,
        }),
        FieldAdvance::Refused(_) => unreachable!(),
    }
}

/// Begins a content that goes on after the input.
#[tactic(auto, using(crate::proofs::Gathered::content_short))]
fn begin<A: Allocator>(partial: &mut Partial<A>, len: u32, at: u64, input: &[u8])
    requires idle { partial.old.under_way ≡ false }
    requires fits { len ≤ partial.old.room }
    requires place { at + len < 2 ^ 64 }
    requires short { length input.now < len }
    ensures { Wants len at input.now partial.old partial.new }
{
    partial.begin(Notation::Content(len), len, at, at + u64::from(len));
    match partial.advance(input) {
        FieldAdvance::More { .. } => {}
        FieldAdvance::Got { .. } => unreachable!(),
        FieldAdvance::Refused(_) => unreachable!(),
    }
}

/// Empties the buffer.
#[inline]
pub(crate) fn empty<A: Allocator>(partial: &mut Partial<A>)
    requires { partial.old.under_way ≡ false }
    ensures idle { partial.new.under_way ≡ false }
    ensures empty { partial.new.content ≡ [] }
    ensures room { partial.new.room ≡ partial.old.room }
{
    if partial.held() > 0 {
        clear(partial);
    }
}

/// Empties the buffer by a content without bytes.
#[tactic(auto, using(crate::proofs::Gathered::content_waits, crate::proofs::Gathered::content_got, crate::proofs::Gathered::content_never))]
fn clear<A: Allocator>(partial: &mut Partial<A>)
    requires { partial.old.under_way ≡ false }
    ensures idle { partial.new.under_way ≡ false }
    ensures empty { partial.new.content ≡ [] }
    ensures room { partial.new.room ≡ partial.old.room }
{
    partial.begin(Notation::Content(0), 0, 0, 0);
    match partial.advance(&[]) {
        FieldAdvance::More { .. } => unreachable!(),
        FieldAdvance::Got { .. } => {}
        FieldAdvance::Refused(_) => unreachable!(),
    }
}

/// The bytes that lie there.
#[inline]
pub(crate) fn lend_bytes<'a, A: Allocator>(
    partial: &'a Partial<A>,
    input: &'a [u8],
    content: FieldOutline,
) -> &'a [u8]
    requires { LieAt content input.now partial.now.content }
    ensures { item_value content input.now partial.now.content ≡ Bytes (Some result.now) }
{
    match partial.lend(input, content) {
        Prim::Bytes(Some(bytes)) => bytes,
        _ => unreachable!(),
    }
}
