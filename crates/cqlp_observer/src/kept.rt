//! What is kept of a message.

ghost use Rattle.std.specs.Prelude.{◌≡◌, ◌≤◌, ◌-◌, ◌++◌, [], IfOk, length, take};
ghost use Rattle.cqlp_observer.specs.Announcements.{announced_of};
ghost use Rattle.cqlp_observer.specs.Keeping.{announced_bytes, announced_cost, announces_warnings};

use crate::subject::has;
use cqlp_note::Header;
use cqlp_observer_facts::Facts;
use std::alloc::{AllocError, Allocator, Global};
use std::marker::Model;

/// How many bytes are kept at most of a message proper, and of what lies before it.
pub const LONGEST_FRONT: usize = 256;

/// How many bytes of room a message's text takes beside its first bytes, at least: what it says, and what the allocator adds.
const TEXT_OVERHEAD: usize = 128;

/// How many bytes of room the bytes before a message take beside these, at least.
const ANNOUNCED_OVERHEAD: usize = 64;

/// What is kept of a message, as far as none of its bytes is missing before it. Without it a message has its header alone.
#[derive(Drop)]
pub struct Kept<A: Allocator = Global> {
    text: Option<Box<KeptText<A>, A>>,
}

/// The first bytes of a message, and what it says.
#[derive(Drop)]
pub(crate) struct KeptText<A: Allocator> {
    front: Front<A>,
    announced: Announced<A>,
    facts: Facts,
}

/// The first bytes that lie before a message; none are kept, and no memory is taken, where no warnings are among them.
pub(crate) type Announced<A> = Option<Box<Front<A>, A>>;

impl<A: Allocator> Model for Kept<A> {
    ghost use Rattle.cqlp_observer.specs.Keeping.{Kept};
    ghost use Rattle.cqlp_observer.specs.KeptTexts.{kept_of};

    ghost Value = { Kept };

    ghost view = { λ k. kept_of k.text };
}

impl<A: Allocator> Kept<A> {
    ghost use Rattle.std.specs.Prelude.{false};
    ghost use Rattle.cqlp_observer.specs.Keeping.{bare_kept, cost_of, kept};

    /// These first bytes of the message and before it, and what the message says.
    #[inline(always)]
    pub(crate) fn new(
        alloc: A,
        front: Front<A>,
        announced: Announced<A>,
        facts: Facts,
    ) -> Result<Self, AllocError>
        ensures { IfOk result (λ k. k ≡ kept front (announced_of announced) facts false) }
    {
        let text = KeptText {
            front,
            announced,
            facts,
        };
        Ok(Kept {
            text: Some(Box::new(alloc, text)?),
        })
    }

    /// Nothing. Takes no memory.
    #[inline(always)]
    pub(crate) fn bare() -> Self
        ensures { result ≡ bare_kept }
    {
        Kept { text: None }
    }

    /// The first bytes of the message proper, at most [`LONGEST_FRONT`], behind what the header's flags announce before it: a tracing id, warnings and
    /// a custom payload. Section 2.2 of `native_protocol_v4.spec`. Where the body is compressed, its first bytes as they are. None where they were
    /// dropped.
    #[inline(always)]
    pub fn front(&self) -> &[u8]
        ensures { result.now ≡ self.now.front }
    {
        match &self.text {
            Some(text) => text.front.as_slice(),
            None => &[],
        }
    }

    /// The first bytes that lie before the message proper, at most [`LONGEST_FRONT`], of a response with warnings: its tracing id, if it has one,
    /// its warnings and a custom payload. None of any other message, where the body is compressed, and where they were dropped.
    #[inline(always)]
    pub fn announced(&self) -> &[u8]
        ensures { result.now ≡ announced_bytes self.now.announced }
    {
        match &self.text {
            Some(text) => announced_bytes(&text.announced),
            None => &[],
        }
    }

    /// What the message says; nothing where the body is compressed, or where that was dropped.
    #[inline(always)]
    pub fn facts(&self) -> Facts
        ensures { result ≡ self.now.facts }
    {
        match &self.text {
            Some(text) => text.facts,
            None => Facts::new(),
        }
    }

    /// Whether the first bytes and what the message says were dropped, since there was no room for them.
    pub fn is_text_dropped(&self) -> bool
        ensures { result ≡ self.now.is_text_dropped }
    {
        self.text.is_none()
    }

    /// How many bytes of room it takes.
    #[inline(always)]
    pub(crate) fn cost(&self) -> usize
        ensures { result ≡ cost_of self.now }
    {
        match &self.text {
            Some(text) => TEXT_OVERHEAD + text.front.len() + announced_cost(&text.announced),
            None => 0,
        }
    }
}

/// Whether a message with this header has warnings that are to be seen. Section 2.2 of `native_protocol_v4.spec`.
#[inline(always)]
pub(crate) fn announces_warnings(header: &Header) -> bool
    ensures { result ≡ announces_warnings header.now }
{
    if has(header.flags, 0x01) {
        return false;
    }
    header.response && has(header.flags, 0x08)
}

#[inline(always)]
fn announced_bytes<A: Allocator>(announced: &Announced<A>) -> &[u8]
    ensures { result.now ≡ announced_bytes (announced_of announced.now) }
{
    match announced {
        Some(bytes) => bytes.as_slice(),
        None => &[],
    }
}

/// How many bytes of room they take.
#[inline(always)]
fn announced_cost<A: Allocator>(announced: &Announced<A>) -> usize
    ensures is { result ≡ announced_cost (announced_of announced.now) }
    ensures few { result ≤ 320 }
{
    match announced {
        Some(bytes) => ANNOUNCED_OVERHEAD + bytes.len(),
        None => 0,
    }
}

/// The first bytes of a message, or of what lies before it, at most [`LONGEST_FRONT`].
#[derive(Drop)]
pub(crate) struct Front<A: Allocator> {
    bytes: Vec<u8, A>,
}

impl<A: Allocator> Model for Front<A> {
    ghost use Rattle.std.specs.Prelude.{List, ℕ, ◌≤◌, length};

    ghost Value = { List ℕ };

    ghost view = { λ front. front.bytes.items };

    ghost invariant = { λ front. length front.bytes.items ≤ 256 };
}

impl<A: Allocator> Front<A> {
    /// No byte, and no memory.
    #[inline(always)]
    pub(crate) fn new(alloc: A) -> Self
        ensures { result ≡ [] }
    {
        Front {
            bytes: Vec::new(alloc),
        }
    }

    #[inline(always)]
    pub(crate) fn as_slice(&self) -> &[u8]
        ensures { result.now ≡ self.now }
    {
        &self.bytes
    }

    #[inline(always)]
    pub(crate) fn len(&self) -> usize
        ensures is { result ≡ length self.now }
        ensures few { result ≤ 256 }
    {
        self.bytes.len()
    }

    /// Keeps as many of these bytes behind the others as there is room for. Takes memory for these alone.
    pub(crate) fn add(&mut self, input: &[u8]) -> Result<(), AllocError>
        ensures { IfOk result (λ _. self.new ≡ self.old ++ take (256 - length self.old) input.now) }
    {
        let moved = input.len().min(256 - self.bytes.len());
        self.bytes.reserve_exact(moved)?;
        self.bytes.extend_from_slice(&input[..moved])
    }
}
