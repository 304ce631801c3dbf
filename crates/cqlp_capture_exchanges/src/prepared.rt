//! Statements that were prepared: their texts by their ids.

ghost use Rattle.std.specs.Prelude.{◌≡◌, ◌≤◌, [], drop, length, option_map, vec_capacity, IfOk};
ghost use Rattle.std.specs.List.{list_any};
ghost use Rattle.std.specs.Str.{bytes_eq};
ghost use Rattle.cqlp_capture_exchanges.specs.Prepared.{has_news, id_of_said, is_news, is_of, known_from, known_with, named, named_id, prepared_id};
ghost use Rattle.cqlp_capture_exchanges.specs.Prepared.{known_of, known_text, prepared_front, response_for, said_in, text_for, with_one_more};
ghost use Rattle.cqlp_capture_exchanges.specs.Statements.{said_of, short_bytes};
ghost use Rattle.cqlp_statement_file.specs.Texts.{text_of};

use crate::reply::{Reply, reply_of};
use crate::statement::{Statement, short_bytes, statement_of};
use cqlp_note::Opcode;
use cqlp_observer::{Kept, Message, Paired};
use cqlp_statement_file::StatementTexts;
use std::alloc::{AllocError, Allocator, Global};
use std::marker::Model;

/// How many statements that were prepared are known at most.
const MOST: usize = 256;

/// A PREPARE, and the response that gives its statement an id.
#[derive(Drop)]
pub(crate) struct Preparation<A: Allocator = Global> {
    pub(crate) request: Message<Kept<A>>,
    pub(crate) response: Message<Kept<A>>,
}

impl<A: Allocator> Model for Preparation<A> {
    ghost use Rattle.cqlp_capture_exchanges.specs.Prepared.{Preparation, preparation};

    ghost Value = { Preparation };

    ghost view = { λ p. preparation p.request p.response };
}

impl<A: Allocator> Preparation<A> {
    /// Whether its statement has this id.
    fn is_of(&self, id: &[u8]) -> bool
        ensures { result ≡ is_of id.now self.now }
    {
        match prepared_id(&self.response) {
            Some(own) => same_bytes(own, id),
            None => false,
        }
    }
}

pub(crate) fn same_bytes(a: &[u8], b: &[u8]) -> bool
    ensures { result ≡ bytes_eq a.now b.now }
{
    a == b
}

/// The id that a response gives to a statement, a RESULT of the kind Prepared. Section 4.2.5.4 of `native_protocol_v4.spec`.
fn prepared_id<A: Allocator>(response: &Message<Kept<A>>) -> Option<&[u8]>
    ensures { option_map (λ id. id.now) result ≡ prepared_id response.now }
{
    let header = &response.frame.header;
    let front = response.kept.front();
    match reply_of(header, front) {
        Reply::Result(kind) if kind == 4 => whole_id(after_number(front)),
        _ => None,
    }
}

/// What comes after the first number of a response.
pub(crate) fn after_number(front: &[u8]) -> &[u8]
    ensures { result.now ≡ drop 4 front.now }
{
    &front[front.len().min(4)..]
}

/// A \[short bytes\] at the front, if it is there whole.
pub(crate) fn whole_id(bytes: &[u8]) -> Option<&[u8]>
    ensures { option_map (λ id. id.now) result ≡ id_of_said (short_bytes bytes.now) }
{
    match short_bytes(bytes) {
        Some(Statement::Id { id, is_whole: true }) => Some(id),
        _ => None,
    }
}

/// The text of the statement with this id, if it is known.
fn text_for<'a, A: Allocator>(known: &'a [Preparation<A>], id: &[u8]) -> Option<Statement<'a>>
    ensures { option_map said_of result ≡ text_for known.now id.now }
{
    for one in known {
        if one.is_of(id) {
            return statement_of(&one.request.frame.header, one.request.kept.front());
        }
    }
    None
}

/// Statements whose texts are known.
#[derive(Drop)]
pub(crate) struct Known<A: Allocator = Global> {
    /// Those that were prepared, each by the first PREPARE whose response gave its id; of too many the one goes whose id came first.
    prepared: Vec<Preparation<A>, A>,
    given: StatementTexts,
}

impl<A: Allocator> Model for Known<A> {
    ghost use Rattle.std.specs.Prelude.{◌≡◌, ◌≤◌, length, vec_capacity};
    ghost use Rattle.cqlp_capture_exchanges.specs.Prepared.{Known, known_of};

    ghost Value = { Known };

    ghost view = { λ k. known_of k.prepared.items k.given };

    ghost invariant = { λ k. (length k.prepared.items ≤ 256) × (vec_capacity k.prepared ≡ 256) };
}

impl<A: Allocator> Known<A> {
    /// Those that were given, with room for those that are prepared.
    pub(crate) fn new(alloc: A, given: StatementTexts) -> Result<Self, AllocError>
        ensures { IfOk result (λ k. k ≡ known_of [] given) }
    {
        let prepared = Vec::with_capacity(alloc, MOST)?;
        Ok(Known { prepared, given })
    }

    /// The first bytes of the response that gave the statement which a request asks for by its id, if that was prepared.
    pub(crate) fn prepared_front(&self, said: Option<Statement<'_>>) -> &[u8]
        ensures { result.now ≡ prepared_front self.now.prepared (option_map said_of said.entry) }
    {
        match said {
            Some(Statement::Id { id, is_whole: true }) => response_for(&self.prepared, id),
            _ => &[],
        }
    }

    /// Keeps the statement that these messages prepare, with its id, if they prepare one that is not known. They are moved only then.
    pub(crate) fn learn(&mut self, exchange: &mut Option<Paired<Kept<A>>>)
        ensures { self.new ≡ known_from exchange.old self.old }
    {
        if has_news(&self.prepared, exchange) {
            self.add(exchange.take());
        }
    }

    /// Keeps the statement that these messages prepare, if they are a request and its response.
    #[cold]
    fn add(&mut self, exchange: Option<Paired<Kept<A>>>)
        ensures { self.new ≡ known_with exchange self.old }
    {
        match exchange {
            Some(Paired::Exchange { request, response }) => {
                add_known(&mut self.prepared, Preparation { request, response });
            }
            Some(Paired::Unanswered { .. } | Paired::Unasked { .. } | Paired::Event { .. })
            | None => {}
        }
    }

    /// The text of the statement with this id, if it is known.
    fn text(&self, id: &[u8]) -> Option<Statement<'_>>
        ensures { option_map said_of result ≡ known_text self.now id.now }
    {
        match text_for(&self.prepared, id) {
            Some(text) => Some(text),
            None => text_given(&self.given, id),
        }
    }
}

/// The text of the statement with this id, if it was given.
fn text_given<'a>(given: &'a StatementTexts, id: &[u8]) -> Option<Statement<'a>>
    ensures { option_map said_of result ≡ said_in (text_of given.now id.now) }
{
    match given.get(id) {
        Some(text) => Some(Statement::Text {
            text: text.as_str(),
            is_whole: text.is_whole(),
        }),
        None => None,
    }
}

/// What a request asks to be done, with the text of a statement that is known in place of its id.
pub(crate) fn named<'a, A: Allocator>(
    known: &'a Known<A>,
    said: Option<Statement<'a>>,
) -> Option<Statement<'a>>
    ensures { option_map said_of result ≡ named known.now (option_map said_of said.entry) }
{
    match said {
        Some(Statement::Id { id, is_whole: true }) => text_or_id(known, id),
        _ => said,
    }
}

fn text_or_id<'a, A: Allocator>(known: &'a Known<A>, id: &'a [u8]) -> Option<Statement<'a>>
    ensures { option_map said_of result ≡ named_id known.now id.now }
{
    match known.text(id) {
        Some(text) => Some(text),
        None => Some(Statement::Id { id, is_whole: true }),
    }
}

/// The first bytes of the response that gave the statement with this id, if it is known.
fn response_for<'a, A: Allocator>(known: &'a [Preparation<A>], id: &[u8]) -> &'a [u8]
    ensures { result.now ≡ response_for known.now id.now }
{
    for one in known {
        if one.is_of(id) {
            return one.response.kept.front();
        }
    }
    &[]
}

/// Whether these are a PREPARE and its response, which gives its statement an id that is not known.
fn has_news<A: Allocator>(known: &[Preparation<A>], exchange: &Option<Paired<Kept<A>>>) -> bool
    ensures { result ≡ has_news known.now exchange.now }
{
    match exchange {
        Some(Paired::Exchange { request, response }) => is_news(known, request, response),
        Some(Paired::Unanswered { .. } | Paired::Unasked { .. } | Paired::Event { .. }) | None => {
            false
        }
    }
}

/// Whether a request is a PREPARE and its response gives its statement an id that is not known.
fn is_news<A: Allocator>(
    known: &[Preparation<A>],
    request: &Message<Kept<A>>,
    response: &Message<Kept<A>>,
) -> bool
    ensures { result ≡ is_news known.now request.now response.now }
{
    request.frame.header.opcode == Opcode::Prepare && !is_known(known, prepared_id(response))
}

ghost use Rattle.cqlp_capture_exchanges.specs.Prepared.{is_known};

/// Whether a statement has this id, or there is none.
fn is_known<A: Allocator>(known: &[Preparation<A>], id: Option<&[u8]>) -> bool
    ensures { result ≡ is_known known.now (option_map (λ id. id.now) id.entry) }
{
    match id {
        Some(id) => has_id(known, id),
        None => true,
    }
}

fn has_id<A: Allocator>(known: &[Preparation<A>], id: &[u8]) -> bool
    ensures { result ≡ list_any (is_of id.now) known.now }
{
    known.iter().any(|one| one.is_of(id))
}

/// Puts a statement behind the others; where there are too many, the first one goes.
fn add_known<A: Allocator>(known: &mut Vec<Preparation<A>, A>, one: Preparation<A>)
    requires few { length known.old.items ≤ 256 }
    requires room { 256 ≤ vec_capacity known.old }
    ensures items { known.new.items ≡ with_one_more one known.old.items }
    ensures few { length known.new.items ≤ 256 }
    ensures capacity { vec_capacity known.new ≡ vec_capacity known.old }
{
    if known.len() >= MOST {
        let _ = known.remove(0);
    }
    known.push_reserved(one);
}
