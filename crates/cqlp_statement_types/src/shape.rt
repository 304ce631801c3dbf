//! What a type is, by its text.

use crate::name::{is_same, name_of};
use crate::schema::Schema;
use crate::split::{part, split};
use crate::token::{Token, tokens_of};
use cqlp_type::Kind;
use std::alloc::{AllocError, Global};

/// What a type is, with the texts of its inner types.
#[derive(Drop)]
pub(crate) enum Shape {
    /// A type of its own name.
    Plain(Kind),
    Composite(Composite, Vec<Vec<u8>>),
    /// Any other.
    Unknown,
}

/// A type with inner ones.
#[derive(Clone, Copy)]
pub(crate) enum Composite {
    List,
    Set,
    Map,
    Tuple,
    User,
}

/// What a type is, whose user-defined types are of this keyspace.
pub(crate) fn shape_of(
    alloc: Global,
    schema: &Schema,
    keyspace: &[u8],
    text: &[u8],
) -> Result<Shape, AllocError> {
    let Some(tokens) = tokens_of(alloc, text)? else {
        return Ok(Shape::Unknown);
    };
    match unfrozen(tokens.as_slice()) {
        [token] => named(alloc, schema, keyspace, *token),
        [
            Token::Word(name),
            Token::Sign(b'<'),
            inner @ ..,
            Token::Sign(b'>'),
        ] => applied(alloc, *name, inner),
        _ => Ok(Shape::Unknown),
    }
}

/// What is between `frozen<` and `>`, if a type is frozen.
fn unfrozen<'t, 'a>(tokens: &'t [Token<'a>]) -> &'t [Token<'a>] {
    let mut from: usize = 0;
    let mut to = tokens.len();
    for _ in 0..tokens.len() {
        if !is_frozen(part(tokens, from, to)) {
            return part(tokens, from, to);
        }
        from = from.saturating_add(2);
        to = to.saturating_sub(1);
    }
    part(tokens, from, to)
}

fn is_frozen(tokens: &[Token<'_>]) -> bool {
    match tokens {
        [Token::Word(name), Token::Sign(b'<'), .., Token::Sign(b'>')] => is_same(*name, b"frozen"),
        _ => false,
    }
}

/// Whether a value of a type is one cell: it is frozen, as a tuple is too, or of a plain type.
pub(crate) fn is_one_cell(tokens: &[Token<'_>]) -> bool {
    match tokens {
        [Token::Word(name)] => kind_of(*name).is_some(),
        [Token::Word(name), Token::Sign(b'<'), ..] => {
            is_same(*name, b"frozen") || is_same(*name, b"tuple")
        }
        _ => false,
    }
}

fn named(
    alloc: Global,
    schema: &Schema,
    keyspace: &[u8],
    token: Token<'_>,
) -> Result<Shape, AllocError> {
    if let Token::Word(name) = token {
        if let Some(kind) = kind_of(name) {
            return Ok(Shape::Plain(kind));
        }
    }
    let Some(name) = name_of(alloc, token)? else {
        return Ok(Shape::Unknown);
    };
    match schema.fields_of(keyspace, name.as_slice())? {
        Some(fields) => Ok(Shape::Composite(Composite::User, copies_of(alloc, fields)?)),
        None => Ok(Shape::Unknown),
    }
}

fn copies_of(alloc: Global, texts: &[Vec<u8>]) -> Result<Vec<Vec<u8>>, AllocError> {
    let mut copies = Vec::new(alloc);
    for text in texts {
        copies.push(Vec::from_slice(alloc, text.as_slice())?)?;
    }
    Ok(copies)
}

fn applied(alloc: Global, name: &[u8], inner: &[Token<'_>]) -> Result<Shape, AllocError> {
    let Some(items) = split(alloc, inner)? else {
        return Ok(Shape::Unknown);
    };
    match composite_named(name, items.len()) {
        Some(composite) => Ok(Shape::Composite(composite, texts_of(alloc, items.as_slice())?)),
        None => Ok(Shape::Unknown),
    }
}

/// The type with this name that has so many inner ones.
fn composite_named(name: &[u8], count: usize) -> Option<Composite> {
    match count {
        _ if is_same(name, b"tuple") => Some(Composite::Tuple),
        1 if is_same(name, b"list") => Some(Composite::List),
        1 if is_same(name, b"set") => Some(Composite::Set),
        2 if is_same(name, b"map") => Some(Composite::Map),
        _ => None,
    }
}

fn texts_of(alloc: Global, items: &[&[Token<'_>]]) -> Result<Vec<Vec<u8>>, AllocError> {
    let mut texts = Vec::new(alloc);
    for item in items {
        texts.push(text_of(alloc, *item)?)?;
    }
    Ok(texts)
}

/// The text of some tokens.
fn text_of(alloc: Global, tokens: &[Token<'_>]) -> Result<Vec<u8>, AllocError> {
    let mut text = Vec::new(alloc);
    for token in tokens {
        match *token {
            Token::Word(word) => text.extend_from_slice(word)?,
            Token::Quoted(name) => {
                text.push(b'"')?;
                text.extend_from_slice(name)?;
                text.push(b'"')?;
            }
            Token::Text => text.extend_from_slice(b"''")?,
            Token::Sign(byte) => text.push(byte)?,
        }
        text.push(b' ')?;
    }
    Ok(text)
}

/// The plain types by their names.
const KINDS: [(&[u8], Kind); 20] = [
    (b"ascii", Kind::Ascii),
    (b"bigint", Kind::Bigint),
    (b"blob", Kind::Blob),
    (b"boolean", Kind::Boolean),
    (b"counter", Kind::Counter),
    (b"date", Kind::Date),
    (b"decimal", Kind::Decimal),
    (b"double", Kind::Double),
    (b"float", Kind::Float),
    (b"inet", Kind::Inet),
    (b"int", Kind::Int),
    (b"smallint", Kind::Smallint),
    (b"text", Kind::Varchar),
    (b"time", Kind::Time),
    (b"timestamp", Kind::Timestamp),
    (b"timeuuid", Kind::Timeuuid),
    (b"tinyint", Kind::Tinyint),
    (b"uuid", Kind::Uuid),
    (b"varchar", Kind::Varchar),
    (b"varint", Kind::Varint),
];

/// The plain type with this name.
pub(crate) fn kind_of(name: &[u8]) -> Option<Kind> {
    for (own, kind) in &KINDS {
        if is_same(name, *own) {
            return Some(*kind);
        }
    }
    None
}
