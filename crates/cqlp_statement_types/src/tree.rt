//! Types as trees, by their texts.

use crate::schema::Schema;
use crate::shape::{Composite, Shape, shape_of};
use cqlp_type::{Kind, TypeTree};
use std::alloc::{AllocError, Global};

/// How many types a statement has at most, inner ones among them: as many as a decoder takes.
const MOST: u32 = 4_096;

/// How many types are around a plain one at most.
const DEEPEST: u32 = 15;

/// The types of a statement's columns, as far as they were read.
#[derive(Drop)]
pub(crate) struct Trees<'a> {
    alloc: Global,
    schema: &'a Schema,
    /// The keyspace of user-defined types.
    keyspace: &'a [u8],
    trees: Vec<TypeTree>,
    /// How many more there may be, inner ones among them.
    left: u32,
    /// Whether there were more.
    is_over: bool,
}

impl<'a> Trees<'a> {
    /// No types.
    pub(crate) fn new(alloc: Global, schema: &'a Schema, keyspace: &'a [u8]) -> Self {
        Trees {
            alloc,
            schema,
            keyspace,
            trees: Vec::new(alloc),
            left: MOST,
            is_over: false,
        }
    }

    /// The types, if there are some, and not too many.
    pub(crate) fn finish(self) -> Option<Vec<TypeTree>> {
        let Trees {
            alloc: _,
            schema: _,
            keyspace: _,
            trees,
            left: _,
            is_over,
        } = self;
        if is_over || trees.is_empty() {
            None
        } else {
            Some(trees)
        }
    }

    /// Adds a plain type.
    pub(crate) fn add_plain(&mut self, kind: Kind) -> Result<(), AllocError> {
        self.count();
        self.trees.push(TypeTree::Plain(kind))?;
        Ok(())
    }

    /// Adds a type of which nothing is known.
    pub(crate) fn add_unknown(&mut self) -> Result<(), AllocError> {
        self.add_plain(Kind::Blob)
    }

    /// Adds the type of a text.
    pub(crate) fn add(&mut self, text: &[u8]) -> Result<(), AllocError> {
        let tree = self.read(text, DEEPEST)?;
        self.trees.push(tree)?;
        Ok(())
    }

    /// Says that there is one more.
    fn count(&mut self) {
        if self.left == 0 {
            self.is_over = true;
        } else {
            self.left -= 1;
        }
    }

    /// The type of a text, with at most so many others around a plain one.
    #[cycle(read)]
    fn read(&mut self, text: &[u8], depth: u32) -> Result<TypeTree, AllocError> {
        self.count();
        if self.is_over {
            return Ok(unknown());
        }
        match shape_of(self.alloc, self.schema, self.keyspace, &*text)? {
            Shape::Plain(kind) => Ok(TypeTree::Plain(kind)),
            Shape::Composite(composite, texts) if depth > 0 => {
                let trees = self.read_all(texts.as_slice(), depth - 1)?;
                tree_of(self.alloc, composite, trees)
            }
            Shape::Composite(..) | Shape::Unknown => Ok(unknown()),
        }
    }

    #[cycle(read)]
    fn read_all(&mut self, texts: &[Vec<u8>], depth: u32) -> Result<Vec<TypeTree>, AllocError> {
        let mut trees = Vec::new(self.alloc);
        for text in texts {
            trees.push(self.read(text.as_slice(), depth)?)?;
        }
        Ok(trees)
    }
}

/// A type of which nothing is known: its cells are written as raw ones are.
fn unknown() -> TypeTree {
    TypeTree::Plain(Kind::Blob)
}

/// A type with these inner ones.
fn tree_of(
    alloc: Global,
    composite: Composite,
    mut trees: Vec<TypeTree>,
) -> Result<TypeTree, AllocError> {
    match composite {
        Composite::List => Ok(TypeTree::List(last_of(alloc, &mut trees)?)),
        Composite::Set => Ok(TypeTree::Set(last_of(alloc, &mut trees)?)),
        Composite::Map => {
            let value = last_of(alloc, &mut trees)?;
            Ok(TypeTree::Map(last_of(alloc, &mut trees)?, value))
        }
        Composite::Tuple => Ok(TypeTree::Tuple(trees)),
        Composite::User => user_type(alloc, trees),
    }
}

fn last_of(alloc: Global, trees: &mut Vec<TypeTree>) -> Result<Box<TypeTree>, AllocError> {
    let last = match trees.pop() {
        Some(last) => last,
        None => unknown(),
    };
    Ok(Box::new(alloc, last)?)
}

/// A user-defined type. Its names say nothing of its cells, and are left out.
fn user_type(alloc: Global, trees: Vec<TypeTree>) -> Result<TypeTree, AllocError> {
    let mut fields = Vec::new(alloc);
    for tree in trees {
        fields.push((String::new(alloc), tree))?;
    }
    Ok(TypeTree::Udt {
        keyspace: String::new(alloc),
        name: String::new(alloc),
        fields,
    })
}
