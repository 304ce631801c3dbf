//! What a piece of input makes of a field.

use crate::head::ContentForm;
use crate::prim::Primitive;
use crate::refusal::Refusal;

/// How far a field is.
#[derive(Clone, Copy)]
pub(crate) enum FieldStage {
    /// None is under way.
    Idle,
    /// What goes before its content is under way.
    Front,
    /// Its content of this length is under way.
    Content { len: u32, form: ContentForm },
}

/// Where a content lies.
#[derive(Clone, Copy)]
pub enum ContentPlace {
    /// This many bytes of the input, from an index on.
    InInput { start: usize, len: usize },
    /// All that the buffer holds.
    InBuffer,
}

/// What a field holds, or where.
#[derive(Clone, Copy)]
pub enum FieldOutline {
    /// A value without content.
    Plain(Primitive<'static>),
    /// What is made of the content that lies there.
    Content {
        form: ContentForm,
        lies: ContentPlace,
    },
}

/// What a piece of input made of a field, with nothing borrowed.
#[derive(Clone, Copy)]
pub enum FieldAdvance {
    /// All of it was used, and the field goes on.
    More { used: usize },
    /// This many of its bytes end the field.
    Got { used: usize, item: FieldOutline },
    /// The field ends, since it is refused.
    Refused(Refusal),
}

/// What a piece of input made of a field.
#[derive(Clone, Copy)]
pub enum Push<'a> {
    /// All of it was used, and the field goes on.
    More { used: usize },
    /// This many of its bytes end the field.
    Got { used: usize, prim: Primitive<'a> },
    /// The field ends, since it is refused.
    Refused(Refusal),
}
