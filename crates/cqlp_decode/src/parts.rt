//! The parts of a decoder that own memory.

use cqlp_cell::CellReader;
use cqlp_note::Partial;
use cqlp_type::{TypeReader, TypeTable};
use std::alloc::Allocator;

/// All that a decoder has memory for.
#[derive(Drop)]
pub struct Parts<A: Allocator> {
    /// The field under way.
    pub partial: Partial<A>,
    /// The type option under way.
    pub types: TypeReader<A>,
    /// The cell under way.
    pub cells: CellReader<A>,
    /// The types of the metadata begun last.
    pub table: TypeTable<A>,
    /// The table that the caller gave.
    pub given: Option<TypeTable<A>>,
}
