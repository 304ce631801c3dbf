//! The columns of a page.

ghost use Rattle.std.specs.Prelude.{◌≡◌, ℕ, option_map};
ghost use Rattle.cqlp_compose.specs.Places as model;

use cqlp_message::{Frame, Message, Spec};
use cqlp_type::TypeTree;

/// The type of a column of a page, the first of which is 0, where it is described.
#[inline(always)]
pub fn column_type(frame: &Frame, column: usize) -> Option<&TypeTree>
    ensures { option_map (λ t. t.now) result ≡ model.described_type frame.now column }
{
    match &frame.message {
        Message::Rows(page) => match &page.meta.specs {
            Some(specs) => spec_type(specs, column),
            None => None,
        },
        _ => None,
    }
}

/// The columns that a page describes; none where it describes none, or is no page.
pub fn described(frame: &Frame) -> &[Spec]
    ensures { (column : ℕ) → model.type_at result.now column ≡ model.described_type frame.now column }
{
    match &frame.message {
        Message::Rows(page) => match &page.meta.specs {
            Some(specs) => specs,
            None => &[],
        },
        _ => &[],
    }
}

/// The type of one of these columns.
#[inline(always)]
fn spec_type(specs: &[Spec], column: usize) -> Option<&TypeTree>
    ensures { option_map (λ t. t.now) result ≡ model.type_at specs.now column }
{
    match specs.get(column) {
        Some(spec) => Some(&spec.tree),
        None => None,
    }
}
