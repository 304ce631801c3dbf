//! Which of the events that are held is the first that does not fit.

ghost use Rattle.std.specs.Prelude.{◌≡◌, ◌+◌, ◌≤◌, IfErr, IfOk, length};
ghost use Rattle.cqlp_build.specs.declared.error.BuildError.TheVariants as error;

use crate::builder::is_directed;
use crate::error::BuildError;
use crate::held::{Fault, FrameEvents};
use crate::item::{Content, Item};
use cqlp_build_cells::Step;
use cqlp_kind::Kind;
use cqlp_note::{Field, Header};

impl FrameEvents {
    /// How many events come before the first that does not fit, of this header and those that are held: the next after those of any frame's.
    pub fn misfit(&mut self, header: &Header) -> Result<usize, BuildError>
        ensures at { IfOk result (λ at. at ≤ 1 + length self.old.items.items) }
        ensures refused { IfErr result (λ why. why ≡ error.NoMemory) }
    {
        if !is_directed(header) {
            return Ok(0);
        }
        let possible = self.items.possible();
        if self.items.push_item(no_item()).is_err() {
            return Err(BuildError::NoMemory);
        }
        let all = self.items.len();
        let Some(left) = self.left_of(header) else {
            return Err(BuildError::NoMemory);
        };
        let fitting = all.saturating_sub(left);
        if possible < fitting {
            return Ok(possible + 1);
        }
        Ok(fitting)
    }

    /// How many events are left after those that fit, the first of them taken, where the last one that is held fits nowhere; None where memory was
    /// refused.
    fn left_of(&mut self, header: &Header) -> Option<usize> {
        self.cell.clear();
        self.fault = None;
        drop(self.frame(header));
        let left = self.items.len();
        match self.fault {
            Some(Fault::NoMemory) => None,
            Some(Fault::NoFrame) => Some(left.saturating_add(self.cell.how_many())),
            None => Some(left.saturating_sub(1)),
        }
    }
}

/// What comes next in no frame.
fn no_item() -> Item {
    Item::Holds(Field::Rows, Content::Byte(0))
}

/// Whether a field holds more than its notation has room for, or a value that has no bytes begins.
pub(crate) fn is_impossible(item: &Item) -> bool {
    match item {
        Item::Cell {
            step: Step::Enter(Kind::Tuple | Kind::Udt, 0),
            ..
        } => true,
        Item::Holds(Field::Query, _) => false,
        Item::Holds(Field::Rows | Field::Columns | Field::Keys, Content::Count(count)) => {
            *count > i32::MAX as u32
        }
        Item::Holds(_, Content::Count(count)) => *count > u32::from(u16::MAX),
        Item::Holds(_, Content::Text(text)) => text.len() > usize::from(u16::MAX),
        Item::Holds(Field::StatementId, Content::Bytes(Some(id))) => {
            id.len() > usize::from(u16::MAX)
        }
        _ => false,
    }
}
