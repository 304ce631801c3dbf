//! The objects of a file.

ghost use Rattle.std.specs.Prelude.{◌≡◌, IfOk};
ghost use Rattle.std.specs.Str.{IsUtf8};
ghost use Rattle.json.specs.Json.{document};
ghost use Rattle.cqlp_statement_file.specs.Objects.{IsTaken};

use json::{Error, Scratch, Value};
use std::alloc::{AllocError, Global};

/// Takes the objects of a file, a line each.
pub trait TakesObjects: Drop {
    ghost use Rattle.std.specs.Prelude.{Bool, IfOk};
    ghost use Rattle.json.specs.Json.{Json};
    ghost use Rattle.json.specs.Value.{value_view};

    /// What taking an object answers and leaves.
    ghost takes: { Self → Json → Bool → Self → Type 0 };

    /// Takes an object. Answers whether it is one of those that a file has.
    fn take(&mut self, alloc: Global, object: &Value<'_>) -> Result<bool, AllocError>
        ensures { IfOk result (λ is_one. takes self.old (value_view object.now) is_one self.new) };
}

/// Takes the object of a line. Answers whether it has one, of those that a file has.
pub(crate) fn take_line<T: TakesObjects>(
    alloc: Global,
    line: &[u8],
    scratch: &mut Scratch,
    objects: &mut T,
) -> Result<bool, AllocError>
    ensures { IsUtf8 line.now → IfOk result (λ is_one. IsTaken T.takes (document line.now) is_one objects.old objects.new) }
{
    match Value::from_slice(alloc, line, scratch) {
        Ok(object) => objects.take(alloc, &object),
        Err(Error::OutOfMemory) => Err(AllocError),
        Err(_) => Ok(false),
    }
}
