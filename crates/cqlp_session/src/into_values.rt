//! The values of requests that are still open when a connection ends.

ghost use Rattle.std.specs.Iterator.{YieldsFirst, item_count};

use std::alloc::{Allocator, Global};
use std::iter::FusedIterator;
use std::marker::Model;

/// The values of the requests that were open, in the order of their stream ids, seen as the list of those that are left.
/// Of [`ClientOf::into_values`](crate::ClientOf::into_values) and
/// [`ServerOf::into_values`](crate::ServerOf::into_values).
#[derive(Drop)]
pub struct IntoValues<T, A: Allocator = Global> {
    /// What is carried under the ids that are left, the last first.
    carried: Vec<Option<T>, A>,
}

impl<T, A: Allocator> Model for IntoValues<T, A> {
    ghost use Rattle.std.specs.Prelude.{List, reverse};
    ghost use Rattle.cqlp_session.specs.Carried.{values_in};

    ghost Value = { List T };

    ghost view = { λ it. values_in (reverse it.carried.items) };
}

impl<T, A: Allocator> IntoValues<T, A> {
    ghost use Rattle.std.specs.Prelude.{◌≡◌};
    ghost use Rattle.cqlp_session.specs.Carried.{values_in};

    /// The values that are carried under the ids from 0 on.
    pub(crate) fn new(mut carried: Vec<Option<T>, A>) -> IntoValues<T, A>
        ensures { result ≡ values_in carried.items }
    {
        carried.reverse();
        IntoValues { carried }
    }
}

impl<T: Drop, A: Allocator> Iterator for IntoValues<T, A> {
    type Item = T;

    ghost next_gives = { YieldsFirst (λ rest. rest) };

    ghost remaining = { item_count (λ rest. rest) };

    fn next(&mut self) -> Option<T> {
        while let Some(value) = self.carried.pop() {
            if value.is_some() {
                return value;
            }
        }
        None
    }
}

impl<T: Drop, A: Allocator> FusedIterator for IntoValues<T, A> {}
