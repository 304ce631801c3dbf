//! The options around the one that is read.

ghost use Rattle.std.specs.Prelude.{◌≡◌, ◌+◌, ◌<◌, ◌≤◌, ◌++◌, ◌∷◌, [], IfOk};

use cqlp_note::NoMemory;
use std::alloc::Allocator;
use std::marker::Model;

/// An option whose inner options are read.
#[derive(Clone, Copy)]
pub(crate) struct OpenOption {
    /// The number of its node.
    node: u32,
    /// Whether its inner options have names.
    named: bool,
    /// How many of them have not begun.
    left: u16,
}

/// What goes on in the innermost of them.
#[derive(Clone, Copy)]
pub(crate) enum NextOption {
    /// An inner option, with its name before it or with none.
    Inner { named: bool },
    /// The option that begins at this node is whole, and no longer open.
    Whole(u32),
    /// None is open.
    Nothing,
}

/// The options around the one that is read, the outermost first.
#[derive(Drop)]
pub(crate) struct OpenOptions<A: Allocator> {
    options: Vec<OpenOption, A>,
    room: u32,
}

impl<A: Allocator> Model for OpenOptions<A> {
    ghost use Rattle.std.specs.Prelude.{◌≡◌, vec_capacity};
    ghost use Rattle.cqlp_type.specs.OpenOptions.{Nest, FitIn, nest_of};

    ghost Value = { Nest };

    ghost view = { λ t. nest_of t.options.items t.room };

    ghost invariant = { λ t. (vec_capacity t.options ≡ t.room) × FitIn t.room t.options.items };
}

impl<A: Allocator> OpenOptions<A> {
    ghost use Rattle.cqlp_type.specs.OpenOptions.{Follows, entered};

    /// With room for this many.
    pub(crate) fn new(alloc: A, room: u32) -> Result<Self, NoMemory>
        ensures { IfOk result (λ options. options ≡ record { symbols = []; height = 0; room = room }) }
    {
        Ok(OpenOptions {
            options: Vec::with_capacity(alloc, room as usize)?,
            room,
        })
    }

    pub(crate) fn len(&self) -> u32
        ensures is { result ≡ self.now.height }
        ensures bound { result ≤ self.now.room }
    {
        self.options.len() as u32
    }

    /// How many options its memory has places for: the room, for as long as it lives.
    pub(crate) fn capacity(&self) -> usize
        ensures { result ≡ self.now.room }
    {
        self.options.capacity()
    }

    pub(crate) fn clear(&mut self)
        ensures { self.new ≡ record { symbols = []; height = 0; room = self.old.room } }
    {
        self.options.clear();
    }

    /// Begins the inner options of the option that begins at this node.
    pub(crate) fn push(&mut self, node: u32, named: bool, left: u16)
        requires { self.old.height < self.old.room }
        ensures { self.new ≡ entered self.old node named left }
    {
        self.options.push_reserved(OpenOption { node, named, left });
    }

    /// What comes next, which is no longer left then.
    pub(crate) fn next(&mut self) -> NextOption
        ensures { Follows self.old result self.new }
    {
        let Some(option) = self.options.pop() else {
            return NextOption::Nothing;
        };
        if option.left == 0 {
            return NextOption::Whole(option.node);
        }
        self.options.push_reserved(OpenOption {
            left: option.left - 1,
            ..option
        });
        NextOption::Inner {
            named: option.named,
        }
    }
}
