//! What is still to be read of a type option.

ghost use Rattle.std.specs.Prelude.{◌≡◌, ◌+◌, ◌<◌, ◌≤◌, ◌++◌, ◌∷◌, List, ℕ, true, length, IfOk};
ghost use Rattle.cqlp_note.specs.Partial.{item_value};
ghost use Rattle.cqlp_note.specs.Limits.{rules_asked};
ghost use Rattle.cqlp_type.specs.OpenOptions.{entered, entered_symbols};
ghost use Rattle.cqlp_type.specs.declared.remaining.OptionStage.TheVariants as stage;
ghost use Rattle.cqlp_type.specs.Remaining.{Closes, FollowsId, FollowsItem, HasRoom, IsPart, Keeps, Settles};
ghost use Rattle.cqlp_type.specs.Remaining.{is_under_way, is_wanted, number_of, short_in, symbols_of};
ghost use Rattle.cqlp_note.specs.Heading.{beside_number};
ghost use Rattle.cqlp_kind.specs.declared.kind.Kind.{Kind};
ghost use Rattle.cqlp_kind.specs.Types.{kinds};
ghost use Rattle.cqlp_kind.specs.TypeStep.{kind_or_lenient as option_kind_is};

use crate::advance::TypeOutline;
use crate::open_options::{NextOption, OpenOptions};
use crate::table::TypeTable;
use cqlp_kind::{Kind, Node};
use cqlp_note::{Asked, Field, FieldOutline, Prim, Reason};
use std::alloc::Allocator;

/// What of an option is read now.
#[derive(Clone, Copy)]
pub(crate) enum OptionStage {
    /// No option is under way.
    Idle,
    /// Nothing: the option is whole, which is still to be said.
    Done,
    /// The id of an option.
    Id,
    /// The name of an inner option, whose id comes next.
    Name,
    /// The class of a custom type.
    Class { node: u32 },
    /// The keyspace of a user-defined type.
    Keyspace { node: u32 },
    /// The name of a user-defined type.
    TypeName { node: u32 },
    /// The number of inner options of the type that begins at this node.
    Fields { node: u32, named: bool },
}

/// What is still to be read of a type option: what is read now, and what is left of the options around it.
#[derive(Drop)]
pub(crate) struct Remaining<A: Allocator> {
    pub(crate) stage: OptionStage,
    pub(crate) open_options: OpenOptions<A>,
}

impl<A: Allocator> Remaining<A> {
    /// Goes on after an item: what part of the option it is, or why its type is refused.
    pub(crate) fn follow<C: Allocator>(
        &mut self,
        limits: &Asked,
        item: FieldOutline,
        table: &mut TypeTable<C>,
    ) -> Result<TypeOutline, Reason>
        requires wanted { is_wanted self.old.stage ≡ true }
        requires lawful { HasRoom self.old.stage self.old.open_options }
        requires depth { self.old.open_options.room ≡ limits.now.depth }
        requires entries { limits.now.entries ≤ table.old.room }
        requires types { Keeps (rules_asked limits.now) (symbols_of self.old) table.old.nodes (number_of item) }
        ensures lawful { HasRoom self.new.stage self.new.open_options }
        ensures depth { self.new.open_options.room ≡ limits.now.depth }
        ensures under_way { is_under_way self.new.stage ≡ true }
        ensures table { table.new.room ≡ table.old.room }
        ensures entries { length table.old.nodes ≤ limits.now.entries → length table.new.nodes ≤ limits.now.entries }
        ensures part { IfOk result (λ q. IsPart (symbols_of self.old) item q) }
        ensures follows { FollowsItem (rules_asked limits.now) self.old table.old item result self.new table.new }
    {
        match self.stage {
            OptionStage::Idle | OptionStage::Done => unreachable!(),
            OptionStage::Id => self.take_id(limits, number_in(item), table),
            OptionStage::Fields { node, named } => {
                let count = number_in(item);
                table.set_arity(count);
                self.stage = enter_option(&mut self.open_options, node, named, count, table);
                Ok(TypeOutline::Count(count.into()))
            }
            OptionStage::Name => {
                self.stage = OptionStage::Id;
                Ok(TypeOutline::Text(Field::FieldName, item))
            }
            OptionStage::Class { node } => {
                self.stage = enter_option(&mut self.open_options, node, false, 0, table);
                Ok(TypeOutline::Text(Field::Class, item))
            }
            OptionStage::Keyspace { node } => {
                self.stage = OptionStage::TypeName { node };
                Ok(TypeOutline::Text(Field::Keyspace, item))
            }
            OptionStage::TypeName { node } => {
                self.stage = OptionStage::Fields { node, named: true };
                Ok(TypeOutline::Text(Field::TypeName, item))
            }
        }
    }

    /// Goes on after the id of an option, whose node is added to the table.
    fn take_id<C: Allocator>(
        &mut self,
        limits: &Asked,
        id: u16,
        table: &mut TypeTable<C>,
    ) -> Result<TypeOutline, Reason>
        requires here { self.old.stage ≡ stage.Id }
        requires lawful { HasRoom self.old.stage self.old.open_options }
        requires depth { self.old.open_options.room ≡ limits.now.depth }
        requires entries { limits.now.entries ≤ table.old.room }
        requires types { Keeps (rules_asked limits.now) (symbols_of self.old) table.old.nodes id }
        ensures lawful { HasRoom self.new.stage self.new.open_options }
        ensures depth { self.new.open_options.room ≡ limits.now.depth }
        ensures under_way { is_under_way self.new.stage ≡ true }
        ensures table { table.new.room ≡ table.old.room }
        ensures entries { length table.old.nodes ≤ limits.now.entries → length table.new.nodes ≤ limits.now.entries }
        ensures part { IfOk result (λ q. (k : Kind) × (q ≡ TypeOutline.Node k)) }
        ensures follows { FollowsId (rules_asked limits.now) self.old table.old id result self.new table.new }
    {
        let Some(kind) = kind_or_lenient(limits.lenient, id) else {
            return Err(Reason::BadType);
        };
        if self.open_options.len() >= limits.depth {
            return Err(Reason::TooDeep);
        }
        if table.len() >= limits.entries {
            return Err(Reason::TooMany);
        }
        let node = table.len();
        let arity = kind.arity();
        table.push(Node {
            kind,
            arity,
            span: 0,
        });
        self.stage = match kind {
            Kind::Custom => OptionStage::Class { node },
            Kind::Udt => OptionStage::Keyspace { node },
            Kind::Tuple => OptionStage::Fields { node, named: false },
            _ => enter_option(&mut self.open_options, node, false, arity, table),
        };
        Ok(TypeOutline::Node(kind))
    }
}

/// The kind of an option of this id: of an unknown type, where no kind has the id and the caller is lenient.
fn kind_or_lenient(lenient: bool, id: u16) -> Option<Kind>
    ensures { result ≡ option_kind_is (beside_number id kinds) lenient }
{
    match Kind::from_id(id) {
        None if lenient => Some(Kind::Raw),
        known => known,
    }
}

/// The number that an item is; 0 where it is no \[short\].
fn number_in(item: FieldOutline) -> u16
    ensures is { result ≡ number_of item }
    ensures value { (input buffer : List ℕ) → short_in (item_value item input buffer) ≡ result }
{
    match item {
        FieldOutline::Plain(Prim::Short(number)) => number,
        _ => 0,
    }
}

/// Goes on to the inner options of the option that begins at this node.
fn enter_option<A: Allocator, C: Allocator>(
    around: &mut OpenOptions<A>,
    node: u32,
    named: bool,
    count: u16,
    table: &mut TypeTable<C>,
) -> OptionStage
    requires room { around.old.height < around.old.room }
    requires types { Closes (entered_symbols around.old node named count) table.old.nodes }
    ensures { Settles (entered around.old node named count) table.old result around.new table.new }
{
    around.push(node, named, count);
    close_whole_types(around, table)
}

/// Goes on to what comes next. Each type that is whole before it gets its span.
fn close_whole_types<A: Allocator, C: Allocator>(
    around: &mut OpenOptions<A>,
    table: &mut TypeTable<C>,
) -> OptionStage
    requires room { around.old.height ≤ around.old.room }
    requires types { Closes around.old.symbols table.old.nodes }
    ensures { Settles around.old table.old result around.new table.new }
{
    loop {
        match around.next() {
            NextOption::Inner { named: true } => return OptionStage::Name,
            NextOption::Inner { named: false } => return OptionStage::Id,
            NextOption::Whole(node) => table.close(node),
            NextOption::Nothing => return OptionStage::Done,
        }
    }
}
