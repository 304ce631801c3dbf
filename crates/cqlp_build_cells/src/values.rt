//! Values, of the events that are held.

ghost use Rattle.std.specs.Prelude.{◌≡◌, ◌==◌, ◌&&◌, ◌+◌, ◌<◌, ◌^◌, ◌∷◌, [], length, nat_lt, true};
ghost use Rattle.cqlp_kind.specs.CellStep.{Enter};
ghost use Rattle.cqlp_kind.specs.Types.{is_kind};
ghost use Rattle.cqlp_type.specs.Trees.{are_trees, types_in};
ghost use Rattle.cqlp_type.specs.TypeLists.{listed_fields, listed_types};
ghost use Rattle.cqlp_type.specs.TypeTrees.{tree_of};
ghost use Rattle.cqlp_value.specs.Measures.{listed_pairs, listed_values, types_by};
ghost use Rattle.cqlp_value.specs.Owned.{atom_of, value_of};
ghost use Rattle.cqlp_value.specs.Values.{Scalar_and, NoValue as none_after, type_copies};
ghost use Rattle.cqlp_build_cells.specs.declared.held.Fault.TheVariants as fault;
ghost use Rattle.cqlp_build_cells.specs.CellEvents.{Builds, HoldsNoMore, first_fault};
ghost use Rattle.cqlp_build_cells.specs.Said.{AreFirst, Fit, IsFirst, IsReadable, counted_said, fields_said, said_inside, values_said};

use crate::held::{CellEvents, Fault};
use crate::step::Step;
use cqlp_kind::Kind;
use cqlp_type::TypeTree;
use cqlp_value::{Atom, Value, fits};

/// The most items that a count says.
const MOST: u32 = i32::MAX as u32;

impl CellEvents {
    /// Takes a value of this type, with this many values around it. It calls itself as deep as the type is nested.
    #[cycle(value)]
    pub fn value(&mut self, level: usize, tree: &TypeTree) -> Value
        requires readable { IsReadable tree.now }
        requires deep { level + length self.old.items.items < 2 ^ 64 }
        ensures is { Builds (values_said level (types_in (tree_of tree.now))) (Fit (types_in (tree_of tree.now))) (value_of result) self.old self.new }
        ensures fewer { HoldsNoMore self.old self.new }
    {
        match self.next(level) {
            Some(Step::Null) => Value::Null,
            Some(Step::Empty) => Value::Empty,
            Some(Step::Leaf(atom)) => self.scalar(atom, tree),
            Some(Step::Enter(kind, count)) => self.inside(level, tree, kind, count),
            Some(Step::Leave(_)) => self.none(),
            None => self.none(),
        }
    }

    /// No value.
    fn none(&mut self) -> Value
        ensures { self.new ≡ record self.old { fault = first_fault self.old.fault fault.NoValue } }
    {
        self.refuse(Fault::NoValue);
        Value::Null
    }

    /// Takes what comes after the first event of a value with items, where that says this kind and this many.
    #[cycle(value)]
    fn inside(&mut self, level: usize, tree: &TypeTree, kind: Kind, count: u32) -> Value
        requires readable { IsReadable tree.now }
        requires deep { level + 1 + length self.old.items.items < 2 ^ 64 }
        ensures is { Builds (said_inside level (types_in (tree_of tree.now))) (IsFirst level (Enter level kind count) (types_in (tree_of tree.now)))
            (value_of result) self.old self.new }
        ensures fewer { HoldsNoMore self.old self.new }
    {
        match tree {
            TypeTree::List(inner) => {
                self.check(is_counted(kind, Kind::List, count));
                Value::List(self.items(level, inner, count))
            }
            TypeTree::Set(inner) => {
                self.check(is_counted(kind, Kind::Set, count));
                Value::Set(self.items(level, inner, count))
            }
            TypeTree::Map(keys, values) => {
                self.check(is_counted(kind, Kind::Map, count));
                Value::Map(self.pairs(level, keys, values, count))
            }
            TypeTree::Tuple(types) => {
                self.check(has_types(kind, Kind::Tuple, count, types.len()));
                let items = self.types(level, types);
                self.check(has_some(&items));
                Value::Tuple(items)
            }
            TypeTree::Udt { fields, .. } => {
                self.check(has_types(kind, Kind::Udt, count, fields.len()));
                let items = self.fields(level, fields);
                self.check(has_some(&items));
                Value::Udt(items)
            }
            TypeTree::Plain(_) => self.none(),
            TypeTree::Custom(_) => self.none(),
        }
    }

    /// A scalar, if it is one of this type.
    fn scalar(&mut self, atom: Atom, tree: &TypeTree) -> Value
        ensures is { Builds {A = Unit {0}} (λ _. []) (λ _. Fit (types_in (tree_of tree.now)) (Scalar_and (atom_of atom) none_after)) tt self.old self.new }
        ensures value { value_of result ≡ Scalar_and (atom_of atom) none_after }
        ensures fewer { HoldsNoMore self.old self.new }
    {
        let value = Value::Leaf(atom);
        self.check(fits(&value, Some(tree)));
        value
    }

    /// Takes this many values of this type, and then the end of the value around them.
    #[cycle(value)]
    fn items(&mut self, level: usize, inner: &TypeTree, count: u32) -> Vec<Value>
        requires readable { IsReadable inner.now }
        requires deep { level + 1 + length self.old.items.items < 2 ^ 64 }
        ensures is { Builds (counted_said level (types_in (tree_of inner.now)) count) (Fit (type_copies count (types_in (tree_of inner.now))))
            (listed_values result.items) self.old self.new }
        ensures fewer { HoldsNoMore self.old self.new }
    {
        let mut items = Vec::new(self.alloc);
        for _ in 0..count {
            let item = self.value(level + 1, inner);
            if self.fault.is_some() {
                return items;
            }
            if items.push(item).is_err() {
                self.fault = Some(Fault::NoMemory);
                return items;
            }
        }
        self.leave(level, count as usize);
        items
    }

    /// Takes this many pairs of these types, and then the end of the map.
    #[cycle(value)]
    fn pairs(
        &mut self,
        level: usize,
        keys: &TypeTree,
        values: &TypeTree,
        count: u32,
    ) -> Vec<(Value, Value)>
        requires keys { IsReadable keys.now }
        requires values { IsReadable values.now }
        requires deep { level + 1 + length self.old.items.items < 2 ^ 64 }
        ensures is { Builds (counted_said level (types_by (λ x. x) (keys.now ∷ values.now ∷ [])) count)
            (Fit (type_copies count (types_by (λ x. x) (keys.now ∷ values.now ∷ [])))) (listed_pairs result.items) self.old self.new }
        ensures fewer { HoldsNoMore self.old self.new }
    {
        let mut pairs = Vec::new(self.alloc);
        for _ in 0..count {
            let key = self.value(level + 1, keys);
            let value = self.value(level + 1, values);
            if self.fault.is_some() {
                return pairs;
            }
            if pairs.push((key, value)).is_err() {
                self.fault = Some(Fault::NoMemory);
                return pairs;
            }
        }
        self.leave(level, count as usize);
        pairs
    }

    /// Takes the first fields of a tuple of these types, and then its end.
    #[cycle(value)]
    fn types(&mut self, level: usize, types: &[TypeTree]) -> Vec<Value>
        requires readable { are_trees (listed_types types.now) ≡ true }
        requires deep { level + 1 + length self.old.items.items < 2 ^ 64 }
        ensures is { Builds (fields_said level 0 (types_by (λ t. t) types.now)) (AreFirst (types_by (λ t. t) types.now))
            (listed_values result.items) self.old self.new }
        ensures fewer { HoldsNoMore self.old self.new }
    {
        let mut items = Vec::new(self.alloc);
        for tree in types {
            if self.is_at_leave() {
                self.leave(level, items.len());
                return items;
            }
            let item = self.value(level + 1, tree);
            if self.fault.is_some() {
                return items;
            }
            if items.push(item).is_err() {
                self.fault = Some(Fault::NoMemory);
                return items;
            }
        }
        self.leave(level, items.len());
        items
    }

    /// Takes the first fields of a user-defined type of these types, and then its end.
    #[cycle(value)]
    fn fields(&mut self, level: usize, fields: &[(String, TypeTree)]) -> Vec<Value>
        requires readable { are_trees (listed_fields fields.now) ≡ true }
        requires deep { level + 1 + length self.old.items.items < 2 ^ 64 }
        ensures is { Builds (fields_said level 0 (types_by (λ x. x.1) fields.now)) (AreFirst (types_by (λ x. x.1) fields.now))
            (listed_values result.items) self.old self.new }
        ensures fewer { HoldsNoMore self.old self.new }
    {
        let mut items = Vec::new(self.alloc);
        for (_, tree) in fields {
            if self.is_at_leave() {
                self.leave(level, items.len());
                return items;
            }
            let item = self.value(level + 1, tree);
            if self.fault.is_some() {
                return items;
            }
            if items.push(item).is_err() {
                self.fault = Some(Fault::NoMemory);
                return items;
            }
        }
        self.leave(level, items.len());
        items
    }
}

/// Whether it is this kind, and a count says so many items.
fn is_counted(kind: Kind, of: Kind, count: u32) -> bool
    ensures { result ≡ (is_kind kind of && nat_lt count (2 ^ 31)) }
{
    kind == of && count <= MOST
}

/// Whether it is this kind, with this many types of items.
fn has_types(kind: Kind, of: Kind, count: u32, len: usize) -> bool
    ensures { result ≡ (is_kind kind of && (count == len)) }
{
    kind == of && count as usize == len
}

/// Whether there is a field.
fn has_some(items: &[Value]) -> bool
    ensures { result ≡ nat_lt 0 (length items.now) }
{
    !items.is_empty()
}
