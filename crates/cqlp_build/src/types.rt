//! Types, of the events of their options.

ghost use Rattle.std.specs.Prelude.{◌≡◌, ◌∷◌, [], map, string_bytes, true};
ghost use Rattle.std.specs.List.{flat_map};
ghost use Rattle.cqlp_type.specs.TypeTrees.{tree_of};
ghost use Rattle.cqlp_build.specs.FrameEvents.{Builds, HoldsNoMore, Many};
ghost use Rattle.cqlp_build.specs.Types.{IsBoxed, IsOfKind, Wraps, field_events, is_built_field, is_built_type};
ghost use Rattle.cqlp_build.specs.Types.{list_of, map_of, set_of, events_after_kind, type_events};

use crate::held::{Fault, FrameEvents};
use cqlp_kind::Kind;
use cqlp_note::Field;
use cqlp_type::TypeTree;

impl FrameEvents {
    /// Takes a type option, with all in it. It calls itself as deep as types are nested.
    #[cycle(types)]
    pub fn tree(&mut self) -> TypeTree
        ensures is { Builds type_events (λ t. is_built_type t ≡ true) (tree_of result) self.old self.new }
        ensures fewer { HoldsNoMore self.old self.new }
    {
        match self.next_kind() {
            Some(kind) => self.tree_of(kind),
            None => {
                self.refuse(Fault::NoFrame);
                TypeTree::Plain(Kind::Raw)
            }
        }
    }

    /// Takes what comes after the kind of a type option.
    #[cycle(types)]
    fn tree_of(&mut self, kind: Kind) -> TypeTree
        ensures is { Builds events_after_kind (IsOfKind kind) (tree_of result) self.old self.new }
        ensures fewer { HoldsNoMore self.old self.new }
    {
        match kind {
            Kind::Custom => TypeTree::Custom(self.text(Field::Class)),
            Kind::List => {
                let inner = self.tree();
                self.list(inner)
            }
            Kind::Set => {
                let inner = self.tree();
                self.set(inner)
            }
            Kind::Map => {
                let key = self.tree();
                let value = self.tree();
                self.map(key, value)
            }
            Kind::Udt => {
                let keyspace = self.text(Field::Keyspace);
                let name = self.text(Field::TypeName);
                let count = self.count(Field::Fields);
                let fields = self.fields(count);
                TypeTree::Udt {
                    keyspace,
                    name,
                    fields,
                }
            }
            Kind::Tuple => {
                let count = self.count(Field::Fields);
                TypeTree::Tuple(self.types(count))
            }
            _ => {
                self.check(kind.is_plain());
                TypeTree::Plain(kind)
            }
        }
    }

    /// Takes this many type options.
    #[cycle(types)]
    fn types(&mut self, count: u32) -> Vec<TypeTree>
        ensures is { Builds (flat_map type_events) (Many is_built_type count) (map tree_of result.items) self.old self.new }
        ensures fewer { HoldsNoMore self.old self.new }
    {
        let mut types = Vec::new(self.alloc);
        for _ in 0..count {
            let tree = self.tree();
            if self.fault.is_some() {
                return types;
            }
            if types.push(tree).is_err() {
                self.fault = Some(Fault::NoMemory);
                return types;
            }
        }
        types
    }

    /// Takes this many names, each with a type option.
    #[cycle(types)]
    fn fields(&mut self, count: u32) -> Vec<(String, TypeTree)>
        ensures is { Builds (flat_map field_events) (Many is_built_field count)
            (map (λ f. (string_bytes f.0, tree_of f.1)) result.items) self.old self.new }
        ensures fewer { HoldsNoMore self.old self.new }
    {
        let mut fields = Vec::new(self.alloc);
        for _ in 0..count {
            let name = self.text(Field::FieldName);
            let tree = self.tree();
            if self.fault.is_some() {
                return fields;
            }
            if fields.push((name, tree)).is_err() {
                self.fault = Some(Fault::NoMemory);
                return fields;
            }
        }
        fields
    }

    /// A list of this type.
    fn list(&mut self, inner: TypeTree) -> TypeTree
        ensures { Wraps (list_of (tree_of inner)) (tree_of result) self.old self.new }
    {
        match self.boxed(inner) {
            Some(inner) => TypeTree::List(inner),
            None => TypeTree::Plain(Kind::Raw),
        }
    }

    /// A set of this type.
    fn set(&mut self, inner: TypeTree) -> TypeTree
        ensures { Wraps (set_of (tree_of inner)) (tree_of result) self.old self.new }
    {
        match self.boxed(inner) {
            Some(inner) => TypeTree::Set(inner),
            None => TypeTree::Plain(Kind::Raw),
        }
    }

    /// A map of keys and values of these types.
    fn map(&mut self, key: TypeTree, value: TypeTree) -> TypeTree
        ensures { Wraps (map_of (tree_of key) (tree_of value)) (tree_of result) self.old self.new }
    {
        let Some(key) = self.boxed(key) else {
            return TypeTree::Plain(Kind::Raw);
        };
        let Some(value) = self.boxed(value) else {
            return TypeTree::Plain(Kind::Raw);
        };
        TypeTree::Map(key, value)
    }

    /// The same type, with a place of its own in memory.
    fn boxed(&mut self, tree: TypeTree) -> Option<Box<TypeTree>>
        ensures { IsBoxed tree result self.old self.new }
    {
        match Box::new(self.alloc, tree) {
            Ok(boxed) => Some(boxed),
            Err(_) => {
                self.fault = Some(Fault::NoMemory);
                None
            }
        }
    }
}
