//! Tables of types.

ghost use Rattle.std.specs.Prelude.{◌≡◌, ◌+◌, ◌^◌, ◌<◌, ◌≤◌, ◌++◌, ◌∷◌, ◌↔◌};
ghost use Rattle.std.specs.Prelude.{[], length, slice_get, vec_capacity, IfOk, IsTrue};
ghost use Rattle.cqlp_type.specs.Table.{beginnings};

use crate::depth::{deepest, inner_of};
use cqlp_kind::Node;
use cqlp_note::NoMemory;
use std::alloc::{Allocator, Global};
use std::marker::Model;

/// Types in preorder: each is before its inner ones. The last of those that are side by side may be under way,
/// and then its nodes so far are there.
#[derive(Drop)]
pub struct TypeTable<A: Allocator = Global> {
    nodes: Vec<Node, A>,
    room: u32,
}

impl<A: Allocator> Model for TypeTable<A> {
    ghost use Rattle.std.specs.Prelude.{◌≡◌, ◌<◌, ◌^◌, vec_capacity};
    ghost use Rattle.cqlp_type.specs.Table.{Table, HoldsUpTo};

    ghost Value = { Table };

    ghost view = { λ t. record { nodes = t.nodes.items; room = t.room } };

    ghost invariant = { λ t. (vec_capacity t.nodes ≡ t.room) × (t.room < 2 ^ 32) × HoldsUpTo t.room t.nodes.items };
}

impl<A: Allocator> TypeTable<A> {
    ghost use Rattle.cqlp_type.specs.Table.{AreWhole, HoldsTypes, root, child};
    ghost use Rattle.cqlp_type.specs.Depths.{IsDepth};
    ghost use Rattle.cqlp_type.specs.Forests.{depth_of};
    ghost use Rattle.cqlp_kind.specs.Types.{IsPreorder, Types, preorder};
    ghost use Rattle.cqlp_kind.specs.TypeStep.{with_arity, with_span};

    /// With room for `room` nodes, which is all that it will ever have.
    ///
    /// # Errors
    ///
    /// Memory that is refused.
    #[tactic(auto, using(crate::proofs::OpenTypes::nothing_holds))]
    pub fn new(alloc: A, room: u32) -> Result<Self, NoMemory>
        ensures { IfOk result (λ table. table ≡ record { nodes = []; room = room }) }
    {
        Ok(TypeTable {
            nodes: Vec::with_capacity(alloc, room as usize)?,
            room,
        })
    }

    /// How many nodes there are.
    pub fn len(&self) -> u32
        ensures is { result ≡ length self.now.nodes }
        ensures bound { result ≤ self.now.room }
    {
        self.nodes.len() as u32
    }

    /// Whether there are none.
    pub fn is_empty(&self) -> bool
        ensures { IsTrue result ↔ (self.now.nodes ≡ []) }
    {
        self.nodes.is_empty()
    }

    /// Whether no type is under way. Then the nodes are those of whole types side by side.
    pub fn whole(&self) -> bool
        ensures is { IsTrue result ↔ AreWhole self.now.nodes }
        ensures types { IsTrue result → IsPreorder self.now.nodes }
    {
        self.nodes.iter().all(|node| node.span != 0)
    }

    /// How deep the types are nested; 0 where there are none. A type without inner types has depth 1, and another one
    /// more than its deepest inner type. Of a type that is under way the inner types that are so far count.
    #[tactic(auto, using(crate::proofs::Depths::depth_of_types, crate::proofs::Depths::depth_few))]
    pub fn depth(&self) -> u32
        ensures is { IsDepth self.now.nodes result }
        ensures whole { (ts : Types) → self.now.nodes ≡ preorder ts → result ≡ depth_of ts }
        ensures bound { result ≤ length self.now.nodes }
    {
        deepest(&self.nodes)
    }

    /// The node with this number; the first has the number 0.
    pub fn node(&self, i: u32) -> Option<Node>
        ensures is { result ≡ slice_get self.now.nodes i }
        ensures bound { length self.now.nodes < 2 ^ 32 }
    {
        self.nodes.get(i as usize).copied()
    }

    /// How many types are side by side, one that is under way counted.
    pub fn roots(&self) -> u32
        ensures { result ≡ length (beginnings 0 0 self.now.nodes) }
    {
        count_beginnings(&self.nodes)
    }

    /// The number of the node at which the type with number `i` begins, of those that are side by side.
    pub fn root(&self, i: u32) -> Option<u32>
        ensures { result ≡ root self.now.nodes i }
    {
        beginning(&self.nodes, 0, i)
    }

    /// The number of the node at which inner type `i` of a node's type begins, where it is in the table.
    pub fn child(&self, node: u32, i: u32) -> Option<u32>
        ensures { result ≡ child self.now.nodes node i }
    {
        let first = self.node(node)?;
        let after = &self.nodes[node as usize + 1..];
        beginning(inner_of(first, after), node + 1, i)
    }

    /// Removes all nodes, and keeps the room.
    #[tactic(auto, using(crate::proofs::OpenTypes::nothing_holds))]
    pub fn clear(&mut self)
        ensures { self.new ≡ record { nodes = []; room = self.old.room } }
    {
        self.nodes.clear();
    }

    /// How many nodes there can be.
    pub fn room(&self) -> u32
        ensures { result ≡ self.now.room }
    {
        self.room
    }

    /// How many nodes its memory has places for: the room, for as long as it lives.
    pub fn capacity(&self) -> usize
        ensures { result ≡ self.now.room }
    {
        self.nodes.capacity()
    }

    /// Adds the node of a type that is under way.
    #[tactic(auto, using(crate::proofs::OpenTypes::pushed_holds))]
    pub(crate) fn push(&mut self, node: Node)
        requires room { length self.old.nodes < self.old.room }
        requires under_way { node.span ≡ 0 }
        ensures { self.new ≡ record { nodes = self.old.nodes ++ node ∷ []; room = self.old.room } }
    {
        self.nodes.push_reserved(node);
    }

    /// Sets how many inner types the last type has.
    pub(crate) fn set_arity(&mut self, arity: u16)
        requires { HoldsTypes (with_arity arity self.old.nodes) }
        ensures { self.new ≡ record { nodes = with_arity arity self.old.nodes; room = self.old.room } }
    {
        if !self.nodes.is_empty() {
            let last = self.nodes.len() - 1;
            self.nodes[last].arity = arity;
        }
    }

    /// The type that begins at this node ends with the last one.
    pub(crate) fn close(&mut self, i: u32)
        requires { HoldsTypes (with_span i self.old.nodes) }
        ensures { self.new ≡ record { nodes = with_span i self.old.nodes; room = self.old.room } }
    {
        let first = i as usize;
        if first < self.nodes.len() {
            self.nodes[first].span = (self.nodes.len() - first) as u32;
        }
    }
}

impl<A: Allocator + Clone> TypeTable<A> {
    /// An equal table with the same room.
    ///
    /// # Errors
    ///
    /// Memory that is refused; this table stays as it is.
    pub fn clone_table(&self) -> Result<Self, NoMemory>
        ensures { IfOk result (λ table. table ≡ self.now) }
    {
        let mut nodes = Vec::with_capacity(self.nodes.allocator().clone()?, self.room as usize)?;
        append(&mut nodes, &self.nodes);
        Ok(TypeTable {
            nodes,
            room: self.room,
        })
    }
}

/// Adds these nodes, for which there are places.
fn append<A: Allocator>(nodes: &mut Vec<Node, A>, added: &[Node])
    requires { length nodes.old.items + length added.now ≤ vec_capacity nodes.old }
    ensures items { nodes.new.items ≡ nodes.old.items ++ added.now }
    ensures capacity { vec_capacity nodes.new ≡ vec_capacity nodes.old }
{
    for node in added {
        nodes.push_reserved(*node);
    }
}

/// How many types are side by side.
fn count_beginnings(nodes: &[Node]) -> u32
    requires { length nodes.now < 2 ^ 32 }
    ensures { result ≡ length (beginnings 0 0 nodes.now) }
{
    let mut count = 0;
    let mut at = 0;
    while at < nodes.len() {
        count += 1;
        let span = nodes[at].span as usize;
        if span == 0 {
            return count;
        }
        at += span;
    }
    count
}

/// Where type `i` of those that are side by side begins, if the first node has the number `first`.
fn beginning(nodes: &[Node], first: u32, i: u32) -> Option<u32>
    requires { first + length nodes.now < 2 ^ 32 }
    ensures { result ≡ slice_get (beginnings first 0 nodes.now) i }
{
    let mut at = 0;
    for _ in 0..i {
        let span = nodes.get(at)?.span as usize;
        if span == 0 {
            return None;
        }
        at += span;
    }
    if at < nodes.len() {
        Some(first + at as u32)
    } else {
        None
    }
}
