//! The innermost value that is open, in a caller's hands.

ghost use Rattle.std.specs.Prelude.{◌≡◌, ◌+◌, ◌^◌, ◌<◌, ◌≤◌, ◌↔◌, IfSome, IsSome, IsTrue, List, false};
ghost use Rattle.cqlp_kind.specs.declared.node.Node.{Node};
ghost use Rattle.cqlp_cell.specs.declared.open_values.Order.TheVariants as order;
ghost use Rattle.cqlp_cell.specs.Progress.{CellState, HasNext, Conforms, is_over};
ghost use Rattle.cqlp_cell.specs.Whole.{Ends};
ghost use Rattle.cqlp_cell.specs.Levels.{ArePair, IsInLevel, NextFits, due_at, due_element, element_if, passed, passed_element, with_level};

use crate::open_values::{OpenValue, Order};
use crate::whole::{BareItem, BarePart, DueItem};
use cqlp_kind::Kind;
use cqlp_type::TypeTable;
use std::alloc::Allocator;

/// A copy of the innermost value that is open, and of where the reading is in it. A loop over its items changes this in
/// place of the reader, which `CellReader::set_level` then brings to where the loop is.
#[derive(Clone, Copy)]
pub struct Level {
    pub(crate) value: OpenValue,
    /// How many values are open.
    pub(crate) level: u32,
    /// The offset of what is read next.
    pub(crate) offset: u64,
}

/// The kinds of the keys and of the values of a map.
#[derive(Clone, Copy)]
pub struct PairKinds {
    pub key: Kind,
    pub value: Kind,
}

impl Level {
    /// The next item, if there is one.
    #[tactic(auto, unfolding(cqlp_type::specs::Forests::node_at))]
    #[inline(always)]
    pub fn due_item<A: Allocator>(&self, table: &TypeTable<A>) -> Option<DueItem>
        requires { is_over self.now.value self.now.offset ≡ false → NextFits table.now.nodes self.now }
        ensures { result ≡ due_at table.now.nodes self.now }
    {
        let value = self.value;
        if value.is_over(self.offset) {
            return None;
        }
        let head = table.node(value.node).unwrap();
        Some(DueItem {
            at: self.offset,
            kind: head.kind,
            room: value.stop - self.offset,
            level: self.level,
        })
    }

    /// The end of the value that this is, where that is a cell and at its end.
    #[inline(always)]
    pub fn ending(&self) -> Option<BareItem>
        ensures is { (nodes : List Node) (d : CellState) → IsInLevel d self.now → Conforms nodes (with_level d self.now)
            → Ends nodes d self.now result }
        ensures alone { IsSome result → self.now.level ≤ 1 }
        ensures bare { IfSome result (λ t. t.used ≡ 0) }
    {
        let at = self.offset;
        if self.level > 1 || !self.value.is_over(at) || at < self.value.stop {
            return None;
        }
        let part = BarePart::Leave {
            level: 0,
            items: self.value.items,
        };
        Some(BareItem { at, used: 0, part })
    }

    /// Whether this is a list or a set, whose items are all of one type.
    #[inline(always)]
    pub fn is_list(&self) -> bool
        ensures { IsTrue result ↔ (self.now.value.order ≡ order.Elements) }
    {
        matches!(self.value.order, Order::Elements)
    }

    /// The next item of a list or a set, whose items are of this kind, if there is one.
    #[inline(always)]
    pub fn due_element(&self, kind: Kind) -> Option<DueItem>
        requires list { self.now.value.order ≡ order.Elements }
        requires inside { 0 < self.now.value.left → self.now.offset ≤ self.now.value.stop }
        ensures { result ≡ due_element self.now kind }
    {
        if self.value.left == 0 {
            return None;
        }
        Some(DueItem {
            at: self.offset,
            kind,
            room: self.value.stop - self.offset,
            level: self.level,
        })
    }

    /// Goes on after the next item of a list or a set, which takes this many bytes.
    #[inline(always)]
    pub fn pass_element(&mut self, used: usize)
        requires next { 0 < self.old.value.left }
        requires place { self.old.offset + used < 2 ^ 64 }
        ensures { self.new ≡ passed_element self.old used }
    {
        self.value.left -= 1;
        self.offset += used as u64;
    }

    /// Goes on after the next item, which takes this many bytes.
    #[inline(always)]
    pub fn pass<A: Allocator>(&mut self, used: usize, table: &TypeTable<A>)
        requires next { HasNext table.now.nodes self.old.value self.old.value.order }
        requires place { self.old.offset + used < 2 ^ 64 }
        ensures { self.new ≡ passed table.now.nodes self.old used }
    {
        self.value.pass_item(table);
        self.offset += used as u64;
    }

    /// The kinds of the keys and of the values of a map whose key is next; `None` of another value.
    #[tactic(auto, unfolding(cqlp_type::specs::Forests::node_at))]
    #[inline(always)]
    pub fn pair_kinds<A: Allocator>(&self, table: &TypeTable<A>) -> Option<PairKinds>
        ensures { ArePair table.now.nodes self.now result }
    {
        let Order::Keys = self.value.order else {
            return None;
        };
        let Some(key) = table.node(self.value.node) else {
            return None;
        };
        let Some(value) = table.node(self.value.other) else {
            return None;
        };
        Some(PairKinds {
            key: key.kind,
            value: value.kind,
        })
    }

    /// The next item of a map, which is of this kind.
    #[inline(always)]
    pub fn due_in_pair(&self, kind: Kind) -> DueItem
        requires { self.now.offset ≤ self.now.value.stop }
        ensures { Some result ≡ element_if self.now kind false }
    {
        DueItem {
            at: self.offset,
            kind,
            room: self.value.stop - self.offset,
            level: self.level,
        }
    }

    /// Whether a pair of a map is left whose key is next.
    #[inline(always)]
    pub fn has_key(&self) -> bool
        ensures { IsTrue result ↔ ((self.now.value.order ≡ order.Keys) × (0 < self.now.value.left)) }
    {
        matches!(self.value.order, Order::Keys) && self.value.left > 0
    }

    /// Goes on after a key of a map, which takes this many bytes.
    #[inline(always)]
    pub fn pass_key(&mut self, used: usize)
        requires key { self.old.value.order ≡ order.Keys }
        requires next { 0 < self.old.value.left }
        requires place { self.old.offset + used < 2 ^ 64 }
        ensures { (nodes : List Node) → self.new ≡ passed nodes self.old used }
    {
        self.value.switch_type(Order::Values);
        self.value.left -= 1;
        self.offset += used as u64;
    }

    /// Goes on after a value of a map, which takes this many bytes.
    #[inline(always)]
    pub fn pass_value(&mut self, used: usize)
        requires key { self.old.value.order ≡ order.Values }
        requires place { self.old.offset + used < 2 ^ 64 }
        ensures { (nodes : List Node) → self.new ≡ passed nodes self.old used }
    {
        self.value.switch_type(Order::Keys);
        self.offset += used as u64;
    }
}
