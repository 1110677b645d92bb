//! Lists of nodes over one storage.
ghost use Rattle.std.specs.Prelude.{◌≡◌, ◌+◌, ◌<◌, ◌≤◌, ℕ, List, [], ◌∷◌, ◌++◌, length, IfOk, OnOk, OnErr, OnSome, IfNone, Some, option_map, slice_set, drop};
ghost use Rattle.herm_links.specs.Lists.{entries_of, IsLive, Stands, IsSplit, first_node, last_node, first_value, AreApart};

use crate::nodes::{Ends, Node, link_next, link_prev};
use slab::Slab;
use std::alloc::{AllocError, Global};
use std::marker::Model;

/// The number of a list.
#[derive(Clone, Copy, Debug, PartialEq, Eq)]
pub struct ListNo(pub usize);

/// The number of a node. It keeps its node until that is taken out.
#[derive(Clone, Copy, Debug, PartialEq, Eq)]
pub struct NodeNo(pub usize);

/// Lists of nodes with a value each. A node stands in one list.
#[derive(Drop)]
pub struct Links<T> {
    nodes: Slab<Node<T>>,
    lists: Vec<Ends>,
    // So many more nodes are made without memory.
    spare: usize,
}

impl<T> Model for Links<T> {
    ghost use Rattle.herm_links.specs.Lists.{LinkedLists, linked_lists_code};

    ghost Value = { LinkedLists T };

    ghost coded = { linked_lists_code T.code };

    ghost use Rattle.herm_links.specs.Chains.{seen_of, AreLinked};

    ghost view = { λ a. seen_of a.nodes a.lists.items a.spare };

    ghost invariant = { λ a. AreLinked a.nodes a.lists.items a.spare };
}

impl<T> Links<T> {
    /// No lists.
    pub fn new(alloc: Global) -> Links<T>
        ensures none { result.lists ≡ [] }
        ensures room { result.spare ≡ 0 }
    {
        Links {
            nodes: Slab::new(alloc),
            lists: Vec::new(alloc),
            spare: 0,
        }
    }

    /// Makes room for `n` nodes.
    pub fn reserve(&mut self, n: usize) -> Result<(), AllocError>
        ensures lists { self.new.lists ≡ self.old.lists }
        ensures room { OnOk result (n ≤ self.new.spare) }
        ensures kept { self.old.spare ≤ self.new.spare }
        ensures unchanged { OnErr result (self.new ≡ self.old) }
    {
        if n <= self.spare {
            return Ok(());
        }
        self.nodes.reserve(n)?;
        self.spare = n;
        Ok(())
    }

    /// Adds an empty list.
    pub fn new_list(&mut self) -> Result<ListNo, AllocError>
        ensures added { OnOk result (self.new.lists ≡ self.old.lists ++ [] ∷ []) }
        ensures number { IfOk result (λ list. list.0 ≡ length self.old.lists) }
        ensures room { self.new.spare ≡ self.old.spare }
        ensures unchanged { OnErr result (self.new ≡ self.old) }
    {
        let number = self.lists.len();
        self.lists.push(Ends {
            first: None,
            last: None,
        })?;
        Ok(ListNo(number))
    }

    /// Puts a node with this value behind the others of a list. It needs room for a node.
    pub fn push_back(&mut self, list: ListNo, value: T) -> NodeNo
        requires live { IsLive self.old list.0 }
        requires room { 0 < self.old.spare }
        ensures pushed { self.new.lists ≡ slice_set self.old.lists list.0 (entries_of self.old list.0 ++ (result.0, value) ∷ []) }
        ensures fresh { Stands self.old result.0 → ⊥ }
        ensures live { length self.new.lists ≡ length self.old.lists }
        ensures room { self.new.spare + 1 ≡ self.old.spare }
    {
        let ends = self.lists[list.0];
        let key = self.nodes.insert_reserved(Node {
            value,
            list: list.0,
            prev: ends.last,
            next: None,
        });
        let first = link_next(&mut self.nodes, ends.last, Some(key), ends.first);
        self.lists[list.0] = Ends {
            first,
            last: Some(key),
        };
        self.spare -= 1;
        NodeNo(key)
    }

    /// Takes a node out of its list.
    pub fn unlink(&mut self, node: NodeNo) -> T
        requires stands { Stands self.old node.0 }
        ensures value { (list : ℕ) (before : List (ℕ × T)) (value : T) (behind : List (ℕ × T)) → IsSplit self.old list before node.0 value behind → result ≡ value }
        ensures others { (list : ℕ) (before : List (ℕ × T)) (value : T) (behind : List (ℕ × T)) → IsSplit self.old list before node.0 value behind → self.new.lists ≡ slice_set self.old.lists list (before ++ behind) }
        ensures live { length self.new.lists ≡ length self.old.lists }
        ensures room { self.new.spare ≡ self.old.spare + 1 }
    {
        let taken = self.nodes.remove(node.0);
        let ends = self.lists[taken.list];
        let first = link_next(&mut self.nodes, taken.prev, taken.next, ends.first);
        let last = link_prev(&mut self.nodes, taken.next, taken.prev, ends.last);
        self.lists[taken.list] = Ends { first, last };
        // The room is less than the storage has, so that the sum fits.
        prove!(self.spare < self.nodes.capacity());
        self.spare += 1;
        taken.value
    }

    /// Takes the first node out of a list.
    pub fn take_front(&mut self, list: ListNo) -> Option<T>
        requires live { IsLive self.old list.0 }
        ensures value { result ≡ first_value (entries_of self.old list.0) }
        ensures others { self.new.lists ≡ slice_set self.old.lists list.0 (drop 1 (entries_of self.old list.0)) }
        ensures live { length self.new.lists ≡ length self.old.lists }
        ensures room { OnSome result (self.new.spare ≡ self.old.spare + 1) }
        ensures unchanged { IfNone result (self.new ≡ self.old) }
    {
        match self.front(list) {
            Some(node) => Some(self.unlink(node)),
            None => None,
        }
    }

    /// The first node of a list.
    pub fn front(&self, list: ListNo) -> Option<NodeNo>
        requires live { IsLive self.now list.0 }
        ensures node { option_map (λ node. node.0) result ≡ first_node (entries_of self.now list.0) }
    {
        let first = self.lists[list.0].first?;
        Some(NodeNo(first))
    }

    /// The node behind a node.
    pub fn next(&self, node: NodeNo) -> Option<NodeNo>
        requires stands { Stands self.now node.0 }
        ensures node { (list : ℕ) (before : List (ℕ × T)) (value : T) (behind : List (ℕ × T)) → IsSplit self.now list before node.0 value behind → option_map (λ node. node.0) result ≡ first_node behind }
    {
        let next = self.nodes[node.0].next?;
        Some(NodeNo(next))
    }

    /// The node before a node.
    pub fn prev(&self, node: NodeNo) -> Option<NodeNo>
        requires stands { Stands self.now node.0 }
        ensures node { (list : ℕ) (before : List (ℕ × T)) (value : T) (behind : List (ℕ × T)) → IsSplit self.now list before node.0 value behind → option_map (λ node. node.0) result ≡ last_node before }
    {
        let prev = self.nodes[node.0].prev?;
        Some(NodeNo(prev))
    }

    /// The value of a node. No node stands in two lists, or twice in one.
    pub fn at(&self, node: NodeNo) -> &T
        requires stands { Stands self.now node.0 }
        ensures value { (list : ℕ) (before : List (ℕ × T)) (value : T) (behind : List (ℕ × T)) → IsSplit self.now list before node.0 value behind → result.now ≡ value }
        ensures apart { AreApart self.now }
    {
        &self.nodes[node.0].value
    }
}
