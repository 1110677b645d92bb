//! A list of rows with different keys.
ghost use Rattle.std.specs.Prelude.{◌≡◌, ◌+◌, ◌<◌, ◌≤◌, ℕ, List, [], ◌∷◌, ◌++◌, ◌&&◌, not, nat_le, length, find, IfErr, IfOk, IfSome, OnErr, OnOk, IfNone, Some, option_copied, option_map, slice_get};
ghost use Rattle.std.specs.List.{list_any};
ghost use Rattle.herm_links.specs.Lists.{first_node};
ghost use Rattle.herm_rows.specs.Keys.{has_key, is_key_of, HaveDifferentKeys, most_rows, rows_of, without};
ghost use Rattle.herm_rows.specs.Nodes.{Has, HasNode, IsAdded, nodes_without, NodesDiffer, place_at};
ghost use Rattle.herm_rows.specs.Faults.{refused_row, is_duplicate, is_full};

use crate::index::{place_of_key, place_of_row, put, remove};
use crate::row::Row;
use herm_links::{Links, ListNo, NodeNo};
use std::alloc::{AllocError, Global};
use std::marker::Model;

/// The greatest number of rows.
pub const MOST_ROWS: usize = 4096;

/// Why a row was not inserted, with the row.
#[derive(Debug, Drop)]
pub enum InsertFault<R> {
    /// A row with the same key is there.
    Duplicate(R),
    /// There are as many rows as there may be.
    Full(R),
    /// Memory is wanted.
    Memory(R),
}

/// At most `MOST_ROWS` rows with different keys, in the order of their insertion. A row has a node from its insertion to its removal.
#[derive(Drop)]
pub struct Rows<R: Row> {
    links: Links<R>,
    // The list of the rows, the first one, once it is made.
    list: Option<ListNo>,
    // The nodes in the order of their rows' keys.
    index: Vec<NodeNo>,
}

impl<R: Row> Model for Rows<R> {
    ghost use Rattle.std.specs.Prelude.{List, ℕ};
    ghost use Rattle.herm_links.specs.Lists.{entries_of};
    ghost use Rattle.herm_rows.specs.Nodes.{AreKept};

    ghost Value = { List (ℕ × R) };

    ghost view = { λ a. entries_of a.links 0 };

    ghost invariant = { λ a. AreKept R.order a.links a.list a.index.items };
}

impl<R: Row> Rows<R> {
    /// No rows.
    pub fn new(alloc: Global) -> Rows<R>
        ensures none { result ≡ [] }
    {
        Rows {
            links: Links::new(alloc),
            list: None,
            index: Vec::new(alloc),
        }
    }

    /// No rows, and memory taken for so many.
    pub fn with_room(alloc: Global, count: usize) -> Result<Rows<R>, AllocError>
    where
        R: Drop,
        ensures none { IfOk result (λ rows. rows ≡ []) }
    {
        let mut rows = Rows::new(alloc);
        rows.links.reserve(count)?;
        rows.index.reserve(count)?;
        Ok(rows)
    }

    /// The number of rows.
    pub fn len(&self) -> usize
        ensures number { result ≡ length (rows_of self.now) }
        ensures few { length (rows_of self.now) ≤ most_rows }
        ensures keys { HaveDifferentKeys R.order (rows_of self.now) }
        ensures nodes { NodesDiffer self.now }
    {
        self.index.len()
    }

    /// The first node.
    pub fn first(&self) -> Option<NodeNo>
        ensures node { option_map (λ node. node.0) result ≡ first_node self.now }
        ensures stands { IfSome result (λ node. HasNode self.now node.0) }
        ensures place { place_at self.now result ≡ 0 }
    {
        let list = self.list?;
        self.links.front(list)
    }

    /// The node behind a node.
    pub fn after(&self, node: NodeNo) -> Option<NodeNo>
        requires stands { HasNode self.now node.0 }
        ensures node { (before : List (ℕ × R)) (row : R) (behind : List (ℕ × R)) → self.now ≡ before ++ (node.0, row) ∷ behind → option_map (λ node. node.0) result ≡ first_node behind }
        ensures stands { IfSome result (λ node. HasNode self.now node.0) }
        ensures place { place_at self.now result ≡ place_at self.now (Some node) + 1 }
    {
        self.links.next(node)
    }

    /// The row of a node.
    pub fn row(&self, node: NodeNo) -> &R
        requires stands { HasNode self.now node.0 }
        ensures row { Has self.now node.0 result.now }
        ensures place { slice_get self.now (place_at self.now (Some node)) ≡ Some (node.0, result.now) }
    {
        self.links.at(node)
    }

    /// The row at a place in the order of insertion.
    pub fn at(&self, place: usize) -> &R
        requires { place < length (rows_of self.now) }
        ensures row { slice_get (rows_of self.now) place ≡ Some result.now }
    {
        self.links.at(self.node_at(place))
    }

    // The node at a place in the order of insertion.
    fn node_at(&self, place: usize) -> NodeNo
        requires { place < length self.now }
        ensures { option_map (λ entry. entry.0) (slice_get self.now place) ≡ Some result.0 }
    {
        let mut node = self.first();
        let mut left = place;
        while left > 0 {
            node = self.node_behind(node);
            left -= 1;
        }
        node.unwrap()
    }

    // The node behind a node, if there is one.
    fn node_behind(&self, node: Option<NodeNo>) -> Option<NodeNo>
        requires { IfSome node (λ n. HasNode self.now n.0) }
        ensures { (place : ℕ) → option_map (λ n. n.0) node ≡ option_map (λ e. e.0) (slice_get self.now place) → option_map (λ n. n.0) result ≡ option_map (λ e. e.0) (slice_get self.now (place + 1)) }
    {
        match node {
            Some(node) => return self.after(node),
            None => return None,
        }
    }

    /// The row with this key.
    pub fn find(&self, key: &R::Key) -> Option<&R>
        ensures row { option_copied result ≡ find (has_key R.order_key key.now) (rows_of self.now) }
    {
        match place_of_key(&self.links, &self.index, key) {
            Ok(place) => Some(self.links.at(self.index[place])),
            Err(_) => None,
        }
    }

    /// Puts a row behind the others.
    pub fn insert(&mut self, row: R) -> Result<(), InsertFault<R>>
        ensures inserted { OnOk result (rows_of self.new ≡ rows_of self.old ++ row ∷ []) }
        ensures node { OnOk result (IsAdded self.old self.new row) }
        ensures duplicate { is_duplicate result ≡ list_any (is_key_of R.order row) (rows_of self.old) }
        ensures full { is_full result ≡ (not (list_any (is_key_of R.order row) (rows_of self.old)) && nat_le most_rows (length (rows_of self.old))) }
        ensures unchanged { OnErr result (self.new ≡ self.old) }
        ensures handed_back { IfErr result (λ fault. refused_row fault ≡ row) }
    {
        let place = match place_of_row(&self.links, &self.index, &row) {
            Ok(_) => return Err(InsertFault::Duplicate(row)),
            Err(place) => place,
        };
        if self.index.len() >= MOST_ROWS {
            return Err(InsertFault::Full(row));
        }
        match put(&mut self.links, &mut self.list, &mut self.index, place, row) {
            Ok(()) => return Ok(()),
            Err(row) => return Err(InsertFault::Memory(row)),
        }
    }

    /// Takes the row with this key out.
    pub fn remove(&mut self, key: &R::Key) -> Option<R>
        ensures row { result ≡ find (has_key R.order_key key.now) (rows_of self.old) }
        ensures others { rows_of self.new ≡ without (has_key R.order_key key.now) (rows_of self.old) }
        ensures nodes { self.new ≡ nodes_without (has_key R.order_key key.now) self.old }
        ensures unchanged { IfNone result (self.new ≡ self.old) }
    {
        match place_of_key(&self.links, &self.index, key) {
            Ok(place) => {
                let node = remove(&mut self.index, place);
                Some(self.links.unlink(node))
            }
            Err(_) => None,
        }
    }
}
