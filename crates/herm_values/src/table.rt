//! Tables: rows with different keys, in the order of their insertion.
ghost use Rattle.std.specs.Prelude.{◌≡◌, ◌≤◌, ◌<◌, ◌+◌, ◌&&◌, not, max, [], true, length, Some, None, IfSome, IfOk, IfErr, IsErr, OnOk, OnErr, drop, get_or, option_map, nat_le, slice_get};
ghost use Rattle.std.specs.Vec.{vec_len, vec_capacity};
ghost use Rattle.herm_rows.specs.Keys.{most_rows};
ghost use Rattle.herm_rows.specs.Faults.{refused_row, is_duplicate, is_full};
ghost use Rattle.herm_rows.specs.Nodes.{HasNode};
ghost use Rattle.herm_model.specs.Values.{part, no_parts, part_at, joined, size};
ghost use Rattle.herm_model.specs.Tables.{key_of, has_key, has_distinct_keys};
ghost use Rattle.herm_values.specs.Keys.{row_with, without_key};
ghost use Rattle.herm_values.specs.View.{value_view, key_view, row_views, rows_from, table_parts, views_of, places_in};
ghost use Rattle.herm_values.specs.Whole.{IsWhole, IsWholeTable, IsRowOf, HasOneMore, IsAsItWas, HasAllBut};
ghost use Rattle.herm_values.specs.declared.value.Value.{size-Value};
ghost use Rattle.herm_values.specs.declared.value.Table.{size-Table};

use crate::keys::{held_at, is_key_there, key_of};
use crate::places::{exchange, free_place, put_row};
use crate::scalar::{KeyRow, Scalar};
use crate::value::{Table, Value};
use herm_links::NodeNo;
use herm_rows::{InsertFault, MOST_ROWS, Rows};
use std::alloc::{AllocError, Global};

impl Table {
    /// A table with these fields as its key, and no rows. It takes no memory.
    pub fn new(alloc: Global, columns: Vec<u32>) -> Table
        ensures columns { result.columns ≡ columns }
        ensures rows { table_parts result ≡ no_parts }
        ensures whole { IsWholeTable result }
    {
        Table {
            columns,
            keys: Rows::new(alloc),
            rows: Vec::new(alloc),
        }
    }

    /// The number of rows. Those of a whole table have different keys.
    pub fn len(&self) -> usize
        ensures number { result ≡ length (row_views self.now) }
        ensures few { length (row_views self.now) ≤ most_rows }
        ensures different { IsWholeTable self.now → has_distinct_keys self.now.columns.items (table_parts self.now) ≡ true }
    {
        self.keys.len()
    }

    /// The node of the first row.
    pub fn first(&self) -> Option<NodeNo>
        ensures rows { rows_from self.now result ≡ row_views self.now }
        ensures stands { IfSome result (λ node. HasNode self.now.keys node.0) }
    {
        self.keys.first()
    }

    /// The node of the row behind this one's.
    pub fn after(&self, node: NodeNo) -> Option<NodeNo>
        requires stands { HasNode self.now.keys node.0 }
        ensures rows { rows_from self.now result ≡ drop 1 (rows_from self.now (Some node)) }
        ensures stands { IfSome result (λ node. HasNode self.now.keys node.0) }
    {
        self.keys.after(node)
    }

    /// The row of a node. A whole table has one at each.
    pub fn row(&self, node: NodeNo) -> Option<&Value>
        requires stands { HasNode self.now.keys node.0 }
        ensures row { slice_get (rows_from self.now (Some node)) 0 ≡ Some (option_map (λ v. value_view v.now) result) }
        ensures row_itself { IfSome result (λ v. IsRowOf self.now v.now) }
        ensures whole { IsWholeTable self.now → IfSome result (λ v. IsWhole v.now) }
        ensures smaller { IfSome result (λ v. size-Value v.now < size-Table self.now) }
    {
        let place = self.keys.row(node).place;
        match self.rows.get(place as usize) {
            Some(row) => row.as_ref(),
            None => None,
        }
    }

    /// The row at a place in the order of insertion. A whole table has one at each. It goes from row to row: who reads all
    /// rows goes by `first` and `after`.
    pub fn row_at(&self, n: usize) -> Option<&Value>
        requires place { n < length (row_views self.now) }
        ensures row { option_map (λ v. value_view v.now) result ≡ get_or (row_views self.now) n None }
        ensures row_itself { IfSome result (λ v. IsRowOf self.now v.now) }
        ensures whole { IsWholeTable self.now → IfSome result (λ v. IsWhole v.now) }
        ensures smaller { IfSome result (λ v. size-Value v.now < size-Table self.now) }
    {
        let place = self.keys.at(n).place;
        match self.rows.get(place as usize) {
            Some(row) => row.as_ref(),
            None => None,
        }
    }

    /// The places of the fields that are the key.
    pub fn columns(&self) -> &[u32]
        ensures columns { result.now ≡ self.now.columns.items }
    {
        self.columns.as_slice()
    }

    /// The row at a place in the order of insertion.
    pub fn at(&self, n: usize) -> &Value
        requires place { n < length (row_views self.now) }
        requires whole { IsWholeTable self.now }
        ensures row { part_at n (table_parts self.now) ≡ Some (value_view result.now) }
        ensures row_itself { IsRowOf self.now result.now }
        ensures row_whole { IsWhole result.now }
    {
        self.row_at(n).unwrap()
    }

    /// The row with this key, if there is one.
    pub fn find(&self, key: &Vec<Scalar>) -> Option<&Value>
        requires whole { IsWholeTable self.now }
        ensures row { option_map (λ v. value_view v.now) result ≡ row_with self.now.columns.items (key_view key.now.items) (table_parts self.now) }
        ensures row_itself { IfSome result (λ v. IsRowOf self.now v.now) }
        ensures row_whole { IfSome result (λ v. IsWhole v.now) }
    {
        let found = self.keys.find(key)?;
        held_at(self.rows.as_slice(), found.place)
    }

    /// The key of a row and the place for it, for which there is room then.
    fn entry_of(&mut self, row: &Value) -> Result<KeyRow, AllocError>
        requires whole { IsWholeTable self.old }
        ensures as_it_was { IsAsItWas self.old self.new }
        ensures key { IfOk result (λ entry. key_view entry.key.items ≡ key_of self.old.columns.items (value_view row.now)) }
        ensures empty { IfOk result (λ entry. get_or self.old.rows.items entry.place None ≡ None) }
        ensures low { IfOk result (λ entry. entry.place ≤ length (row_views self.old)) }
        ensures within { IfOk result (λ entry. entry.place ≤ length self.old.rows.items) }
        ensures room { IfOk result (λ entry. length self.old.rows.items ≤ entry.place → vec_len self.new.rows < vec_capacity self.new.rows) }
    {
        let key = key_of(*self.columns.allocator(), self.columns.as_slice(), row)?;
        let place = free_place(&mut self.rows, self.keys.len())?;
        Ok(KeyRow { key, place })
    }

    /// Refuses a row for which memory is wanted. Where a row has its key, or there are as many as there may be, that is told.
    fn refuse(&self, row: Value) -> Result<(), InsertFault<Value>>
        requires whole { IsWholeTable self.now }
        ensures duplicate { is_duplicate result ≡ has_key self.now.columns.items (key_of self.now.columns.items (value_view row)) (table_parts self.now) }
        ensures full { is_full result ≡ (not (has_key self.now.columns.items (key_of self.now.columns.items (value_view row)) (table_parts self.now)) && nat_le most_rows (size (table_parts self.now))) }
        ensures handed_back { IfErr result (λ fault. refused_row fault ≡ row) }
        ensures refused { IsErr result }
    {
        if is_key_there(&self.keys, self.columns.as_slice(), &row) {
            return Err(InsertFault::Duplicate(row));
        }
        if self.keys.len() >= MOST_ROWS {
            return Err(InsertFault::Full(row));
        }
        Err(InsertFault::Memory(row))
    }

    /// Puts a row behind the others. The place of a removed row is used again, so a table keeps at most one place more
    /// than its greatest number of rows. Where memory is wanted too, a row with the same key and one row too many are told
    /// all the same.
    pub fn insert(&mut self, row: Value) -> Result<(), InsertFault<Value>>
        requires whole { IsWholeTable self.old }
        requires row { IsWhole row }
        ensures inserted { OnOk result (table_parts self.new ≡ joined (table_parts self.old) (part (value_view row) no_parts)) }
        ensures duplicate { is_duplicate result ≡ has_key self.old.columns.items (key_of self.old.columns.items (value_view row)) (table_parts self.old) }
        ensures full { is_full result ≡ (not (has_key self.old.columns.items (key_of self.old.columns.items (value_view row)) (table_parts self.old)) && nat_le most_rows (size (table_parts self.old))) }
        ensures unchanged { OnErr result (table_parts self.new ≡ table_parts self.old) }
        ensures as_it_was { OnErr result (IsAsItWas self.old self.new) }
        ensures handed_back { IfErr result (λ fault. refused_row fault ≡ row) }
        ensures columns { self.new.columns ≡ self.old.columns }
        ensures row_itself { OnOk result (HasOneMore self.old self.new row) }
        ensures places { places_in self.new ≤ max (places_in self.old) (length (row_views self.old) + 1) }
        ensures whole { IsWholeTable self.new }
    {
        let entry = match self.entry_of(&row) {
            Ok(entry) => entry,
            Err(_) => return self.refuse(row),
        };
        let place = entry.place;
        match self.keys.insert(entry) {
            Ok(()) => {
                put_row(&mut self.rows, place, row);
                Ok(())
            }
            Err(InsertFault::Duplicate(_)) => Err(InsertFault::Duplicate(row)),
            Err(InsertFault::Full(_)) => Err(InsertFault::Full(row)),
            Err(InsertFault::Memory(_)) => Err(InsertFault::Memory(row)),
        }
    }

    /// Takes the row with this key out, if there is one. It takes no memory.
    pub fn remove(&mut self, key: &Vec<Scalar>) -> Option<Value>
        requires whole { IsWholeTable self.old }
        ensures row { option_map value_view result ≡ row_with self.old.columns.items (key_view key.now.items) (table_parts self.old) }
        ensures others { table_parts self.new ≡ without_key self.old.columns.items (key_view key.now.items) (table_parts self.old) }
        ensures columns { self.new.columns ≡ self.old.columns }
        ensures row_itself { IfSome result (λ v. IsRowOf self.old v) }
        ensures rows_themselves { HasAllBut self.old self.new result }
        ensures places { places_in self.new ≡ places_in self.old }
        ensures whole { IsWholeTable self.new }
        ensures row_whole { IfSome result IsWhole }
    {
        if self.keys.len() == 0 {
            return None;
        }
        let found = self.keys.remove(key)?;
        exchange(&mut self.rows, found.place, None)
    }
}
