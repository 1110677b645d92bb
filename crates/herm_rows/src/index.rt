//! An index of nodes in the order of their rows' keys.
ghost use Rattle.std.specs.Prelude.{◌≡◌, ◌<◌, ◌≤◌, length, remove, slice_index_or, IfOk, IfErr, OnOk, OnErr};
ghost use Rattle.herm_links.specs.Lists.{entries_of};
ghost use Rattle.herm_rows.specs.Keys.{most_rows};
ghost use Rattle.herm_rows.specs.Nodes.{IsAdded, IsIndex, NodesDiffer, IsPlace, IsMade, AreKept};

use crate::row::Row;
use herm_links::{Links, ListNo, NodeNo};
use std::alloc::AllocError;
use std::cmp::Ordering;

/// The place in the index of the row with this key, or the place where it would stand.
pub fn place_of_key<R: Row>(
    links: &Links<R>,
    index: &[NodeNo],
    key: &R::Key,
) -> Result<usize, usize>
    requires index { IsIndex R.order (entries_of links.now 0) index.now }
    requires nodes { NodesDiffer (entries_of links.now 0) }
    ensures { IsPlace (λ row. R.order_key row key.now) (entries_of links.now 0) index.now result }
{
    let mut low = 0;
    let mut high = index.len();
    while low < high {
        let middle = low + (high - low) / 2;
        match links.at(index[middle]).order_key(key) {
            Ordering::Less => low = middle + 1,
            Ordering::Equal => return Ok(middle),
            Ordering::Greater => high = middle,
        }
    }
    Err(low)
}

/// The place in the index of the row with the key of this row, or the place where it would stand.
pub fn place_of_row<R: Row>(links: &Links<R>, index: &[NodeNo], row: &R) -> Result<usize, usize>
    requires index { IsIndex R.order (entries_of links.now 0) index.now }
    requires nodes { NodesDiffer (entries_of links.now 0) }
    ensures { IsPlace (λ other. R.order other row.now) (entries_of links.now 0) index.now result }
{
    let mut low = 0;
    let mut high = index.len();
    while low < high {
        let middle = low + (high - low) / 2;
        match links.at(index[middle]).order(row) {
            Ordering::Less => low = middle + 1,
            Ordering::Equal => return Ok(middle),
            Ordering::Greater => high = middle,
        }
    }
    Err(low)
}

/// Makes room for a row, and the list where there is none yet.
fn make_room<R>(links: &mut Links<R>, list: &mut Option<ListNo>) -> Result<ListNo, AllocError>
    requires { IsMade links.old list.old }
    ensures made { IsMade links.new list.new }
    ensures entries { entries_of links.new 0 ≡ entries_of links.old 0 }
    ensures first { IfOk result (λ first. first.0 ≡ 0) }
    ensures live { OnOk result (0 < length links.new.lists) }
    ensures room { OnOk result (0 < links.new.spare) }
{
    links.reserve(1)?;
    if let Some(first) = *list {
        return Ok(first);
    }
    let first = links.new_list()?;
    *list = Some(first);
    Ok(first)
}

/// Takes the node at a place out of the index. The nodes behind it move up.
pub fn remove(index: &mut Vec<NodeNo>, place: usize) -> NodeNo
    requires within { place < length index.old.items }
    ensures value { result ≡ slice_index_or index.old.items place result }
    ensures items { index.new.items ≡ remove index.old.items place }
{
    index.remove(place)
}

/// Puts a row behind the others, and its node at this place of the index. The row is handed back where memory is wanted.
pub fn put<R: Row>(
    links: &mut Links<R>,
    list: &mut Option<ListNo>,
    index: &mut Vec<NodeNo>,
    place: usize,
    row: R,
) -> Result<(), R>
    requires kept { AreKept R.order links.old list.old index.old.items }
    requires place { IsPlace (λ other. R.order other row) (entries_of links.old 0) index.old.items (Err place) }
    requires few { length index.old.items < most_rows }
    ensures kept { AreKept R.order links.new list.new index.new.items }
    ensures added { OnOk result (IsAdded (entries_of links.old 0) (entries_of links.new 0) row) }
    ensures unchanged { OnErr result (entries_of links.new 0 ≡ entries_of links.old 0) }
    ensures handed_back { IfErr result (λ refused. refused ≡ row) }
{
    let first = match make_room(links, list) {
        Ok(first) => first,
        Err(_) => return Err(row),
    };
    let node = links.push_back(first, row);
    match index.insert(place, node) {
        Ok(()) => Ok(()),
        Err(_) => Err(links.unlink(node)),
    }
}
