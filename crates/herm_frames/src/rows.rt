//! The rows of loops: copied, visited and let go.
ghost use Rattle.std.specs.Prelude.{◌≡◌, ◌+◌, ◌++◌, ◌∷◌, Some, length, filter, not, nat_eq, reverse, map, false, [], IfOk, OnOk};
ghost use Rattle.std.specs.VecDeque.{deque_len};
ghost use Rattle.herm_model.specs.CellNames.{count, count_in};
ghost use Rattle.herm_model.specs.Finalising.{finalised_in, pending_in};
ghost use Rattle.herm_model.specs.Values.{parts_of};
ghost use Rattle.herm_places.specs.Held.{seen_places};
ghost use Rattle.herm_values.specs.Parts.{parts_from};
ghost use Rattle.herm_values.specs.View.{value_view, row_views, views_of};
ghost use Rattle.herm_values.specs.Whole.{IsWhole, AllWhole, IsWholeTable};
ghost use Rattle.herm_values.specs.Works.{waiting};
ghost use Rattle.herm_frames.specs.Counts.{cut};
ghost use Rattle.herm_frames.specs.Leaving.{lost_pending, lost_finalised};
ghost use Rattle.herm_frames.specs.Visits.{IsFirst, IsNext, IsWholeRow};

use crate::counts::{let_go, sum};
use crate::loops::Loop;
use herm_values::{Table, Value, Work, cells, copy_of};
use std::alloc::{AllocError, Global};
use std::collections::VecDeque;

/// Finalises rows, where so many cells have been finalised before. The answer is how many have been then.
pub fn let_go_rows(
    rows: VecDeque<Option<Value>>,
    work: &mut Work,
    before: u64,
) -> Result<u64, AllocError>
    ensures waiting { OnOk result (waiting work.new ≡ waiting work.old ++ pending_in (seen_places rows.items)) }
    ensures count { IfOk result (λ n. n ≡ cut (before + length (finalised_in (seen_places rows.items)))) }
{
    let mut left = rows;
    let mut count = sum(before, 0);
    'rows: while let Some(held) = left.pop_front() {
        if let Some(v) = held {
            count = let_go(v, work, count)?;
        }
    }
    Ok(count)
}

/// Leaves the loops of a slot: their rows are finalised, innermost first. The answer is how many cells have been finalised then.
#[tactic(auto, using(crate::proofs::LeftLoops::leaving_lemmas))]
pub fn leave(
    loops: &mut Vec<Loop>,
    slot: u32,
    work: &mut Work,
    before: u64,
) -> Result<u64, AllocError>
    ensures loops { OnOk result (reverse loops.new.items ≡ filter (λ l. not (nat_eq l.slot slot)) (reverse loops.old.items)) }
    ensures waiting { OnOk result (waiting work.new ≡ waiting work.old ++ lost_pending (λ l. not (nat_eq l slot)) (reverse loops.old.items)) }
    ensures count { IfOk result (λ n. n ≡ cut (before + length (lost_finalised (λ l. not (nat_eq l slot)) (reverse loops.old.items)))) }
{
    let Some(last) = loops.pop() else {
        return Ok(sum(before, 0));
    };
    if last.slot == slot {
        let count = let_go_rows(last.rows, work, before)?;
        let all = leave(loops, slot, work, count)?;
        return Ok(all);
    }
    let all = leave(loops, slot, work, before)?;
    loops.push(last)?;
    Ok(all)
}

/// Leaves all loops: their rows are finalised, innermost first. The answer is how many cells have been finalised then.
#[tactic(auto, using(crate::proofs::LeftLoops::leaving_lemmas))]
pub fn leave_all(loops: &mut Vec<Loop>, work: &mut Work, before: u64) -> Result<u64, AllocError>
    ensures loops { OnOk result (reverse loops.new.items ≡ []) }
    ensures waiting { OnOk result (waiting work.new ≡ waiting work.old ++ lost_pending (λ l. false) (reverse loops.old.items)) }
    ensures count { IfOk result (λ n. n ≡ cut (before + length (lost_finalised (λ l. false) (reverse loops.old.items)))) }
{
    let Some(last) = loops.pop() else {
        return Ok(sum(before, 0));
    };
    let count = let_go_rows(last.rows, work, before)?;
    let all = leave_all(loops, work, count)?;
    Ok(all)
}

/// What comes next in a loop: there is no such loop, no row is left in it, its next place is empty, or this row.
#[derive(Drop)]
pub enum NextRow {
    NoLoop,
    NoRow,
    Empty,
    Row(Value),
}

/// Takes the next row out of the innermost loop of a slot.
#[tactic(auto, using(crate::proofs::LeftLoops::leaving_lemmas))]
pub fn next_row(loops: &mut Vec<Loop>, slot: u32) -> Result<NextRow, AllocError>
    ensures next { IfOk result (λ r. IsNext r slot (reverse loops.old.items) (reverse loops.new.items)) }
    ensures whole { IfOk result (λ r. IsWholeRow r) }
{
    let Some(mut last) = loops.pop() else {
        return Ok(NextRow::NoLoop);
    };
    if last.slot == slot {
        let row = first_row(&mut last.rows);
        loops.push(last)?;
        return Ok(row);
    }
    let row = next_row(loops, slot)?;
    loops.push(last)?;
    Ok(row)
}

/// Takes the first row out.
fn first_row(rows: &mut VecDeque<Option<Value>>) -> NextRow
    ensures first { IsFirst result rows.old.items rows.new.items }
    ensures whole { AllWhole rows.old.items → IsWholeRow result }
    ensures left_whole { AllWhole rows.old.items → AllWhole rows.new.items }
{
    match rows.pop_front() {
        None => NextRow::NoRow,
        Some(None) => NextRow::Empty,
        Some(Some(v)) => NextRow::Row(v),
    }
}

/// Copies of rows, and how many cells they have.
#[derive(Drop)]
pub struct Copies {
    pub rows: VecDeque<Option<Value>>,
    pub cells: u64,
}

/// Copies of what a value holds in it: a table's rows, fields, parameters, or one content.
#[tactic(auto, using(crate::proofs::CopiedRows::seeing_parts))]
pub fn copies_of(alloc: Global, v: &Value) -> Result<Copies, AllocError>
    requires whole { IsWhole v.now }
    ensures copies { IfOk result (λ c. seen_places c.rows.items ≡ parts_of (value_view v.now)) }
    ensures cells { IfOk result (λ c. c.cells ≡ cut (count_in (parts_of (value_view v.now)))) }
    ensures whole { IfOk result (λ c. AllWhole c.rows.items) }
{
    match v {
        Value::Bool(_) => no_copies(alloc),
        Value::Int(_) => no_copies(alloc),
        Value::Text(_) => no_copies(alloc),
        Value::Tag(_) => no_copies(alloc),
        Value::Fields(fields) => {
            let copies = copies_of_places(alloc, fields.as_slice())?;
            Ok(copies)
        }
        Value::Case(_, content) => copy_of_one(alloc, content),
        Value::Table(table) => {
            let copies = copies_of_rows(alloc, table)?;
            Ok(copies)
        }
        Value::Poly(poly) => copy_of_one(alloc, poly.content()),
        Value::Call(call) => {
            let copies = copies_of_places(alloc, call.params())?;
            Ok(copies)
        }
        Value::Inport(_) => no_copies(alloc),
        Value::Outport(_) => no_copies(alloc),
    }
}

fn no_copies(alloc: Global) -> Result<Copies, AllocError>
    ensures copies { IfOk result (λ c. c.rows.items ≡ []) }
    ensures cells { IfOk result (λ c. c.cells ≡ 0) }
    ensures whole { IfOk result (λ c. AllWhole c.rows.items) }
{
    Ok(Copies {
        rows: VecDeque::new(alloc),
        cells: 0,
    })
}

#[tactic(auto, using(crate::proofs::CopiedRows::copying_rows))]
fn copy_of_one(alloc: Global, v: &Value) -> Result<Copies, AllocError>
    requires whole { IsWhole v.now }
    ensures copies { IfOk result (λ c. views_of c.rows.items ≡ Some (value_view v.now) ∷ []) }
    ensures cells { IfOk result (λ c. c.cells ≡ cut (count (value_view v.now))) }
    ensures whole { IfOk result (λ c. AllWhole c.rows.items) }
{
    let mut rows = VecDeque::new(alloc);
    let copy = copy_of(alloc, v)?;
    rows.push_back(Some(copy))?;
    Ok(Copies {
        rows,
        cells: cells(v),
    })
}

#[tactic(auto, using(crate::proofs::CopiedRows::copying_rows))]
fn copies_of_places(alloc: Global, places: &[Option<Value>]) -> Result<Copies, AllocError>
    requires whole { AllWhole places.now }
    ensures copies { IfOk result (λ c. views_of c.rows.items ≡ views_of places.now) }
    ensures cells { IfOk result (λ c. c.cells ≡ cut (count_in (parts_from (views_of places.now)))) }
    ensures whole { IfOk result (λ c. AllWhole c.rows.items) }
{
    let mut rows = VecDeque::new(alloc);
    let mut total = 0;
    'places: for held in places {
        let Some(v) = held else {
            rows.push_back(None)?;
            continue;
        };
        let copy = copy_of(alloc, v)?;
        rows.push_back(Some(copy))?;
        total = sum(total, cells(v));
    }
    Ok(Copies { rows, cells: total })
}

#[tactic(auto, using(crate::proofs::CopiedRows::copying_rows, herm_values::proofs::Walked::walk))]
fn copies_of_rows(alloc: Global, table: &Table) -> Result<Copies, AllocError>
    requires whole { IsWholeTable table.now }
    ensures copies { IfOk result (λ c. views_of c.rows.items ≡ row_views table.now) }
    ensures cells { IfOk result (λ c. c.cells ≡ cut (count_in (parts_from (row_views table.now)))) }
    ensures whole { IfOk result (λ c. AllWhole c.rows.items) }
{
    let mut rows = VecDeque::new(alloc);
    let mut total = 0;
    let mut next = table.first();
    'rows: while let Some(node) = next {
        next = table.after(node);
        let Some(row) = table.row(node) else {
            rows.push_back(None)?;
            continue;
        };
        let copy = copy_of(alloc, row)?;
        rows.push_back(Some(copy))?;
        total = sum(total, cells(row));
    }
    Ok(Copies { rows, cells: total })
}
