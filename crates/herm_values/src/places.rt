//! Places of rows.
ghost use Rattle.std.specs.Prelude.{◌≡◌, ◌<◌, ◌≤◌, ◌+◌, ℕ, Some, None, IfSome, IfNone, length, get_or, IfOk, OnOk, max};
ghost use Rattle.std.specs.Vec.{vec_len, vec_capacity};
ghost use Rattle.herm_rows.specs.Keys.{most_rows};
ghost use Rattle.std.specs.List.{position};
ghost use Rattle.std.specs.Option.{is_none};
ghost use Rattle.herm_values.specs.Parts.{filled};
ghost use Rattle.herm_values.specs.View.{views_of};
ghost use Rattle.herm_values.specs.Whole.{IsWhole, AllWhole};

use crate::value::Value;
use std::alloc::AllocError;
use std::mem;

/// The first place that is empty, where some are.
fn first_empty(rows: &[Option<Value>]) -> Option<usize>
    ensures empty { IfSome result (λ place. get_or rows.now place None ≡ None) }
    ensures within { IfSome result (λ place. place < length rows.now) }
    ensures first { result ≡ position (λ row. is_none row) rows.now }
{
    rows.iter().position(|row| row.is_none())
}

/// The first place that is empty, and none only where all have a row.
fn empty_place(rows: &[Option<Value>]) -> Option<usize>
    ensures empty { IfSome result (λ place. get_or rows.now place None ≡ None) }
    ensures within { IfSome result (λ place. place < length rows.now) }
    ensures low { IfSome result (λ place. place ≤ filled rows.now) }
    ensures full { IfNone result (filled rows.now ≡ length rows.now) }
{
    first_empty(rows)
}

/// A place behind the others, for which there is room then.
fn last_place(rows: &mut Vec<Option<Value>>) -> Result<usize, AllocError>
    ensures same { rows.new.items ≡ rows.old.items }
    ensures last { IfOk result (λ place. place ≡ length rows.old.items) }
    ensures room { OnOk result (vec_len rows.new < vec_capacity rows.new) }
{
    rows.reserve(1)?;
    Ok(rows.len())
}

/// The place for one row more, where so many have a row: the first that is empty, or one behind the others, for which there
/// is room then.
pub fn free_place(rows: &mut Vec<Option<Value>>, used: usize) -> Result<u32, AllocError>
    requires used { filled rows.old.items ≤ used }
    requires few { used ≤ most_rows }
    ensures same { rows.new.items ≡ rows.old.items }
    ensures empty { IfOk result (λ place. get_or rows.old.items place None ≡ None) }
    ensures low { IfOk result (λ place. place ≤ used) }
    ensures within { IfOk result (λ place. place ≤ length rows.old.items) }
    ensures room { IfOk result (λ place. length rows.old.items ≤ place → vec_len rows.new < vec_capacity rows.new) }
{
    if used >= rows.len() {
        let place = last_place(rows)?;
        return Ok(place as u32);
    }
    match empty_place(rows.as_slice()) {
        Some(place) => Ok(place as u32),
        None => unreachable!(),
    }
}

/// Puts this at a place. The answer is what stood there.
pub fn exchange(rows: &mut Vec<Option<Value>>, place: u32, held: Option<Value>) -> Option<Value>
    requires within { place < length rows.old.items }
    ensures old { result ≡ get_or rows.old.items place None }
    ensures put { get_or rows.new.items place None ≡ held }
    ensures places { length rows.new.items ≡ length rows.old.items }
    ensures others { (i : ℕ) → (i ≡ place → ⊥) → get_or rows.new.items i None ≡ get_or rows.old.items i None }
    ensures whole { AllWhole rows.old.items → IfSome held IsWhole → AllWhole rows.new.items }
    ensures given { AllWhole rows.old.items → IfSome result IsWhole }
{
    mem::replace(&mut rows[place as usize], held)
}

/// Puts a row behind the others.
fn add_row(rows: &mut Vec<Option<Value>>, row: Value)
    requires room { vec_len rows.old < vec_capacity rows.old }
    ensures put { get_or rows.new.items (length rows.old.items) None ≡ Some row }
    ensures places { length rows.new.items ≡ length rows.old.items + 1 }
    ensures others { (i : ℕ) → (i ≡ length rows.old.items → ⊥) → get_or rows.new.items i None ≡ get_or rows.old.items i None }
    ensures whole { AllWhole rows.old.items → IsWhole row → AllWhole rows.new.items }
{
    rows.push_reserved(Some(row));
}

/// Puts a row at an empty place, or at the one behind the others.
pub fn put_row(rows: &mut Vec<Option<Value>>, place: u32, row: Value)
    requires within { place ≤ length rows.old.items }
    requires room { length rows.old.items ≤ place → vec_len rows.old < vec_capacity rows.old }
    ensures put { get_or rows.new.items place None ≡ Some row }
    ensures places { length rows.new.items ≡ max (length rows.old.items) (place + 1) }
    ensures others { (i : ℕ) → (i ≡ place → ⊥) → get_or rows.new.items i None ≡ get_or rows.old.items i None }
    ensures whole { AllWhole rows.old.items → IsWhole row → AllWhole rows.new.items }
{
    if (place as usize) < rows.len() {
        let _ = exchange(rows, place, Some(row));
        return;
    }
    add_row(rows, row);
}
