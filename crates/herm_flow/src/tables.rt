//! Tables by exception number: the points to which exceptions lead, and the places at which they are declared.
ghost use Rattle.std.specs.Prelude.{ℕ, ◌≡◌, ◌+◌, ◌≤◌, length, map, cond, nat_eq, is_some, Option, Some, None, IfOk, OnOk};
ghost use Rattle.herm_model.specs.Lists.{list_of};
ghost use Rattle.herm_model.specs.Handlers.{caught};
ghost use Rattle.herm_types.specs.View.{raise_decl_view};
ghost use Rattle.herm_flow.specs.View.{target_view, catch_view};
ghost use Rattle.herm_flow.specs.NumberTables.{at_number, point_of, kept_if_raised, kept_at};

use crate::flow::Target;
use crate::starts::Catch;
use herm_base::ExcNo;
use herm_types::RaiseDecl;
use std::alloc::{AllocError, Global};

/// The number of Disconnected, which each call can raise.
const DISCONNECTED: ExcNo = ExcNo(6);

/// A table of more numbers than this one, with the same entries.
#[tactic(auto, using(crate::proofs::NumberTables::entry_pushed))]
fn widen(table: &mut Vec<Option<usize>>, place: usize) -> Result<(), AllocError>
    ensures same { OnOk result ((e : ℕ) → at_number table.new.items e ≡ at_number table.old.items e) }
    ensures wide { OnOk result (place + 1 ≤ length table.new.items) }
{
    'more: while table.len() <= place {
        table.push(None)?;
    }
    Ok(())
}

/// Puts an entry at a number.
#[tactic(auto, using(crate::proofs::NumberTables::entry_set))]
pub fn put(table: &mut Vec<Option<usize>>, n: u32, entry: Option<usize>) -> Result<(), AllocError>
    ensures entries { OnOk result ((m : ℕ) → at_number table.new.items m ≡ cond (nat_eq n m) entry (at_number table.old.items m)) }
{
    widen(table, n as usize)?;
    table[n as usize] = entry;
    Ok(())
}

/// The entry of a number.
pub fn number_at(table: &[Option<usize>], n: u32) -> Option<usize>
    ensures entry { result ≡ at_number table.now n }
{
    match table.get(n as usize) {
        Some(entry) => *entry,
        None => None,
    }
}

/// The point to which a target leads.
fn point_in(to: Target) -> Option<usize>
    ensures point { result ≡ point_of (target_view to) }
{
    match to {
        Target::Point(i) => Some(i as usize),
        Target::End => None,
        Target::EndBy(_) => None,
    }
}

/// The points to which exceptions lead, by the handlers within reach.
#[tactic(auto, using(crate::proofs::NumberTables::caught_more))]
pub fn points_of(alloc: Global, catches: &[Catch]) -> Result<Vec<Option<usize>>, AllocError>
    ensures points { IfOk result (λ v. (e : ℕ) → at_number v.items e ≡ point_of (caught (map catch_view catches.now) e)) }
{
    let mut points = Vec::new(alloc);
    let mut left = catches.len();
    'catches: while left > 0 {
        left -= 1;
        let c = catches[left];
        put(&mut points, c.exception.0, point_in(c.target))?;
    }
    Ok(points)
}

/// Puts down the place at which an exception is declared, where it leads to a point.
fn put_declared(
    declared: &mut Vec<Option<usize>>,
    points: &[Option<usize>],
    e: ExcNo,
    place: usize,
) -> Result<(), AllocError>
    ensures entries { OnOk result ((n : ℕ) → at_number declared.new.items n ≡ cond (is_some (at_number points.now e.0)) (cond (nat_eq e.0 n) (Some place) (at_number declared.old.items n)) (at_number declared.old.items n)) }
{
    let point = number_at(points, e.0);
    match point {
        Some(_) => {
            put(declared, e.0, Some(place))?;
            Ok(())
        }
        None => Ok(()),
    }
}

/// The places at which those exceptions are declared that lead to points and that a call can raise. Disconnected, where it is not
/// declared, has the place behind all that are.
pub fn declared_of(
    alloc: Global,
    raises: &[RaiseDecl],
    points: &[Option<usize>],
) -> Result<Vec<Option<usize>>, AllocError>
    ensures declared { IfOk result (λ v. (e : ℕ) → kept_at (map raise_decl_view raises.now) (at_number v.items e) ≡ cond (is_some (at_number points.now e)) (kept_if_raised (map raise_decl_view raises.now) e) None) }
{
    let mut declared = Vec::new(alloc);
    let mut left = raises.len();
    put_declared(&mut declared, points, DISCONNECTED, left)?;
    'declared: while left > 0 {
        left -= 1;
        put_declared(&mut declared, points, raises[left].exc, left)?;
    }
    Ok(declared)
}

/// The parameters that the exception keeps that is declared at a place; none behind all places.
pub fn keeps_at(raises: &[RaiseDecl], place: Option<usize>) -> &[u32]
    ensures keeps { result.now ≡ list_of (λ k. k) (kept_at (map raise_decl_view raises.now) place) }
{
    let Some(place) = place else {
        return &[];
    };
    match raises.get(place) {
        Some(r) => r.keeps.as_slice(),
        None => &[],
    }
}
