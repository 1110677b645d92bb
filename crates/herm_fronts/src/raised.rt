//! The exceptions that instructions can raise.
ghost use Rattle.std.specs.Prelude.{◌≡◌, ◌∷◌, [], map, length, slice_get, MatchOption, IfOk};
ghost use Rattle.herm_model.specs.Outcomes.{with_number, rising, disconnected, raised_by_new};
ghost use Rattle.herm_model.specs.Calls.{shape_at};
ghost use Rattle.herm_types.specs.View.{path_view, raise_decl_view};
ghost use Rattle.herm_typed.specs.Outcomes.{IsPlaceFor};
ghost use Rattle.herm_fronts.specs.Frames.{table_of, variables_of};
ghost use Rattle.herm_instructions.specs.Effects.{exceptions_of};
ghost use Rattle.herm_code.specs.View.{instr_view};

use crate::frame::Frame;
use crate::shapes::{call_raises, shape_at};
use herm_base::ExcNo;
use herm_code::Instr;
use herm_types::{Path, RaiseDecl, Shape};
use std::alloc::{AllocError, Global};

/// The numbers of predefined exceptions.
const OVERFLOW: ExcNo = ExcNo(0);

const DEPLETION: ExcNo = ExcNo(1);

const CASE_ERROR: ExcNo = ExcNo(2);

const POLYMORPH_MISMATCH: ExcNo = ExcNo(3);

const DUPLICATE_KEY: ExcNo = ExcNo(4);

const NOT_FOUND: ExcNo = ExcNo(5);

const DISCONNECTED: ExcNo = ExcNo(6);

/// Where a number belongs among rising ones; none where it is one of them.
fn place_for(numbers: &[ExcNo], e: ExcNo) -> Option<usize>
    ensures { MatchOption result (with_number e.0 (map (λ n. n.0) numbers.now) ≡ map (λ n. n.0) numbers.now) (IsPlaceFor numbers.now e) }
{
    'places: for (i, n) in numbers.iter().enumerate() {
        if e.0 < n.0 {
            return Some(i);
        }
        if e.0 == n.0 {
            return None;
        }
    }
    Some(numbers.len())
}

/// An exception's number at its place among rising ones, without repeats.
fn add_number(numbers: &mut Vec<ExcNo>, e: ExcNo) -> Result<(), AllocError>
    ensures { IfOk result (λ u. map (λ n. n.0) numbers.new.items ≡ with_number e.0 (map (λ n. n.0) numbers.old.items)) }
{
    match place_for(numbers.as_slice(), e) {
        None => Ok(()),
        Some(place) => {
            numbers.insert(place, e)?;
            Ok(())
        }
    }
}

/// The exceptions that a callmessage declares, with Disconnected, by rising number.
fn call_numbers(alloc: Global, raises: &[RaiseDecl]) -> Result<Vec<ExcNo>, AllocError>
    ensures { IfOk result (λ v. map (λ n. n.0) v.items ≡ rising (disconnected ∷ map (λ r. r.exception) (map raise_decl_view raises.now))) }
{
    let mut found = Vec::new(alloc);
    let mut left = raises.len();
    'declared: while left > 0 {
        left -= 1;
        add_number(&mut found, raises[left].exc)?;
    }
    add_number(&mut found, DISCONNECTED)?;
    Ok(found)
}

/// One exception.
fn one(alloc: Global, a: ExcNo) -> Result<Vec<ExcNo>, AllocError>
    ensures { IfOk result (λ v. map (λ n. n.0) v.items ≡ a.0 ∷ []) }
{
    let mut found = Vec::with_capacity(alloc, 1)?;
    found.push(a)?;
    Ok(found)
}

/// Two exceptions.
fn two(alloc: Global, a: ExcNo, b: ExcNo) -> Result<Vec<ExcNo>, AllocError>
    ensures { IfOk result (λ v. map (λ n. n.0) v.items ≡ a.0 ∷ b.0 ∷ []) }
{
    let mut found = Vec::with_capacity(alloc, 2)?;
    found.push(a)?;
    found.push(b)?;
    Ok(found)
}

/// The exceptions of `new`, which can be refused for an inport alone.
fn new_numbers(alloc: Global, frame: &Frame, x: &Path) -> Result<Vec<ExcNo>, AllocError>
    ensures { IfOk result (λ v. map (λ n. n.0) v.items ≡ raised_by_new (shape_at (table_of frame.now) (variables_of frame.now) (path_view x.now))) }
{
    match shape_at(frame, x) {
        None => Ok(Vec::new(alloc)),
        Some(shape) => match shape {
            Shape::Inport {
                message: _,
                facts: _,
            } => one(alloc, DEPLETION),
            _ => Ok(Vec::new(alloc)),
        },
    }
}

/// The exceptions that an instruction can raise, by rising number.
pub fn exceptions_of(alloc: Global, frame: &Frame, instr: &Instr) -> Result<Vec<ExcNo>, AllocError>
    ensures { IfOk result (λ v. map (λ n. n.0) v.items ≡ exceptions_of (table_of frame.now) (variables_of frame.now) (instr_view instr.now)) }
{
    match instr {
        Instr::Neg => one(alloc, OVERFLOW),
        Instr::Add => one(alloc, OVERFLOW),
        Instr::Sub => one(alloc, OVERFLOW),
        Instr::Mul => one(alloc, OVERFLOW),
        Instr::Div => one(alloc, OVERFLOW),
        Instr::Mod => one(alloc, OVERFLOW),
        Instr::Cat => one(alloc, DEPLETION),
        Instr::New(x, _) => new_numbers(alloc, frame, x),
        Instr::Reveal(_, _) => one(alloc, CASE_ERROR),
        Instr::Wrap(_, _, _) => one(alloc, DEPLETION),
        Instr::Unwrap(_, _, _) => one(alloc, POLYMORPH_MISMATCH),
        Instr::Insert(_, _) => two(alloc, DEPLETION, DUPLICATE_KEY),
        Instr::Remove(_, _, _) => one(alloc, NOT_FOUND),
        Instr::Get(_, _, _) => one(alloc, NOT_FOUND),
        Instr::Send(_, _, _) => one(alloc, DISCONNECTED),
        Instr::Call(o, _, _) => call_numbers(alloc, call_raises(frame, o)),
        Instr::Create(_, _) => one(alloc, DEPLETION),
        Instr::Raise(e) => one(alloc, *e),
        _ => Ok(Vec::new(alloc)),
    }
}
