//! The outcomes of a call that lead on, without those that others cover. A callmessage may declare many exceptions, and many
//! handlers may be within reach: tables by exception number tell where exceptions lead and where they are declared.
ghost use Rattle.std.specs.Prelude.{ℕ, ◌≡◌, ◌∷◌, [], ◌⊎◌, List, Option, map, true, Some, IfOk, OnOk, IfSome, IsTrue, length};
ghost use Rattle.herm_model.specs.Lists.{IsIn};
ghost use Rattle.herm_model.specs.Types.{TypeTable};
ghost use Rattle.herm_model.specs.laws.FlowLaws.{Rise};
ghost use Rattle.herm_model.specs.Outcomes.{ok, raised};
ghost use Rattle.herm_types.specs.View.{raise_decl_view};
ghost use Rattle.herm_typed.specs.View.{outcome_view, typed_path_view, typed_atom_view};
ghost use Rattle.herm_judge.specs.View.{table_of, variables_of};
ghost use Rattle.herm_flow.specs.View.{catch_view};
ghost use Rattle.herm_flow.specs.declared.calls.Head.{Head as HeadOf};
ghost use Rattle.herm_flow.specs.NumberTables.{at_number, has_entry};
ghost use Rattle.herm_flow.specs.Touched.{numbers_at, has_place, HavePlaces, touched_by};
ghost use Rattle.herm_flow.specs.CoveredExceptions.{AreCovering, touched_of, AreFor, IsNoted, IsAdded, AreTables, AreCallNumbers, IsOnwardCall};

use crate::counts::sum;
use crate::starts::Catch;
use crate::tables::{declared_of, keeps_at, number_at, points_of};
use crate::touched::{Touches, is_placed, touch, touches_of, wanted_of};
use herm_base::ExcNo;
use herm_judge::{Frame, call_raises};
use herm_typed::{Outcome, TypedAtom, TypedPath};
use herm_types::RaiseDecl;
use std::alloc::{AllocError, Global};

/// A point to which exceptions lead that were found, and numbers that they touch: the common ones, or those of the last.
#[derive(Drop)]
pub struct Head {
    pub point: usize,
    pub touched: Vec<u32>,
}

/// The exceptions of a call that were found, by rising number, and the points to which they lead.
#[derive(Drop)]
struct Found {
    numbers: Vec<ExcNo>,
    heads: Vec<Head>,
}

/// Tables of a call: the points to which exceptions lead, the places at which they are declared, and the numbers beside parameters.
#[derive(Drop)]
struct Tables {
    points: Vec<Option<usize>>,
    declared: Vec<Option<usize>>,
    touches: Touches,
}

/// Room that is made once for all calls. What it has from another call is not looked at.
#[derive(Drop)]
pub struct Notes {
    /// By point: the place of what was noted last of it.
    heads: Vec<usize>,
    /// The numbers that an exception touches.
    touched: Vec<u32>,
    /// By number: its place among those.
    places: Vec<Option<usize>>,
}

impl Notes {
    /// No room.
    pub fn none(alloc: Global) -> Notes {
        Notes {
            heads: Vec::new(alloc),
            touched: Vec::new(alloc),
            places: Vec::new(alloc),
        }
    }
}

/// Whether all of these numbers are among those that a table has places for.
fn are_placed(numbers: &[u32], found: &[u32], places: &[Option<usize>]) -> bool
    ensures within { IsTrue result → (n : ℕ) → IsIn n numbers.now → IsIn n found.now }
{
    'each: for number in numbers {
        let is_there = is_placed(places, found, *number);
        if !is_there {
            return false;
        }
    }
    true
}

/// The number behind others, where a table has a place for it.
fn add_placed(
    common: &mut Vec<u32>,
    number: u32,
    found: &[u32],
    places: &[Option<usize>],
) -> Result<(), AllocError>
    ensures added { OnOk result ((n : ℕ) → IsIn n common.old.items ⊎ ((n ≡ number) × (has_place places.now found.now number ≡ true)) → IsIn n common.new.items) }
{
    let is_there = is_placed(places, found, number);
    if !is_there {
        return Ok(());
    }
    common.push(number)?;
    Ok(())
}

/// The numbers that stand in both lists, of which a table has places for the second.
fn common(
    alloc: Global,
    numbers: &[u32],
    found: &[u32],
    places: &[Option<usize>],
) -> Result<Vec<u32>, AllocError>
    requires placed { HavePlaces places.now found.now }
    ensures common { IfOk result (λ v. (n : ℕ) → IsIn n numbers.now → IsIn n found.now → IsIn n v.items) }
{
    let mut common = Vec::new(alloc);
    'each: for number in numbers {
        add_placed(&mut common, *number, found, places)?;
    }
    Ok(common)
}

/// What was noted last of a point.
fn head_of<'a>(heads: &'a [Head], places: &[usize], point: usize) -> Option<&'a Head>
    ensures member { IfSome result (λ h. IsIn h.now heads.now) }
    ensures point { IfSome result (λ h. h.now.point ≡ point) }
{
    let place = match places.get(point) {
        Some(place) => *place,
        None => return None,
    };
    if place >= heads.len() {
        return None;
    }
    let head = &heads[place];
    if head.point != point {
        return None;
    }
    Some(head)
}

/// The numbers to note of a point, to which an exception leads that touches these, where some were noted there.
fn narrowed(
    alloc: Global,
    single: bool,
    head: &Head,
    touched: &[u32],
    places: &[Option<usize>],
) -> Result<Vec<u32>, AllocError>
    requires placed { HavePlaces places.now touched.now }
    ensures narrowed { IfOk result (λ v. AreFor single (head.now ∷ []) head.now.point touched.now v.items) }
{
    if single {
        let found = common(alloc, head.touched.as_slice(), touched, places)?;
        return Ok(found);
    }
    let found = Vec::from_slice(alloc, touched)?;
    Ok(found)
}

/// The numbers to note of a point, to which an exception leads that touches these; none where it is covered.
fn noted_at(
    alloc: Global,
    single: bool,
    heads: &[Head],
    notes: &Notes,
    point: usize,
) -> Result<Option<Vec<u32>>, AllocError>
    requires placed { HavePlaces notes.now.places.items notes.now.touched.items }
    ensures noted { IfOk result (λ o. IsNoted single heads.now point notes.now.touched.items o) }
{
    let touched = notes.touched.as_slice();
    let places = notes.places.as_slice();
    let Some(head) = head_of(heads, notes.heads.as_slice(), point) else {
        let found = Vec::from_slice(alloc, touched)?;
        return Ok(Some(found));
    };
    let is_covered = are_placed(head.touched.as_slice(), touched, places);
    if is_covered {
        return Ok(None);
    }
    let found = narrowed(alloc, single, head, touched, places)?;
    Ok(Some(found))
}

/// Notes numbers of a point.
fn note(
    heads: &mut Vec<Head>,
    places: &mut Vec<usize>,
    point: usize,
    touched: Vec<u32>,
) -> Result<(), AllocError>
    ensures heads { OnOk result ((h : HeadOf) → IsIn h heads.new.items → IsIn h heads.old.items ⊎ ((h.point ≡ point) × (h.touched.items ≡ touched.items))) }
{
    'more: while places.len() <= point {
        places.push(0)?;
    }
    places[point] = heads.len();
    heads.push(Head { point, touched })?;
    Ok(())
}

/// Whether it is noted of a point that each exception is covered that leads there.
fn is_full(heads: &[Head], places: &[usize], point: usize) -> bool
    ensures full { IsTrue result → (h : HeadOf) × IsIn h heads.now × (h.point ≡ point) × (h.touched.items ≡ []) }
{
    match head_of(heads, places, point) {
        Some(head) => head.touched.as_slice().is_empty(),
        None => false,
    }
}

/// An exception that leads to a point and keeps these parameters, behind those that were found, unless they cover it.
fn add_at_point(
    alloc: Global,
    found: &mut Found,
    notes: &mut Notes,
    touches: &Touches,
    e: ExcNo,
    point: usize,
    keeps: &[u32],
) -> Result<(), AllocError>
    ensures added { OnOk result ((lead : ℕ → Option ℕ) (touched : ℕ → List ℕ) → lead e.0 ≡ Some point → touched_by (numbers_at touches.now.numbers.items) keeps.now ≡ touched e.0 → IsAdded lead touched touches.now.single true e.0 (map (λ n. n.0) found.old.numbers.items) (map (λ n. n.0) found.new.numbers.items) found.old.heads.items found.new.heads.items) }
{
    let is_full = is_full(found.heads.as_slice(), notes.heads.as_slice(), point);
    if is_full {
        return Ok(());
    }
    touch(
        &mut notes.places,
        &mut notes.touched,
        touches.numbers.as_slice(),
        keeps,
    )?;
    let noted = noted_at(alloc, touches.single, found.heads.as_slice(), notes, point)?;
    let Some(noted) = noted else {
        return Ok(());
    };
    note(&mut found.heads, &mut notes.heads, point, noted)?;
    found.numbers.push(e)?;
    Ok(())
}

/// An exception behind those that were found, where a call can raise it and it leads to a point, unless they cover it.
fn add_number(
    alloc: Global,
    found: &mut Found,
    notes: &mut Notes,
    tables: &Tables,
    raises: &[RaiseDecl],
    e: ExcNo,
) -> Result<(), AllocError>
    ensures added { OnOk result (IsAdded (at_number tables.now.points.items) (touched_of (numbers_at tables.now.touches.numbers.items) tables.now.declared.items (map raise_decl_view raises.now)) tables.now.touches.single (has_entry tables.now.declared.items e.0) e.0 (map (λ n. n.0) found.old.numbers.items) (map (λ n. n.0) found.new.numbers.items) found.old.heads.items found.new.heads.items) }
{
    let place = number_at(tables.declared.as_slice(), e.0);
    let is_raised = place.is_some();
    if !is_raised {
        return Ok(());
    }
    let Some(point) = number_at(tables.points.as_slice(), e.0) else {
        found.numbers.push(e)?;
        return Ok(());
    };
    let keeps = keeps_at(raises, place);
    add_at_point(alloc, found, notes, &tables.touches, e, point, keeps)?;
    Ok(())
}

/// The exceptions of a call that lead to points, by rising number, without those that others cover.
fn numbers_of(
    alloc: Global,
    notes: &mut Notes,
    tables: &Tables,
    raises: &[RaiseDecl],
) -> Result<Vec<ExcNo>, AllocError>
    ensures rise { IfOk result (λ v. Rise (map (λ n. n.0) v.items)) }
    ensures there { IfOk result (λ v. (m : ℕ) → IsIn m (map (λ n. n.0) v.items) → has_entry tables.now.declared.items m ≡ true) }
    ensures covered { IfOk result (λ v. (m : ℕ) → has_entry tables.now.declared.items m ≡ true → AreCovering (at_number tables.now.points.items) (touched_of (numbers_at tables.now.touches.numbers.items) tables.now.declared.items (map raise_decl_view raises.now)) tables.now.touches.single (map (λ n. n.0) v.items) (at_number tables.now.points.items m) (touched_of (numbers_at tables.now.touches.numbers.items) tables.now.declared.items (map raise_decl_view raises.now) m)) }
{
    let mut found = Found {
        numbers: Vec::new(alloc),
        heads: Vec::new(alloc),
    };
    let mut e = 0;
    'numbers: while (e as usize) < tables.declared.len() {
        add_number(alloc, &mut found, notes, tables, raises, ExcNo(e))?;
        e = sum(e, 1)?;
    }
    Ok(found.numbers)
}

/// The tables of a call with these arguments, by the handlers within reach.
fn tables_of(
    alloc: Global,
    raises: &[RaiseDecl],
    arguments: &[TypedAtom],
    catches: &[Catch],
) -> Result<Tables, AllocError>
    ensures tables { IfOk result (λ t. AreTables (map typed_atom_view arguments.now) (map catch_view catches.now) (map raise_decl_view raises.now) t.points.items t.declared.items t.touches.single (numbers_at t.touches.numbers.items)) }
{
    let points = points_of(alloc, catches)?;
    let declared = declared_of(alloc, raises, points.as_slice())?;
    let wanted = wanted_of(alloc, arguments.len(), raises, points.as_slice())?;
    let touches = touches_of(alloc, arguments, wanted.as_slice())?;
    Ok(Tables {
        points,
        declared,
        touches,
    })
}

/// The outcomes of a call with these exceptions.
fn as_outcomes(alloc: Global, numbers: &[ExcNo]) -> Result<Vec<Outcome>, AllocError>
    ensures outcomes { IfOk result (λ v. map outcome_view v.items ≡ ok ∷ map raised (map (λ n. n.0) numbers.now)) }
{
    let mut found = Vec::new(alloc);
    found.push(Outcome::Ok)?;
    'numbers: for e in numbers {
        found.push(Outcome::Raised(*e))?;
    }
    Ok(found)
}

/// The exceptions of a call with these arguments that lead on, without those that others cover. Without a handler none leads on.
fn call_numbers(
    alloc: Global,
    notes: &mut Notes,
    raises: &[RaiseDecl],
    arguments: &[TypedAtom],
    catches: &[Catch],
) -> Result<Vec<ExcNo>, AllocError>
    ensures numbers { IfOk result (λ v. (types : TypeTable) (variables : List ℕ) → AreCallNumbers types variables (map typed_atom_view arguments.now) (map catch_view catches.now) (map raise_decl_view raises.now) (map (λ n. n.0) v.items)) }
{
    if catches.is_empty() {
        return Ok(Vec::new(alloc));
    }
    let tables = tables_of(alloc, raises, arguments, catches)?;
    let found = numbers_of(alloc, notes, &tables, raises)?;
    Ok(found)
}

/// The outcomes of a call, without its exceptions that do not lead on, and without those that others cover: at most one
/// more than there are paths that begin arguments is left for each point.
pub fn call_outcomes(
    alloc: Global,
    notes: &mut Notes,
    frame: &Frame,
    o: &TypedPath,
    arguments: &[TypedAtom],
    catches: &[Catch],
) -> Result<Vec<Outcome>, AllocError>
    ensures outcomes { IfOk result (λ v. IsOnwardCall (table_of frame.now) (variables_of frame.now) (typed_path_view o.now) (map typed_atom_view arguments.now) (map catch_view catches.now) (map outcome_view v.items)) }
{
    let raises = call_raises(frame, o);
    let numbers = call_numbers(alloc, notes, raises, arguments, catches)?;
    let found = as_outcomes(alloc, numbers.as_slice())?;
    Ok(found)
}
