//! Numbers of the paths that begin arguments of a call. An exception touches those of the arguments that it keeps. A fact is made by
//! the arguments that one path begins, so by the exceptions that touch its number, where no argument begins a longer one.
ghost use Rattle.std.specs.Prelude.{◌≡◌, ◌⊎◌, ◌<◌, ◌+◌, ◌*◌, ◌∷◌, [], ℕ, List, Some, true, false, length, map, is_some, IfOk, OnOk, IsTrue, IsFalse};
ghost use Rattle.herm_model.specs.Lists.{IsIn};
ghost use Rattle.herm_model.specs.Types.{TypeTable};
ghost use Rattle.herm_types.specs.View.{path_view, raise_decl_view};
ghost use Rattle.herm_typed.specs.View.{typed_atom_view};
ghost use Rattle.herm_flow.specs.Listed.{is_marked};
ghost use Rattle.herm_flow.specs.NumberTables.{at_number};
ghost use Rattle.herm_flow.specs.Touched.{number_by, AreOwn, Stay, IsTrail, IsTrailOf, numbers_at, AreTrails, last_of, is_before_last, AreApart, AreMadeBy, AreWanted, touched_by, has_place, HavePlaces};

use crate::counts::sum;
use crate::marks::{mark_all, unmarked};
use crate::tables::{number_at, put};
use herm_typed::TypedAtom;
use herm_types::{Path, RaiseDecl};
use std::alloc::{AllocError, Global};
use std::collections::BTreeMap;

/// Numbers of paths: each has one by the number of the path before its last step, which is 0 for a variable, and by that step.
#[derive(Drop)]
struct Paths {
    numbers: BTreeMap<u64, u32>,
    last: u32,
}

/// Numbers beside each parameter, and whether each fact is made by the parameters that have one of them.
#[derive(Drop)]
pub struct Touches {
    pub numbers: Vec<Vec<u32>>,
    pub single: bool,
}

/// A path's place in the table of numbers.
fn key_of(before: u32, step: u32) -> u64
    ensures key { result ≡ before * 4294967296 + step }
{
    before as u64 * 4294967296 + step as u64
}

/// The number of a path, a new one where it has none.
fn number_of(paths: &mut Paths, before: u32, step: u32) -> Result<u32, AllocError>
    requires own { AreOwn paths.old.numbers paths.old.last }
    ensures own { OnOk result (AreOwn paths.new.numbers paths.new.last) }
    ensures stay { OnOk result (Stay paths.old.numbers paths.new.numbers) }
    ensures number { IfOk result (λ n. number_by paths.new.numbers before step ≡ Some n) }
{
    let key = key_of(before, step);
    let known = paths.numbers.get(&key).copied();
    if let Some(number) = known {
        return Ok(number);
    }
    let number = sum(paths.last, 1)?;
    paths.numbers.insert(key, number)?;
    paths.last = number;
    Ok(number)
}

/// The numbers of the paths that begin this one, the shortest first.
fn trail(alloc: Global, paths: &mut Paths, path: &Path) -> Result<Vec<u32>, AllocError>
    requires own { AreOwn paths.old.numbers paths.old.last }
    ensures own { OnOk result (AreOwn paths.new.numbers paths.new.last) }
    ensures stay { OnOk result (Stay paths.old.numbers paths.new.numbers) }
    ensures trail { IfOk result (λ v. IsTrail (path_view path.now) (number_by paths.new.numbers) 0 v.items) }
{
    let parts = path.parts.as_slice();
    let mut found = Vec::with_capacity(alloc, parts.len().saturating_add(1))?;
    let mut before = number_of(paths, 0, path.var.0)?;
    found.push(before)?;
    'parts: for step in parts {
        before = number_of(paths, before, *step)?;
        found.push(before)?;
    }
    Ok(found)
}

/// The same of an argument, where it is a path that is wanted; none of another.
fn trail_if(
    alloc: Global,
    paths: &mut Paths,
    argument: &TypedAtom,
    is_wanted: bool,
) -> Result<Vec<u32>, AllocError>
    requires own { AreOwn paths.old.numbers paths.old.last }
    ensures own { OnOk result (AreOwn paths.new.numbers paths.new.last) }
    ensures stay { OnOk result (Stay paths.old.numbers paths.new.numbers) }
    ensures trail { IfOk result (λ v. is_wanted ≡ true → IsTrailOf (Some (typed_atom_view argument.now)) (number_by paths.new.numbers) v.items) }
{
    if !is_wanted {
        return Ok(Vec::new(alloc));
    }
    match argument {
        TypedAtom::Literal(_) => Ok(Vec::new(alloc)),
        TypedAtom::Path(p) => {
            let found = trail(alloc, paths, &p.path)?;
            Ok(found)
        }
    }
}

/// The same of each argument.
fn trails(
    alloc: Global,
    arguments: &[TypedAtom],
    wanted: &[bool],
) -> Result<Vec<Vec<u32>>, AllocError>
    requires wanted { length wanted.now ≡ length arguments.now }
    ensures trails { IfOk result (λ v. AreTrails (map typed_atom_view arguments.now) (is_marked wanted.now) v.items) }
{
    let mut paths = Paths {
        numbers: BTreeMap::new(alloc),
        last: 0,
    };
    let mut found = Vec::with_capacity(alloc, arguments.len())?;
    'each: for i in 0..arguments.len() {
        let numbers = trail_if(alloc, &mut paths, &arguments[i], wanted[i])?;
        found.push(numbers)?;
    }
    Ok(found)
}

/// Marks the last of these.
fn mark_last(ends: &mut Vec<Option<usize>>, numbers: &[u32]) -> Result<(), AllocError>
    ensures still { OnOk result ((n : ℕ) → is_some (at_number ends.old.items n) ≡ true → is_some (at_number ends.new.items n) ≡ true) }
    ensures marked { OnOk result ((n : ℕ) → last_of numbers.now ≡ Some n → is_some (at_number ends.new.items n) ≡ true) }
{
    let Some(last) = numbers.last() else {
        return Ok(());
    };
    put(ends, *last, Some(0))?;
    Ok(())
}

/// Marks the last of each of these.
fn ends_of(alloc: Global, trails: &[Vec<u32>]) -> Result<Vec<Option<usize>>, AllocError>
    ensures marked { IfOk result (λ v. (i n : ℕ) → last_of (numbers_at trails.now i) ≡ Some n → is_some (at_number v.items n) ≡ true) }
{
    let mut ends = Vec::new(alloc);
    'each: for numbers in trails {
        mark_last(&mut ends, numbers.as_slice())?;
    }
    Ok(ends)
}

/// Whether one of these but the last is marked.
fn passes_end(numbers: &[u32], ends: &[Option<usize>]) -> bool
    ensures passes { IsFalse result → (n : ℕ) → is_before_last numbers.now n ≡ true → is_some (at_number ends.now n) ≡ false }
{
    'each: for i in 1..numbers.len() {
        if number_at(ends, numbers[i - 1]).is_some() {
            return true;
        }
    }
    false
}

/// Whether none of these has the last of another before its own last: no path begins a longer one.
fn are_apart(alloc: Global, trails: &[Vec<u32>]) -> Result<bool, AllocError>
    ensures apart { IfOk result (λ b. IsTrue b → AreApart trails.now) }
{
    let ends = ends_of(alloc, trails)?;
    'each: for numbers in trails {
        if passes_end(numbers.as_slice(), ends.as_slice()) {
            return Ok(false);
        }
    }
    Ok(true)
}

/// Each parameter's own place as its number.
fn own_numbers(alloc: Global, count: usize) -> Result<Vec<Vec<u32>>, AllocError>
    ensures many { IfOk result (λ v. length v.items ≡ count) }
    ensures own { IfOk result (λ v. (k : ℕ) → k < count → numbers_at v.items k ≡ k ∷ []) }
{
    let mut found = Vec::with_capacity(alloc, count)?;
    'each: for i in 0..count {
        // No memory holds more arguments than there are numbers of 32 bits.
        let Ok(number) = u32::try_from(i) else {
            return Err(AllocError);
        };
        let mut numbers = Vec::with_capacity(alloc, 1)?;
        numbers.push(number)?;
        found.push(numbers)?;
    }
    Ok(found)
}

/// Marks the places of the parameters that an exception keeps, where it leads to a point.
fn mark_kept(marks: &mut Vec<bool>, points: &[Option<usize>], raise: &RaiseDecl)
    ensures many { length marks.new.items ≡ length marks.old.items }
    ensures still { (k : ℕ) → is_marked marks.old.items k ≡ true → is_marked marks.new.items k ≡ true }
    ensures marked { is_some (at_number points.now raise.now.exc.0) ≡ true → (k : ℕ) → IsIn k raise.now.keeps.items → is_marked marks.new.items k ≡ true }
{
    let leads = number_at(points, raise.exc.0).is_some();
    if leads {
        mark_all(marks, raise.keeps.as_slice());
    }
}

/// So many places, of which those of the parameters are marked that exceptions keep which lead to points.
pub fn wanted_of(
    alloc: Global,
    count: usize,
    raises: &[RaiseDecl],
    points: &[Option<usize>],
) -> Result<Vec<bool>, AllocError>
    ensures many { IfOk result (λ v. length v.items ≡ count) }
    ensures wanted { IfOk result (λ v. AreWanted (map raise_decl_view raises.now) points.now (is_marked v.items)) }
{
    let mut marks = unmarked(alloc, count)?;
    'each: for raise in raises {
        mark_kept(&mut marks, points, raise);
    }
    Ok(marks)
}

/// Numbers beside the parameters that are wanted: of the paths that begin their arguments; where one argument begins a longer one,
/// the places of the parameters.
pub fn touches_of(
    alloc: Global,
    arguments: &[TypedAtom],
    wanted: &[bool],
) -> Result<Touches, AllocError>
    requires wanted { length wanted.now ≡ length arguments.now }
    ensures numbers { IfOk result (λ t. (types : TypeTable) (variables : List ℕ) → AreMadeBy types variables (map typed_atom_view arguments.now) (is_marked wanted.now) t.single (numbers_at t.numbers.items)) }
{
    let numbers = trails(alloc, arguments, wanted)?;
    let single = are_apart(alloc, numbers.as_slice())?;
    if single {
        return Ok(Touches { numbers, single });
    }
    let numbers = own_numbers(alloc, arguments.len())?;
    Ok(Touches { numbers, single })
}

/// Whether a number stands at the place that a table has for it.
pub fn is_placed(places: &[Option<usize>], found: &[u32], number: u32) -> bool
    ensures placed { result ≡ has_place places.now found.now number }
{
    match number_at(places, number) {
        None => false,
        Some(place) => match found.get(place) {
            Some(there) => *there == number,
            None => false,
        },
    }
}

/// Puts a number behind others, unless it is one of them, and its place into the table.
fn push_placed(
    places: &mut Vec<Option<usize>>,
    found: &mut Vec<u32>,
    number: u32,
) -> Result<(), AllocError>
    requires placed { HavePlaces places.old.items found.old.items }
    ensures placed { OnOk result (HavePlaces places.new.items found.new.items) }
    ensures more { OnOk result ((n : ℕ) → IsIn n found.old.items ⊎ (n ≡ number) → IsIn n found.new.items) }
    ensures only { OnOk result ((n : ℕ) → IsIn n found.new.items → IsIn n found.old.items ⊎ (n ≡ number)) }
{
    let is_there = is_placed(places.as_slice(), found.as_slice(), number);
    if is_there {
        return Ok(());
    }
    let place = found.len();
    put(places, number, Some(place))?;
    found.push(number)?;
    Ok(())
}

/// The same of each of these numbers.
fn push_each_placed(
    places: &mut Vec<Option<usize>>,
    found: &mut Vec<u32>,
    numbers: &[u32],
) -> Result<(), AllocError>
    requires placed { HavePlaces places.old.items found.old.items }
    ensures placed { OnOk result (HavePlaces places.new.items found.new.items) }
    ensures more { OnOk result ((n : ℕ) → IsIn n found.old.items ⊎ IsIn n numbers.now → IsIn n found.new.items) }
    ensures only { OnOk result ((n : ℕ) → IsIn n found.new.items → IsIn n found.old.items ⊎ IsIn n numbers.now) }
{
    'each: for number in numbers {
        push_placed(places, found, *number)?;
    }
    Ok(())
}

/// The numbers beside a parameter.
fn numbers_of(numbers: &[Vec<u32>], parameter: u32) -> &[u32]
    ensures numbers { result.now ≡ numbers_at numbers.now parameter }
{
    match numbers.get(parameter as usize) {
        Some(found) => found.as_slice(),
        None => &[],
    }
}

/// Puts the numbers that are touched where these parameters are kept in place of others, each once, and their places into the table.
pub fn touch(
    places: &mut Vec<Option<usize>>,
    found: &mut Vec<u32>,
    numbers: &[Vec<u32>],
    keeps: &[u32],
) -> Result<(), AllocError>
    ensures placed { OnOk result (HavePlaces places.new.items found.new.items) }
    ensures more { OnOk result ((n : ℕ) → IsIn n (touched_by (numbers_at numbers.now) keeps.now) → IsIn n found.new.items) }
    ensures only { OnOk result ((n : ℕ) → IsIn n found.new.items → IsIn n (touched_by (numbers_at numbers.now) keeps.now)) }
{
    found.clear();
    'each: for parameter in keeps {
        let beside = numbers_of(numbers, *parameter);
        push_each_placed(places, found, beside)?;
    }
    Ok(())
}
