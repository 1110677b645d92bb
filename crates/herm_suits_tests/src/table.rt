//! A table of types by hand: `pair` = record x: integer, y: string; `way` = variant n: integer, p: pair; `deep` = record a: pair,
//! w: way; `deep_in` = inport of deep with init(a.x) and case(w, p); `ask` = callmessage in q: pair, out r: polymorph, which raises
//! `Busy` and keeps r; `colour` = enumeration of red and blue; `shelf` = table of pair by x; `mixed` = record s: shelf, p: polymorph;
//! `tint` = record c: colour, t: string; and an inport of full messages of each of the last three.
ghost use Rattle.std.specs.Prelude.{◌≡◌, ◌++◌, [], ◌∷◌, codes, IfOk, OnOk, map, take};
ghost use Rattle.herm_model.specs.Types as model;
ghost use Rattle.herm_model.specs.Paths as paths;
ghost use Rattle.herm_meaning.specs.Names.{behind_predefined};
ghost use Rattle.herm_types.specs.View.{path_view, fact_view, param_view, raise_decl_view, shape_view, parts_view};
ghost use Rattle.herm_suits_tests.specs.Sample.{sample_table};

use herm_base::{ExcNo, TypeNo, VarNo, Word};
use herm_types::{Fact, Mode, Param, Part, Path, RaiseDecl, Shape, TypeTable};
use std::alloc::{AllocError, Global};

fn part(alloc: Global, name: &[u8], of: u32) -> Result<Part, AllocError>
    ensures name { IfOk result (λ p. p.name ≡ name.now) }
    ensures of { IfOk result (λ p. p.of.0 ≡ of) }
{
    let word = Word::of(alloc, name)?;
    Ok(Part {
        name: word,
        of: TypeNo(of),
    })
}

fn parts(
    alloc: Global,
    name: &[u8],
    of: u32,
    other: &[u8],
    also: u32,
) -> Result<Vec<Part>, AllocError>
    ensures types { IfOk result (λ v. map (λ p. p.of.0) v.items ≡ of ∷ also ∷ []) }
    ensures names { IfOk result (λ v. map (λ p. p.name) v.items ≡ name.now ∷ other.now ∷ []) }
{
    let mut list = Vec::new(alloc);
    let first = part(alloc, name, of)?;
    list.push(first)?;
    let second = part(alloc, other, also)?;
    list.push(second)?;
    Ok(list)
}

/// A type more.
fn define(
    alloc: Global,
    defined: &mut Vec<(Word, Shape)>,
    name: &[u8],
    shape: Shape,
) -> Result<(), AllocError>
    ensures names { OnOk result (map (λ d. d.0) defined.new.items ≡ map (λ d. d.0) defined.old.items ++ name.now ∷ []) }
    ensures shapes { OnOk result (map (λ d. shape_view d.1) defined.new.items ≡ map (λ d. shape_view d.1) defined.old.items ++ shape_view shape ∷ []) }
    ensures parts { OnOk result (map (λ d. parts_view d.1) defined.new.items ≡ map (λ d. parts_view d.1) defined.old.items ++ parts_view shape ∷ []) }
{
    let word = Word::of(alloc, name)?;
    defined.push((word, shape))?;
    Ok(())
}

fn path(alloc: Global, var: u32, places: &[u32]) -> Result<Path, AllocError>
    ensures { IfOk result (λ p. path_view p ≡ var ∷ places.now) }
{
    let parts = Vec::from_slice(alloc, places)?;
    Ok(Path {
        var: VarNo(var),
        parts,
    })
}

fn declared(alloc: Global) -> Result<Vec<Fact>, AllocError>
    ensures { IfOk result (λ v. map fact_view v.items ≡ paths.init (0 ∷ 0 ∷ 0 ∷ []) ∷ paths.case (0 ∷ 1 ∷ []) 1 ∷ []) }
{
    let mut facts = Vec::new(alloc);
    let field = path(alloc, 0, &[0, 0])?;
    facts.push(Fact::Init(field))?;
    let variant = path(alloc, 0, &[1])?;
    facts.push(Fact::Case(variant, 1))?;
    Ok(facts)
}

fn param(alloc: Global, mode: Mode, name: &[u8], of: u32) -> Result<Param, AllocError>
    ensures mode { IfOk result (λ p. p.mode ≡ mode) }
    ensures name { IfOk result (λ p. p.name ≡ name.now) }
    ensures of { IfOk result (λ p. p.of.0 ≡ of) }
{
    let word = Word::of(alloc, name)?;
    Ok(Param {
        mode,
        name: word,
        of: TypeNo(of),
    })
}

fn params(alloc: Global) -> Result<Vec<Param>, AllocError>
    ensures types { IfOk result (λ v. map param_view v.items ≡ record { mode = model.by_in; content = 8 } ∷ record { mode = model.by_out; content = 3 } ∷ []) }
    ensures names { IfOk result (λ v. map (λ p. p.name) v.items ≡ codes "q" ∷ codes "r" ∷ []) }
{
    let mut list = Vec::new(alloc);
    let first = param(alloc, Mode::In, b"q", 8)?;
    list.push(first)?;
    let second = param(alloc, Mode::Out, b"r", 3)?;
    list.push(second)?;
    Ok(list)
}

fn raises(alloc: Global) -> Result<Vec<RaiseDecl>, AllocError>
    ensures { IfOk result (λ v. map raise_decl_view v.items ≡ record { exception = 7; kept = 1 ∷ [] } ∷ []) }
{
    let mut list = Vec::new(alloc);
    let mut keeps = Vec::new(alloc);
    keeps.push(1)?;
    list.push(RaiseDecl {
        exc: ExcNo(7),
        keeps,
    })?;
    Ok(list)
}

fn records(alloc: Global) -> Result<Vec<(Word, Shape)>, AllocError>
    ensures names { IfOk result (λ v. map (λ d. d.0) v.items ≡ codes "pair" ∷ codes "way" ∷ codes "deep" ∷ []) }
    ensures shapes { IfOk result (λ v. map (λ d. shape_view d.1) v.items ≡ model.fields (1 ∷ 2 ∷ []) ∷ model.cases (1 ∷ 8 ∷ []) ∷ model.fields (8 ∷ 9 ∷ []) ∷ []) }
    ensures parts { IfOk result (λ v. map (λ d. parts_view d.1) v.items ≡ (codes "x" ∷ codes "y" ∷ []) ∷ (codes "n" ∷ codes "p" ∷ []) ∷ (codes "a" ∷ codes "w" ∷ []) ∷ []) }
{
    let mut defined = Vec::new(alloc);
    let pair = parts(alloc, b"x", 1, b"y", 2)?;
    define(alloc, &mut defined, b"pair", Shape::Fields(pair))?;
    let way = parts(alloc, b"n", 1, b"p", 8)?;
    define(alloc, &mut defined, b"way", Shape::Cases(way))?;
    let deep = parts(alloc, b"a", 8, b"w", 9)?;
    define(alloc, &mut defined, b"deep", Shape::Fields(deep))?;
    Ok(defined)
}

fn colours(alloc: Global) -> Result<Vec<Word>, AllocError>
    ensures { IfOk result (λ v. v.items ≡ codes "red" ∷ codes "blue" ∷ []) }
{
    let mut words = Vec::new(alloc);
    let red = Word::of(alloc, b"red")?;
    words.push(red)?;
    let blue = Word::of(alloc, b"blue")?;
    words.push(blue)?;
    Ok(words)
}

fn first_types(alloc: Global) -> Result<Vec<(Word, Shape)>, AllocError>
    ensures names { IfOk result (λ v. map (λ d. d.0) v.items ≡ take 5 sample_table.names) }
    ensures shapes { IfOk result (λ v. map (λ d. shape_view d.1) v.items ≡ take 5 sample_table.shapes) }
    ensures parts { IfOk result (λ v. map (λ d. parts_view d.1) v.items ≡ take 5 sample_table.parts) }
{
    let mut defined = records(alloc)?;
    let message = TypeNo(10);
    let facts = declared(alloc)?;
    define(
        alloc,
        &mut defined,
        b"deep_in",
        Shape::Inport { message, facts },
    )?;
    let params = params(alloc)?;
    let raises = raises(alloc)?;
    define(
        alloc,
        &mut defined,
        b"ask",
        Shape::CallMessage { params, raises },
    )?;
    Ok(defined)
}

/// The first five types, an enumeration, a table and a record.
fn with_tables(alloc: Global) -> Result<Vec<(Word, Shape)>, AllocError>
    ensures names { IfOk result (λ v. map (λ d. d.0) v.items ≡ take 8 sample_table.names) }
    ensures shapes { IfOk result (λ v. map (λ d. shape_view d.1) v.items ≡ take 8 sample_table.shapes) }
    ensures parts { IfOk result (λ v. map (λ d. parts_view d.1) v.items ≡ take 8 sample_table.parts) }
{
    let mut defined = first_types(alloc)?;
    let colours = colours(alloc)?;
    define(alloc, &mut defined, b"colour", Shape::Names(colours))?;
    let keys = Vec::from_slice(alloc, &[0])?;
    let row = TypeNo(8);
    define(alloc, &mut defined, b"shelf", Shape::Rows { row, keys })?;
    let mixed = parts(alloc, b"s", 14, b"p", 3)?;
    define(alloc, &mut defined, b"mixed", Shape::Fields(mixed))?;
    Ok(defined)
}

/// An inport of full messages of this type.
fn inport(alloc: Global, message: u32) -> Shape
    ensures shape { shape_view result ≡ model.inport message [] }
    ensures parts { parts_view result ≡ [] }
{
    Shape::Inport {
        message: TypeNo(message),
        facts: Vec::new(alloc),
    }
}

fn sample_types(alloc: Global) -> Result<Vec<(Word, Shape)>, AllocError>
    ensures names { IfOk result (λ v. map (λ d. d.0) v.items ≡ sample_table.names) }
    ensures shapes { IfOk result (λ v. map (λ d. shape_view d.1) v.items ≡ sample_table.shapes) }
    ensures parts { IfOk result (λ v. map (λ d. parts_view d.1) v.items ≡ sample_table.parts) }
{
    let mut defined = with_tables(alloc)?;
    define(alloc, &mut defined, b"mixed_in", inport(alloc, 15))?;
    define(alloc, &mut defined, b"ask_in", inport(alloc, 12))?;
    let tint = parts(alloc, b"c", 13, b"t", 2)?;
    define(alloc, &mut defined, b"tint", Shape::Fields(tint))?;
    define(alloc, &mut defined, b"tint_in", inport(alloc, 18))?;
    Ok(defined)
}

fn busy(alloc: Global) -> Result<Vec<Word>, AllocError>
    ensures { IfOk result (λ v. v.items ≡ sample_table.exceptions) }
{
    let mut words = Vec::new(alloc);
    let word = Word::of(alloc, b"Busy")?;
    words.push(word)?;
    Ok(words)
}

/// The table.
pub fn sample(alloc: Global) -> Result<TypeTable, AllocError>
    ensures { IfOk result (λ t. t ≡ behind_predefined sample_table) }
{
    let defined = sample_types(alloc)?;
    let exceptions = busy(alloc)?;
    let table = TypeTable::new(alloc, defined, exceptions)?;
    Ok(table)
}
