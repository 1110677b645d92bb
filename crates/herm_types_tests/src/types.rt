//! Each call on a table by hand: `pair` = record x: integer, y: string; `way` = variant n: integer, p: pair; `deep` = record a: pair,
//! w: way; `deep_in` = inport of deep with init(a.x) and case(w, p); `ask` = callmessage in q: pair, out r: polymorph, which raises
//! `Busy` and keeps r.
ghost use Rattle.std.specs.Prelude.{◌≡◌, ◌++◌, [], ◌∷◌, codes, IfOk, OnOk, map};
ghost use Rattle.herm_model.specs.Types as model;
ghost use Rattle.herm_model.specs.Paths as paths;
ghost use Rattle.herm_meaning.specs.Names.{behind_predefined};
ghost use Rattle.herm_types.specs.View.{path_view, fact_view, param_view, raise_decl_view, shape_view, parts_view};
ghost use Rattle.herm_types_tests.specs.Sample.{sample_table};

use herm_base::{ExcNo, TypeNo, VarNo, Word};
use herm_types::{Fact, Mode, Param, Part, Path, RaiseDecl, Shape, TypeTable};
use std::alloc::{AllocError, Global};
use std::test::Fail;

fn part(alloc: Global, name: &[u8], of: u32) -> Result<Part, AllocError>
    ensures name { IfOk result (λ p. p.name ≡ name.now) }
    ensures of { IfOk result (λ p. p.of.0 ≡ of) }
{
    let word = Word::of(alloc, name)?;
    Ok(Part {
        name: word,
        of: TypeNo(of),
    })
}

fn parts(
    alloc: Global,
    name: &[u8],
    of: u32,
    other: &[u8],
    also: u32,
) -> Result<Vec<Part>, AllocError>
    ensures types { IfOk result (λ v. map (λ p. p.of.0) v.items ≡ of ∷ also ∷ []) }
    ensures names { IfOk result (λ v. map (λ p. p.name) v.items ≡ name.now ∷ other.now ∷ []) }
{
    let mut list = Vec::new(alloc);
    let first = part(alloc, name, of)?;
    list.push(first)?;
    let second = part(alloc, other, also)?;
    list.push(second)?;
    Ok(list)
}

/// A type more.
fn define(
    alloc: Global,
    defined: &mut Vec<(Word, Shape)>,
    name: &[u8],
    shape: Shape,
) -> Result<(), AllocError>
    ensures names { OnOk result (map (λ d. d.0) defined.new.items ≡ map (λ d. d.0) defined.old.items ++ name.now ∷ []) }
    ensures shapes { OnOk result (map (λ d. shape_view d.1) defined.new.items ≡ map (λ d. shape_view d.1) defined.old.items ++ shape_view shape ∷ []) }
    ensures parts { OnOk result (map (λ d. parts_view d.1) defined.new.items ≡ map (λ d. parts_view d.1) defined.old.items ++ parts_view shape ∷ []) }
{
    let word = Word::of(alloc, name)?;
    defined.push((word, shape))?;
    Ok(())
}

fn path(alloc: Global, var: u32, places: &[u32]) -> Result<Path, AllocError>
    ensures { IfOk result (λ p. path_view p ≡ var ∷ places.now) }
{
    let parts = Vec::from_slice(alloc, places)?;
    Ok(Path {
        var: VarNo(var),
        parts,
    })
}

fn declared(alloc: Global) -> Result<Vec<Fact>, AllocError>
    ensures { IfOk result (λ v. map fact_view v.items ≡ paths.init (0 ∷ 0 ∷ 0 ∷ []) ∷ paths.case (0 ∷ 1 ∷ []) 1 ∷ []) }
{
    let mut facts = Vec::new(alloc);
    let field = path(alloc, 0, &[0, 0])?;
    facts.push(Fact::Init(field))?;
    let variant = path(alloc, 0, &[1])?;
    facts.push(Fact::Case(variant, 1))?;
    Ok(facts)
}

fn param(alloc: Global, mode: Mode, name: &[u8], of: u32) -> Result<Param, AllocError>
    ensures mode { IfOk result (λ p. p.mode ≡ mode) }
    ensures name { IfOk result (λ p. p.name ≡ name.now) }
    ensures of { IfOk result (λ p. p.of.0 ≡ of) }
{
    let word = Word::of(alloc, name)?;
    Ok(Param {
        mode,
        name: word,
        of: TypeNo(of),
    })
}

fn params(alloc: Global) -> Result<Vec<Param>, AllocError>
    ensures types { IfOk result (λ v. map param_view v.items ≡ record { mode = model.by_in; content = 8 } ∷ record { mode = model.by_out; content = 3 } ∷ []) }
    ensures names { IfOk result (λ v. map (λ p. p.name) v.items ≡ codes "q" ∷ codes "r" ∷ []) }
{
    let mut list = Vec::new(alloc);
    let first = param(alloc, Mode::In, b"q", 8)?;
    list.push(first)?;
    let second = param(alloc, Mode::Out, b"r", 3)?;
    list.push(second)?;
    Ok(list)
}

fn raises(alloc: Global) -> Result<Vec<RaiseDecl>, AllocError>
    ensures { IfOk result (λ v. map raise_decl_view v.items ≡ record { exception = 7; kept = 1 ∷ [] } ∷ []) }
{
    let mut list = Vec::new(alloc);
    let mut keeps = Vec::new(alloc);
    keeps.push(1)?;
    list.push(RaiseDecl {
        exc: ExcNo(7),
        keeps,
    })?;
    Ok(list)
}

fn records(alloc: Global) -> Result<Vec<(Word, Shape)>, AllocError>
    ensures names { IfOk result (λ v. map (λ d. d.0) v.items ≡ codes "pair" ∷ codes "way" ∷ codes "deep" ∷ []) }
    ensures shapes { IfOk result (λ v. map (λ d. shape_view d.1) v.items ≡ model.fields (1 ∷ 2 ∷ []) ∷ model.cases (1 ∷ 8 ∷ []) ∷ model.fields (8 ∷ 9 ∷ []) ∷ []) }
    ensures parts { IfOk result (λ v. map (λ d. parts_view d.1) v.items ≡ (codes "x" ∷ codes "y" ∷ []) ∷ (codes "n" ∷ codes "p" ∷ []) ∷ (codes "a" ∷ codes "w" ∷ []) ∷ []) }
{
    let mut defined = Vec::new(alloc);
    let pair = parts(alloc, b"x", 1, b"y", 2)?;
    define(alloc, &mut defined, b"pair", Shape::Fields(pair))?;
    let way = parts(alloc, b"n", 1, b"p", 8)?;
    define(alloc, &mut defined, b"way", Shape::Cases(way))?;
    let deep = parts(alloc, b"a", 8, b"w", 9)?;
    define(alloc, &mut defined, b"deep", Shape::Fields(deep))?;
    Ok(defined)
}

fn sample_types(alloc: Global) -> Result<Vec<(Word, Shape)>, AllocError>
    ensures names { IfOk result (λ v. map (λ d. d.0) v.items ≡ sample_table.names) }
    ensures shapes { IfOk result (λ v. map (λ d. shape_view d.1) v.items ≡ sample_table.shapes) }
    ensures parts { IfOk result (λ v. map (λ d. parts_view d.1) v.items ≡ sample_table.parts) }
{
    let mut defined = records(alloc)?;
    let message = TypeNo(10);
    let facts = declared(alloc)?;
    define(
        alloc,
        &mut defined,
        b"deep_in",
        Shape::Inport { message, facts },
    )?;
    let params = params(alloc)?;
    let raises = raises(alloc)?;
    define(
        alloc,
        &mut defined,
        b"ask",
        Shape::CallMessage { params, raises },
    )?;
    Ok(defined)
}

fn busy(alloc: Global) -> Result<Vec<Word>, AllocError>
    ensures { IfOk result (λ v. v.items ≡ sample_table.exceptions) }
{
    let mut words = Vec::new(alloc);
    let word = Word::of(alloc, b"Busy")?;
    words.push(word)?;
    Ok(words)
}

fn sample(alloc: Global) -> Result<TypeTable, AllocError>
    ensures { IfOk result (λ t. t ≡ behind_predefined sample_table) }
{
    let defined = sample_types(alloc)?;
    let exceptions = busy(alloc)?;
    let table = TypeTable::new(alloc, defined, exceptions)?;
    Ok(table)
}

/// Appends a path as its variable and its places, each behind a dot.
fn push_path(alloc: Global, text: &mut String, path: &Path) -> Result<(), AllocError> {
    let var = path.var.0;
    let head = format!(in alloc; "{var}")?;
    text.push_str(head.as_str())?;
    push_places(alloc, text, path.parts.as_slice())?;
    Ok(())
}

fn push_places(alloc: Global, text: &mut String, places: &[u32]) -> Result<(), AllocError> {
    for place in places {
        let step = format!(in alloc; ".{place}")?;
        text.push_str(step.as_str())?;
    }
    Ok(())
}

/// The facts in a line: a path alone for `init`, and with its component behind `=` for `case`.
fn facts_text(alloc: Global, facts: Vec<Fact>) -> Result<String, AllocError> {
    let mut text = String::new(alloc);
    for fact in facts.as_slice() {
        match fact {
            Fact::Init(path) => push_path(alloc, &mut text, path)?,
            Fact::Case(path, component) => {
                push_path(alloc, &mut text, path)?;
                let end = format!(in alloc; "={component}")?;
                text.push_str(end.as_str())?;
            }
        }
        text.push_str(" ")?;
    }
    Ok(text)
}

fn full_text(alloc: Global, table: &TypeTable, at: &Path, t: u32) -> Result<String, AllocError> {
    let number = TypeNo(t);
    if t as usize >= table.len() {
        return Ok(String::new(alloc));
    }
    let facts = table.full_facts(alloc, at, number)?;
    let text = facts_text(alloc, facts)?;
    Ok(text)
}

fn declared_text(
    alloc: Global,
    table: &TypeTable,
    at: &Path,
    t: u32,
) -> Result<String, AllocError> {
    if t as usize >= table.len() {
        return Ok(String::new(alloc));
    }
    match table.shape(TypeNo(t)) {
        Shape::Inport {
            message: _message,
            facts: _facts,
        } => {
            let declared = table.declared_facts(alloc, at, TypeNo(t))?;
            let text = facts_text(alloc, declared)?;
            Ok(text)
        }
        _ => Ok(String::new(alloc)),
    }
}

fn paths_text(alloc: Global, table: &TypeTable, t: u32) -> Result<String, AllocError> {
    let mut text = String::new(alloc);
    if t as usize >= table.len() {
        return Ok(text);
    }
    let paths = table.record_paths(alloc, TypeNo(t))?;
    for places in paths.as_slice() {
        push_places(alloc, &mut text, places.as_slice())?;
        text.push_str(" ")?;
    }
    Ok(text)
}

/// The names of the types, of which copyable ones have a star.
fn names_text(alloc: Global, table: &TypeTable) -> Result<Vec<u8>, AllocError> {
    table.keeps();
    let mut text = Vec::new(alloc);
    for t in 0..table.len() {
        let number = TypeNo(t as u32);
        text.extend_from_slice(table.name(number).bytes())?;
        if table.is_copyable(number) {
            text.push(b'*')?;
        }
        text.push(b' ')?;
    }
    Ok(text)
}

fn place_named(table: &TypeTable, name: &[u8]) -> u32 {
    match table.type_named(name) {
        Some(t) => t.0,
        None => 99,
    }
}

#[test]
fn types_have_names_and_are_copyable_or_not(rt: HostRuntime) -> Result<(), Fail> {
    let table = sample(rt.alloc())?;
    let text = names_text(rt.alloc(), &table)?;
    assert_eq!(rt;
        text.as_slice(),
        b"boolean* integer* string* polymorph console console_out* main_message* main_start pair* way* deep* deep_in ask ".as_slice()
    );
    assert_eq!(rt; place_named(&table, b"deep_in"), 11);
    assert_eq!(rt; place_named(&table, b"Busy"), 99);
    assert_eq!(rt; table.exceptions().len(), 8);
    let again = table.copy(rt.alloc())?;
    let same = names_text(rt.alloc(), &again)?;
    assert_eq!(rt; same.as_slice(), text.as_slice());
    Ok(())
}

#[test]
fn paths_and_facts_come_parents_first(rt: HostRuntime) -> Result<(), Fail> {
    let table = sample(rt.alloc())?;
    let paths = paths_text(rt.alloc(), &table, 10)?;
    assert_eq!(rt; paths.as_str(), " .0 .0.0 .0.1 .1 .1.0 .1.1 .1.1.0 .1.1.1 ");
    let at = path(rt.alloc(), 3, &[])?;
    let full = full_text(rt.alloc(), &table, &at, 10)?;
    assert_eq!(rt; full.as_str(), "3 3.0 3.0.0 3.0.1 3.1 ");
    let call = full_text(rt.alloc(), &table, &at, 12)?;
    assert_eq!(rt; call.as_str(), "3 3.0 3.0.0 3.0.1 ");
    Ok(())
}

#[test]
fn messages_have_the_facts_before_each_declared_one(rt: HostRuntime) -> Result<(), Fail> {
    let table = sample(rt.alloc())?;
    let again = table.copy(rt.alloc())?;
    let at = path(rt.alloc(), 5, &[2])?;
    let facts = declared_text(rt.alloc(), &again, &at, 11)?;
    assert_eq!(rt; facts.as_str(), "5.2 5.2.0 5.2.0.0 5.2.1 5.2.1=1 ");
    let start = declared_text(rt.alloc(), &table, &at, 7)?;
    assert_eq!(rt; start.as_str(), "5.2 5.2.0 5.2.1 ");
    Ok(())
}
