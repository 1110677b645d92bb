//! What is known of all names and types before they are judged.
ghost use Rattle.std.specs.Prelude.{◌≡◌, ◌<◌, ◌^◌, ◌||◌, ◌&&◌, not, nat_lt, IfOk, map, length, take, slice_get, option_map};
ghost use Rattle.herm_model.specs.Lists.{IsIn};
ghost use Rattle.herm_model.specs.Copyable.{IsCopyable};
ghost use Rattle.herm_model.specs.WellFormedTables.{IsType, Reaches};
ghost use Rattle.herm_types.specs.View.{shape_view, parts_view};
ghost use Rattle.herm_types.specs.Table.{says, shapes_view};
ghost use Rattle.herm_meaning.specs.Walks.{place_of, parts_of};
ghost use Rattle.herm_meaning.specs.Meaning.{type_names, exception_names, outline};
ghost use Rattle.herm_meaning.specs.DefinitionFaults.{number_of, IsJudged, IsSettled, MeetsNoUnknown, MeetsNoCycle};
ghost use Rattle.herm_graph.specs.Tells.{Tells};
ghost use Rattle.herm_graph.specs.Depth.{IsBeyond};
ghost use Rattle.herm_defs.specs.Seen.{item_seen};
ghost use Rattle.herm_defs.specs.Few.{AreFew};

use crate::gather::{exception_words, shapes_of, type_words};
use crate::names::Names;
use herm_base::{Name, Word};
use herm_graph::{TypeTests, tests_of};
use herm_syntax::DefItem;
use herm_types::{Param, Part, Shape};
use std::alloc::{AllocError, Global};
use std::marker::Model;

/// The outline of definitions, and what is so of each type. Contracts see it as the table of the outline.
#[derive(Drop)]
pub struct Context {
    types: Names,
    exceptions: Names,
    shapes: Vec<Shape>,
    /// The names of the parts of each type.
    parts: Vec<Names>,
    tests: TypeTests,
}

impl Model for Context {
    ghost use Rattle.herm_meaning.specs.Names.{NamedTable};

    ghost Value = { NamedTable };

    ghost use Rattle.herm_defs.specs.View.{context_view};
    ghost use Rattle.herm_defs.specs.TestsOfTable.{IsKnown};

    ghost view = { context_view };

    ghost invariant = { IsKnown };
}

fn field_words(alloc: Global, parts: &[Part]) -> Result<Vec<Word>, AllocError>
    ensures { IfOk result (λ v. v.items ≡ map (λ p. p.name) parts.now) }
{
    let mut words = Vec::with_capacity(alloc, parts.len())?;
    for part in parts {
        let word = part.name.clone()?;
        words.push(word)?;
    }
    Ok(words)
}

fn param_words(alloc: Global, params: &[Param]) -> Result<Vec<Word>, AllocError>
    ensures { IfOk result (λ v. v.items ≡ map (λ p. p.name) params.now) }
{
    let mut words = Vec::with_capacity(alloc, params.len())?;
    for param in params {
        let word = param.name.clone()?;
        words.push(word)?;
    }
    Ok(words)
}

fn value_words(alloc: Global, values: &[Word]) -> Result<Vec<Word>, AllocError>
    ensures { IfOk result (λ v. v.items ≡ values.now) }
{
    let mut words = Vec::with_capacity(alloc, values.len())?;
    for value in values {
        let word = value.clone()?;
        words.push(word)?;
    }
    Ok(words)
}

fn part_words(alloc: Global, shape: &Shape) -> Result<Vec<Word>, AllocError>
    ensures { IfOk result (λ v. v.items ≡ parts_view shape.now) }
{
    match shape {
        Shape::Names(values) => {
            let words = value_words(alloc, values.as_slice())?;
            Ok(words)
        }
        Shape::Fields(parts) => {
            let words = field_words(alloc, parts.as_slice())?;
            Ok(words)
        }
        Shape::Cases(parts) => {
            let words = field_words(alloc, parts.as_slice())?;
            Ok(words)
        }
        Shape::CallMessage { params, raises: _ } => {
            let words = param_words(alloc, params.as_slice())?;
            Ok(words)
        }
        _ => Ok(Vec::new(alloc)),
    }
}

/// The names of the parts of each type.
fn part_names(alloc: Global, shapes: &[Shape]) -> Result<Vec<Names>, AllocError>
    ensures { IfOk result (λ v. v.items ≡ map parts_view shapes.now) }
{
    let mut all = Vec::with_capacity(alloc, shapes.len())?;
    for shape in shapes {
        let words = part_words(alloc, shape)?;
        let names = Names::of(alloc, words)?;
        all.push(names)?;
    }
    Ok(all)
}

fn says(tests: &[bool], t: usize) -> bool
    ensures { result ≡ says tests.now t }
{
    match tests.get(t) {
        Some(test) => *test,
        None => false,
    }
}

/// What is known of these names and shapes.
fn known(
    alloc: Global,
    types: Names,
    exceptions: Names,
    shapes: Vec<Shape>,
) -> Result<Context, AllocError>
    requires few { length shapes.items < 2 ^ 32 }
    requires exceptions { length exceptions < 2 ^ 32 }
    ensures { IfOk result (λ c. c ≡ record { names = types; shapes = shapes_view shapes.items; parts = map parts_view shapes.items; exceptions = exceptions }) }
{
    let parts = part_names(alloc, shapes.as_slice())?;
    let tests = tests_of(alloc, shapes.as_slice(), exceptions.len() as u32)?;
    Ok(Context {
        types,
        exceptions,
        shapes,
        parts,
        tests,
    })
}

/// What is known of the names and types of items, where there are numbers for all.
fn outlined(alloc: Global, items: &[(u32, &DefItem)]) -> Result<Context, AllocError>
    requires few { AreFew (map item_seen items.now) }
    requires types { length (type_names (map item_seen items.now)) < 2 ^ 32 }
    requires exceptions { length (exception_names (map item_seen items.now)) < 2 ^ 32 }
    ensures { IfOk result (λ c. c ≡ outline (map item_seen items.now)) }
{
    let type_list = type_words(alloc, items)?;
    let types = Names::of(alloc, type_list)?;
    let exception_list = exception_words(alloc, items)?;
    let exceptions = Names::of(alloc, exception_list)?;
    let shapes = shapes_of(alloc, &types, &exceptions, items)?;
    let context = known(alloc, types, exceptions, shapes)?;
    Ok(context)
}

/// Whether there is no such type, or a test holds.
fn absent_or(is_there: bool, test: bool) -> bool
    ensures { result ≡ (not is_there || test) }
{
    !is_there || test
}

/// Whether there is such a type, and a test fails.
fn present_and_not(is_there: bool, test: bool) -> bool
    ensures { result ≡ (is_there && not test) }
{
    is_there && !test
}

impl Context {
    /// What is known of the names and types of these items.
    pub fn of(alloc: Global, items: &[(u32, &DefItem)]) -> Result<Context, AllocError>
        requires few { AreFew (map item_seen items.now) }
        requires items { length items.now < 2 ^ 31 }
        ensures { IfOk result (λ c. c ≡ outline (map item_seen items.now)) }
    {
        let context = outlined(alloc, items)?;
        Ok(context)
    }

    /// The number of the type with a name, or that of all names where there is none.
    pub fn type_of(&self, name: &Name) -> usize
        ensures { result ≡ number_of self.now name.now.text }
    {
        self.types.place(name.text.bytes())
    }

    /// The number of the exception with a name, or that of all names where there is none.
    pub fn exception_of(&self, name: &Name) -> usize
        ensures { result ≡ place_of self.now.exceptions name.now.text }
    {
        self.exceptions.place(name.text.bytes())
    }

    /// Whether there is an exception with this number.
    pub fn is_exception(&self, number: usize) -> bool
        ensures { result ≡ nat_lt number (length self.now.exceptions) }
    {
        number < self.exceptions.len()
    }

    /// Whether a type of a lower number has the name.
    pub fn has_type_before(&self, number: usize, name: &Name) -> bool
        ensures { Tells result (IsIn name.now.text (take number self.now.names)) }
    {
        self.types.is_before(name.text.bytes(), number)
    }

    /// Whether an exception of a lower number has the name.
    pub fn has_exception_before(&self, number: usize, name: &Name) -> bool
        ensures { Tells result (IsIn name.now.text (take number self.now.exceptions)) }
    {
        self.exceptions.is_before(name.text.bytes(), number)
    }

    /// Whether there is a type with this number.
    pub fn is_type(&self, t: usize) -> bool
        ensures { Tells result (IsType self.now.shapes t) }
    {
        t < self.shapes.len()
    }

    /// The shape of a type, where there is one.
    pub fn shape(&self, t: usize) -> Option<&Shape>
        ensures { option_map (λ s. shape_view s.now) result ≡ slice_get self.now.shapes t }
    {
        self.shapes.as_slice().get(t)
    }

    /// The place of a part with a name in a type, or the number of its parts where there is none.
    pub fn part_place(&self, t: usize, name: &Name) -> usize
        ensures { result ≡ place_of (parts_of self.now t) name.now.text }
    {
        match self.parts.as_slice().get(t) {
            Some(names) => names.place(name.text.bytes()),
            None => 0,
        }
    }

    /// Whether a type reaches itself by the names in shapes.
    pub fn reaches_itself(&self, t: usize) -> bool
        ensures { Tells result (Reaches self.now.shapes t t) }
    {
        says(self.tests.cycles.as_slice(), t)
    }

    /// Whether a type is known and reaches no cycle.
    pub fn is_judged(&self, t: usize) -> bool
        ensures { Tells result (IsJudged self.now t) }
    {
        if t >= self.shapes.len() {
            return false;
        }
        !says(self.tests.meets_cycle.as_slice(), t)
    }

    /// Whether all names are known in the shape of a type and in those that it reaches.
    fn meets_no_unknown(&self, t: usize) -> bool
        ensures { Tells result (MeetsNoUnknown self.now t) }
    {
        !says(self.tests.meets_unknown.as_slice(), t)
    }

    /// Whether neither a type nor any that it reaches reaches itself.
    fn meets_no_cycle(&self, t: usize) -> bool
        ensures { Tells result (MeetsNoCycle self.now t) }
    {
        !says(self.tests.meets_cycle.as_slice(), t)
    }

    /// Whether a type is too deep or has too many paths. One that is not there counts as too deep.
    fn is_beyond(&self, t: usize) -> bool
        ensures { Tells result (IsBeyond self.now.shapes t) }
    {
        let is_said = says(self.tests.deep.as_slice(), t);
        absent_or(self.is_type(t), is_said)
    }

    /// Whether a type that meets no unknown name and no cycle is too deep or has too many paths.
    pub fn is_deep(&self, t: usize) -> bool
        ensures { Tells result (MeetsNoUnknown self.now t × MeetsNoCycle self.now t × IsBeyond self.now.shapes t) }
    {
        let is_known = self.meets_no_unknown(t);
        let is_acyclic = self.meets_no_cycle(t);
        let is_beyond = self.is_beyond(t);
        is_known && is_acyclic && is_beyond
    }

    /// Whether the values of a type may be copied.
    pub fn is_copyable(&self, t: usize) -> bool
        ensures { Tells result (IsCopyable self.now.shapes t) }
    {
        says(self.tests.copyable.as_slice(), t)
    }

    /// Whether all types are known on which it depends whether a type is copyable.
    pub fn is_settled(&self, t: usize) -> bool
        ensures { Tells result (IsSettled self.now t) }
    {
        let is_said = says(self.tests.unsettled.as_slice(), t);
        present_and_not(self.is_type(t), is_said)
    }
}
