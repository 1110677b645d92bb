//! The constants of a program: each literal once, found by its value.
ghost use Rattle.std.specs.Prelude.{◌≡◌, ◌++◌, ◌∷◌, [], map, take, flat_map, length, IfOk, OnOk};
ghost use Rattle.herm_translated.specs.Constants.{place_of, literals_among};
ghost use Rattle.herm_typed.specs.View.{typed_literal_view, typed_atom_view};
ghost use Rattle.herm_code.specs.View.{const_view};
ghost use Rattle.herm_fronts.specs.Operands.{literals_at};
ghost use Rattle.herm_fronts.specs.Shared.{with_literal, shared};
ghost use Rattle.herm_fronts.specs.View.{item_view, key_view};

use crate::expressions::Item;
use crate::numbers::small;
use herm_base::{TypeNo, Word};
use herm_code::Const;
use herm_typed::{TypedAtom, TypedLiteral};
use indexmap::IndexSet;
use std::alloc::{AllocError, Global};

/// A literal, by which its constant is found.
#[derive(Drop, PartialEq, Eq, Hash)]
pub enum Key {
    Bool(bool),
    Int(i64),
    Text(Word),
    Tag(TypeNo, u32),
}

/// The key of a literal.
fn key_of(literal: &TypedLiteral) -> Result<Key, AllocError>
    ensures { IfOk result (λ k. key_view k ≡ typed_literal_view literal.now) }
{
    match literal {
        TypedLiteral::Int(n) => Ok(Key::Int(*n)),
        TypedLiteral::Text(text) => {
            let word = text.clone()?;
            Ok(Key::Text(word))
        }
        TypedLiteral::Bool(b) => Ok(Key::Bool(*b)),
        TypedLiteral::Tag(t, place) => Ok(Key::Tag(*t, *place)),
    }
}

/// The constant of a key.
fn constant_of(key: &Key) -> Result<Const, AllocError>
    ensures { IfOk result (λ c. const_view c ≡ key_view key.now) }
{
    match key {
        Key::Int(n) => Ok(Const::Int(*n)),
        Key::Text(text) => {
            let word = text.clone()?;
            Ok(Const::Text(word))
        }
        Key::Bool(b) => Ok(Const::Bool(*b)),
        Key::Tag(t, place) => Ok(Const::Tag(*t, *place)),
    }
}

/// Adds a literal, where it is not there.
fn add(keys: &mut IndexSet<Key>, literal: &TypedLiteral) -> Result<(), AllocError>
    ensures { OnOk result (map key_view keys.new.keys ≡ with_literal (map key_view keys.old.keys) (typed_literal_view literal.now)) }
{
    let key = key_of(literal)?;
    keys.insert(key)?;
    Ok(())
}

/// Adds the literals of operands.
pub fn add_operands(keys: &mut IndexSet<Key>, items: &[Item<'_>]) -> Result<(), AllocError>
    ensures { OnOk result (map key_view keys.new.keys ≡ shared (map key_view keys.old.keys) (flat_map literals_at (map item_view items.now))) }
{
    'items: for item in items {
        match item {
            Item::Literal(literal) => add(keys, literal)?,
            Item::Done(_) => {}
        }
    }
    Ok(())
}

/// Adds the literals among arguments.
pub fn add_atoms(keys: &mut IndexSet<Key>, atoms: &[TypedAtom]) -> Result<(), AllocError>
    ensures { OnOk result (map key_view keys.new.keys ≡ shared (map key_view keys.old.keys) (literals_among (map typed_atom_view atoms.now))) }
{
    'atoms: for atom in atoms {
        match atom {
            TypedAtom::Literal(literal) => add(keys, literal)?,
            TypedAtom::Path(_) => {}
        }
    }
    Ok(())
}

/// The place of a key, or the number of all where it is not there.
fn place_in(keys: &IndexSet<Key>, key: &Key) -> usize
    ensures { result ≡ place_of (map key_view keys.now.keys) (key_view key.now) }
{
    match keys.get_index_of(key) {
        Some(place) => place,
        None => keys.len(),
    }
}

/// The place of a literal among constants, or their number where it is not there.
pub fn place(keys: &IndexSet<Key>, literal: &TypedLiteral) -> Result<u32, AllocError>
    ensures { IfOk result (λ n. n ≡ place_of (map key_view keys.now.keys) (typed_literal_view literal.now)) }
{
    let key = key_of(literal)?;
    let place = place_in(keys, &key);
    let number = small(place)?;
    Ok(number)
}

/// Appends the constant of a key.
fn push_constant(key: &Key, found: &mut Vec<Const>) -> Result<(), AllocError>
    ensures { OnOk result (map const_view found.new.items ≡ map const_view found.old.items ++ key_view key.now ∷ []) }
{
    let constant = constant_of(key)?;
    found.push(constant)?;
    Ok(())
}

/// The constants in order.
pub fn constants_in(alloc: Global, keys: &IndexSet<Key>) -> Result<Vec<Const>, AllocError>
    ensures { IfOk result (λ v. map const_view v.items ≡ map key_view keys.now.keys) }
{
    let mut found = Vec::with_capacity(alloc, keys.len())?;
    'places: for place in 0..keys.len() {
        let Some(key) = keys.get_index(place) else {
            return Ok(found);
        };
        push_constant(key, &mut found)?;
    }
    Ok(found)
}
