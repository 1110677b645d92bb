//! Literals and atoms by number.
ghost use Rattle.std.specs.Prelude.{◌≡◌, ◌<◌, ◌^◌, length, map, IfOk};
ghost use Rattle.herm_syntax.specs.View.{literal_view, atom_view};
ghost use Rattle.herm_naming.specs.Numbers.{literal_number, atom_number, type_number, part_number};
ghost use Rattle.herm_typed.specs.View.{typed_literal_view, typed_atom_view};
ghost use Rattle.herm_numbers.specs.View.{scope_view, kind, IsSized};
ghost use Rattle.herm_typed.specs.Beside.{atom_types};
ghost use Rattle.herm_numbers.specs.Beside.{types_among};

use crate::paths::{part, path};
use crate::scope::Scope;
use herm_base::TypeNo;
use herm_syntax::{Atom, Literal};
use herm_typed::{TypedAtom, TypedLiteral};
use herm_types::TypeTable;
use std::alloc::{AllocError, Global};

/// The number of the type with this name, or the one behind the last where none has it.
pub fn type_number(types: &TypeTable, name: &[u8]) -> TypeNo
    requires { IsSized types.now }
    ensures { result.0 ≡ type_number types.now name.now }
{
    match types.type_named(name) {
        Some(t) => t,
        None => TypeNo(types.len() as u32),
    }
}

/// A literal by number.
pub fn literal(alloc: Global, scope: &Scope, l: &Literal) -> Result<TypedLiteral, AllocError>
    requires { IsSized scope.now.types.now }
    ensures { IfOk result (λ m. typed_literal_view m ≡ literal_number scope.now.types.now (literal_view l.now)) }
{
    match l {
        Literal::Int(n) => Ok(TypedLiteral::Int(*n)),
        Literal::Text(t) => {
            let t = t.clone()?;
            Ok(TypedLiteral::Text(t))
        }
        Literal::Bool(b) => Ok(TypedLiteral::Bool(*b)),
        Literal::Tag(name, value) => {
            let t = type_number(scope.types, name.text.bytes());
            let (place, _) = part(scope, Some(t), value.text.bytes());
            Ok(TypedLiteral::Tag(t, place))
        }
    }
}

/// An atom by number.
pub fn atom(alloc: Global, scope: &Scope, a: &Atom) -> Result<TypedAtom, AllocError>
    requires sized { IsSized scope.now.types.now }
    requires few { length scope.now.variables < 2 ^ 32 }
    ensures meaning { IfOk result (λ b. typed_atom_view b ≡ atom_number (scope_view scope.now) (atom_view a.now)) }
    ensures types { IfOk result (λ b. atom_types b ≡ types_among (scope_view scope.now) b) }
{
    match a {
        Atom::Literal(l) => {
            let l = literal(alloc, scope, l)?;
            Ok(TypedAtom::Literal(l))
        }
        Atom::Path(p) => {
            let p = path(alloc, scope, p)?;
            Ok(TypedAtom::Path(p))
        }
    }
}

/// Atoms by number, in order.
pub fn atoms(alloc: Global, scope: &Scope, list: &[Atom]) -> Result<Vec<TypedAtom>, AllocError>
    requires sized { IsSized scope.now.types.now }
    requires few { length scope.now.variables < 2 ^ 32 }
    ensures meaning { IfOk result (λ v. map typed_atom_view v.items ≡ map (atom_number (scope_view scope.now)) (map atom_view list.now)) }
    ensures types { IfOk result (λ v. map atom_types v.items ≡ map (types_among (scope_view scope.now)) v.items) }
{
    let mut found = Vec::new(alloc);
    'list: for a in list {
        let a = atom(alloc, scope, a)?;
        found.push(a)?;
    }
    Ok(found)
}
