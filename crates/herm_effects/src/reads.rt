//! The paths that expressions and atoms read.
ghost use Rattle.std.specs.Prelude.{◌≡◌, ◌++◌, ◌∷◌, [], OnOk, map, flat_map};
ghost use Rattle.herm_model.specs.Expressions.{paths_read, paths_among};
ghost use Rattle.herm_types.specs.View.{path_view};
ghost use Rattle.herm_typed.specs.View.{typed_atom_view, typed_expr_view, typed_conj_view, typed_comp_view, typed_sum_view, typed_prod_view, typed_primary_view, typed_unary_view};

use crate::paths::push_path;
use herm_syntax::{ProdOp, SumOp};
use herm_typed::{
    TypedAtom, TypedComp, TypedConj, TypedExpr, TypedPrimary, TypedProd, TypedSum, TypedUnary,
};
use herm_types::Path;
use std::alloc::{AllocError, Global};

/// Appends the path of an atom, where it is one.
pub fn push_atom(alloc: Global, atom: &TypedAtom, out: &mut Vec<Path>) -> Result<(), AllocError>
    ensures { OnOk result (map path_view out.new.items ≡ map path_view out.old.items ++ paths_among (typed_atom_view atom.now ∷ [])) }
{
    match atom {
        TypedAtom::Literal(_) => Ok(()),
        TypedAtom::Path(p) => {
            push_path(alloc, &p.path, out)?;
            Ok(())
        }
    }
}

/// Appends the paths among atoms, in order.
#[tactic(auto, using(crate::proofs::Reading::atoms_next))]
pub fn push_among(alloc: Global, atoms: &[TypedAtom], out: &mut Vec<Path>) -> Result<(), AllocError>
    ensures { OnOk result (map path_view out.new.items ≡ map path_view out.old.items ++ paths_among (map typed_atom_view atoms.now)) }
{
    'atoms: for atom in atoms {
        push_atom(alloc, atom, out)?;
    }
    Ok(())
}

/// Appends the paths that an operand reads.
#[cycle(reading)]
fn primary(alloc: Global, e: &TypedPrimary, out: &mut Vec<Path>) -> Result<(), AllocError>
    ensures { OnOk result (map path_view out.new.items ≡ map path_view out.old.items ++ paths_read (typed_primary_view e.now)) }
{
    match e {
        TypedPrimary::Literal(_) => Ok(()),
        TypedPrimary::Path(p) => {
            push_path(alloc, &p.path, out)?;
            Ok(())
        }
        TypedPrimary::Paren(e) => {
            push_read(alloc, e, out)?;
            Ok(())
        }
        TypedPrimary::Size(p) => {
            push_path(alloc, &p.path, out)?;
            Ok(())
        }
        TypedPrimary::Text(e) => {
            push_read(alloc, e, out)?;
            Ok(())
        }
        TypedPrimary::Length(e) => {
            push_read(alloc, e, out)?;
            Ok(())
        }
    }
}

/// Appends the paths that an operand with its sign reads.
#[cycle(reading)]
#[tactic(auto, using(crate::proofs::Reading::signed_reads))]
fn unary(alloc: Global, e: &TypedUnary, out: &mut Vec<Path>) -> Result<(), AllocError>
    ensures { OnOk result (map path_view out.new.items ≡ map path_view out.old.items ++ paths_read (typed_unary_view e.now)) }
{
    primary(alloc, &e.primary, out)?;
    Ok(())
}

/// Appends the paths that operands of a product read.
#[cycle(reading)]
fn product_operands(
    alloc: Global,
    operands: &[(ProdOp, TypedUnary)],
    out: &mut Vec<Path>,
) -> Result<(), AllocError>
    ensures { OnOk result (map path_view out.new.items ≡ map path_view out.old.items ++ flat_map (λ o. paths_read (typed_unary_view o.1)) operands.now) }
{
    'products: for (_, e) in operands {
        unary(alloc, e, out)?;
    }
    Ok(())
}

/// Appends the paths that a product reads.
#[cycle(reading)]
fn product(alloc: Global, e: &TypedProd, out: &mut Vec<Path>) -> Result<(), AllocError>
    ensures { OnOk result (map path_view out.new.items ≡ map path_view out.old.items ++ paths_read (typed_prod_view e.now)) }
{
    unary(alloc, &e.first, out)?;
    product_operands(alloc, e.rest.as_slice(), out)?;
    Ok(())
}

/// Appends the paths that operands of a sum read.
#[cycle(reading)]
fn sum_operands(
    alloc: Global,
    operands: &[(SumOp, TypedProd)],
    out: &mut Vec<Path>,
) -> Result<(), AllocError>
    ensures { OnOk result (map path_view out.new.items ≡ map path_view out.old.items ++ flat_map (λ o. paths_read (typed_prod_view o.1)) operands.now) }
{
    'sums: for (_, e) in operands {
        product(alloc, e, out)?;
    }
    Ok(())
}

/// Appends the paths that a sum reads.
#[cycle(reading)]
fn sum(alloc: Global, e: &TypedSum, out: &mut Vec<Path>) -> Result<(), AllocError>
    ensures { OnOk result (map path_view out.new.items ≡ map path_view out.old.items ++ paths_read (typed_sum_view e.now)) }
{
    product(alloc, &e.first, out)?;
    sum_operands(alloc, e.rest.as_slice(), out)?;
    Ok(())
}

/// Appends the paths that a comparison reads.
#[cycle(reading)]
fn comparison(alloc: Global, e: &TypedComp, out: &mut Vec<Path>) -> Result<(), AllocError>
    ensures { OnOk result (map path_view out.new.items ≡ map path_view out.old.items ++ paths_read (typed_comp_view e.now)) }
{
    sum(alloc, &e.left, out)?;
    match &e.right {
        None => Ok(()),
        Some((_, right)) => {
            sum(alloc, right, out)?;
            Ok(())
        }
    }
}

/// Appends the paths that operands of `and` read.
#[cycle(reading)]
fn and_operands(
    alloc: Global,
    operands: &[TypedComp],
    out: &mut Vec<Path>,
) -> Result<(), AllocError>
    ensures { OnOk result (map path_view out.new.items ≡ map path_view out.old.items ++ flat_map (λ o. paths_read (typed_comp_view o)) operands.now) }
{
    'ands: for e in operands {
        comparison(alloc, e, out)?;
    }
    Ok(())
}

/// Appends the paths that a conjunction reads.
#[cycle(reading)]
fn conjunction(alloc: Global, e: &TypedConj, out: &mut Vec<Path>) -> Result<(), AllocError>
    ensures { OnOk result (map path_view out.new.items ≡ map path_view out.old.items ++ paths_read (typed_conj_view e.now)) }
{
    comparison(alloc, &e.first, out)?;
    and_operands(alloc, e.rest.as_slice(), out)?;
    Ok(())
}

/// Appends the paths that operands of `or` read.
#[cycle(reading)]
fn or_operands(alloc: Global, operands: &[TypedConj], out: &mut Vec<Path>) -> Result<(), AllocError>
    ensures { OnOk result (map path_view out.new.items ≡ map path_view out.old.items ++ flat_map (λ o. paths_read (typed_conj_view o)) operands.now) }
{
    'ors: for e in operands {
        conjunction(alloc, e, out)?;
    }
    Ok(())
}

/// Appends the paths that an expression reads, in the order in which it is written.
#[cycle(reading)]
pub fn push_read(alloc: Global, e: &TypedExpr, out: &mut Vec<Path>) -> Result<(), AllocError>
    ensures { OnOk result (map path_view out.new.items ≡ map path_view out.old.items ++ paths_read (typed_expr_view e.now)) }
{
    conjunction(alloc, &e.first, out)?;
    or_operands(alloc, e.rest.as_slice(), out)?;
    Ok(())
}
