//! Expressions by number, level by level.
ghost use Rattle.std.specs.Prelude.{◌≡◌, ◌<◌, ◌^◌, length, map, option_map, IfOk};
ghost use Rattle.herm_model.specs.Expressions.{logical_or, logical_and};
ghost use Rattle.herm_syntax.specs.View.{expr_view, conj_view, comp_view, sum_view, prod_view, primary_view, sum_op_view, prod_op_view};
ghost use Rattle.herm_naming.specs.Numbers.{expression_number, primary_number, operator_of};
ghost use Rattle.herm_typed.specs.View.{typed_sum_op_view, typed_prod_op_view, typed_expr_view, typed_conj_view, typed_comp_view, typed_sum_view, typed_prod_view, typed_primary_view, typed_unary_view};
ghost use Rattle.herm_numbers.specs.View.{scope_view, IsSized, unary_number, behind_product, behind_sum, behind_and, behind_or, product_number, sum_number, and_number, or_number};
ghost use Rattle.herm_typed.specs.Beside.{primary_types, unary_types, prod_types, sum_types, comp_types, conj_types, expr_types};
ghost use Rattle.herm_numbers.specs.Beside.{types_read};

use crate::atoms::literal;
use crate::paths::path;
use crate::scope::Scope;
use herm_syntax::{Comp, CompOp, Conj, Expr, Primary, Prod, ProdOp, Sum, SumOp, Unary, UnaryOp};
use herm_typed::{TypedComp, TypedConj, TypedExpr, TypedPrimary, TypedProd, TypedSum, TypedUnary};
use std::alloc::{AllocError, Global};

/// An operand by number.
#[cycle(numbering)]
fn primary(alloc: Global, scope: &Scope, e: &Primary) -> Result<TypedPrimary, AllocError>
    requires sized { IsSized scope.now.types.now }
    requires few { length scope.now.variables < 2 ^ 32 }
    ensures meaning { IfOk result (λ v. typed_primary_view v ≡ primary_number (scope_view scope.now) (primary_view e.now)) }
    ensures types { IfOk result (λ v. primary_types v ≡ types_read (scope_view scope.now) (typed_primary_view v)) }
{
    match e {
        Primary::Literal(l) => {
            let l = literal(alloc, scope, l)?;
            Ok(TypedPrimary::Literal(l))
        }
        Primary::Path(p) => {
            let p = path(alloc, scope, p)?;
            Ok(TypedPrimary::Path(p))
        }
        Primary::Paren(e) => {
            let e = expression(alloc, scope, e)?;
            let e = Box::new(alloc, e)?;
            Ok(TypedPrimary::Paren(e))
        }
        Primary::Size(p) => {
            let p = path(alloc, scope, p)?;
            Ok(TypedPrimary::Size(p))
        }
        Primary::Text(e) => {
            let e = expression(alloc, scope, e)?;
            let e = Box::new(alloc, e)?;
            Ok(TypedPrimary::Text(e))
        }
        Primary::Length(e) => {
            let e = expression(alloc, scope, e)?;
            let e = Box::new(alloc, e)?;
            Ok(TypedPrimary::Length(e))
        }
    }
}

/// An operand with its sign by number.
#[cycle(numbering)]
#[tactic(auto, using(crate::proofs::Beside::signed_read))]
fn unary(alloc: Global, scope: &Scope, e: &Unary) -> Result<TypedUnary, AllocError>
    requires sized { IsSized scope.now.types.now }
    requires few { length scope.now.variables < 2 ^ 32 }
    ensures meaning { IfOk result (λ v. typed_unary_view v ≡ unary_number (scope_view scope.now) e.now) }
    ensures types { IfOk result (λ v. unary_types v ≡ types_read (scope_view scope.now) (typed_unary_view v)) }
{
    let primary = primary(alloc, scope, &e.primary)?;
    Ok(TypedUnary { op: e.op, primary })
}

/// Operands of products by number.
#[cycle(numbering)]
fn product_operands(
    alloc: Global,
    scope: &Scope,
    list: &[(ProdOp, Unary)],
) -> Result<Vec<(ProdOp, TypedUnary)>, AllocError>
    requires sized { IsSized scope.now.types.now }
    requires few { length scope.now.variables < 2 ^ 32 }
    ensures meaning { IfOk result (λ v. map behind_product v.items ≡ map (product_number (scope_view scope.now)) list.now) }
    ensures types { IfOk result (λ v. map (λ o. unary_types o.1) v.items ≡ map (λ o. types_read (scope_view scope.now) (typed_unary_view o.1)) v.items) }
{
    let mut found = Vec::new(alloc);
    'products: for (op, e) in list {
        let e = unary(alloc, scope, e)?;
        found.push((*op, e))?;
    }
    Ok(found)
}

/// A product by number.
#[cycle(numbering)]
#[tactic(auto, using(crate::proofs::Numbered::product_made, crate::proofs::Beside::product_beside))]
fn product(alloc: Global, scope: &Scope, e: &Prod) -> Result<TypedProd, AllocError>
    requires sized { IsSized scope.now.types.now }
    requires few { length scope.now.variables < 2 ^ 32 }
    ensures meaning { IfOk result (λ v. typed_prod_view v ≡ expression_number (scope_view scope.now) (prod_view e.now)) }
    ensures types { IfOk result (λ v. prod_types v ≡ types_read (scope_view scope.now) (typed_prod_view v)) }
{
    let first = unary(alloc, scope, &e.first)?;
    let rest = product_operands(alloc, scope, e.rest.as_slice())?;
    Ok(TypedProd { first, rest })
}

/// Operands of sums by number.
#[cycle(numbering)]
fn sum_operands(
    alloc: Global,
    scope: &Scope,
    list: &[(SumOp, Prod)],
) -> Result<Vec<(SumOp, TypedProd)>, AllocError>
    requires sized { IsSized scope.now.types.now }
    requires few { length scope.now.variables < 2 ^ 32 }
    ensures meaning { IfOk result (λ v. map behind_sum v.items ≡ map (sum_number (scope_view scope.now)) list.now) }
    ensures types { IfOk result (λ v. map (λ o. prod_types o.1) v.items ≡ map (λ o. types_read (scope_view scope.now) (typed_prod_view o.1)) v.items) }
{
    let mut found = Vec::new(alloc);
    'sums: for (op, e) in list {
        let e = product(alloc, scope, e)?;
        found.push((*op, e))?;
    }
    Ok(found)
}

/// A sum by number.
#[cycle(numbering)]
#[tactic(auto, using(crate::proofs::Numbered::sum_made, crate::proofs::Beside::sum_beside))]
fn sum(alloc: Global, scope: &Scope, e: &Sum) -> Result<TypedSum, AllocError>
    requires sized { IsSized scope.now.types.now }
    requires few { length scope.now.variables < 2 ^ 32 }
    ensures meaning { IfOk result (λ v. typed_sum_view v ≡ expression_number (scope_view scope.now) (sum_view e.now)) }
    ensures types { IfOk result (λ v. sum_types v ≡ types_read (scope_view scope.now) (typed_sum_view v)) }
{
    let first = product(alloc, scope, &e.first)?;
    let rest = sum_operands(alloc, scope, e.rest.as_slice())?;
    Ok(TypedSum { first, rest })
}

/// A comparison by number.
#[cycle(numbering)]
#[tactic(auto, using(crate::proofs::Numbered::operator_seen))]
fn comparison(alloc: Global, scope: &Scope, e: &Comp) -> Result<TypedComp, AllocError>
    requires sized { IsSized scope.now.types.now }
    requires few { length scope.now.variables < 2 ^ 32 }
    ensures meaning { IfOk result (λ v. typed_comp_view v ≡ expression_number (scope_view scope.now) (comp_view e.now)) }
    ensures types { IfOk result (λ v. comp_types v ≡ types_read (scope_view scope.now) (typed_comp_view v)) }
{
    let left = sum(alloc, scope, &e.left)?;
    match &e.right {
        None => Ok(TypedComp { left, right: None }),
        Some((op, right)) => {
            let right = sum(alloc, scope, right)?;
            Ok(TypedComp {
                left,
                right: Some((*op, right)),
            })
        }
    }
}

/// Operands of `and` by number.
#[cycle(numbering)]
fn and_operands(alloc: Global, scope: &Scope, list: &[Comp]) -> Result<Vec<TypedComp>, AllocError>
    requires sized { IsSized scope.now.types.now }
    requires few { length scope.now.variables < 2 ^ 32 }
    ensures meaning { IfOk result (λ v. map behind_and v.items ≡ map (and_number (scope_view scope.now)) list.now) }
    ensures types { IfOk result (λ v. map (λ o. comp_types o) v.items ≡ map (λ o. types_read (scope_view scope.now) (typed_comp_view o)) v.items) }
{
    let mut found = Vec::new(alloc);
    'ands: for e in list {
        let e = comparison(alloc, scope, e)?;
        found.push(e)?;
    }
    Ok(found)
}

/// A conjunction by number.
#[cycle(numbering)]
#[tactic(auto, using(crate::proofs::Numbered::conjunction_made, crate::proofs::Beside::conjunction_beside))]
fn conjunction(alloc: Global, scope: &Scope, e: &Conj) -> Result<TypedConj, AllocError>
    requires sized { IsSized scope.now.types.now }
    requires few { length scope.now.variables < 2 ^ 32 }
    ensures meaning { IfOk result (λ v. typed_conj_view v ≡ expression_number (scope_view scope.now) (conj_view e.now)) }
    ensures types { IfOk result (λ v. conj_types v ≡ types_read (scope_view scope.now) (typed_conj_view v)) }
{
    let first = comparison(alloc, scope, &e.first)?;
    let rest = and_operands(alloc, scope, e.rest.as_slice())?;
    Ok(TypedConj { first, rest })
}

/// Operands of `or` by number.
#[cycle(numbering)]
fn or_operands(alloc: Global, scope: &Scope, list: &[Conj]) -> Result<Vec<TypedConj>, AllocError>
    requires sized { IsSized scope.now.types.now }
    requires few { length scope.now.variables < 2 ^ 32 }
    ensures meaning { IfOk result (λ v. map behind_or v.items ≡ map (or_number (scope_view scope.now)) list.now) }
    ensures types { IfOk result (λ v. map (λ o. conj_types o) v.items ≡ map (λ o. types_read (scope_view scope.now) (typed_conj_view o)) v.items) }
{
    let mut found = Vec::new(alloc);
    'ors: for e in list {
        let e = conjunction(alloc, scope, e)?;
        found.push(e)?;
    }
    Ok(found)
}

/// An expression by number.
#[cycle(numbering)]
#[tactic(auto, using(crate::proofs::Numbered::expression_made, crate::proofs::Beside::expression_beside))]
pub fn expression(alloc: Global, scope: &Scope, e: &Expr) -> Result<TypedExpr, AllocError>
    requires sized { IsSized scope.now.types.now }
    requires few { length scope.now.variables < 2 ^ 32 }
    ensures meaning { IfOk result (λ v. typed_expr_view v ≡ expression_number (scope_view scope.now) (expr_view e.now)) }
    ensures types { IfOk result (λ v. expr_types v ≡ types_read (scope_view scope.now) (typed_expr_view v)) }
{
    let first = conjunction(alloc, scope, &e.first)?;
    let rest = or_operands(alloc, scope, e.rest.as_slice())?;
    Ok(TypedExpr { first, rest })
}
