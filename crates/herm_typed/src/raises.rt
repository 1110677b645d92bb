//! Which exceptions expressions can raise.
ghost use Rattle.std.specs.Prelude.{◌≡◌, map};
ghost use Rattle.herm_model.specs.Expressions.{logical_or, logical_and};
ghost use Rattle.herm_typed.specs.View.{typed_sum_op_view, typed_prod_op_view, signed_view, typed_expr_view, typed_conj_view, typed_comp_view, typed_sum_view, typed_prod_view, typed_primary_view, typed_unary_view};
ghost use Rattle.herm_typed.specs.RaisedByExpressions.{none_raised, raised_together, raised_each, raises_of, raises_by, raises_behind, raised_signed};

use crate::expressions::{
    TypedComp, TypedConj, TypedExpr, TypedPrimary, TypedProd, TypedSum, TypedUnary,
};
use herm_syntax::{ProdOp, SumOp, UnaryOp};

/// Whether Overflow and Depletion can be raised.
#[derive(Clone, Copy)]
pub struct Raises {
    pub overflow: bool,
    pub depletion: bool,
}

/// Neither exception.
fn none() -> Raises
    ensures { result ≡ none_raised }
{
    Raises {
        overflow: false,
        depletion: false,
    }
}

/// What one or the other can raise.
fn together(a: Raises, b: Raises) -> Raises
    ensures { result ≡ raised_together a b }
{
    Raises {
        overflow: a.overflow || b.overflow,
        depletion: a.depletion || b.depletion,
    }
}

/// What `+`, `-` and `&` can raise by themselves.
fn sum_operator(op: SumOp) -> Raises
    ensures { result ≡ raises_by (typed_sum_op_view op) }
{
    match op {
        SumOp::Add => Raises {
            overflow: true,
            depletion: false,
        },
        SumOp::Sub => Raises {
            overflow: true,
            depletion: false,
        },
        SumOp::Cat => Raises {
            overflow: false,
            depletion: true,
        },
    }
}

/// What `*`, `div` and `mod` can raise by themselves.
fn product_operator(op: ProdOp) -> Raises
    ensures { result ≡ raises_by (typed_prod_op_view op) }
{
    match op {
        ProdOp::Mul => Raises {
            overflow: true,
            depletion: false,
        },
        ProdOp::Div => Raises {
            overflow: true,
            depletion: false,
        },
        ProdOp::Mod => Raises {
            overflow: true,
            depletion: false,
        },
    }
}

/// What a sign before an operand adds.
fn signed(op: Option<UnaryOp>, of: Raises) -> Raises
    ensures { result ≡ raised_signed op of }
{
    match op {
        Some(UnaryOp::Neg) => Raises {
            overflow: true,
            depletion: of.depletion,
        },
        Some(UnaryOp::Not) => of,
        None => of,
    }
}

/// What an operand can raise.
#[cycle(raising)]
fn primary(e: &TypedPrimary) -> Raises
    ensures { result ≡ raises_of (typed_primary_view e.now) }
{
    match e {
        TypedPrimary::Literal(_) => none(),
        TypedPrimary::Path(_) => none(),
        TypedPrimary::Paren(e) => expression_raises(e),
        TypedPrimary::Size(_) => none(),
        TypedPrimary::Text(e) => expression_raises(e),
        TypedPrimary::Length(e) => expression_raises(e),
    }
}

/// What an operand with its sign can raise.
#[cycle(raising)]
#[tactic(auto, using(crate::proofs::Chains::signed_raises))]
fn unary(e: &TypedUnary) -> Raises
    ensures { result ≡ raises_of (typed_unary_view e.now) }
{
    signed(e.op, primary(&e.primary))
}

/// What operands of a product add.
#[cycle(raising)]
fn product_operands(found: Raises, operands: &[(ProdOp, TypedUnary)]) -> Raises
    ensures { result ≡ raised_each found (map (λ o. raises_behind (typed_prod_op_view o.0) (typed_unary_view o.1)) operands.now) }
{
    let mut found = found;
    'products: for (op, e) in operands {
        found = together(found, together(product_operator(*op), unary(e)));
    }
    found
}

/// What a product can raise.
#[cycle(raising)]
#[tactic(auto, using(crate::proofs::Chains::product_raises))]
fn product(e: &TypedProd) -> Raises
    ensures { result ≡ raises_of (typed_prod_view e.now) }
{
    product_operands(unary(&e.first), e.rest.as_slice())
}

/// What operands of a sum add.
#[cycle(raising)]
fn sum_operands(found: Raises, operands: &[(SumOp, TypedProd)]) -> Raises
    ensures { result ≡ raised_each found (map (λ o. raises_behind (typed_sum_op_view o.0) (typed_prod_view o.1)) operands.now) }
{
    let mut found = found;
    'sums: for (op, e) in operands {
        found = together(found, together(sum_operator(*op), product(e)));
    }
    found
}

/// What a sum can raise.
#[cycle(raising)]
#[tactic(auto, using(crate::proofs::Chains::sum_raises))]
fn sum(e: &TypedSum) -> Raises
    ensures { result ≡ raises_of (typed_sum_view e.now) }
{
    sum_operands(product(&e.first), e.rest.as_slice())
}

/// What a comparison can raise.
#[cycle(raising)]
fn comparison(e: &TypedComp) -> Raises
    ensures { result ≡ raises_of (typed_comp_view e.now) }
{
    match &e.right {
        None => sum(&e.left),
        Some((_, right)) => together(sum(&e.left), sum(right)),
    }
}

/// What operands of `and` add.
#[cycle(raising)]
fn and_operands(found: Raises, operands: &[TypedComp]) -> Raises
    ensures { result ≡ raised_each found (map (λ o. raises_behind logical_and (typed_comp_view o)) operands.now) }
{
    let mut found = found;
    'ands: for e in operands {
        found = together(found, comparison(e));
    }
    found
}

/// What a conjunction can raise.
#[cycle(raising)]
#[tactic(auto, using(crate::proofs::Chains::conjunction_raises))]
fn conjunction(e: &TypedConj) -> Raises
    ensures { result ≡ raises_of (typed_conj_view e.now) }
{
    and_operands(comparison(&e.first), e.rest.as_slice())
}

/// What operands of `or` add.
#[cycle(raising)]
fn or_operands(found: Raises, operands: &[TypedConj]) -> Raises
    ensures { result ≡ raised_each found (map (λ o. raises_behind logical_or (typed_conj_view o)) operands.now) }
{
    let mut found = found;
    'ors: for e in operands {
        found = together(found, conjunction(e));
    }
    found
}

/// What an expression can raise.
#[cycle(raising)]
#[tactic(auto, using(crate::proofs::Chains::expression_chain_raises))]
pub fn expression_raises(e: &TypedExpr) -> Raises
    ensures { result ≡ raises_of (typed_expr_view e.now) }
{
    or_operands(conjunction(&e.first), e.rest.as_slice())
}
