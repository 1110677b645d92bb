//! The operands and operators of an expression, in the order in which they are done.
ghost use Rattle.std.specs.Prelude.{◌≡◌, ◌++◌, ◌∷◌, [], map, flat_map, OnOk};
ghost use Rattle.herm_model.specs.Expressions.{logical_or, logical_and};
ghost use Rattle.herm_instructions.specs.Instructions.{Combine, Load, Size};
ghost use Rattle.herm_types.specs.View.{path_view};
ghost use Rattle.herm_typed.specs.View.{typed_literal_view, typed_path_view, typed_comp_op_view, typed_sum_op_view, typed_prod_op_view, typed_expr_view, typed_conj_view, typed_comp_view, typed_sum_view, typed_prod_view, typed_primary_view, typed_unary_view};
ghost use Rattle.herm_code.specs.View.{instr_view};
ghost use Rattle.herm_fronts.specs.Operands.{constant, done_by, operands_of, operands_behind, signed_operands};
ghost use Rattle.herm_fronts.specs.View.{item_view};

use crate::paths::copy_path;
use herm_code::Instr;
use herm_syntax::{CompOp, ProdOp, SumOp, UnaryOp};
use herm_typed::{
    TypedComp, TypedConj, TypedExpr, TypedLiteral, TypedPrimary, TypedProd, TypedSum, TypedUnary,
};
use herm_types::Path;
use std::alloc::{AllocError, Global};

/// What is done for an operand or an operator: a literal, whose constant has no number yet, or an instruction.
#[derive(Drop)]
pub enum Item<'a> {
    Literal(&'a TypedLiteral),
    Done(Instr),
}

/// The instruction of a comparison.
fn comparing(op: CompOp) -> Instr
    ensures { instr_view result ≡ Combine (typed_comp_op_view op) }
{
    match op {
        CompOp::Eq => Instr::Eq,
        CompOp::Ne => Instr::Ne,
        CompOp::Lt => Instr::Lt,
        CompOp::Le => Instr::Le,
        CompOp::Gt => Instr::Gt,
        CompOp::Ge => Instr::Ge,
    }
}

/// The instruction of an operator of sums.
fn summing(op: SumOp) -> Instr
    ensures { instr_view result ≡ Combine (typed_sum_op_view op) }
{
    match op {
        SumOp::Add => Instr::Add,
        SumOp::Sub => Instr::Sub,
        SumOp::Cat => Instr::Cat,
    }
}

/// The instruction of an operator of products.
fn multiplying(op: ProdOp) -> Instr
    ensures { instr_view result ≡ Combine (typed_prod_op_view op) }
{
    match op {
        ProdOp::Mul => Instr::Mul,
        ProdOp::Div => Instr::Div,
        ProdOp::Mod => Instr::Mod,
    }
}

/// Appends an instruction.
fn push_done(instr: Instr, out: &mut Vec<Item<'_>>) -> Result<(), AllocError>
    ensures { OnOk result (map item_view out.new.items ≡ map item_view out.old.items ++ done_by (instr_view instr) ∷ []) }
{
    out.push(Item::Done(instr))?;
    Ok(())
}

/// Appends a literal.
pub fn push_literal<'a>(
    literal: &'a TypedLiteral,
    out: &mut Vec<Item<'a>>,
) -> Result<(), AllocError>
    ensures { OnOk result (map item_view out.new.items ≡ map item_view out.old.items ++ constant (typed_literal_view literal.now) ∷ []) }
{
    out.push(Item::Literal(literal))?;
    Ok(())
}

/// Appends a copy of what is at a path.
pub fn push_load(alloc: Global, path: &Path, out: &mut Vec<Item<'_>>) -> Result<(), AllocError>
    ensures { OnOk result (map item_view out.new.items ≡ map item_view out.old.items ++ done_by (Load (path_view path.now)) ∷ []) }
{
    let path = copy_path(alloc, path)?;
    push_done(Instr::Load(path), out)?;
    Ok(())
}

/// Appends the number of rows of the table at a path.
fn push_size(alloc: Global, path: &Path, out: &mut Vec<Item<'_>>) -> Result<(), AllocError>
    ensures { OnOk result (map item_view out.new.items ≡ map item_view out.old.items ++ done_by (Size (path_view path.now)) ∷ []) }
{
    let path = copy_path(alloc, path)?;
    push_done(Instr::Size(path), out)?;
    Ok(())
}

/// Appends the sign before an operand.
fn push_sign(op: Option<UnaryOp>, out: &mut Vec<Item<'_>>) -> Result<(), AllocError>
    ensures { OnOk result (map item_view out.new.items ≡ map item_view out.old.items ++ signed_operands op) }
{
    match op {
        Some(UnaryOp::Neg) => {
            push_done(Instr::Neg, out)?;
            Ok(())
        }
        Some(UnaryOp::Not) => {
            push_done(Instr::Not, out)?;
            Ok(())
        }
        None => Ok(()),
    }
}

/// Appends an operand.
#[cycle(operands)]
fn primary<'a>(
    alloc: Global,
    e: &'a TypedPrimary,
    out: &mut Vec<Item<'a>>,
) -> Result<(), AllocError>
    ensures { OnOk result (map item_view out.new.items ≡ map item_view out.old.items ++ operands_of (typed_primary_view e.now)) }
{
    match e {
        TypedPrimary::Literal(literal) => {
            push_literal(literal, out)?;
            Ok(())
        }
        TypedPrimary::Path(p) => {
            push_load(alloc, &p.path, out)?;
            Ok(())
        }
        TypedPrimary::Paren(e) => {
            expression(alloc, e, out)?;
            Ok(())
        }
        TypedPrimary::Size(p) => {
            push_size(alloc, &p.path, out)?;
            Ok(())
        }
        TypedPrimary::Text(e) => {
            expression(alloc, e, out)?;
            push_done(Instr::Text, out)?;
            Ok(())
        }
        TypedPrimary::Length(e) => {
            expression(alloc, e, out)?;
            push_done(Instr::Length, out)?;
            Ok(())
        }
    }
}

/// Appends an operand and its sign.
#[cycle(operands)]
fn unary<'a>(alloc: Global, e: &'a TypedUnary, out: &mut Vec<Item<'a>>) -> Result<(), AllocError>
    ensures { OnOk result (map item_view out.new.items ≡ map item_view out.old.items ++ operands_of (typed_unary_view e.now)) }
{
    primary(alloc, &e.primary, out)?;
    push_sign(e.op, out)?;
    Ok(())
}

/// Appends further operands of a product, each before its operator.
#[cycle(operands)]
fn product_operands<'a>(
    alloc: Global,
    operands: &'a [(ProdOp, TypedUnary)],
    out: &mut Vec<Item<'a>>,
) -> Result<(), AllocError>
    ensures { OnOk result (map item_view out.new.items ≡ map item_view out.old.items ++ flat_map (λ o. operands_behind (typed_prod_op_view o.0) (typed_unary_view o.1)) operands.now) }
{
    'products: for (op, e) in operands {
        unary(alloc, e, out)?;
        push_done(multiplying(*op), out)?;
    }
    Ok(())
}

/// Appends a product.
#[cycle(operands)]
fn product<'a>(alloc: Global, e: &'a TypedProd, out: &mut Vec<Item<'a>>) -> Result<(), AllocError>
    ensures { OnOk result (map item_view out.new.items ≡ map item_view out.old.items ++ operands_of (typed_prod_view e.now)) }
{
    unary(alloc, &e.first, out)?;
    product_operands(alloc, e.rest.as_slice(), out)?;
    Ok(())
}

/// Appends further operands of a sum, each before its operator.
#[cycle(operands)]
fn sum_operands<'a>(
    alloc: Global,
    operands: &'a [(SumOp, TypedProd)],
    out: &mut Vec<Item<'a>>,
) -> Result<(), AllocError>
    ensures { OnOk result (map item_view out.new.items ≡ map item_view out.old.items ++ flat_map (λ o. operands_behind (typed_sum_op_view o.0) (typed_prod_view o.1)) operands.now) }
{
    'sums: for (op, e) in operands {
        product(alloc, e, out)?;
        push_done(summing(*op), out)?;
    }
    Ok(())
}

/// Appends a sum.
#[cycle(operands)]
fn sum<'a>(alloc: Global, e: &'a TypedSum, out: &mut Vec<Item<'a>>) -> Result<(), AllocError>
    ensures { OnOk result (map item_view out.new.items ≡ map item_view out.old.items ++ operands_of (typed_sum_view e.now)) }
{
    product(alloc, &e.first, out)?;
    sum_operands(alloc, e.rest.as_slice(), out)?;
    Ok(())
}

/// Appends a sum, or two that are compared.
#[cycle(operands)]
fn comparison<'a>(
    alloc: Global,
    e: &'a TypedComp,
    out: &mut Vec<Item<'a>>,
) -> Result<(), AllocError>
    ensures { OnOk result (map item_view out.new.items ≡ map item_view out.old.items ++ operands_of (typed_comp_view e.now)) }
{
    match &e.right {
        None => {
            sum(alloc, &e.left, out)?;
            Ok(())
        }
        Some((op, right)) => {
            sum(alloc, &e.left, out)?;
            sum(alloc, right, out)?;
            push_done(comparing(*op), out)?;
            Ok(())
        }
    }
}

/// Appends further operands of `and`.
#[cycle(operands)]
fn and_operands<'a>(
    alloc: Global,
    operands: &'a [TypedComp],
    out: &mut Vec<Item<'a>>,
) -> Result<(), AllocError>
    ensures { OnOk result (map item_view out.new.items ≡ map item_view out.old.items ++ flat_map (λ o. operands_behind logical_and (typed_comp_view o)) operands.now) }
{
    'ands: for e in operands {
        comparison(alloc, e, out)?;
        push_done(Instr::And, out)?;
    }
    Ok(())
}

/// Appends a conjunction.
#[cycle(operands)]
fn conjunction<'a>(
    alloc: Global,
    e: &'a TypedConj,
    out: &mut Vec<Item<'a>>,
) -> Result<(), AllocError>
    ensures { OnOk result (map item_view out.new.items ≡ map item_view out.old.items ++ operands_of (typed_conj_view e.now)) }
{
    comparison(alloc, &e.first, out)?;
    and_operands(alloc, e.rest.as_slice(), out)?;
    Ok(())
}

/// Appends further operands of `or`.
#[cycle(operands)]
fn or_operands<'a>(
    alloc: Global,
    operands: &'a [TypedConj],
    out: &mut Vec<Item<'a>>,
) -> Result<(), AllocError>
    ensures { OnOk result (map item_view out.new.items ≡ map item_view out.old.items ++ flat_map (λ o. operands_behind logical_or (typed_conj_view o)) operands.now) }
{
    'ors: for e in operands {
        conjunction(alloc, e, out)?;
        push_done(Instr::Or, out)?;
    }
    Ok(())
}

/// Appends what is done for an expression: its operands from left to right, each operator behind its own.
#[cycle(operands)]
pub fn expression<'a>(
    alloc: Global,
    e: &'a TypedExpr,
    out: &mut Vec<Item<'a>>,
) -> Result<(), AllocError>
    ensures { OnOk result (map item_view out.new.items ≡ map item_view out.old.items ++ operands_of (typed_expr_view e.now)) }
{
    conjunction(alloc, &e.first, out)?;
    or_operands(alloc, e.rest.as_slice(), out)?;
    Ok(())
}
