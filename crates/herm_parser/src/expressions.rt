//! Expressions, in seven levels. So many brackets may still open in an expression as its depth says.
ghost use Rattle.std.specs.Prelude.{◌≡◌, ◌<◌, ◌-◌, map, IfOk, Some};
ghost use Rattle.herm_readers.specs.Combinators.{many, one, sequence};
ghost use Rattle.herm_syntax.specs.Symbols.{is_operator};
ghost use Rattle.herm_syntax.specs.KeywordSymbols.{kw_and, kw_or};
ghost use Rattle.herm_syntax.specs.ReadExpressions.{pick_by, in_parens, read_simple, read_expression};
ghost use Rattle.herm_syntax.specs.View.{comp_op_view, sum_op_view, prod_op_view, unary_op_view, expr_view, conj_view, comp_view, sum_view, prod_view, primary_view, unary_view};
ghost use Rattle.herm_parser.specs.Along.{past_behind, past_each, past_expression, past_conjunction, past_comparison, past_sum, past_product, past_unary, past_primary, past_parens};
ghost use Rattle.herm_parser.specs.Levels.{primary_at, unary_at, product_at, sum_at, comparison_at, conjunction_at, expression_at};
ghost use Rattle.herm_parser.specs.Gives.{kinds, Gives};

use crate::operators::{
    and_ahead, and_operator, compare_ahead, compare_operator, or_ahead, or_operator, product_ahead,
    product_operator, sum_ahead, sum_operator, unary_ahead, unary_operator,
};
use crate::paths::{atom, path};
use crate::stop::Stop;
use crate::tokens::{key, key_ahead, sign, sign_ahead};
use herm_alphabet::{Keyword, Mark, Token};
use herm_syntax::{
    Atom, Comp, CompOp, Conj, Expr, Primary, Prod, ProdOp, Sum, SumOp, Unary, UnaryOp,
};
use std::alloc::Global;

/// An operand without an expression in it.
fn simple(alloc: Global, tokens: &[Token]) -> Result<(Primary, &[Token]), Stop>
    ensures read { Gives (λ x. primary_view x.0) (λ x. x.1.now) result (read_simple (kinds tokens.now)) }
    ensures along { IfOk result (λ x. past_primary x.0 tokens.now ≡ Some x.1.now) }
{
    if key_ahead(tokens, Keyword::KwSize) {
        let rest = key(tokens, Keyword::KwSize)?;
        let rest = sign(rest, Mark::ParenOpen)?;
        let (table, rest) = path(alloc, rest)?;
        let rest = sign(rest, Mark::ParenClose)?;
        return Ok((Primary::Size(table), rest));
    }
    let (atom, rest) = atom(alloc, tokens)?;
    match atom {
        Atom::Literal(literal) => return Ok((Primary::Literal(literal), rest)),
        Atom::Path(path) => return Ok((Primary::Path(path), rest)),
    }
}

/// Operands of products behind their operators.
#[cycle(expressions)]
fn product_operands(
    alloc: Global,
    depth: usize,
    tokens: &[Token],
) -> Result<(Vec<(ProdOp, Unary)>, &[Token]), Stop>
    ensures read { Gives (λ x. map (λ o. (prod_op_view o.0, unary_view o.1)) x.0.items) (λ x. x.1.now) result
        (many (is_operator 1) (sequence (one (pick_by (is_operator 1))) (unary_at depth)) (kinds tokens.now)) }
    ensures along { IfOk result (λ x. past_each (λ o. past_behind past_unary o.1) x.0.items tokens.now ≡ Some x.1.now) }
{
    let mut found = Vec::new(alloc);
    let mut rest = tokens;
    'list: while product_ahead(rest) {
        let (operator, behind) = product_operator(rest)?;
        let (item, behind) = unary(alloc, depth, behind)?;
        found.push((operator, item))?;
        rest = behind;
    }
    Ok((found, rest))
}

/// Operands of `*`, `div` and `mod`.
#[cycle(expressions)]
#[tactic(auto, unfolding(crate::specs::Levels::product_at), using(crate::proofs::Seen::product_seen, crate::proofs::Seen::product_along))]
fn product(alloc: Global, depth: usize, tokens: &[Token]) -> Result<(Prod, &[Token]), Stop>
    ensures read { Gives (λ x. prod_view x.0) (λ x. x.1.now) result (product_at depth (kinds tokens.now)) }
    ensures along { IfOk result (λ x. past_product x.0 tokens.now ≡ Some x.1.now) }
{
    let (first, rest) = unary(alloc, depth, tokens)?;
    let (others, rest) = product_operands(alloc, depth, rest)?;
    Ok((
        Prod {
            first,
            rest: others,
        },
        rest,
    ))
}

/// An operand, with its sign.
#[cycle(expressions)]
#[tactic(auto, unfolding(crate::specs::Levels::unary_at))]
fn unary(alloc: Global, depth: usize, tokens: &[Token]) -> Result<(Unary, &[Token]), Stop>
    ensures read { Gives (λ x. unary_view x.0) (λ x. x.1.now) result (unary_at depth (kinds tokens.now)) }
    ensures along { IfOk result (λ x. past_unary x.0 tokens.now ≡ Some x.1.now) }
{
    if unary_ahead(tokens) {
        let (operator, rest) = unary_operator(tokens)?;
        let (primary, rest) = primary(alloc, depth, rest)?;
        return Ok((
            Unary {
                op: Some(operator),
                primary,
            },
            rest,
        ));
    }
    let (primary, rest) = primary(alloc, depth, tokens)?;
    Ok((Unary { op: None, primary }, rest))
}

/// An expression in parentheses, one deeper.
#[cycle(expressions)]
fn in_parens(alloc: Global, depth: usize, tokens: &[Token]) -> Result<(Box<Expr>, &[Token]), Stop>
    requires { 0 < depth }
    ensures read { Gives (λ x. expr_view x.0.value) (λ x. x.1.now) result (in_parens (expression_at (depth - 1)) (kinds tokens.now)) }
    ensures along { IfOk result (λ x. past_parens (past_expression x.0.value) tokens.now ≡ Some x.1.now) }
{
    let rest = sign(tokens, Mark::ParenOpen)?;
    let (inner, rest) = expression(alloc, depth - 1, rest)?;
    let rest = sign(rest, Mark::ParenClose)?;
    Ok((Box::new(alloc, inner)?, rest))
}

/// An operand.
#[cycle(expressions)]
#[tactic(auto, using(crate::proofs::Depths::primary_none, crate::proofs::Depths::primary_more))]
fn primary(alloc: Global, depth: usize, tokens: &[Token]) -> Result<(Primary, &[Token]), Stop>
    ensures read { Gives (λ x. primary_view x.0) (λ x. x.1.now) result (primary_at depth (kinds tokens.now)) }
    ensures along { IfOk result (λ x. past_primary x.0 tokens.now ≡ Some x.1.now) }
{
    if depth == 0 {
        let (operand, rest) = simple(alloc, tokens)?;
        return Ok((operand, rest));
    }
    if sign_ahead(tokens, Mark::ParenOpen) {
        let (inner, rest) = in_parens(alloc, depth, tokens)?;
        return Ok((Primary::Paren(inner), rest));
    }
    if key_ahead(tokens, Keyword::KwText) {
        let rest = key(tokens, Keyword::KwText)?;
        let (inner, rest) = in_parens(alloc, depth, rest)?;
        return Ok((Primary::Text(inner), rest));
    }
    if key_ahead(tokens, Keyword::KwLength) {
        let rest = key(tokens, Keyword::KwLength)?;
        let (inner, rest) = in_parens(alloc, depth, rest)?;
        return Ok((Primary::Length(inner), rest));
    }
    let (operand, rest) = simple(alloc, tokens)?;
    Ok((operand, rest))
}

/// Operands of sums behind their operators.
#[cycle(expressions)]
fn sum_operands(
    alloc: Global,
    depth: usize,
    tokens: &[Token],
) -> Result<(Vec<(SumOp, Prod)>, &[Token]), Stop>
    ensures read { Gives (λ x. map (λ o. (sum_op_view o.0, prod_view o.1)) x.0.items) (λ x. x.1.now) result
        (many (is_operator 2) (sequence (one (pick_by (is_operator 2))) (product_at depth)) (kinds tokens.now)) }
    ensures along { IfOk result (λ x. past_each (λ o. past_behind past_product o.1) x.0.items tokens.now ≡ Some x.1.now) }
{
    let mut found = Vec::new(alloc);
    let mut rest = tokens;
    'list: while sum_ahead(rest) {
        let (operator, behind) = sum_operator(rest)?;
        let (item, behind) = product(alloc, depth, behind)?;
        found.push((operator, item))?;
        rest = behind;
    }
    Ok((found, rest))
}

/// Operands of `+`, `-` and `&`.
#[cycle(expressions)]
#[tactic(auto, unfolding(crate::specs::Levels::sum_at), using(crate::proofs::Seen::sum_seen, crate::proofs::Seen::sum_along))]
fn sum(alloc: Global, depth: usize, tokens: &[Token]) -> Result<(Sum, &[Token]), Stop>
    ensures read { Gives (λ x. sum_view x.0) (λ x. x.1.now) result (sum_at depth (kinds tokens.now)) }
    ensures along { IfOk result (λ x. past_sum x.0 tokens.now ≡ Some x.1.now) }
{
    let (first, rest) = product(alloc, depth, tokens)?;
    let (others, rest) = sum_operands(alloc, depth, rest)?;
    Ok((
        Sum {
            first,
            rest: others,
        },
        rest,
    ))
}

/// A sum, or two that are compared.
#[cycle(expressions)]
#[tactic(auto, unfolding(crate::specs::Levels::comparison_at))]
fn comparison(alloc: Global, depth: usize, tokens: &[Token]) -> Result<(Comp, &[Token]), Stop>
    ensures read { Gives (λ x. comp_view x.0) (λ x. x.1.now) result (comparison_at depth (kinds tokens.now)) }
    ensures along { IfOk result (λ x. past_comparison x.0 tokens.now ≡ Some x.1.now) }
{
    let (left, rest) = sum(alloc, depth, tokens)?;
    if compare_ahead(rest) {
        let (operator, rest) = compare_operator(rest)?;
        let (right, rest) = sum(alloc, depth, rest)?;
        let right = Box::new(alloc, right)?;
        return Ok((
            Comp {
                left,
                right: Some((operator, right)),
            },
            rest,
        ));
    }
    Ok((Comp { left, right: None }, rest))
}

/// Operands of `and` behind it.
#[cycle(expressions)]
fn and_operands(
    alloc: Global,
    depth: usize,
    tokens: &[Token],
) -> Result<(Vec<Comp>, &[Token]), Stop>
    ensures read { Gives (λ x. map (λ o. (kw_and, comp_view o)) x.0.items) (λ x. x.1.now) result
        (many (is_operator 4) (sequence (one (pick_by (is_operator 4))) (comparison_at depth)) (kinds tokens.now)) }
    ensures along { IfOk result (λ x. past_each (past_behind past_comparison) x.0.items tokens.now ≡ Some x.1.now) }
{
    let mut found = Vec::new(alloc);
    let mut rest = tokens;
    'list: while and_ahead(rest) {
        let behind = and_operator(rest)?;
        let (item, behind) = comparison(alloc, depth, behind)?;
        found.push(item)?;
        rest = behind;
    }
    Ok((found, rest))
}

/// Operands of `and`.
#[cycle(expressions)]
#[tactic(auto, unfolding(crate::specs::Levels::conjunction_at), using(crate::proofs::Seen::conjunction_seen, crate::proofs::Seen::conjunction_along))]
fn conjunction(alloc: Global, depth: usize, tokens: &[Token]) -> Result<(Conj, &[Token]), Stop>
    ensures read { Gives (λ x. conj_view x.0) (λ x. x.1.now) result (conjunction_at depth (kinds tokens.now)) }
    ensures along { IfOk result (λ x. past_conjunction x.0 tokens.now ≡ Some x.1.now) }
{
    let (first, rest) = comparison(alloc, depth, tokens)?;
    let (others, rest) = and_operands(alloc, depth, rest)?;
    Ok((
        Conj {
            first,
            rest: others,
        },
        rest,
    ))
}

/// Operands of `or` behind it.
#[cycle(expressions)]
fn or_operands(alloc: Global, depth: usize, tokens: &[Token]) -> Result<(Vec<Conj>, &[Token]), Stop>
    ensures read { Gives (λ x. map (λ o. (kw_or, conj_view o)) x.0.items) (λ x. x.1.now) result
        (many (is_operator 5) (sequence (one (pick_by (is_operator 5))) (conjunction_at depth)) (kinds tokens.now)) }
    ensures along { IfOk result (λ x. past_each (past_behind past_conjunction) x.0.items tokens.now ≡ Some x.1.now) }
{
    let mut found = Vec::new(alloc);
    let mut rest = tokens;
    'list: while or_ahead(rest) {
        let behind = or_operator(rest)?;
        let (item, behind) = conjunction(alloc, depth, behind)?;
        found.push(item)?;
        rest = behind;
    }
    Ok((found, rest))
}

/// Operands of `or`.
#[cycle(expressions)]
#[tactic(auto, unfolding(crate::specs::Levels::expression_at), using(crate::proofs::Seen::expression_seen, crate::proofs::Seen::expression_along))]
fn expression(alloc: Global, depth: usize, tokens: &[Token]) -> Result<(Expr, &[Token]), Stop>
    ensures read { Gives (λ x. expr_view x.0) (λ x. x.1.now) result (expression_at depth (kinds tokens.now)) }
    ensures along { IfOk result (λ x. past_expression x.0 tokens.now ≡ Some x.1.now) }
{
    let (first, rest) = conjunction(alloc, depth, tokens)?;
    let (others, rest) = or_operands(alloc, depth, rest)?;
    Ok((
        Expr {
            first,
            rest: others,
        },
        rest,
    ))
}

/// An expression.
#[tactic(auto, using(crate::proofs::Depths::expression_at_is))]
pub fn expression_within(
    alloc: Global,
    depth: usize,
    tokens: &[Token],
) -> Result<(Expr, &[Token]), Stop>
    ensures read { Gives (λ x. expr_view x.0) (λ x. x.1.now) result (read_expression depth (kinds tokens.now)) }
    ensures along { IfOk result (λ x. past_expression x.0 tokens.now ≡ Some x.1.now) }
{
    let (found, rest) = expression(alloc, depth, tokens)?;
    Ok((found, rest))
}
