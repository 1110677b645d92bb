//! What is found of an expression, operand by operand.
ghost use Rattle.std.specs.Prelude.{◌≡◌, ◌&&◌, map, Some};
ghost use Rattle.herm_model.specs.Expressions.{logical_or, logical_and, copy, literal, size_of, decimal, length_of};
ghost use Rattle.herm_model.specs.TypedExpressions.{takes, shape_given, is_text_shape, is_integer_shape};
ghost use Rattle.herm_model.specs.tests.TypingTests.{number_of_shape};
ghost use Rattle.herm_meaning.specs.Names.{IsWellNamed};
ghost use Rattle.herm_naming.specs.Fits.{may_be, may_equal, fits_literal, literal_gives};
ghost use Rattle.herm_naming.specs.UnknownNames.{is_literal_there};
ghost use Rattle.herm_typed.specs.View.{typed_path_view, typed_literal_view, typed_sum_op_view, typed_prod_op_view, typed_comp_op_view, typed_expr_view, typed_conj_view, typed_comp_view, typed_sum_view, typed_prod_view, typed_primary_view, typed_unary_view};
ghost use Rattle.herm_judge.specs.View.{kind, table_of, variables_of};
ghost use Rattle.herm_judge.specs.Sight.{seen_view, sight, operated, operated_each, signed};

use crate::frame::Frame;
use crate::literals::{is_literal_fit, is_literal_there, literal_gives};
use crate::paths::{is_seen, is_there, type_of};
use crate::shapes::{
    comparison_takes, is_boolean, is_integer, is_rows, is_text, may_copy, may_equal, product_takes,
    sum_takes,
};
use herm_base::TypeNo;
use herm_syntax::{CompOp, ProdOp, SumOp, UnaryOp};
use herm_typed::{
    TypedComp, TypedConj, TypedExpr, TypedLiteral, TypedPath, TypedPrimary, TypedProd, TypedSum,
    TypedUnary,
};
use herm_types::TypeTable;

/// Whether the paths and the literals of an expression are there, whether its types fit, whether what it copies may be
/// copied, and the type that it gives.
#[derive(Clone, Copy)]
pub struct Seen {
    pub there: bool,
    pub literals: bool,
    pub fits: bool,
    pub copies: bool,
    pub gives: Option<TypeNo>,
}

const BOOLEAN: TypeNo = TypeNo(0);

const INTEGER: TypeNo = TypeNo(1);

const TEXT: TypeNo = TypeNo(2);

fn literal_seen(frame: &Frame, l: &TypedLiteral) -> Seen
    ensures seen { seen_view result ≡ sight (table_of frame.now) (variables_of frame.now) (literal (typed_literal_view l.now)) }
{
    Seen {
        there: true,
        literals: is_literal_there(frame.types, l),
        fits: is_literal_fit(frame.types, l),
        copies: true,
        gives: literal_gives(l),
    }
}

fn copy_seen(frame: &Frame, p: &TypedPath) -> Seen
    requires well { IsWellNamed frame.now.types.now }
    ensures seen { seen_view result ≡ sight (table_of frame.now) (variables_of frame.now) (copy (typed_path_view p.now)) }
{
    let of = type_of(frame, &p.path);
    Seen {
        there: is_there(frame, &p.path),
        literals: true,
        fits: is_seen(frame, &p.path),
        copies: may_copy(frame.types, of),
        gives: of,
    }
}

fn size_seen(frame: &Frame, p: &TypedPath) -> Seen
    ensures seen { seen_view result ≡ sight (table_of frame.now) (variables_of frame.now) (size_of (typed_path_view p.now)) }
{
    let of = type_of(frame, &p.path);
    Seen {
        there: is_there(frame, &p.path),
        literals: true,
        fits: is_seen(frame, &p.path) && is_rows(frame.types, of),
        copies: true,
        gives: Some(INTEGER),
    }
}

/// What is found of a text of an integer.
fn text_seen(types: &TypeTable, e: Seen) -> Seen
    ensures seen { seen_view result ≡ record (seen_view e) { fits = may_be types.now.shapes is_integer_shape (kind e.gives) && e.fits; gives = Some 2 } }
{
    Seen {
        there: e.there,
        literals: e.literals,
        fits: is_integer(types, e.gives) && e.fits,
        copies: e.copies,
        gives: Some(TEXT),
    }
}

/// What is found of the length of a string.
fn length_seen(types: &TypeTable, e: Seen) -> Seen
    ensures seen { seen_view result ≡ record (seen_view e) { fits = may_be types.now.shapes is_text_shape (kind e.gives) && e.fits; gives = Some 1 } }
{
    Seen {
        there: e.there,
        literals: e.literals,
        fits: is_text(types, e.gives) && e.fits,
        copies: e.copies,
        gives: Some(INTEGER),
    }
}

/// What is found of an operand behind a sign.
fn signed(types: &TypeTable, op: Option<UnaryOp>, e: Seen) -> Seen
    ensures seen { seen_view result ≡ signed types.now.shapes op (seen_view e) }
{
    match op {
        None => e,
        Some(UnaryOp::Neg) => Seen {
            there: e.there,
            literals: e.literals,
            fits: is_integer(types, e.gives) && e.fits,
            copies: e.copies,
            gives: Some(INTEGER),
        },
        Some(UnaryOp::Not) => Seen {
            there: e.there,
            literals: e.literals,
            fits: is_boolean(types, e.gives) && e.fits,
            copies: e.copies,
            gives: Some(BOOLEAN),
        },
    }
}

/// What is found of two operands, where the operator takes both or not, and gives this type.
fn operated(types: &TypeTable, takes: bool, gives: TypeNo, a: Seen, b: Seen) -> Seen
    ensures seen { seen_view result ≡ record { there = a.there && b.there; literals = a.literals && b.literals; fits = takes && (may_equal types.now.shapes (kind a.gives) (kind b.gives) && (a.fits && b.fits)); copies = a.copies && b.copies; gives = Some gives.0 } }
{
    Seen {
        there: a.there && b.there,
        literals: a.literals && b.literals,
        fits: takes && (may_equal(types, a.gives, b.gives) && (a.fits && b.fits)),
        copies: a.copies && b.copies,
        gives: Some(gives),
    }
}

fn truths_operated(types: &TypeTable, a: Seen, b: Seen) -> Seen
    ensures logical_or { seen_view result ≡ operated types.now.shapes logical_or (seen_view a) (seen_view b) }
    ensures logical_and { seen_view result ≡ operated types.now.shapes logical_and (seen_view a) (seen_view b) }
{
    let takes = is_boolean(types, a.gives) && is_boolean(types, b.gives);
    operated(types, takes, BOOLEAN, a, b)
}

fn comparison_operated(types: &TypeTable, op: CompOp, a: Seen, b: Seen) -> Seen
    ensures seen { seen_view result ≡ operated types.now.shapes (typed_comp_op_view op) (seen_view a) (seen_view b) }
{
    let takes = comparison_takes(types, op, a.gives) && comparison_takes(types, op, b.gives);
    operated(types, takes, comparison_gives(op), a, b)
}

fn comparison_gives(op: CompOp) -> TypeNo
    ensures gives { result.0 ≡ number_of_shape (shape_given (typed_comp_op_view op)) }
{
    match op {
        CompOp::Eq => BOOLEAN,
        CompOp::Ne => BOOLEAN,
        CompOp::Lt => BOOLEAN,
        CompOp::Le => BOOLEAN,
        CompOp::Gt => BOOLEAN,
        CompOp::Ge => BOOLEAN,
    }
}

fn sum_gives(op: SumOp) -> TypeNo
    ensures gives { result.0 ≡ number_of_shape (shape_given (typed_sum_op_view op)) }
{
    match op {
        SumOp::Add => INTEGER,
        SumOp::Sub => INTEGER,
        SumOp::Cat => TEXT,
    }
}

fn sum_operated(types: &TypeTable, op: SumOp, a: Seen, b: Seen) -> Seen
    ensures seen { seen_view result ≡ operated types.now.shapes (typed_sum_op_view op) (seen_view a) (seen_view b) }
{
    let takes = sum_takes(types, op, a.gives) && sum_takes(types, op, b.gives);
    operated(types, takes, sum_gives(op), a, b)
}

fn product_gives(op: ProdOp) -> TypeNo
    ensures gives { result.0 ≡ number_of_shape (shape_given (typed_prod_op_view op)) }
{
    match op {
        ProdOp::Mul => INTEGER,
        ProdOp::Div => INTEGER,
        ProdOp::Mod => INTEGER,
    }
}

fn product_operated(types: &TypeTable, op: ProdOp, a: Seen, b: Seen) -> Seen
    ensures seen { seen_view result ≡ operated types.now.shapes (typed_prod_op_view op) (seen_view a) (seen_view b) }
{
    let takes = product_takes(types, op, a.gives) && product_takes(types, op, b.gives);
    operated(types, takes, product_gives(op), a, b)
}

#[cycle(seeing)]
fn primary(frame: &Frame, e: &TypedPrimary) -> Seen
    requires well { IsWellNamed frame.now.types.now }
    ensures seen { seen_view result ≡ sight (table_of frame.now) (variables_of frame.now) (typed_primary_view e.now) }
{
    match e {
        TypedPrimary::Literal(l) => literal_seen(frame, l),
        TypedPrimary::Path(p) => copy_seen(frame, p),
        TypedPrimary::Paren(e) => expression_seen(frame, e),
        TypedPrimary::Size(p) => size_seen(frame, p),
        TypedPrimary::Text(e) => text_seen(frame.types, expression_seen(frame, e)),
        TypedPrimary::Length(e) => length_seen(frame.types, expression_seen(frame, e)),
    }
}

#[cycle(seeing)]
#[tactic(auto, using(crate::proofs::Sights::signed_sight))]
fn unary(frame: &Frame, e: &TypedUnary) -> Seen
    requires well { IsWellNamed frame.now.types.now }
    ensures seen { seen_view result ≡ sight (table_of frame.now) (variables_of frame.now) (typed_unary_view e.now) }
{
    signed(frame.types, e.op, primary(frame, &e.primary))
}

#[cycle(seeing)]
fn product_operands(frame: &Frame, found: Seen, operands: &[(ProdOp, TypedUnary)]) -> Seen
    requires well { IsWellNamed frame.now.types.now }
    ensures seen { seen_view result ≡ operated_each (table_of frame.now) (seen_view found) (map (λ o. (typed_prod_op_view o.0, sight (table_of frame.now) (variables_of frame.now) (typed_unary_view o.1))) operands.now) }
{
    let mut found = found;
    'products: for (op, e) in operands {
        found = product_operated(frame.types, *op, found, unary(frame, e));
    }
    found
}

#[cycle(seeing)]
#[tactic(auto, using(crate::proofs::Sights::product_sight))]
fn product(frame: &Frame, e: &TypedProd) -> Seen
    requires well { IsWellNamed frame.now.types.now }
    ensures seen { seen_view result ≡ sight (table_of frame.now) (variables_of frame.now) (typed_prod_view e.now) }
{
    product_operands(frame, unary(frame, &e.first), e.rest.as_slice())
}

#[cycle(seeing)]
fn sum_operands(frame: &Frame, found: Seen, operands: &[(SumOp, TypedProd)]) -> Seen
    requires well { IsWellNamed frame.now.types.now }
    ensures seen { seen_view result ≡ operated_each (table_of frame.now) (seen_view found) (map (λ o. (typed_sum_op_view o.0, sight (table_of frame.now) (variables_of frame.now) (typed_prod_view o.1))) operands.now) }
{
    let mut found = found;
    'sums: for (op, e) in operands {
        found = sum_operated(frame.types, *op, found, product(frame, e));
    }
    found
}

#[cycle(seeing)]
#[tactic(auto, using(crate::proofs::Sights::sum_sight))]
fn sum(frame: &Frame, e: &TypedSum) -> Seen
    requires well { IsWellNamed frame.now.types.now }
    ensures seen { seen_view result ≡ sight (table_of frame.now) (variables_of frame.now) (typed_sum_view e.now) }
{
    sum_operands(frame, product(frame, &e.first), e.rest.as_slice())
}

#[cycle(seeing)]
#[tactic(auto, using(crate::proofs::Sights::operation_sight))]
fn comparison(frame: &Frame, e: &TypedComp) -> Seen
    requires well { IsWellNamed frame.now.types.now }
    ensures seen { seen_view result ≡ sight (table_of frame.now) (variables_of frame.now) (typed_comp_view e.now) }
{
    match &e.right {
        None => sum(frame, &e.left),
        Some((op, right)) => {
            comparison_operated(frame.types, *op, sum(frame, &e.left), sum(frame, right))
        }
    }
}

#[cycle(seeing)]
fn and_operands(frame: &Frame, found: Seen, operands: &[TypedComp]) -> Seen
    requires well { IsWellNamed frame.now.types.now }
    ensures seen { seen_view result ≡ operated_each (table_of frame.now) (seen_view found) (map (λ o. (logical_and, sight (table_of frame.now) (variables_of frame.now) (typed_comp_view o))) operands.now) }
{
    let mut found = found;
    'ands: for e in operands {
        found = truths_operated(frame.types, found, comparison(frame, e));
    }
    found
}

#[cycle(seeing)]
#[tactic(auto, using(crate::proofs::Sights::conjunction_sight))]
fn conjunction(frame: &Frame, e: &TypedConj) -> Seen
    requires well { IsWellNamed frame.now.types.now }
    ensures seen { seen_view result ≡ sight (table_of frame.now) (variables_of frame.now) (typed_conj_view e.now) }
{
    and_operands(frame, comparison(frame, &e.first), e.rest.as_slice())
}

#[cycle(seeing)]
fn or_operands(frame: &Frame, found: Seen, operands: &[TypedConj]) -> Seen
    requires well { IsWellNamed frame.now.types.now }
    ensures seen { seen_view result ≡ operated_each (table_of frame.now) (seen_view found) (map (λ o. (logical_or, sight (table_of frame.now) (variables_of frame.now) (typed_conj_view o))) operands.now) }
{
    let mut found = found;
    'ors: for e in operands {
        found = truths_operated(frame.types, found, conjunction(frame, e));
    }
    found
}

/// What is found of an expression.
#[cycle(seeing)]
#[tactic(auto, using(crate::proofs::Sights::expression_sight))]
pub fn expression_seen(frame: &Frame, e: &TypedExpr) -> Seen
    requires well { IsWellNamed frame.now.types.now }
    ensures seen { seen_view result ≡ sight (table_of frame.now) (variables_of frame.now) (typed_expr_view e.now) }
{
    or_operands(frame, conjunction(frame, &e.first), e.rest.as_slice())
}
