//! Operators of expressions.
ghost use Rattle.std.specs.Prelude.{◌≡◌, None, Some, IfOk};
ghost use Rattle.herm_readers.specs.Reader.{ahead};
ghost use Rattle.herm_readers.specs.Combinators.{one, passes};
ghost use Rattle.herm_syntax.specs.Symbols.{is_operator};
ghost use Rattle.herm_syntax.specs.KeywordSymbols.{kw_and, kw_or};
ghost use Rattle.herm_syntax.specs.Fitting.{is_sign};
ghost use Rattle.herm_syntax.specs.ReadExpressions.{pick_by};
ghost use Rattle.herm_syntax.specs.View.{comp_op_view, sum_op_view, prod_op_view, unary_op_view};
ghost use Rattle.herm_parser.specs.Along.{past_token};
ghost use Rattle.herm_parser.specs.Gives.{kinds, Gives};

use crate::stop::Stop;
use herm_alphabet::{Keyword, Mark, Token, TokenKind};
use herm_syntax::{CompOp, ProdOp, SumOp, UnaryOp};

/// Whether `or` is ahead.
pub fn or_ahead(tokens: &[Token]) -> bool
    ensures { result ≡ passes (is_operator 5) (ahead (kinds tokens.now) None) }
{
    match tokens {
        [first, ..] => matches!(&first.kind, TokenKind::Key(Keyword::KwOr)),
        [] => false,
    }
}

/// The tokens behind `or`.
pub fn or_operator(tokens: &[Token]) -> Result<&[Token], Stop>
    ensures read { Gives (λ x. kw_or) (λ x. x.now) result (one (pick_by (is_operator 5)) (kinds tokens.now)) }
    ensures along { IfOk result (λ x. past_token tokens.now ≡ Some x.now) }
{
    match tokens {
        [first, rest @ ..] => match &first.kind {
            TokenKind::Key(Keyword::KwOr) => Ok(rest),
            _ => Err(Stop::Syntax(tokens.len())),
        },
        [] => Err(Stop::Syntax(0)),
    }
}

/// Whether `and` is ahead.
pub fn and_ahead(tokens: &[Token]) -> bool
    ensures { result ≡ passes (is_operator 4) (ahead (kinds tokens.now) None) }
{
    match tokens {
        [first, ..] => matches!(&first.kind, TokenKind::Key(Keyword::KwAnd)),
        [] => false,
    }
}

/// The tokens behind `and`.
pub fn and_operator(tokens: &[Token]) -> Result<&[Token], Stop>
    ensures read { Gives (λ x. kw_and) (λ x. x.now) result (one (pick_by (is_operator 4)) (kinds tokens.now)) }
    ensures along { IfOk result (λ x. past_token tokens.now ≡ Some x.now) }
{
    match tokens {
        [first, rest @ ..] => match &first.kind {
            TokenKind::Key(Keyword::KwAnd) => Ok(rest),
            _ => Err(Stop::Syntax(tokens.len())),
        },
        [] => Err(Stop::Syntax(0)),
    }
}

/// Whether an operator of comparisons is ahead.
pub fn compare_ahead(tokens: &[Token]) -> bool
    ensures { result ≡ passes (is_operator 3) (ahead (kinds tokens.now) None) }
{
    match tokens {
        [first, ..] => matches!(
            &first.kind,
            TokenKind::Sign(
                Mark::Equal
                    | Mark::NotEqual
                    | Mark::Less
                    | Mark::LessEqual
                    | Mark::Greater
                    | Mark::GreaterEqual
            )
        ),
        [] => false,
    }
}

/// An operator of comparisons.
pub fn compare_operator(tokens: &[Token]) -> Result<(CompOp, &[Token]), Stop>
    ensures read { Gives (λ x. comp_op_view x.0) (λ x. x.1.now) result (one (pick_by (is_operator 3)) (kinds tokens.now)) }
    ensures along { IfOk result (λ x. past_token tokens.now ≡ Some x.1.now) }
{
    match tokens {
        [first, rest @ ..] => match &first.kind {
            TokenKind::Sign(Mark::Equal) => Ok((CompOp::Eq, rest)),
            TokenKind::Sign(Mark::NotEqual) => Ok((CompOp::Ne, rest)),
            TokenKind::Sign(Mark::Less) => Ok((CompOp::Lt, rest)),
            TokenKind::Sign(Mark::LessEqual) => Ok((CompOp::Le, rest)),
            TokenKind::Sign(Mark::Greater) => Ok((CompOp::Gt, rest)),
            TokenKind::Sign(Mark::GreaterEqual) => Ok((CompOp::Ge, rest)),
            _ => Err(Stop::Syntax(tokens.len())),
        },
        [] => Err(Stop::Syntax(0)),
    }
}

/// Whether an operator of sums is ahead.
pub fn sum_ahead(tokens: &[Token]) -> bool
    ensures { result ≡ passes (is_operator 2) (ahead (kinds tokens.now) None) }
{
    match tokens {
        [first, ..] => matches!(
            &first.kind,
            TokenKind::Sign(Mark::Plus | Mark::Minus | Mark::Ampersand)
        ),
        [] => false,
    }
}

/// An operator of sums.
pub fn sum_operator(tokens: &[Token]) -> Result<(SumOp, &[Token]), Stop>
    ensures read { Gives (λ x. sum_op_view x.0) (λ x. x.1.now) result (one (pick_by (is_operator 2)) (kinds tokens.now)) }
    ensures along { IfOk result (λ x. past_token tokens.now ≡ Some x.1.now) }
{
    match tokens {
        [first, rest @ ..] => match &first.kind {
            TokenKind::Sign(Mark::Plus) => Ok((SumOp::Add, rest)),
            TokenKind::Sign(Mark::Minus) => Ok((SumOp::Sub, rest)),
            TokenKind::Sign(Mark::Ampersand) => Ok((SumOp::Cat, rest)),
            _ => Err(Stop::Syntax(tokens.len())),
        },
        [] => Err(Stop::Syntax(0)),
    }
}

/// Whether an operator of products is ahead.
pub fn product_ahead(tokens: &[Token]) -> bool
    ensures { result ≡ passes (is_operator 1) (ahead (kinds tokens.now) None) }
{
    match tokens {
        [first, ..] => matches!(
            &first.kind,
            TokenKind::Sign(Mark::Star) | TokenKind::Key(Keyword::KwDiv | Keyword::KwMod)
        ),
        [] => false,
    }
}

/// An operator of products.
pub fn product_operator(tokens: &[Token]) -> Result<(ProdOp, &[Token]), Stop>
    ensures read { Gives (λ x. prod_op_view x.0) (λ x. x.1.now) result (one (pick_by (is_operator 1)) (kinds tokens.now)) }
    ensures along { IfOk result (λ x. past_token tokens.now ≡ Some x.1.now) }
{
    match tokens {
        [first, rest @ ..] => match &first.kind {
            TokenKind::Sign(Mark::Star) => Ok((ProdOp::Mul, rest)),
            TokenKind::Key(Keyword::KwDiv) => Ok((ProdOp::Div, rest)),
            TokenKind::Key(Keyword::KwMod) => Ok((ProdOp::Mod, rest)),
            _ => Err(Stop::Syntax(tokens.len())),
        },
        [] => Err(Stop::Syntax(0)),
    }
}

/// Whether `-` or `not` is ahead.
pub fn unary_ahead(tokens: &[Token]) -> bool
    ensures { result ≡ passes is_sign (ahead (kinds tokens.now) None) }
{
    match tokens {
        [first, ..] => matches!(
            &first.kind,
            TokenKind::Sign(Mark::Minus) | TokenKind::Key(Keyword::KwNot)
        ),
        [] => false,
    }
}

/// `-` or `not`.
pub fn unary_operator(tokens: &[Token]) -> Result<(UnaryOp, &[Token]), Stop>
    ensures read { Gives (λ x. unary_op_view x.0) (λ x. x.1.now) result (one (pick_by is_sign) (kinds tokens.now)) }
    ensures along { IfOk result (λ x. past_token tokens.now ≡ Some x.1.now) }
{
    match tokens {
        [first, rest @ ..] => match &first.kind {
            TokenKind::Sign(Mark::Minus) => Ok((UnaryOp::Neg, rest)),
            TokenKind::Key(Keyword::KwNot) => Ok((UnaryOp::Not, rest)),
            _ => Err(Stop::Syntax(tokens.len())),
        },
        [] => Err(Stop::Syntax(0)),
    }
}
