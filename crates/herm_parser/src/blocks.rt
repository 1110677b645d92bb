//! Statements with blocks. So many brackets may still open in a statement as its depth says.
ghost use Rattle.std.specs.Prelude.{◌≡◌, ◌<◌, ◌-◌, suc, map, None, Some, IfOk, IfErr};
ghost use Rattle.herm_readers.specs.Reader.{ahead};
ghost use Rattle.herm_readers.specs.Combinators.{many, passes, skip, sequence};
ghost use Rattle.herm_syntax.specs.Symbols.{is, brace_close};
ghost use Rattle.herm_syntax.specs.KeywordSymbols.{kw_on, kw_when};
ghost use Rattle.herm_syntax.specs.ReadStatements.{inside, arms_of, port_arms_of, some_arms_of, some_port_arms_of};
ghost use Rattle.herm_syntax.specs.View.{stmt_form_view, stmts_view};
ghost use Rattle.herm_parser.specs.Blocks.{arm_view, port_arm_view, else_view, body_at, block_at, case_arm_at, handler_at, port_arm_at, otherwise_at, case_at, for_at, select_at, if_at, while_at, try_at, assign_at, compound_at, statement_at};
ghost use Rattle.herm_parser.specs.Walk.{past_end, blocked, walk_form, walk_statement, walk_body, walk_each, walk_arm, walk_port_arm, walk_else};
ghost use Rattle.herm_parser.specs.Gives.{kinds, Gives};
ghost use Rattle.herm_parser.specs.declared.stop.Stop.TheVariants.{Memory};

use crate::expressions::expression_within;
use crate::forms::{plain, plain_ahead};
use crate::parts::semicolon;
use crate::paths::{path, with_first};
use crate::stop::Stop;
use crate::tokens::{key, key_ahead, name, part, sign, sign_ahead};
use herm_alphabet::{Keyword, Mark, Token, TokenKind};
use herm_base::{Name, Span, StmtNo};
use herm_syntax::{Expr, PathForm, Stmt, StmtForm};
use std::alloc::Global;

/// The number behind this one. Where there is none, it counts as want of memory.
fn number_behind(number: u32) -> Result<u32, Stop>
    ensures ok { IfOk result (λ n. n ≡ suc number) }
    ensures err { IfErr result (λ stop. stop ≡ Memory) }
{
    match number.checked_add(1) {
        Some(n) => Ok(n),
        None => Err(Stop::Memory),
    }
}

/// Whether a statement is ahead: a token other than the brace that closes the block.
pub fn inside_ahead(tokens: &[Token]) -> bool
    ensures { result ≡ passes inside (ahead (kinds tokens.now) None) }
{
    match tokens {
        [first, ..] => !matches!(&first.kind, TokenKind::Sign(Mark::BraceClose)),
        [] => false,
    }
}

/// The brace that closes a block: where it ends in the text, and the tokens behind it.
fn brace(tokens: &[Token]) -> Result<(u32, &[Token]), Stop>
    ensures read { Gives (λ x. tt) (λ x. x.1.now) result (skip (is brace_close) (kinds tokens.now)) }
    ensures along { IfOk result (λ x. (n : _) → past_end n tokens.now ≡ Some (n, (x.0, x.1.now))) }
{
    match tokens {
        [first, rest @ ..] => match first.kind {
            TokenKind::Sign(Mark::BraceClose) => Ok((first.span.end, rest)),
            _ => Err(Stop::Syntax(tokens.len())),
        },
        [] => Err(Stop::Syntax(0)),
    }
}

/// `path := expression ;`
#[tactic(auto, unfolding(crate::specs::Blocks::assign_at))]
fn assign(alloc: Global, depth: usize, tokens: &[Token]) -> Result<(StmtForm, u32, &[Token]), Stop>
    ensures read { Gives (λ x. stmt_form_view x.0) (λ x. x.2.now) result (assign_at depth (kinds tokens.now)) }
    ensures along { IfOk result (λ x. (n : _) → walk_form x.0 n tokens.now ≡ Some (n, (x.1, x.2.now))) }
{
    let (target, rest) = path(alloc, tokens)?;
    let rest = sign(rest, Mark::Becomes)?;
    let (value, rest) = expression_within(alloc, depth, rest)?;
    let (end, rest) = semicolon(rest)?;
    Ok((StmtForm::Assign(target, value), end, rest))
}

/// The statements of a block, up to its closing brace.
#[cycle(blocks)]
fn further(
    alloc: Global,
    depth: usize,
    next: u32,
    tokens: &[Token],
) -> Result<(Vec<Stmt>, u32, &[Token]), Stop>
    ensures read { Gives (λ x. map (λ s. stmt_form_view s.form) x.0.items) (λ x. x.2.now) result (many inside (statement_at depth) (kinds tokens.now)) }
    ensures along { IfOk result (λ x. walk_body x.0.items next tokens.now ≡ Some (x.1, x.2.now)) }
{
    let mut found = Vec::new(alloc);
    let mut number = next;
    let mut rest = tokens;
    'list: while inside_ahead(rest) {
        let (item, after, behind) = statement(alloc, depth, number, rest)?;
        found.push(item)?;
        number = after;
        rest = behind;
    }
    Ok((found, number, rest))
}

/// The statements of a block or of a process.
#[cycle(blocks)]
#[tactic(auto, using(crate::proofs::Bodies::body_none, crate::proofs::Bodies::body_more, crate::proofs::Bodies::body_list))]
pub fn body(
    alloc: Global,
    depth: usize,
    next: u32,
    tokens: &[Token],
) -> Result<(Vec<Stmt>, u32, &[Token]), Stop>
    ensures read { Gives (λ x. stmts_view x.0.items) (λ x. x.2.now) result (body_at depth (kinds tokens.now)) }
    ensures along { IfOk result (λ x. walk_body x.0.items next tokens.now ≡ Some (x.1, x.2.now)) }
{
    if depth == 0 {
        return Ok((Vec::new(alloc), next, tokens));
    }
    let (found, after, rest) = further(alloc, depth - 1, next, tokens)?;
    Ok((found, after, rest))
}

/// `{`, statements, `}`.
#[cycle(blocks)]
#[tactic(auto, unfolding(crate::specs::Blocks::block_at))]
fn block(
    alloc: Global,
    depth: usize,
    next: u32,
    tokens: &[Token],
) -> Result<(Vec<Stmt>, u32, u32, &[Token]), Stop>
    ensures read { Gives (λ x. stmts_view x.0.items) (λ x. x.3.now) result (block_at depth (kinds tokens.now)) }
    ensures along { IfOk result (λ x. blocked (walk_body x.0.items) next tokens.now ≡ Some (x.1, (x.2, x.3.now))) }
{
    let rest = sign(tokens, Mark::BraceOpen)?;
    let (inner, after, rest) = body(alloc, depth, next, rest)?;
    let (end, rest) = brace(rest)?;
    Ok((inner, after, end, rest))
}

/// `when`, a component and its block.
#[cycle(blocks)]
#[tactic(auto, unfolding(crate::specs::Blocks::case_arm_at, crate::specs::Blocks::block_at))]
fn case_arm(
    alloc: Global,
    depth: usize,
    next: u32,
    tokens: &[Token],
) -> Result<((Name, Vec<Stmt>), u32, u32, &[Token]), Stop>
    ensures read { Gives (λ x. arm_view x.0) (λ x. x.3.now) result (case_arm_at depth (kinds tokens.now)) }
    ensures along { IfOk result (λ x. (e : _) → walk_arm x.0 (next, (e, tokens.now)) ≡ Some (x.1, (x.2, x.3.now))) }
{
    let rest = key(tokens, Keyword::KwWhen)?;
    let (component, rest) = part(alloc, rest)?;
    let (inner, after, end, rest) = block(alloc, depth, next, rest)?;
    Ok(((component, inner), after, end, rest))
}

/// `on`, an exception and its block.
#[cycle(blocks)]
#[tactic(auto, unfolding(crate::specs::Blocks::handler_at, crate::specs::Blocks::block_at))]
fn handler(
    alloc: Global,
    depth: usize,
    next: u32,
    tokens: &[Token],
) -> Result<((Name, Vec<Stmt>), u32, u32, &[Token]), Stop>
    ensures read { Gives (λ x. arm_view x.0) (λ x. x.3.now) result (handler_at depth (kinds tokens.now)) }
    ensures along { IfOk result (λ x. (e : _) → walk_arm x.0 (next, (e, tokens.now)) ≡ Some (x.1, (x.2, x.3.now))) }
{
    let rest = key(tokens, Keyword::KwOn)?;
    let (exception, rest) = name(alloc, rest)?;
    let (inner, after, end, rest) = block(alloc, depth, next, rest)?;
    Ok(((exception, inner), after, end, rest))
}

/// `when`, a port, `receive`, a target and their block.
#[cycle(blocks)]
#[tactic(auto, unfolding(crate::specs::Blocks::port_arm_at, crate::specs::Blocks::block_at))]
fn port_arm(
    alloc: Global,
    depth: usize,
    next: u32,
    tokens: &[Token],
) -> Result<((PathForm, PathForm, Vec<Stmt>), u32, u32, &[Token]), Stop>
    ensures read { Gives (λ x. port_arm_view x.0) (λ x. x.3.now) result (port_arm_at depth (kinds tokens.now)) }
    ensures along { IfOk result (λ x. (e : _) → walk_port_arm x.0 (next, (e, tokens.now)) ≡ Some (x.1, (x.2, x.3.now))) }
{
    let rest = key(tokens, Keyword::KwWhen)?;
    let (port, rest) = path(alloc, rest)?;
    let rest = key(rest, Keyword::KwReceive)?;
    let (target, rest) = path(alloc, rest)?;
    let (inner, after, end, rest) = block(alloc, depth, next, rest)?;
    Ok(((port, target, inner), after, end, rest))
}

/// Further arms of a case.
#[cycle(blocks)]
fn case_arms(
    alloc: Global,
    depth: usize,
    next: u32,
    end: u32,
    tokens: &[Token],
) -> Result<(Vec<(Name, Vec<Stmt>)>, u32, u32, &[Token]), Stop>
    ensures read { Gives (λ x. map arm_view x.0.items) (λ x. x.3.now) result (many (is kw_when) (case_arm_at depth) (kinds tokens.now)) }
    ensures along { IfOk result (λ x. walk_each walk_arm x.0.items (next, (end, tokens.now)) ≡ Some (x.1, (x.2, x.3.now))) }
{
    let mut found = Vec::new(alloc);
    let mut number = next;
    let mut last = end;
    let mut rest = tokens;
    'list: while key_ahead(rest, Keyword::KwWhen) {
        let (item, after, end, behind) = case_arm(alloc, depth, number, rest)?;
        found.push(item)?;
        number = after;
        last = end;
        rest = behind;
    }
    Ok((found, number, last, rest))
}

/// Further handlers.
#[cycle(blocks)]
fn handlers(
    alloc: Global,
    depth: usize,
    next: u32,
    end: u32,
    tokens: &[Token],
) -> Result<(Vec<(Name, Vec<Stmt>)>, u32, u32, &[Token]), Stop>
    ensures read { Gives (λ x. map arm_view x.0.items) (λ x. x.3.now) result (many (is kw_on) (handler_at depth) (kinds tokens.now)) }
    ensures along { IfOk result (λ x. walk_each walk_arm x.0.items (next, (end, tokens.now)) ≡ Some (x.1, (x.2, x.3.now))) }
{
    let mut found = Vec::new(alloc);
    let mut number = next;
    let mut last = end;
    let mut rest = tokens;
    'list: while key_ahead(rest, Keyword::KwOn) {
        let (item, after, end, behind) = handler(alloc, depth, number, rest)?;
        found.push(item)?;
        number = after;
        last = end;
        rest = behind;
    }
    Ok((found, number, last, rest))
}

/// Further arms of a select.
#[cycle(blocks)]
fn port_arms(
    alloc: Global,
    depth: usize,
    next: u32,
    end: u32,
    tokens: &[Token],
) -> Result<(Vec<(PathForm, PathForm, Vec<Stmt>)>, u32, u32, &[Token]), Stop>
    ensures read { Gives (λ x. map port_arm_view x.0.items) (λ x. x.3.now) result (many (is kw_when) (port_arm_at depth) (kinds tokens.now)) }
    ensures along { IfOk result (λ x. walk_each walk_port_arm x.0.items (next, (end, tokens.now)) ≡ Some (x.1, (x.2, x.3.now))) }
{
    let mut found = Vec::new(alloc);
    let mut number = next;
    let mut last = end;
    let mut rest = tokens;
    'list: while key_ahead(rest, Keyword::KwWhen) {
        let (item, after, end, behind) = port_arm(alloc, depth, number, rest)?;
        found.push(item)?;
        number = after;
        last = end;
        rest = behind;
    }
    Ok((found, number, last, rest))
}

/// `else` and its block, or nothing.
#[cycle(blocks)]
#[tactic(auto, unfolding(crate::specs::Blocks::otherwise_at, crate::specs::Blocks::block_at))]
fn otherwise(
    alloc: Global,
    depth: usize,
    next: u32,
    end: u32,
    tokens: &[Token],
) -> Result<(Option<Vec<Stmt>>, u32, u32, &[Token]), Stop>
    ensures read { Gives (λ x. else_view x.0) (λ x. x.3.now) result (otherwise_at depth (kinds tokens.now)) }
    ensures along { IfOk result (λ x. walk_else x.0 (next, (end, tokens.now)) ≡ Some (x.1, (x.2, x.3.now))) }
{
    if key_ahead(tokens, Keyword::KwElse) {
        let rest = key(tokens, Keyword::KwElse)?;
        let (inner, after, end, rest) = block(alloc, depth, next, rest)?;
        return Ok((Some(inner), after, end, rest));
    }
    Ok((None, next, end, tokens))
}

/// `case`, a path and its arms in braces.
#[cycle(blocks)]
#[tactic(auto, unfolding(crate::specs::Blocks::case_at, crate::specs::Blocks::case_arm_at), using(crate::proofs::SeenForms::case_seen, crate::proofs::SeenForms::case_walk))]
fn case_form(
    alloc: Global,
    depth: usize,
    next: u32,
    tokens: &[Token],
) -> Result<(StmtForm, u32, u32, &[Token]), Stop>
    ensures read { Gives (λ x. stmt_form_view x.0) (λ x. x.3.now) result (case_at depth (kinds tokens.now)) }
    ensures along { IfOk result (λ x. walk_form x.0 next tokens.now ≡ Some (x.1, (x.2, x.3.now))) }
{
    let rest = key(tokens, Keyword::KwCase)?;
    let (variant, rest) = path(alloc, rest)?;
    let rest = sign(rest, Mark::BraceOpen)?;
    let (first, after, last, rest) = case_arm(alloc, depth, next, rest)?;
    let (others, after, _, rest) = case_arms(alloc, depth, after, last, rest)?;
    let arms = with_first(alloc, first, others)?;
    let (end, rest) = brace(rest)?;
    Ok((StmtForm::Case(variant, arms), after, end, rest))
}

/// `for`, a row, `in`, a table and the block.
#[cycle(blocks)]
#[tactic(auto, unfolding(crate::specs::Blocks::for_at, crate::specs::Blocks::block_at), using(crate::proofs::SeenForms::for_seen, crate::proofs::SeenForms::for_walk))]
fn for_form(
    alloc: Global,
    depth: usize,
    next: u32,
    tokens: &[Token],
) -> Result<(StmtForm, u32, u32, &[Token]), Stop>
    ensures read { Gives (λ x. stmt_form_view x.0) (λ x. x.3.now) result (for_at depth (kinds tokens.now)) }
    ensures along { IfOk result (λ x. walk_form x.0 next tokens.now ≡ Some (x.1, (x.2, x.3.now))) }
{
    let rest = key(tokens, Keyword::KwFor)?;
    let (row, rest) = path(alloc, rest)?;
    let rest = key(rest, Keyword::KwIn)?;
    let (table, rest) = path(alloc, rest)?;
    let (inner, after, end, rest) = block(alloc, depth, next, rest)?;
    Ok((StmtForm::For(row, table, inner), after, end, rest))
}

/// `select` and its arms in braces.
#[cycle(blocks)]
#[tactic(auto, unfolding(crate::specs::Blocks::select_at, crate::specs::Blocks::port_arm_at), using(crate::proofs::SeenForms::select_seen, crate::proofs::SeenForms::select_walk))]
fn select_form(
    alloc: Global,
    depth: usize,
    next: u32,
    tokens: &[Token],
) -> Result<(StmtForm, u32, u32, &[Token]), Stop>
    ensures read { Gives (λ x. stmt_form_view x.0) (λ x. x.3.now) result (select_at depth (kinds tokens.now)) }
    ensures along { IfOk result (λ x. walk_form x.0 next tokens.now ≡ Some (x.1, (x.2, x.3.now))) }
{
    let rest = key(tokens, Keyword::KwSelect)?;
    let rest = sign(rest, Mark::BraceOpen)?;
    let (first, after, last, rest) = port_arm(alloc, depth, next, rest)?;
    let (others, after, _, rest) = port_arms(alloc, depth, after, last, rest)?;
    let arms = with_first(alloc, first, others)?;
    let (end, rest) = brace(rest)?;
    Ok((StmtForm::Select(arms), after, end, rest))
}

/// `if`, a condition, a block, and maybe `else` and a block.
#[cycle(blocks)]
#[tactic(auto, unfolding(crate::specs::Blocks::if_at, crate::specs::Blocks::otherwise_at), using(crate::proofs::SeenForms::if_seen, crate::proofs::SeenForms::if_walk))]
fn if_form(
    alloc: Global,
    depth: usize,
    next: u32,
    tokens: &[Token],
) -> Result<(StmtForm, u32, u32, &[Token]), Stop>
    ensures read { Gives (λ x. stmt_form_view x.0) (λ x. x.3.now) result (if_at depth (kinds tokens.now)) }
    ensures along { IfOk result (λ x. walk_form x.0 next tokens.now ≡ Some (x.1, (x.2, x.3.now))) }
{
    let rest = key(tokens, Keyword::KwIf)?;
    let (condition, rest) = expression_within(alloc, depth, rest)?;
    let rest = sign(rest, Mark::BraceOpen)?;
    let (inner, after, rest) = body(alloc, depth, next, rest)?;
    let (end, rest) = brace(rest)?;
    let (other, after, end, rest) = otherwise(alloc, depth, after, end, rest)?;
    Ok((StmtForm::If(condition, inner, other), after, end, rest))
}

/// `while`, a condition and a block.
#[cycle(blocks)]
#[tactic(auto, unfolding(crate::specs::Blocks::while_at, crate::specs::Blocks::block_at), using(crate::proofs::SeenForms::while_seen, crate::proofs::SeenForms::while_walk))]
fn while_form(
    alloc: Global,
    depth: usize,
    next: u32,
    tokens: &[Token],
) -> Result<(StmtForm, u32, u32, &[Token]), Stop>
    ensures read { Gives (λ x. stmt_form_view x.0) (λ x. x.3.now) result (while_at depth (kinds tokens.now)) }
    ensures along { IfOk result (λ x. walk_form x.0 next tokens.now ≡ Some (x.1, (x.2, x.3.now))) }
{
    let rest = key(tokens, Keyword::KwWhile)?;
    let (condition, rest) = expression_within(alloc, depth, rest)?;
    let (inner, after, end, rest) = block(alloc, depth, next, rest)?;
    Ok((StmtForm::While(condition, inner), after, end, rest))
}

/// `try`, a block and its handlers.
#[cycle(blocks)]
#[tactic(auto, unfolding(crate::specs::Blocks::try_at, crate::specs::Blocks::handler_at), using(crate::proofs::SeenForms::try_seen, crate::proofs::SeenForms::try_walk))]
fn try_form(
    alloc: Global,
    depth: usize,
    next: u32,
    tokens: &[Token],
) -> Result<(StmtForm, u32, u32, &[Token]), Stop>
    ensures read { Gives (λ x. stmt_form_view x.0) (λ x. x.3.now) result (try_at depth (kinds tokens.now)) }
    ensures along { IfOk result (λ x. walk_form x.0 next tokens.now ≡ Some (x.1, (x.2, x.3.now))) }
{
    let rest = key(tokens, Keyword::KwTry)?;
    let rest = sign(rest, Mark::BraceOpen)?;
    let (inner, after, rest) = body(alloc, depth, next, rest)?;
    let (_, rest) = brace(rest)?;
    let (first, after, last, rest) = handler(alloc, depth, after, rest)?;
    let (others, after, end, rest) = handlers(alloc, depth, after, last, rest)?;
    let handled = with_first(alloc, first, others)?;
    Ok((StmtForm::Try(inner, handled), after, end, rest))
}

/// A statement with blocks, or an assignment.
#[cycle(blocks)]
#[tactic(auto, unfolding(crate::specs::Blocks::compound_at))]
fn compound(
    alloc: Global,
    depth: usize,
    next: u32,
    tokens: &[Token],
) -> Result<(StmtForm, u32, u32, &[Token]), Stop>
    ensures read { Gives (λ x. stmt_form_view x.0) (λ x. x.3.now) result (compound_at depth (kinds tokens.now)) }
    ensures along { IfOk result (λ x. walk_form x.0 next tokens.now ≡ Some (x.1, (x.2, x.3.now))) }
{
    if key_ahead(tokens, Keyword::KwCase) {
        let (form, after, end, rest) = case_form(alloc, depth, next, tokens)?;
        return Ok((form, after, end, rest));
    }
    if key_ahead(tokens, Keyword::KwFor) {
        let (form, after, end, rest) = for_form(alloc, depth, next, tokens)?;
        return Ok((form, after, end, rest));
    }
    if key_ahead(tokens, Keyword::KwSelect) {
        let (form, after, end, rest) = select_form(alloc, depth, next, tokens)?;
        return Ok((form, after, end, rest));
    }
    if key_ahead(tokens, Keyword::KwIf) {
        let (form, after, end, rest) = if_form(alloc, depth, next, tokens)?;
        return Ok((form, after, end, rest));
    }
    if key_ahead(tokens, Keyword::KwWhile) {
        let (form, after, end, rest) = while_form(alloc, depth, next, tokens)?;
        return Ok((form, after, end, rest));
    }
    if key_ahead(tokens, Keyword::KwTry) {
        let (form, after, end, rest) = try_form(alloc, depth, next, tokens)?;
        return Ok((form, after, end, rest));
    }
    let (form, end, rest) = assign(alloc, depth, tokens)?;
    Ok((form, next, end, rest))
}

/// What a statement is, without its number and place.
#[cycle(blocks)]
#[tactic(auto, unfolding(crate::specs::Blocks::statement_at))]
fn form(
    alloc: Global,
    depth: usize,
    next: u32,
    tokens: &[Token],
) -> Result<(StmtForm, u32, u32, &[Token]), Stop>
    ensures read { Gives (λ x. stmt_form_view x.0) (λ x. x.3.now) result (statement_at depth (kinds tokens.now)) }
    ensures along { IfOk result (λ x. walk_form x.0 next tokens.now ≡ Some (x.1, (x.2, x.3.now))) }
{
    if plain_ahead(tokens) {
        let (form, end, rest) = plain(alloc, tokens)?;
        return Ok((form, next, end, rest));
    }
    let (form, after, end, rest) = compound(alloc, depth, next, tokens)?;
    Ok((form, after, end, rest))
}

/// A statement with its number and place.
#[cycle(blocks)]
#[tactic(auto, using(crate::proofs::Bodies::statement_behind))]
fn statement(
    alloc: Global,
    depth: usize,
    next: u32,
    tokens: &[Token],
) -> Result<(Stmt, u32, &[Token]), Stop>
    ensures read { Gives (λ x. stmt_form_view x.0.form) (λ x. x.2.now) result (statement_at depth (kinds tokens.now)) }
    ensures along { IfOk result (λ x. walk_statement x.0 next tokens.now ≡ Some (x.1, x.2.now)) }
{
    match tokens {
        [first, ..] => {
            let start = first.span.start;
            let inner = number_behind(next)?;
            let (form, after, end, rest) = form(alloc, depth, inner, tokens)?;
            let no = StmtNo(next);
            let span = Span { start, end };
            return Ok((Stmt { no, span, form }, after, rest));
        }
        [] => return Err(Stop::Syntax(0)),
    }
}
