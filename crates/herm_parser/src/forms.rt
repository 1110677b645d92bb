//! Statements without statements in them, by their first keyword.
ghost use Rattle.std.specs.Prelude.{◌≡◌, None, Some, IfOk};
ghost use Rattle.herm_readers.specs.Reader.{ahead};
ghost use Rattle.herm_readers.specs.Combinators.{passes, mapped};
ghost use Rattle.herm_syntax.specs.Words.{is_transfer, is_touch, is_find};
ghost use Rattle.herm_syntax.specs.ReadStatements.{is_plain, plain_of, read_plain};
ghost use Rattle.herm_syntax.specs.View.{stmt_form_view};
ghost use Rattle.herm_parser.specs.Forms.{transfer_at, touch_at, find_at, unwrap_at, call_at, return_at, create_at, raise_at, leave_at, other_at, plain_at};
ghost use Rattle.herm_parser.specs.Walk.{walk_form};
ghost use Rattle.herm_parser.specs.Gives.{kinds, Gives};

use crate::parts::{
    arguments, component_pair, keyed, one_component_path, one_name, one_path, pair, semicolon,
};
use crate::paths::path;
use crate::stop::Stop;
use crate::tokens::{key, key_ahead, name, sign};
use herm_alphabet::{Keyword, Mark, Token, TokenKind};
use herm_syntax::StmtForm;
use std::alloc::Global;

/// Whether a statement with two paths is ahead.
fn transfer_ahead(tokens: &[Token]) -> bool
    ensures { result ≡ passes is_transfer (ahead (kinds tokens.now) None) }
{
    match tokens {
        [first, ..] => matches!(
            &first.kind,
            TokenKind::Key(
                Keyword::KwMove
                    | Keyword::KwUnite
                    | Keyword::KwDissolve
                    | Keyword::KwWrap
                    | Keyword::KwInsert
                    | Keyword::KwConnect
                    | Keyword::KwSend
                    | Keyword::KwReceive
            )
        ),
        [] => false,
    }
}

/// A statement with two paths.
#[tactic(auto, unfolding(crate::specs::Forms::transfer_at))]
fn transfer(alloc: Global, tokens: &[Token]) -> Result<(StmtForm, u32, &[Token]), Stop>
    ensures read { Gives (λ x. stmt_form_view x.0) (λ x. x.2.now) result (transfer_at (kinds tokens.now)) }
    ensures along { IfOk result (λ x. (n : _) → walk_form x.0 n tokens.now ≡ Some (n, (x.1, x.2.now))) }
{
    match tokens {
        [first, rest @ ..] => match &first.kind {
            TokenKind::Key(Keyword::KwMove) => {
                let (first, second, end, rest) = pair(alloc, Keyword::KwTo, rest)?;
                return Ok((StmtForm::Move(first, second), end, rest));
            }
            TokenKind::Key(Keyword::KwUnite) => {
                let (first, second, end, rest) = component_pair(alloc, Keyword::KwFrom, rest)?;
                return Ok((StmtForm::Unite(first, second), end, rest));
            }
            TokenKind::Key(Keyword::KwDissolve) => {
                let (first, second, end, rest) = component_pair(alloc, Keyword::KwInto, rest)?;
                return Ok((StmtForm::Dissolve(first, second), end, rest));
            }
            TokenKind::Key(Keyword::KwWrap) => {
                let (first, second, end, rest) = pair(alloc, Keyword::KwAs, rest)?;
                return Ok((StmtForm::Wrap(first, second), end, rest));
            }
            TokenKind::Key(Keyword::KwInsert) => {
                let (first, second, end, rest) = pair(alloc, Keyword::KwInto, rest)?;
                return Ok((StmtForm::Insert(first, second), end, rest));
            }
            TokenKind::Key(Keyword::KwConnect) => {
                let (first, second, end, rest) = pair(alloc, Keyword::KwTo, rest)?;
                return Ok((StmtForm::Connect(first, second), end, rest));
            }
            TokenKind::Key(Keyword::KwSend) => {
                let (first, second, end, rest) = pair(alloc, Keyword::KwTo, rest)?;
                return Ok((StmtForm::Send(first, second), end, rest));
            }
            TokenKind::Key(Keyword::KwReceive) => {
                let (first, second, end, rest) = pair(alloc, Keyword::KwFrom, rest)?;
                return Ok((StmtForm::Receive(first, second), end, rest));
            }
            _ => Err(Stop::Syntax(tokens.len())),
        },
        [] => Err(Stop::Syntax(0)),
    }
}

/// Whether `new`, `discard` or `reveal` is ahead.
fn touch_ahead(tokens: &[Token]) -> bool
    ensures { result ≡ passes is_touch (ahead (kinds tokens.now) None) }
{
    match tokens {
        [first, ..] => matches!(
            &first.kind,
            TokenKind::Key(Keyword::KwNew | Keyword::KwDiscard | Keyword::KwReveal)
        ),
        [] => false,
    }
}

/// `new`, `discard` or `reveal`.
#[tactic(auto, unfolding(crate::specs::Forms::touch_at))]
fn touch(alloc: Global, tokens: &[Token]) -> Result<(StmtForm, u32, &[Token]), Stop>
    ensures read { Gives (λ x. stmt_form_view x.0) (λ x. x.2.now) result (touch_at (kinds tokens.now)) }
    ensures along { IfOk result (λ x. (n : _) → walk_form x.0 n tokens.now ≡ Some (n, (x.1, x.2.now))) }
{
    match tokens {
        [first, rest @ ..] => match &first.kind {
            TokenKind::Key(Keyword::KwNew) => {
                let (path, end, rest) = one_path(alloc, rest)?;
                return Ok((StmtForm::New(path), end, rest));
            }
            TokenKind::Key(Keyword::KwDiscard) => {
                let (path, end, rest) = one_path(alloc, rest)?;
                return Ok((StmtForm::Discard(path), end, rest));
            }
            TokenKind::Key(Keyword::KwReveal) => {
                let (path, end, rest) = one_component_path(alloc, rest)?;
                return Ok((StmtForm::Reveal(path), end, rest));
            }
            _ => Err(Stop::Syntax(tokens.len())),
        },
        [] => Err(Stop::Syntax(0)),
    }
}

/// Whether `remove` or `get` is ahead.
fn find_ahead(tokens: &[Token]) -> bool
    ensures { result ≡ passes is_find (ahead (kinds tokens.now) None) }
{
    match tokens {
        [first, ..] => matches!(
            &first.kind,
            TokenKind::Key(Keyword::KwRemove | Keyword::KwGet)
        ),
        [] => false,
    }
}

/// `remove` or `get`.
#[tactic(auto, unfolding(crate::specs::Forms::find_at))]
fn find(alloc: Global, tokens: &[Token]) -> Result<(StmtForm, u32, &[Token]), Stop>
    ensures read { Gives (λ x. stmt_form_view x.0) (λ x. x.2.now) result (find_at (kinds tokens.now)) }
    ensures along { IfOk result (λ x. (n : _) → walk_form x.0 n tokens.now ≡ Some (n, (x.1, x.2.now))) }
{
    match tokens {
        [first, rest @ ..] => match &first.kind {
            TokenKind::Key(Keyword::KwRemove) => {
                let (row, table, keys, end, rest) = keyed(alloc, rest)?;
                return Ok((StmtForm::Remove(row, table, keys), end, rest));
            }
            TokenKind::Key(Keyword::KwGet) => {
                let (row, table, keys, end, rest) = keyed(alloc, rest)?;
                return Ok((StmtForm::Get(row, table, keys), end, rest));
            }
            _ => Err(Stop::Syntax(tokens.len())),
        },
        [] => Err(Stop::Syntax(0)),
    }
}

/// `unwrap`, the path, `as` and a type, `into` and the target.
#[tactic(auto, unfolding(crate::specs::Forms::unwrap_at))]
fn unwrap(alloc: Global, tokens: &[Token]) -> Result<(StmtForm, u32, &[Token]), Stop>
    ensures read { Gives (λ x. stmt_form_view x.0) (λ x. x.2.now) result (unwrap_at (kinds tokens.now)) }
    ensures along { IfOk result (λ x. (n : _) → walk_form x.0 n tokens.now ≡ Some (n, (x.1, x.2.now))) }
{
    let rest = key(tokens, Keyword::KwUnwrap)?;
    let (polymorph, rest) = path(alloc, rest)?;
    let rest = key(rest, Keyword::KwAs)?;
    let (of, rest) = name(alloc, rest)?;
    let rest = key(rest, Keyword::KwInto)?;
    let (target, end, rest) = one_path(alloc, rest)?;
    Ok((StmtForm::Unwrap(polymorph, of, target), end, rest))
}

/// `call`, the port and the arguments in parentheses.
#[tactic(auto, unfolding(crate::specs::Forms::call_at))]
fn call(alloc: Global, tokens: &[Token]) -> Result<(StmtForm, u32, &[Token]), Stop>
    ensures read { Gives (λ x. stmt_form_view x.0) (λ x. x.2.now) result (call_at (kinds tokens.now)) }
    ensures along { IfOk result (λ x. (n : _) → walk_form x.0 n tokens.now ≡ Some (n, (x.1, x.2.now))) }
{
    let rest = key(tokens, Keyword::KwCall)?;
    let (port, rest) = path(alloc, rest)?;
    let rest = sign(rest, Mark::ParenOpen)?;
    let (given, rest) = arguments(alloc, rest)?;
    let rest = sign(rest, Mark::ParenClose)?;
    let (end, rest) = semicolon(rest)?;
    Ok((StmtForm::Call(port, given), end, rest))
}

/// `return`, with an exception or without one.
#[tactic(auto, unfolding(crate::specs::Forms::return_at))]
fn back(alloc: Global, tokens: &[Token]) -> Result<(StmtForm, u32, &[Token]), Stop>
    ensures read { Gives (λ x. stmt_form_view x.0) (λ x. x.2.now) result (return_at (kinds tokens.now)) }
    ensures along { IfOk result (λ x. (n : _) → walk_form x.0 n tokens.now ≡ Some (n, (x.1, x.2.now))) }
{
    let rest = key(tokens, Keyword::KwReturn)?;
    let (message, rest) = path(alloc, rest)?;
    if key_ahead(rest, Keyword::KwException) {
        let rest = key(rest, Keyword::KwException)?;
        let (exception, end, rest) = one_name(alloc, rest)?;
        return Ok((StmtForm::ReturnBy(message, exception), end, rest));
    }
    let (end, rest) = semicolon(rest)?;
    Ok((StmtForm::Return(message), end, rest))
}

/// `create`, the port, `of` and the process.
#[tactic(auto, unfolding(crate::specs::Forms::create_at))]
fn create(alloc: Global, tokens: &[Token]) -> Result<(StmtForm, u32, &[Token]), Stop>
    ensures read { Gives (λ x. stmt_form_view x.0) (λ x. x.2.now) result (create_at (kinds tokens.now)) }
    ensures along { IfOk result (λ x. (n : _) → walk_form x.0 n tokens.now ≡ Some (n, (x.1, x.2.now))) }
{
    let rest = key(tokens, Keyword::KwCreate)?;
    let (port, rest) = path(alloc, rest)?;
    let rest = key(rest, Keyword::KwOf)?;
    let (process, end, rest) = one_name(alloc, rest)?;
    Ok((StmtForm::Create(port, process), end, rest))
}

/// `raise` and the exception.
#[tactic(auto, unfolding(crate::specs::Forms::raise_at))]
fn raise(alloc: Global, tokens: &[Token]) -> Result<(StmtForm, u32, &[Token]), Stop>
    ensures read { Gives (λ x. stmt_form_view x.0) (λ x. x.2.now) result (raise_at (kinds tokens.now)) }
    ensures along { IfOk result (λ x. (n : _) → walk_form x.0 n tokens.now ≡ Some (n, (x.1, x.2.now))) }
{
    let rest = key(tokens, Keyword::KwRaise)?;
    let (exception, end, rest) = one_name(alloc, rest)?;
    Ok((StmtForm::Raise(exception), end, rest))
}

/// `leave`.
#[tactic(auto, unfolding(crate::specs::Forms::leave_at))]
fn leave(tokens: &[Token]) -> Result<(StmtForm, u32, &[Token]), Stop>
    ensures read { Gives (λ x. stmt_form_view x.0) (λ x. x.2.now) result (leave_at (kinds tokens.now)) }
    ensures along { IfOk result (λ x. (n : _) → walk_form x.0 n tokens.now ≡ Some (n, (x.1, x.2.now))) }
{
    let rest = key(tokens, Keyword::KwLeave)?;
    let (end, rest) = semicolon(rest)?;
    Ok((StmtForm::Leave, end, rest))
}

/// A statement that begins with a keyword of its own.
#[tactic(auto, unfolding(crate::specs::Forms::other_at))]
fn other(alloc: Global, tokens: &[Token]) -> Result<(StmtForm, u32, &[Token]), Stop>
    ensures read { Gives (λ x. stmt_form_view x.0) (λ x. x.2.now) result (other_at (kinds tokens.now)) }
    ensures along { IfOk result (λ x. (n : _) → walk_form x.0 n tokens.now ≡ Some (n, (x.1, x.2.now))) }
{
    if key_ahead(tokens, Keyword::KwUnwrap) {
        let (form, end, rest) = unwrap(alloc, tokens)?;
        return Ok((form, end, rest));
    }
    if key_ahead(tokens, Keyword::KwCall) {
        let (form, end, rest) = call(alloc, tokens)?;
        return Ok((form, end, rest));
    }
    if key_ahead(tokens, Keyword::KwReturn) {
        let (form, end, rest) = back(alloc, tokens)?;
        return Ok((form, end, rest));
    }
    if key_ahead(tokens, Keyword::KwCreate) {
        let (form, end, rest) = create(alloc, tokens)?;
        return Ok((form, end, rest));
    }
    if key_ahead(tokens, Keyword::KwRaise) {
        let (form, end, rest) = raise(alloc, tokens)?;
        return Ok((form, end, rest));
    }
    let (form, end, rest) = leave(tokens)?;
    Ok((form, end, rest))
}

/// Whether a statement without statements in it is ahead, other than an assignment.
#[tactic(auto, using(crate::proofs::Choosing::plain_passes))]
pub fn plain_ahead(tokens: &[Token]) -> bool
    ensures { result ≡ passes is_plain (ahead (kinds tokens.now) None) }
{
    transfer_ahead(tokens)
        || touch_ahead(tokens)
        || find_ahead(tokens)
        || key_ahead(tokens, Keyword::KwUnwrap)
        || key_ahead(tokens, Keyword::KwCall)
        || key_ahead(tokens, Keyword::KwReturn)
        || key_ahead(tokens, Keyword::KwCreate)
        || key_ahead(tokens, Keyword::KwRaise)
        || key_ahead(tokens, Keyword::KwLeave)
}

/// A statement without statements in it, other than an assignment.
#[tactic(auto, unfolding(crate::specs::Forms::plain_at))]
pub fn plain(alloc: Global, tokens: &[Token]) -> Result<(StmtForm, u32, &[Token]), Stop>
    ensures read { Gives (λ x. stmt_form_view x.0) (λ x. x.2.now) result (plain_at (kinds tokens.now)) }
    ensures along { IfOk result (λ x. (n : _) → walk_form x.0 n tokens.now ≡ Some (n, (x.1, x.2.now))) }
{
    if transfer_ahead(tokens) {
        let (form, end, rest) = transfer(alloc, tokens)?;
        return Ok((form, end, rest));
    }
    if touch_ahead(tokens) {
        let (form, end, rest) = touch(alloc, tokens)?;
        return Ok((form, end, rest));
    }
    if find_ahead(tokens) {
        let (form, end, rest) = find(alloc, tokens)?;
        return Ok((form, end, rest));
    }
    let (form, end, rest) = other(alloc, tokens)?;
    Ok((form, end, rest))
}
