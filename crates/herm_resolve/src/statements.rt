//! Statements by number, and the code at each.
ghost use Rattle.std.specs.Prelude.{◌≡◌, ◌<◌, ◌++◌, ◌∷◌, [], length, map, flat_map, set, true, IfOk};
ghost use Rattle.herm_syntax.specs.Trees as trees;
ghost use Rattle.herm_syntax.specs.ReadStatements.{arms_of, port_arms_of};
ghost use Rattle.herm_syntax.specs.View.{path_form_view, name_view, stmt_form_view, stmts_view, expr_view};
ghost use Rattle.herm_naming.specs.Numbers.{part_number, type_seen, exception_number, path_number};
ghost use Rattle.herm_naming.specs.Meaning.{statement_number};
ghost use Rattle.herm_naming.specs.StatementFaults.{within};
ghost use Rattle.herm_typed.specs.View.{typed_path_view, typed_form_view};
ghost use Rattle.herm_numbers.specs.View.{scope_view, number_of, IsKnown};
ghost use Rattle.herm_numbers.specs.Faults.{found_code_view, codes_found, spans_found, spans_within, body_spans};
ghost use Rattle.herm_numbers.specs.Statements.{meant, written, arm_view, port_arm_view, else_view, arms_meant, arms_written, handlers_meant, port_arms_meant, port_arms_written, else_meant, else_written, codes_of, body_codes, arms_codes, port_arms_codes, else_codes, all_spans, all_port_spans, else_spans};
ghost use Rattle.herm_typed.specs.Within.{statements_within};
ghost use Rattle.herm_numbers.specs.Within.{written_within, items_of};
ghost use Rattle.herm_typed.specs.Beside.{types_beside, port_arm_types};
ghost use Rattle.herm_numbers.specs.Beside.{types_seen, port_arm_seen};
ghost use Rattle.herm_resolve.specs.Entries.{typed_entry, written_entry, typed_entries, written_entries};

use herm_base::{ExcNo, Name};
use herm_numbers as forms;
use herm_numbers::{
    Judged, NameCode, Scope, code_of, component_of, exception_number, expression, path, two_paths,
};
use herm_syntax::{Expr, PathForm, Stmt, StmtForm};
use herm_typed::{TypedForm, TypedPath, TypedStmt};
use std::alloc::{AllocError, Global};

/// What is found at the statement at a place of the list.
#[tactic(auto, using(crate::proofs::Placed::codes_set, crate::proofs::Placed::spans_set))]
fn set_code(found: &mut Vec<Judged>, place: usize, code: Option<NameCode>)
    requires there { place < length found.old.items }
    ensures codes { codes_found found.new.items ≡ set (codes_found found.old.items) place (found_code_view code) }
    ensures spans { spans_found found.new.items ≡ spans_found found.old.items }
{
    found[place].code = code;
}

#[cycle(statements)]
#[tactic(auto, using(crate::proofs::Sizes::arm_size))]
fn case_arms(
    alloc: Global,
    scope: &Scope,
    in_loop: bool,
    v: &TypedPath,
    arms: &[(Name, Vec<Stmt>)],
    found: &mut Vec<Judged>,
) -> Result<Vec<(u32, Vec<TypedStmt>)>, AllocError>
    requires known { IsKnown scope.now }
    requires of { v.now.of.0 ≡ number_of scope.now.types.now (type_seen (scope_view scope.now) (typed_path_view v.now)) }
    ensures meaning { IfOk result (λ r. arms_meant r.items ≡ arms_written (scope_view scope.now) (part_number scope.now.types.now (type_seen (scope_view scope.now) (typed_path_view v.now))) arms.now) }
    ensures codes { IfOk result (λ r. codes_found found.new.items ≡ codes_found found.old.items ++ arms_codes (scope_view scope.now) in_loop arms.now) }
    ensures spans { IfOk result (λ r. spans_found found.new.items ≡ spans_found found.old.items ++ all_spans arms.now) }
    ensures entries { IfOk result (λ r. map (λ a. map typed_entries a.1.items) r.items ≡ map (λ a. map (written_entries (scope_view scope.now)) a.1.items) arms.now) }
{
    let mut done = Vec::new(alloc);
    'arms: for (name, body) in arms {
        let number = component_of(scope, v, name.text.bytes());
        let body = block(alloc, scope, in_loop, body.as_slice(), found)?;
        done.push((number, body))?;
    }
    Ok(done)
}

#[cycle(statements)]
#[tactic(auto, using(crate::proofs::Sizes::arm_size))]
fn handlers(
    alloc: Global,
    scope: &Scope,
    in_loop: bool,
    arms: &[(Name, Vec<Stmt>)],
    found: &mut Vec<Judged>,
) -> Result<Vec<(ExcNo, Vec<TypedStmt>)>, AllocError>
    requires known { IsKnown scope.now }
    ensures meaning { IfOk result (λ r. handlers_meant r.items ≡ arms_written (scope_view scope.now) (exception_number scope.now.types.now) arms.now) }
    ensures codes { IfOk result (λ r. codes_found found.new.items ≡ codes_found found.old.items ++ arms_codes (scope_view scope.now) in_loop arms.now) }
    ensures spans { IfOk result (λ r. spans_found found.new.items ≡ spans_found found.old.items ++ all_spans arms.now) }
    ensures entries { IfOk result (λ r. map (λ a. map typed_entries a.1.items) r.items ≡ map (λ a. map (written_entries (scope_view scope.now)) a.1.items) arms.now) }
{
    let mut done = Vec::new(alloc);
    'arms: for (name, body) in arms {
        let number = exception_number(scope, name);
        let body = block(alloc, scope, in_loop, body.as_slice(), found)?;
        done.push((number, body))?;
    }
    Ok(done)
}

#[cycle(statements)]
#[tactic(auto, using(crate::proofs::Sizes::port_size))]
fn port_arms(
    alloc: Global,
    scope: &Scope,
    in_loop: bool,
    arms: &[(PathForm, PathForm, Vec<Stmt>)],
    found: &mut Vec<Judged>,
) -> Result<Vec<(TypedPath, TypedPath, Vec<TypedStmt>)>, AllocError>
    requires known { IsKnown scope.now }
    ensures meaning { IfOk result (λ r. port_arms_meant r.items ≡ port_arms_written (scope_view scope.now) arms.now) }
    ensures codes { IfOk result (λ r. codes_found found.new.items ≡ codes_found found.old.items ++ port_arms_codes (scope_view scope.now) in_loop arms.now) }
    ensures spans { IfOk result (λ r. spans_found found.new.items ≡ spans_found found.old.items ++ all_port_spans arms.now) }
    ensures entries { IfOk result (λ r. map (λ a. map typed_entries a.2.items) r.items ≡ map (λ a. map (written_entries (scope_view scope.now)) a.2.items) arms.now) }
    ensures types { IfOk result (λ r. map port_arm_types r.items ≡ map (port_arm_seen (scope_view scope.now)) r.items) }
{
    let mut done = Vec::new(alloc);
    'arms: for (port, target, body) in arms {
        let (port, target) = two_paths(alloc, scope, port, target)?;
        let body = block(alloc, scope, in_loop, body.as_slice(), found)?;
        done.push((port, target, body))?;
    }
    Ok(done)
}

#[cycle(statements)]
fn otherwise(
    alloc: Global,
    scope: &Scope,
    in_loop: bool,
    other: &Option<Vec<Stmt>>,
    found: &mut Vec<Judged>,
) -> Result<Option<Vec<TypedStmt>>, AllocError>
    requires known { IsKnown scope.now }
    ensures meaning { IfOk result (λ r. else_meant r ≡ else_written (scope_view scope.now) other.now) }
    ensures codes { IfOk result (λ r. codes_found found.new.items ≡ codes_found found.old.items ++ else_codes (scope_view scope.now) in_loop other.now) }
    ensures spans { IfOk result (λ r. spans_found found.new.items ≡ spans_found found.old.items ++ else_spans other.now) }
    ensures entries { IfOk result (λ r. map typed_entries (items_of r) ≡ map (written_entries (scope_view scope.now)) (items_of other.now)) }
{
    match other {
        None => Ok(None),
        Some(body) => {
            let body = block(alloc, scope, in_loop, body.as_slice(), found)?;
            Ok(Some(body))
        }
    }
}

#[cycle(statements)]
#[inline(never)]
fn case_form(
    alloc: Global,
    scope: &Scope,
    in_loop: bool,
    v: &PathForm,
    arms: &[(Name, Vec<Stmt>)],
    found: &mut Vec<Judged>,
) -> Result<TypedForm, AllocError>
    requires known { IsKnown scope.now }
    ensures meaning { IfOk result (λ f. typed_form_view f ≡ statement_number (scope_view scope.now) (trees.Case (path_form_view v.now) (arms_of (map arm_view arms.now)))) }
    ensures codes { IfOk result (λ f. codes_found found.new.items ≡ codes_found found.old.items ++ arms_codes (scope_view scope.now) in_loop arms.now) }
    ensures spans { IfOk result (λ f. spans_found found.new.items ≡ spans_found found.old.items ++ all_spans arms.now) }
    ensures entries { IfOk result (λ f. map typed_entry (statements_within f) ≡ flat_map (λ a. flat_map (written_entries (scope_view scope.now)) a.1.items) arms.now) }
    ensures types { IfOk result (λ f. types_beside f ≡ types_seen (scope_view scope.now) (typed_form_view f)) }
{
    let v = path(alloc, scope, v)?;
    let arms = case_arms(alloc, scope, in_loop, &v, arms, found)?;
    Ok(TypedForm::Case(v, arms))
}

#[cycle(statements)]
#[tactic(auto, using(herm_numbers::proofs::Beside::select_beside))]
#[inline(never)]
fn select_form(
    alloc: Global,
    scope: &Scope,
    in_loop: bool,
    arms: &[(PathForm, PathForm, Vec<Stmt>)],
    found: &mut Vec<Judged>,
) -> Result<TypedForm, AllocError>
    requires known { IsKnown scope.now }
    ensures meaning { IfOk result (λ f. typed_form_view f ≡ statement_number (scope_view scope.now) (trees.Select (port_arms_of (map port_arm_view arms.now)))) }
    ensures codes { IfOk result (λ f. codes_found found.new.items ≡ codes_found found.old.items ++ port_arms_codes (scope_view scope.now) in_loop arms.now) }
    ensures spans { IfOk result (λ f. spans_found found.new.items ≡ spans_found found.old.items ++ all_port_spans arms.now) }
    ensures entries { IfOk result (λ f. map typed_entry (statements_within f) ≡ flat_map (λ a. flat_map (written_entries (scope_view scope.now)) a.2.items) arms.now) }
    ensures types { IfOk result (λ f. types_beside f ≡ types_seen (scope_view scope.now) (typed_form_view f)) }
{
    let arms = port_arms(alloc, scope, in_loop, arms, found)?;
    Ok(TypedForm::Select(arms))
}

#[cycle(statements)]
#[inline(never)]
fn for_form(
    alloc: Global,
    scope: &Scope,
    r: &PathForm,
    t: &PathForm,
    body: &[Stmt],
    found: &mut Vec<Judged>,
) -> Result<TypedForm, AllocError>
    requires known { IsKnown scope.now }
    ensures meaning { IfOk result (λ f. typed_form_view f ≡ statement_number (scope_view scope.now) (trees.For (path_form_view r.now) (path_form_view t.now) (stmts_view body.now))) }
    ensures codes { IfOk result (λ f. codes_found found.new.items ≡ codes_found found.old.items ++ body_codes (scope_view scope.now) true body.now) }
    ensures spans { IfOk result (λ f. spans_found found.new.items ≡ spans_found found.old.items ++ body_spans body.now) }
    ensures entries { IfOk result (λ f. map typed_entry (statements_within f) ≡ flat_map (written_entries (scope_view scope.now)) body.now) }
    ensures types { IfOk result (λ f. types_beside f ≡ types_seen (scope_view scope.now) (typed_form_view f)) }
{
    let r = path(alloc, scope, r)?;
    let t = path(alloc, scope, t)?;
    let body = block(alloc, scope, true, body, found)?;
    Ok(TypedForm::For(r, t, body))
}

#[cycle(statements)]
#[inline(never)]
fn while_form(
    alloc: Global,
    scope: &Scope,
    e: &Expr,
    body: &[Stmt],
    found: &mut Vec<Judged>,
) -> Result<TypedForm, AllocError>
    requires known { IsKnown scope.now }
    ensures meaning { IfOk result (λ f. typed_form_view f ≡ statement_number (scope_view scope.now) (trees.While (expr_view e.now) (stmts_view body.now))) }
    ensures codes { IfOk result (λ f. codes_found found.new.items ≡ codes_found found.old.items ++ body_codes (scope_view scope.now) true body.now) }
    ensures spans { IfOk result (λ f. spans_found found.new.items ≡ spans_found found.old.items ++ body_spans body.now) }
    ensures entries { IfOk result (λ f. map typed_entry (statements_within f) ≡ flat_map (written_entries (scope_view scope.now)) body.now) }
    ensures types { IfOk result (λ f. types_beside f ≡ types_seen (scope_view scope.now) (typed_form_view f)) }
{
    let e = expression(alloc, scope, e)?;
    let body = block(alloc, scope, true, body, found)?;
    Ok(TypedForm::While(e, body))
}

#[cycle(statements)]
#[tactic(auto, using(crate::proofs::Sizes::two_sizes))]
#[inline(never)]
fn if_form(
    alloc: Global,
    scope: &Scope,
    in_loop: bool,
    e: &Expr,
    body: &[Stmt],
    other: &Option<Vec<Stmt>>,
    found: &mut Vec<Judged>,
) -> Result<TypedForm, AllocError>
    requires known { IsKnown scope.now }
    ensures meaning { IfOk result (λ f. typed_form_view f ≡ statement_number (scope_view scope.now) (trees.If (expr_view e.now) (stmts_view body.now) (else_view other.now))) }
    ensures codes { IfOk result (λ f. codes_found found.new.items ≡ codes_found found.old.items ++ (body_codes (scope_view scope.now) in_loop body.now ++ else_codes (scope_view scope.now) in_loop other.now)) }
    ensures spans { IfOk result (λ f. spans_found found.new.items ≡ spans_found found.old.items ++ (body_spans body.now ++ else_spans other.now)) }
    ensures entries { IfOk result (λ f. map typed_entry (statements_within f) ≡ flat_map (written_entries (scope_view scope.now)) body.now ++ flat_map (written_entries (scope_view scope.now)) (items_of other.now)) }
    ensures types { IfOk result (λ f. types_beside f ≡ types_seen (scope_view scope.now) (typed_form_view f)) }
{
    let e = expression(alloc, scope, e)?;
    let body = block(alloc, scope, in_loop, body, found)?;
    let other = otherwise(alloc, scope, in_loop, other, found)?;
    Ok(TypedForm::If(e, body, other))
}

#[cycle(statements)]
#[tactic(auto, using(crate::proofs::Sizes::try_sizes))]
#[inline(never)]
fn try_form(
    alloc: Global,
    scope: &Scope,
    in_loop: bool,
    body: &[Stmt],
    handled: &[(Name, Vec<Stmt>)],
    found: &mut Vec<Judged>,
) -> Result<TypedForm, AllocError>
    requires known { IsKnown scope.now }
    ensures meaning { IfOk result (λ f. typed_form_view f ≡ statement_number (scope_view scope.now) (trees.Try (stmts_view body.now) (arms_of (map arm_view handled.now)))) }
    ensures codes { IfOk result (λ f. codes_found found.new.items ≡ codes_found found.old.items ++ (body_codes (scope_view scope.now) in_loop body.now ++ arms_codes (scope_view scope.now) in_loop handled.now)) }
    ensures spans { IfOk result (λ f. spans_found found.new.items ≡ spans_found found.old.items ++ (body_spans body.now ++ all_spans handled.now)) }
    ensures entries { IfOk result (λ f. map typed_entry (statements_within f) ≡ flat_map (written_entries (scope_view scope.now)) body.now ++ flat_map (λ a. flat_map (written_entries (scope_view scope.now)) a.1.items) handled.now) }
    ensures types { IfOk result (λ f. types_beside f ≡ types_seen (scope_view scope.now) (typed_form_view f)) }
{
    let body = block(alloc, scope, in_loop, body, found)?;
    let handled = handlers(alloc, scope, in_loop, handled, found)?;
    Ok(TypedForm::Try(body, handled))
}

/// A statement without its number and its place, by number.
#[cycle(statements)]
#[tactic(auto, using(crate::proofs::Sizes::case_size, crate::proofs::Sizes::select_size, crate::proofs::Sizes::for_size, crate::proofs::Sizes::while_size, crate::proofs::Sizes::if_size, crate::proofs::Sizes::try_size))]
fn form(
    alloc: Global,
    scope: &Scope,
    in_loop: bool,
    form: &StmtForm,
    found: &mut Vec<Judged>,
) -> Result<TypedForm, AllocError>
    requires known { IsKnown scope.now }
    ensures meaning { IfOk result (λ f. typed_form_view f ≡ statement_number (scope_view scope.now) (stmt_form_view form.now)) }
    ensures codes { IfOk result (λ f. codes_found found.new.items ≡ codes_found found.old.items ++ codes_of (scope_view scope.now) (within in_loop (stmt_form_view form.now))) }
    ensures spans { IfOk result (λ f. spans_found found.new.items ≡ spans_found found.old.items ++ spans_within form.now) }
    ensures entries { IfOk result (λ f. map typed_entry (statements_within f) ≡ map (written_entry (scope_view scope.now)) (written_within form.now)) }
    ensures types { IfOk result (λ f. types_beside f ≡ types_seen (scope_view scope.now) (typed_form_view f)) }
{
    match form {
        StmtForm::Assign(x, e) => {
            let f = forms::assign(alloc, scope, x, e)?;
            Ok(f)
        }
        StmtForm::Move(y, x) => {
            let f = forms::move_to(alloc, scope, y, x)?;
            Ok(f)
        }
        StmtForm::New(x) => {
            let f = forms::make(alloc, scope, x)?;
            Ok(f)
        }
        StmtForm::Discard(x) => {
            let f = forms::discard(alloc, scope, x)?;
            Ok(f)
        }
        StmtForm::Unite(c, y) => {
            let f = forms::unite(alloc, scope, c, y)?;
            Ok(f)
        }
        StmtForm::Dissolve(c, y) => {
            let f = forms::dissolve(alloc, scope, c, y)?;
            Ok(f)
        }
        StmtForm::Reveal(c) => {
            let f = forms::reveal(alloc, scope, c)?;
            Ok(f)
        }
        StmtForm::Case(v, arms) => {
            let case_list = arms.as_slice();
            let f = case_form(alloc, scope, in_loop, v, case_list, found)?;
            Ok(f)
        }
        StmtForm::Wrap(y, p) => {
            let f = forms::wrap(alloc, scope, y, p)?;
            Ok(f)
        }
        StmtForm::Unwrap(p, name, y) => {
            let f = forms::unwrap(alloc, scope, p, name, y)?;
            Ok(f)
        }
        StmtForm::Insert(r, t) => {
            let f = forms::insert(alloc, scope, r, t)?;
            Ok(f)
        }
        StmtForm::Remove(r, t, keys) => {
            let f = forms::remove(alloc, scope, r, t, keys.as_slice())?;
            Ok(f)
        }
        StmtForm::Get(r, t, keys) => {
            let f = forms::get(alloc, scope, r, t, keys.as_slice())?;
            Ok(f)
        }
        StmtForm::For(r, t, body) => {
            let for_list = body.as_slice();
            let f = for_form(alloc, scope, r, t, for_list, found)?;
            Ok(f)
        }
        StmtForm::Connect(o, i) => {
            let f = forms::connect(alloc, scope, o, i)?;
            Ok(f)
        }
        StmtForm::Send(x, o) => {
            let f = forms::send(alloc, scope, x, o)?;
            Ok(f)
        }
        StmtForm::Receive(x, i) => {
            let f = forms::receive(alloc, scope, x, i)?;
            Ok(f)
        }
        StmtForm::Select(arms) => {
            let ports = arms.as_slice();
            let f = select_form(alloc, scope, in_loop, ports, found)?;
            Ok(f)
        }
        StmtForm::Call(o, arguments) => {
            let f = forms::call(alloc, scope, o, arguments.as_slice())?;
            Ok(f)
        }
        StmtForm::Return(m) => {
            let f = forms::give_back(alloc, scope, m)?;
            Ok(f)
        }
        StmtForm::ReturnBy(m, name) => {
            let f = forms::return_by(alloc, scope, m, name)?;
            Ok(f)
        }
        StmtForm::Create(o, name) => {
            let f = forms::create(alloc, scope, o, name)?;
            Ok(f)
        }
        StmtForm::If(e, body, other) => {
            let if_list = body.as_slice();
            let f = if_form(alloc, scope, in_loop, e, if_list, other, found)?;
            Ok(f)
        }
        StmtForm::While(e, body) => {
            let while_list = body.as_slice();
            let f = while_form(alloc, scope, e, while_list, found)?;
            Ok(f)
        }
        StmtForm::Raise(name) => Ok(forms::raise(scope, name)),
        StmtForm::Leave => Ok(TypedForm::Leave),
        StmtForm::Try(body, handled) => {
            let try_list = body.as_slice();
            let handlers_list = handled.as_slice();
            let f = try_form(alloc, scope, in_loop, try_list, handlers_list, found)?;
            Ok(f)
        }
    }
}

/// A statement by number. What is found at it stands before what is found within it.
#[cycle(statements)]
#[tactic(auto, using(crate::proofs::Sizes::one_size))]
fn statement(
    alloc: Global,
    scope: &Scope,
    in_loop: bool,
    s: &Stmt,
    found: &mut Vec<Judged>,
) -> Result<TypedStmt, AllocError>
    requires known { IsKnown scope.now }
    ensures meaning { IfOk result (λ t. meant (t ∷ []) ≡ written (scope_view scope.now) (s.now ∷ [])) }
    ensures codes { IfOk result (λ t. codes_found found.new.items ≡ codes_found found.old.items ++ body_codes (scope_view scope.now) in_loop (s.now ∷ [])) }
    ensures spans { IfOk result (λ t. spans_found found.new.items ≡ spans_found found.old.items ++ body_spans (s.now ∷ [])) }
    ensures entries { IfOk result (λ t. typed_entries t ≡ written_entries (scope_view scope.now) s.now) }
{
    let place = found.len();
    found.push(Judged {
        span: s.span,
        code: None,
    })?;
    let typed = form(alloc, scope, in_loop, &s.form, found)?;
    let code = code_of(alloc, scope, in_loop, &s.form, &typed)?;
    set_code(found, place, code);
    Ok(TypedStmt {
        no: s.no,
        span: s.span,
        form: typed,
    })
}

/// The statements of a block by number, with what is found at each and within each, in the order of the text.
#[cycle(statements)]
#[tactic(auto, using(crate::proofs::Sizes::item_size))]
pub fn block(
    alloc: Global,
    scope: &Scope,
    in_loop: bool,
    list: &[Stmt],
    found: &mut Vec<Judged>,
) -> Result<Vec<TypedStmt>, AllocError>
    requires known { IsKnown scope.now }
    ensures meaning { IfOk result (λ r. meant r.items ≡ written (scope_view scope.now) list.now) }
    ensures codes { IfOk result (λ r. codes_found found.new.items ≡ codes_found found.old.items ++ body_codes (scope_view scope.now) in_loop list.now) }
    ensures spans { IfOk result (λ r. spans_found found.new.items ≡ spans_found found.old.items ++ body_spans list.now) }
    ensures entries { IfOk result (λ r. map typed_entries r.items ≡ map (written_entries (scope_view scope.now)) list.now) }
{
    let mut done = Vec::new(alloc);
    'statements: for s in list {
        let t = statement(alloc, scope, in_loop, s, found)?;
        done.push(t)?;
    }
    Ok(done)
}
